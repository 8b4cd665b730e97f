//! A router is run.
ghost use Rattle.std.specs.Prelude.{◌≡◌, [], IfErr, IfOk, IfSome, IsOkAnd, MatchResult, Ok, OnErr};
ghost use Rattle.std.specs.Option.{option_map};
ghost use Rattle.router_daemon.specs.Passes.{IsLegalPass};
ghost use Rattle.router_daemon.specs.Running as spec;
ghost use Rattle.router_daemon.specs.Running.{HasOperator, IsEarly, IsOpened, SavesTo, keep_of};
ghost use Rattle.router_daemon.specs.Uses.{BeginsWithFilters};
ghost use Rattle.slot_lock.specs.Passes.{IsNew};
ghost use Rattle.router_daemon.specs.declared.fault.DaemonFault.TheVariants as fault;

use crate::bounding::MostInMemory;
use crate::closing::close_links;
use crate::controls::{Controls, start_controls};
use crate::fault::DaemonFault;
use crate::feeding::{FeedFile, Feeding, start_feeding};
use crate::filtering::name_filters;
use crate::folder::LinkFolder;
use crate::forgetting::Forgetter;
use crate::logging::{LogWriter, open_log, start_log};
use crate::opening::open_router;
use crate::operating::{Figures, OperatorEnd, serve_lines};
use crate::outbox::{Counts, Outbox};
use crate::router_passes::{LegalPass, RouterPass};
use crate::setting::{RouterEnd, Setting, VerifiedFilters};
use crate::shared::{Shared, shared_of};
use crate::signals::Beginning;
use crate::standard_input::InputPipe;
use crate::starting::{Bounding, Links, start_bounding, start_links, start_telling, take_part};
use crate::telling::{Event, tell_event};
use history_saver::{SaveFault, SegmentFolder, SegmentSaver};
use line_protocol::StreamFault;
use neighbour_session::Domain;
use netchange_core::Opening;
use operator_cmds::Direction;
use router_operator::{Configuration, Naming};
use router_options::{ControlFiles, DomainMark, LinkFiles, RouterPlan};
use slot_lock::{Pass, Right, Router};
use std::alloc::{AllocError, Global};
use std::io::{Read, Write};
use std::marker::Brand;
use std::random::RandomSource;
use std::rt::Clock;
use std::sync::{Arc, Wait};
use std::thread::Threads;

/// What is around a router, besides its links and operators.
#[derive(Drop)]
pub struct Surroundings<'a> {
    /// The version of the program.
    pub version: &'static str,
    /// Where the routes are told, if they are.
    pub feed: Option<FeedFile<'a>>,
    /// The file of the log, if one is kept.
    pub log: Option<&'a str>,
    /// Where standard input is ended, if it can be.
    pub pipe: Option<Arc<InputPipe>>,
}

/// What a router that was opened has around it.
#[derive(Drop)]
struct OpenedSurroundings<J: Naming> {
    /// Where its routes are told.
    feeding: Option<Feeding<J>>,
    /// Where its log is kept.
    log_writer: Option<LogWriter>,
    /// Where operators are served, besides standard input.
    controls: Vec<ControlFiles>,
    /// Where standard input is ended.
    pipe: Option<Arc<InputPipe>>,
}

/// Who saves and forgets the history of a router that was just opened. The first segment is made, if there is a folder.
fn begin_forgetting<S: SegmentFolder + Drop, J: Naming>(
    alloc: Global,
    save: Option<S>,
    plan: &RouterPlan,
    right: Right,
) -> Result<Forgetter<S, J>, DaemonFault>
    requires new { IsNew J.router 1 right }
    requires is_opened { IsOpened plan.now J.router }
    requires empty { IfSome save (λ folder. IfSome (S.holds folder) (λ v. v.segments ≡ [])) }
    ensures how { IfOk result (λ forgetter. option_map keep_of forgetter.saver
        ≡ spec.asked_for plan.now (option_map (λ folder. S.holds folder) save)) }
    ensures early { IfErr result IsEarly }
{
    match Forgetter::begin(alloc, save, &plan.opening, plan.limit, plan.segments, right) {
        Ok(forgetter) => Ok(forgetter),
        Err(fault) => Err(DaemonFault::NotBegun(fault)),
    }
}

/// The digest that the domain of a neighbour has to have, where it says one.
fn wanted_digest(mark: Option<DomainMark>) -> Option<[u8; 8]>
    ensures { result ≡ spec.wanted_digest mark }
{
    match mark {
        Some(mark) if !mark.allows_other => Some(mark.digest),
        _ => None,
    }
}

/// A router's place in its domain, and the digest that a neighbour's domain has to have.
fn domain_of(opening: &Opening, mark: Option<DomainMark>) -> Domain
    ensures size { result.size ≡ opening.now.size }
    ensures me { result.me ≡ opening.now.me }
    ensures digest { result.digest ≡ spec.wanted_digest mark }
{
    Domain {
        size: opening.size(),
        me: opening.me(),
        digest: wanted_digest(mark),
    }
}

/// Tells people first, if the history is not saved, that it is not.
fn tell_if_unkept<R: Clock>(
    rt: &R,
    alloc: Global,
    outbox: &mut Outbox,
    counts: &Counts,
    saves: bool,
) {
    if !saves {
        tell_event(alloc, outbox, Event::Unkept);
        counts.await_written(rt);
    }
}

/// Saves the end of the history, if it is saved, at least as far as a pass has seen it. People are told where that fails.
fn end_saving<R: Wait + Clock, S: SegmentFolder + Drop, J: Naming, E: Write>(
    rt: &R,
    alloc: Global,
    shared: &Shared<J, E>,
    forgetter: Forgetter<S, J>,
    router_pass: RouterPass<J>,
) -> Result<Option<SegmentSaver<S>>, SaveFault>
    ensures { IfOk result (SavesTo J.router router_pass.pass.fragment.seen (option_map keep_of forgetter.saver)) }
{
    let saved = forgetter.finish(rt, alloc, shared, router_pass);
    if let Err(fault) = &saved {
        shared.tell(rt, alloc, Event::Lost(*fault));
    }
    saved
}

/// Serves the links of a router and its operator, until the operator quits or their lines end.
fn serve_all<
    R: Threads + Wait + Clock + RandomSource + Copy + Send + Drop + 'static,
    FI: Read + Send + Drop + 'static,
    FO: Write + Send + Drop + 'static,
    D: LinkFolder<FI, FO> + Send + Sync + Drop + 'static,
    C: Configuration + Send + Sync + Drop + 'static,
    J: Naming + Send + Sync + 'static,
    E: Write + Send + Drop + 'static,
    I: Read,
    W: Write,
>(
    rt: &R,
    alloc: Global,
    folder: D,
    configuration: C,
    shared: &Arc<Shared<J, E>>,
    pass: &mut Pass,
    links: Vec<LinkFiles>,
    common: Links,
    around: OpenedSurroundings<J>,
    figures: Figures,
    filters: VerifiedFilters,
    reader: &mut I,
    writer: &mut W,
) -> Result<OperatorEnd<J>, AllocError>
    requires legal { IsLegalPass J.router pass.old }
    requires size { figures.size ≡ J.router.opening.size }
    requires limit { figures.limit ≡ J.router.limit }
    ensures legal { IsLegalPass J.router pass.new }
    ensures operated { IfOk result (λ operated. IfSome (I.remaining reader.old) (λ input.
        HasOperator J.router pass.old.fragment.seen filters.entries shared.now.value.nodes.items operated.answered input (I.remaining reader.new)
        (W.contents writer.old) (W.contents writer.new) operated.router_pass.pass)) }
    ensures untouched { OnErr result ((reader.new ≡ reader.old) × (writer.new ≡ writer.old)) }
{
    // Never so: a router is opened with 65,536 shares, far more than are given away. No clause says that here.
    if pass.shares() < 2 {
        return Err(AllocError);
    }
    let operators = LegalPass::new(shared.router.split(pass, 1));
    let folder = Arc::new(alloc, folder)?;
    let configuration = Arc::new(alloc, configuration)?;
    let OpenedSurroundings {
        feeding,
        log_writer,
        controls: files,
        pipe,
    } = around;
    start_log::<R, FI, FO, D, J, E>(rt, alloc, &folder, shared, log_writer)?;
    start_links::<R, FI, FO, D, J, E>(rt, alloc, &folder, shared, pass, links, common)?;
    start_feeding::<R, FI, FO, D, J, E>(rt, alloc, &folder, shared, pass, feeding)?;
    let controls = Controls::new(figures, pipe);
    start_controls::<R, FI, FO, D, C, J, E>(
        rt,
        alloc,
        &folder,
        shared,
        &configuration,
        pass,
        files,
        &filters,
        controls,
    )?;
    Ok(serve_lines(
        rt, alloc, shared, operators, figures, filters, reader, writer,
    ))
}

/// What a router came to, by how its operator's lines ended and what became of its history.
fn end_of<S: SegmentFolder + Drop>(
    answered: Result<u32, StreamFault>,
    saved: Result<Option<SegmentSaver<S>>, SaveFault>,
) -> Result<RouterEnd<S>, DaemonFault>
    ensures ok { IfOk result (λ end. (answered ≡ Ok end.refused) × (saved ≡ Ok end.saved)) }
    ensures err { IfErr result (spec.IsWhy answered) }
    ensures cause { IfErr result (spec.IsOfSaving saved) }
{
    match (answered, saved) {
        (Ok(refused), Ok(saved)) => Ok(RouterEnd { refused, saved }),
        (Ok(_), Err(fault)) => Err(DaemonFault::Save(fault)),
        (Err(fault), _) => Err(DaemonFault::Stream(fault)),
    }
}

/// What a router came to that ran, once its history is saved.
fn end_run<R: Threads + Wait + Clock, S: SegmentFolder + Drop, J: Naming, E: Write>(
    rt: &R,
    alloc: Global,
    shared: &Shared<J, E>,
    bounding: Bounding<S, J>,
    ran: Result<OperatorEnd<J>, AllocError>,
) -> Result<RouterEnd<S>, DaemonFault>
    ensures ok { IfOk result (λ end. IsOkAnd ran (λ operated. (operated.answered ≡ Ok end.refused)
        × SavesTo J.router operated.router_pass.pass.fragment.seen (option_map keep_of bounding.promise.0.value.saver) end.saved)) }
    ensures err { IfErr result (λ why. MatchResult ran (λ operated. spec.IsWhy operated.answered why) (λ _. why ≡ fault.Memory)) }
{
    let forgetter = bounding.join(rt);
    match ran {
        Ok(
            OperatorEnd {
                answered,
                router_pass,
            },
        ) => {
            let saved = end_saving(rt, alloc, shared, forgetter, router_pass);
            end_of(answered, saved)
        }
        Err(_) => Err(DaemonFault::Memory),
    }
}

/// Waits until the log is written, if one is kept, for a second at most.
fn await_logged<R: Clock>(rt: &R, logged: &Option<Arc<Counts>>) {
    if let Some(counts) = logged {
        counts.await_written(rt);
    }
}

/// Runs a router that was opened, until the operator quits or their lines end.
fn run_named<
    J: Naming + Send + Sync + 'static,
    R: Threads + Wait + Clock + RandomSource + Copy + Send + Drop + 'static,
    FI: Read + Send + Drop + 'static,
    FO: Write + Send + Drop + 'static,
    D: LinkFolder<FI, FO> + Send + Sync + Drop + 'static,
    C: Configuration + Send + Sync + Drop + 'static,
    S: SegmentFolder + Send + Drop + 'static,
    E: Write + Send + Drop + 'static,
    I: Read,
    W: Write,
>(
    rt: &R,
    alloc: Global,
    folder: D,
    configuration: C,
    setting: Setting<S>,
    surroundings: Surroundings<'_>,
    errors: E,
    reader: &mut I,
    writer: &mut W,
    router: Router,
    mut pass: Pass,
    right: Right,
) -> Result<RouterEnd<S>, DaemonFault>
    requires named { router ≡ J.router }
    requires legal { IsLegalPass J.router pass }
    requires right { IsNew J.router 1 right }
    requires is_opened { IsOpened setting.plan J.router }
    requires set { BeginsWithFilters J.router setting.plan setting.filters.entries pass }
    requires empty { IfSome setting.save (λ folder. IfSome (S.holds folder) (λ v. v.segments ≡ [])) }
    ensures operated { IfOk result (λ end. IfSome (I.remaining reader.old) (λ input. spec.RunsAsOne setting.plan setting.filters.entries
        (option_map (λ folder. S.holds folder) setting.save) end.saved end.refused input (I.remaining reader.new) (W.contents writer.old)
        (W.contents writer.new))) }
    ensures saved { IfOk result (λ end. spec.Saves setting.plan (option_map (λ folder. S.holds folder) setting.save) end.saved) }
    ensures failed { IfErr result (spec.Fails (λ answered. IfSome (I.remaining reader.old) (λ input. spec.Operated setting.plan
        setting.filters.entries answered input (I.remaining reader.new) (W.contents writer.old) (W.contents writer.new)))
        ((reader.new ≡ reader.old) × (writer.new ≡ writer.old))) }
{
    let Setting {
        plan,
        filters,
        save,
    } = setting;
    let forgetter = begin_forgetting(alloc, save, &plan, right)?;
    let RouterPlan {
        opening,
        limit,
        queue,
        imports,
        exports,
        links,
        retry,
        hold,
        stays,
        controls,
        domain,
        ..
    } = plan;
    let figures = Figures {
        size: opening.size(),
        limit,
        stays,
    };
    let common = Links {
        domain: domain_of(&opening, domain),
        retry,
        hold,
    };
    let Surroundings {
        version,
        feed,
        log,
        pipe,
    } = surroundings;
    let feeding = Feeding::<J>::new(alloc, feed, &opening)?;
    let (log, log_writer, logged) = open_log(alloc, log)?;
    let beginning = Beginning::now(rt, version, domain.map(|mark| mark.digest));
    let shared: Arc<Shared<J, E>> = Arc::new(
        alloc,
        shared_of(
            alloc,
            router,
            &opening,
            links.as_slice(),
            domain,
            beginning,
            log,
            errors,
        )?,
    )?;
    let signals = &shared.signals;
    name_filters(rt, signals, Direction::Import, imports.as_slice(), &filters);
    name_filters(rt, signals, Direction::Export, exports.as_slice(), &filters);
    shared.tell(rt, alloc, Event::Begins(version));
    let around = OpenedSurroundings {
        feeding,
        log_writer,
        controls,
        pipe,
    };
    let router_pass = take_part(&shared, &mut pass, 1)?;
    let most = MostInMemory {
        entries: limit,
        messages: queue,
    };
    let bounding = start_bounding(rt, alloc, &shared, forgetter, router_pass, most)?;
    let ran = serve_all::<R, FI, FO, D, C, J, E, I, W>(
        rt,
        alloc,
        folder,
        configuration,
        &shared,
        &mut pass,
        links,
        common,
        around,
        figures,
        filters,
        reader,
        writer,
    );
    close_links(rt, &shared, &mut pass);
    let ended = end_run(rt, alloc, &shared, bounding, ran);
    shared.tell(rt, alloc, Event::Ends);
    await_logged(rt, &logged);
    ended
}

/// Runs a router: its links, its operators and its history, until one of them quits or the lines of `reader` end. The folder in which its history is
/// to be saved has no segments before. Its routes are told, if a file is named for them, and its log is kept, if one is. People are told by a thread of
/// their own, so that nobody else waits for `errors`.
pub fn run_router<
    R: Threads + Wait + Clock + RandomSource + Copy + Send + Drop + 'static,
    FI: Read + Send + Drop + 'static,
    FO: Write + Send + Drop + 'static,
    D: LinkFolder<FI, FO> + Send + Sync + Drop + 'static,
    C: Configuration + Send + Sync + Drop + 'static,
    S: SegmentFolder + Send + Drop + 'static,
    E: Write + Send + Drop + 'static,
    I: Read,
    W: Write,
>(
    rt: &R,
    alloc: Global,
    folder: D,
    configuration: C,
    setting: Setting<S>,
    surroundings: Surroundings<'_>,
    errors: E,
    reader: &mut I,
    writer: &mut W,
) -> Result<RouterEnd<S>, DaemonFault>
    requires { IfSome setting.save (λ folder. IfSome (S.holds folder) (λ v. v.segments ≡ [])) }
    ensures operated { IfOk result (λ end. IfSome (I.remaining reader.old) (λ input. spec.RunsAsOne setting.plan setting.filters.entries
        (option_map (λ folder. S.holds folder) setting.save) end.saved end.refused input (I.remaining reader.new) (W.contents writer.old)
        (W.contents writer.new))) }
    ensures saved { IfOk result (λ end. spec.Saves setting.plan (option_map (λ folder. S.holds folder) setting.save) end.saved) }
    ensures failed { IfErr result (spec.Fails (λ answered. IfSome (I.remaining reader.old) (λ input. spec.Operated setting.plan
        setting.filters.entries answered input (I.remaining reader.new) (W.contents writer.old) (W.contents writer.new)))
        ((reader.new ≡ reader.old) × (writer.new ≡ writer.old))) }
{
    let (router, pass, right) = open_router(rt, alloc, &setting.plan, &setting.filters)?;
    let (mut outbox, counts) = start_telling(rt, alloc, errors)?;
    tell_if_unkept(rt, alloc, &mut outbox, &counts, setting.save.is_some());
    let ran = run_named::<Brand, R, FI, FO, D, C, S, Outbox, I, W>(
        rt,
        alloc,
        folder,
        configuration,
        setting,
        surroundings,
        outbox,
        reader,
        writer,
        router,
        pass,
        right,
    );
    counts.await_written(rt);
    ran
}
