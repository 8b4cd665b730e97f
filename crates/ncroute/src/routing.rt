//! The command `router`: from the words to an exit status.
//!
//! **`router` makes its plan first, then reads its filters, and makes the folder of its history last.** The plan asks for no file, and a folder
//! that was made would stay behind a filter that is refused. `run_router` opens the first link, so nothing is opened before all of that is there.
//!
//! **`--save` takes a folder that is not there, at each start.** A router reads no history: its neighbours tell it all again. Segments of two
//! starts in one folder would not be one history, and one that goes on in a folder would first have to see that what is there is whole.
//!
//! **`router` ends with 0 where it ran to its end, whatever its operator was refused**, since a router is not worse for a line that was mistyped. A
//! filter that is refused ends it with 1, as a fault does that keeps a router from beginning: in both cases there is no router, and standard error says
//! why. Who starts routers asks more of one that ran: 3 says that its operator was lost, and 4 that its history was.
//!
//! **People are told of links by a handle of standard error of their own**, which the threads of links share. So what `serve_router` promises of
//! the other handle, on which it tells why a router is not there, does not depend on when a link is closed.
ghost use Rattle.std.specs.Option.{option_map};
ghost use Rattle.std.specs.Prelude.{◌≡◌, ◌++◌, IfErr, IfOk, IfSome, MatchOption, OnOk};
ghost use Rattle.std.specs.Io.KnownBytes.{Appends};
ghost use Rattle.filter_reports.specs.Cuts.{IsCut};
ghost use Rattle.filter_reports.specs.Faults.{stream_fault};
ghost use Rattle.ncroute.specs.Checked as checked;
ghost use Rattle.ncroute.specs.Routing as spec;
ghost use Rattle.router_words.specs.Stated.{origin_of};
ghost use Rattle.ncroute.specs.WrongWords.{wrong_line};

use crate::folders::HistoryFolders;
use crate::loading::load_filters;
use crate::origins::Origins;
use crate::planning::{PlanFault, is_memory, plan_of};
use crate::reloading::RouterFiles;
use crate::wrong_words::wrong_line;
use command_line::RouterWords;
use domain_files::{DomainFile, NodeFile};
use filter_reports::{FAILED, ProgramFault};
use history_saver::{SaveFault, SegmentSaver};
use line_protocol::StreamFault;
use program_console::{Console, Folder, Program, fault_line, tell_uncreated, write_line};
use program_words::VERSION;
use route_history::CallFault;
use router_daemon::{
    DaemonFault, FeedFile, InputPipe, LinkFolder, Setting, Surroundings, run_router,
};
use router_options::RouterPlan;
use router_words::Origin;
use slot_lock::LockFault;
use std::alloc::Global;
use std::io::{Read, Write};
use std::random::RandomSource;
use std::rt::Clock;
use std::sync::{Arc, Wait};
use std::thread::Threads;

/// For how many seconds the first table of routes waits at most, if no word says otherwise.
const SETTLE: u32 = 10;

/// The exit status where the words are wrong.
pub const WRONG_WORDS: u8 = 2;

/// The exit status where the operator's lines could not be read or answered.
const BROKEN_OFF: u8 = 3;

/// The exit status where the end of the history is not saved.
const UNSAVED: u8 = 4;

/// What a router has besides the console.
#[derive(Drop)]
pub struct Outlets<T> {
    /// Where people are told of links.
    pub voice: T,
    /// Where standard input is ended.
    pub pipe: Arc<InputPipe>,
    /// The files by which it is started.
    pub origins: Origins,
}

impl<T> Outlets<T> {
    /// The same of a router that is started by this file of options.
    pub(crate) fn by_options(self, alloc: Global, origin: Origin<'_>) -> Outlets<T> {
        let Outlets {
            voice,
            pipe,
            origins,
        } = self;
        let origins = origins.by_options(alloc, origin);
        Outlets {
            voice,
            pipe,
            origins,
        }
    }

    /// The same of a router that is started by the file of its domain, which words name.
    pub(crate) fn in_domain(
        self,
        alloc: Global,
        words: &RouterWords,
        file: &DomainFile,
        me: u32,
        node: &Option<NodeFile>,
    ) -> Outlets<T> {
        let Outlets {
            voice,
            pipe,
            origins,
        } = self;
        let origins = origins.in_domain(alloc, words, file, me, node);
        Outlets {
            voice,
            pipe,
            origins,
        }
    }
}

/// What kept a router from being set up.
#[derive(Clone, Copy)]
pub enum SetupFault<'a> {
    /// The words are wrong.
    Words(PlanFault<'a>),
    /// A fault of the program.
    Program(ProgramFault),
}

/// The exit status of a router that ended with a line which people were not told, or not whole.
#[derive(Clone, Copy)]
pub struct Unreported {
    /// The exit status.
    pub status: u8,
    /// Why the line was not told: memory was refused, or standard error did not take it.
    pub why: ProgramFault,
}

/// Tells people the line with which a router ends: the exit status.
pub(crate) fn end_by_line<E: Write>(
    errors: &mut E,
    status: u8,
    line: &[u8],
) -> Result<u8, Unreported>
    ensures told { IfOk result (λ ended. (ended ≡ status) × Appends (E.contents errors.old) (E.contents errors.new) line.now) }
    ensures cut { IfErr result (λ unreported. (unreported.status ≡ status)
        × IsCut (stream_fault unreported.why) (E.contents errors.old) (E.contents errors.new) line.now) }
{
    match write_line(errors, line) {
        Ok(()) => Ok(status),
        Err(why) => Err(Unreported { status, why }),
    }
}

/// Tells people what is wrong with the words: the exit status.
fn end_by_words<E: Write>(
    alloc: Global,
    errors: &mut E,
    origin: Origin<'_>,
    fault: PlanFault<'_>,
) -> Result<u8, Unreported>
    ensures told { IfOk result (λ ended. (ended ≡ 2)
        × Appends (E.contents errors.old) (E.contents errors.new) (wrong_line (origin_of origin.entry) fault.entry)) }
    ensures cut { IfErr result (λ unreported. (unreported.status ≡ 2)
        × IsCut (stream_fault unreported.why) (E.contents errors.old) (E.contents errors.new) (wrong_line (origin_of origin.entry) fault.entry)) }
{
    match wrong_line(alloc, origin, fault) {
        Ok(line) => end_by_line(errors, WRONG_WORDS, line.as_slice()),
        Err(_) => Err(Unreported {
            status: WRONG_WORDS,
            why: ProgramFault::MEMORY,
        }),
    }
}

/// Tells people what kept a router from being set up: the exit status.
pub(crate) fn end_unset<E: Write>(
    alloc: Global,
    errors: &mut E,
    origin: Origin<'_>,
    fault: SetupFault<'_>,
) -> Result<u8, Unreported>
    ensures told { IfOk result (λ ended. (ended ≡ spec.setup_status fault.entry)
        × Appends (E.contents errors.old) (E.contents errors.new) (spec.setup_line (origin_of origin.entry) fault.entry)) }
    ensures cut { IfErr result (λ unreported. (unreported.status ≡ spec.setup_status fault.entry)
        × IsCut (stream_fault unreported.why) (E.contents errors.old) (E.contents errors.new) (spec.setup_line (origin_of origin.entry) fault.entry)) }
{
    match fault {
        SetupFault::Words(fault) => end_by_words(alloc, errors, origin, fault),
        SetupFault::Program(fault) => end_by_line(
            errors,
            FAILED,
            fault_line(Program::Ncroute, fault).as_bytes(),
        ),
    }
}

/// The line that tells of a fault of saving.
fn save_line(fault: SaveFault) -> &'static str
    ensures { result.now ≡ spec.save_line fault }
{
    match fault {
        SaveFault::Write => fault_line(Program::Ncroute, ProgramFault::Stream(StreamFault::Write)),
        SaveFault::Memory => fault_line(Program::Ncroute, ProgramFault::MEMORY),
    }
}

/// The line that tells of a fault of a router.
fn router_line(fault: DaemonFault) -> &'static str
    ensures { result.now ≡ spec.router_line fault }
{
    match fault {
        DaemonFault::Stream(fault) => fault_line(Program::Ncroute, ProgramFault::Stream(fault)),
        DaemonFault::Call(CallFault::Full) => "ncroute: J1\n",
        DaemonFault::Call(CallFault::Memory) => "ncroute: J2\n",
        DaemonFault::Lock(LockFault::Held) => "ncroute: L2\n",
        DaemonFault::Lock(LockFault::Memory) => "ncroute: L3\n",
        DaemonFault::NotBegun(fault) | DaemonFault::Save(fault) => save_line(fault),
        DaemonFault::NotStarted => "ncroute: X2\n",
        DaemonFault::Memory => fault_line(Program::Ncroute, ProgramFault::MEMORY),
    }
}

/// The exit status of a router that a fault ended.
fn fault_status(fault: DaemonFault) -> u8
    ensures { result ≡ spec.fault_status fault }
{
    match fault {
        DaemonFault::Stream(_) => BROKEN_OFF,
        DaemonFault::Save(_) => UNSAVED,
        DaemonFault::Call(_)
        | DaemonFault::Lock(_)
        | DaemonFault::NotBegun(_)
        | DaemonFault::NotStarted
        | DaemonFault::Memory => FAILED,
    }
}

/// Tells people of the fault that ended a router: the exit status.
fn end_by_fault<E: Write>(errors: &mut E, fault: DaemonFault) -> Result<u8, Unreported>
    ensures told { IfOk result (λ ended. (ended ≡ spec.fault_status fault) × Appends (E.contents errors.old) (E.contents errors.new) (spec.router_line fault)) }
    ensures cut { IfErr result (λ unreported. (unreported.status ≡ spec.fault_status fault)
        × IsCut (stream_fault unreported.why) (E.contents errors.old) (E.contents errors.new) (spec.router_line fault)) }
{
    end_by_line(errors, fault_status(fault), router_line(fault).as_bytes())
}

/// Makes the folder in which the history is saved, if one is named. There is none where it is not made, which people are told.
pub(crate) fn make_save<F: HistoryFolders, E: Write>(
    files: &F,
    alloc: Global,
    save: &Option<String>,
    errors: &mut E,
) -> Result<Option<Option<F::Segments>>, ProgramFault>
    ensures finished { IfOk result (λ made. MatchOption made
        (spec.LacksSave (F.makes files.now) save.now (E.contents errors.old) (E.contents errors.new))
        (λ folder. spec.MakesSave (F.makes files.now) save.now (option_map (λ segments. F.Segments.holds segments) folder)
        × (E.contents errors.new ≡ E.contents errors.old))) }
    ensures empty { IfOk result (λ made. IfSome made (λ folder. IfSome folder (λ segments. spec.IsEmpty (F.Segments.holds segments)))) }
    ensures stopped { IfErr result (λ fault. spec.CutsSave (F.makes files.now) (stream_fault fault) save.now
        (E.contents errors.old) (E.contents errors.new)) }
{
    match save {
        None => Ok(Some(None)),
        Some(name) => match files.make(alloc, name.as_str()) {
            Ok(folder) => Ok(Some(Some(folder))),
            Err(why) => match tell_uncreated(alloc, errors, name.as_str(), &why) {
                Ok(()) => Ok(None),
                Err(fault) => Err(fault),
            },
        },
    }
}

/// The size of the domain of a plan.
fn size_of(plan: &RouterPlan) -> u16
    ensures { result ≡ plan.now.opening.size }
{
    plan.opening.size()
}

/// Where the routes are told, if they are to be.
fn feed_of(words: &RouterWords) -> Option<FeedFile<'_>>
    ensures { option_map (λ feed. (feed.name.now, feed.settle)) result ≡ spec.feed_of words.now }
{
    match &words.routes {
        Some(name) => Some(FeedFile {
            name: name.as_str(),
            settle: words.settle.unwrap_or(SETTLE),
        }),
        None => None,
    }
}

/// What is around the router that words ask for.
pub(crate) fn surroundings_of(words: &RouterWords, pipe: Arc<InputPipe>) -> Surroundings<'_> {
    let log = match &words.log {
        Some(name) => Some(name.as_str()),
        None => None,
    };
    Surroundings {
        version: VERSION,
        feed: feed_of(words),
        log,
        pipe: Some(pipe),
    }
}

/// What a router of this plan is run with: its filters are read and verified, and then the folder of its history is made. There is none
/// where something is not there, which people are told.
fn fit_out<F: Folder + HistoryFolders, R: Read, W: Write, E: Write>(
    files: &F,
    alloc: Global,
    words: &RouterWords,
    plan: RouterPlan,
    console: &mut Console<R, W, E>,
) -> Result<Option<Setting<F::Segments>>, ProgramFault>
    ensures finished { IfOk result (λ set. MatchOption set
        (spec.LacksParts (F.makes files.now) (F.opens files.now) words.now plan console.old console.new)
        (λ setting. spec.FitsOut (F.makes files.now) (F.opens files.now) words.now plan setting.filters.entries
        (option_map (λ segments. F.Segments.holds segments) setting.save) console.old console.new × (setting.plan ≡ plan))) }
    ensures empty { IfOk result (λ set. IfSome set (λ setting. IfSome setting.save (λ segments. spec.IsEmpty (F.Segments.holds segments)))) }
    ensures stopped { IfErr result (λ fault. spec.StopsParts (F.makes files.now) (F.opens files.now) (stream_fault fault) words.now plan
        console.old console.new) }
{
    let size = size_of(&plan);
    let named = words.filters.as_slice();
    match load_filters(
        files,
        alloc,
        named,
        size,
        &mut console.reader,
        &mut console.errors,
    ) {
        Ok(Some(filters)) => match make_save(files, alloc, &words.save, &mut console.errors) {
            Ok(Some(save)) => Ok(Some(Setting {
                plan,
                filters,
                save,
            })),
            Ok(None) => Ok(None),
            Err(fault) => Err(fault),
        },
        Ok(None) => Ok(None),
        Err(fault) => Err(fault),
    }
}

/// What a router is run with. There is none where something of it is not there, which people were told.
fn set_up<'a, F: Folder + HistoryFolders, R: Read, W: Write, E: Write>(
    files: &F,
    alloc: Global,
    words: &'a RouterWords,
    console: &mut Console<R, W, E>,
) -> Result<Option<Setting<F::Segments>>, SetupFault<'a>>
    ensures finished { IfOk result (λ set. MatchOption set
        (spec.LacksSetting (F.makes files.now) (F.opens files.now) words.now console.old console.new)
        (λ setting. spec.SetsUp (F.makes files.now) (F.opens files.now) words.now setting.plan setting.filters.entries
        (option_map (λ segments. F.Segments.holds segments) setting.save) console.old console.new)) }
    ensures empty { IfOk result (λ set. IfSome set (λ setting. IfSome setting.save (λ segments. spec.IsEmpty (F.Segments.holds segments)))) }
    ensures stopped { IfErr result (λ fault. spec.StopsSettingUp (F.makes files.now) (F.opens files.now) fault words.now
        console.old console.new) }
{
    match plan_of(alloc, words) {
        Ok(plan) => match fit_out(files, alloc, words, plan, console) {
            Ok(Some(setting)) => Ok(Some(setting)),
            Ok(None) => Ok(None),
            Err(fault) => Err(SetupFault::Program(fault)),
        },
        Err(fault) if is_memory(fault) => Err(SetupFault::Program(ProgramFault::MEMORY)),
        Err(fault) => Err(SetupFault::Words(fault)),
    }
}

/// Reads and verifies the filters that words name, for the domain of a plan. Returns whether all of them are verified; people are told of
/// the first that is not.
fn check_filters<F: Folder, R: Read, W: Write, E: Write>(
    files: &F,
    alloc: Global,
    words: &RouterWords,
    plan: &RouterPlan,
    console: &mut Console<R, W, E>,
) -> Result<bool, ProgramFault>
    ensures finished { IfOk result (checked.ChecksFilters (F.opens files.now) words.now plan.now console.old console.new) }
    ensures stopped { IfErr result (λ fault. checked.StopsFilters (F.opens files.now) (stream_fault fault) words.now plan.now console.old console.new) }
{
    match load_filters(
        files,
        alloc,
        words.filters.as_slice(),
        size_of(plan),
        &mut console.reader,
        &mut console.errors,
    ) {
        Ok(Some(_)) => Ok(true),
        Ok(None) => Ok(false),
        Err(fault) => Err(fault),
    }
}

/// Looks at what words say, and at the filters that they name, as `set_up` does, but makes nothing. Returns whether all is right.
fn check_words<'a, F: Folder, R: Read, W: Write, E: Write>(
    files: &F,
    alloc: Global,
    words: &'a RouterWords,
    console: &mut Console<R, W, E>,
) -> Result<bool, SetupFault<'a>>
    ensures finished { IfOk result (checked.ChecksWords (F.opens files.now) words.now console.old console.new) }
    ensures stopped { IfErr result (λ fault. checked.StopsChecking (F.opens files.now) fault words.now console.old console.new) }
{
    match plan_of(alloc, words) {
        Ok(plan) => match check_filters(files, alloc, words, &plan, console) {
            Ok(is_right) => Ok(is_right),
            Err(fault) => Err(SetupFault::Program(fault)),
        },
        Err(fault) if is_memory(fault) => Err(SetupFault::Program(ProgramFault::MEMORY)),
        Err(fault) => Err(SetupFault::Words(fault)),
    }
}

/// Looks at what words say, of which `origin` says some, and at the filters that they name, and starts nothing: the exit status.
fn check_router<F: Folder, R: Read, W: Write, E: Write>(
    files: &F,
    alloc: Global,
    words: &RouterWords,
    origin: Origin<'_>,
    console: &mut Console<R, W, E>,
) -> Result<u8, Unreported>
    ensures checked { IfOk result (checked.ChecksRouter (F.opens files.now) (origin_of origin.entry) words.now console.old console.new) }
    ensures unreported { IfErr result (λ unreported. checked.CutsCheck (F.opens files.now) (stream_fault unreported.why) (origin_of origin.entry) words.now
        console.old console.new unreported.status) }
{
    match check_words(files, alloc, words, console) {
        Ok(true) => Ok(0),
        Ok(false) => Ok(FAILED),
        Err(fault) => end_unset(alloc, &mut console.errors, origin, fault),
    }
}

/// Leaves the folder of a name in which a history is saved, if one is named and there is one.
fn leave_save<F: HistoryFolders>(
    files: &F,
    save: &Option<String>,
    saver: Option<SegmentSaver<F::Segments>>,
)
    ensures { spec.LeavesSave (F.keeps files.now) save.now saver }
{
    if let (Some(name), Some(saver)) = (save, saver) {
        files.leave(name.as_str(), saver.into_folder());
    }
}

/// Runs a router that is set up: the exit status. The folder of its history is left at last.
pub(crate) fn run_setting<
    R: Threads
        + Wait
        + Clock
        + RandomSource
        + Folder
        + HistoryFolders
        + LinkFolder<FI, FO>
        + Copy
        + Send
        + Sync
        + Drop
        + 'static,
    FI: Read + Send + Drop + 'static,
    FO: Write + Send + Drop + 'static,
    T: Write + Send + Drop + 'static,
    I: Read,
    W: Write,
    E: Write,
>(
    rt: &R,
    alloc: Global,
    save: &Option<String>,
    router_files: RouterFiles<R>,
    setting: Setting<R::Segments>,
    surroundings: Surroundings<'_>,
    console: &mut Console<I, W, E>,
    voice: T,
) -> Result<u8, Unreported>
where
    R::Segments: Send + 'static,
    R::File: Send,
    R::New: Send,
    requires { IfSome setting.save (λ segments. spec.IsEmpty (R.Segments.holds segments)) }
    ensures finished { IfOk result (spec.RunsPlan (R.keeps rt.now) save.now setting.plan setting.filters.entries
        (option_map (λ segments. R.Segments.holds segments) setting.save) console.old console.new) }
    ensures unreported { IfErr result (λ unreported. spec.CutsPlan (stream_fault unreported.why) setting.plan setting.filters.entries
        console.old console.new unreported.status) }
{
    match run_router::<R, FI, FO, R, RouterFiles<R>, R::Segments, T, I, W>(
        rt,
        alloc,
        *rt,
        router_files,
        setting,
        surroundings,
        voice,
        &mut console.reader,
        &mut console.writer,
    ) {
        Ok(end) => {
            leave_save(rt, save, end.saved);
            Ok(0)
        }
        Err(fault) => end_by_fault(&mut console.errors, fault),
    }
}

/// Runs the router that words ask for, of which `origin` says some, and returns the exit status. Its filters are verified, and the folder of
/// its history is made, before any link is opened. `outlets` is what it has besides the console.
#[tactic(auto, unfolding(crate::specs::Routing::ServesRouter, crate::specs::Routing::CutsRouter))]
fn run_words<
    R: Threads
        + Wait
        + Clock
        + RandomSource
        + Folder
        + HistoryFolders
        + LinkFolder<FI, FO>
        + Copy
        + Send
        + Sync
        + Drop
        + 'static,
    FI: Read + Send + Drop + 'static,
    FO: Write + Send + Drop + 'static,
    T: Write + Send + Drop + 'static,
    I: Read,
    W: Write,
    E: Write,
>(
    rt: &R,
    alloc: Global,
    words: &RouterWords,
    origin: Origin<'_>,
    console: &mut Console<I, W, E>,
    outlets: Outlets<T>,
) -> Result<u8, Unreported>
where
    R::Segments: Send + 'static,
    R::File: Send,
    R::New: Send,
    ensures served { IfOk result (spec.ServesRouter (R.opens rt.now) (R.makes rt.now) (R.keeps rt.now) (origin_of origin.entry) words.now
        console.old console.new) }
    ensures unreported { IfErr result (λ unreported. spec.CutsRouter (R.opens rt.now) (R.makes rt.now) (R.keeps rt.now) (stream_fault unreported.why)
        (origin_of origin.entry) words.now console.old console.new unreported.status) }
{
    let Outlets {
        voice,
        pipe,
        origins,
    } = outlets;
    match set_up(rt, alloc, words, console) {
        Ok(Some(setting)) => run_setting::<R, FI, FO, T, I, W, E>(
            rt,
            alloc,
            &words.save,
            RouterFiles::new(*rt, origins),
            setting,
            surroundings_of(words, pipe),
            console,
            voice,
        ),
        Ok(None) => Ok(FAILED),
        Err(fault) => end_unset(alloc, &mut console.errors, origin, fault),
    }
}

/// Does what words ask for, of which `origin` says some: runs the router, or looks at what they say alone. Returns the exit status.
pub(crate) fn serve_words<
    R: Threads
        + Wait
        + Clock
        + RandomSource
        + Folder
        + HistoryFolders
        + LinkFolder<FI, FO>
        + Copy
        + Send
        + Sync
        + Drop
        + 'static,
    FI: Read + Send + Drop + 'static,
    FO: Write + Send + Drop + 'static,
    T: Write + Send + Drop + 'static,
    I: Read,
    W: Write,
    E: Write,
>(
    rt: &R,
    alloc: Global,
    words: &RouterWords,
    origin: Origin<'_>,
    console: &mut Console<I, W, E>,
    outlets: Outlets<T>,
) -> Result<u8, Unreported>
where
    R::Segments: Send + 'static,
    R::File: Send,
    R::New: Send,
    ensures served { IfOk result (checked.ServesWords (R.opens rt.now) (R.makes rt.now) (R.keeps rt.now) (origin_of origin.entry) words.now
        console.old console.new) }
    ensures unreported { IfErr result (λ unreported. checked.CutsWords (R.opens rt.now) (R.makes rt.now) (R.keeps rt.now) (stream_fault unreported.why)
        (origin_of origin.entry) words.now console.old console.new unreported.status) }
{
    if words.checks {
        check_router(rt, alloc, words, origin, console)
    } else {
        run_words::<R, FI, FO, T, I, W, E>(rt, alloc, words, origin, console, outlets)
    }
}
