//! A router that is started from the file of its whole domain.
//!
//! **Its plan is made of the domain first, then its links are compared with it, and the folder of its history is made last**, as of any router.
//! Its filters are those of the file, and verified as it is read.
ghost use Rattle.std.specs.Option.{option_map};
ghost use Rattle.std.specs.Prelude.{◌≡◌, Some, None, IfErr, IfOk, IfSome, MatchOption};
ghost use Rattle.std.specs.Io.KnownBytes.{Appends};
ghost use Rattle.domain_files.specs.Nodes.{IsAtNode};
ghost use Rattle.filter_reports.specs.Cuts.{IsCut};
ghost use Rattle.filter_reports.specs.Faults.{stream_fault};
ghost use Rattle.ncroute.specs.DomainLines.{domain_line};
ghost use Rattle.ncroute.specs.DomainRouter as spec;
ghost use Rattle.ncroute.specs.DomainWords.{SaysDomain, said_beside, unfit_of};
ghost use Rattle.ncroute.specs.Routing.{IsEmpty};
ghost use Rattle.router_words.specs.Stated.{origin_of};

use crate::domain_lines::domain_line;
use crate::domain_loading::{DomainRead, load_domain};
use crate::domain_words::{DomainFault, find_unfit, said_beside, with_domain};
use crate::folders::HistoryFolders;
use crate::planning::{PlanFault, is_memory, plan_of};
use crate::reloading::RouterFiles;
use crate::routing::{
    Outlets, SetupFault, Unreported, WRONG_WORDS, end_by_line, end_unset, make_save, run_setting,
    serve_words, surroundings_of,
};
use command_line::RouterWords;
use domain_files::{DomainFile, NodeFile, domain_digest};
use filter_reports::{FAILED, ProgramFault};
use program_console::{Console, Folder, Program, fault_line};
use router_daemon::{LinkFolder, Setting, VerifiedFilters};
use router_files::RouterOption;
use router_options::{DomainMark, RouterPlan};
use router_words::Origin;
use std::alloc::{AllocError, Global};
use std::io::{Read, Write};
use std::random::RandomSource;
use std::rt::Clock;
use std::sync::Wait;
use std::thread::Threads;

/// What keeps a node from being served by what is said beside the file of its domain.
#[derive(Clone, Copy)]
pub enum BesideFault {
    /// The file says this, and so nobody else does.
    Said(RouterOption),
    /// No word says which node it is.
    NoNode,
}

/// Tells people what does not go together with the file of a domain: the exit status.
fn end_by_domain<E: Write>(
    alloc: Global,
    errors: &mut E,
    origin: Origin<'_>,
    fault: DomainFault,
) -> Result<u8, Unreported>
    ensures told { IfOk result (λ ended. (ended ≡ 2)
        × Appends (E.contents errors.old) (E.contents errors.new) (domain_line (origin_of origin.entry) fault)) }
    ensures cut { IfErr result (λ unreported. (unreported.status ≡ 2)
        × IsCut (stream_fault unreported.why) (E.contents errors.old) (E.contents errors.new) (domain_line (origin_of origin.entry) fault)) }
{
    match domain_line(alloc, origin, fault) {
        Ok(line) => end_by_line(errors, WRONG_WORDS, line.as_slice()),
        Err(_) => Err(Unreported {
            status: WRONG_WORDS,
            why: ProgramFault::MEMORY,
        }),
    }
}

/// Tells people of a fault of the program: the exit status.
fn end_by_program<E: Write>(errors: &mut E, fault: ProgramFault) -> Result<u8, Unreported>
    ensures told { IfOk result (λ ended. spec.EndsByProgram Appends fault (E.contents errors.old) (E.contents errors.new) ended) }
    ensures cut { IfErr result (λ unreported. spec.EndsByProgram (IsCut (stream_fault unreported.why)) fault
        (E.contents errors.old) (E.contents errors.new) unreported.status) }
{
    end_by_line(
        errors,
        FAILED,
        fault_line(Program::Ncroute, fault).as_bytes(),
    )
}

/// Tells people why words are no plan: the exit status.
fn end_by_plan<E: Write>(
    alloc: Global,
    errors: &mut E,
    origin: Origin<'_>,
    fault: PlanFault<'_>,
) -> Result<u8, Unreported>
    ensures told { IfOk result (λ ended. spec.EndsByPlan Appends (origin_of origin.entry) fault.entry
        (E.contents errors.old) (E.contents errors.new) ended) }
    ensures cut { IfErr result (λ unreported. spec.EndsByPlan (IsCut (stream_fault unreported.why)) (origin_of origin.entry) fault.entry
        (E.contents errors.old) (E.contents errors.new) unreported.status) }
{
    if is_memory(fault) {
        return end_by_program(errors, ProgramFault::MEMORY);
    }
    end_unset(alloc, errors, origin, SetupFault::Words(fault))
}

/// Tells people what keeps a node from being served: the exit status.
fn end_by_beside<E: Write>(
    alloc: Global,
    errors: &mut E,
    origin: Origin<'_>,
    fault: BesideFault,
) -> Result<u8, Unreported>
    ensures told { IfOk result (λ ended. (ended ≡ 2)
        × Appends (E.contents errors.old) (E.contents errors.new) (spec.beside_line (origin_of origin.entry) fault)) }
    ensures cut { IfErr result (λ unreported. (unreported.status ≡ 2)
        × IsCut (stream_fault unreported.why) (E.contents errors.old) (E.contents errors.new) (spec.beside_line (origin_of origin.entry) fault)) }
{
    match fault {
        BesideFault::Said(option) => {
            end_by_domain(alloc, errors, origin, DomainFault::Beside(option))
        }
        BesideFault::NoNode => {
            let fault = PlanFault::Missing(RouterOption::Node);
            end_unset(alloc, errors, origin, SetupFault::Words(fault))
        }
    }
}

/// Makes the folder in which the history is saved, if one is named. There is none where it is not made, which people are told.
fn make_folder<F: HistoryFolders, R: Read, W: Write, E: Write>(
    files: &F,
    alloc: Global,
    words: &RouterWords,
    console: &mut Console<R, W, E>,
) -> Result<Option<Option<F::Segments>>, ProgramFault>
    ensures finished { IfOk result (λ made. MatchOption made (spec.LacksFolder (F.makes files.now) words.now console.old console.new)
        (λ folder. spec.MakesFolder (F.makes files.now) words.now (option_map (λ segments. F.Segments.holds segments) folder)
        console.old console.new)) }
    ensures empty { IfOk result (λ made. IfSome made (λ folder. IfSome folder (λ segments. IsEmpty (F.Segments.holds segments)))) }
    ensures stopped { IfErr result (λ fault. spec.CutsFolder (F.makes files.now) (stream_fault fault) words.now console.old console.new) }
{
    make_save(files, alloc, &words.save, &mut console.errors)
}

/// The plan with the mark of the domain that a file sets up.
fn with_mark(
    alloc: Global,
    plan: RouterPlan,
    file: &DomainFile,
    words: &RouterWords,
) -> Result<RouterPlan, AllocError>
    ensures { IfOk result (λ marked. marked ≡ spec.marked plan file.now words.now) }
{
    let domain = file.plan();
    let digest = domain_digest(alloc, domain)?;
    let mut marked = plan;
    marked.set_domain(DomainMark {
        digest,
        allows_other: words.allows_other,
    });
    Ok(marked)
}

/// Runs the router of a plan that has the mark of its domain: the exit status.
fn run_marked<
    R: Threads
        + Wait
        + Clock
        + RandomSource
        + Folder
        + HistoryFolders
        + LinkFolder<FI, FO>
        + Copy
        + Send
        + Sync
        + Drop
        + 'static,
    FI: Read + Send + Drop + 'static,
    FO: Write + Send + Drop + 'static,
    T: Write + Send + Drop + 'static,
    I: Read,
    W: Write,
    E: Write,
>(
    rt: &R,
    alloc: Global,
    filters: VerifiedFilters,
    words: &RouterWords,
    plan: RouterPlan,
    console: &mut Console<I, W, E>,
    outlets: Outlets<T>,
) -> Result<u8, Unreported>
where
    R::Segments: Send + 'static,
    R::File: Send,
    R::New: Send,
    ensures served { IfOk result (spec.RunsMarked (R.makes rt.now) (R.keeps rt.now) filters.entries words.now plan console.old console.new) }
    ensures unreported { IfErr result (λ unreported. spec.CutsMarked (R.makes rt.now) (stream_fault unreported.why) filters.entries words.now plan
        console.old console.new unreported.status) }
{
    match make_folder(rt, alloc, words, console) {
        Ok(Some(save)) => {
            let Outlets {
                voice,
                pipe,
                origins,
            } = outlets;
            let setting = Setting {
                plan,
                filters,
                save,
            };
            run_setting::<R, FI, FO, T, I, W, E>(
                rt,
                alloc,
                &words.save,
                RouterFiles::new(*rt, origins),
                setting,
                surroundings_of(words, pipe),
                console,
                voice,
            )
        }
        Ok(None) => Ok(FAILED),
        Err(fault) => end_by_program(&mut console.errors, fault),
    }
}

/// Runs the router of a plan whose links are those of its domain, with the filters of the file: the exit status. Nothing is started where it is
/// only looked at.
fn run_plan<
    R: Threads
        + Wait
        + Clock
        + RandomSource
        + Folder
        + HistoryFolders
        + LinkFolder<FI, FO>
        + Copy
        + Send
        + Sync
        + Drop
        + 'static,
    FI: Read + Send + Drop + 'static,
    FO: Write + Send + Drop + 'static,
    T: Write + Send + Drop + 'static,
    I: Read,
    W: Write,
    E: Write,
>(
    rt: &R,
    alloc: Global,
    file: DomainFile,
    words: &RouterWords,
    plan: RouterPlan,
    console: &mut Console<I, W, E>,
    outlets: Outlets<T>,
) -> Result<u8, Unreported>
where
    R::Segments: Send + 'static,
    R::File: Send,
    R::New: Send,
    ensures served { IfOk result (spec.RunsPlan (R.makes rt.now) (R.keeps rt.now) file words.now plan console.old console.new) }
    ensures unreported { IfErr result (λ unreported. spec.CutsPlan (R.makes rt.now) (stream_fault unreported.why) file words.now plan
        console.old console.new unreported.status) }
{
    let Ok(plan) = with_mark(alloc, plan, &file, words) else {
        return end_by_program(&mut console.errors, ProgramFault::MEMORY);
    };
    if words.checks {
        return Ok(0);
    }
    let filters = file.into_filters();
    run_marked::<R, FI, FO, T, I, W, E>(rt, alloc, filters, words, plan, console, outlets)
}

/// What is wrong with the links of a plan of a node.
fn unfit_in(plan: &RouterPlan, node: &Option<NodeFile>) -> Option<DomainFault>
    ensures { result ≡ unfit_of plan.now.links node.now }
{
    find_unfit(plan.links.as_slice(), node)
}

/// Serves a node of a domain by its plan, unless a link is too many or missing: the exit status.
fn serve_plan<
    R: Threads
        + Wait
        + Clock
        + RandomSource
        + Folder
        + HistoryFolders
        + LinkFolder<FI, FO>
        + Copy
        + Send
        + Sync
        + Drop
        + 'static,
    FI: Read + Send + Drop + 'static,
    FO: Write + Send + Drop + 'static,
    T: Write + Send + Drop + 'static,
    I: Read,
    W: Write,
    E: Write,
>(
    rt: &R,
    alloc: Global,
    file: DomainFile,
    node: &Option<NodeFile>,
    words: &RouterWords,
    plan: RouterPlan,
    origin: Origin<'_>,
    console: &mut Console<I, W, E>,
    outlets: Outlets<T>,
) -> Result<u8, Unreported>
where
    R::Segments: Send + 'static,
    R::File: Send,
    R::New: Send,
    ensures served { IfOk result (spec.ServesPlan (R.makes rt.now) (R.keeps rt.now) file node.now words.now plan (origin_of origin.entry)
        console.old console.new) }
    ensures unreported { IfErr result (λ unreported. spec.CutsServedPlan (R.makes rt.now) (stream_fault unreported.why) file node.now words.now plan
        (origin_of origin.entry) console.old console.new unreported.status) }
{
    if let Some(fault) = unfit_in(&plan, node) {
        return end_by_domain(alloc, &mut console.errors, origin, fault);
    }
    run_plan::<R, FI, FO, T, I, W, E>(rt, alloc, file, words, plan, console, outlets)
}

/// Serves a node of a domain by all that is said to it, in the file of the domain and beside it: the exit status.
fn serve_said<
    R: Threads
        + Wait
        + Clock
        + RandomSource
        + Folder
        + HistoryFolders
        + LinkFolder<FI, FO>
        + Copy
        + Send
        + Sync
        + Drop
        + 'static,
    FI: Read + Send + Drop + 'static,
    FO: Write + Send + Drop + 'static,
    T: Write + Send + Drop + 'static,
    I: Read,
    W: Write,
    E: Write,
>(
    rt: &R,
    alloc: Global,
    file: DomainFile,
    node: &Option<NodeFile>,
    words: &RouterWords,
    origin: Origin<'_>,
    console: &mut Console<I, W, E>,
    outlets: Outlets<T>,
) -> Result<u8, Unreported>
where
    R::Segments: Send + 'static,
    R::File: Send,
    R::New: Send,
    ensures served { IfOk result (spec.ServesSaid (R.makes rt.now) (R.keeps rt.now) file node.now words.now (origin_of origin.entry)
        console.old console.new) }
    ensures unreported { IfErr result (λ unreported. spec.CutsSaid (R.makes rt.now) (stream_fault unreported.why) file node.now words.now
        (origin_of origin.entry) console.old console.new unreported.status) }
{
    match plan_of(alloc, words) {
        Ok(plan) => serve_plan::<R, FI, FO, T, I, W, E>(
            rt, alloc, file, node, words, plan, origin, console, outlets,
        ),
        Err(fault) => end_by_plan(alloc, &mut console.errors, origin, fault),
    }
}

/// What a node has of its domain, and what words and the file say together to it.
fn said_to(
    alloc: Global,
    words: &RouterWords,
    file: &DomainFile,
    me: u32,
) -> Result<(Option<NodeFile>, RouterWords), AllocError>
    ensures { IfOk result (λ said. IsAtNode file.now me said.0 × SaysDomain words.now file.now said.0 said.1) }
{
    let node = file.node(alloc, me)?;
    let all = with_domain(alloc, words, file, &node)?;
    Ok((node, all))
}

/// Serves the node that words name of a domain that a file sets up: the exit status.
fn serve_node<
    R: Threads
        + Wait
        + Clock
        + RandomSource
        + Folder
        + HistoryFolders
        + LinkFolder<FI, FO>
        + Copy
        + Send
        + Sync
        + Drop
        + 'static,
    FI: Read + Send + Drop + 'static,
    FO: Write + Send + Drop + 'static,
    T: Write + Send + Drop + 'static,
    I: Read,
    W: Write,
    E: Write,
>(
    rt: &R,
    alloc: Global,
    file: DomainFile,
    me: u32,
    words: &RouterWords,
    origin: Origin<'_>,
    console: &mut Console<I, W, E>,
    outlets: Outlets<T>,
) -> Result<u8, Unreported>
where
    R::Segments: Send + 'static,
    R::File: Send,
    R::New: Send,
    ensures served { IfOk result (spec.ServesNode (R.makes rt.now) (R.keeps rt.now) file me words.now (origin_of origin.entry)
        console.old console.new) }
    ensures unreported { IfErr result (λ unreported. spec.CutsNode (R.makes rt.now) (stream_fault unreported.why) file me words.now
        (origin_of origin.entry) console.old console.new unreported.status) }
{
    match said_to(alloc, words, &file, me) {
        Ok((node, all)) => {
            let outlets = outlets.in_domain(alloc, words, &file, me, &node);
            serve_said::<R, FI, FO, T, I, W, E>(
                rt, alloc, file, &node, &all, origin, console, outlets,
            )
        }
        Err(_) => end_by_program(&mut console.errors, ProgramFault::MEMORY),
    }
}

/// Serves the node that words name of the domain whose file has this name: the exit status.
fn serve_file<
    R: Threads
        + Wait
        + Clock
        + RandomSource
        + Folder
        + HistoryFolders
        + LinkFolder<FI, FO>
        + Copy
        + Send
        + Sync
        + Drop
        + 'static,
    FI: Read + Send + Drop + 'static,
    FO: Write + Send + Drop + 'static,
    T: Write + Send + Drop + 'static,
    I: Read,
    W: Write,
    E: Write,
>(
    rt: &R,
    alloc: Global,
    name: &str,
    me: u32,
    words: &RouterWords,
    origin: Origin<'_>,
    console: &mut Console<I, W, E>,
    outlets: Outlets<T>,
) -> Result<u8, Unreported>
where
    R::Segments: Send + 'static,
    R::File: Send,
    R::New: Send,
    ensures served { IfOk result (spec.ServesFile (R.opens rt.now) (R.makes rt.now) (R.keeps rt.now) name.now me words.now (origin_of origin.entry)
        console.old console.new) }
    ensures unreported { IfErr result (λ unreported. spec.CutsFile (R.opens rt.now) (R.makes rt.now) (stream_fault unreported.why) name.now me words.now
        (origin_of origin.entry) console.old console.new unreported.status) }
{
    match load_domain(rt, alloc, name, console) {
        Ok(DomainRead::File(file)) => serve_node::<R, FI, FO, T, I, W, E>(
            rt, alloc, file, me, words, origin, console, outlets,
        ),
        Ok(DomainRead::Unread) => Ok(FAILED),
        Ok(DomainRead::Wrong) => Ok(WRONG_WORDS),
        Err(fault) => return end_by_program(&mut console.errors, fault),
    }
}

/// The node that words name beside the file of their domain; or what keeps it from being served.
fn node_beside(words: &RouterWords) -> Result<u32, BesideFault>
    ensures node { IfOk result (λ me. (said_beside words.now ≡ None) × (words.now.node ≡ Some me)) }
    ensures fault { IfErr result (spec.IsBesideFault words.now) }
{
    if let Some(option) = said_beside(words) {
        return Err(BesideFault::Said(option));
    }
    match words.node {
        Some(me) => Ok(me),
        None => Err(BesideFault::NoNode),
    }
}

/// Serves the router that words ask for beside the file of their domain: the exit status.
fn serve_beside<
    R: Threads
        + Wait
        + Clock
        + RandomSource
        + Folder
        + HistoryFolders
        + LinkFolder<FI, FO>
        + Copy
        + Send
        + Sync
        + Drop
        + 'static,
    FI: Read + Send + Drop + 'static,
    FO: Write + Send + Drop + 'static,
    T: Write + Send + Drop + 'static,
    I: Read,
    W: Write,
    E: Write,
>(
    rt: &R,
    alloc: Global,
    name: &str,
    words: &RouterWords,
    origin: Origin<'_>,
    console: &mut Console<I, W, E>,
    outlets: Outlets<T>,
) -> Result<u8, Unreported>
where
    R::Segments: Send + 'static,
    R::File: Send,
    R::New: Send,
    ensures served { IfOk result (spec.ServesBeside (R.opens rt.now) (R.makes rt.now) (R.keeps rt.now) name.now words.now
        (origin_of origin.entry) console.old console.new) }
    ensures unreported { IfErr result (λ unreported. spec.CutsBeside (R.opens rt.now) (R.makes rt.now) (stream_fault unreported.why) name.now words.now
        (origin_of origin.entry) console.old console.new unreported.status) }
{
    match node_beside(words) {
        Ok(me) => serve_file::<R, FI, FO, T, I, W, E>(
            rt, alloc, name, me, words, origin, console, outlets,
        ),
        Err(fault) => return end_by_beside(alloc, &mut console.errors, origin, fault),
    }
}

/// Does what words ask for, of which `origin` says some, by the file of their domain where they name one: the exit status.
pub(crate) fn serve_in_domain<
    R: Threads
        + Wait
        + Clock
        + RandomSource
        + Folder
        + HistoryFolders
        + LinkFolder<FI, FO>
        + Copy
        + Send
        + Sync
        + Drop
        + 'static,
    FI: Read + Send + Drop + 'static,
    FO: Write + Send + Drop + 'static,
    T: Write + Send + Drop + 'static,
    I: Read,
    W: Write,
    E: Write,
>(
    rt: &R,
    alloc: Global,
    words: &RouterWords,
    origin: Origin<'_>,
    console: &mut Console<I, W, E>,
    outlets: Outlets<T>,
) -> Result<u8, Unreported>
where
    R::Segments: Send + 'static,
    R::File: Send,
    R::New: Send,
    ensures served { IfOk result (spec.ServesInDomain (R.opens rt.now) (R.makes rt.now) (R.keeps rt.now) (origin_of origin.entry) words.now
        console.old console.new) }
    ensures unreported { IfErr result (λ unreported. spec.CutsInDomain (R.opens rt.now) (R.makes rt.now) (R.keeps rt.now) (stream_fault unreported.why)
        (origin_of origin.entry) words.now console.old console.new unreported.status) }
{
    let outlets = outlets.by_options(alloc, origin);
    match &words.domain {
        Some(name) => serve_beside::<R, FI, FO, T, I, W, E>(
            rt,
            alloc,
            name.as_str(),
            words,
            origin,
            console,
            outlets,
        ),
        None => serve_words::<R, FI, FO, T, I, W, E>(rt, alloc, words, origin, console, outlets),
    }
}
