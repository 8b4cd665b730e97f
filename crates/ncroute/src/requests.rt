//! From what is asked for to an exit status.
//!
//! **`diff`, `lint` and `test` mean one thing by each exit status.** It is 0 that all is right, 1 that something is wrong which they show, 2 that the
//! words are, and 3 that this is undecided, or not known since something was not read. What is wrong counts before what is undecided.
ghost use Rattle.std.specs.Prelude.{◌≡◌, IfErr, IfOk};
ghost use Rattle.filter_reports.specs.Faults.{stream_fault};
ghost use Rattle.ncroute.specs.Requests.{Answers, EvaluatesLines, FailsToReport, Serves, StopsAnswer, StopsEvaluating, fault_status};
ghost use Rattle.program_console.specs.Streaming.{CutsWriting, Writes};

use crate::commands::{CheckCommand, LintCommand, ListCommand, RewriteCommand};
use crate::comparing::compare_sources;
use crate::domains::compare_scripts;
use crate::paging::page_source;
use crate::replaying::replay_sources;
use crate::running::run_sources;
use crate::script::run_source;
use crate::testing::test_sources;
use crate::trying::try_filter;
use command_line::Request;
use filter_reports::{FAILED, FAULT, ProgramFault, status_of};
use line_protocol::StreamFault;
use program_console::{Console, Folder, Program, name_of, run_on, run_on_all};
use program_words::Source;
use route_answers::{Routes, eval_routes};
use std::alloc::Global;
use std::io::{Read, Write};

/// Takes the routes of standard input through the code in its first line, and returns the exit status. Why a line is refused is told in
/// words where `tells_people` says so.
fn evaluate<R: Read, W: Write, E: Write>(
    alloc: Global,
    tells_people: bool,
    console: &mut Console<R, W, E>,
) -> Result<u8, ProgramFault>
    ensures finished { IfOk result (EvaluatesLines tells_people console.old console.new) }
    ensures stopped { IfErr result (λ fault. StopsEvaluating (stream_fault fault) tells_people console.old console.new) }
{
    let routes = Routes {
        name: name_of(&Source::Input),
        tells_people,
    };
    match eval_routes(
        alloc,
        routes,
        &mut console.reader,
        &mut console.writer,
        &mut console.errors,
    ) {
        Ok(refused) => Ok(status_of(refused)),
        Err(fault) => Err(fault),
    }
}

/// Writes a page, and returns the exit status.
fn show<R: Read, W: Write, E: Write>(
    page: &str,
    console: &mut Console<R, W, E>,
) -> Result<u8, ProgramFault>
    ensures finished { IfOk result (λ status. Writes page.now console.old console.new × (status ≡ 0)) }
    ensures stopped { IfErr result (λ fault. CutsWriting (stream_fault fault) page.now console.old console.new) }
{
    match console.write(page.as_bytes()) {
        Ok(()) => Ok(0),
        Err(fault) => Err(fault),
    }
}

/// Does what is asked for, and returns the exit status: 0, or 1 where something was refused.
fn answer<F: Folder, R: Read, W: Write, E: Write>(
    files: &F,
    alloc: Global,
    request: &Request,
    console: &mut Console<R, W, E>,
) -> Result<u8, ProgramFault>
    ensures finished { IfOk result (Answers (F.opens files.now) (F.creates files.now) (F.leaves files.now) request.now console.old console.new) }
    ensures stopped { IfErr result (λ fault. StopsAnswer (F.opens files.now) (F.creates files.now) (F.leaves files.now) (stream_fault fault) request.now
        console.old console.new) }
{
    match request {
        Request::Check { how, sources } => {
            let command = CheckCommand { how: *how };
            run_on_all(files, alloc, &command, FAILED, sources.as_slice(), console)
        }
        Request::Compare {
            format,
            old,
            new,
            is_explained,
        } => compare_scripts(files, alloc, *format, old, new, *is_explained, console),
        Request::Diff { how, old, new } => compare_sources(files, alloc, *how, old, new, console),
        Request::Domain {
            source,
            is_explained,
        } => run_source(files, alloc, source, *is_explained, console),
        Request::Eval { tells_people } => evaluate(alloc, *tells_people, console),
        Request::Explain { page } => show(page.as_str(), console),
        Request::Filter { how, source } => try_filter(files, alloc, *how, source, console),
        Request::Lint { how, sources } => {
            let command = LintCommand { how };
            run_on_all(files, alloc, &command, FAULT, sources.as_slice(), console)
        }
        Request::List {
            size,
            is_code,
            source,
            is_explained,
        } => {
            let command = ListCommand {
                size: *size,
                is_code: *is_code,
                is_explained: *is_explained,
            };
            run_on(files, alloc, &command, FAULT, source, console)
        }
        Request::Page {
            source,
            is_explained,
            page,
        } => page_source(files, alloc, source, *is_explained, page.as_str(), console),
        Request::Replay { sources } => replay_sources(files, alloc, sources.as_slice(), console),
        Request::Rewrite { is_old } => {
            let command = RewriteCommand { is_old: *is_old };
            run_on(files, alloc, &command, FAILED, &Source::Input, console)
        }
        Request::Run { how, sources } => {
            run_sources(files, alloc, how, sources.as_slice(), console)
        }
        Request::Test { how, sources } => {
            test_sources(files, alloc, *how, sources.as_slice(), console)
        }
    }
}

/// The exit status where a fault of the machine ends what is asked for: 1 where a command has had it from the first.
pub(crate) fn fault_status(request: &Request) -> u8
    ensures { result ≡ fault_status request.now }
{
    match request {
        Request::Check { .. }
        | Request::Eval { .. }
        | Request::Explain { .. }
        | Request::Rewrite { .. }
        | Request::Run { .. } => FAILED,
        Request::Compare { .. }
        | Request::Diff { .. }
        | Request::Domain { .. }
        | Request::Filter { .. }
        | Request::Lint { .. }
        | Request::List { .. }
        | Request::Page { .. }
        | Request::Replay { .. }
        | Request::Test { .. } => FAULT,
    }
}

/// Does what is asked for, and returns the exit status: 0, or 1 where something was refused, or that of a fault, which is told. The error is
/// that of standard error, which did not take the whole line.
pub(crate) fn serve<F: Folder, R: Read, W: Write, E: Write>(
    files: &F,
    alloc: Global,
    request: &Request,
    console: &mut Console<R, W, E>,
) -> Result<u8, StreamFault>
    ensures served { IfOk result (Serves (F.opens files.now) (F.creates files.now) (F.leaves files.now) request.now console.old console.new) }
    ensures not_reported { IfErr result (λ cut. (cut ≡ StreamFault.Write)
        × FailsToReport (F.opens files.now) (F.creates files.now) (F.leaves files.now) request.now console.old console.new) }
{
    match answer(files, alloc, request, console) {
        Ok(status) => Ok(status),
        Err(fault) => match console.report(Program::Ncroute, fault) {
            Ok(()) => Ok(fault_status(request)),
            Err(fault) => Err(fault),
        },
    }
}
