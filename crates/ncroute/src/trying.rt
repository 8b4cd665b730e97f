//! How the routes of standard input are taken through the filter of a file.
ghost use Rattle.std.specs.Prelude.{ℕ, List, IfErr, IfOk};
ghost use Rattle.filter_reports.specs.Faults.{stream_fault};
ghost use Rattle.filter_reports.specs.Notices.{named};
ghost use Rattle.filter_reports.specs.Opening.{IsPlacedOf};
ghost use Rattle.ncroute.specs.Trying as spec;

use command_line::{RouteReport, Trying};
use filter_reports::{FAULT, NamedText, PlacedCode, ProgramFault, Wording, open_filter, status_of};
use filter_source::SOURCE_LIMIT;
use filter_traces::{cover_routes, explain_routes};
use program_console::{Console, Folder, Loaded, name_of};
use program_words::Source;
use route_answers::{Routes, filter_routes};
use std::alloc::Global;
use std::io::{Read, Write};

/// Takes the routes of standard input through a verified filter, and writes the verdict on each. Why a line is refused is told in words where `how`
/// says so.
fn judge_routes<R: Read, W: Write, E: Write>(
    alloc: Global,
    how: Trying,
    placed: PlacedCode,
    console: &mut Console<R, W, E>,
) -> Result<u32, ProgramFault>
    ensures finished { (size : ℕ) (text : List ℕ) → IsPlacedOf size text placed
        → IfOk result (spec.JudgesRoutes how.tells_routes size text console.old console.new) }
    ensures stopped { (size : ℕ) (text : List ℕ) → IsPlacedOf size text placed
        → IfErr result (λ fault. spec.StopsJudging (stream_fault fault) how.tells_routes size text console.old console.new) }
{
    let routes = Routes {
        name: name_of(&Source::Input),
        tells_people: how.tells_routes,
    };
    match filter_routes(
        alloc,
        placed.verified,
        routes,
        &mut console.reader,
        &mut console.writer,
        &mut console.errors,
    ) {
        Ok(refused) => Ok(refused),
        Err(fault) => Err(fault),
    }
}

/// Takes the routes of standard input through the verified filter of a text, and writes why each got its verdict.
fn explain_verdicts<R: Read, W: Write, E: Write>(
    alloc: Global,
    text: &[u8],
    placed: PlacedCode,
    console: &mut Console<R, W, E>,
) -> Result<u32, ProgramFault>
    ensures finished { (size : ℕ) → IsPlacedOf size text.now placed → IfOk result (spec.ExplainsRoutes size text.now console.old console.new) }
    ensures stopped { (size : ℕ) → IsPlacedOf size text.now placed
        → IfErr result (λ fault. spec.StopsExplaining (stream_fault fault) size text.now console.old console.new) }
{
    match explain_routes(
        alloc,
        text,
        placed,
        &mut console.reader,
        &mut console.writer,
    ) {
        Ok(refused) => Ok(refused),
        Err(fault) => Err(fault),
    }
}

/// Takes the routes of standard input through the verified filter of a text, and writes how many came to each command.
fn count_routes<R: Read, W: Write, E: Write>(
    alloc: Global,
    text: &[u8],
    placed: PlacedCode,
    console: &mut Console<R, W, E>,
) -> Result<u32, ProgramFault>
    ensures finished { (size : ℕ) → IsPlacedOf size text.now placed → IfOk result (spec.CountsRoutes size text.now console.old console.new) }
    ensures stopped { (size : ℕ) → IsPlacedOf size text.now placed
        → IfErr result (λ fault. spec.StopsCounting (stream_fault fault) size text.now console.old console.new) }
{
    match cover_routes(
        alloc,
        text,
        placed,
        &mut console.reader,
        &mut console.writer,
    ) {
        Ok(refused) => Ok(refused),
        Err(fault) => Err(fault),
    }
}

/// Takes the routes of standard input through the verified filter of a text, and writes what is asked for of them. Returns how many lines are refused.
fn answer_routes<R: Read, W: Write, E: Write>(
    alloc: Global,
    how: Trying,
    text: &[u8],
    placed: PlacedCode,
    console: &mut Console<R, W, E>,
) -> Result<u32, ProgramFault>
    ensures finished { (size : ℕ) → IsPlacedOf size text.now placed
        → IfOk result (spec.AnswersRoutes how.report how.tells_routes size text.now console.old console.new) }
    ensures stopped { (size : ℕ) → IsPlacedOf size text.now placed
        → IfErr result (λ fault. spec.StopsAnswers how.report (stream_fault fault) how.tells_routes size text.now console.old console.new) }
{
    match how.report {
        RouteReport::Verdicts => judge_routes(alloc, how, placed, console),
        RouteReport::Reasons => explain_verdicts(alloc, text, placed, console),
        RouteReport::Coverage => count_routes(alloc, text, placed, console),
    }
}

/// The same of the filter that a text spells, and returns the exit status. One that is refused is answered by its report alone.
fn try_text<R: Read, W: Write, E: Write>(
    alloc: Global,
    how: Trying,
    filter: &NamedText<'_>,
    console: &mut Console<R, W, E>,
) -> Result<u8, ProgramFault>
    ensures finished { IfOk result (spec.TriesText how (named filter.now) console.old console.new) }
    ensures stopped { IfErr result (λ fault. spec.StopsTrying (stream_fault fault) how (named filter.now) console.old console.new) }
{
    match open_filter(alloc, filter, how.size, Wording::words_if(how.is_explained)) {
        Ok(Ok(placed)) => match answer_routes(alloc, how, filter.text, placed, console) {
            Ok(refused) => Ok(status_of(refused)),
            Err(fault) => Err(fault),
        },
        Ok(Err(report)) => console.put(&report),
        Err(_) => Err(ProgramFault::MEMORY),
    }
}

/// Takes the routes of standard input through the filter of a source, and returns the exit status.
pub(crate) fn try_filter<F: Folder, R: Read, W: Write, E: Write>(
    files: &F,
    alloc: Global,
    how: Trying,
    source: &Source,
    console: &mut Console<R, W, E>,
) -> Result<u8, ProgramFault>
    ensures finished { IfOk result (spec.TriesFilter (F.opens files.now) how source.now console.old console.new) }
    ensures stopped { IfErr result (λ fault. spec.StopsFilter (F.opens files.now) (stream_fault fault) how source.now console.old console.new) }
{
    match console.read(files, alloc, source, SOURCE_LIMIT) {
        Loaded::Text(text) => {
            let (name, text) = (name_of(source), text.as_slice());
            try_text(alloc, how, &NamedText { name, text }, console)
        }
        Loaded::Skipped => Ok(FAULT),
        Loaded::Stopped(fault) => Err(fault),
    }
}
