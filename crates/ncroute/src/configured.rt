//! The options of a router that stand in a file.
//!
//! **`--config` is the word, and `--check` beside it**: `bird -c FILE` reads that file, `birdc configure` reads it again, and `bird -p` reads and
//! verifies it and starts nothing. `-p` alone would not say what it does.
//!
//! **A wrong line is a wrong word**, and ends with 2. A file that cannot be read ends with 1, as a filter does.
ghost use Rattle.std.specs.Prelude.{◌<◌, ◌^◌, IfErr, IfOk, length};
ghost use Rattle.std.specs.Io.KnownBytes.{Appends};
ghost use Rattle.filter_reports.specs.Cuts.{IsCut};
ghost use Rattle.filter_reports.specs.Faults.{stream_fault};
ghost use Rattle.ncroute.specs.Configured as spec;
ghost use Rattle.router_words.specs.Stated.{origin_of};

use crate::domain_router::serve_in_domain;
use crate::folders::HistoryFolders;
use crate::routing::{Outlets, Unreported, end_by_line};
use crate::wrong_lines::{clash_line, refused_line};
use command_line::RouterWords;
use filter_reports::{FAILED, ProgramFault};
use program_console::{Console, Folder, Program, fault_line, path_beside, read_config};
use program_words::Source;
use router_daemon::LinkFolder;
use router_files::{LineFault, WrongLine, read_statements};
use router_words::{Clash, Origin, find_clash, gather, no_file};
use std::alloc::Global;
use std::io::{Read, Write};
use std::random::RandomSource;
use std::rt::Clock;
use std::sync::Wait;
use std::thread::Threads;

/// The exit status where the words are wrong.
const WRONG_WORDS: u8 = 2;

/// Ends where memory was refused: the exit status.
fn end_by_memory<E: Write>(errors: &mut E) -> Result<u8, Unreported>
    ensures told { IfOk result (λ ended. spec.EndsByMemory Appends (E.contents errors.old) (E.contents errors.new) ended) }
    ensures cut { IfErr result (λ unreported. spec.EndsByMemory (IsCut (stream_fault unreported.why)) (E.contents errors.old) (E.contents errors.new)
        unreported.status) }
{
    end_by_line(
        errors,
        FAILED,
        fault_line(Program::Ncroute, ProgramFault::MEMORY).as_bytes(),
    )
}

/// Tells people of a line of the file that is refused by itself: the exit status.
fn end_by_wrong<E: Write>(
    alloc: Global,
    errors: &mut E,
    name: &str,
    wrong: &WrongLine,
) -> Result<u8, Unreported>
    ensures told { IfOk result (λ ended. spec.EndsByWrong Appends name.now wrong.now (E.contents errors.old) (E.contents errors.new) ended) }
    ensures cut { IfErr result (λ unreported. spec.EndsByWrong (IsCut (stream_fault unreported.why)) name.now wrong.now
        (E.contents errors.old) (E.contents errors.new) unreported.status) }
{
    if matches!(wrong.why, LineFault::Memory) {
        return end_by_memory(errors);
    }
    match refused_line(alloc, name, wrong) {
        Ok(line) => end_by_line(errors, WRONG_WORDS, line.as_slice()),
        Err(_) => Err(Unreported {
            status: WRONG_WORDS,
            why: ProgramFault::MEMORY,
        }),
    }
}

/// Tells people of a line of the file that does not go together with others: the exit status.
fn end_by_clash<E: Write>(
    alloc: Global,
    errors: &mut E,
    name: &str,
    clash: Clash<'_>,
) -> Result<u8, Unreported>
    ensures told { IfOk result (λ ended. spec.EndsByClash Appends name.now clash.entry (E.contents errors.old) (E.contents errors.new) ended) }
    ensures cut { IfErr result (λ unreported. spec.EndsByClash (IsCut (stream_fault unreported.why)) name.now clash.entry
        (E.contents errors.old) (E.contents errors.new) unreported.status) }
{
    match clash_line(alloc, name, clash) {
        Ok(line) => end_by_line(errors, WRONG_WORDS, line.as_slice()),
        Err(_) => Err(Unreported {
            status: WRONG_WORDS,
            why: ProgramFault::MEMORY,
        }),
    }
}

/// Does what the command line and the lines of a file ask for together: the exit status.
fn serve_statements<
    R: Threads
        + Wait
        + Clock
        + RandomSource
        + Folder
        + HistoryFolders
        + LinkFolder<FI, FO>
        + Copy
        + Send
        + Sync
        + Drop
        + 'static,
    FI: Read + Send + Drop + 'static,
    FO: Write + Send + Drop + 'static,
    T: Write + Send + Drop + 'static,
    I: Read,
    W: Write,
    E: Write,
>(
    rt: &R,
    alloc: Global,
    words: &RouterWords,
    origin: Origin<'_>,
    console: &mut Console<I, W, E>,
    outlets: Outlets<T>,
) -> Result<u8, Unreported>
where
    R::Segments: Send + 'static,
    R::File: Send,
    R::New: Send,
    ensures served { IfOk result (spec.ServesStatements (R.opens rt.now) (R.makes rt.now) (R.keeps rt.now) (origin_of origin.entry) words.now
        console.old console.new) }
    ensures unreported { IfErr result (λ unreported. spec.CutsStatements (R.opens rt.now) (R.makes rt.now) (R.keeps rt.now) (stream_fault unreported.why)
        (origin_of origin.entry) words.now console.old console.new unreported.status) }
{
    if let Some(clash) = find_clash(words, origin.statements) {
        return end_by_clash(alloc, &mut console.errors, origin.name, clash);
    }
    match gather(alloc, words, origin.statements) {
        Ok(all) => serve_in_domain::<R, FI, FO, T, I, W, E>(
            rt, alloc, &all, origin, console, outlets,
        ),
        Err(_) => return end_by_memory(&mut console.errors),
    }
}

/// Does what the command line and the text of a file ask for together: the exit status. The names of files that it says count from this folder.
fn serve_text<
    R: Threads
        + Wait
        + Clock
        + RandomSource
        + Folder
        + HistoryFolders
        + LinkFolder<FI, FO>
        + Copy
        + Send
        + Sync
        + Drop
        + 'static,
    FI: Read + Send + Drop + 'static,
    FO: Write + Send + Drop + 'static,
    T: Write + Send + Drop + 'static,
    I: Read,
    W: Write,
    E: Write,
>(
    rt: &R,
    alloc: Global,
    words: &RouterWords,
    name: &str,
    text: &[u8],
    console: &mut Console<I, W, E>,
    outlets: Outlets<T>,
) -> Result<u8, Unreported>
where
    R::Segments: Send + 'static,
    R::File: Send,
    R::New: Send,
    requires { length text.now < 2 ^ 63 }
    ensures served { IfOk result (spec.ServesText (R.opens rt.now) (R.makes rt.now) (R.keeps rt.now) name.now text.now words.now
        console.old console.new) }
    ensures unreported { IfErr result (λ unreported. spec.CutsText (R.opens rt.now) (R.makes rt.now) (R.keeps rt.now) (stream_fault unreported.why) name.now
        text.now words.now console.old console.new unreported.status) }
{
    // A file without a name in that folder: what stands before the names of others.
    let Ok(folder) = path_beside(alloc, name, "") else {
        return end_by_memory(&mut console.errors);
    };
    match read_statements(alloc, folder.as_str(), text) {
        Ok(statements) => {
            let statements = statements.as_slice();
            let origin = Origin { name, statements };
            serve_statements::<R, FI, FO, T, I, W, E>(rt, alloc, words, origin, console, outlets)
        }
        Err(wrong) => return end_by_wrong(alloc, &mut console.errors, name, &wrong),
    }
}

/// Does what the command line and the file of this name ask for together: the exit status.
fn serve_file<
    R: Threads
        + Wait
        + Clock
        + RandomSource
        + Folder
        + HistoryFolders
        + LinkFolder<FI, FO>
        + Copy
        + Send
        + Sync
        + Drop
        + 'static,
    FI: Read + Send + Drop + 'static,
    FO: Write + Send + Drop + 'static,
    T: Write + Send + Drop + 'static,
    I: Read,
    W: Write,
    E: Write,
>(
    rt: &R,
    alloc: Global,
    words: &RouterWords,
    name: &str,
    console: &mut Console<I, W, E>,
    outlets: Outlets<T>,
) -> Result<u8, Unreported>
where
    R::Segments: Send + 'static,
    R::File: Send,
    R::New: Send,
    ensures served { IfOk result (spec.ServesFile (R.opens rt.now) (R.makes rt.now) (R.keeps rt.now) name.now words.now
        console.old console.new) }
    ensures unreported { IfErr result (λ unreported. spec.CutsFile (R.opens rt.now) (R.makes rt.now) (R.keeps rt.now) (stream_fault unreported.why) name.now
        words.now console.old console.new unreported.status) }
{
    let source = match String::from_str(alloc, name) {
        Ok(name) => Source::File(name),
        Err(_) => return end_by_memory(&mut console.errors),
    };
    match read_config(rt, alloc, &source, console) {
        Ok(Some(text)) => serve_text::<R, FI, FO, T, I, W, E>(
            rt,
            alloc,
            words,
            name,
            text.as_slice(),
            console,
            outlets,
        ),
        Ok(None) => Ok(FAILED),
        Err(fault) => {
            return end_by_line(
                &mut console.errors,
                FAILED,
                fault_line(Program::Ncroute, fault).as_bytes(),
            );
        }
    }
}

/// Does what the words of `router` ask for, with those of the file that they name, if they name one: the exit status. `outlets` is what
/// a router has besides the console.
pub(crate) fn serve_router<
    R: Threads
        + Wait
        + Clock
        + RandomSource
        + Folder
        + HistoryFolders
        + LinkFolder<FI, FO>
        + Copy
        + Send
        + Sync
        + Drop
        + 'static,
    FI: Read + Send + Drop + 'static,
    FO: Write + Send + Drop + 'static,
    T: Write + Send + Drop + 'static,
    I: Read,
    W: Write,
    E: Write,
>(
    rt: &R,
    alloc: Global,
    words: &RouterWords,
    console: &mut Console<I, W, E>,
    outlets: Outlets<T>,
) -> Result<u8, Unreported>
where
    R::Segments: Send + 'static,
    R::File: Send,
    R::New: Send,
    ensures served { IfOk result (spec.ServesConfigured (R.opens rt.now) (R.makes rt.now) (R.keeps rt.now) words.now console.old console.new) }
    ensures unreported { IfErr result (λ unreported. spec.CutsConfigured (R.opens rt.now) (R.makes rt.now) (R.keeps rt.now) (stream_fault unreported.why)
        words.now console.old console.new unreported.status) }
{
    match &words.config {
        Some(name) => {
            serve_file::<R, FI, FO, T, I, W, E>(rt, alloc, words, name.as_str(), console, outlets)
        }
        None => serve_in_domain::<R, FI, FO, T, I, W, E>(
            rt,
            alloc,
            words,
            no_file(),
            console,
            outlets,
        ),
    }
}
