//! The script of a domain: it is carried out, and its refusals are told.
ghost use Rattle.std.specs.Prelude.{◌≡◌, IfErr, IfOk, IfSome};
ghost use Rattle.domain_cmds.specs.Running.{IsBrokenOff, IsCarriedOut};
ghost use Rattle.filter_reports.specs.Faults.{stream_fault};
ghost use Rattle.ncroute.specs.Scripts.{IsQuiet, RunsFile, RunsScript, RunsSource, StopsFile, StopsScript, StopsSource};
ghost use Rattle.ncroute.specs.Scripts.{TakesLines, text_of};

use crate::domain_loading::read_script;
use crate::watcher::Teller;
use domain_cmds::{run_domain, run_watched_domain};
use filter_reports::{FAULT, ProgramFault, status_of};
use line_protocol::StreamFault;
use program_console::{Console, Folder, Loaded, name_of};
use program_words::Source;
use std::alloc::Global;
use std::io::{Read, Write};

/// Where the lines of a script come from.
#[derive(Clone, Copy)]
pub enum Lines<'a> {
    /// Standard input, as they come.
    Input,
    /// This text, which was read before the first of them is answered.
    Text(&'a [u8]),
}

/// Answers the lines of a script that people know by a name. Where `is_explained` says so, it is told in words why a filter is
/// refused. Returns the number of refused lines.
fn answer<R: Read, W: Write, E: Write>(
    alloc: Global,
    name: &[u8],
    is_explained: bool,
    reader: &mut R,
    writer: &mut W,
    errors: &mut E,
) -> Result<u32, StreamFault>
    ensures finished { IfOk result (λ refused. IfSome (R.remaining reader.old) (λ input.
        IsCarriedOut input (R.remaining reader.new) (W.contents writer.old) (W.contents writer.new) refused)) }
    ensures left_off { IfErr result (λ fault. IfSome (R.remaining reader.old) (λ input.
        IsBrokenOff fault input (R.remaining reader.new) (W.contents writer.old) (W.contents writer.new))) }
    ensures quiet { IsQuiet is_explained (E.contents errors.old) (E.contents errors.new) }
{
    if is_explained {
        run_watched_domain(alloc, reader, writer, Teller { name, errors })
    } else {
        run_domain(alloc, reader, writer)
    }
}

/// Answers lines as `answer` does, wherever they come from.
fn answer_lines<R: Read, W: Write, E: Write>(
    alloc: Global,
    name: &[u8],
    is_explained: bool,
    lines: Lines<'_>,
    console: &mut Console<R, W, E>,
) -> Result<u32, StreamFault>
    ensures finished { IfOk result (λ refused. TakesLines (text_of lines.entry) (λ input left.
        IsCarriedOut input left console.old.holds console.new.holds refused) console.old.reads console.new.reads) }
    ensures left_off { IfErr result (λ fault. TakesLines (text_of lines.entry) (λ input left.
        IsBrokenOff fault input left console.old.holds console.new.holds) console.old.reads console.new.reads) }
    ensures quiet { IsQuiet is_explained console.old.tells console.new.tells }
{
    match lines {
        Lines::Input => answer(
            alloc,
            name,
            is_explained,
            &mut console.reader,
            &mut console.writer,
            &mut console.errors,
        ),
        Lines::Text(mut text) => answer(
            alloc,
            name,
            is_explained,
            &mut text,
            &mut console.writer,
            &mut console.errors,
        ),
    }
}

/// Carries out a script that people know by a name, and returns the exit status. Where `is_explained` says so, it is told in words why
/// a filter is refused.
fn carry_out<R: Read, W: Write, E: Write>(
    alloc: Global,
    name: &[u8],
    is_explained: bool,
    lines: Lines<'_>,
    console: &mut Console<R, W, E>,
) -> Result<u8, ProgramFault>
    ensures finished { IfOk result (RunsScript is_explained (text_of lines.entry) console.old console.new) }
    ensures stopped { IfErr result (λ fault. StopsScript (stream_fault fault) is_explained (text_of lines.entry) console.old console.new) }
{
    let refused = answer_lines(alloc, name, is_explained, lines, console)?;
    Ok(status_of(refused))
}

/// Carries out the script of a file, with the filters that it includes in their places, and returns the exit status.
fn run_file<F: Folder, R: Read, W: Write, E: Write>(
    files: &F,
    alloc: Global,
    source: &Source,
    is_explained: bool,
    console: &mut Console<R, W, E>,
) -> Result<u8, ProgramFault>
    ensures finished { IfOk result (RunsFile (F.opens files.now) source.now is_explained console.old console.new) }
    ensures stopped { IfErr result (λ fault. StopsFile (F.opens files.now) (stream_fault fault) source.now is_explained
        console.old console.new) }
{
    match read_script(files, alloc, source, console) {
        Loaded::Text(text) => carry_out(
            alloc,
            name_of(source),
            is_explained,
            Lines::Text(text.as_slice()),
            console,
        ),
        Loaded::Skipped => Ok(FAULT),
        Loaded::Stopped(fault) => Err(fault),
    }
}

/// Carries out the script of a domain, and returns the exit status. The lines of standard input are answered as they come.
pub(crate) fn run_source<F: Folder, R: Read, W: Write, E: Write>(
    files: &F,
    alloc: Global,
    source: &Source,
    is_explained: bool,
    console: &mut Console<R, W, E>,
) -> Result<u8, ProgramFault>
    ensures finished { IfOk result (RunsSource (F.opens files.now) source.now is_explained console.old console.new) }
    ensures stopped { IfErr result (λ fault. StopsSource (F.opens files.now) (stream_fault fault) source.now is_explained
        console.old console.new) }
{
    match source {
        Source::Input => carry_out(alloc, name_of(source), is_explained, Lines::Input, console),
        Source::File(_) => run_file(files, alloc, source, is_explained, console),
    }
}
