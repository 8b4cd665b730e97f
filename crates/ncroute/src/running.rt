//! The script of a router: it may be started with filters, its history may be kept in a file, and it may end at its first refused line.
ghost use Rattle.std.specs.Prelude.{◌≡◌, ◌||◌, IfErr, IfOk, IfSome, is_some};
ghost use Rattle.filter_reports.specs.Faults.{stream_fault};
ghost use Rattle.ncroute.specs.Guiding.{EndsSaved, GuidesScript, IsCutLoss, StopsGuided, StopsSaved, TellsLoss};
ghost use Rattle.ncroute.specs.Joining.{RunsGuided, RunsNamed, RunsTexts, StopsNamed, StopsRun, StopsTexts, is_input_alone};
ghost use Rattle.ncroute.specs.Scripts.{IsQuiet, TakesLines, text_of};
ghost use Rattle.router_script.specs.Faults.{stream_of};
ghost use Rattle.router_script.specs.Running.{IsSaved, IsSavedInPart};

use crate::filters::{LoadedFilters, read_given, tell_unfit};
use crate::joined::read_texts;
use crate::script::Lines;
use crate::watcher::{Guide, ScriptPart, whole};
use command_line::RunOptions;
use filter_reports::{FAILED, ProgramFault, status_of};
use line_protocol::StreamFault;
use operator_cmds::NoWatcher;
use program_console::{Console, Folder, name_of, tell_uncreated, tell_unread, tell_unwritten};
use program_words::Source;
use router_script::{NamedFilter, SavingFault, Unfit, run_saved_script};
use std::alloc::Global;
use std::io::{self, Read, Write};

/// Answers the lines of a script that has these parts, and saves its history. Returns the number of refused lines, the saver, and
/// the filter that is refused, if one is.
fn answer<R: Read, W: Write, V: Write + Drop, E: Write>(
    alloc: Global,
    how: &RunOptions,
    parts: &[ScriptPart<'_>],
    filters: &[NamedFilter],
    saver: V,
    reader: &mut R,
    writer: &mut W,
    errors: &mut E,
) -> (Result<u32, SavingFault>, V, Option<Unfit>)
    ensures finished { IfOk result.0 (λ refused. IfSome (R.remaining reader.old) (λ input.
        IsSaved (is_some how.now.save) how.now.stops filters.now input (R.remaining reader.new) (W.contents writer.old) (W.contents writer.new) refused
        (V.contents saver) (V.contents result.1) result.2)) }
    ensures left_off { IfErr result.0 (λ fault. IfSome (R.remaining reader.old) (λ input.
        IsSavedInPart (stream_of fault) (is_some how.now.save) how.now.stops filters.now input (R.remaining reader.new) (W.contents writer.old) (W.contents writer.new)
        (V.contents saver) (V.contents result.1))) }
    ensures quiet { IsQuiet (how.now.is_explained || how.now.stops) (E.contents errors.old) (E.contents errors.new) }
{
    let (is_explained, stops) = (how.is_explained, how.stops);
    let saves = how.save.is_some();
    if is_explained || stops {
        let guide = Guide {
            parts,
            errors,
            is_explained,
            stops,
        };
        run_saved_script(alloc, reader, writer, saves, saver, guide, filters, stops)
    } else {
        run_saved_script(
            alloc, reader, writer, saves, saver, NoWatcher, filters, stops,
        )
    }
}

/// Answers lines as `answer` does, wherever they come from.
fn answer_lines<R: Read, W: Write, V: Write + Drop, E: Write>(
    alloc: Global,
    how: &RunOptions,
    parts: &[ScriptPart<'_>],
    filters: &[NamedFilter],
    saver: V,
    lines: Lines<'_>,
    console: &mut Console<R, W, E>,
) -> (Result<u32, SavingFault>, V, Option<Unfit>)
    ensures finished { IfOk result.0 (λ refused. TakesLines (text_of lines.entry) (λ input left.
        IsSaved (is_some how.now.save) how.now.stops filters.now input left console.old.holds console.new.holds refused (V.contents saver) (V.contents result.1) result.2)
        console.old.reads console.new.reads) }
    ensures left_off { IfErr result.0 (λ fault. TakesLines (text_of lines.entry) (λ input left.
        IsSavedInPart (stream_of fault) (is_some how.now.save) how.now.stops filters.now input left console.old.holds console.new.holds (V.contents saver) (V.contents result.1))
        console.old.reads console.new.reads) }
    ensures quiet { IsQuiet (how.now.is_explained || how.now.stops) console.old.tells console.new.tells }
{
    match lines {
        Lines::Input => answer(
            alloc,
            how,
            parts,
            filters,
            saver,
            &mut console.reader,
            &mut console.writer,
            &mut console.errors,
        ),
        Lines::Text(mut text) => answer(
            alloc,
            how,
            parts,
            filters,
            saver,
            &mut text,
            &mut console.writer,
            &mut console.errors,
        ),
    }
}

/// Tells people that the file of a history did not get all of it: the exit status.
fn tell_loss<E: Write>(
    alloc: Global,
    errors: &mut E,
    save: &Option<String>,
) -> Result<u8, ProgramFault>
    ensures told { IfOk result (λ status. TellsLoss save.now (E.contents errors.old) (E.contents errors.new) × (status ≡ 1)) }
    ensures cut { IfErr result (λ fault. IsCutLoss (stream_fault fault) save.now (E.contents errors.old) (E.contents errors.new)) }
{
    match save {
        Some(file) => match tell_unwritten(alloc, errors, file.as_str()) {
            Ok(()) => Ok(FAILED),
            Err(fault) => Err(fault),
        },
        // Where no file is named nothing is written, so this does not come.
        None => Err(ProgramFault::Stream(StreamFault::Write)),
    }
}

/// Carries out a script whose history goes to a saver. Returns the exit status, and the saver.
fn save_to<R: Read, W: Write, V: Write + Drop, E: Write>(
    alloc: Global,
    how: &RunOptions,
    parts: &[ScriptPart<'_>],
    filters: &[NamedFilter],
    saver: V,
    lines: Lines<'_>,
    console: &mut Console<R, W, E>,
) -> (Result<u8, ProgramFault>, V)
    ensures finished { IfOk result.0 (EndsSaved how.now filters.now (text_of lines.entry) (V.contents saver) (V.contents result.1)
        console.old console.new) }
    ensures stopped { IfErr result.0 (λ fault. StopsSaved (stream_fault fault) how.now filters.now (text_of lines.entry)
        (V.contents saver) (V.contents result.1) console.old console.new) }
{
    let (ended, saver, unfit) = answer_lines(alloc, how, parts, filters, saver, lines, console);
    match ended {
        Ok(refused) => match tell_unfit(alloc, &mut console.errors, filters, &unfit) {
            Ok(()) => (Ok(status_of(refused)), saver),
            Err(fault) => (Err(fault), saver),
        },
        Err(SavingFault::Stream(fault)) => (Err(ProgramFault::Stream(fault)), saver),
        Err(SavingFault::Saver) => match tell_loss(alloc, &mut console.errors, &how.save) {
            Ok(status) => (Ok(status), saver),
            Err(fault) => (Err(fault), saver),
        },
    }
}

/// Carries out a script that has these parts, and keeps its history in a new file where one is named. Returns the exit status.
#[tactic(auto, unfolding(crate::specs::Guiding::GuidesScript, crate::specs::Guiding::StopsGuided))]
fn guide_script<F: Folder, R: Read, W: Write, E: Write>(
    files: &F,
    alloc: Global,
    how: &RunOptions,
    parts: &[ScriptPart<'_>],
    filters: &[NamedFilter],
    lines: Lines<'_>,
    console: &mut Console<R, W, E>,
) -> Result<u8, ProgramFault>
    ensures finished { IfOk result (GuidesScript (F.creates files.now) (F.leaves files.now) how.now filters.now (text_of lines.entry)
        console.old console.new) }
    ensures stopped { IfErr result (λ fault. StopsGuided (F.creates files.now) (F.leaves files.now) (stream_fault fault) how.now filters.now
        (text_of lines.entry) console.old console.new) }
{
    match &how.save {
        Some(file) => match files.create(file.as_str()) {
            Ok(saver) => {
                let (ended, saver) = save_to(alloc, how, parts, filters, saver, lines, console);
                files.close(file.as_str(), saver);
                ended
            }
            Err(error) => {
                tell_uncreated(alloc, &mut console.errors, file.as_str(), &error)?;
                Ok(FAILED)
            }
        },
        None => save_to(alloc, how, parts, filters, io::sink(), lines, console).0,
    }
}

/// Reads the sources of a script, carries it out, and returns the exit status.
#[tactic(auto, unfolding(crate::specs::Joining::RunsTexts, crate::specs::Joining::StopsTexts))]
fn guide_texts<F: Folder, R: Read, W: Write, E: Write>(
    files: &F,
    alloc: Global,
    how: &RunOptions,
    filters: &[NamedFilter],
    sources: &[Source],
    console: &mut Console<R, W, E>,
) -> Result<u8, ProgramFault>
    ensures finished { IfOk result (RunsTexts (F.creates files.now) (F.leaves files.now) (F.opens files.now) how.now filters.now sources.now
        console.old console.new) }
    ensures stopped { IfErr result (λ fault. StopsTexts (F.creates files.now) (F.leaves files.now) (F.opens files.now) (stream_fault fault) how.now filters.now
        sources.now console.old console.new) }
{
    match read_texts(files, alloc, sources, &mut console.reader) {
        Ok(joined) => {
            let (script, parts) = (joined.text.as_slice(), joined.parts.as_slice());
            guide_script(
                files,
                alloc,
                how,
                parts,
                filters,
                Lines::Text(script),
                console,
            )
        }
        Err(unread) => {
            tell_unread(alloc, &mut console.errors, unread.source, unread.why)?;
            Ok(FAILED)
        }
    }
}

/// Whether these sources are standard input alone.
fn is_input_alone(sources: &[Source]) -> bool
    ensures { result ≡ is_input_alone sources.now }
{
    match sources.first() {
        Some(source) => source.is_input() && sources.len() == 1,
        None => false,
    }
}

/// Carries out the script that sources are, and returns the exit status. The lines of standard input alone are answered as they come, and other
/// sources are read before the first line is answered.
fn guide_sources<F: Folder, R: Read, W: Write, E: Write>(
    files: &F,
    alloc: Global,
    how: &RunOptions,
    filters: &[NamedFilter],
    sources: &[Source],
    console: &mut Console<R, W, E>,
) -> Result<u8, ProgramFault>
    ensures finished { IfOk result (RunsNamed (F.creates files.now) (F.leaves files.now) (F.opens files.now) how.now filters.now sources.now
        console.old console.new) }
    ensures stopped { IfErr result (λ fault. StopsNamed (F.creates files.now) (F.leaves files.now) (F.opens files.now) (stream_fault fault) how.now filters.now
        sources.now console.old console.new) }
{
    if is_input_alone(sources) {
        let parts = [whole(name_of(&Source::Input))];
        guide_script(
            files,
            alloc,
            how,
            parts.as_slice(),
            filters,
            Lines::Input,
            console,
        )
    } else {
        guide_texts(files, alloc, how, filters, sources, console)
    }
}

/// Reads the filters that a script is started with, then carries out the script that the sources are, and returns the exit status. What is told of
/// a line is told at its number in its source.
pub(crate) fn run_sources<F: Folder, R: Read, W: Write, E: Write>(
    files: &F,
    alloc: Global,
    how: &RunOptions,
    sources: &[Source],
    console: &mut Console<R, W, E>,
) -> Result<u8, ProgramFault>
    ensures finished { IfOk result (RunsGuided (F.creates files.now) (F.leaves files.now) (F.opens files.now) how.now sources.now
        console.old console.new) }
    ensures stopped { IfErr result (λ fault. StopsRun (F.creates files.now) (F.leaves files.now) (F.opens files.now) (stream_fault fault) how.now sources.now
        console.old console.new) }
{
    match read_given(files, alloc, how.filters.as_slice(), console) {
        LoadedFilters::All(filters) => {
            guide_sources(files, alloc, how, filters.as_slice(), sources, console)
        }
        LoadedFilters::Skipped => Ok(FAILED),
        LoadedFilters::Stopped(fault) => Err(fault),
    }
}
