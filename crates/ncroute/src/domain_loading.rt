//! The file of a whole domain is read, with the filters that it includes.
//!
//! **A line `include NAME FILE` becomes `code NAME HEX`** of the filter in FILE, so that the text that is read is a script as `ncroute domain` has them
//! from anywhere. A filter that is refused is told at its place in its own file.
ghost use Rattle.std.specs.Option.{option_map};
ghost use Rattle.std.specs.Prelude.{◌≡◌, ◌∷◌, ◌++◌, [], IfErr, IfOk, OnOk};
ghost use Rattle.std.specs.Io.KnownBytes.{Appends};
ghost use Rattle.domain_cmds.specs.CommandView.{view_of};
ghost use Rattle.domain_files.specs.Including.{include_in};
ghost use Rattle.filter_reports.specs.Faults.{stream_fault};
ghost use Rattle.line_protocol.specs.declared.faults.StreamFault.TheVariants.{Memory};
ghost use Rattle.ncroute.specs.DomainLoading as spec;

use crate::filters::explain_refusal;
use crate::watcher::tell_refused;
use code_file::write_code;
use domain_cmds::{DomainCommand, read_command};
use domain_files::{DomainFile, Include, WrongFile, WrongLine, include_in, read_domain};
use filter_reports::ProgramFault;
use filter_source::{Diagnosis, Failure, SOURCE_LIMIT};
use filter_verifier::Verified;
use line_protocol::{INPUT_LIMIT, push_decimal};
use operator_cmds::verify_text;
use program_console::{Console, Folder, Loaded, included_path, name_of, read_config, write_line};
use program_words::Source;
use refusal_words::push_shown;
use router_files::cut_line;
use script_words::ScriptKind;
use std::alloc::{AllocError, Global};
use std::io::{Read, Write};

/// What came of reading the file of a domain.
#[derive(Drop)]
pub enum DomainRead {
    /// The domain that it sets up.
    File(DomainFile),
    /// It, or a file that it includes, was not read, or such a filter is refused: people were told.
    Unread,
    /// A line of it is refused, or it sets no domain up: people were told.
    Wrong,
}

/// The size that a command gives to a domain, if it does.
fn size_given(command: &DomainCommand<'_>) -> Option<u16>
    ensures { result ≡ spec.size_given (view_of command.now) }
{
    match command {
        DomainCommand::Domain(size) => Some(size.nodes),
        _ => None,
    }
}

/// The size that a line gives to a domain, if it does.
fn size_in(alloc: Global, line: &[u8]) -> Option<u16>
    ensures { result ≡ spec.size_in line.now }
{
    match read_command(alloc, line) {
        Ok(command) => size_given(&command),
        // Memory is refused to no line that gives a size.
        Err(_) => None,
    }
}

/// The size of the domain behind a line: the one that was known before, or the one that the line gives.
fn size_behind(alloc: Global, size: Option<u16>, line: &[u8]) -> Option<u16>
    ensures { result ≡ spec.size_behind size line.now }
{
    match size {
        Some(size) => Some(size),
        None => size_in(alloc, line),
    }
}

/// Adds the line that gives a name to a filter by its code.
fn push_code(
    alloc: Global,
    out: &mut Vec<u8>,
    name: &[u8],
    filter: &Verified,
) -> Result<(), AllocError>
    ensures { OnOk result (out.new.items ≡ out.old.items ++ spec.code_line name.now filter.now.program) }
{
    let Ok(bytes) = write_code(alloc, filter.code()) else {
        return Err(AllocError);
    };
    let digits = hex::encode(alloc, bytes)?;
    out.extend_from_slice(b"code ")?;
    out.extend_from_slice(name)?;
    out.push(b' ')?;
    out.extend_from_slice(digits.as_bytes())?;
    out.push(b'\n')?;
    Ok(())
}

/// Tells people why the filter of this text is refused.
fn tell_diagnosis<R: Read, W: Write, E: Write>(
    alloc: Global,
    source: &Source,
    text: &[u8],
    diagnosis: &Diagnosis,
    console: &mut Console<R, W, E>,
) -> Result<(), ProgramFault>
    ensures told { OnOk result (spec.TellsRefusal source.now text.now diagnosis.now console.old console.new) }
    ensures cut { IfErr result (λ fault. spec.CutsRefusal (stream_fault fault) source.now text.now diagnosis.now console.old console.new) }
    ensures unwritten { console.new.holds ≡ console.old.holds }
{
    explain_refusal(alloc, &mut console.errors, name_of(source), text, diagnosis)
}

/// Adds the line that gives a name to the filter of this text, for a domain of this size. None is added where it is refused, which people are told.
fn push_filter<R: Read, W: Write, E: Write>(
    alloc: Global,
    out: &mut Vec<u8>,
    size: u16,
    name: &[u8],
    source: &Source,
    text: &[u8],
    console: &mut Console<R, W, E>,
) -> Result<bool, ProgramFault>
    ensures added { IfOk result (spec.AddsFilter size name.now source.now text.now out.old.items out.new.items console.old console.new) }
    ensures stopped { IfErr result (λ fault. spec.CutsFilter (stream_fault fault) size source.now text.now console.old console.new) }
    ensures unwritten { console.new.holds ≡ console.old.holds }
{
    match verify_text(alloc, text, size) {
        Ok(filter) => match push_code(alloc, out, name, &filter) {
            Ok(()) => Ok(true),
            Err(_) => Err(ProgramFault::MEMORY),
        },
        Err(Failure::Refused(diagnosis)) => {
            match tell_diagnosis(alloc, source, text, &diagnosis, console) {
                Ok(()) => Ok(false),
                Err(fault) => Err(fault),
            }
        }
        Err(Failure::Memory) => Err(ProgramFault::MEMORY),
    }
}

/// Adds the line that gives a name to the filter of a source, likewise. None is added either where the source is not read, which people are told.
fn push_source<F: Folder, R: Read, W: Write, E: Write>(
    files: &F,
    alloc: Global,
    out: &mut Vec<u8>,
    size: u16,
    name: &[u8],
    source: &Source,
    console: &mut Console<R, W, E>,
) -> Result<bool, ProgramFault>
    ensures added { IfOk result (spec.AddsSource (F.opens files.now) size name.now source.now out.old.items out.new.items console.old console.new) }
    ensures stopped { IfErr result (λ fault. spec.CutsSource (F.opens files.now) (stream_fault fault) size source.now console.old console.new) }
    ensures unwritten { console.new.holds ≡ console.old.holds }
{
    match console.read(files, alloc, source, SOURCE_LIMIT) {
        Loaded::Text(text) => {
            push_filter(alloc, out, size, name, source, text.as_slice(), console)
        }
        Loaded::Skipped => Ok(false),
        Loaded::Stopped(fault) => Err(fault),
    }
}

/// The source that another one includes by this name.
fn source_of(alloc: Global, by: &Source, name: &str) -> Result<Source, AllocError>
    ensures { IfOk result (spec.IsSourceOf by.now name.now) }
{
    let path = included_path(alloc, by, name)?;
    Ok(Source::File(path))
}

/// Adds the line that gives a name to the filter of a file that another source includes, likewise.
fn push_file<F: Folder, R: Read, W: Write, E: Write>(
    files: &F,
    alloc: Global,
    out: &mut Vec<u8>,
    size: u16,
    by: &Source,
    name: &[u8],
    file: &str,
    console: &mut Console<R, W, E>,
) -> Result<bool, ProgramFault>
    ensures added { IfOk result (spec.AddsFile (F.opens files.now) size by.now name.now file.now out.old.items out.new.items console.old console.new) }
    ensures stopped { IfErr result (λ fault. spec.CutsFile (F.opens files.now) (stream_fault fault) size by.now file.now console.old console.new) }
    ensures unwritten { console.new.holds ≡ console.old.holds }
{
    match source_of(alloc, by, file) {
        Ok(source) => push_source(files, alloc, out, size, name, &source, console),
        Err(_) => Err(ProgramFault::MEMORY),
    }
}

/// Adds a line, and what ends it.
fn add_line(out: &mut Vec<u8>, line: &[u8]) -> Result<(), AllocError>
    ensures { OnOk result (out.new.items ≡ out.old.items ++ line.now ++ 10 ∷ []) }
{
    out.extend_from_slice(line)?;
    out.push(b'\n')?;
    Ok(())
}

/// Adds a line as it is.
fn push_line(out: &mut Vec<u8>, line: &[u8]) -> Result<bool, ProgramFault>
    ensures added { IfOk result (spec.AddsLine line.now out.old.items out.new.items) }
    ensures stopped { IfErr result (λ fault. stream_fault fault ≡ Memory) }
{
    match add_line(out, line) {
        Ok(()) => Ok(true),
        Err(_) => Err(ProgramFault::MEMORY),
    }
}

/// Adds the line that gives a name to the filter of a file that a domain's file includes, likewise. A file whose name is not UTF-8 is no file: its
/// line becomes one that is refused.
fn push_included<F: Folder, R: Read, W: Write, E: Write>(
    files: &F,
    alloc: Global,
    out: &mut Vec<u8>,
    size: u16,
    by: &Source,
    include: Include<'_>,
    console: &mut Console<R, W, E>,
) -> Result<bool, ProgramFault>
    ensures added { IfOk result (spec.AddsIncluded (F.opens files.now) size by.now (spec.include_of include.entry) out.old.items out.new.items console.old console.new) }
    ensures stopped { IfErr result (λ fault. spec.CutsIncluded (F.opens files.now) (stream_fault fault) size by.now (spec.include_of include.entry) console.old console.new) }
    ensures unwritten { console.new.holds ≡ console.old.holds }
{
    match str::from_utf8(include.file) {
        Ok(file) => push_file(files, alloc, out, size, by, include.name, file, console),
        Err(_) => push_line(out, b"include"),
    }
}

/// Adds a line of a domain of this size, or what stands for it where it includes a filter. None is added where a filter is not there or is refused,
/// which people are told.
fn push_sized<F: Folder, R: Read, W: Write, E: Write>(
    files: &F,
    alloc: Global,
    out: &mut Vec<u8>,
    size: u16,
    by: &Source,
    line: &[u8],
    console: &mut Console<R, W, E>,
) -> Result<bool, ProgramFault>
    ensures added { IfOk result (spec.AddsSized (F.opens files.now) size by.now line.now (include_in line.now) out.old.items out.new.items console.old console.new) }
    ensures unwritten { console.new.holds ≡ console.old.holds }
{
    match include_in(line) {
        Some(include) => push_included(files, alloc, out, size, by, include, console),
        None => push_line(out, line),
    }
}

/// Adds a line likewise, of a domain whose size may not be known. Then it stays as it is.
fn push_next<F: Folder, R: Read, W: Write, E: Write>(
    files: &F,
    alloc: Global,
    out: &mut Vec<u8>,
    size: Option<u16>,
    by: &Source,
    line: &[u8],
    console: &mut Console<R, W, E>,
) -> Result<bool, ProgramFault>
    ensures added { IfOk result (spec.AddsLineOf (F.opens files.now) size by.now line.now out.old.items out.new.items console.old console.new) }
    ensures unwritten { console.new.holds ≡ console.old.holds }
{
    match size {
        Some(size) => push_sized(files, alloc, out, size, by, line, console),
        None => push_line(out, line),
    }
}

/// The text of a domain's file with the filters that it includes in their places, a line for a line. None where one of them is not there or is refused,
/// which people are told. A filter is included once the size of the domain is known, by a line before it.
fn include_filters<F: Folder, R: Read, W: Write, E: Write>(
    files: &F,
    alloc: Global,
    source: &Source,
    text: &[u8],
    console: &mut Console<R, W, E>,
) -> Result<Option<Vec<u8>>, ProgramFault>
    ensures finished { IfOk result (λ whole. spec.IncludesFilters (F.opens files.now) source.now text.now
        (option_map (λ whole. whole.items) whole) console.old console.new) }
    ensures unwritten { console.new.holds ≡ console.old.holds }
{
    let mut out = Vec::new(alloc);
    let mut left = text;
    let mut size = None;
    while let Some((line, rest)) = cut_line(left) {
        left = rest;
        size = size_behind(alloc, size, line);
        let is_added = push_next(files, alloc, &mut out, size, source, line, console)?;
        if !is_added {
            return Ok(None);
        }
    }
    Ok(Some(out))
}

/// Reads the script of a domain, with the filters that it includes in their places. What is not read, and a filter that is refused, people are told.
pub(crate) fn read_script<F: Folder, R: Read, W: Write, E: Write>(
    files: &F,
    alloc: Global,
    source: &Source,
    console: &mut Console<R, W, E>,
) -> Loaded
    ensures loaded { spec.IsScript (F.opens files.now) source.now result console.old console.new }
    ensures unwritten { console.new.holds ≡ console.old.holds }
{
    match console.read(files, alloc, source, INPUT_LIMIT) {
        Loaded::Text(text) => {
            match include_filters(files, alloc, source, text.as_slice(), console) {
                Ok(Some(whole)) => Loaded::Text(whole),
                Ok(None) => Loaded::Skipped,
                Err(fault) => Loaded::Stopped(fault),
            }
        }
        Loaded::Skipped => Loaded::Skipped,
        Loaded::Stopped(fault) => Loaded::Stopped(fault),
    }
}

/// Adds the place of a line, if it is told of one.
fn push_at_line(out: &mut Vec<u8>, number: Option<u32>) -> Result<(), AllocError>
    ensures { OnOk result (out.new.items ≡ out.old.items ++ spec.at_line number) }
{
    match number {
        Some(number) => {
            out.push(b':')?;
            push_decimal(out, u64::from(number))?;
            out.extend_from_slice(b":1")?;
            Ok(())
        }
        None => Ok(()),
    }
}

/// The line that tells what is wrong with a domain's file at a line of it, or at none.
fn wrong_words(
    alloc: Global,
    name: &[u8],
    number: Option<u32>,
    words: &[u8],
) -> Result<Vec<u8>, AllocError>
    ensures { IfOk result (λ line. line.items ≡ spec.wrong_words name.now number words.now) }
{
    let mut line = Vec::new(alloc);
    push_shown(alloc, &mut line, name)?;
    push_at_line(&mut line, number)?;
    line.extend_from_slice(b": ")?;
    line.extend_from_slice(words)?;
    line.push(b'\n')?;
    Ok(line)
}

/// Tells people such a line.
fn tell_words<E: Write>(
    alloc: Global,
    errors: &mut E,
    name: &[u8],
    number: Option<u32>,
    words: &[u8],
) -> Result<(), ProgramFault>
    ensures { OnOk result (Appends (E.contents errors.old) (E.contents errors.new) (spec.wrong_words name.now number words.now)) }
{
    match wrong_words(alloc, name, number, words) {
        Ok(line) => write_line(errors, line.as_slice()),
        Err(_) => Err(ProgramFault::MEMORY),
    }
}

/// Tells people in words why a line of a domain's file is refused, if there is memory for the words.
fn tell_line<E: Write>(alloc: Global, errors: &mut E, name: &[u8], line: &WrongLine)
    ensures { spec.TellsLine name.now line.now (E.contents errors.old) (E.contents errors.new) }
{
    let shown = line.shown();
    tell_refused(alloc, ScriptKind::Domain, name, &shown, errors);
}

/// Tells people why a text is not the file of a domain.
fn tell_wrong<E: Write>(
    alloc: Global,
    errors: &mut E,
    name: &[u8],
    wrong: &WrongFile,
) -> Result<(), ProgramFault>
    ensures { OnOk result (spec.TellsWrong name.now wrong.now (E.contents errors.old) (E.contents errors.new)) }
{
    match wrong {
        WrongFile::Refused(line) => {
            tell_line(alloc, errors, name, line);
            Ok(())
        }
        WrongFile::NameAgain(number) => {
            let words =
                b"a filter has this name already, and a router knows its filters by their names";
            tell_words(alloc, errors, name, Some(*number), words)
        }
        WrongFile::NoDomain => { tell_words(alloc, errors, name, None, b"no line says `domain N`") }
        WrongFile::Memory => Err(ProgramFault::MEMORY),
    }
}

/// The domain that a whole text sets up. Why it sets up none people are told.
fn set_up<R: Read, W: Write, E: Write>(
    alloc: Global,
    name: &[u8],
    text: &[u8],
    console: &mut Console<R, W, E>,
) -> Result<DomainRead, ProgramFault>
    ensures finished { IfOk result (spec.SetsUp name.now text.now console.old console.new) }
    ensures unwritten { console.new.holds ≡ console.old.holds }
{
    match read_domain(alloc, text) {
        Ok(file) => Ok(DomainRead::File(file)),
        Err(wrong) => match tell_wrong(alloc, &mut console.errors, name, &wrong) {
            Ok(()) => Ok(DomainRead::Wrong),
            Err(fault) => Err(fault),
        },
    }
}

/// The whole text of a domain's file. None where something is not read, or a filter is refused, which people are told.
fn read_whole<F: Folder, R: Read, W: Write, E: Write>(
    files: &F,
    alloc: Global,
    source: &Source,
    console: &mut Console<R, W, E>,
) -> Result<Option<Vec<u8>>, ProgramFault>
    ensures finished { IfOk result (λ whole. spec.IsWhole (F.opens files.now) source.now
        (option_map (λ whole. whole.items) whole) console.old console.new) }
    ensures unwritten { console.new.holds ≡ console.old.holds }
{
    match read_config(files, alloc, source, console) {
        Ok(Some(text)) => include_filters(files, alloc, source, text.as_slice(), console),
        Ok(None) => Ok(None),
        Err(fault) => Err(fault),
    }
}

/// Reads the file of a domain, and the filters that it includes, as `load_domain` does, where it is this source.
fn load_source<F: Folder, R: Read, W: Write, E: Write>(
    files: &F,
    alloc: Global,
    source: &Source,
    console: &mut Console<R, W, E>,
) -> Result<DomainRead, ProgramFault>
    ensures finished { IfOk result (spec.LoadsFrom (F.opens files.now) source.now console.old console.new) }
    ensures unwritten { console.new.holds ≡ console.old.holds }
{
    match read_whole(files, alloc, source, console) {
        Ok(Some(text)) => set_up(alloc, name_of(source), text.as_slice(), console),
        Ok(None) => Ok(DomainRead::Unread),
        Err(fault) => Err(fault),
    }
}

/// Reads the file of a domain, and the filters that it includes. What is wrong with them people are told.
pub(crate) fn load_domain<F: Folder, R: Read, W: Write, E: Write>(
    files: &F,
    alloc: Global,
    name: &str,
    console: &mut Console<R, W, E>,
) -> Result<DomainRead, ProgramFault>
    ensures finished { IfOk result (spec.LoadsDomain (F.opens files.now) name.now console.old console.new) }
    ensures unwritten { console.new.holds ≡ console.old.holds }
{
    match String::from_str(alloc, name) {
        Ok(name) => {
            let source = Source::File(name);
            load_source(files, alloc, &source, console)
        }
        Err(_) => Err(ProgramFault::MEMORY),
    }
}
