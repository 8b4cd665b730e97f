//! What people are told of a file or a source by its name: that it was not read, not made, or not written to its end.
ghost use Rattle.std.specs.Prelude.{◌≡◌, ℕ, List, IfOk, IfErr, OnOk};
ghost use Rattle.std.specs.Io.KnownBytes.{Appends};
ghost use Rattle.filter_reports.specs.Cuts.{IsCut};
ghost use Rattle.filter_reports.specs.Faults.{stream_fault};
ghost use Rattle.program_console.specs.Reading.{IsUnreadLine, LacksLine, StopsTelling, TellsUnread};
ghost use Rattle.program_console.specs.Reading.{long_line, long_words, notice_line};
ghost use Rattle.program_console.specs.Reading.{uncreated_line, unread_line, unwritten_line, unwritten_words};

use crate::sources::{Unread, name_of};
use filter_reports::ProgramFault;
use line_protocol::{StreamFault, write_text};
use program_words::Source;
use refusal_words::push_shown;
use std::alloc::{AllocError, Global};
use std::io::{Error, Write};

/// The reason in what an error of the system says, without the error's number.
fn reason_in(words: &str) -> &str {
    match words.split_once(" (os error ") {
        Some((reason, _)) => reason,
        None => words,
    }
}

/// The line that tells something of what has a name: what is said, with its code behind it.
fn notice_line(alloc: Global, name: &[u8], words: &str, code: &[u8]) -> Result<Vec<u8>, AllocError>
    ensures { IfOk result (λ line. line.items ≡ notice_line name.now words.now code.now) }
{
    let mut line = Vec::new(alloc);
    push_shown(alloc, &mut line, name)?;
    line.extend_from_slice(b": ")?;
    push_shown(alloc, &mut line, words.as_bytes())?;
    line.extend_from_slice(code)?;
    Ok(line)
}

/// Writes a line.
pub fn write_line<W: Write>(writer: &mut W, line: &[u8]) -> Result<(), ProgramFault>
    ensures ok { OnOk result (Appends (W.contents writer.old) (W.contents writer.new) line.now) }
    ensures err { IfErr result (λ fault. IsCut (stream_fault fault) (W.contents writer.old) (W.contents writer.new) line.now) }
{
    write_text(writer, line)?;
    Ok(())
}

/// Tells something of what has a name.
pub fn tell_of<E: Write>(
    alloc: Global,
    errors: &mut E,
    name: &[u8],
    words: &str,
    code: &[u8],
) -> Result<(), ProgramFault>
    ensures ok { OnOk result (Appends (E.contents errors.old) (E.contents errors.new) (notice_line name.now words.now code.now)) }
    ensures err { IfErr result (λ fault.
        IsCut (stream_fault fault) (E.contents errors.old) (E.contents errors.new) (notice_line name.now words.now code.now)) }
{
    let line = notice_line(alloc, name, words, code)?;
    write_line(errors, line.as_slice())
}

/// Tells the reason in an error, of what has a name.
fn tell_reason<E: Write>(
    alloc: Global,
    errors: &mut E,
    name: &[u8],
    error: &Error,
    code: &[u8],
) -> Result<(), ProgramFault>
    ensures ok { OnOk result ((words : List ℕ)
        × Appends (E.contents errors.old) (E.contents errors.new) (notice_line name.now words code.now)) }
    ensures err { IfErr result (λ fault. (words : List ℕ)
        × IsCut (stream_fault fault) (E.contents errors.old) (E.contents errors.new) (notice_line name.now words code.now)) }
{
    let words = format!(in alloc; "{error}")?;
    tell_of(alloc, errors, name, reason_in(words.as_str()), code)
}

/// Tells on `errors` that a file was not made, and the reason in the error.
pub fn tell_uncreated<E: Write>(
    alloc: Global,
    errors: &mut E,
    name: &str,
    error: &Error,
) -> Result<(), ProgramFault>
    ensures ok { OnOk result ((words : List ℕ)
        × Appends (E.contents errors.old) (E.contents errors.new) (uncreated_line name.now words)) }
    ensures err { IfErr result (λ fault. (words : List ℕ)
        × IsCut (stream_fault fault) (E.contents errors.old) (E.contents errors.new) (uncreated_line name.now words)) }
{
    tell_reason(alloc, errors, name.as_bytes(), error, b" (E2)\n")
}

/// What is said of a new file that did not get the whole text.
#[tactic(auto, unfolding(crate::specs::Reading::unwritten_words))]
fn unwritten_words() -> &'static str
    ensures { result.now ≡ unwritten_words }
{
    "could not be written to its end"
}

/// Tells on `errors` that a new file did not get the whole text.
pub fn tell_unwritten<E: Write>(
    alloc: Global,
    errors: &mut E,
    name: &str,
) -> Result<(), ProgramFault>
    ensures ok { OnOk result (Appends (E.contents errors.old) (E.contents errors.new) (unwritten_line name.now)) }
    ensures err { IfErr result (λ fault.
        IsCut (stream_fault fault) (E.contents errors.old) (E.contents errors.new) (unwritten_line name.now)) }
{
    tell_of(
        alloc,
        errors,
        name.as_bytes(),
        unwritten_words(),
        b" (E2)\n",
    )
}

/// The line that tells that a source was not read, with the reason in the error.
pub fn broken_line(alloc: Global, source: &Source, error: &Error) -> Result<Vec<u8>, AllocError>
    ensures { IfOk result (λ line. (words : List ℕ) × (line.items ≡ unread_line source.now words)) }
{
    let words = format!(in alloc; "{error}")?;
    notice_line(
        alloc,
        name_of(source),
        reason_in(words.as_str()),
        b" (E1)\n",
    )
}

/// What is said of the text of a filter that is longer than its limit.
#[tactic(auto, unfolding(crate::specs::Reading::long_words))]
fn long_words() -> &'static str
    ensures { result.now ≡ long_words }
{
    "longer than 1048576 bytes"
}

/// The line that tells that the text of a filter is longer than its limit.
fn long_line(alloc: Global, source: &Source) -> Result<Vec<u8>, AllocError>
    ensures { IfOk result (λ line. line.items ≡ long_line source.now) }
{
    notice_line(alloc, name_of(source), long_words(), b" (E4)\n")
}

/// The line that tells why a source was not read. Standard input has no name to tell: its fault is handed on.
pub(crate) fn unread_line(
    alloc: Global,
    source: &Source,
    why: Unread,
) -> Result<Vec<u8>, ProgramFault>
    ensures line { IfOk result (λ line. IsUnreadLine source.now why line.items) }
    ensures lacking { IfErr result (λ fault. LacksLine why (stream_fault fault)) }
{
    match why {
        Unread::Broken(reason) => match broken_line(alloc, source, &reason) {
            Ok(line) => Ok(line),
            Err(_) => Err(ProgramFault::MEMORY),
        },
        Unread::Input => Err(ProgramFault::Stream(StreamFault::Read)),
        Unread::Memory => Err(ProgramFault::MEMORY),
        Unread::TooLong => match long_line(alloc, source) {
            Ok(line) => Ok(line),
            Err(_) => Err(ProgramFault::MEMORY),
        },
    }
}

/// Tells on `errors` that a source was not read.
pub fn tell_unread<E: Write>(
    alloc: Global,
    errors: &mut E,
    source: &Source,
    why: Unread,
) -> Result<(), ProgramFault>
    ensures told { OnOk result (TellsUnread source.now why (E.contents errors.old) (E.contents errors.new)) }
    ensures stopped { IfErr result (λ fault. StopsTelling (stream_fault fault) source.now why
        (E.contents errors.old) (E.contents errors.new)) }
{
    match unread_line(alloc, source, why) {
        Ok(line) => write_line(errors, line.as_slice()),
        Err(fault) => Err(fault),
    }
}
