//! How a source is read: a file, or standard input, to its end or to a limit.
ghost use Rattle.std.specs.Prelude.{◌≡◌, ◌<◌, ◌^◌, IfOk, IfErr};
ghost use Rattle.program_console.specs.Reading.{IsCause, IsOfFile, IsRead, IsUnread, LeavesFile, LeavesInput, ReadsFile, ReadsInput, ReadsWhole};
ghost use Rattle.filter_reports.specs.Faults.{stream_fault};
ghost use Rattle.program_console.specs.Reading.{IsFound, IsTextWithin, StopsLoading, name_of};

use crate::folder::Folder;
use crate::notices::unread_line;
use filter_reports::ProgramFault;
use line_protocol::{StreamFault, read_input};
use program_words::Source;
use std::alloc::Global;
use std::io::{self, Error, ErrorKind, Read};

/// Why a source was not read.
#[derive(Drop)]
pub enum Unread {
    /// E1: a file could not be opened or read, for this reason.
    Broken(Error),
    /// E1: standard input could not be read.
    Input,
    /// E3: memory was refused.
    Memory,
    /// E4: the text of a filter is longer than its limit.
    TooLong,
}

/// Why a file with this error was not read.
fn cause_of(error: Error) -> Unread
    ensures { IsCause error result }
{
    if matches!(error.kind(), ErrorKind::OutOfMemory) {
        Unread::Memory
    } else {
        Unread::Broken(error)
    }
}

/// A file that remembers why a read failed.
#[derive(Drop)]
struct Remembering<R> {
    /// The file.
    file: R,
    /// Why the last read that failed did so.
    error: Option<Error>,
}

impl<R: Read> Read for Remembering<R> {
    ghost remaining = { λ r. R.remaining r.file };

    fn read(&mut self, room: &mut [u8]) -> io::Result<usize> {
        match self.file.read(room) {
            Ok(n) => Ok(n),
            Err(error) => {
                let kind = error.kind();
                self.error = Some(error);
                Err(Error::from(kind))
            }
        }
    }
}

/// Reads all that a file has, or one byte more than the limit.
fn read_open<R: Read + Drop>(alloc: Global, file: R, limit: usize) -> Result<Vec<u8>, Unread>
    requires { limit < 2 ^ 32 }
    ensures read { IfOk result (λ text. ReadsWhole limit text.items (R.remaining file)) }
    ensures unread { IfErr result (λ why. IsOfFile why) }
{
    let mut file = Remembering { file, error: None };
    match read_input(alloc, &mut file, limit) {
        Ok(text) => Ok(text),
        Err(StreamFault::Memory) => Err(Unread::Memory),
        // A file that gives no reason does not come here.
        Err(_) => Err(Unread::Broken(file.error.unwrap_or(Error::from(ErrorKind::Other)))),
    }
}

/// Reads the file of a name.
fn read_file<F: Folder>(
    files: &F,
    alloc: Global,
    name: &str,
    limit: usize,
) -> Result<Vec<u8>, Unread>
    requires { limit < 2 ^ 32 }
    ensures read { IfOk result (λ text. ReadsFile (F.opens files.now) limit name.now text.items) }
    ensures unread { IfErr result (LeavesFile (F.opens files.now) name.now) }
{
    match files.open(name) {
        Ok(file) => read_open(alloc, file, limit),
        Err(error) => Err(cause_of(error)),
    }
}

/// Reads standard input.
fn read_standard<R: Read>(alloc: Global, reader: &mut R, limit: usize) -> Result<Vec<u8>, Unread>
    requires { limit < 2 ^ 32 }
    ensures read { IfOk result (λ text. ReadsInput limit text.items (R.remaining reader.old) (R.remaining reader.new)) }
    ensures unread { IfErr result (λ why. LeavesInput limit why (R.remaining reader.old) (R.remaining reader.new)) }
{
    match read_input(alloc, reader, limit) {
        Ok(text) => Ok(text),
        Err(StreamFault::Memory) => Err(Unread::Memory),
        Err(_) => Err(Unread::Input),
    }
}

/// Reads a source: all of it, or one byte more than the limit.
pub fn read_source<F: Folder, R: Read>(
    files: &F,
    alloc: Global,
    source: &Source,
    limit: usize,
    reader: &mut R,
) -> Result<Vec<u8>, Unread>
    requires { limit < 2 ^ 32 }
    ensures read { IfOk result (λ text. IsRead (F.opens files.now) limit source.now text.items
        (R.remaining reader.old) (R.remaining reader.new)) }
    ensures unread { IfErr result (λ why. IsUnread (F.opens files.now) limit source.now why
        (R.remaining reader.old) (R.remaining reader.new)) }
{
    match source {
        Source::Input => read_standard(alloc, reader, limit),
        Source::File(name) => read_file(files, alloc, name.as_str(), limit),
    }
}

/// The name by which people know a source.
pub fn name_of(source: &Source) -> &[u8]
    ensures { result.now ≡ name_of source.now }
{
    match source {
        Source::Input => b"<stdin>",
        Source::File(name) => name.as_str().as_bytes(),
    }
}

/// What came of a source that is read: its text, or the line that tells people why it was not read.
#[derive(Drop)]
pub enum SourceText {
    /// The text.
    Text(Vec<u8>),
    /// The line.
    Unread(Vec<u8>),
}

/// Reads a source as `read_source` does. Nobody is told of one that cannot be read yet.
pub fn load<F: Folder, R: Read>(
    files: &F,
    alloc: Global,
    source: &Source,
    limit: usize,
    reader: &mut R,
) -> Result<SourceText, ProgramFault>
    requires { limit < 2 ^ 32 }
    ensures found { IfOk result (λ found. IsFound (F.opens files.now) limit source.now found (R.remaining reader.old) (R.remaining reader.new)) }
    ensures stopped { IfErr result (λ fault. StopsLoading (F.opens files.now) (stream_fault fault) limit source.now
        (R.remaining reader.old) (R.remaining reader.new)) }
    ensures within { IfOk result (IsTextWithin limit) }
{
    match read_source(files, alloc, source, limit, reader) {
        Ok(text) => Ok(SourceText::Text(text)),
        Err(why) => match unread_line(alloc, source, why) {
            Ok(line) => Ok(SourceText::Unread(line)),
            Err(fault) => Err(fault),
        },
    }
}
