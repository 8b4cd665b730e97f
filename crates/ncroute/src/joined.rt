//! The text of the sources that a router's script is, one after another.
//!
//! **The scripts of `run` are read before the first line is answered**, standard input too where it is not alone, so that a file which is missing is
//! told while nothing has happened. The script is then bytes in memory, and its contract is that of one script. What is told of a line names its
//! file; the numbers in answers count the lines of the whole script, as a program that reads answers sent it.
ghost use Rattle.std.specs.Prelude.{◌≡◌, ◌++◌, [], ◌∷◌, IfErr, IfOk, OnErr, OnOk};
ghost use Rattle.ncroute.specs.Joining.{AddsPart, JoinsAll, JoinsNext, LeavesNext, StopsAtSource, ended, ends_line, lines_of};

use crate::watcher::ScriptPart;
use line_protocol::INPUT_LIMIT;
use program_console::{Folder, Unread, name_of, read_source};
use program_words::Source;
use refusal_words::place_in;
use std::alloc::{AllocError, Global};
use std::io::Read;

/// The text of sources, and where each begins.
#[derive(Drop)]
pub struct Joined<'a> {
    /// The text.
    pub text: Vec<u8>,
    /// The number of its lines that end, so that they are not counted again for each source.
    lines: u32,
    /// The parts that the sources are, in order.
    pub parts: Vec<ScriptPart<'a>>,
}

/// A source that was not read, and why.
#[derive(Drop)]
pub struct UnreadSource<'a> {
    /// The source.
    pub source: &'a Source,
    /// Why it was not read.
    pub why: Unread,
}

/// Whether a text has no line that no line feed ends.
fn ends_line(text: &[u8]) -> bool
    ensures { result ≡ ends_line text.now }
{
    match text.last() {
        Some(byte) => *byte == b'\n',
        None => true,
    }
}

/// The number of lines of a script that end.
fn count_lines(script: &[u8]) -> u32
    ensures { result ≡ lines_of script.now }
{
    let lines = place_in(script, script.len()).line - 1;
    lines.min(u32::MAX as usize) as u32
}

/// Reads a source, and adds its text to what the sources before it have.
fn read_next<'a, F: Folder, R: Read>(
    files: &F,
    alloc: Global,
    source: &'a Source,
    reader: &mut R,
    joined: &mut Joined<'a>,
) -> Result<(), Unread>
    requires counted { joined.old.lines ≡ lines_of joined.old.text.items }
    ensures read { OnOk result (JoinsNext (F.opens files.now) source.now joined.old.text.items joined.new.text.items
        (R.remaining reader.old) (R.remaining reader.new)) }
    ensures part { OnOk result (AddsPart source.now joined.old.text.items joined.old.parts.items joined.new.parts.items) }
    ensures counted { OnOk result (joined.new.lines ≡ lines_of joined.new.text.items) }
    ensures unread { IfErr result (λ why. LeavesNext (F.opens files.now) source.now why (R.remaining reader.old) (R.remaining reader.new)) }
{
    let text = read_source(files, alloc, source, INPUT_LIMIT, reader)?;
    match joined.add(name_of(source), text.as_slice()) {
        Ok(()) => Ok(()),
        Err(_) => Err(Unread::Memory),
    }
}

impl<'a> Joined<'a> {
    /// Ends the last line where no line feed does.
    fn end_line(&mut self) -> Result<(), AllocError>
        requires counted { self.old.lines ≡ lines_of self.old.text.items }
        ensures text { OnOk result (self.new.text.items ≡ ended self.old.text.items) }
        ensures counted { OnOk result (self.new.lines ≡ lines_of self.new.text.items) }
        ensures parts { self.new.parts ≡ self.old.parts }
    {
        if ends_line(self.text.as_slice()) {
            return Ok(());
        }
        self.text.push(b'\n')?;
        self.lines = self.lines.saturating_add(1);
        Ok(())
    }

    /// Adds the text of the part of this name behind a last line that ends.
    fn add(&mut self, name: &'a [u8], text: &[u8]) -> Result<(), AllocError>
        requires counted { self.old.lines ≡ lines_of self.old.text.items }
        ensures text { OnOk result (self.new.text.items ≡ ended self.old.text.items ++ text.now) }
        ensures counted { OnOk result (self.new.lines ≡ lines_of self.new.text.items) }
        ensures part { OnOk result (self.new.parts.items
            ≡ self.old.parts.items ++ (record { name = name.entry; before = lines_of (ended self.old.text.items) }) ∷ []) }
    {
        self.end_line()?;
        let before = self.lines;
        self.parts.push(ScriptPart { name, before })?;
        self.text.extend_from_slice(text)?;
        self.lines = before.saturating_add(count_lines(text));
        Ok(())
    }
}

/// Reads these sources, in order, up to the first that is not read, and joins their texts.
pub(crate) fn read_texts<'a, F: Folder, R: Read>(
    files: &F,
    alloc: Global,
    sources: &'a [Source],
    reader: &mut R,
) -> Result<Joined<'a>, UnreadSource<'a>>
    ensures read { IfOk result (λ joined. JoinsAll (F.opens files.now) sources.now joined.text.items
        (R.remaining reader.old) (R.remaining reader.new)) }
    ensures unread { IfErr result (λ unread. StopsAtSource (F.opens files.now) sources.now unread.source.now unread.why
        (R.remaining reader.old) (R.remaining reader.new)) }
{
    let text = Vec::new(alloc);
    let parts = Vec::new(alloc);
    let mut joined = Joined {
        text,
        lines: 0,
        parts,
    };
    for source in sources {
        match read_next(files, alloc, source, reader, &mut joined) {
            Ok(()) => {}
            Err(why) => return Err(UnreadSource { source, why }),
        }
    }
    Ok(joined)
}
