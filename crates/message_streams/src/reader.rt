//! A reader of lines.
ghost use Rattle.std.specs.Prelude.{◌≡◌, ◌+◌, ◌-◌, ◌^◌, min, None, Err, IfErr, IfOk, IfSome};
ghost use Rattle.message_streams.specs.Ends.{ReadsLine, StopsAtLine, lasting};

use crate::LINE_LIMIT;
use crate::ends::StreamEnd;
use crate::line::read_line;
use arrayvec::ArrayVec;
use std::io::Read;
use std::marker::Model;

/// A reader of the lines of a stream. A contract sees it as a `ReaderView`.
#[derive(Drop)]
pub struct MessageReader<R: Read> {
    input: R,
    line: u64,
    end: Option<StreamEnd>,
}

impl<R: Read> Model for MessageReader<R> {
    ghost use Rattle.message_streams.specs.Views.{ReaderView};

    ghost Value = { ReaderView };

    ghost view = { λ r. record { left = R.remaining r.input; line = r.line; end = r.end } };
}

impl<R: Read> MessageReader<R> {
    /// A reader of this stream, from the first of its lines on.
    pub fn new(input: R) -> MessageReader<R>
        ensures { result ≡ record { left = R.remaining input; line = 0; end = None } }
    {
        MessageReader {
            input,
            line: 0,
            end: None,
        }
    }

    /// The number of the line that was read last, or that could not be read. The first line has number 1.
    pub fn line(&self) -> u64
        ensures { result ≡ self.now.line }
    {
        self.line
    }

    /// Why it hands out no more; None while it may hand out more.
    pub fn end(&self) -> Option<StreamEnd>
        ensures { result ≡ self.now.end }
    {
        self.end
    }

    /// Hands out the next line, without its line feed. Once it hands out nothing it hands out nothing from then on, unless a line was too
    /// long.
    pub fn next_line(&mut self) -> Result<ArrayVec<u8, LINE_LIMIT>, StreamEnd>
        ensures line { IfOk result (λ text. (self.old.end ≡ None) × (self.new.end ≡ None) × ReadsLine text.items self.old.left self.new.left) }
        ensures end { IfErr result (λ why. self.old.end ≡ None → (self.new.end ≡ lasting why) × StopsAtLine why self.old.left self.new.left) }
        ensures over { IfSome self.old.end (λ why. (result ≡ Err why) × (self.new ≡ self.old)) }
        ensures count { self.old.end ≡ None → self.new.line ≡ min (self.old.line + 1) (2 ^ 64 - 1) }
    {
        if let Some(why) = self.end {
            return Err(why);
        }
        self.line = self.line.saturating_add(1);
        match read_line(&mut self.input) {
            Ok(line) => Ok(line),
            Err(why) => {
                if why.is_lasting() {
                    self.end = Some(why);
                }
                Err(why)
            }
        }
    }
}
