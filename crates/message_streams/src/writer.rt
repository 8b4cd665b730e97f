//! A writer of lines.
ghost use Rattle.std.specs.Prelude.{◌≡◌, false, true, IfErr, OnOk};
ghost use Rattle.std.specs.Io.KnownBytes.{Appends, Keeps};
ghost use Rattle.line_protocol.specs.Runs.{AppendsFront};
ghost use Rattle.message_streams.specs.Lines.{message_line};
ghost use Rattle.message_streams.specs.Views.{IsUnwritten};

use crate::message_text::push_message;
use line_protocol::{StreamFault, write_text};
use netchange_core::Message;
use std::alloc::Global;
use std::io::Write;
use std::marker::Model;

/// Writes a line and flushes it, unless a write failed before.
fn write_line<W: Write>(output: &mut W, line: &[u8], is_over: &mut bool) -> Result<(), StreamFault>
    ensures ok { OnOk result ((is_over.old ≡ false) × (is_over.new ≡ false)
        × Appends (W.contents output.old) (W.contents output.new) line.now) }
    ensures err { IfErr result (λ fault. (fault ≡ StreamFault.Write) × (is_over.new ≡ true)
        × AppendsFront (W.contents output.old) (W.contents output.new) line.now) }
    ensures kept { is_over.old ≡ true → Keeps (W.contents output.old) (W.contents output.new) }
{
    if *is_over {
        return Err(StreamFault::Write);
    }
    match write_text(output, line) {
        Ok(()) => Ok(()),
        Err(fault) => {
            *is_over = true;
            Err(fault)
        }
    }
}

/// A writer of lines to a stream. Once a write failed it writes no more. A contract sees it as a `WriterView`.
#[derive(Drop)]
pub struct MessageWriter<W: Write> {
    output: W,
    text: Vec<u8>,
    is_over: bool,
}

impl<W: Write> Model for MessageWriter<W> {
    ghost use Rattle.message_streams.specs.Views.{WriterView};

    ghost Value = { WriterView };

    ghost view = { λ w. record { held = W.contents w.output; over = w.is_over } };
}

impl<W: Write> MessageWriter<W> {
    /// A writer to this stream.
    pub fn new(alloc: Global, output: W) -> MessageWriter<W>
        ensures { result ≡ record { held = W.contents output; over = false } }
    {
        MessageWriter {
            output,
            text: Vec::new(alloc),
            is_over: false,
        }
    }

    /// Writes a text, which is one line or more, and has the stream pass it on.
    pub fn write_text(&mut self, text: &[u8]) -> Result<(), StreamFault>
        ensures ok { OnOk result ((self.old.over ≡ false) × (self.new.over ≡ false) × Appends self.old.held self.new.held text.now) }
        ensures err { IfErr result (λ fault. (fault ≡ StreamFault.Write) × IsUnwritten fault self.old self.new text.now) }
        ensures over { self.old.over ≡ true → (self.new.over ≡ true) × Keeps self.old.held self.new.held }
    {
        write_line(&mut self.output, text, &mut self.is_over)
    }

    /// Writes a message, and has the stream pass it on.
    pub fn write_message(&mut self, message: Message) -> Result<(), StreamFault>
        ensures ok { OnOk result ((self.old.over ≡ false) × (self.new.over ≡ false)
            × Appends self.old.held self.new.held (message_line message)) }
        ensures err { IfErr result (λ fault. IsUnwritten fault self.old self.new (message_line message)) }
        ensures over { self.old.over ≡ true → (self.new.over ≡ true) × Keeps self.old.held self.new.held }
    {
        self.text.clear();
        let Ok(()) = push_message(&mut self.text, message) else {
            return Err(StreamFault::Memory);
        };
        write_line(&mut self.output, self.text.as_slice(), &mut self.is_over)
    }
}
