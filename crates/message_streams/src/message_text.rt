//! The line of a message.
ghost use Rattle.std.specs.Prelude.{◌≡◌, ◌++◌, OnErr, OnOk};
ghost use Rattle.std.specs.Io.{StartsWith};
ghost use Rattle.message_streams.specs.Lines.{message_line};
ghost use Rattle.message_streams.specs.Reading.{message_in};

use crate::pair::{push_pair, read_pair};
use netchange_core::Message;
use std::alloc::AllocError;

/// Adds the line of a message, `V D` and a line feed.
pub fn push_message(out: &mut Vec<u8>, message: Message) -> Result<(), AllocError>
    ensures ok { OnOk result (out.new.items ≡ out.old.items ++ message_line message) }
    ensures err { OnErr result (StartsWith out.new.items out.old.items) }
{
    push_pair(out, message.dest, message.dist)?;
    out.push(b'\n')?;
    Ok(())
}

/// The message that a line says, which is given without its line feed. None if it is not the line of a message.
pub fn read_message(line: &[u8]) -> Option<Message>
    ensures { result ≡ message_in line.now }
{
    let (dest, dist) = read_pair(line)?;
    Some(Message { dest, dist })
}
