//! What a line says.
ghost use Rattle.std.specs.Prelude.{◌≡◌};
ghost use Rattle.link_handshake.specs.Reading as spec;

use crate::greeting::{Greeting, read_greeting};
use message_streams::read_message;
use netchange_core::Message;

/// What a line of a link says.
#[derive(Clone, Copy, PartialEq, Eq)]
pub enum Said {
    /// The line is empty: its writer is there, and has nothing to say.
    Alive,
    /// It is a greeting.
    Greeting(Greeting),
    /// It is a message.
    Message(Message),
    /// It is none of these.
    Nothing,
}

/// What a line says, which is given without its line feed.
#[tactic(auto, unfolding(crate::specs::Reading::said_by))]
pub fn read_line(line: &[u8]) -> Said
    ensures { result ≡ spec.said_by line.now }
{
    if line.is_empty() {
        return Said::Alive;
    }
    if let Some(message) = read_message(line) {
        return Said::Message(message);
    }
    match read_greeting(line) {
        Some(greeting) => Said::Greeting(greeting),
        None => Said::Nothing,
    }
}
