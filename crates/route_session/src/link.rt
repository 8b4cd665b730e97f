//! Links: what connects a router to a neighbour.
//!
//! **A link tells what it does by one ghost member, `trace`, whose parts may be missing.** So a contract over any link is one sentence, a link over
//! the system needs no count of what passed, and one in memory can tell everything. What is not told stays untold through a whole session, so that
//! no fact about it can be lost on the way.

ghost use Rattle.std.specs.Prelude.{◌≡◌};

use netchange_core::Message;
use std::sync::Wait;
use thiserror::Error;

/// What a link answers when it is asked for a message.
#[derive(Clone, Copy, PartialEq, Eq)]
pub enum Got {
    /// A message came.
    Message(Message),
    /// No message is there now.
    Nothing,
    /// No message will come any more.
    Ended,
}

/// A link failed.
#[derive(Clone, Copy, Debug, PartialEq, Eq, Error)]
#[error("the link failed")]
pub struct LinkFault;

/// A link to a neighbour, which brings messages and takes messages.
///
/// A contract sees what a link tells of itself, as a `LinkTrace`: the messages that it handed out, those that it was given, the first that
/// it did not take, how often it answered that no message was there, whether it answered that it has ended, how often it failed, and
/// whether it is closed. A link keeps count of what it tells, and no clause speaks of what it does not tell.
pub trait Link {
    ghost use Rattle.route_session.specs.LinkTrace.{LinkTrace, closed};

    ghost trace: { Self → LinkTrace };

    ghost use Rattle.route_session.specs.Links.{Received, Sent};

    /// Asks for a message. May wait for one. A closed link answers that it has ended.
    fn recv<R: Wait>(&mut self, rt: &R) -> Result<Got, LinkFault>
        ensures { Received (trace self.old) result (trace self.new) };

    /// Gives the link a message to send. May wait for room. A closed link fails. A link that fails did not take the message.
    fn send<R: Wait>(&mut self, rt: &R, message: Message) -> Result<(), LinkFault>
        ensures { Sent (trace self.old) message result (trace self.new) };

    /// Closes the link.
    fn close(&mut self)
        ensures { trace self.new ≡ closed (trace self.old) };
}
