//! A reader of a link.
//!
//! **`read_session` takes no allocator**, since it takes no memory of its own. `write_session` takes one for the empty list that most ends hold.

ghost use Rattle.std.specs.Prelude.{◌≡◌, ◌↔◌, IsTrue};
ghost use Rattle.route_session.specs.Calls.{StaysSound, stale};
ghost use Rattle.route_session.specs.Reads.{IsReadBy};
ghost use Rattle.route_session.specs.Turns.{ReadsByTurns};
ghost use Rattle.slot_lock.specs.Passes.{IsPassOf};

use crate::ends::{Cause, ReadEnd};
use crate::gate::Gate;
use crate::link::{Got, Link, LinkFault};
use netchange_core::{Event, EventRefusal, Message, Reply};
use route_history::CallFault;
use slot_lock::{Pass, Router};
use std::rt::Clock;
use std::sync::Wait;

/// Whether the router refused a call because the session is over.
pub fn is_stale(reply: &Reply) -> bool
    ensures { IsTrue result ↔ (reply.now ≡ stale) }
{
    matches!(reply, Reply::Refused(EventRefusal::Stale))
}

/// Enters what a link hands out: each message is a Receive of the session. A turn asks the link once, if the gate lets it go.
/// The job's number is what the gate is told.
///
/// It ends after so many turns, or as soon as the link ends or fails, the session is over, the history is full or memory is
/// refused. A message about an unknown node (N4) or at an impossible distance (N5) is entered, and the reader goes on.
pub fn read_session<R: Wait + Clock, L: Link, G: Gate>(
    rt: &R,
    router: &Router,
    pass: &mut Pass,
    session: u32,
    link: &mut L,
    gate: &G,
    job: u32,
    turns: u32,
) -> ReadEnd
    requires { IsPassOf router.now pass.old }
    ensures pass { StaysSound router.now pass.old pass.new }
    ensures read { IsReadBy router.now session pass.old.fragment (L.trace link.old) result pass.new.fragment (L.trace link.new) }
    ensures turns { ReadsByTurns (G.may_answer gate.now job) turns result.cause result.entered (L.trace link.old) (L.trace link.new) }
{
    let mut entered = 0;
    for turn in 0..turns {
        if !gate.may_go(rt, job, turn) {
            continue;
        }
        let message = match link.recv(rt) {
            Ok(Got::Message(message)) => message,
            Ok(Got::Nothing) => continue,
            Ok(Got::Ended) => return ended(Cause::LinkEnded, entered, None),
            Err(LinkFault) => return ended(Cause::LinkFault, entered, None),
        };
        let event = Event::Receive(session, message.dest, message.dist);
        match router.call(rt, pass, event) {
            Ok(answer) => {
                entered += 1;
                gate.answered(rt, job, &answer);
                if is_stale(&answer.reply) {
                    return ended(Cause::Stale, entered, None);
                }
            }
            Err(CallFault::Full) => return ended(Cause::Full, entered, Some(message)),
            Err(CallFault::Memory) => return ended(Cause::Memory, entered, Some(message)),
        }
    }
    ended(Cause::Turns, entered, None)
}

/// The end of a reader.
fn ended(cause: Cause, entered: u32, lost: Option<Message>) -> ReadEnd
    ensures { result ≡ record { cause = cause; entered = entered; lost = lost } }
{
    ReadEnd {
        cause,
        entered,
        lost,
    }
}
