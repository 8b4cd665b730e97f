//! A writer to a link.
//!
//! **A writer's list is sent from its front, and each message leaves it as it is sent.** What is left is `unsent`, so no memory is needed when a
//! link fails. A list has at most 16 messages.

ghost use Rattle.std.specs.Prelude.{◌≡◌, ◌+◌, ◌==◌, [], length, true};
ghost use Rattle.std.specs.List.{list_any};
ghost use Rattle.netchange_core.specs.Calls.{carried};
ghost use Rattle.route_session.specs.Calls.{StaysSound};
ghost use Rattle.route_session.specs.Turns.{TakesByTurns};
ghost use Rattle.route_session.specs.Writes as spec;
ghost use Rattle.route_session.specs.Writes.{Hands, IsWrittenBy, LeavesOut};
ghost use Rattle.routing_domain.specs.Batches.{newest};
ghost use Rattle.slot_lock.specs.Passes.{IsPassOf};

use crate::ends::{Cause, WriteEnd};
use crate::gate::Gate;
use crate::link::{Link, LinkFault};
use crate::reader::is_stale;
use netchange_core::{Event, Message, Messages, Reply};
use route_history::{CallFault, taken_begins_sent};
use slot_lock::{Pass, Router};
use std::alloc::Global;
use std::rt::Clock;
use std::sync::Wait;

/// At most how many messages a writer takes in one turn.
pub const MOST_TAKEN: u16 = 16;

/// Gives a link what the router queued for a session. A turn takes at most 16 messages from the queue and sends each, if the gate
/// lets it go. The job's number is what the gate is told.
///
/// It ends after so many turns, or as soon as the link fails, the session is over, the history is full or memory is refused.
pub fn write_session<R: Wait + Clock, L: Link, G: Gate>(
    rt: &R,
    alloc: Global,
    router: &Router,
    pass: &mut Pass,
    session: u32,
    link: &mut L,
    gate: &G,
    job: u32,
    turns: u32,
) -> WriteEnd
    requires { IsPassOf router.now pass.old }
    ensures pass { StaysSound router.now pass.old pass.new }
    ensures written { IsWrittenBy router.now session pass.old.fragment (L.trace link.old) result pass.new.fragment (L.trace link.new) }
    ensures turns { TakesByTurns (G.may_answer gate.now job) turns result.cause pass.old.fragment pass.new.fragment }
{
    let (end, _left_out) = write_turns(
        rt, alloc, router, pass, session, link, gate, job, turns, false,
    );
    end
}

/// Gives a link the newest of what the router queued for a session. It does so as `write_session` does, but of the messages that a turn
/// takes it leaves out each that a later one of them about the same node follows. So whoever reads slowly is told the newest, and not every
/// step. Says how many were left out, too.
pub fn write_newest<R: Wait + Clock, L: Link, G: Gate>(
    rt: &R,
    alloc: Global,
    router: &Router,
    pass: &mut Pass,
    session: u32,
    link: &mut L,
    gate: &G,
    job: u32,
    turns: u32,
) -> (WriteEnd, u64)
    requires { IsPassOf router.now pass.old }
    ensures pass { StaysSound router.now pass.old pass.new }
    ensures written { LeavesOut true router.now session pass.old.fragment (L.trace link.old) result.0 result.1 pass.new.fragment (L.trace link.new) }
    ensures turns { TakesByTurns (G.may_answer gate.now job) turns result.0.cause pass.old.fragment pass.new.fragment }
{
    write_turns(
        rt, alloc, router, pass, session, link, gate, job, turns, true,
    )
}

/// Gives a link what the router queued for a session, all of it or the newest alone: how that ended, and how many messages were left out.
fn write_turns<R: Wait + Clock, L: Link, G: Gate>(
    rt: &R,
    alloc: Global,
    router: &Router,
    pass: &mut Pass,
    session: u32,
    link: &mut L,
    gate: &G,
    job: u32,
    turns: u32,
    newest_only: bool,
) -> (WriteEnd, u64)
    requires { IsPassOf router.now pass.old }
    ensures pass { StaysSound router.now pass.old pass.new }
    ensures written { LeavesOut newest_only router.now session pass.old.fragment (L.trace link.old) result.0 result.1 pass.new.fragment (L.trace link.new) }
    ensures turns { TakesByTurns (G.may_answer gate.now job) turns result.0.cause pass.old.fragment pass.new.fragment }
{
    // So that the number of messages cannot overflow: a reply has at most as many as were asked for.
    taken_begins_sent();
    let mut sent: u64 = 0;
    let mut left_out: u64 = 0;
    for turn in 0..turns {
        if !gate.may_go(rt, job, turn) {
            continue;
        }
        let answer = match router.call(rt, pass, Event::Take(session, MOST_TAKEN)) {
            Ok(answer) => answer,
            Err(CallFault::Full) => return (ended(alloc, Cause::Full, sent), left_out),
            Err(CallFault::Memory) => return (ended(alloc, Cause::Memory, sent), left_out),
        };
        gate.answered(rt, job, &answer);
        if is_stale(&answer.reply) {
            return (ended(alloc, Cause::Stale, sent), left_out);
        }
        let (messages, dropped) = messages_sent(messages_of(alloc, answer.reply), newest_only);
        left_out += dropped as u64;
        let count = messages.len();
        let unsent = send_each(rt, link, messages);
        sent += (count - unsent.len()) as u64;
        if !unsent.is_empty() {
            let end = WriteEnd {
                cause: Cause::LinkFault,
                sent,
                unsent: Messages::from_vec(unsent),
            };
            return (end, left_out);
        }
    }
    (ended(alloc, Cause::Turns, sent), left_out)
}

/// The messages of a reply; none where it has none.
fn messages_of(alloc: Global, reply: Reply) -> Vec<Message>
    ensures { result.items ≡ carried reply }
{
    match reply {
        Reply::Messages(messages) => messages.into_vec(),
        _ => Vec::new(alloc),
    }
}

/// Whether a message is about this node.
fn is_about(messages: &[Message], node: u16) -> bool
    ensures { result ≡ list_any (λ message. message.dest == node) messages.now }
{
    messages.iter().any(|message| message.dest == node)
}

/// Whether the first of these messages is followed by a later one about the same node.
fn is_first_replaced(messages: &[Message]) -> bool
    ensures { result ≡ spec.is_first_replaced messages.now }
{
    match messages.split_first() {
        Some((first, later)) => is_about(later, first.dest),
        None => false,
    }
}

/// Leaves out each message that a later one about the same node follows, and counts them. A reply has at most 16 messages, so each is
/// compared with at most 15.
fn keep_newest(messages: Vec<Message>) -> (Vec<Message>, usize)
    ensures newest { result.0.items ≡ newest messages.items }
    ensures counted { result.1 + length result.0.items ≡ length messages.items }
{
    let mut kept = messages;
    let mut left_out = 0;
    let mut at = 0;
    while at < kept.len() {
        if is_first_replaced(&kept[at..]) {
            kept.remove(at);
            left_out += 1;
        } else {
            at += 1;
        }
    }
    (kept, left_out)
}

/// What is told of the messages of a reply, and how many are left out.
fn messages_sent(messages: Vec<Message>, newest_only: bool) -> (Vec<Message>, usize)
    ensures told { result.0.items ≡ spec.messages_sent newest_only messages.items }
    ensures counted { result.1 + length result.0.items ≡ length messages.items }
{
    if newest_only {
        keep_newest(messages)
    } else {
        (messages, 0)
    }
}

/// Sends messages in order, until the link fails: what is left.
fn send_each<R: Wait, L: Link>(rt: &R, link: &mut L, messages: Vec<Message>) -> Vec<Message>
    ensures { Hands (L.trace link.old) messages.items result.items (L.trace link.new) }
{
    let mut unsent = messages;
    while let Some(message) = unsent.first().copied() {
        let Ok(()) = link.send(rt, message) else {
            return unsent;
        };
        unsent.remove(0);
    }
    unsent
}

/// The end of a writer that has nothing left unsent.
fn ended(alloc: Global, cause: Cause, sent: u64) -> WriteEnd
    ensures { result ≡ record { cause = cause; sent = sent; unsent = [] } }
{
    WriteEnd {
        cause,
        sent,
        unsent: Messages::from_vec(Vec::new(alloc)),
    }
}
