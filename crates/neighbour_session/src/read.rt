//! Who reads a neighbour.
ghost use Rattle.std.specs.Prelude.{◌≡◌, false, true, None, Some, IfNone, IfSome};
ghost use Rattle.neighbour_session.specs.Reading as spec;
ghost use Rattle.neighbour_session.specs.Waiting.{ReadsFor};
ghost use Rattle.route_session.specs.Reads.{IsReadBy};
ghost use Rattle.route_session.specs.Calls.{StaysSound};
ghost use Rattle.slot_lock.specs.Passes.{IsPassOf};

use crate::ends::SessionEnd;
use crate::finish::end_session;
use crate::guard::{READER, SessionGuard};
use crate::links::{GivenReader, InputLink};
use crate::waiting::{end_of_full, enter_later};
use message_streams::MessageReader;
use netchange_core::Message;
use route_session::{Cause, Link, ReadEnd, read_session};
use slot_lock::{Pass, Router};
use std::io::Read;
use std::marker::Brand;
use std::rt::Clock;
use std::sync::Wait;

/// The turns that a reader has at a time. The gate answers no to each once the session is over.
const TURNS: u32 = 1_000;

/// Why a link hands out no more.
fn end_of_link<I: Read + Drop, S: GivenReader>(link: &InputLink<I, S>) -> SessionEnd
    ensures { result ≡ spec.link_end link.now.over }
{
    link.over().unwrap_or(SessionEnd::Closed)
}

/// Why a reader's session is over; None where it is not.
fn end_of_reader<I: Read + Drop, S: GivenReader>(
    cause: Cause,
    link: &InputLink<I, S>,
    waits: bool,
) -> Option<SessionEnd>
    ensures over { IfSome result (λ why. spec.IsReaderStopped waits cause link.now.over why) }
    ensures goes_on { IfNone result (cause ≡ Cause.Turns) }
{
    match cause {
        Cause::Turns => None,
        Cause::Stale => Some(SessionEnd::Closed),
        Cause::Full => Some(end_of_full(waits)),
        Cause::Memory => Some(SessionEnd::Memory),
        Cause::LinkEnded | Cause::LinkFault => Some(end_of_link(link)),
    }
}

/// The message that a reader lost to a full history, if it waits until there is room.
fn kept_message(read: &ReadEnd, waits: bool) -> Option<Message>
    ensures kept { IfSome result (λ message. (waits ≡ true) × (read.now.cause ≡ Cause.Full) × (read.now.lost ≡ Some message)) }
    ensures none { IfNone result (waits ≡ true → read.now.cause ≡ Cause.Full → read.now.lost ≡ None) }
{
    if waits && read.cause == Cause::Full {
        read.lost
    } else {
        None
    }
}

/// Enters what a link hands out, for some turns: why the reader ended. A message that a full history had no room for is entered once there
/// is room, if the reader waits. Then it ends for a full history only where the session is not there any more.
fn read_turns<R: Wait + Clock, L: Link, C: SessionGuard>(
    rt: &R,
    router: &Router,
    pass: &mut Pass,
    session: u32,
    link: &mut L,
    guard: &C,
    waits: bool,
) -> Cause
    requires { IsPassOf router.now pass.old }
    ensures pass { StaysSound router.now pass.old pass.new }
    ensures read { ReadsFor result router.now session pass.old.fragment (L.trace link.old) pass.new.fragment (L.trace link.new) }
    ensures absent { waits ≡ true → result ≡ Cause.Full → C.may_be_present guard.now false }
{
    let read = read_session(rt, router, pass, session, link, guard, READER, TURNS);
    match kept_message(&read, waits) {
        Some(message) => enter_later(rt, router, pass, session, message, guard),
        None => read.cause,
    }
}

/// Enters what the stream of a neighbour says until the session is over: why it is.
fn read_all<S: GivenReader, R: Wait + Clock, I: Read + Drop, C: SessionGuard>(
    rt: &R,
    router: &Router,
    pass: &mut Pass,
    session: u32,
    input: MessageReader<I>,
    guard: &C,
    waits: bool,
) -> (SessionEnd, MessageReader<I>)
    requires of { IsPassOf router.now pass.old }
    requires named { input ≡ S.reader }
    ensures pass { StaysSound router.now pass.old pass.new }
    ensures shares { pass.new.fragment.shares ≡ pass.old.fragment.shares }
    ensures reads { spec.ReadsOut waits (C.may_be_present guard.now) router.now session pass.old input result.0 pass.new result.1 }
{
    let mut link: InputLink<I, S> = InputLink::new(input);
    for _ in rt.forever() {
        let cause = read_turns(rt, router, pass, session, &mut link, guard, waits);
        if let Some(why) = end_of_reader(cause, &link, waits) {
            return (why, link.into_reader());
        }
        if !guard.is_present(rt) {
            return (SessionEnd::Closed, link.into_reader());
        }
    }
    unreachable!()
}

/// Reads a session until it is over, and enters Down if nobody ended it before. Says why it is over, and hands back the stream, and what is
/// left of who read it. An empty line changes nothing. A line that is no message ends the session: a greeting, because the neighbour began
/// anew, and any other one.
///
/// A full history (J1) ends the session; where `waits`, it does not: the message that the history had no room for is kept, and entered once
/// there is room, before what comes after it.
pub fn serve_reader<R: Wait + Clock, I: Read + Drop, C: SessionGuard>(
    rt: &R,
    router: &Router,
    pass: &mut Pass,
    session: u32,
    input: MessageReader<I>,
    guard: C,
    waits: bool,
) -> (SessionEnd, MessageReader<I>, C::EndedGuard)
    requires { IsPassOf router.now pass.old }
    ensures pass { StaysSound router.now pass.old pass.new }
    ensures shares { pass.new.fragment.shares ≡ pass.old.fragment.shares }
    ensures hears { spec.Hears waits (C.may_be_present guard) (C.may_be_first guard) router.now session pass.old input result.0 pass.new result.1 }
{
    let (why, read) = read_all::<Brand, R, I, C>(rt, router, pass, session, input, &guard, waits);
    let (why, ended_guard) = end_session(rt, router, pass, session, guard, why);
    (why, read, ended_guard)
}
