//! Who writes to a neighbour.
ghost use Rattle.std.specs.Prelude.{◌≡◌, false, true, IfNone, IfSome};
ghost use Rattle.route_session.specs.Telling.{known};
ghost use Rattle.neighbour_session.specs.Writing as spec;
ghost use Rattle.route_session.specs.Calls.{StaysSound};
ghost use Rattle.slot_lock.specs.Passes.{IsPassOf};

use crate::ends::SessionEnd;
use crate::finish::end_session;
use crate::guard::{SessionGuard, WRITER};
use crate::links::{GivenWriter, OutputLink};
use crate::waiting::pause;
use message_streams::MessageWriter;
use route_session::{Cause, write_newest};
use slot_lock::{Pass, Router};
use std::alloc::Global;
use std::io::Write;
use std::marker::Brand;
use std::rt::Clock;
use std::sync::Wait;

/// The turns that a writer has at a time. The gate makes it sleep before each of them, and answers no to each once the session is over.
const TURNS: u32 = 1_000;

/// Why a writer's session is over; None where it is not, if it is there.
fn end_of_writer(cause: Cause, waits: bool) -> Option<SessionEnd>
    ensures over { IfSome result (λ why. spec.IsWriterStopped waits cause why) }
    ensures goes_on { IfNone result (spec.WriterGoesOn waits cause) }
{
    match cause {
        Cause::Turns => None,
        Cause::LinkEnded | Cause::LinkFault => Some(SessionEnd::Unwritten),
        Cause::Stale => Some(SessionEnd::Closed),
        Cause::Full => { if waits { None } else { Some(SessionEnd::Full) } }
        Cause::Memory => Some(SessionEnd::Memory),
    }
}

/// Waits a little, where a full history is why a writer had no more turns.
fn pause_if_full<R: Clock>(rt: &R, cause: Cause) {
    if cause == Cause::Full {
        pause(rt);
    }
}

/// Writes an empty line, where the guard says that one is owed. False where it was not written.
fn write_owed<T: GivenWriter, R: Wait + Clock, O: Write + Drop, C: SessionGuard>(
    rt: &R,
    link: &mut OutputLink<O, T>,
    guard: &C,
) -> bool
    requires { link.old.told.failures ≡ known 0 }
    ensures told { link.new.told ≡ link.old.told }
    ensures unwritten { result ≡ false → link.new.writer.over ≡ true }
{
    if !guard.owes_line(rt) {
        return true;
    }
    link.write_empty()
}

/// Gives a neighbour what the router queued for it, until the session is over, and an empty line between two messages where the guard says that
/// one is owed: why the session is over, the stream, and how many messages were left out.
fn write_all<T: GivenWriter, R: Wait + Clock, O: Write + Drop, C: SessionGuard>(
    rt: &R,
    alloc: Global,
    router: &Router,
    pass: &mut Pass,
    session: u32,
    output: MessageWriter<O>,
    guard: &C,
    waits: bool,
) -> (SessionEnd, MessageWriter<O>, u64)
    requires of { IsPassOf router.now pass.old }
    requires named { output ≡ T.writer }
    ensures pass { StaysSound router.now pass.old pass.new }
    ensures shares { pass.new.fragment.shares ≡ pass.old.fragment.shares }
    ensures writes { spec.WritesOut waits (C.may_be_present guard.now) router.now session pass.old output result.0 pass.new result.1 result.2 }
{
    let mut link: OutputLink<O, T> = OutputLink::new(output);
    let mut left_out: u64 = 0;
    for _ in rt.forever() {
        let (end, more) = write_newest(
            rt, alloc, router, pass, session, &mut link, guard, WRITER, TURNS,
        );
        left_out = left_out.saturating_add(more);
        if let Some(why) = end_of_writer(end.cause, waits) {
            return (why, link.into_writer(), left_out);
        }
        pause_if_full(rt, end.cause);
        if !guard.is_present(rt) {
            return (SessionEnd::Closed, link.into_writer(), left_out);
        }
        if !write_owed(rt, &mut link, guard) {
            return (SessionEnd::Unwritten, link.into_writer(), left_out);
        }
    }
    unreachable!()
}

/// Gives a neighbour what the router queued for it, until the session is over, and enters Down if nobody ended it before. Says why it
/// is over, and hands back the stream, which is closed by letting it go, and what is left of who wrote.
///
/// Of the messages that one Take brings each is left out that a later one of them about the same node follows: a neighbour that reads slowly
/// is told the newest, and not every step. How many were left out is said last.
///
/// A full history (J1) ends the session; where `waits`, it does not: the call is made again, until there is room.
pub fn serve_writer<R: Wait + Clock, O: Write + Drop, C: SessionGuard>(
    rt: &R,
    alloc: Global,
    router: &Router,
    pass: &mut Pass,
    session: u32,
    output: MessageWriter<O>,
    guard: C,
    waits: bool,
) -> (SessionEnd, MessageWriter<O>, C::EndedGuard, u64)
    requires { IsPassOf router.now pass.old }
    ensures pass { StaysSound router.now pass.old pass.new }
    ensures shares { pass.new.fragment.shares ≡ pass.old.fragment.shares }
    ensures serves { spec.Serves waits (C.may_be_present guard) (C.may_be_first guard) router.now session pass.old output result.0 pass.new result.1
        result.3 }
{
    let (why, written, left_out) = write_all::<Brand, R, O, C>(
        rt, alloc, router, pass, session, output, &guard, waits,
    );
    let (why, ended_guard) = end_session(rt, router, pass, session, guard, why);
    (why, written, ended_guard, left_out)
}
