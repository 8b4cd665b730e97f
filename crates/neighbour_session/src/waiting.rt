//! A history that is full, where that passes.
ghost use Rattle.std.specs.Prelude.{◌≡◌};
ghost use Rattle.neighbour_session.specs.Waiting as spec;
ghost use Rattle.route_session.specs.Calls.{StaysSound};
ghost use Rattle.slot_lock.specs.Passes.{IsPassOf};

use crate::ends::SessionEnd;
use crate::guard::{READER, SessionGuard};
use netchange_core::{Event, Message};
use route_history::CallFault;
use route_session::{Cause, is_stale};
use slot_lock::{Pass, Router};
use std::rt::Clock;
use std::sync::Wait;
use std::thread;
use std::time::Duration;

/// Waits a little, before a call is tried again that a full history had no room for.
pub fn pause<R: Clock>(rt: &R) {
    thread::sleep(rt, Duration::from_millis(5));
}

/// Why a session is over that met a full history. Who waits for room ends only where somebody ended the session.
pub(crate) fn end_of_full(waits: bool) -> SessionEnd
    ensures { result ≡ spec.full_end waits }
{
    if waits {
        SessionEnd::Closed
    } else {
        SessionEnd::Full
    }
}

/// Enters a message that a full history had no room for, once there is room: it is tried again every few milliseconds, as long as the
/// session is there. `Turns` where it was entered and the session goes on, and `Full` where the session is not there any more.
pub(crate) fn enter_later<R: Wait + Clock, C: SessionGuard>(
    rt: &R,
    router: &Router,
    pass: &mut Pass,
    session: u32,
    message: Message,
    guard: &C,
) -> Cause
    requires of { IsPassOf router.now pass.old }
    requires full { spec.IsFull router.now pass.old.fragment }
    ensures pass { StaysSound router.now pass.old pass.new }
    ensures entered { spec.EntersLater (C.may_be_present guard.now) router.now session message pass.old.fragment result pass.new.fragment }
{
    for _ in rt.forever() {
        pause(rt);
        if !guard.is_present(rt) {
            return Cause::Full;
        }
        match router.call(
            rt,
            pass,
            Event::Receive(session, message.dest, message.dist),
        ) {
            Ok(answer) => {
                guard.answered(rt, READER, &answer);
                if is_stale(&answer.reply) {
                    return Cause::Stale;
                }
                return Cause::Turns;
            }
            Err(CallFault::Full) => {}
            Err(CallFault::Memory) => return Cause::Memory,
        }
    }
    unreachable!()
}
