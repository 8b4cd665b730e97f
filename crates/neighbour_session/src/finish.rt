//! A session is ended.
ghost use Rattle.std.specs.Prelude.{◌≡◌};
ghost use Rattle.neighbour_session.specs.Ending.{Ends, TellsDown};
ghost use Rattle.route_session.specs.Calls.{StaysSound};
ghost use Rattle.slot_lock.specs.Passes.{IsPassOf};

use crate::calls::enter_down;
use crate::ends::SessionEnd;
use crate::guard::{EndedGuard, SessionGuard};
use slot_lock::{Pass, Router};
use std::rt::Clock;
use std::sync::Wait;

/// Ends a session for a reason: enters Down, if nobody ended it before, and tells who served it of the answer. Why it is over, and what is
/// left of who served it.
pub fn end_session<R: Wait + Clock, C: SessionGuard>(
    rt: &R,
    router: &Router,
    pass: &mut Pass,
    session: u32,
    guard: C,
    why: SessionEnd,
) -> (SessionEnd, C::EndedGuard)
    requires { IsPassOf router.now pass.old }
    ensures pass { StaysSound router.now pass.old pass.new }
    ensures shares { pass.new.fragment.shares ≡ pass.old.fragment.shares }
    ensures ends { Ends (C.may_be_first guard) router.now session why pass.old result.0 pass.new }
    ensures told { TellsDown C.EndedGuard.is_notified router.now session pass.old pass.new }
{
    let (is_first, mut ended_guard) = guard.end(rt);
    if !is_first {
        return (why, ended_guard);
    }
    match enter_down(rt, router, pass, session) {
        Ok(answer) => {
            ended_guard.ended(rt, &answer);
            (why, ended_guard)
        }
        Err(fault) => (fault, ended_guard),
    }
}
