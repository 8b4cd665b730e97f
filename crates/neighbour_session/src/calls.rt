//! The calls that begin and end a session.
ghost use Rattle.std.specs.Prelude.{◌≡◌, IfErr, IfOk};
ghost use Rattle.neighbour_session.specs.Calls as spec;
ghost use Rattle.route_session.specs.Calls.{StaysSound};
ghost use Rattle.slot_lock.specs.Passes.{IsPassOf};

use crate::ends::SessionEnd;
use netchange_core::{Event, Reply};
use route_history::CallFault;
use slot_lock::{Answer, Pass, Router};
use std::sync::Wait;

/// What a call that was not entered says of the session.
fn end_of(fault: CallFault) -> SessionEnd
    ensures { result ≡ spec.end_of fault }
{
    match fault {
        CallFault::Full => SessionEnd::Full,
        CallFault::Memory => SessionEnd::Memory,
    }
}

/// Enters Up of a node: the session, and the answer.
pub fn enter_up<R: Wait>(
    rt: &R,
    router: &Router,
    pass: &mut Pass,
    node: u16,
) -> Result<(u32, Answer), SessionEnd>
    requires { IsPassOf router.now pass.old }
    ensures pass { StaysSound router.now pass.old pass.new }
    ensures shares { pass.new.fragment.shares ≡ pass.old.fragment.shares }
    ensures opened { IfOk result (λ r. spec.Opens router.now node pass.old r.0 r.1 pass.new) }
    ensures refused { IfErr result (λ why. spec.IsUnopened why router.now node pass.old pass.new) }
{
    match router.call(rt, pass, Event::Up(node)) {
        Ok(answer) => match answer.reply {
            Reply::Opened(session) => Ok((session, answer)),
            _ => Err(SessionEnd::Refused),
        },
        Err(fault) => Err(end_of(fault)),
    }
}

/// Enters Down of a session.
pub fn enter_down<R: Wait>(
    rt: &R,
    router: &Router,
    pass: &mut Pass,
    session: u32,
) -> Result<Answer, SessionEnd>
    requires { IsPassOf router.now pass.old }
    ensures pass { StaysSound router.now pass.old pass.new }
    ensures shares { pass.new.fragment.shares ≡ pass.old.fragment.shares }
    ensures closed { IfOk result (λ a. spec.Closes router.now session pass.old a pass.new) }
    ensures refused { IfErr result (λ why. spec.IsUnclosed why router.now pass.old pass.new) }
{
    match router.call(rt, pass, Event::Down(session)) {
        Ok(answer) => Ok(answer),
        Err(fault) => Err(end_of(fault)),
    }
}
