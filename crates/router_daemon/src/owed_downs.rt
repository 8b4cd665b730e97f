//! What a full history had no room for, and a Down that was refused, are entered later.
ghost use Rattle.std.specs.Prelude.{◌≡◌, MatchBool};
ghost use Rattle.slot_lock.specs.Passes.{IsPassOf};
ghost use Rattle.router_daemon.specs.Links.{IsOwed, IsDownEntered};

use crate::shared::Shared;
use neighbour_session::SessionEnd;
use netchange_core::Event;
use router_operator::Naming;
use slot_lock::Pass;
use std::io::Write;
use std::rt::Clock;
use std::sync::Wait;
use std::thread;
use std::time::Duration;

/// Whether a call that was not entered for this reason may be a little later: the history is full, and it is not so for ever.
pub(crate) fn passes(why: SessionEnd) -> bool
    ensures { MatchBool result (why ≡ SessionEnd.Full) (why ≡ SessionEnd.Full → ⊥) }
{
    match why {
        SessionEnd::Full => true,
        _ => false,
    }
}

/// Enters the Down of a session that is over. False exactly where it is owed still: it is refused memory, or the history is full.
fn enter_again<R: Wait, J: Naming, E: Write>(
    rt: &R,
    shared: &Shared<J, E>,
    pass: &mut Pass,
    session: u32,
) -> bool
    requires { IsPassOf J.router pass.old }
    ensures of { IsPassOf J.router pass.new }
    ensures entered { MatchBool result (IsDownEntered J.router session pass.old pass.new) (IsOwed J.router pass.old pass.new) }
{
    match shared.router.call(rt, pass, Event::Down(session)) {
        Ok(answer) => {
            shared.signals.note(rt, &answer);
            true
        }
        Err(_) => false,
    }
}

/// Enters the Down of a session of a link that was refused before, if there is one. False where it is owed still.
fn enter_owed<R: Wait, J: Naming, E: Write>(
    rt: &R,
    shared: &Shared<J, E>,
    pass: &mut Pass,
    link: usize,
) -> bool
    requires { IsPassOf J.router pass.old }
    ensures { IsPassOf J.router pass.new }
{
    let Some(session) = shared.signals.take_owed(rt, link) else {
        return true;
    };
    let is_entered = enter_again(rt, shared, pass, session);
    if !is_entered {
        shared.signals.owe(rt, link, session);
    }
    is_entered
}

/// Tries once to enter the Down of a session of a link that was refused before, if there is one. False where it is owed still. Where the router
/// is being closed who closes it enters the Down.
pub(crate) fn try_owed_down<R: Wait, J: Naming, E: Write>(
    rt: &R,
    shared: &Shared<J, E>,
    pass: &mut Pass,
    link: usize,
) -> bool
    requires { IsPassOf J.router pass.old }
    ensures { IsPassOf J.router pass.new }
{
    if !shared.signals.open(rt, link) {
        return true;
    }
    let is_entered = enter_owed(rt, shared, pass, link);
    shared.signals.end_change(rt, link);
    is_entered
}

/// Waits until the router has no session of a link any more that is over: each second its Down is tried again.
pub(crate) fn enter_owed_down<R: Wait + Clock, J: Naming, E: Write>(
    rt: &R,
    shared: &Shared<J, E>,
    pass: &mut Pass,
    link: usize,
)
    requires { IsPassOf J.router pass.old }
    ensures { IsPassOf J.router pass.new }
{
    for _ in rt.forever() {
        if try_owed_down(rt, shared, pass, link) {
            return;
        }
        thread::sleep(rt, Duration::from_secs(1));
    }
}
