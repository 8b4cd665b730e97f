//! The right to forget.
//!
//! **Who may forget has a right**, a value without a copy that `open_endless` hands out once. It is a pass with one share that forgets and looks,
//! and its holder alone learns how many entries are forgotten by doing it: so no look of the holder finds more forgotten than the holder knows.
//! Without a share it could hold the lock while a pass has all of them.

ghost use Rattle.std.specs.Prelude.{◌≡◌};

use crate::pass::Pass;
use lock_rule::LockSeat;
use std::marker::Model;

/// The right to forget entries of an endless router. An endless router is opened with one, which cannot be copied, so its holder alone
/// forgets, and knows at any time how many entries are forgotten. A contract sees it as a `PassView`, with a share of the router.
#[derive(Drop)]
pub struct Right {
    pub(crate) seat: LockSeat,
    pub(crate) shares: u32,
}

impl Model for Right {
    ghost use Rattle.slot_lock.specs.Passes.{PassView};

    ghost Value = { PassView };

    ghost use Rattle.std.specs.Prelude.{◌<◌};
    ghost use Rattle.slot_lock.specs.Passes.{IsSound, pass_view};

    ghost view = { λ r. pass_view r.seat.table r.seat.me.0 };

    ghost invariant = { λ r. IsSound r.seat.me r.shares × (0 < r.seat.me.0.right) };
}

impl Right {
    /// Gives the right up: nothing is forgotten any more. The pass that is left has seen the same and has the same share.
    pub fn give_up(self) -> Pass
        ensures { result ≡ self }
    {
        let Right { seat, shares } = self;
        Pass { seat, shares }
    }
}
