//! A caller's pass.
//!
//! **What a pass knows is in proofs only.** A pass takes four bytes at run time, its shares. A history for each pass would cost as much as the
//! journal.

ghost use Rattle.std.specs.Prelude.{◌≡◌, ◌≤◌};
ghost use Rattle.slot_lock.specs.Passes.{IsOwn};

use lock_rule::LockSeat;
use std::marker::Model;

/// A caller's pass: what it has seen of the router's history, and which calls there are its own. A contract sees it as a
/// `PassView`.
#[derive(Drop)]
pub struct Pass {
    pub(crate) seat: LockSeat,
    pub(crate) shares: u32,
}

impl Model for Pass {
    ghost use Rattle.slot_lock.specs.Passes.{PassView};

    ghost Value = { PassView };

    ghost use Rattle.slot_lock.specs.Passes.{IsSound, pass_view};

    ghost view = { λ p. pass_view p.seat.table p.seat.me.0 };

    ghost invariant = { λ p. IsSound p.seat.me p.shares };
}

impl Pass {
    /// The shares of the router that the pass has, 1 to 65,536.
    pub fn shares(&self) -> u32
        ensures shares { result ≡ self.now.fragment.shares }
        ensures range { (1 ≤ result) × (result ≤ 65536) }
        ensures own { IsOwn self.now.fragment }
    {
        self.shares
    }
}
