//! Tries until the lock is acquired.

ghost use Rattle.std.specs.Prelude.{◌≡◌, ◌<◌, None, []};
ghost use Rattle.lock_rule.specs.Views.{shares_of};
ghost use Rattle.slot_lock.specs.Trying.{AcquiredAfterTries};

use lock_rule::{JournalLock, LockSeat};
use std::sync::Wait;

/// Acquires the lock: tries until the seat holds it, and waits between two tries.
pub(crate) fn acquire<R: Wait>(rt: &R, lock: &JournalLock, seat: &mut LockSeat)
    requires at { seat.old.table ≡ lock.now.table }
    requires not_holding { (seat.old.me.1 ≡ []) × (seat.old.me.0.held ≡ None) × (0 < shares_of seat.old.me.0) }
    ensures at { seat.new.table ≡ seat.old.table }
    ensures acquired { AcquiredAfterTries seat.old.me seat.new.me }
{
    for _ in rt.forever() {
        if lock.try_acquire(seat) {
            return;
        }
        lock.back_off(rt);
    }
    unreachable!()
}
