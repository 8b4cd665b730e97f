//! The lock round a router's journal and the seats of its callers, as the crates above see them: they can make the steps of the lock,
//! and no others.
//!
//! **A caller that finds the lock held loads the word some times, and then sleeps for a set time.** Nobody wakes it. Exact wakes need a system call
//! at each release while one sleeps, and are slower; so is a yield between two tries, since each try takes the word's cache line from the thread
//! that holds the lock.

ghost use Rattle.std.specs.Prelude.{◌≡◌, ◌≢◌, ◌<◌, IfErr, IfNone, IfOk, IfSome, MatchBool, None, []};
ghost use Rattle.lock_rule.specs.Closing.{ClosedLong};
ghost use Rattle.lock_rule.specs.Entering.{Enters, EntersNot, Forgets, IsHolding, IsMet, Observes};
ghost use Rattle.lock_rule.specs.RouterView.{bounds_of};
ghost use Rattle.lock_rule.specs.Steps.{Acquired, FoundHeld, Merges};
ghost use Rattle.route_history.specs.Long.{window};
ghost use Rattle.lock_rule.specs.Views.{all_shares, empty_fragment, first_view, shares_of, split_left, split_right, with_incoming};

use crate::observer::Observer;
use crate::rule::{LockTable, TableSeat};
use crate::steps::{close, enter, forget, meet, merge, observe, split, try_acquire};
use netchange_core::{Event, Reply};
use route_history::{CallFault, LongJournal};
use std::alloc::{AllocError, Global};
use std::hint::spin_loop;
use std::marker::{Brand, Model};
use std::snapshot::Snapshot;
use std::sync::Wait;
use std::time::Duration;

/// How often a caller that waits loads the word before it sleeps.
const SPINS: u32 = 100;

/// For how many microseconds a caller sleeps at most.
const SLEEP_MICROSECONDS: u64 = 50;

/// The lock round a router's journal: it has the journal, unless a seat has acquired it. A contract sees it as a `RouterView`.
#[derive(Drop)]
pub struct JournalLock {
    table: LockTable,
}

impl Model for JournalLock {
    ghost use Rattle.std.specs.Prelude.{◌≡◌};
    ghost use Rattle.lock_rule.specs.RouterView.{RouterView, router_view};

    ghost Value = { RouterView };

    ghost view = { λ l. router_view l.table.shared.table_id l.table.shared.key.value.tables.opening l.table.shared.key.value.bounds };

    ghost invariant = { λ l. (l.table.shared.table_id.words ≡ 1) × (l.table.shared.table_id.slots ≡ 1) };
}

/// A caller's seat at the lock: what the caller knows, and the journal while the caller holds the lock. A contract sees it as a
/// `SeatView`.
#[derive(Drop)]
pub struct LockSeat {
    inner: TableSeat,
}

impl Model for LockSeat {
    ghost use Rattle.lock_rule.specs.RouterView.{SeatView, seat_view};

    ghost Value = { SeatView };

    ghost view = { λ s. seat_view s.inner.table_id s.inner.me };
}

impl JournalLock {
    /// The lock round this journal, which is empty, and the first seat, which has all shares and the right to forget. The journal is
    /// dropped where memory was refused.
    pub fn open(alloc: Global, journal: LongJournal) -> Result<(JournalLock, LockSeat), AllocError>
        requires { journal ≡ window journal.tables.opening journal.bounds 0 [] }
        ensures lock { IfOk result (λ r. (r.0.opening ≡ journal.tables.opening) × (bounds_of r.0 ≡ journal.bounds)) }
        ensures seat { IfOk result (λ r. (r.1.table ≡ r.0.table) × (r.1.me ≡ (first_view journal.tables.opening journal.bounds, []))) }
    {
        let key = Snapshot::of(&journal);
        let mut slots = Vec::with_capacity(alloc, 1)?;
        slots.push_reserved(journal);
        match LockTable::new(alloc, &[0], slots, &key) {
            Ok((table, seat)) => Ok((JournalLock { table }, LockSeat { inner: seat })),
            Err(_) => Err(AllocError),
        }
    }

    /// Tries once to acquire the lock, and says whether the seat holds it now. Where it does not, the exchange found the word at 1.
    pub fn try_acquire(&self, seat: &mut LockSeat) -> bool
        requires at { seat.old.table ≡ self.now.table }
        requires not_holding { (seat.old.me.1 ≡ []) × (seat.old.me.0.held ≡ None) × (0 < shares_of seat.old.me.0) }
        ensures at { seat.new.table ≡ seat.old.table }
        ensures tried { MatchBool result (Acquired seat.old.me seat.new.me) (FoundHeld seat.old.me seat.new.me) }
    {
        try_acquire(&self.table, &mut seat.inner)
    }

    /// Waits a while, if the lock is held: loads the word some times, which costs other threads nothing, and then sleeps for at most
    /// 50 microseconds. It tells nothing.
    pub fn back_off<R: Wait>(&self, rt: &R) {
        for _ in 0..SPINS {
            if self.table.shared.peek(0) == 0 {
                return;
            }
            spin_loop();
        }
        self.table
            .shared
            .park_timeout(rt, 0, 1, Duration::from_micros(SLEEP_MICROSECONDS));
    }

    /// Enters an event in the journal of a seat that holds the lock, and releases it: the entry's position, and its reply.
    pub fn enter(&self, seat: &mut LockSeat, event: Event) -> Result<(u64, Reply), CallFault>
        requires at { seat.old.table ≡ self.now.table }
        requires holding { IsHolding seat.old.me }
        ensures at { seat.new.table ≡ seat.old.table }
        ensures entered { IfOk result (λ a. Enters seat.old.me event a.0 a.1 seat.new.me) }
        ensures refused { IfErr result (λ f. EntersNot f seat.old.me seat.new.me) }
    {
        enter(&self.table, &mut seat.inner, event)
    }

    /// Lets an observer see the journal of a seat that holds the lock, and releases it: the journal is as it was.
    pub fn observe<O: Observer>(&self, seat: &mut LockSeat, observer: &mut O)
        requires at { seat.old.table ≡ self.now.table }
        requires holding { IsHolding seat.old.me }
        ensures at { seat.new.table ≡ seat.old.table }
        ensures observed { Observes O.sees seat.old.me observer.old observer.new seat.new.me }
    {
        observe(&self.table, &mut seat.inner, observer);
    }

    /// Forgets entries below a position in the journal of a seat that holds the lock and has the right to, if the router is endless, and
    /// releases the lock: how many are forgotten in all.
    pub fn forget(&self, seat: &mut LockSeat, upto: u64) -> u64
        requires at { seat.old.table ≡ self.now.table }
        requires holding { IsHolding seat.old.me }
        requires right { 0 < seat.old.me.0.right }
        ensures at { seat.new.table ≡ seat.old.table }
        ensures forgot { Forgets seat.old.me upto result seat.new.me }
    {
        forget(&self.table, &mut seat.inner, upto)
    }

    /// Splits a seat: the new one has this many of its shares.
    pub fn split(&self, seat: &mut LockSeat, shares: u32) -> LockSeat
        requires at { seat.old.table ≡ self.now.table }
        requires not_holding { (seat.old.me.0.held ≡ None) × (seat.old.me.0.incoming ≡ empty_fragment) }
        requires shares { (0 < shares) × (shares < seat.old.me.0.fragment.shares) }
        ensures at { (seat.new.table ≡ seat.old.table) × (result.table ≡ seat.old.table) }
        ensures old { seat.new.me ≡ (split_left shares seat.old.me.0, seat.old.me.1) }
        ensures new { result.me ≡ (split_right shares seat.old.me.0, []) }
    {
        let inner = split::<Brand>(&self.table, &mut seat.inner, shares);
        LockSeat { inner }
    }

    /// Merges two seats into one, which has both fragments in one.
    pub fn merge(&self, seat: &mut LockSeat, other: LockSeat)
        requires at { (seat.old.table ≡ self.now.table) × (other.table ≡ self.now.table) }
        requires not_holding { (seat.old.me.0.held ≡ None) × (seat.old.me.0.incoming ≡ empty_fragment) × (0 < seat.old.me.0.fragment.shares) }
        requires other_not_holding { (other.me.1 ≡ []) × (other.me.0.held ≡ None) × (other.me.0.incoming ≡ empty_fragment) }
        ensures at { seat.new.table ≡ seat.old.table }
        ensures merged { Merges (with_incoming seat.old.me.0 other.me.0, seat.old.me.1) seat.new.me }
    {
        merge(&self.table, &mut seat.inner, other.inner);
    }

    /// Lets two seats meet: both have then seen the longer history.
    pub fn meet(&self, seat: &mut LockSeat, other: LockSeat) -> LockSeat
        requires at { (seat.old.table ≡ self.now.table) × (other.table ≡ self.now.table) }
        requires not_holding { (seat.old.me.0.held ≡ None) × (seat.old.me.0.incoming ≡ empty_fragment) × (0 < seat.old.me.0.fragment.shares) }
        requires other_not_holding { (other.me.1 ≡ []) × (other.me.0.held ≡ None) × (other.me.0.incoming ≡ empty_fragment)
            × (0 < other.me.0.fragment.shares) }
        ensures at { (seat.new.table ≡ seat.old.table) × (result.table ≡ seat.old.table) }
        ensures met { IsMet seat.old.me other.me seat.new.me result.me }
    {
        let inner = meet(&self.table, &mut seat.inner, other.inner);
        LockSeat { inner }
    }

    /// Ends the lock, and returns its journal; `None` where another seat holds the lock.
    pub fn close(self, seat: LockSeat) -> Option<LongJournal>
        requires at { seat.table ≡ self.table }
        requires not_holding { (seat.me.0.held ≡ None) × (seat.me.0.incoming ≡ empty_fragment) }
        ensures closed { IfSome result (λ j. ClosedLong self seat.me.0.fragment j) }
        ensures held { IfNone result (seat.me.0.fragment.shares ≢ all_shares) }
    {
        close(self.table, seat.inner)
    }
}
