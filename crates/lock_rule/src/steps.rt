//! The steps that a seat makes at the table of a router, each with its own operation. The crates above make no others, since
//! tables and seats are out of their reach.

ghost use Rattle.std.specs.Prelude.{◌≡◌, ◌≢◌, ◌<◌, IfErr, IfNone, IfOk, IfSome, MatchBool, None, []};
ghost use Rattle.lock_rule.specs.Closing.{ClosedLong};
ghost use Rattle.lock_rule.specs.RouterView.{router_view};
ghost use Rattle.lock_rule.specs.Entering.{Enters, EntersNot, Forgets, IsAtTable, IsHolding, IsMet, Observes};
ghost use Rattle.lock_rule.specs.Steps.{Acquired, FoundHeld, Merges};
ghost use Rattle.lock_rule.specs.Views.{all_shares, empty_fragment, shares_of, split_left, split_right, with_incoming};

use crate::observer::Observer;
use crate::rule::{
    Amount, JoinIncoming, LockTable, Meet, Merge, Release, ReleaseEntered, ReleaseSeen,
    SplitIncoming, SplitShares, TableSeat, TryAcquire,
};
use netchange_core::{Event, Reply};
use route_history::{CallFault, LongJournal};

/// Tries once to acquire the lock, and says whether it did.
pub(crate) fn try_acquire(table: &LockTable, seat: &mut TableSeat) -> bool
    requires table { IsAtTable table.now.shared.table_id seat.old.table_id }
    requires not_holding { (seat.old.me.1 ≡ []) × (seat.old.me.0.held ≡ None) × (0 < shares_of seat.old.me.0) }
    ensures same { (seat.new.table_id ≡ seat.old.table_id) × (seat.new.id ≡ seat.old.id) }
    ensures tried { MatchBool result (Acquired seat.old.me seat.new.me) (FoundHeld seat.old.me seat.new.me) }
{
    table.shared.compare_exchange::<TryAcquire>(seat, 0, 0, 1) == 0
}

/// Enters an event in the journal of a seat that holds the lock, and releases it.
pub(crate) fn enter(
    table: &LockTable,
    seat: &mut TableSeat,
    event: Event,
) -> Result<(u64, Reply), CallFault>
    requires table { IsAtTable table.now.shared.table_id seat.old.table_id }
    requires holding { IsHolding seat.old.me }
    ensures same { (seat.new.table_id ≡ seat.old.table_id) × (seat.new.id ≡ seat.old.id) }
    ensures entered { IfOk result (λ a. Enters seat.old.me event a.0 a.1 seat.new.me) }
    ensures refused { IfErr result (λ f. EntersNot f seat.old.me seat.new.me) }
{
    let journal = seat.slot_mut(&table.shared, 0);
    match journal.apply(event) {
        Ok((at, reply)) => {
            table.shared.store::<ReleaseEntered>(seat, 0, 0);
            Ok((at, reply))
        }
        Err(CallFault::Full) => {
            table.shared.store::<ReleaseSeen>(seat, 0, 0);
            Err(CallFault::Full)
        }
        Err(CallFault::Memory) => {
            table.shared.store::<Release>(seat, 0, 0);
            Err(CallFault::Memory)
        }
    }
}

/// Lets an observer see the journal of a seat that holds the lock, and releases it.
pub(crate) fn observe<O: Observer>(table: &LockTable, seat: &mut TableSeat, observer: &mut O)
    requires table { IsAtTable table.now.shared.table_id seat.old.table_id }
    requires holding { IsHolding seat.old.me }
    ensures same { (seat.new.table_id ≡ seat.old.table_id) × (seat.new.id ≡ seat.old.id) }
    ensures observed { Observes O.sees seat.old.me observer.old observer.new seat.new.me }
{
    let shown = seat.slot_mut(&table.shared, 0);
    observer.see(shown);
    table.shared.store::<ReleaseSeen>(seat, 0, 0);
}

/// Forgets entries of the journal of a seat that holds the lock and has the right to, and releases it: how many are forgotten in all.
pub(crate) fn forget(table: &LockTable, seat: &mut TableSeat, upto: u64) -> u64
    requires table { IsAtTable table.now.shared.table_id seat.old.table_id }
    requires holding { IsHolding seat.old.me }
    requires right { 0 < seat.old.me.0.right }
    ensures same { (seat.new.table_id ≡ seat.old.table_id) × (seat.new.id ≡ seat.old.id) }
    ensures forgot { Forgets seat.old.me upto result seat.new.me }
{
    let lent = seat.slot_mut(&table.shared, 0);
    let first = lent.forget(upto);
    table.shared.store::<ReleaseSeen>(seat, 0, 0);
    first
}

/// Splits a seat: the new one has this many of its shares.
pub(crate) fn split<N: Amount>(table: &LockTable, seat: &mut TableSeat, shares: u32) -> TableSeat
    requires amount { shares ≡ N.amount }
    requires table { IsAtTable table.now.shared.table_id seat.old.table_id }
    requires not_holding { (seat.old.me.0.held ≡ None) × (seat.old.me.0.incoming ≡ empty_fragment) }
    requires shares { (0 < shares) × (shares < seat.old.me.0.fragment.shares) }
    ensures same { (seat.new.table_id ≡ seat.old.table_id) × (seat.new.id ≡ seat.old.id) × (result.table_id ≡ seat.old.table_id) }
    ensures old { seat.new.me ≡ (split_left shares seat.old.me.0, seat.old.me.1) }
    ensures new { result.me ≡ (split_right shares seat.old.me.0, []) }
{
    let _ = shares;
    table.shared.split_seat::<SplitShares<N>>(seat)
}

/// Merges two seats into one, which has both fragments in one.
pub(crate) fn merge(table: &LockTable, seat: &mut TableSeat, other: TableSeat)
    requires table { IsAtTable table.now.shared.table_id seat.old.table_id × (other.table_id ≡ table.now.shared.table_id) }
    requires not_holding { (seat.old.me.0.held ≡ None) × (seat.old.me.0.incoming ≡ empty_fragment) × (0 < seat.old.me.0.fragment.shares) }
    requires other_not_holding { (other.me.1 ≡ []) × (other.me.0.held ≡ None) × (other.me.0.incoming ≡ empty_fragment) }
    ensures same { (seat.new.table_id ≡ seat.old.table_id) × (seat.new.id ≡ seat.old.id) }
    ensures merged { Merges (with_incoming seat.old.me.0 other.me.0, seat.old.me.1) seat.new.me }
{
    table.shared.join_seat::<JoinIncoming>(seat, other);
    table.shared.load::<Merge>(seat, 0);
}

/// Lets two seats meet: both have then seen the longer history.
pub(crate) fn meet(table: &LockTable, seat: &mut TableSeat, other: TableSeat) -> TableSeat
    requires table { IsAtTable table.now.shared.table_id seat.old.table_id × (other.table_id ≡ table.now.shared.table_id) }
    requires not_holding { (seat.old.me.0.held ≡ None) × (seat.old.me.0.incoming ≡ empty_fragment) × (0 < seat.old.me.0.fragment.shares) }
    requires other_not_holding { (other.me.1 ≡ []) × (other.me.0.held ≡ None) × (other.me.0.incoming ≡ empty_fragment)
        × (0 < other.me.0.fragment.shares) }
    ensures same { (seat.new.table_id ≡ seat.old.table_id) × (result.table_id ≡ seat.old.table_id) }
    ensures met { IsMet seat.old.me other.me seat.new.me result.me }
{
    table.shared.join_seat::<JoinIncoming>(seat, other);
    table.shared.load::<Meet>(seat, 0);
    table.shared.split_seat::<SplitIncoming>(seat)
}

/// Closes the table, and returns its journal, unless a seat still holds the lock.
pub(crate) fn close(table: LockTable, seat: TableSeat) -> Option<LongJournal>
    requires table { IsAtTable table.shared.table_id seat.table_id }
    requires not_holding { (seat.me.0.held ≡ None) × (seat.me.0.incoming ≡ empty_fragment) }
    ensures closed { IfSome result (λ j.
        ClosedLong (router_view table.shared.table_id table.shared.key.value.tables.opening table.shared.key.value.bounds) seat.me.0.fragment j) }
    ensures held { IfNone result (seat.me.0.fragment.shares ≢ all_shares) }
{
    let mut closed = table.close_with(seat);
    let word = closed.word(0);
    let journal = closed.take(0);
    closed.free();
    if word == 0 { Some(journal) } else { None }
}
