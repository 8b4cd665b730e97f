//! The rule of the lock, what each of its steps tells, and how views are split and merged. No value of a view is made.
//!
//! **The word and the slot are those of the kit's `atomic_table`**, whose steps are proved by hand once. This crate has no atomics and no `unsafe`
//! of its own; its rule and its proofs are about plain lists.
//!
//! **The history of the rule is no value.** It is what all passes have seen beginnings of, and it is in proofs alone: so the journal in the slot
//! may have less of it than the rule speaks of. Nothing that a pass knows changes when entries are forgotten.

use atomic_table::{Join, Play, Seat, Split, Table, TableRule};
use netchange_core::Opening;
use route_history::{Bounds, Entry, LongJournal};
use std::alloc::Global;
use std::collections::LinkedList;
use std::marker::{Brand, PhantomData};
use std::snapshot::Snapshot;

/// What one caller knows, a fragment of what is known in all: a beginning of the history, the positions of its own calls there, how
/// often it tried to acquire the lock and found it held, its shares of the router, of 65,536 in all, and how many entries it knows to be
/// forgotten.
pub struct Fragment {
    pub seen: LinkedList<Entry>,
    pub mine: LinkedList<u64>,
    pub failed_tries: u64,
    pub shares: u32,
    pub forgot: u64,
}

/// What a seat at the table knows: the router's opening and bounds; the history that it acquired if it holds the lock, and how many of
/// its entries were forgotten; whether it has the right to forget, as 1 or 0; its caller's fragment, and that of a caller that is being
/// merged into it.
pub struct View {
    pub about: Option<(Opening, Bounds)>,
    pub held: Option<LinkedList<Entry>>,
    pub held_first: u64,
    pub right: u32,
    pub fragment: Fragment,
    pub incoming: Fragment,
}

/// The rule of the lock.
pub struct LockRule;

impl TableRule<LongJournal, View, Snapshot<LongJournal>> for LockRule {
    ghost use Rattle.lock_rule.specs.Rule.{IsKept};
    ghost use Rattle.lock_rule.specs.Views.{first_view};

    ghost holds = { λ key. IsKept key.value.tables.opening key.value.bounds };

    ghost first = { λ key. first_view key.value.tables.opening key.value.bounds };
}

/// The table of a router: the word is 1 while a seat holds the lock, and the journal is the one slot.
pub(crate) type LockTable = Table<LongJournal, View, Snapshot<LongJournal>, LockRule, Global>;

/// A caller's seat at the table.
pub(crate) type TableSeat = Seat<LongJournal, View>;

/// A try to acquire the lock.
pub struct TryAcquire;

impl Play<LongJournal, View> for TryAcquire {
    ghost use Rattle.lock_rule.specs.Steps.{TriesAcquire};

    ghost then = { λ _ m n w. TriesAcquire m n w };
}

/// The lock is released, and the journal has one entry more.
pub struct ReleaseEntered;

impl Play<LongJournal, View> for ReleaseEntered {
    ghost use Rattle.std.specs.Prelude.{◌≡◌};
    ghost use Rattle.lock_rule.specs.Steps.{after_release_entered};

    ghost then = { λ _ m _ w. w ≡ after_release_entered m };
}

/// The lock is released, the history is as it was, and the seat has seen it. The journal may have forgotten entries.
pub struct ReleaseSeen;

impl Play<LongJournal, View> for ReleaseSeen {
    ghost use Rattle.std.specs.Prelude.{◌≡◌};
    ghost use Rattle.lock_rule.specs.Steps.{after_release_seen};

    ghost then = { λ _ m _ w. w ≡ after_release_seen m };
}

/// The lock is released, the journal is as it was, and nothing is told.
pub struct Release;

impl Play<LongJournal, View> for Release {
    ghost use Rattle.std.specs.Prelude.{◌≡◌};
    ghost use Rattle.lock_rule.specs.Steps.{after_release};

    ghost then = { λ _ m _ w. w ≡ after_release m };
}

/// The incoming fragment is merged into the seat's own.
pub struct Merge;

impl Play<LongJournal, View> for Merge {
    ghost use Rattle.lock_rule.specs.Steps.{Merges};

    ghost then = { λ _ m _ w. Merges m w };
}

/// The seat's fragment and the incoming one have both seen the longer history.
pub struct Meet;

impl Play<LongJournal, View> for Meet {
    ghost use Rattle.lock_rule.specs.Steps.{Meets};

    ghost then = { λ _ m _ w. Meets m w };
}

/// The fragment of another seat comes in beside the seat's own.
pub struct JoinIncoming;

impl Join<View> for JoinIncoming {
    ghost use Rattle.lock_rule.specs.Views.{empty_view, with_incoming};

    ghost both = { with_incoming };

    ghost spent = { empty_view };
}

/// The incoming fragment gets a seat of its own.
pub struct SplitIncoming;

impl Split<View> for SplitIncoming {
    ghost use Rattle.lock_rule.specs.Views.{incoming_alone, without_incoming};

    ghost left = { without_incoming };

    ghost right = { incoming_alone };
}

/// How many shares a new pass has.
pub trait Amount {
    ghost use Rattle.std.specs.Prelude.{ℕ};

    ghost amount: { ℕ };
}

impl Amount for Brand {
    ghost amount = { 0 };
}

/// A seat's shares are split.
pub struct SplitShares<N: Amount> {
    of: PhantomData<N>,
}

impl<N: Amount> Split<View> for SplitShares<N> {
    ghost use Rattle.lock_rule.specs.Views.{split_left, split_right};

    ghost left = { split_left N.amount };

    ghost right = { split_right N.amount };
}
