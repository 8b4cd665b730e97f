//! A router that many threads call.
//!
//! **`join` and `meet` load the word once more.** To join two seats of the table tells nothing about them; the load that follows tells what the
//! rule knows of both: that one history begins the other, and that no position is in both.
//!
//! **`join` leaves an empty pass in the rule**, without shares and calls, since a table never forgets a seat. A pass that is dropped counts as it
//! is, so nobody has all shares from then on, and the close by another pass tells less.
//!
//! **`close` asks for no memory**, since the table is taken apart in place, so L3 comes from `Router::open` and `open_endless` alone.
//!
//! **`close` is for routers that are not endless**: a `Journal` has its whole history. `close_long` hands out what is kept, of any router.

ghost use Rattle.std.specs.Prelude.{◌≡◌, ◌≢◌, ◌-◌, ◌<◌, ◌≤◌, [], false, true, IfErr, IfOk, length};
ghost use Rattle.slot_lock.specs.Calls.{Answered, Closed, ClosedLong, Forgot, Merged, Met, Observed, Refused, TryRefused};
ghost use Rattle.slot_lock.specs.declared.fault.LockFault.TheVariants as lock_fault;
ghost use Rattle.slot_lock.specs.Passes.{IsFirst, IsNew, IsOwn, IsPassOf, bounds_of};
ghost use Rattle.lock_rule.specs.Views.{first_view};

use crate::acquire::acquire;
use crate::answer::Answer;
use crate::fault::{LockFault, TryFault};
use crate::pass::Pass;
use crate::right::Right;
use lock_rule::{JournalLock, LockSeat, Observer};
use netchange_core::Event;
use route_history::{CallFault, Journal, LongJournal};
use std::alloc::Global;
use std::marker::Model;
use std::sync::Wait;

/// The shares of a router that all its passes have together.
pub const ALL_SHARES: u32 = 65_536;

/// A router: a journal under a lock. A contract sees it as a `RouterView`.
#[derive(Drop)]
pub struct Router {
    pub(crate) lock: JournalLock,
}

impl Model for Router {
    ghost use Rattle.slot_lock.specs.Passes.{RouterView};

    ghost Value = { RouterView };

    ghost view = { λ r. r.lock };
}

/// A router with this journal, and the first seat, which has all shares and the right to forget.
fn open(alloc: Global, journal: Journal, endless: bool) -> Result<(Router, LockSeat), LockFault>
    requires { journal.entries ≡ [] }
    ensures router { IfOk result (λ r. (r.0.opening ≡ journal.opening) × (r.0.limit ≡ journal.limit) × (r.0.endless ≡ endless)) }
    ensures seat { IfOk result (λ r. (r.1.table ≡ r.0.table) × (r.1.me ≡ (first_view r.0.opening (bounds_of r.0), []))) }
    ensures refused { IfErr result (λ f. f ≡ lock_fault.Memory) }
{
    match JournalLock::open(alloc, LongJournal::of(alloc, journal, endless)) {
        Ok((lock, seat)) => Ok((Router { lock }, seat)),
        Err(_) => Err(LockFault::Memory),
    }
}

impl Router {
    /// A router with this journal, which is empty, and the first pass, which has all 65,536 shares. L3 where the memory was
    /// refused; the journal is then dropped.
    pub fn open(alloc: Global, journal: Journal) -> Result<(Router, Pass), LockFault>
        requires { journal.entries ≡ [] }
        ensures router { IfOk result (λ r. (r.0.opening ≡ journal.opening) × (r.0.limit ≡ journal.limit)) }
        ensures whole { IfOk result (λ r. r.0.endless ≡ false) }
        ensures pass { IfOk result (λ r. IsFirst r.0 r.1) }
        ensures refused { IfErr result (λ f. f ≡ lock_fault.Memory) }
    {
        match open(alloc, journal, false) {
            Ok((router, seat)) => Ok((
                router,
                Pass {
                    seat,
                    shares: ALL_SHARES,
                },
            )),
            Err(refusal) => Err(refusal),
        }
    }

    /// The same, of a router that may forget entries: its journal has room for as many as the limit at a time. The right to forget has
    /// one share, and the first pass the others.
    pub fn open_endless(alloc: Global, journal: Journal) -> Result<(Router, Pass, Right), LockFault>
        requires { journal.entries ≡ [] }
        ensures router { IfOk result (λ r. (r.0.opening ≡ journal.opening) × (r.0.limit ≡ journal.limit)) }
        ensures endless { IfOk result (λ r. r.0.endless ≡ true) }
        ensures pass { IfOk result (λ r. IsNew r.0 65535 r.1) }
        ensures right { IfOk result (λ r. IsNew r.0 1 r.2) }
        ensures refused { IfErr result (λ f. f ≡ lock_fault.Memory) }
    {
        match open(alloc, journal, true) {
            Ok((router, mut seat)) => {
                let shares = ALL_SHARES - 1;
                let others = router.lock.split(&mut seat, shares);
                let pass = Pass {
                    seat: others,
                    shares,
                };
                Ok((router, pass, Right { seat, shares: 1 }))
            }
            Err(refusal) => Err(refusal),
        }
    }

    /// Tries once to enter an event.
    pub fn try_call(&self, pass: &mut Pass, event: Event) -> Result<Answer, TryFault>
        requires { IsPassOf self.now pass.old }
        ensures pass { IsPassOf self.now pass.new × (pass.new.fragment.shares ≡ pass.old.fragment.shares) }
        ensures own { IsOwn pass.new.fragment }
        ensures answered { IfOk result (λ a. Answered self.now pass.old event a pass.new
            × (pass.new.fragment.failed_tries ≡ pass.old.fragment.failed_tries)) }
        ensures refused { IfErr result (λ f. TryRefused f self.now pass.old event pass.new) }
    {
        if !self.lock.try_acquire(&mut pass.seat) {
            return Err(TryFault::Busy(event));
        }
        match self.lock.enter(&mut pass.seat, event) {
            Ok((at, reply)) => Ok(Answer { at, reply }),
            Err(CallFault::Full) => Err(TryFault::Full),
            Err(CallFault::Memory) => Err(TryFault::Memory),
        }
    }

    /// Enters an event: tries until it has the lock.
    pub fn call<R: Wait>(&self, rt: &R, pass: &mut Pass, event: Event) -> Result<Answer, CallFault>
        requires { IsPassOf self.now pass.old }
        ensures pass { IsPassOf self.now pass.new × (pass.new.fragment.shares ≡ pass.old.fragment.shares) }
        ensures own { IsOwn pass.new.fragment }
        ensures failed_tries { pass.old.fragment.failed_tries ≤ pass.new.fragment.failed_tries }
        ensures answered { IfOk result (λ a. Answered self.now pass.old event a pass.new) }
        ensures refused { IfErr result (λ f. Refused f self.now pass.old pass.new) }
    {
        acquire(rt, &self.lock, &mut pass.seat);
        match self.lock.enter(&mut pass.seat, event) {
            Ok((at, reply)) => Ok(Answer { at, reply }),
            Err(fault) => Err(fault),
        }
    }

    /// Shows the journal to an observer, and adds no entry: tries until it has the lock. The pass has then seen all that the observer
    /// saw. Other callers wait until the observer is done.
    pub fn observe<R: Wait, O: Observer>(&self, rt: &R, pass: &mut Pass, observer: &mut O)
        requires { IsPassOf self.now pass.old }
        ensures pass { IsPassOf self.now pass.new × (pass.new.fragment.shares ≡ pass.old.fragment.shares) }
        ensures own { IsOwn pass.new.fragment }
        ensures failed_tries { pass.old.fragment.failed_tries ≤ pass.new.fragment.failed_tries }
        ensures observed { Observed O.sees self.now pass.old observer.old observer.new pass.new }
    {
        acquire::<R>(rt, &self.lock, &mut pass.seat);
        self.lock.observe(&mut pass.seat, observer);
    }

    /// The same by the holder of the right to forget, who alone forgets: no more entries are forgotten than at the last time.
    pub fn observe_with_right<R: Wait, O: Observer>(
        &self,
        rt: &R,
        right: &mut Right,
        observer: &mut O,
    )
        requires { IsPassOf self.now right.old }
        ensures right { IsPassOf self.now right.new × (right.new.fragment.shares ≡ right.old.fragment.shares) }
        ensures own { IsOwn right.new.fragment }
        ensures failed_tries { right.old.fragment.failed_tries ≤ right.new.fragment.failed_tries }
        ensures observed { Observed O.sees self.now right.old observer.old observer.new right.new }
        ensures exact { right.new.fragment.forgot ≡ right.old.fragment.forgot }
    {
        acquire::<R>(rt, &self.lock, &mut right.seat);
        self.lock.observe(&mut right.seat, observer);
    }

    /// Forgets entries below a position, if the router is endless, and adds no entry: how many are forgotten in all. The holder of the
    /// right has then seen the whole history.
    pub fn forget<R: Wait>(&self, rt: &R, right: &mut Right, upto: u64) -> u64
        requires { IsPassOf self.now right.old }
        ensures right { IsPassOf self.now right.new × (right.new.fragment.shares ≡ right.old.fragment.shares) }
        ensures own { IsOwn right.new.fragment }
        ensures failed_tries { right.old.fragment.failed_tries ≤ right.new.fragment.failed_tries }
        ensures forgot { Forgot self.now right.old upto result right.new }
    {
        acquire::<R>(rt, &self.lock, &mut right.seat);
        self.lock.forget(&mut right.seat, upto)
    }

    /// Splits a pass: the new one has this many of its shares, has seen the same, and has made no calls.
    pub fn split(&self, pass: &mut Pass, shares: u32) -> Pass
        requires of { IsPassOf self.now pass.old }
        requires shares { (1 ≤ shares) × (shares < pass.old.fragment.shares) }
        ensures of { IsPassOf self.now pass.new × IsPassOf self.now result }
        ensures old { pass.new ≡ record pass.old { fragment = record pass.old.fragment { shares = pass.old.fragment.shares - shares } } }
        ensures new { result.fragment ≡ record { seen = pass.old.fragment.seen; mine = []; failed_tries = 0; shares = shares; forgot = pass.old.fragment.forgot } }
    {
        let seat = self.lock.split(&mut pass.seat, shares);
        pass.shares -= shares;
        Pass { seat, shares }
    }

    /// Joins two passes into one.
    pub fn join(&self, pass: &mut Pass, other: Pass)
        requires { IsPassOf self.now pass.old × IsPassOf self.now other }
        ensures of { IsPassOf self.now pass.new }
        ensures own { IsOwn pass.new.fragment }
        ensures merged { Merged pass.old.fragment other.fragment pass.new.fragment }
    {
        let Pass { seat, shares } = other;
        self.lock.merge(&mut pass.seat, seat);
        pass.shares += shares;
    }

    /// Lets two passes tell each other what they have seen. No entry is added.
    pub fn meet(&self, pass: &mut Pass, other: Pass) -> Pass
        requires { IsPassOf self.now pass.old × IsPassOf self.now other }
        ensures of { IsPassOf self.now pass.new × IsPassOf self.now result }
        ensures own { IsOwn pass.new.fragment × IsOwn result.fragment }
        ensures met { Met pass.old other pass.new result }
    {
        let Pass { seat, shares } = other;
        let seat = self.lock.meet(&mut pass.seat, seat);
        Pass { seat, shares }
    }

    /// The same by the holder of the right to forget, who so learns all that another pass has seen.
    pub fn meet_with_right(&self, right: &mut Right, other: Pass) -> Pass
        requires { IsPassOf self.now right.old × IsPassOf self.now other }
        ensures of { IsPassOf self.now right.new × IsPassOf self.now result }
        ensures own { IsOwn right.new.fragment × IsOwn result.fragment }
        ensures met { Met right.old other right.new result }
    {
        let Pass { seat, shares } = other;
        let seat = self.lock.meet(&mut right.seat, seat);
        Pass { seat, shares }
    }

    /// Closes the router, and returns its journal. L2 if the lock is held, to which no call of this crate leads; router, pass
    /// and journal are then dropped.
    pub fn close(self, pass: Pass) -> Result<Journal, LockFault>
        requires of { IsPassOf self pass }
        requires whole { self.endless ≡ false }
        ensures closed { IfOk result (λ j. Closed self pass.fragment j) }
        ensures count { IfOk result (λ j. pass.fragment.shares ≡ ALL_SHARES → length pass.fragment.mine ≡ length j.entries) }
        ensures held { IfErr result (λ f. (f ≡ lock_fault.Held) × (pass.fragment.shares ≢ ALL_SHARES)) }
    {
        match self.lock.close(pass.seat) {
            Some(journal) => Ok(journal.into_journal()),
            None => Err(LockFault::Held),
        }
    }

    /// Closes a router, and returns its journal, which has the end of its history. L2 as with `close`.
    pub fn close_long(self, pass: Pass) -> Result<LongJournal, LockFault>
        requires { IsPassOf self pass }
        ensures closed { IfOk result (λ j. ClosedLong self pass.fragment j) }
        ensures held { IfErr result (λ f. (f ≡ lock_fault.Held) × (pass.fragment.shares ≢ ALL_SHARES)) }
    {
        let closed = self.lock.close(pass.seat);
        match closed {
            Some(journal) => Ok(journal),
            None => Err(LockFault::Held),
        }
    }
}
