//! What the reader and the writer of a session share.

use route_session::Gate;
use slot_lock::Answer;
use std::rt::Clock;
use std::sync::Wait;

/// The number by which a gate knows the job that reads.
pub const READER: u32 = 0;

/// The number by which it knows the job that writes.
pub(crate) const WRITER: u32 = 1;

/// What is left of a guard that has ended its session: it serves the session no more.
///
/// A contract sees what it says of the answer to a Down: a caller has that only by notifying it of the answer.
pub trait EndedGuard {
    ghost use Rattle.std.specs.Prelude.{⊤};
    ghost use Rattle.slot_lock.specs.declared.answer.Answer.{Answer as Told};

    // Somebody notified it of this answer to a Down.
    ghost is_notified: { Told → Type 0 } = { λ _. ⊤ };

    /// Notifies it that the caller entered Down, and got this answer.
    fn ended<R: Wait + Clock>(&mut self, rt: &R, answer: &Answer)
        ensures { is_notified answer.now };
}

/// The reader and the writer of a session have one each: by it they agree whether the session is there, and which of them ends it. Its gate
/// lets the writer sleep while nothing waits for the neighbour, and gives neither of them a turn once the session is over.
///
/// A contract sees what a guard says of its answers, as it does of a gate. A guard that says nothing may give any.
pub trait SessionGuard: Gate {
    ghost use Rattle.std.specs.Prelude.{Bool, ⊤};

    // What it may answer to `is_present`.
    ghost may_be_present: { Self → Bool → Type 0 } = { λ _ _. ⊤ };

    // And to `end`: whether the caller is the first to end the session.
    ghost may_be_first: { Self → Bool → Type 0 } = { λ _ _. ⊤ };

    /// What is left of it after `end`.
    type EndedGuard: EndedGuard + Drop;

    /// Whether the session is still there.
    fn is_present<R: Wait + Clock>(&self, rt: &R) -> bool
        ensures { may_be_present self.now result };

    /// Whether the writer owes the neighbour an empty line, since it wrote nothing for a while. From then on the guard counts the line as written.
    fn owes_line<R: Wait + Clock>(&self, rt: &R) -> bool;

    /// Ends the session. Only the first caller gets `true`, and must enter Down. The guard is used up, so nobody ends a session twice by it or serves
    /// the session afterwards.
    fn end<R: Wait + Clock>(self, rt: &R) -> (bool, Self::EndedGuard)
        ensures { may_be_first self result.0 };
}
