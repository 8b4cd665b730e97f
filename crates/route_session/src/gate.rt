//! Gates: when a session may take its next turn.
//!
//! **That the turns were used up is said by what the gate answered**, since a contract does not see that a call was made. A gate says which answers
//! it may give at which turn, and one that says nothing may give any. Sessions are proved for every gate, so they cannot make an answer up.

use slot_lock::Answer;
use std::rt::Clock;
use std::sync::Wait;

/// Says when a session may take a turn.
///
/// A contract sees what a gate says of its answers: which of them it may give to a job at a turn. A gate that says nothing may give
/// any.
pub trait Gate {
    ghost use Rattle.std.specs.Prelude.{ℕ, Bool, ⊤};

    ghost may_answer: { Self → ℕ → ℕ → Bool → Type 0 } = { λ _ _ _ _. ⊤ };

    /// Whether a job may take this turn, both counted from 0. It is asked before each turn, and may wait before it answers. False
    /// uses up the turn.
    fn may_go<R: Wait + Clock>(&self, rt: &R, job: u32, turn: u32) -> bool
        ensures { may_answer self.now job turn result };

    /// Is told of the answer to each call of a job, before the job asks for its next turn: a reader's calls are Receives, a writer's
    /// Takes. So a gate can let a writer sleep until something is queued for it. That a gate is told is in no clause.
    fn answered<R: Wait + Clock>(&self, _rt: &R, _job: u32, _answer: &Answer) {}
}
