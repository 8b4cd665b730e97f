//! Places from which on all that any run comes to is marked: a search need not go on from there.
ghost use Rattle.std.specs.Prelude.{◌≡◌, ℕ, ◌<◌, IsTrue, Some, length, slice_get, true};
ghost use Rattle.filter_code.specs.Limits.{instruction_limit};
ghost use Rattle.filter_diff.specs.Exploring.{AreExplored, IsExplored, Leads};

use crate::mark::Mark;
use filter_code::{Code, Instr};

/// Whether a place is one of these. Not if the code has no such place.
pub(crate) fn is_explored(explored: &[bool], place: usize) -> bool
    ensures { IsTrue result → slice_get explored.now place ≡ Some true }
{
    match explored.get(place) {
        Some(is_explored) => *is_explored,
        None => false,
    }
}

/// Whether all places are that may come next after an instruction at a place.
fn are_next_explored(instr: &Instr, place: usize, explored: &[bool]) -> bool
    requires { place < instruction_limit }
    ensures { IsTrue result → (next : ℕ) → Leads instr.now place next → slice_get explored.now next ≡ Some true }
{
    match instr {
        Instr::Accept | Instr::Reject => true,
        Instr::Jump(skipped) => is_explored(explored, place + (1 + usize::from(*skipped))),
        Instr::JumpIfNot(skipped) => {
            is_explored(explored, place + 1)
                && is_explored(explored, place + (1 + usize::from(*skipped)))
        }
        _ => is_explored(explored, place + 1),
    }
}

/// Whether a place is one: its mark is full, and all places are that may come next.
fn is_explored_now(code: &Code, place: usize, marks: &[Mark], explored: &[bool]) -> bool
    requires place { place < length code.now.instrs }
    requires marks { length marks.now ≡ length code.now.instrs }
    requires explored { AreExplored code.now marks.now explored.now }
    ensures { IsTrue result → IsExplored code.now marks.now place }
{
    let instr = &code.instrs()[place];
    marks[place].is_full(instr) && are_next_explored(instr, place, explored)
}

/// Finds these places, the last first.
pub(crate) fn mark_explored(code: &Code, marks: &[Mark], explored: &mut [bool])
    requires marks { length marks.now ≡ length code.now.instrs }
    requires places { length explored.old ≡ length code.now.instrs }
    requires explored { AreExplored code.now marks.now explored.old }
    ensures { AreExplored code.now marks.now explored.new }
{
    let count = code.instrs().len();
    for step in 0..count {
        let place = count - 1 - step;
        if !explored[place] && is_explored_now(code, place, marks, explored) {
            explored[place] = true;
        }
    }
}
