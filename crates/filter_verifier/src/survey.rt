//! What is known before each instruction, for people who read a listing.

ghost use Rattle.std.specs.Prelude.{◌≡◌, ◌<◌, ◌≤◌, ℕ, None, Some, Err, IfErr, IfOk, MatchResult, length};
ghost use Rattle.filter_code.specs.Limits.{instruction_limit};
ghost use Rattle.filter_verifier.specs.Bounds.{cost};
ghost use Rattle.filter_verifier.specs.FirstFault.{first_fault, the_fault};
ghost use Rattle.filter_verifier.specs.InStates.{in_state};
ghost use Rattle.filter_verifier.specs.Sweep.{highest, state_at};
ghost use Rattle.filter_verifier.specs.Surveys.{reach, refused_range, surveyed};
ghost use Rattle.filter_verifier.specs.Verdicts.{IsVerdict};

use crate::bounds::budget_of;
use crate::fault::{Unverified, VerifyFault};
use crate::in_state::InState;
use crate::sweep::{entry_states, refused_int, visit};
use filter_code::{Code, LARGEST_SIZE, SMALLEST_SIZE, Stack};
use std::alloc::{AllocError, Global};

/// The bounds of a run of code that is verified.
#[derive(Clone, Copy)]
pub struct RunBounds {
    /// The most instructions that it executes, including the one that accepts or rejects.
    pub budget: u32,
    /// The most values on its stack.
    pub depth: u32,
}

/// What the verifier knows of a code.
#[derive(Drop)]
pub struct Survey {
    /// What is known before each instruction, in order, as far as the sweep comes: one that is refused is the last.
    pub in_states: Vec<InState>,
    /// The bounds that `verify` finds, or why it refuses the code.
    pub verdict: Result<RunBounds, Unverified>,
}

/// The survey of code of which no instruction is visited.
fn unvisited(alloc: Global, fault: VerifyFault) -> Survey
    ensures visited { length result.in_states.items ≡ 0 }
    ensures verdict { result.verdict ≡ Err (record { fault = fault; range = None }) }
{
    Survey {
        in_states: Vec::new(alloc),
        verdict: Err(Unverified { fault, range: None }),
    }
}

/// The survey of code that has instructions, whatever the size.
fn survey_instructions(alloc: Global, code: &Code, size: u32) -> Result<Survey, AllocError>
    requires { 0 < length code.now.instrs }
    ensures known { IfOk result (λ s. (k : ℕ) → k < length s.in_states.items → state_at s.in_states.items k ≡ in_state code.now size k) }
    ensures verdict { IfOk result (λ s. MatchResult s.verdict
        (λ b. (first_fault code.now size (length code.now.instrs) ≡ None) × (b.budget ≡ cost code.now.instrs 0)
        × (b.depth ≡ highest code.now size (length code.now.instrs)))
        (λ e. first_fault code.now size (length code.now.instrs) ≡ Some e.fault)) }
    ensures range { IfOk result (λ s. IfErr s.verdict (λ e. e.range ≡ refused_range code.now size e.fault)) }
    ensures reach { IfOk result (λ s. length s.in_states.items
        ≡ reach code.now (first_fault code.now size (length code.now.instrs))) }
{
    let mut waiting = entry_states(alloc, code)?;
    let mut in_states = Vec::new(alloc);
    let mut stack = Stack::new();
    let mut depth = 0;
    for at in 0..code.instrs().len() {
        depth = depth.max(waiting[at].height());
        in_states.push(waiting[at].copy(alloc)?)?;
        let top = waiting[at].top_int();
        if let Some(fault) = visit(alloc, code, size, at, &mut waiting, &mut stack)? {
            let range = refused_int(fault, top);
            return Ok(Survey {
                in_states,
                verdict: Err(Unverified { fault, range }),
            });
        }
    }
    let budget = budget_of(alloc, code.instrs())?;
    Ok(Survey {
        in_states,
        verdict: Ok(RunBounds { budget, depth }),
    })
}

/// What `verify` knows before each instruction of a code, in domains of a size, up to the first that it refuses, and what it says of the
/// code.
pub fn survey_code(alloc: Global, code: &Code, size: u32) -> Result<Survey, AllocError>
    ensures known { IfOk result (λ s. (k : ℕ) → k < length s.in_states.items → state_at s.in_states.items k ≡ in_state code.now size k) }
    ensures verdict { IfOk result (λ s. IsVerdict code.now size s.verdict) }
    ensures reach { IfOk result (λ s. length s.in_states.items ≡ surveyed code.now size (the_fault code.now size)) }
{
    if size < SMALLEST_SIZE || LARGEST_SIZE < size {
        return Ok(unvisited(alloc, VerifyFault::BadSize));
    }
    if code.instrs().is_empty() {
        return Ok(unvisited(alloc, VerifyFault::OutsideCode(0)));
    }
    survey_instructions(alloc, code, size)
}
