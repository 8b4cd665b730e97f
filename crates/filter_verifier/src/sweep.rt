//! The sweep over a code: it visits each instruction once, in order, and propagates what is known to the successors.
//!
//! **What is known at an instruction is the join of what all its predecessors propagate, at once and in no order.** The verifier joins in pairs, as
//! it carries frames forward in one sweep. That this gives the same is proved.
//!
//! **A sweep moves what it knows on.** What is known before an instruction is taken out when that instruction is visited, changed in place and
//! handed to the successors, so that most visits ask for no memory and copy nothing; one stack of 32 operands serves the whole sweep. `list`, which
//! shows what is known before each instruction, keeps copies.
//!
//! **The depth comes from the sweep.** The greatest number of operands that any instruction leaves is the depth of the text; a lemma says so. The
//! budget is counted from the end of the code.

ghost use Rattle.std.specs.Prelude.{◌≡◌, ◌⊎◌, ◌<◌, ◌≤◌, ◌==◌, ◌≢◌, ℕ, true, None, Some, IfErr, IfOk, MatchResult};
ghost use Rattle.std.specs.Prelude.{length, slice_get, [], if◌then◌else◌};
ghost use Rattle.filter_code.specs.Limits.{stack_limit};
ghost use Rattle.filter_verifier.specs.declared.fault.VerifyFault.TheVariants as refusal;
ghost use Rattle.filter_verifier.specs.FirstFault.{first_fault, refused_by};
ghost use Rattle.filter_verifier.specs.InStateView.{InStateView, Known, Unreached};
ghost use Rattle.filter_verifier.specs.InStates.{propagated};
ghost use Rattle.filter_verifier.specs.OutStateView.{Passed};
ghost use Rattle.filter_verifier.specs.PairwiseJoin.{join_two_states};
ghost use Rattle.filter_verifier.specs.Sweep.{as_in_state, entry_state, highest, in_state_view, offsets, state_at};
ghost use Rattle.filter_verifier.specs.Surveys.{refused_int, refused_range, top_int};
ghost use Rattle.filter_verifier.specs.Transfer.{leads_below, leads_to, out_state};

use crate::abstract_frame::AbstractFrame;
use crate::fact::Fact;
use crate::fault::{Unverified, VerifyFault};
use crate::in_state::InState;
use crate::out_state::{OutState, out_state};
use crate::range::Range;
use crate::successors::Successors;
use filter_code::{Code, Stack};
use std::alloc::{AllocError, Global};
use std::mem::replace;

/// The in-states before the sweep: only the first instruction is reached.
pub(crate) fn entry_states(alloc: Global, code: &Code) -> Result<Vec<InState>, AllocError>
    requires { 0 < length code.now.instrs }
    ensures wide { IfOk result (λ v. length v.items ≡ length code.now.instrs) }
    ensures entry { IfOk result (λ v. (k : ℕ) → state_at v.items k ≡ entry_state code.now k) }
{
    let count = code.instrs().len();
    let mut in_states = Vec::with_capacity(alloc, count)?;
    in_states.push(InState::Known(AbstractFrame::at_entry(alloc, code.locals())?))?;
    for _ in 1..count {
        in_states.push(InState::Unreached)?;
    }
    Ok(in_states)
}

/// Joins a frame into the in-state of one instruction.
fn join_into(
    alloc: Global,
    in_states: &mut Vec<InState>,
    target: usize,
    next: AbstractFrame,
) -> Result<(), AllocError>
    requires { target < length in_states.old.items }
    ensures wide { IfOk result (λ _. length in_states.new.items ≡ length in_states.old.items) }
    ensures joined { IfOk result (λ _. (k : ℕ) → state_at in_states.new.items k
        ≡ (if target == k
        then join_two_states (state_at in_states.old.items k) (Known next)
        else state_at in_states.old.items k)) }
{
    let joined = in_states[target].join(alloc, next)?;
    in_states[target] = joined;
    Ok(())
}

/// Propagates a frame to the successors of the instruction at an index.
fn propagate(
    alloc: Global,
    in_states: &mut Vec<InState>,
    at: usize,
    successors: Successors,
    next: AbstractFrame,
) -> Result<(), AllocError>
    requires { leads_below at (length in_states.old.items) (offsets successors) ≡ true }
    ensures wide { IfOk result (λ _. length in_states.new.items ≡ length in_states.old.items) }
    ensures propagated { IfOk result (λ _. (k : ℕ) → state_at in_states.new.items k
        ≡ join_two_states (state_at in_states.old.items k)
        (if leads_to at k (offsets successors) then Known next else Unreached)) }
{
    match successors {
        Successors::Nowhere => Ok(()),
        Successors::One(offset) => join_into(alloc, in_states, at + offset, next),
        Successors::Either(a, b) => {
            if a != b {
                join_into(alloc, in_states, at + b, next.copy(alloc)?)?;
            }
            join_into(alloc, in_states, at + a, next)
        }
    }
}

/// Visits one instruction. The fault of the first test that fails there. What was known before it is not kept, and a stack that is empty
/// between two visits holds its operands meanwhile.
pub(crate) fn visit(
    alloc: Global,
    code: &Code,
    size: u32,
    at: usize,
    in_states: &mut Vec<InState>,
    stack: &mut Stack<Fact>,
) -> Result<Option<VerifyFault>, AllocError>
    requires inside { at < length code.now.instrs }
    requires wide { length in_states.old.items ≡ length code.now.instrs }
    requires empty { stack.old ≡ [] }
    ensures wide { IfOk result (λ _. length in_states.new.items ≡ length in_states.old.items) }
    ensures refused { IfOk result (λ found. found ≡ refused_by (out_state code.now size at (state_at in_states.old.items at))) }
    ensures propagated { IfOk result (λ _. (k : ℕ) → at < k → state_at in_states.new.items k
        ≡ join_two_states (state_at in_states.old.items k)
        (as_in_state (propagated code.now at (out_state code.now size at (state_at in_states.old.items at)) k))) }
    ensures emptied { IfOk result (λ found. found ≡ None → stack.new ≡ []) }
{
    let in_state = replace(&mut in_states[at], InState::Unreached);
    match out_state(code, size, at, in_state, stack)? {
        OutState::Skipped => Ok(None),
        OutState::Refused(fault) => Ok(Some(fault)),
        OutState::Passed(next) => {
            propagate(
                alloc,
                in_states,
                at,
                Successors::of(code.instrs()[at]),
                next,
            )?;
            Ok(None)
        }
    }
}

/// The range of the int that is refused, by that of the int on top of the stack before the instruction, if one was known there.
pub(crate) fn refused_int(fault: VerifyFault, top: Option<Range>) -> Option<Range>
    ensures { (known : InStateView) → top ≡ top_int known → result ≡ refused_int fault known }
{
    match fault {
        VerifyFault::ZeroDivisor(_) | VerifyFault::LowerMetric(_) => top,
        _ => None,
    }
}

/// Visits each instruction in order. The greatest depth of a stack, or the first fault.
pub(crate) fn analyze(alloc: Global, code: &Code, size: u32) -> Result<u32, Unverified>
    requires { 0 < length code.now.instrs }
    ensures outcome { MatchResult result
        (λ depth. (first_fault code.now size (length code.now.instrs) ≡ None)
        × (depth ≡ highest code.now size (length code.now.instrs)))
        (λ e. (e.fault ≡ refusal.Memory) ⊎ (first_fault code.now size (length code.now.instrs) ≡ Some e.fault)) }
    ensures range { IfErr result (λ e. e.range ≡ refused_range code.now size e.fault) }
    ensures limit { IfOk result (λ depth. depth ≤ stack_limit) }
    ensures not_the_size { IfErr result (λ e. e.fault ≢ refusal.BadSize) }
{
    let mut in_states = entry_states(alloc, code)?;
    let mut stack = Stack::new();
    let mut depth = 0;
    for at in 0..code.instrs().len() {
        depth = depth.max(in_states[at].height());
        let top = in_states[at].top_int();
        if let Some(fault) = visit(alloc, code, size, at, &mut in_states, &mut stack)? {
            let range = refused_int(fault, top);
            return Err(Unverified { fault, range });
        }
    }
    Ok(depth)
}
