//! What is known after an instruction ran.

ghost use Rattle.std.specs.Prelude.{◌≡◌, ◌<◌, [], None, IfOk, length, slice_get};
ghost use Rattle.filter_verifier.specs.Faults.{refusal_of};
ghost use Rattle.filter_verifier.specs.FirstFault.{refused_by};
ghost use Rattle.filter_verifier.specs.InStateView.{Known};
ghost use Rattle.filter_verifier.specs.Sweep.{in_state_view, out_state_view};
ghost use Rattle.filter_verifier.specs.Transfer.{out_state, out_state_of_known};

use crate::abstract_frame::{AbstractFrame, fill, refilled};
use crate::fact::Fact;
use crate::fault::VerifyFault;
use crate::in_state::InState;
use crate::successors::Successors;
use crate::transfer::transfer;
use filter_code::{Code, FaultKind, Stack};
use std::alloc::AllocError;

/// The result of a visit to an instruction.
#[derive(Drop)]
pub enum OutState {
    /// No path leads here, so nothing is tested.
    Skipped,
    /// A test failed.
    Refused(VerifyFault),
    /// All tests passed, and this is known at each successor.
    Passed(AbstractFrame),
}

/// The refusal of code that may fault at an instruction.
fn refusal_of(why: FaultKind, at: usize) -> VerifyFault
    ensures { result ≡ refusal_of why at }
{
    match why {
        FaultKind::MissingOperand => VerifyFault::MissingOperand(at),
        FaultKind::WrongKind => VerifyFault::WrongKind(at),
        FaultKind::ZeroDivisor => VerifyFault::ZeroDivisor(at),
        FaultKind::OutsideCode => VerifyFault::OutsideCode(at),
        FaultKind::FullStack => VerifyFault::FullStack(at),
        FaultKind::LowerMetric => VerifyFault::LowerMetric(at),
        FaultKind::UnknownName => VerifyFault::UnknownName(at),
    }
}

/// The out-state of an instruction, where each place of the stack is known. Its facts are on a stack, and go back to the places.
fn out_state_of_known(
    code: &Code,
    size: u32,
    at: usize,
    stack: &mut Stack<Fact>,
    places: Vec<Option<Fact>>,
    locals: Vec<Option<Fact>>,
) -> Result<OutState, AllocError>
    requires { at < length code.now.instrs }
    ensures is { IfOk result (λ s. out_state_view s
        ≡ out_state_of_known code.now size at locals.items stack.old (slice_get code.now.instrs at)) }
    ensures emptied { IfOk result (λ s. refused_by (out_state_view s) ≡ None → stack.new ≡ []) }
{
    let instrs = code.instrs();
    let mut locals = locals;
    if let Err(why) = transfer(instrs[at], size, code, stack, &mut locals) {
        return Ok(OutState::Refused(refusal_of(why, at)));
    }
    if !Successors::of(instrs[at]).are_below(at, instrs.len()) {
        return Ok(OutState::Refused(VerifyFault::OutsideCode(at)));
    }
    let places = refilled(places, stack)?;
    Ok(OutState::Passed(AbstractFrame::of_parts(places, locals)))
}

/// The out-state of an instruction that a path leads to.
fn out_state_of_frame(
    code: &Code,
    size: u32,
    at: usize,
    frame: AbstractFrame,
    stack: &mut Stack<Fact>,
) -> Result<OutState, AllocError>
    requires inside { at < length code.now.instrs }
    requires empty { stack.old ≡ [] }
    ensures is { IfOk result (λ s. out_state_view s ≡ out_state code.now size at (Known frame)) }
    ensures emptied { IfOk result (λ s. refused_by (out_state_view s) ≡ None → stack.new ≡ []) }
{
    let (places, locals) = frame.into_parts();
    if fill(stack, &places) {
        out_state_of_known(code, size, at, stack, places, locals)
    } else {
        Ok(OutState::Refused(VerifyFault::WrongKind(at)))
    }
}

/// The out-state of the instruction at an index, from its in-state. The operands are on an empty stack meanwhile, which is empty again
/// unless the instruction is refused: one stack serves a whole sweep, and what an in-state holds becomes what the out-state holds.
pub(crate) fn out_state(
    code: &Code,
    size: u32,
    at: usize,
    in_state: InState,
    stack: &mut Stack<Fact>,
) -> Result<OutState, AllocError>
    requires inside { at < length code.now.instrs }
    requires empty { stack.old ≡ [] }
    ensures is { IfOk result (λ s. out_state_view s ≡ out_state code.now size at (in_state_view in_state)) }
    ensures emptied { IfOk result (λ s. refused_by (out_state_view s) ≡ None → stack.new ≡ []) }
{
    match in_state {
        InState::Unreached => Ok(OutState::Skipped),
        InState::UnlikeDepths => Ok(OutState::Refused(VerifyFault::UnlikeDepths(at))),
        InState::Known(frame) => out_state_of_frame(code, size, at, frame, stack),
    }
}
