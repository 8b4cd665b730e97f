//! What is known before an instruction runs.

ghost use Rattle.std.specs.Prelude.{◌≡◌, ◌≤◌, IfOk};
ghost use Rattle.filter_code.specs.Limits.{stack_limit};
ghost use Rattle.filter_verifier.specs.InStateView.{Known};
ghost use Rattle.filter_verifier.specs.PairwiseJoin.{join_two_states};
ghost use Rattle.filter_verifier.specs.Sweep.{height_of, in_state_view};
ghost use Rattle.filter_verifier.specs.Surveys.{top_int};

use crate::abstract_frame::AbstractFrame;
use crate::range::Range;
use std::alloc::{AllocError, Global};

/// The join of all that was propagated to an instruction.
#[derive(Drop)]
pub enum InState {
    /// No path leads here.
    Unreached,
    /// Paths meet here whose stacks differ in depth.
    UnlikeDepths,
    /// What is known of the stack and of the local variables.
    Known(AbstractFrame),
}

impl InState {
    /// The depth of the stack; 0 where it is not known.
    pub fn height(&self) -> u32
        ensures value { result ≡ height_of (in_state_view self.now) }
        ensures limit { result ≤ stack_limit }
    {
        match self {
            InState::Known(frame) => frame.height(),
            InState::Unreached | InState::UnlikeDepths => 0,
        }
    }

    /// The range of the int on top of the stack, if one is known there.
    pub fn top_int(&self) -> Option<Range>
        ensures { result ≡ top_int (in_state_view self.now) }
    {
        match self {
            InState::Known(frame) => frame.top_int(),
            InState::Unreached | InState::UnlikeDepths => None,
        }
    }

    /// A copy of the in-state.
    pub fn copy(&self, alloc: Global) -> Result<InState, AllocError>
        ensures { IfOk result (λ s. in_state_view s ≡ in_state_view self.now) }
    {
        match self {
            InState::Unreached => Ok(InState::Unreached),
            InState::UnlikeDepths => Ok(InState::UnlikeDepths),
            InState::Known(frame) => Ok(InState::Known(frame.copy(alloc)?)),
        }
    }

    /// The join with one more frame, which is kept as it is if no other path has led here.
    pub fn join(&self, alloc: Global, next: AbstractFrame) -> Result<InState, AllocError>
        ensures { IfOk result (λ s. in_state_view s ≡ join_two_states (in_state_view self.now) (Known next)) }
    {
        match self {
            InState::Unreached => Ok(InState::Known(next)),
            InState::UnlikeDepths => Ok(InState::UnlikeDepths),
            InState::Known(frame) => join_known(alloc, frame, &next),
        }
    }
}

/// The join of two frames.
fn join_known(
    alloc: Global,
    frame: &AbstractFrame,
    next: &AbstractFrame,
) -> Result<InState, AllocError>
    ensures { IfOk result (λ s. in_state_view s ≡ join_two_states (Known frame.now) (Known next.now)) }
{
    if frame.height() != next.height() {
        return Ok(InState::UnlikeDepths);
    }
    Ok(InState::Known(frame.join(alloc, next)?))
}
