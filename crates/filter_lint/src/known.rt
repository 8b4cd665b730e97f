//! What the verifier knows of ints before an instruction.
ghost use Rattle.std.specs.Prelude.{◌≡◌, option_and_then};
ghost use Rattle.filter_verifier.specs.Sweep.{in_state_view};
ghost use Rattle.filter_lint.specs.Known as spec;
ghost use Rattle.filter_lint.specs.SurveyedFilters.{known_at};

use crate::surveyed_filter::SurveyedFilter;
use crate::warning::ValueBounds;
use filter_verifier::{Fact, InState, Range};

/// The least and the greatest value of a range.
fn bounds_of(range: Range) -> ValueBounds
    ensures { result ≡ spec.bounds_of range }
{
    ValueBounds {
        low: range.low(),
        high: range.high(),
    }
}

/// The bounds of what is known at a place, if it is an int.
fn int_at(place: &Option<Fact>) -> Option<ValueBounds>
    ensures { result ≡ spec.int_at place.now }
{
    match place {
        Some(Fact::Int(range)) => Some(bounds_of(*range)),
        _ => None,
    }
}

/// The bounds of the two ints on top of a stack, the upper one last.
fn two_of(stack: &[Option<Fact>]) -> Option<(ValueBounds, ValueBounds)>
    ensures { result ≡ spec.two_of stack.now }
{
    match stack {
        [right, left, ..] => {
            let left = int_at(left)?;
            let right = int_at(right)?;
            Some((left, right))
        }
        _ => None,
    }
}

/// The bounds of the two ints on top of the stack, the upper one last, if they are known.
fn top_two(state: &InState) -> Option<(ValueBounds, ValueBounds)>
    ensures { result ≡ spec.top_two (in_state_view state.now) }
{
    match state {
        InState::Known(frame) => two_of(frame.stack()),
        InState::Unreached | InState::UnlikeDepths => None,
    }
}

/// The bounds of the int on top of the stack, if it is known.
fn top_one(state: &InState) -> Option<ValueBounds>
    ensures { result ≡ spec.top_one (in_state_view state.now) }
{
    match state.top_int() {
        Some(range) => Some(bounds_of(range)),
        None => None,
    }
}

impl<'a> SurveyedFilter<'a> {
    /// The bounds of the two ints on top of the stack before the instruction of an index, the upper one last, if they are known.
    pub(crate) fn top_two(&self, at: usize) -> Option<(ValueBounds, ValueBounds)>
        ensures { result ≡ option_and_then spec.top_two (known_at self.now at) }
    {
        top_two(self.known(at)?)
    }

    /// The bounds of the int on top of the stack there, if it is known.
    pub(crate) fn top_one(&self, at: usize) -> Option<ValueBounds>
        ensures { result ≡ option_and_then spec.top_one (known_at self.now at) }
    {
        top_one(self.known(at)?)
    }
}
