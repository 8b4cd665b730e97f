//! The assignments of the metric of which the search is asked whether they would lower it: those of which the verifier does not know
//! that the value is at least the metric received.
ghost use Rattle.std.specs.Prelude.{◌≡◌, IfOk};
ghost use Rattle.filter_verifier.specs.Sweep.{in_state_view};
ghost use Rattle.filter_lint.specs.SurveyedFilters.{known_at};
ghost use Rattle.filter_lint.specs.Watching as spec;

use crate::surveyed_filter::SurveyedFilter;
use filter_code::Instr;
use filter_verifier::{Fact, InState};
use std::alloc::{AllocError, Global};

/// Whether what is known at a place is an int that is at least the metric received.
fn is_least(place: &Option<Fact>) -> bool
    ensures { result ≡ spec.is_least place.now }
{
    match place {
        Some(Fact::Int(range)) => range.is_at_least_received(),
        _ => false,
    }
}

/// Whether this is known of what is below the top.
fn is_least_below(stack: &[Option<Fact>]) -> bool
    ensures { result ≡ spec.is_least_below stack.now }
{
    match stack {
        [_, value, ..] => is_least(value),
        _ => false,
    }
}

/// Whether it is known before an instruction.
fn is_known(state: &InState) -> bool
    ensures { result ≡ spec.is_known (in_state_view state.now) }
{
    match state {
        InState::Known(frame) => is_least_below(frame.stack()),
        InState::Unreached | InState::UnlikeDepths => false,
    }
}

/// Whether it is not known before the instruction of an index.
fn is_open(source: &SurveyedFilter, at: usize) -> bool
    ensures { result ≡ spec.is_open (known_at source.now at) }
{
    match source.known(at) {
        Some(state) => !is_known(state),
        None => true,
    }
}

/// Whether the instruction of an index is a MAX of which the search is asked.
fn is_watched(source: &SurveyedFilter, at: usize) -> bool
    ensures { result ≡ spec.is_watched source.now at }
{
    match source.instr(at) {
        Some(Instr::Max) => is_open(source, at),
        _ => false,
    }
}

/// Whether each instruction is one.
pub(crate) fn watched_places(
    alloc: Global,
    source: &SurveyedFilter,
) -> Result<Vec<bool>, AllocError>
    ensures { IfOk result (λ watched. watched.items ≡ spec.watched_places source.now) }
{
    let mut watched = Vec::new(alloc);
    for at in 0..source.instrs().len() {
        watched.push(is_watched(source, at))?;
    }
    Ok(watched)
}
