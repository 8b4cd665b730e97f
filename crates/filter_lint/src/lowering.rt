//! W8: assignments that would lower the metric. The code of an assignment takes the greater of the value and the metric received, by a MAX.
ghost use Rattle.std.specs.Prelude.{◌≡◌, IfOk};
ghost use Rattle.filter_lint.specs.Lowering as spec;

use crate::finding::found_below;
use crate::surveyed_filter::SurveyedFilter;
use crate::warning::{Warning, WarningCause};
use filter_diff::Mark;
use std::alloc::{AllocError, Global};

/// What is said of a MAX that comes from a byte of the text, where its instruction has this index and this mark.
fn not_lowered(at: usize, byte: usize, mark: &Mark) -> Option<Warning>
    ensures { result ≡ spec.not_lowered at byte mark.now }
{
    if !mark.is_raised {
        return None;
    }
    Some(Warning {
        instruction: at,
        byte,
        cause: WarningCause::NotLowered,
    })
}

/// What is said of the instruction of an index.
fn not_lowered_at(source: &SurveyedFilter, marks: &[Mark], at: usize) -> Option<Warning>
    ensures { result ≡ spec.not_lowered_at source.now marks.now at }
{
    let byte = source.place(at)?;
    match marks.get(at) {
        Some(mark) => not_lowered(at, byte, mark),
        None => None,
    }
}

/// What is said of all assignments of the metric, in the order of the code.
pub(crate) fn metrics_not_lowered(
    alloc: Global,
    source: &SurveyedFilter,
    marks: &[Mark],
) -> Result<Vec<Warning>, AllocError>
    ensures { IfOk result (λ found. found.items ≡ spec.metrics_not_lowered source.now marks.now) }
{
    found_below(
        alloc,
        source.instrs().len(),
        |at| not_lowered_at(source, marks, at),
    )
}
