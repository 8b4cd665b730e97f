//! W7: metrics that mean unreachable, by the ranges that the verifier knows.
ghost use Rattle.std.specs.Prelude.{◌≡◌, IfOk};
ghost use Rattle.filter_lint.specs.Metrics as spec;

use crate::finding::found_below;
use crate::surveyed_filter::SurveyedFilter;
use crate::warning::{Warning, WarningCause};
use filter_code::Instr;
use std::alloc::{AllocError, Global};

/// Whether an instruction sets the metric.
fn sets_metric(instr: Instr) -> bool
    ensures { result ≡ spec.sets_metric instr }
{
    match instr {
        Instr::SetMetric => true,
        _ => false,
    }
}

/// What is said of the instruction of an index.
fn unreachable_at(source: &SurveyedFilter, at: usize) -> Option<Warning>
    ensures { result ≡ spec.unreachable_at source.now at }
{
    let instr = source.instr(at)?;
    let byte = source.place(at)?;
    let bounds = source.top_one(at)?;
    if sets_metric(instr) && source.size() <= bounds.low {
        Some(Warning {
            instruction: at,
            byte,
            cause: WarningCause::Unreachable(bounds),
        })
    } else {
        None
    }
}

/// What is said of all that set the metric, in the order of the code.
pub(crate) fn unreachable_metrics(
    alloc: Global,
    source: &SurveyedFilter,
) -> Result<Vec<Warning>, AllocError>
    ensures { IfOk result (λ found. found.items ≡ spec.unreachable_metrics source.now) }
{
    found_below(
        alloc,
        source.instrs().len(),
        |at| unreachable_at(source, at),
    )
}
