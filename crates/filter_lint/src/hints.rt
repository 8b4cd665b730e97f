//! What is said of a filter's code as it stands, without a run of it.
//!
//! **W3 and W7 go by the verifier's ranges**, which no condition narrows, so they are hints. To narrow them would be a second analysis, with a
//! proof.
ghost use Rattle.std.specs.Prelude.{◌≡◌, ◌++◌, OnOk};
ghost use Rattle.filter_lint.specs.Hints as spec;

use crate::arithmetic::wrapping_operations;
use crate::metrics::unreachable_metrics;
use crate::sets::overlapping_members;
use crate::surveyed_filter::SurveyedFilter;
use crate::variables::unread_variables;
use crate::warning::Warning;
use std::alloc::{AllocError, Global};

/// Puts what is said of a filter's code as it stands at the end of `out`.
pub(crate) fn push_hints(
    alloc: Global,
    out: &mut Vec<Warning>,
    source: &SurveyedFilter,
) -> Result<(), AllocError>
    ensures { OnOk result (out.new.items ≡ out.old.items ++ spec.hints source.now) }
{
    let wrapping = wrapping_operations(alloc, source)?;
    let overlapping = overlapping_members(alloc, source)?;
    let unread = unread_variables(alloc, source)?;
    let unreachable = unreachable_metrics(alloc, source)?;
    out.extend_from_slice(wrapping.as_slice())?;
    out.extend_from_slice(overlapping.as_slice())?;
    out.extend_from_slice(unread.as_slice())?;
    out.extend_from_slice(unreachable.as_slice())
}
