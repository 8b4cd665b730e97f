//! W9: filters that do not keep the order of metrics.
//!
//! **W9 is a search of its own.** Of each class with a metric the run is compared with that of the same class with the next metric. Where the
//! order of each metric and the next is kept, that of any two is. Where a run asks for the metric each metric is a class, so W9 may be undecided
//! where the others are not; a limit of classes holds for each of both searches.
//!
//! **W9 is looked for only where it is asked for.** Where a filter asks for the metric of what a set of a thousand patterns holds, a domain of 250
//! nodes has more than a million classes for it: it would take seconds and end undecided of filters of which nothing else is to be said.
//!
//! **W9 is said once of a filter, at its first instruction.** Which command is to blame no rule can tell.
ghost use Rattle.std.specs.Prelude.{◌≡◌, Some};
ghost use Rattle.filter_lint.specs.Disorders as spec;

use crate::surveyed_filter::SurveyedFilter;
use crate::warning::{Warning, WarningCause};
use filter_diff::Order;

/// What is said of a filter, where this is found of the order of metrics, or that is not asked for. It is said where the filter's first
/// instruction comes from.
pub(crate) fn disorder_of(source: &SurveyedFilter, found: &Option<Order>) -> Option<Warning>
    ensures { result ≡ spec.disorder_of source.now found.now }
{
    match found {
        Some(found) => disorder_at(source.place(0)?, found),
        None => None,
    }
}

/// The same, at this byte.
fn disorder_at(byte: usize, found: &Order) -> Option<Warning>
    ensures { result ≡ spec.disorder_at (Some byte) found.now }
{
    match found {
        Order::Lost(shown) => Some(Warning {
            instruction: 0,
            byte,
            cause: WarningCause::Disordered(*shown),
        }),
        Order::Kept | Order::Undecided => None,
    }
}

/// Whether the search could tell what it was asked.
pub(crate) fn is_decided_order(found: &Option<Order>) -> bool
    ensures { result ≡ spec.is_decided_order found.now }
{
    match found {
        None | Some(Order::Kept | Order::Lost(_)) => true,
        Some(Order::Undecided) => false,
    }
}
