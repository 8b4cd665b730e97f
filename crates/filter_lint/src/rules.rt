//! All rules, one after another.
//!
//! **Each rule is an exact definition, and what it says is proved beside it.** That nothing true is left out and nothing else is said are two
//! questions: the definitions in `specs/` answer the first, and `specs/Truths.antt` the second, in terms of runs and not of marks.
//!
//! **W1, W2 and W8 are said only where all routes were tried.** A route that was not tried may come to a command, and a warning that is not true is
//! worse than none.
ghost use Rattle.std.specs.Prelude.{◌≡◌, ◌≤◌, All, IfOk, IfSome, is_some, true};
ghost use Rattle.filter_code.specs.Limits.{largest_size};
ghost use Rattle.filter_diff.specs.Ordering.{IsOrderOf};
ghost use Rattle.filter_diff.specs.Parts.{IsEnough};
ghost use Rattle.filter_diff.specs.Reaching.{NeverFaults};
ghost use Rattle.filter_lint.specs.Disorders.{is_decided_order as is_decided_of};
ghost use Rattle.filter_lint.specs.Rules as spec;
ghost use Rattle.filter_lint.specs.Truths.{IsTrueOf};

use crate::commands::unreached_commands;
use crate::conditions::constant_conditions;
use crate::disorders::{disorder_of, is_decided_order};
use crate::finding::push_found;
use crate::hints::push_hints;
use crate::lowering::metrics_not_lowered;
use crate::surveyed_filter::SurveyedFilter;
use crate::warning::Warning;
use crate::watching::watched_places;
use filter_diff::{Mark, Order, Reach, check_order, reach};
use std::alloc::{AllocError, Global};

/// The warnings of a filter.
#[derive(Drop)]
pub(crate) struct Warnings {
    /// The warnings: rule by rule, and those of each in the order of the code.
    pub(crate) found: Vec<Warning>,
    /// Whether all routes were tried, so that the rules on routes were looked for.
    pub(crate) is_complete: bool,
    /// Whether all metrics of all routes were tried, or two were found whose order is not kept, where that was asked for.
    pub(crate) is_ordered: bool,
}

/// What is said where all routes were tried.
fn on_routes(
    alloc: Global,
    source: &SurveyedFilter,
    marks: &[Mark],
) -> Result<Vec<Warning>, AllocError>
    ensures { IfOk result (λ found. found.items ≡ spec.on_routes source.now marks.now) }
{
    let mut found = constant_conditions(alloc, source, marks)?;
    let commands = unreached_commands(alloc, source, marks)?;
    let metrics = metrics_not_lowered(alloc, source, marks)?;
    found.extend_from_slice(commands.as_slice())?;
    found.extend_from_slice(metrics.as_slice())?;
    Ok(found)
}

/// What is said where the routes were tried: nothing if these were not all.
fn said_on_routes(
    alloc: Global,
    source: &SurveyedFilter,
    reached: &Reach,
) -> Result<Vec<Warning>, AllocError>
    ensures { IfOk result (λ found. found.items ≡ spec.said_on_routes source.now reached.now) }
{
    if !reached.is_complete {
        return Ok(Vec::new(alloc));
    }
    on_routes(alloc, source, reached.marks.as_slice())
}

/// All that is said of a filter's code, where this is found of the instructions that runs come to, and of the order of
/// metrics, if that is asked for.
fn said_of(
    alloc: Global,
    source: &SurveyedFilter,
    reached: &Reach,
    order: &Option<Order>,
) -> Result<Vec<Warning>, AllocError>
    ensures { IfOk result (λ found. found.items ≡ spec.said_of source.now reached.now order.now) }
{
    let mut found = said_on_routes(alloc, source, reached)?;
    push_found(&mut found, &disorder_of(source, order))?;
    push_hints(alloc, &mut found, source)?;
    Ok(found)
}

/// What is found of the order of metrics, where it is asked for.
fn order_of(
    alloc: Global,
    source: &SurveyedFilter,
    limit: u64,
    asks_order: bool,
) -> Result<Option<Order>, AllocError>
    requires { source.now.size ≤ largest_size }
    ensures asked { IfOk result (λ order. is_some order ≡ asks_order) }
    ensures found { IfOk result (λ order. IfSome order (IsOrderOf source.now.program source.now.size)) }
    ensures decided { IsEnough source.now.size limit → IfOk result (λ order. is_decided_of order ≡ true) }
{
    if !asks_order {
        return Ok(None);
    }
    let order = check_order(alloc, source.code(), source.size(), limit)?;
    Ok(Some(order))
}

/// The warnings of a filter. At most so many classes of routes are tried as the limit says. Whether the order of metrics is kept is looked for only
/// where it is asked for.
pub(crate) fn find_warnings(
    alloc: Global,
    source: &SurveyedFilter,
    limit: u64,
    asks_order: bool,
) -> Result<Warnings, AllocError>
    requires { source.now.size ≤ largest_size }
    ensures found { IfOk result (spec.AreFound source.now.program source.now.text source.now.places source.now.size asks_order) }
    ensures sound { IfOk result (λ all. All (IsTrueOf source.now.program source.now.size source.now.places) all.found.items) }
    ensures decided { IsEnough source.now.size limit → NeverFaults source.now.program source.now.size → IfOk result (λ all. all.is_complete ≡ true) }
    ensures ordered { IsEnough source.now.size limit → IfOk result (λ all. all.is_ordered ≡ true) }
{
    let watched = watched_places(alloc, source)?;
    let reached = reach(
        alloc,
        source.code(),
        source.size(),
        limit,
        watched.as_slice(),
    )?;
    let order = order_of(alloc, source, limit, asks_order)?;
    let found = said_of(alloc, source, &reached, &order)?;
    Ok(Warnings {
        found,
        is_complete: reached.is_complete,
        is_ordered: is_decided_order(&order),
    })
}
