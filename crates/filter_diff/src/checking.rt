//! The search for a route on which a code does not end as is expected.
ghost use Rattle.std.specs.Prelude.{◌≡◌, ◌≢◌, ◌&&◌, ◌+◌, ◌≤◌, ◌⊎◌, All, IfOk, IfSome, IsTrue, None, OnOk, Some, false, length, nat_le, true, vec_len};
ghost use Rattle.prefix_patterns.specs.Matching.{matches};
ghost use Rattle.filter_code.specs.Limits.{largest_size, smallest_size};
ghost use Rattle.filter_code.specs.RouteView.{RouteView};
ghost use Rattle.filter_diff.specs.Classes.{Always, IsKnown, IsOf, IsOfSize};
ghost use Rattle.filter_diff.specs.Endings.{outcome_at};
ghost use Rattle.filter_diff.specs.Expectations.{IsFoundOf, IsMetAt, IsMissedAt, IsShown};
ghost use Rattle.filter_diff.specs.Meeting.{EndsAs, SaysMet, Throughout};
ghost use Rattle.filter_diff.specs.Parts.{IsEnough, IsIn};
ghost use Rattle.filter_diff.specs.Searches.{IsLeft, IsWhole, is_asking, most_tried, most_tried_of};
ghost use Rattle.filter_diff.specs.declared.checking.ExpectationResult.TheVariants as checked;

use crate::class::Class;
use crate::comparison::all_classes;
use crate::ending::RunEnding;
use crate::expectation::{Expectation, outcome_of};
use crate::found::Found;
use crate::search::{endings, outcomes, split};
use crate::trials::trial;
use crate::turn::Turn;
use filter_code::{Code, Outcome, Route, run_checked};
use prefix_patterns::{Pattern, Prefix};
use std::alloc::{AllocError, Global};

/// A route on which a code does not end as is expected.
#[derive(Clone, Copy)]
pub struct Counterexample {
    /// The prefix.
    pub prefix: Prefix,
    /// The metric received.
    pub metric: u32,
    /// How the run ends.
    pub outcome: Outcome,
}

/// What is found of an expectation.
#[derive(Clone, Copy)]
pub enum ExpectationResult {
    /// The runs on all of its routes end so.
    Holds,
    /// The run on this one of its routes ends otherwise.
    Fails(Counterexample),
    /// The search ended before it could tell.
    Undecided,
}

/// Whether the prefixes of a class match a pattern, if they all do or none does.
fn matched(class: &Class, pattern: &Pattern) -> Option<bool>
    ensures matched { IfSome result (λ r. Always class.now (λ route. matches route.net pattern.now ≡ r)) }
    ensures decided { length class.now.known ≡ class.now.len → result ≢ None }
{
    if class.known.len() == class.len {
        return Some(pattern.matches(&class.known));
    }
    class.matches(pattern)
}

/// Whether the run on the one route whose bits and whose metric are known ends so.
fn ends_on_route(code: &Code, class: &Class, metric: u32, ending: RunEnding) -> Found
    requires known { class.now.metric ≡ Some metric }
    requires whole { length class.now.known ≡ class.now.len }
    ensures said { EndsAs code.now class.now ending result }
    ensures decided { smallest_size ≤ class.now.size → class.now.size ≤ largest_size → metric ≤ class.now.size → is_asking result ≡ false }
{
    match Route::new(class.known, metric, class.size) {
        Some(route) => outcomes(run_checked(code, &route), outcome_of(ending, metric)),
        None => Found::AsksBits,
    }
}

/// An ending on routes with this metric, where it is known.
fn known_ending(ending: RunEnding, metric: Option<u32>) -> RunEnding
    ensures { (route : RouteView) → IsKnown metric route.metric → outcome_at route result ≡ outcome_at route ending }
{
    match metric {
        Some(metric) => RunEnding::Fixed(outcome_of(ending, metric)),
        None => ending,
    }
}

/// Whether the runs on all routes of a class end so.
fn ends_on_class(code: &Code, class: &Class, ending: RunEnding) -> Found
    ensures { EndsAs code.now class.now ending result }
{
    match trial(code, class) {
        Turn::Ended(found) => endings(found, known_ending(ending, class.metric)),
        Turn::AsksMetric => Found::AsksMetric,
        _ => Found::AsksBits,
    }
}

/// What is found of a class, whether all is known of its routes or not.
fn ends(code: &Code, class: &Class, ending: RunEnding) -> Found
    requires small { class.now.size ≤ 250 }
    requires real { IsOfSize class.now.size class.now }
    ensures said { EndsAs code.now class.now ending result }
    ensures decided { smallest_size ≤ class.now.size → IsWhole class.now → is_asking result ≡ false }
{
    match class.metric {
        Some(metric) if class.known.len() == class.len => {
            ends_on_route(code, class, metric, ending)
        }
        _ => ends_on_class(code, class, ending),
    }
}

/// Whether the metrics of a class are in the range of a test, if they all are or none is.
fn has_metrics(class: &Class, expected: &Expectation) -> Option<bool>
    ensures has { IfSome result (λ r. Throughout class.now (λ route.
        (nat_le expected.now.least route.metric && nat_le route.metric expected.now.greatest) ≡ r)) }
    ensures decided { IsWhole class.now → result ≢ None }
{
    match class.metric {
        Some(metric) => Some(expected.has_metric(metric)),
        None => {
            if expected.least > 0 || expected.greatest < class.size {
                return None;
            }
            Some(true)
        }
    }
}

/// What is found of a class whose prefixes match. Of routes with other metrics nothing is expected.
fn ends_by_metric(code: &Code, class: &Class, expected: &Expectation) -> Found
    requires small { class.now.size ≤ 250 }
    requires real { IsOfSize class.now.size class.now }
    requires matched { Always class.now (λ route. matches route.net expected.now.pattern ≡ true) }
    ensures said { SaysMet code.now class.now expected.now result }
    ensures decided { smallest_size ≤ class.now.size → IsWhole class.now → is_asking result ≡ false }
{
    match has_metrics(class, expected) {
        Some(true) => ends(code, class, expected.ending),
        Some(false) => Found::Same,
        None => Found::AsksMetric,
    }
}

/// What is found of a class. Of routes whose prefix does not match nothing is expected.
fn meets(code: &Code, class: &Class, expected: &Expectation) -> Found
    requires small { class.now.size ≤ 250 }
    requires real { IsOfSize class.now.size class.now }
    ensures said { SaysMet code.now class.now expected.now result }
    ensures decided { smallest_size ≤ class.now.size → IsWhole class.now → is_asking result ≡ false }
{
    match matched(class, &expected.pattern) {
        Some(false) => Found::Same,
        Some(true) => ends_by_metric(code, class, expected),
        None => Found::AsksBits,
    }
}

/// Whether a run ends otherwise than is expected.
fn is_other(outcome: Outcome, expected: Outcome) -> bool
    ensures other { result ≡ true → outcome ≢ expected }
    ensures same { result ≡ false → outcome ≡ expected }
{
    outcome != expected
}

/// The first route of a class of which this is expected, if the run on it ends otherwise.
fn shown(code: &Code, class: &Class, expected: &Expectation) -> Option<Counterexample>
    requires small { class.now.size ≤ 250 }
    requires real { IsOfSize class.now.size class.now }
    ensures shown { IfSome result (IsShown code.now class.now.size expected.now) }
    ensures some { smallest_size ≤ class.now.size → Throughout class.now (λ route. IsMissedAt code.now expected.now route) → result ≢ None }
{
    let prefix = Prefix::new(class.known.address(), class.len)?;
    let metric = class.metric.unwrap_or(0);
    let route = Route::new(prefix, metric, class.size)?;
    let outcome = run_checked(code, &route);
    let expected_outcome = outcome_of(expected.ending, metric);
    if !is_other(outcome, expected_outcome) {
        return None;
    }
    if !expected.covers(&prefix, metric) {
        return None;
    }
    Some(Counterexample {
        prefix,
        metric,
        outcome,
    })
}

/// What is shown of a class on which the runs do not end as is expected: its first route.
fn failure(code: &Code, class: &Class, expected: &Expectation) -> ExpectationResult
    requires small { class.now.size ≤ 250 }
    requires real { IsOfSize class.now.size class.now }
    requires missed { Throughout class.now (λ route. IsMissedAt code.now expected.now route) }
    ensures found { IsFoundOf code.now class.now.size expected.now result }
    ensures decided { smallest_size ≤ class.now.size → result ≢ checked.Undecided }
{
    match shown(code, class, expected) {
        Some(route) => ExpectationResult::Fails(route),
        None => ExpectationResult::Undecided,
    }
}

/// Splits a class of which more has to be known. Where nothing is left to know, this is undecided.
fn split_further(
    class: &Class,
    asks_metric: bool,
    todo: &mut Vec<Class>,
) -> Result<Option<ExpectationResult>, AllocError>
    requires small { class.now.size ≤ 250 }
    requires real { IsOfSize class.now.size class.now }
    ensures found { IfOk result (λ end. IfSome end (λ found. (found ≡ checked.Undecided) × IsWhole class.now)) }
    ensures split { IfOk result (λ end. end ≡ None → (route : RouteView) → IsIn class.now.size route → IsOf class.now route
        → IsLeft route todo.new.items) }
    ensures kept { OnOk result ((route : RouteView) → IsLeft route todo.old.items → IsLeft route todo.new.items) }
    ensures real { OnOk result (All (IsOfSize class.now.size) todo.old.items → All (IsOfSize class.now.size) todo.new.items) }
    ensures few { OnOk result (vec_len todo.new ≤ vec_len todo.old + 253) }
    ensures tried { IfOk result (λ end. end ≡ None → most_tried_of class.now.size todo.new.items + 1
        ≤ most_tried_of class.now.size todo.old.items + most_tried class.now.size class.now) }
{
    if split(class, asks_metric, todo)? {
        return Ok(None);
    }
    Ok(Some(ExpectationResult::Undecided))
}

/// Deals with a class: the runs on its routes end as is expected, or they are in classes that are appended, or this is found.
fn visit(
    code: &Code,
    class: &Class,
    expected: &Expectation,
    todo: &mut Vec<Class>,
) -> Result<Option<ExpectationResult>, AllocError>
    requires small { class.now.size ≤ 250 }
    requires real { IsOfSize class.now.size class.now }
    ensures found { IfOk result (λ end. IfSome end (IsFoundOf code.now class.now.size expected.now)) }
    ensures covered { IfOk result (λ end. end ≡ None → (route : RouteView) → IsIn class.now.size route → IsOf class.now route
        → IsMetAt code.now expected.now route ⊎ IsLeft route todo.new.items) }
    ensures kept { OnOk result ((route : RouteView) → IsLeft route todo.old.items → IsLeft route todo.new.items) }
    ensures real { OnOk result (All (IsOfSize class.now.size) todo.old.items → All (IsOfSize class.now.size) todo.new.items) }
    ensures few { OnOk result (vec_len todo.new ≤ vec_len todo.old + 253) }
    ensures tried { IfOk result (λ end. end ≡ None → most_tried_of class.now.size todo.new.items + 1
        ≤ most_tried_of class.now.size todo.old.items + most_tried class.now.size class.now) }
    ensures decided { IfOk result (λ end. smallest_size ≤ class.now.size → end ≢ Some checked.Undecided) }
{
    match meets(code, class, expected) {
        Found::Same => Ok(None),
        Found::Differ(_, _) => Ok(Some(failure(code, class, expected))),
        Found::AsksBits => {
            let end = split_further(class, false, todo)?;
            Ok(end)
        }
        Found::AsksMetric => {
            let end = split_further(class, true, todo)?;
            Ok(end)
        }
    }
}

/// Whether the runs of a code end as is expected, on all routes of the domains of a size of which something is expected. It tries at
/// most as many classes of routes as the limit says, and is undecided only where these are not all.
pub fn check_expectation(
    alloc: Global,
    code: &Code,
    expected: &Expectation,
    size: u32,
    limit: u64,
) -> Result<ExpectationResult, AllocError>
    requires { size ≤ largest_size }
    ensures found { IfOk result (IsFoundOf code.now size expected.now) }
    ensures decided { IsEnough size limit → IfOk result (λ found. found ≢ checked.Undecided) }
{
    let mut todo = all_classes(alloc, size)?;
    let mut left = limit;
    while let Some(next) = todo.pop() {
        let class = Class {
            known: next.known,
            len: next.len,
            metric: next.metric,
            size,
        };
        if left == 0 {
            return Ok(ExpectationResult::Undecided);
        }
        left -= 1;
        match visit(code, &class, expected, &mut todo)? {
            None => {}
            Some(found) => return Ok(found),
        }
    }
    Ok(ExpectationResult::Holds)
}
