//! The search for a route and two metrics of which the lesser one comes to more.

ghost use Rattle.std.specs.Prelude.{◌≡◌, ◌≢◌, ◌+◌, ◌<◌, ◌≤◌, ◌⊎◌, All, IfOk, IfSome, None, OnOk, Some, false, length, true, vec_len};
ghost use Rattle.filter_code.specs.Limits.{largest_size, smallest_size};
ghost use Rattle.filter_code.specs.RouteView.{RouteView};
ghost use Rattle.filter_diff.specs.Classes.{IsOf, IsOfSize};
ghost use Rattle.filter_diff.specs.Meeting.{Throughout};
ghost use Rattle.filter_diff.specs.Ordering.{HasMetric, IsCompared, IsDisorder, IsKeptAt, IsLostAt, IsOrderOf, SaysKept, comes_to};
ghost use Rattle.filter_diff.specs.Parts.{IsEnough, IsIn};
ghost use Rattle.filter_diff.specs.Searches.{IsLeft, IsWhole, is_asking, most_tried, most_tried_of};
ghost use Rattle.filter_diff.specs.declared.ordering.Order.TheVariants as order;

use crate::class::Class;
use crate::comparison::all_classes;
use crate::ending::RunEnding;
use crate::expectation::outcome_of;
use crate::found::Found;
use crate::search::split;
use crate::trials::trial;
use crate::turn::Turn;
use filter_code::{Code, Outcome, Route, run_checked};
use prefix_patterns::Prefix;
use std::alloc::{AllocError, Global};

/// A route of which the lesser one of two metrics comes to more than the other.
#[derive(Clone, Copy)]
pub struct Disorder {
    /// The prefix.
    pub prefix: Prefix,
    /// The lesser metric; the other is the next one.
    pub metric: u32,
    /// How the run ends with the lesser one.
    pub lesser: Outcome,
    /// How it ends with the next one.
    pub next: Outcome,
}

/// What is found of the order of metrics.
#[derive(Clone, Copy)]
pub enum Order {
    /// Of two metrics of a route the lesser one never comes to more.
    Kept,
    /// Of these two it does.
    Lost(Disorder),
    /// The search ended before it could tell.
    Undecided,
}

/// The metric that an outcome comes to: the size where the route is rejected.
fn comes_to(outcome: Outcome, size: u32) -> u32
    ensures { result ≡ comes_to size outcome }
{
    match outcome {
        Outcome::Accept(metric) => metric,
        Outcome::Reject | Outcome::Fault(_, _) => size,
    }
}

/// Whether the outcome with the lesser metric comes to no more than that with the next one.
fn is_kept(size: u32, lesser: Outcome, next: Outcome) -> bool
    ensures kept { result ≡ true → comes_to size lesser ≤ comes_to size next }
    ensures lost { result ≡ false → comes_to size next < comes_to size lesser }
{
    comes_to(lesser, size) <= comes_to(next, size)
}

/// What is found where all runs with a metric end so, and all with the next one so.
fn compared(size: u32, lesser: Outcome, next: Outcome) -> Found
    ensures compared { IsCompared size lesser next result }
    ensures decided { is_asking result ≡ false }
{
    if is_kept(size, lesser, next) {
        Found::Same
    } else {
        Found::Differ(RunEnding::Fixed(lesser), RunEnding::Fixed(next))
    }
}

/// Whether the next metric is one with which a filter is asked: it is below the size.
fn has_next(class: &Class, metric: u32) -> bool
    ensures next { result ≡ true → metric + 1 < class.now.size }
    ensures none { result ≡ false → class.now.size ≤ metric + 1 }
{
    metric < class.size.saturating_sub(1)
}

/// The class with the next metric.
fn next_class(class: &Class, metric: u32) -> Class
    requires { metric < 250 }
    ensures { result ≡ record class.now { metric = Some (metric + 1) } }
{
    Class {
        known: class.known,
        len: class.len,
        metric: Some(metric + 1),
        size: class.size,
    }
}

/// What is found of the one route whose bits and whose metric are known.
fn order_on_route(code: &Code, class: &Class, metric: u32) -> Found
    requires known { class.now.metric ≡ Some metric }
    requires whole { length class.now.known ≡ class.now.len }
    requires below { metric + 1 < class.now.size }
    ensures said { SaysKept code.now class.now result }
    ensures decided { smallest_size ≤ class.now.size → class.now.size ≤ largest_size → is_asking result ≡ false }
{
    let Some(route) = Route::new(class.known, metric, class.size) else {
        return Found::AsksBits;
    };
    match Route::new(class.known, metric + 1, class.size) {
        Some(next) => compared(
            class.size,
            run_checked(code, &route),
            run_checked(code, &next),
        ),
        None => Found::AsksBits,
    }
}

/// What is found of the routes of a class with a metric.
fn order_on_class(code: &Code, class: &Class, metric: u32) -> Found
    requires small { class.now.size ≤ 250 }
    requires known { class.now.metric ≡ Some metric }
    requires below { metric + 1 < class.now.size }
    ensures said { SaysKept code.now class.now result }
{
    let Turn::Ended(lesser) = trial(code, class) else {
        return Found::AsksBits;
    };
    match trial(code, &next_class(class, metric)) {
        Turn::Ended(next) => compared(
            class.size,
            outcome_of(lesser, metric),
            outcome_of(next, metric + 1),
        ),
        _ => Found::AsksBits,
    }
}

/// What is found of the routes of a class with any metric.
fn order_by_metric(code: &Code, class: &Class) -> Found
    requires known { class.now.metric ≡ None }
    ensures said { SaysKept code.now class.now result }
    ensures metric { HasMetric class.now result }
{
    match trial(code, class) {
        Turn::Ended(_) => Found::Same,
        Turn::AsksMetric => Found::AsksMetric,
        _ => Found::AsksBits,
    }
}

/// What is found of a class with a metric, whether all bits are known or not. Where the next metric is not below the size, nothing is asked.
fn order_with(code: &Code, class: &Class, metric: u32) -> Found
    requires small { class.now.size ≤ 250 }
    requires known { class.now.metric ≡ Some metric }
    ensures said { SaysKept code.now class.now result }
    ensures decided { smallest_size ≤ class.now.size → IsWhole class.now → is_asking result ≡ false }
{
    if !has_next(class, metric) {
        return Found::Same;
    }
    if class.known.len() == class.len {
        order_on_route(code, class, metric)
    } else {
        order_on_class(code, class, metric)
    }
}

/// What is found of a class.
fn order_on(code: &Code, class: &Class) -> Found
    requires small { class.now.size ≤ 250 }
    requires real { IsOfSize class.now.size class.now }
    ensures said { SaysKept code.now class.now result }
    ensures metric { HasMetric class.now result }
    ensures decided { smallest_size ≤ class.now.size → IsWhole class.now → is_asking result ≡ false }
{
    match class.metric {
        Some(metric) => order_with(code, class, metric),
        None => order_by_metric(code, class),
    }
}

/// The first route of a class with a metric, if the metric comes to more than the next one.
fn shown_with(code: &Code, class: &Class, metric: u32) -> Option<Disorder>
    requires small { class.now.size ≤ 250 }
    requires real { IsOfSize class.now.size class.now }
    requires known { class.now.metric ≡ Some metric }
    ensures shown { IfSome result (IsDisorder code.now class.now.size) }
    ensures some { smallest_size ≤ class.now.size → Throughout class.now (λ route. IsLostAt code.now route) → result ≢ None }
{
    if !has_next(class, metric) {
        return None;
    }
    let prefix = Prefix::new(class.known.address(), class.len)?;
    let route = Route::new(prefix, metric, class.size)?;
    let after = Route::new(prefix, metric + 1, class.size)?;
    let lesser = run_checked(code, &route);
    let next = run_checked(code, &after);
    if is_kept(class.size, lesser, next) {
        return None;
    }
    Some(Disorder {
        prefix,
        metric,
        lesser,
        next,
    })
}

/// What is shown of a class on whose routes the order is lost: its first route.
fn shown_of(code: &Code, class: &Class) -> Order
    requires small { class.now.size ≤ 250 }
    requires real { IsOfSize class.now.size class.now }
    requires lost { Throughout class.now (λ route. IsLostAt code.now route) }
    requires known { class.now.metric ≢ None }
    ensures found { IsOrderOf code.now class.now.size result }
    ensures decided { smallest_size ≤ class.now.size → result ≢ order.Undecided }
{
    match class.metric {
        Some(metric) => match shown_with(code, class, metric) {
            Some(shown) => Order::Lost(shown),
            None => Order::Undecided,
        },
        None => Order::Undecided,
    }
}

/// Splits a class of which more has to be known. Where nothing is left to know, this is undecided.
fn split_further(
    class: &Class,
    asks_metric: bool,
    todo: &mut Vec<Class>,
) -> Result<Option<Order>, AllocError>
    requires small { class.now.size ≤ 250 }
    requires real { IsOfSize class.now.size class.now }
    ensures found { IfOk result (λ end. IfSome end (λ found. (found ≡ order.Undecided) × IsWhole class.now)) }
    ensures split { IfOk result (λ end. end ≡ None → (route : RouteView) → IsIn class.now.size route → IsOf class.now route
        → IsLeft route todo.new.items) }
    ensures kept { OnOk result ((route : RouteView) → IsLeft route todo.old.items → IsLeft route todo.new.items) }
    ensures real { OnOk result (All (IsOfSize class.now.size) todo.old.items → All (IsOfSize class.now.size) todo.new.items) }
    ensures few { OnOk result (vec_len todo.new ≤ vec_len todo.old + 253) }
    ensures tried { IfOk result (λ end. end ≡ None → most_tried_of class.now.size todo.new.items + 1
        ≤ most_tried_of class.now.size todo.old.items + most_tried class.now.size class.now) }
{
    if split(class, asks_metric, todo)? {
        return Ok(None);
    }
    Ok(Some(Order::Undecided))
}

/// Deals with a class: the order is kept on its routes, or they are in classes that are appended, or this is found.
fn visit(code: &Code, class: &Class, todo: &mut Vec<Class>) -> Result<Option<Order>, AllocError>
    requires small { class.now.size ≤ 250 }
    requires real { IsOfSize class.now.size class.now }
    ensures found { IfOk result (λ end. IfSome end (IsOrderOf code.now class.now.size)) }
    ensures covered { IfOk result (λ end. end ≡ None → (route : RouteView) → IsIn class.now.size route → IsOf class.now route
        → IsKeptAt code.now route ⊎ IsLeft route todo.new.items) }
    ensures kept { OnOk result ((route : RouteView) → IsLeft route todo.old.items → IsLeft route todo.new.items) }
    ensures real { OnOk result (All (IsOfSize class.now.size) todo.old.items → All (IsOfSize class.now.size) todo.new.items) }
    ensures few { OnOk result (vec_len todo.new ≤ vec_len todo.old + 253) }
    ensures tried { IfOk result (λ end. end ≡ None → most_tried_of class.now.size todo.new.items + 1
        ≤ most_tried_of class.now.size todo.old.items + most_tried class.now.size class.now) }
    ensures decided { IfOk result (λ end. smallest_size ≤ class.now.size → end ≢ Some order.Undecided) }
{
    match order_on(code, class) {
        Found::Same => Ok(None),
        Found::Differ(_, _) => Ok(Some(shown_of(code, class))),
        Found::AsksBits => {
            let end = split_further(class, false, todo)?;
            Ok(end)
        }
        Found::AsksMetric => {
            let end = split_further(class, true, todo)?;
            Ok(end)
        }
    }
}

/// Whether of two metrics of a route the lesser one never comes to more than the other, on all routes of the domains of a size. It tries at
/// most as many classes of routes as the limit says, each by one run or by two, and is undecided only where these are not all.
pub fn check_order(alloc: Global, code: &Code, size: u32, limit: u64) -> Result<Order, AllocError>
    requires { size ≤ largest_size }
    ensures found { IfOk result (IsOrderOf code.now size) }
    ensures decided { IsEnough size limit → IfOk result (λ found. found ≢ order.Undecided) }
{
    let mut todo = all_classes(alloc, size)?;
    let mut left = limit;
    while let Some(next) = todo.pop() {
        let class = Class {
            known: next.known,
            len: next.len,
            metric: next.metric,
            size,
        };
        if left == 0 {
            return Ok(Order::Undecided);
        }
        left -= 1;
        match visit(code, &class, &mut todo)? {
            None => {}
            Some(found) => return Ok(found),
        }
    }
    Ok(Order::Kept)
}
