//! One class of a search: what the runs of two codes on its routes say, and the classes that it is split into.

ghost use Rattle.std.specs.Prelude.{◌≡◌, ◌+◌, ◌*◌, ◌-◌, ◌≤◌, ◌++◌, [], ◌∷◌, All, IfOk, IfSome, IsTrue, None, OnOk, Some, false, is_some, length, true, vec_len};
ghost use Rattle.prefix_patterns.specs.Bits.{address_length};
ghost use Rattle.filter_code.specs.Limits.{largest_size, smallest_size};
ghost use Rattle.filter_code.specs.RouteView.{RouteView};
ghost use Rattle.filter_diff.specs.Classes.{Always, IsOf, IsOfSize};
ghost use Rattle.filter_diff.specs.Parts.{Holds, InOne, IsDecided, IsIn, IsReal, IsTrueOf, is_undecided};
ghost use Rattle.filter_diff.specs.Searches.{AreReal, Compare, HasBit, IsDealt, IsLeft, IsPartOf, IsWhole, Says};
ghost use Rattle.filter_diff.specs.Searches.{is_asking, most_tried, most_tried_of, split_by_bits};
ghost use Rattle.filter_diff.specs.declared.ending.RunEnding.TheVariants as ending;

use crate::class::Class;
use crate::ending::RunEnding;
use crate::found::Found;
use crate::route_part::{PartFinding, RoutePart};
use crate::trials::trial;
use crate::turn::Turn;
use filter_code::{Code, Outcome, Route, run_checked};
use prefix_patterns::{ADDRESS_LENGTH, Ip, Prefix};
use std::alloc::AllocError;

/// Whether two outcomes are the same.
pub(crate) fn outcomes(before: Outcome, after: Outcome) -> Found
    ensures compared { Compare (ending.Fixed before) (ending.Fixed after) result }
    ensures decided { is_asking result ≡ false }
{
    if before == after {
        Found::Same
    } else {
        Found::Differ(RunEnding::Fixed(before), RunEnding::Fixed(after))
    }
}

/// Whether an outcome is that of routes that are accepted with the metric received. That of a route that is accepted with one
/// metric depends on the metric.
fn unchanged(after: Outcome) -> Found
    ensures { Compare ending.Unchanged (ending.Fixed after) result }
{
    match after {
        Outcome::Accept(_) => Found::AsksMetric,
        _ => Found::Differ(RunEnding::Unchanged, RunEnding::Fixed(after)),
    }
}

/// The same where the old code accepts with another outcome.
fn unchanged_now(before: Outcome) -> Found
    ensures { Compare (ending.Fixed before) ending.Unchanged result }
{
    match before {
        Outcome::Accept(_) => Found::AsksMetric,
        _ => Found::Differ(RunEnding::Fixed(before), RunEnding::Unchanged),
    }
}

/// Whether two endings are the same.
pub(crate) fn endings(before: RunEnding, after: RunEnding) -> Found
    ensures { Compare before after result }
{
    match before {
        RunEnding::Unchanged => match after {
            RunEnding::Unchanged => Found::Same,
            RunEnding::Fixed(after) => unchanged(after),
        },
        RunEnding::Fixed(before) => match after {
            RunEnding::Unchanged => unchanged_now(before),
            RunEnding::Fixed(after) => outcomes(before, after),
        },
    }
}

/// What the runs on the one route say whose bits and whose metric are known.
fn on_route(old: &Code, new: &Code, class: &Class, metric: u32) -> Found
    requires known { class.now.metric ≡ Some metric }
    requires whole { length class.now.known ≡ class.now.len }
    ensures said { Says old.now new.now class.now result }
    ensures decided { smallest_size ≤ class.now.size → class.now.size ≤ largest_size → metric ≤ class.now.size → is_asking result ≡ false }
{
    match Route::new(class.known, metric, class.size) {
        Some(route) => outcomes(run_checked(old, &route), run_checked(new, &route)),
        None => Found::AsksBits,
    }
}

/// What the runs on all routes of a class say.
fn on_class(old: &Code, new: &Code, class: &Class) -> Found
    ensures { Says old.now new.now class.now result }
{
    match trial(old, class) {
        Turn::Ended(before) => match trial(new, class) {
            Turn::Ended(after) => endings(before, after),
            Turn::AsksMetric => Found::AsksMetric,
            _ => Found::AsksBits,
        },
        // Bits before the metric: parts that differ in the metric alone then lie side by side.
        Turn::AsksMetric => match trial(new, class) {
            Turn::AsksBits => Found::AsksBits,
            _ => Found::AsksMetric,
        },
        _ => Found::AsksBits,
    }
}

/// What is found of a class: something where nothing is left to know.
fn find(old: &Code, new: &Code, class: &Class) -> Found
    requires small { class.now.size ≤ 250 }
    requires real { IsOfSize class.now.size class.now }
    ensures said { Says old.now new.now class.now result }
    ensures decided { smallest_size ≤ class.now.size → IsWhole class.now → is_asking result ≡ false }
{
    match class.metric {
        Some(metric) if class.known.len() == class.len => on_route(old, new, class, metric),
        _ => on_class(old, new, class),
    }
}

/// The prefix with one more bit. None if it has all.
pub(crate) fn longer(known: &Prefix, bit: bool) -> Option<Prefix>
    ensures longer { IfSome result (λ longer. longer ≡ known.now ++ (bit ∷ [])) }
    ensures all { result ≡ None → address_length ≤ length known.now }
{
    let count = known.len();
    let first = known.address().0;
    if count >= ADDRESS_LENGTH {
        return None;
    }
    if bit {
        Prefix::new(Ip(first + (1 << (31 - count))), count + 1)
    } else {
        Prefix::new(Ip(first), count + 1)
    }
}

/// The class with one more bit known. None if all are.
fn with_bit(class: &Class, bit: bool) -> Option<Class>
    ensures longer { IfSome result (λ longer. HasBit class.now bit longer) }
    ensures all { result ≡ None → address_length ≤ length class.now.known }
{
    match longer(&class.known, bit) {
        Some(known) => Some(Class {
            known,
            len: class.len,
            metric: class.metric,
            size: class.size,
        }),
        None => None,
    }
}

/// The part with the routes of a class.
pub(crate) fn part_of(class: &Class, finding: PartFinding) -> RoutePart
    ensures routes { IsPartOf class.now result }
    ensures finding { result.finding ≡ finding }
    ensures real { IsOfSize class.now.size class.now → IsReal class.now.size result }
{
    let (least, greatest) = match class.metric {
        Some(metric) => (metric, metric),
        None => (0, class.size),
    };
    RoutePart {
        prefix: class.known,
        shortest: class.len,
        longest: class.len,
        least,
        greatest,
        finding,
    }
}

/// Appends the classes with each metric in place of any.
pub(crate) fn push_metrics(class: &Class, todo: &mut Vec<Class>) -> Result<(), AllocError>
    requires small { class.now.size ≤ 250 }
    requires real { IsOfSize class.now.size class.now }
    ensures kept { OnOk result ((route : RouteView) → IsLeft route todo.old.items → IsLeft route todo.new.items) }
    ensures real { OnOk result (All (IsOfSize class.now.size) todo.old.items → All (IsOfSize class.now.size) todo.new.items) }
    ensures split { OnOk result ((route : RouteView) → IsIn class.now.size route → IsOf class.now route → IsLeft route todo.new.items) }
    ensures few { OnOk result (vec_len todo.new ≤ vec_len todo.old + 251) }
    ensures tried { OnOk result (most_tried_of class.now.size todo.new.items
        ≡ most_tried_of class.now.size todo.old.items + (class.now.size + 1) * split_by_bits (class.now.len - length class.now.known)) }
{
    for step in 0..=class.size {
        todo.push(Class {
            known: class.known,
            len: class.len,
            metric: Some(class.size - step),
            size: class.size,
        })?;
    }
    Ok(())
}

/// Appends the two classes with one more bit known. None if there is no more bit.
pub(crate) fn push_bits(class: &Class, todo: &mut Vec<Class>) -> Result<bool, AllocError>
    requires { IsOfSize class.now.size class.now }
    ensures kept { OnOk result ((route : RouteView) → IsLeft route todo.old.items → IsLeft route todo.new.items) }
    ensures real { OnOk result (All (IsOfSize class.now.size) todo.old.items → All (IsOfSize class.now.size) todo.new.items) }
    ensures split { IfOk result (λ done. IsTrue done → (route : RouteView) → IsOf class.now route → IsLeft route todo.new.items) }
    ensures few { OnOk result (vec_len todo.new ≤ vec_len todo.old + 2) }
    ensures tried { IfOk result (λ done. IsTrue done → most_tried_of class.now.size todo.new.items + 1
        ≤ most_tried_of class.now.size todo.old.items + most_tried class.now.size class.now) }
    ensures all { IfOk result (λ done. done ≡ false → (length class.now.known ≡ class.now.len) × (todo.new.items ≡ todo.old.items)) }
{
    if class.known.len() >= class.len {
        return Ok(false);
    }
    let Some(one) = with_bit(class, true) else {
        return Ok(false);
    };
    let Some(zero) = with_bit(class, false) else {
        return Ok(false);
    };
    todo.push(one)?;
    todo.push(zero)?;
    Ok(true)
}

/// Splits a class by the metric. Not where that is known.
fn split_by_metric(class: &Class, todo: &mut Vec<Class>) -> Result<bool, AllocError>
    requires small { class.now.size ≤ 250 }
    requires real { IsOfSize class.now.size class.now }
    ensures kept { OnOk result ((route : RouteView) → IsLeft route todo.old.items → IsLeft route todo.new.items) }
    ensures real { OnOk result (All (IsOfSize class.now.size) todo.old.items → All (IsOfSize class.now.size) todo.new.items) }
    ensures split { IfOk result (λ done. IsTrue done → (route : RouteView) → IsIn class.now.size route → IsOf class.now route
        → IsLeft route todo.new.items) }
    ensures few { OnOk result (vec_len todo.new ≤ vec_len todo.old + 251) }
    ensures tried { IfOk result (λ done. IsTrue done → most_tried_of class.now.size todo.new.items + 1
        ≤ most_tried_of class.now.size todo.old.items + most_tried class.now.size class.now) }
    ensures all { IfOk result (λ done. done ≡ false → (is_some class.now.metric ≡ true) × (todo.new.items ≡ todo.old.items)) }
{
    match class.metric {
        None => {
            push_metrics(class, todo)?;
            Ok(true)
        }
        Some(_) => Ok(false),
    }
}

/// Splits a class by its next bit, or by the metric where all bits are known; by the metric first where that is asked for. Not where
/// nothing is left to know.
pub(crate) fn split(
    class: &Class,
    asks_metric: bool,
    todo: &mut Vec<Class>,
) -> Result<bool, AllocError>
    requires small { class.now.size ≤ 250 }
    requires real { IsOfSize class.now.size class.now }
    ensures kept { OnOk result ((route : RouteView) → IsLeft route todo.old.items → IsLeft route todo.new.items) }
    ensures real { OnOk result (All (IsOfSize class.now.size) todo.old.items → All (IsOfSize class.now.size) todo.new.items) }
    ensures split { IfOk result (λ done. IsTrue done → (route : RouteView) → IsIn class.now.size route → IsOf class.now route
        → IsLeft route todo.new.items) }
    ensures few { OnOk result (vec_len todo.new ≤ vec_len todo.old + 253) }
    ensures tried { IfOk result (λ done. IsTrue done → most_tried_of class.now.size todo.new.items + 1
        ≤ most_tried_of class.now.size todo.old.items + most_tried class.now.size class.now) }
    ensures all { IfOk result (λ done. done ≡ false → IsWhole class.now × (todo.new.items ≡ todo.old.items)) }
{
    if asks_metric && class.metric.is_none() {
        return split_by_metric(class, todo);
    }
    if push_bits(class, todo)? {
        return Ok(true);
    }
    let done = split_by_metric(class, todo)?;
    Ok(done)
}

/// Appends the part with the routes of a class.
pub(crate) fn push_part(
    old: &Code,
    new: &Code,
    class: &Class,
    finding: PartFinding,
    parts: &mut Vec<RoutePart>,
) -> Result<(), AllocError>
    requires found { Always class.now (λ route. Holds old.now new.now finding route) }
    requires real { IsOfSize class.now.size class.now }
    ensures real { OnOk result (All (IsReal class.now.size) parts.old.items → All (IsReal class.now.size) parts.new.items) }
    ensures sound { OnOk result (All (IsTrueOf old.now new.now class.now.size) parts.old.items →
        All (IsTrueOf old.now new.now class.now.size) parts.new.items) }
    ensures kept { OnOk result ((route : RouteView) → InOne route parts.old.items → InOne route parts.new.items) }
    ensures covered { OnOk result ((route : RouteView) → IsIn class.now.size route → IsOf class.now route → InOne route parts.new.items) }
    ensures decided { OnOk result (is_undecided finding ≡ false → All IsDecided parts.old.items → All IsDecided parts.new.items) }
{
    parts.push(part_of(class, finding))?;
    Ok(())
}

/// Deals with a class of which more has to be known: its routes are in classes that are appended. Where nothing is left to know, they lie
/// in a part that is undecided.
fn split_further(
    old: &Code,
    new: &Code,
    class: &Class,
    asks_metric: bool,
    parts: &mut Vec<RoutePart>,
    todo: &mut Vec<Class>,
) -> Result<(), AllocError>
    requires small { class.now.size ≤ 250 }
    requires real { IsOfSize class.now.size class.now }
    ensures real { OnOk result (AreReal class.now.size parts.old.items todo.old.items → AreReal class.now.size parts.new.items todo.new.items) }
    ensures sound { OnOk result (All (IsTrueOf old.now new.now class.now.size) parts.old.items →
        All (IsTrueOf old.now new.now class.now.size) parts.new.items) }
    ensures kept { OnOk result ((route : RouteView) → IsDealt old.now new.now parts.old.items todo.old.items route →
        IsDealt old.now new.now parts.new.items todo.new.items route) }
    ensures covered { OnOk result ((route : RouteView) → IsIn class.now.size route → IsOf class.now route →
        IsDealt old.now new.now parts.new.items todo.new.items route) }
    ensures few { OnOk result (vec_len todo.new ≤ vec_len todo.old + 253) }
    ensures tried { OnOk result (most_tried_of class.now.size todo.new.items + 1
        ≤ most_tried_of class.now.size todo.old.items + most_tried class.now.size class.now) }
    ensures decided { OnOk result ((IsWhole class.now → ⊥) → All IsDecided parts.old.items → All IsDecided parts.new.items) }
{
    if !split(class, asks_metric, todo)? {
        push_part(old, new, class, PartFinding::Undecided, parts)?;
    }
    Ok(())
}

/// Deals with a class: its routes have the same outcome, or they lie in a part, or they are in classes that are appended.
pub(crate) fn visit(
    old: &Code,
    new: &Code,
    class: &Class,
    parts: &mut Vec<RoutePart>,
    todo: &mut Vec<Class>,
) -> Result<(), AllocError>
    requires small { class.now.size ≤ 250 }
    requires real { IsOfSize class.now.size class.now }
    ensures real { OnOk result (AreReal class.now.size parts.old.items todo.old.items → AreReal class.now.size parts.new.items todo.new.items) }
    ensures sound { OnOk result (All (IsTrueOf old.now new.now class.now.size) parts.old.items →
        All (IsTrueOf old.now new.now class.now.size) parts.new.items) }
    ensures kept { OnOk result ((route : RouteView) → IsDealt old.now new.now parts.old.items todo.old.items route →
        IsDealt old.now new.now parts.new.items todo.new.items route) }
    ensures covered { OnOk result ((route : RouteView) → IsIn class.now.size route → IsOf class.now route →
        IsDealt old.now new.now parts.new.items todo.new.items route) }
    ensures few { OnOk result (vec_len todo.new ≤ vec_len todo.old + 253) }
    ensures tried { OnOk result (most_tried_of class.now.size todo.new.items + 1
        ≤ most_tried_of class.now.size todo.old.items + most_tried class.now.size class.now) }
    ensures decided { OnOk result (smallest_size ≤ class.now.size → All IsDecided parts.old.items → All IsDecided parts.new.items) }
{
    match find(old, new, class) {
        Found::Same => {}
        Found::Differ(before, after) => {
            push_part(old, new, class, PartFinding::Differ(before, after), parts)?;
        }
        Found::AsksBits => split_further(old, new, class, false, parts, todo)?,
        Found::AsksMetric => split_further(old, new, class, true, parts, todo)?,
    }
    Ok(())
}
