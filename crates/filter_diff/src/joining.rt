//! Parts that join: they differ in one thing alone, and in that they lie side by side.

ghost use Rattle.std.specs.Prelude.{◌≡◌, ◌+◌, ◌≤◌, ◌++◌, [], ◌∷◌, true, false, IfOk, IfSome, IsTrue, List, OnOk};
ghost use Rattle.filter_diff.specs.Joins.{IsEndingOfBoth, IsFoundOfBoth, Joins, KeepsMetric, StandFor};
ghost use Rattle.filter_diff.specs.declared.route_part.PartFinding.TheVariants as finding;
ghost use Rattle.filter_diff.specs.declared.route_part.RoutePart.{RoutePart as RoutePartView};

use crate::ending::RunEnding;
use crate::route_part::{PartFinding, RoutePart};
use crate::search::longer;
use filter_code::Outcome;
use prefix_patterns::Prefix;
use std::alloc::{AllocError, Global};

/// How far back a part is looked for that joins the next one.
const LOOK_BACK: usize = 32;

/// How often all parts are gone over.
const ROUNDS: usize = 64;

/// Whether two prefixes are the same.
fn same_prefix(a: &Prefix, b: &Prefix) -> bool
    ensures { IsTrue result → a.now ≡ b.now }
{
    *a == *b
}

/// Whether an ending is that each route of a part keeps its metric. It is so, too, where it names the only metric that the part has.
fn keeps_metric(part: &RoutePart, end: RunEnding) -> bool
    ensures { IsTrue result → KeepsMetric part.now end }
{
    match end {
        RunEnding::Unchanged => true,
        RunEnding::Fixed(Outcome::Accept(metric)) => {
            part.least == metric && part.greatest == metric
        }
        RunEnding::Fixed(_) => false,
    }
}

/// What two endings, of the routes of one part and of another, are for both: the same, or that each route keeps its metric. So metrics that
/// are kept are one part, however many they are.
fn ending_of_both(
    a: &RoutePart,
    b: &RoutePart,
    first: RunEnding,
    second: RunEnding,
) -> Option<RunEnding>
    ensures { IfSome result (IsEndingOfBoth a.now b.now first second) }
{
    if first == second {
        return Some(first);
    }
    if !keeps_metric(a, first) {
        return None;
    }
    if !keeps_metric(b, second) {
        return None;
    }
    Some(RunEnding::Unchanged)
}

/// What is found of the routes of two parts where both codes end differently on each.
fn difference_of_both(
    a: &RoutePart,
    b: &RoutePart,
    first: (RunEnding, RunEnding),
    second: (RunEnding, RunEnding),
) -> Option<PartFinding>
    requires first { a.now.finding ≡ finding.Differ first.0 first.1 }
    requires second { b.now.finding ≡ finding.Differ second.0 second.1 }
    ensures { IfSome result (IsFoundOfBoth a.now b.now) }
{
    let before = ending_of_both(a, b, first.0, second.0)?;
    let after = ending_of_both(a, b, first.1, second.1)?;
    Some(PartFinding::Differ(before, after))
}

/// What was found of two parts, if it is the same.
fn finding_of_both(a: &RoutePart, b: &RoutePart) -> Option<PartFinding>
    ensures { IfSome result (IsFoundOfBoth a.now b.now) }
{
    match a.finding {
        PartFinding::Undecided => match b.finding {
            PartFinding::Undecided => Some(PartFinding::Undecided),
            PartFinding::Differ(_, _) => None,
        },
        PartFinding::Differ(before, after) => match b.finding {
            PartFinding::Undecided => None,
            PartFinding::Differ(other_before, other_after) => {
                difference_of_both(a, b, (before, after), (other_before, other_after))
            }
        },
    }
}

/// Whether two parts have the same lengths.
fn same_lengths(a: &RoutePart, b: &RoutePart) -> bool
    ensures { IsTrue result → (a.now.shortest ≡ b.now.shortest) × (a.now.longest ≡ b.now.longest) }
{
    a.shortest == b.shortest && a.longest == b.longest
}

/// Whether two parts have the same metrics.
fn same_metrics(a: &RoutePart, b: &RoutePart) -> bool
    ensures { IsTrue result → (a.now.least ≡ b.now.least) × (a.now.greatest ≡ b.now.greatest) }
{
    a.least == b.least && a.greatest == b.greatest
}

/// Whether the lengths of a part are followed by those of another.
fn lengths_follow(a: &RoutePart, b: &RoutePart) -> bool
    ensures { IsTrue result → (a.now.shortest ≤ a.now.longest) × (a.now.longest + 1 ≡ b.now.shortest) × (b.now.shortest ≤ b.now.longest) }
{
    a.shortest <= a.longest
        && b.shortest <= b.longest
        && u64::from(a.longest) + 1 == u64::from(b.shortest)
}

/// Whether the metrics of a part are followed by those of another.
fn metrics_follow(a: &RoutePart, b: &RoutePart) -> bool
    ensures { IsTrue result → (a.now.least ≤ a.now.greatest) × (a.now.greatest + 1 ≡ b.now.least) × (b.now.least ≤ b.now.greatest) }
{
    a.least <= a.greatest
        && b.least <= b.greatest
        && u64::from(a.greatest) + 1 == u64::from(b.least)
}

/// The part of two with neighbouring lengths, the shorter first.
fn join_lengths(a: &RoutePart, b: &RoutePart) -> Option<RoutePart>
    ensures { IfSome result (λ whole. Joins a.now b.now whole) }
{
    let finding = finding_of_both(a, b)?;
    if !same_prefix(&a.prefix, &b.prefix) {
        return None;
    }
    if !same_metrics(a, b) {
        return None;
    }
    if !lengths_follow(a, b) {
        return None;
    }
    Some(RoutePart {
        prefix: a.prefix,
        shortest: a.shortest,
        longest: b.longest,
        least: a.least,
        greatest: a.greatest,
        finding,
    })
}

/// The part of two with neighbouring metrics, the smaller first.
fn join_metrics(a: &RoutePart, b: &RoutePart) -> Option<RoutePart>
    ensures { IfSome result (λ whole. Joins a.now b.now whole) }
{
    let finding = finding_of_both(a, b)?;
    if !same_prefix(&a.prefix, &b.prefix) {
        return None;
    }
    if !same_lengths(a, b) {
        return None;
    }
    if !metrics_follow(a, b) {
        return None;
    }
    Some(RoutePart {
        prefix: a.prefix,
        shortest: a.shortest,
        longest: a.longest,
        least: a.least,
        greatest: b.greatest,
        finding,
    })
}

/// The prefix of which these are the two halves, the first of them first.
fn whole_of(zero: &Prefix, one: &Prefix) -> Option<Prefix>
    ensures { IfSome result (λ whole. (zero.now ≡ whole ++ (false ∷ [])) × (one.now ≡ whole ++ (true ∷ []))) }
{
    if zero.len() < 1 {
        return None;
    }
    let whole = Prefix::new(zero.address(), zero.len() - 1)?;
    let first = longer(&whole, false)?;
    let second = longer(&whole, true)?;
    if !same_prefix(zero, &first) {
        return None;
    }
    if !same_prefix(one, &second) {
        return None;
    }
    Some(whole)
}

/// The part of two whose prefixes are the halves of one, the first half first. Its prefixes are longer than that.
fn join_halves(a: &RoutePart, b: &RoutePart) -> Option<RoutePart>
    ensures { IfSome result (λ whole. Joins a.now b.now whole) }
{
    let finding = finding_of_both(a, b)?;
    if !same_lengths(a, b) {
        return None;
    }
    if !same_metrics(a, b) {
        return None;
    }
    if a.shortest < a.prefix.len() {
        return None;
    }
    match whole_of(&a.prefix, &b.prefix) {
        Some(prefix) => Some(RoutePart {
            prefix,
            shortest: a.shortest,
            longest: a.longest,
            least: a.least,
            greatest: a.greatest,
            finding,
        }),
        None => None,
    }
}

/// The part of two that join, the first of them first.
fn join_in_order(a: &RoutePart, b: &RoutePart) -> Option<RoutePart>
    ensures { IfSome result (λ whole. Joins a.now b.now whole) }
{
    match join_halves(a, b) {
        Some(whole) => Some(whole),
        None => match join_metrics(a, b) {
            Some(whole) => Some(whole),
            None => join_lengths(a, b),
        },
    }
}

/// The part of two that join.
fn join(a: &RoutePart, b: &RoutePart) -> Option<RoutePart>
    ensures { IfSome result (λ whole. Joins a.now b.now whole) }
{
    match join_in_order(a, b) {
        Some(whole) => Some(whole),
        None => join_in_order(b, a),
    }
}

/// Joins a part with one of the last parts, or appends it.
fn add(parts: &mut Vec<RoutePart>, part: &RoutePart) -> Result<(), AllocError>
    ensures { OnOk result ((others : List RoutePartView) → StandFor parts.old.items others → StandFor parts.new.items (others ++ (part.now ∷ []))) }
{
    for at in parts.len().saturating_sub(LOOK_BACK)..parts.len() {
        if let Some(whole) = join(&parts[at], part) {
            parts[at] = whole;
            return Ok(());
        }
    }
    parts.push(*part)?;
    Ok(())
}

/// Goes once over all parts, and joins each with one before it.
fn join_once(alloc: Global, parts: &[RoutePart]) -> Result<Vec<RoutePart>, AllocError>
    ensures { IfOk result (λ joined. StandFor joined.items parts.now) }
{
    let mut joined = Vec::new(alloc);
    for part in parts {
        add(&mut joined, part)?;
    }
    Ok(joined)
}

/// Joins parts until no two join that lie near each other.
pub fn join_all(alloc: Global, parts: Vec<RoutePart>) -> Result<Vec<RoutePart>, AllocError>
    ensures { IfOk result (λ joined. StandFor joined.items parts.items) }
{
    let mut found = parts;
    for _round in 0..ROUNDS {
        let joined = join_once(alloc, found.as_slice())?;
        if joined.len() == found.len() {
            return Ok(found);
        }
        found = joined;
    }
    Ok(found)
}
