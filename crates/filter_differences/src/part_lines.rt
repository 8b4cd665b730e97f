//! The lines that tell of parts of the routes.
ghost use Rattle.std.specs.Prelude.{◌≡◌, ◌++◌, ◌-◌, IfOk, OnOk, flat_map, length, take};
ghost use Rattle.filter_differences.specs.PartLines as spec;

use filter_code::Outcome;
use filter_diff::{PartFinding, RoutePart, RunEnding, count_undecided};
use line_protocol::push_decimal;
use std::alloc::{AllocError, Global};

/// So many parts have a line at most.
const SHOWN_LIMIT: usize = 1_000;

/// Puts the outcome of a run at the end of `out`.
pub fn push_outcome(out: &mut Vec<u8>, end: Outcome) -> Result<(), AllocError>
    ensures { OnOk result (out.new.items ≡ out.old.items ++ spec.outcome_text end) }
{
    match end {
        Outcome::Accept(metric) => {
            out.extend_from_slice(b"accept ")?;
            push_decimal(out, u64::from(metric))
        }
        Outcome::Reject => out.extend_from_slice(b"reject"),
        Outcome::Fault(kind, at) => {
            out.extend_from_slice(b"fault ")?;
            out.extend_from_slice(kind.code().as_bytes())?;
            out.push(b' ')?;
            push_decimal(out, at as u64)
        }
    }
}

/// Puts how the runs on all routes of a part end at the end of `out`.
pub fn push_ending(out: &mut Vec<u8>, end: RunEnding) -> Result<(), AllocError>
    ensures { OnOk result (out.new.items ≡ out.old.items ++ spec.ending_text end) }
{
    match end {
        RunEnding::Unchanged => out.extend_from_slice(b"accept"),
        RunEnding::Fixed(end) => push_outcome(out, end),
    }
}

/// Puts what stands before the routes of a part at the end of `out`.
fn push_finding_word(out: &mut Vec<u8>, found: PartFinding) -> Result<(), AllocError>
    ensures { OnOk result (out.new.items ≡ out.old.items ++ spec.finding_word found) }
{
    match found {
        PartFinding::Undecided => out.extend_from_slice(b"undecided "),
        PartFinding::Differ(_, _) => out.extend_from_slice(b"differ "),
    }
}

/// Puts what stands behind the routes of a part at the end of `out`.
fn push_endings(out: &mut Vec<u8>, found: PartFinding) -> Result<(), AllocError>
    ensures { OnOk result (out.new.items ≡ out.old.items ++ spec.endings_text found) }
{
    match found {
        PartFinding::Undecided => Ok(()),
        PartFinding::Differ(before, after) => {
            out.extend_from_slice(b": ")?;
            push_ending(out, before)?;
            out.extend_from_slice(b" | ")?;
            push_ending(out, after)
        }
    }
}

/// Puts the prefixes of a part at the end of `out`, as a pattern.
fn push_pattern(alloc: Global, out: &mut Vec<u8>, part: &RoutePart) -> Result<(), AllocError>
    ensures { OnOk result (out.new.items ≡ out.old.items ++ spec.pattern_text part.now) }
{
    let prefix = part.prefix;
    let text = format!(in alloc; "{prefix}")?;
    out.extend_from_slice(text.as_bytes())?;
    out.push(b'{')?;
    push_decimal(out, u64::from(part.shortest))?;
    out.push(b',')?;
    push_decimal(out, u64::from(part.longest))?;
    out.push(b'}')?;
    Ok(())
}

/// Puts the metrics of a part at the end of `out`.
fn push_metrics(out: &mut Vec<u8>, part: &RoutePart) -> Result<(), AllocError>
    ensures { OnOk result (out.new.items ≡ out.old.items ++ spec.metrics_text part.now) }
{
    out.extend_from_slice(b", metrics ")?;
    push_decimal(out, u64::from(part.least))?;
    out.extend_from_slice(b"..")?;
    push_decimal(out, u64::from(part.greatest))
}

/// Puts the words of a part at the end of `out`.
pub fn push_part_words(alloc: Global, out: &mut Vec<u8>, part: &RoutePart) -> Result<(), AllocError>
    ensures { OnOk result (out.new.items ≡ out.old.items ++ spec.part_words part.now) }
{
    push_finding_word(out, part.finding)?;
    push_pattern(alloc, out, part)?;
    push_metrics(out, part)?;
    push_endings(out, part.finding)
}

/// Puts the line of a part at the end of `out`.
fn push_part(alloc: Global, out: &mut Vec<u8>, part: &RoutePart) -> Result<(), AllocError>
    ensures { OnOk result (out.new.items ≡ out.old.items ++ spec.part_line part.now) }
{
    push_part_words(alloc, out, part)?;
    out.push(b'\n')?;
    Ok(())
}

/// What stands before the number of the parts that are undecided.
#[tactic(auto, unfolding(crate::specs::PartLines::undecided_on))]
fn undecided_on() -> &'static [u8]
    ensures { result.now ≡ spec.undecided_on }
{
    b"undecided on "
}

/// Puts how many parts are undecided at the end of `out`, where there are several.
fn push_several_words(out: &mut Vec<u8>, count: usize) -> Result<(), AllocError>
    ensures { OnOk result (out.new.items ≡ out.old.items ++ spec.several_words count) }
{
    out.extend_from_slice(undecided_on())?;
    push_decimal(out, count as u64)?;
    out.extend_from_slice(b" parts")
}

/// What stands between routes and the number of nodes of their domain.
#[tactic(auto, unfolding(crate::specs::PartLines::of_a_domain))]
fn of_a_domain() -> &'static [u8]
    ensures { result.now ≡ spec.of_a_domain }
{
    b" of a domain of "
}

/// Puts the domain of routes at the end of `out`, by its size.
fn push_domain(out: &mut Vec<u8>, size: u32) -> Result<(), AllocError>
    ensures { OnOk result (out.new.items ≡ out.old.items ++ spec.domain_words size) }
{
    out.extend_from_slice(of_a_domain())?;
    push_decimal(out, u64::from(size))?;
    out.extend_from_slice(b" nodes")
}

/// Puts at the end of `out` with which routes the same is done: with all, or with all others where there are parts.
fn push_same_routes(out: &mut Vec<u8>, parts: &[RoutePart]) -> Result<(), AllocError>
    ensures { OnOk result (out.new.items ≡ out.old.items ++ spec.same_routes parts.now) }
{
    if parts.is_empty() {
        out.extend_from_slice(b"same on all routes")
    } else {
        out.extend_from_slice(b"same on all other routes")
    }
}

/// The same, with the size of their domain.
fn push_same_words(out: &mut Vec<u8>, size: u32, parts: &[RoutePart]) -> Result<(), AllocError>
    ensures { OnOk result (out.new.items ≡ out.old.items ++ spec.same_words size parts.now) }
{
    push_same_routes(out, parts)?;
    push_domain(out, size)
}

/// Puts the words of the last line at the end of `out`, where so many of the parts are undecided.
pub fn push_last_words(
    out: &mut Vec<u8>,
    size: u32,
    parts: &[RoutePart],
    undecided: usize,
) -> Result<(), AllocError>
    ensures { OnOk result (out.new.items ≡ out.old.items ++ spec.last_words size undecided parts.now) }
{
    if undecided == 0 {
        return push_same_words(out, size, parts);
    }
    if undecided == 1 {
        return out.extend_from_slice(b"undecided on 1 part");
    }
    push_several_words(out, undecided)
}

/// The parts that have a line.
#[tactic(auto, using(std::proofs::lemmas::List::take_min))]
pub fn shown_parts(parts: &[RoutePart]) -> &[RoutePart]
    ensures { result.now ≡ take spec.shown_limit parts.now }
{
    &parts[..SHOWN_LIMIT.min(parts.len())]
}

/// Puts the lines of parts at the end of `out`.
fn push_parts(alloc: Global, out: &mut Vec<u8>, parts: &[RoutePart]) -> Result<(), AllocError>
    ensures { OnOk result (out.new.items ≡ out.old.items ++ flat_map spec.part_line parts.now) }
{
    for part in parts {
        push_part(alloc, out, part)?;
    }
    Ok(())
}

/// What stands before the number of the parts that have none.
#[tactic(auto, unfolding(crate::specs::PartLines::not_shown))]
fn not_shown() -> &'static [u8]
    ensures { result.now ≡ spec.not_shown }
{
    b"parts that are not shown: "
}

/// How many they are.
pub fn hidden_count(parts: &[RoutePart]) -> usize
    ensures { result ≡ length parts.now - spec.shown_limit }
{
    parts.len().saturating_sub(SHOWN_LIMIT)
}

/// Puts that there are so many of them at the end of `out`.
pub fn push_hidden_words(out: &mut Vec<u8>, count: usize) -> Result<(), AllocError>
    ensures { OnOk result (out.new.items ≡ out.old.items ++ spec.hidden_words count) }
{
    out.extend_from_slice(not_shown())?;
    push_decimal(out, count as u64)
}

/// Puts how many they are at the end of `out`, if there are some.
fn push_hidden(out: &mut Vec<u8>, count: usize) -> Result<(), AllocError>
    ensures { OnOk result (out.new.items ≡ out.old.items ++ spec.hidden_text count) }
{
    if count == 0 {
        return Ok(());
    }
    push_hidden_words(out, count)?;
    out.push(b'\n')?;
    Ok(())
}

/// The lines of parts of the routes of domains of `size` nodes, as many as are shown, and the last line, on all other routes.
pub fn parts_text(alloc: Global, size: u32, parts: &[RoutePart]) -> Result<Vec<u8>, AllocError>
    ensures { IfOk result (λ text. text.items ≡ spec.parts_text size parts.now) }
{
    let mut out = Vec::new(alloc);
    push_parts(alloc, &mut out, shown_parts(parts))?;
    push_hidden(&mut out, hidden_count(parts))?;
    push_last_words(&mut out, size, parts, count_undecided(parts))?;
    out.push(b'\n')?;
    Ok(out)
}
