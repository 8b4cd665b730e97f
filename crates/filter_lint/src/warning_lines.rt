//! The lines of warnings.
ghost use Rattle.std.specs.Prelude.{◌≡◌, ◌++◌, IfOk, OnOk, codes, flat_map};
ghost use Rattle.refusal_words.specs.Explanations.{message};
ghost use Rattle.refusal_words.specs.Shown.{shown};
ghost use Rattle.filter_lint.specs.WarningLines as spec;

use crate::host_bits::{HostBits, bytes_of};
use crate::site::Site;
use crate::warning::{Operation, ValueBounds, Warning, WarningCause};
use crate::warning_reports::{
    push_found, push_found_host_bits, push_found_undecided, push_found_unordered,
};
use filter_code::Outcome;
use filter_diff::Disorder;
use line_protocol::push_decimal;
use prefix_patterns::{ADDRESS_LENGTH, Pattern, PatternSet};
use refusal_words::{place_in, push_position, push_prefix, push_shown};
use report_formats::Format;
use std::alloc::{AllocError, Global};

impl WarningCause {
    /// The code of the rule.
    pub fn code(self) -> &'static [u8]
        ensures { result.now ≡ spec.code_of self }
    {
        match self {
            WarningCause::Constant(_, _) => b"W1",
            WarningCause::Unreached => b"W2",
            WarningCause::Wraps(_, _, _) => b"W3",
            WarningCause::Covered(_, _, _) | WarningCause::Overlapping(_, _) => b"W4",
            WarningCause::Unread => b"W6",
            WarningCause::Unreachable(_) => b"W7",
            WarningCause::NotLowered => b"W8",
            WarningCause::Disordered(_) => b"W9",
        }
    }
}

/// What is true, or false: the condition that is asked at a place.
fn subject_of(site: Site) -> &'static [u8]
    ensures { result.now ≡ spec.subject_of site }
{
    match site {
        Site::And => b"what is left of `&&` is ",
        Site::Or => b"what is left of `||` is ",
        Site::If | Site::Label | Site::Case => b"the condition is ",
    }
}

/// What is said of a label that every route has which comes to it, or none.
fn label_words(is_had: bool) -> &'static [u8]
    ensures { result.now ≡ spec.label_words is_had }
{
    if is_had {
        b"every route that comes here has this label"
    } else {
        b"no route that comes here has this label"
    }
}

/// How a condition comes out.
fn truth_word(value: bool) -> &'static [u8]
    ensures { result.now ≡ spec.truth_word value }
{
    if value { b"true" } else { b"false" }
}

/// What is said of a condition behind how it comes out.
#[tactic(auto, unfolding(crate::specs::WarningLines::here_words))]
fn here_words() -> &'static [u8]
    ensures { result.now ≡ spec.here_words }
{
    b" on every route that comes here"
}

/// Puts how a condition comes out at the end of `out`.
fn push_truth(out: &mut Vec<u8>, site: Site, value: bool) -> Result<(), AllocError>
    ensures { OnOk result (out.new.items ≡ out.old.items ++ spec.truth_words site value) }
{
    out.extend_from_slice(subject_of(site))?;
    out.extend_from_slice(truth_word(value))?;
    out.extend_from_slice(here_words())
}

/// Whether it is a label.
fn is_label(site: Site) -> bool
    ensures { result ≡ spec.is_label site }
{
    match site {
        Site::Label => true,
        _ => false,
    }
}

/// Puts what is said of a condition at the end of `out`.
fn push_constant(out: &mut Vec<u8>, site: Site, value: bool) -> Result<(), AllocError>
    ensures { OnOk result (out.new.items ≡ out.old.items ++ spec.constant_words site value) }
{
    if is_label(site) {
        out.extend_from_slice(label_words(value))
    } else {
        push_truth(out, site, value)
    }
}

/// Puts the bounds of an int at the end of `out`: one number where they are the same.
fn push_bounds(out: &mut Vec<u8>, bounds: ValueBounds) -> Result<(), AllocError>
    ensures { OnOk result (out.new.items ≡ out.old.items ++ spec.bounds_text bounds) }
{
    push_decimal(out, u64::from(bounds.low))?;
    if bounds.low == bounds.high {
        return Ok(());
    }
    out.extend_from_slice(b"..")?;
    push_decimal(out, u64::from(bounds.high))
}

/// What stands between the operands of an operation.
fn sign_of(operation: Operation) -> &'static [u8]
    ensures { result.now ≡ spec.sign_of operation }
{
    match operation {
        Operation::Sum => b" + ",
        Operation::Difference => b" - ",
        Operation::Product => b" * ",
    }
}

/// What is said of an operation behind its operands.
fn wrap_words(operation: Operation) -> &'static [u8]
    ensures { result.now ≡ spec.wrap_words operation }
{
    match operation {
        Operation::Difference => b" may wrap below 0",
        Operation::Sum | Operation::Product => b" may wrap above 4294967295",
    }
}

/// Puts what is said of an operation that may wrap at the end of `out`.
fn push_wraps(
    out: &mut Vec<u8>,
    operation: Operation,
    left: ValueBounds,
    right: ValueBounds,
) -> Result<(), AllocError>
    ensures { OnOk result (out.new.items ≡ out.old.items ++ spec.wraps_words operation left right) }
{
    push_bounds(out, left)?;
    out.extend_from_slice(sign_of(operation))?;
    push_bounds(out, right)?;
    out.extend_from_slice(wrap_words(operation))
}

/// Puts the lengths of a pattern at the end of `out`, as they are written behind its prefix.
fn push_lengths(out: &mut Vec<u8>, len: u8, low: u8, high: u8) -> Result<(), AllocError>
    ensures { OnOk result (out.new.items ≡ out.old.items ++ spec.lengths_text len low high) }
{
    if low == len && high == len {
        return Ok(());
    }
    if low == len && high == ADDRESS_LENGTH {
        return out.extend_from_slice(b"+");
    }
    out.push(b'{')?;
    push_decimal(out, u64::from(low))?;
    out.push(b',')?;
    push_decimal(out, u64::from(high))?;
    out.push(b'}')?;
    Ok(())
}

/// Puts a pattern at the end of `out`.
fn push_pattern(alloc: Global, out: &mut Vec<u8>, pattern: &Pattern) -> Result<(), AllocError>
    ensures { OnOk result (out.new.items ≡ out.old.items ++ spec.pattern_text pattern.now) }
{
    let prefix = pattern.prefix();
    push_prefix(alloc, out, prefix)?;
    push_lengths(out, prefix.len(), pattern.low(), pattern.high())
}

/// Puts the pattern of an index in a set at the end of `out`.
fn push_pattern_of(
    alloc: Global,
    out: &mut Vec<u8>,
    patterns: &[Pattern],
    at: usize,
) -> Result<(), AllocError>
    ensures { OnOk result (out.new.items ≡ out.old.items ++ spec.pattern_of patterns.now at) }
{
    match patterns.get(at) {
        Some(pattern) => push_pattern(alloc, out, pattern),
        None => Ok(()),
    }
}

/// The patterns of the set of a number.
fn patterns_of(sets: &[PatternSet], number: u8) -> &[Pattern]
    ensures { result.now ≡ spec.patterns_of sets.now number }
{
    match sets.get(usize::from(number)) {
        Some(set) => set.patterns(),
        None => &[],
    }
}

/// What stands behind a pattern that another one covers.
#[tactic(auto, unfolding(crate::specs::WarningLines::covered_by))]
fn covered_by() -> &'static [u8]
    ensures { result.now ≡ spec.covered_by }
{
    b" is covered by "
}

/// What stands behind that other one.
#[tactic(auto, unfolding(crate::specs::WarningLines::of_same_set))]
fn of_same_set() -> &'static [u8]
    ensures { result.now ≡ spec.of_same_set }
{
    b" of the same set"
}

/// Puts a pattern that another one covers at the end of `out`.
fn push_inner(
    alloc: Global,
    out: &mut Vec<u8>,
    patterns: &[Pattern],
    at: usize,
) -> Result<(), AllocError>
    ensures { OnOk result (out.new.items ≡ out.old.items ++ spec.inner_words patterns.now at) }
{
    push_pattern_of(alloc, out, patterns, at)?;
    out.extend_from_slice(covered_by())
}

/// Puts the pattern that covers it at the end of `out`.
fn push_outer(
    alloc: Global,
    out: &mut Vec<u8>,
    patterns: &[Pattern],
    at: usize,
) -> Result<(), AllocError>
    ensures { OnOk result (out.new.items ≡ out.old.items ++ spec.outer_words patterns.now at) }
{
    push_pattern_of(alloc, out, patterns, at)?;
    out.extend_from_slice(of_same_set())
}

/// Puts what is said of two patterns of a set, of which the second covers the first, at the end of `out`.
fn push_pair(
    alloc: Global,
    out: &mut Vec<u8>,
    patterns: &[Pattern],
    inner: usize,
    outer: usize,
) -> Result<(), AllocError>
    ensures { OnOk result (out.new.items ≡ out.old.items ++ spec.pair_words patterns.now inner outer) }
{
    push_inner(alloc, out, patterns, inner)?;
    push_outer(alloc, out, patterns, outer)
}

/// Puts what is said of a pattern that another one of its set covers at the end of `out`.
fn push_covered(
    alloc: Global,
    out: &mut Vec<u8>,
    sets: &[PatternSet],
    number: u8,
    inner: usize,
    outer: usize,
) -> Result<(), AllocError>
    ensures { OnOk result (out.new.items ≡ out.old.items ++ spec.covered_words sets.now number inner outer) }
{
    push_pair(alloc, out, patterns_of(sets, number), inner, outer)
}

/// Puts what is said of a range of ints that shares a number with another one of its set at the end of `out`.
fn push_overlapping(
    out: &mut Vec<u8>,
    range: ValueBounds,
    other: ValueBounds,
) -> Result<(), AllocError>
    ensures { OnOk result (out.new.items ≡ out.old.items ++ spec.overlapping_words range other) }
{
    push_bounds(out, range)?;
    out.extend_from_slice(b" overlaps ")?;
    push_bounds(out, other)?;
    out.extend_from_slice(of_same_set())
}

/// Puts what is said of a metric that means unreachable at the end of `out`.
fn push_unreachable(out: &mut Vec<u8>, bounds: ValueBounds) -> Result<(), AllocError>
    ensures { OnOk result (out.new.items ≡ out.old.items ++ spec.unreachable_words bounds) }
{
    out.extend_from_slice(b"the metric is set to ")?;
    push_bounds(out, bounds)?;
    out.extend_from_slice(b", which means unreachable")
}

/// What is said of a metric that is not lowered.
#[tactic(auto, unfolding(crate::specs::WarningLines::not_lowered_words))]
fn not_lowered_words() -> &'static [u8]
    ensures { result.now ≡ spec.not_lowered_words }
{
    b"a filter cannot lower the metric: on some route that comes here the value is below the one received"
}

/// Puts what becomes of a metric at the end of `out`.
fn push_outcome(out: &mut Vec<u8>, metric: u64, outcome: Outcome) -> Result<(), AllocError>
    ensures { OnOk result (out.new.items ≡ out.old.items ++ spec.outcome_words metric outcome) }
{
    push_decimal(out, metric)?;
    match outcome {
        Outcome::Accept(after) => {
            out.extend_from_slice(b" becomes ")?;
            push_decimal(out, u64::from(after))
        }
        Outcome::Reject => out.extend_from_slice(b" is rejected"),
        Outcome::Fault(_, _) => out.extend_from_slice(b" ends with a fault"),
    }
}

/// Puts what becomes of two metrics at the end of `out`.
fn push_outcomes(out: &mut Vec<u8>, shown: &Disorder) -> Result<(), AllocError>
    ensures { OnOk result (out.new.items ≡ out.old.items ++ spec.outcomes_words shown.now) }
{
    push_outcome(out, u64::from(shown.metric), shown.lesser)?;
    out.extend_from_slice(b", and ")?;
    push_outcome(out, u64::from(shown.metric) + 1, shown.next)
}

/// Puts what is said of two metrics of a route, of which the lesser one comes to more, at the end of `out`.
fn push_disordered(alloc: Global, out: &mut Vec<u8>, shown: &Disorder) -> Result<(), AllocError>
    ensures { OnOk result (out.new.items ≡ out.old.items ++ spec.disordered_words shown.now) }
{
    out.extend_from_slice(b"the order of metrics is not kept: of ")?;
    push_prefix(alloc, out, shown.prefix)?;
    out.extend_from_slice(b" metric ")?;
    push_outcomes(out, shown)
}

/// Puts what is said of a cause at the end of `out`.
pub(crate) fn push_words(
    alloc: Global,
    out: &mut Vec<u8>,
    sets: &[PatternSet],
    cause: WarningCause,
) -> Result<(), AllocError>
    ensures { OnOk result (out.new.items ≡ out.old.items ++ spec.words sets.now cause) }
{
    match cause {
        WarningCause::Constant(site, value) => push_constant(out, site, value),
        WarningCause::Unreached => out.extend_from_slice(b"no route reaches this command"),
        WarningCause::Wraps(operation, left, right) => push_wraps(out, operation, left, right),
        WarningCause::Covered(set, inner, outer) => {
            push_covered(alloc, out, sets, set, inner, outer)
        }
        WarningCause::Overlapping(range, other) => push_overlapping(out, range, other),
        WarningCause::Unread => out.extend_from_slice(b"this variable is never read"),
        WarningCause::Unreachable(bounds) => push_unreachable(out, bounds),
        WarningCause::NotLowered => out.extend_from_slice(not_lowered_words()),
        WarningCause::Disordered(shown) => push_disordered(alloc, out, &shown),
    }
}

/// Puts what is said of a cause and its code at the end of `out`, to the end of the line.
fn push_message(
    alloc: Global,
    out: &mut Vec<u8>,
    sets: &[PatternSet],
    cause: &WarningCause,
) -> Result<(), AllocError>
    ensures { OnOk result (out.new.items ≡ out.old.items ++ message (spec.words sets.now cause.now) (spec.code_of cause.now)) }
{
    out.extend_from_slice(b": ")?;
    push_words(alloc, out, sets, *cause)?;
    out.extend_from_slice(b" (")?;
    out.extend_from_slice(cause.code())?;
    out.extend_from_slice(b")\n")
}

/// Puts the line of a warning at the end of `out`, where the name of the source is shown so.
pub(crate) fn push_warning(
    alloc: Global,
    out: &mut Vec<u8>,
    name: &[u8],
    text: &[u8],
    sets: &[PatternSet],
    warning: &Warning,
) -> Result<(), AllocError>
    ensures { OnOk result (out.new.items ≡ out.old.items ++ spec.warning_line name.now text.now sets.now warning.now) }
{
    let place = place_in(text, warning.byte);
    push_shown(alloc, out, name)?;
    push_position(out, place.line, place.column)?;
    push_message(alloc, out, sets, &warning.cause)
}

/// Puts what is said of a prefix with host bits at the end of `out`.
pub(crate) fn push_host_bits_words(
    alloc: Global,
    out: &mut Vec<u8>,
    text: &[u8],
    found: &HostBits,
) -> Result<(), AllocError>
    ensures { OnOk result (out.new.items ≡ out.old.items ++ spec.host_bits_words text.now found.now) }
{
    out.extend_from_slice(bytes_of(text, &found.token))?;
    out.extend_from_slice(b" is read as ")?;
    push_prefix(alloc, out, found.prefix)
}

/// Puts what is said of a prefix with host bits and its code at the end of `out`, to the end of the line.
fn push_host_bits_message(
    alloc: Global,
    out: &mut Vec<u8>,
    text: &[u8],
    found: &HostBits,
) -> Result<(), AllocError>
    ensures { OnOk result (out.new.items ≡ out.old.items ++ message (spec.host_bits_words text.now found.now) (codes "W5")) }
{
    out.extend_from_slice(b": ")?;
    push_host_bits_words(alloc, out, text, found)?;
    out.extend_from_slice(b" (W5)\n")
}

/// Puts the line of a prefix with host bits at the end of `out`, where the name of the source is shown so.
pub(crate) fn push_host_bits(
    alloc: Global,
    out: &mut Vec<u8>,
    name: &[u8],
    text: &[u8],
    found: &HostBits,
) -> Result<(), AllocError>
    ensures { OnOk result (out.new.items ≡ out.old.items ++ spec.host_bits_line name.now text.now found.now) }
{
    let place = place_in(text, found.token.from);
    push_shown(alloc, out, name)?;
    push_position(out, place.line, place.column)?;
    push_host_bits_message(alloc, out, text, found)
}

/// What the line that says that not all routes were tried says behind the name.
#[tactic(auto, unfolding(crate::specs::WarningLines::undecided_words))]
fn undecided_words() -> &'static [u8]
    ensures { result.now ≡ spec.undecided_words }
{
    b": undecided: not all routes were tried, so W1, W2 and W8 were not looked for\n"
}

/// Puts that line at the end of `out`, where not all routes were tried.
pub(crate) fn push_undecided(
    alloc: Global,
    out: &mut Vec<u8>,
    name: &[u8],
    is_complete: bool,
) -> Result<(), AllocError>
    ensures { OnOk result (out.new.items ≡ out.old.items ++ spec.undecided_text name.now is_complete) }
{
    if is_complete {
        return Ok(());
    }
    push_shown(alloc, out, name)?;
    out.extend_from_slice(undecided_words())
}

/// What the line that says that not all pairs of metrics were tried says behind the name.
#[tactic(auto, unfolding(crate::specs::WarningLines::unordered_words))]
fn unordered_words() -> &'static [u8]
    ensures { result.now ≡ spec.unordered_words }
{
    b": undecided: not all metrics of all routes were tried, so W9 was not looked for\n"
}

/// Puts that line at the end of `out`, where not all were tried.
pub(crate) fn push_unordered(
    alloc: Global,
    out: &mut Vec<u8>,
    name: &[u8],
    is_ordered: bool,
) -> Result<(), AllocError>
    ensures { OnOk result (out.new.items ≡ out.old.items ++ spec.unordered_text name.now is_ordered) }
{
    if is_ordered {
        return Ok(());
    }
    push_shown(alloc, out, name)?;
    out.extend_from_slice(unordered_words())
}

/// Puts the lines of the warnings of a text at the end of `out`.
fn push_warnings(
    alloc: Global,
    out: &mut Vec<u8>,
    format: Format,
    name: &[u8],
    text: &[u8],
    sets: &[PatternSet],
    warnings: &[Warning],
) -> Result<(), AllocError>
    ensures { OnOk result (out.new.items ≡ out.old.items ++ flat_map (spec.warning_in format name.now text.now sets.now) warnings.now) }
{
    for warning in warnings {
        push_found(alloc, out, format, name, text, sets, warning)?;
    }
    Ok(())
}

/// Puts the lines of the prefixes of a text that have host bits at the end of `out`.
fn push_all_host_bits(
    alloc: Global,
    out: &mut Vec<u8>,
    format: Format,
    name: &[u8],
    text: &[u8],
    all: &[HostBits],
) -> Result<(), AllocError>
    ensures { OnOk result (out.new.items ≡ out.old.items ++ spec.host_bits_text format name.now text.now all.now) }
{
    for found in all {
        push_found_host_bits(alloc, out, format, name, text, found)?;
    }
    Ok(())
}

/// The lines of the prefixes of a text that have host bits.
pub(crate) fn host_bits_text(
    alloc: Global,
    format: Format,
    name: &[u8],
    text: &[u8],
    all: &[HostBits],
) -> Result<Vec<u8>, AllocError>
    ensures { IfOk result (λ out. out.items ≡ spec.host_bits_text format name.now text.now all.now) }
{
    let mut out = Vec::new(alloc);
    push_all_host_bits(alloc, &mut out, format, name, text, all)?;
    Ok(out)
}

/// The lines of the warnings of a text, of its prefixes with host bits, and last ones where not all routes were tried, or not all metrics.
pub(crate) fn warnings_text(
    alloc: Global,
    format: Format,
    name: &[u8],
    text: &[u8],
    sets: &[PatternSet],
    warnings: &[Warning],
    host_bits: &[HostBits],
    is_complete: bool,
    is_ordered: bool,
) -> Result<Vec<u8>, AllocError>
    ensures { IfOk result (λ out. out.items
        ≡ spec.warnings_text format name.now text.now sets.now warnings.now host_bits.now is_complete is_ordered) }
{
    let mut out = Vec::new(alloc);
    push_warnings(alloc, &mut out, format, name, text, sets, warnings)?;
    push_all_host_bits(alloc, &mut out, format, name, text, host_bits)?;
    push_found_undecided(alloc, &mut out, format, name, is_complete)?;
    push_found_unordered(alloc, &mut out, format, name, is_ordered)?;
    Ok(out)
}
