//! A line of a test file is read as a test.
//!
//! **A line that is no test refuses the whole file**, with O1 and its number, whatever is wrong with it: a test that was left out for a typing
//! error would never fail. A file without a test is refused as well, at 0.
ghost use Rattle.std.specs.Prelude.{◌≡◌, ◌<◌, ◌≤◌};
ghost use Rattle.std.specs.Option.{option_map};
ghost use Rattle.line_protocol.specs.Words.{words};
ghost use Rattle.prefix_patterns.specs.Bits.{address_length};
ghost use Rattle.prefix_patterns.specs.Reading.{parts_at};
ghost use Rattle.filter_checks.specs.Reading as spec;

use crate::keyword::{TestKeyword, find_keyword, is_every};
use filter_code::Outcome;
use filter_diff::{Expectation, RunEnding};
use line_protocol::next_word;
use prefix_patterns::{ADDRESS_LENGTH, Pattern, Prefix, cut_at, read_number, read_prefix};

/// There are no more words.
pub(crate) fn no_more(line: &[u8]) -> Option<()>
    ensures { spec.no_more (words line.now) ≡ option_map (λ _. tt) result }
{
    match next_word(line) {
        Some(_) => None,
        None => Some(()),
    }
}

/// The first word of a line, and the bytes after it.
pub(crate) fn first_word(line: &[u8]) -> Option<(&[u8], &[u8])>
    ensures { spec.first_word (words line.now) ≡ option_map (λ p. (p.0.now, words p.1.now)) result }
{
    next_word(line)
}

/// A number of at most `most`, and the bytes after it.
#[tactic(auto, unfolding(crate::specs::Reading::first_number))]
pub(crate) fn first_number(line: &[u8], most: u32) -> Option<(u32, &[u8])>
    ensures { spec.first_number most (words line.now) ≡ option_map (λ p. (p.0, words p.1.now)) result }
{
    let (word, rest) = first_word(line)?;
    let number = read_number(word, most)?;
    Some((number, rest))
}

/// A keyword, and the bytes after it.
#[tactic(auto, unfolding(crate::specs::Reading::first_keyword))]
pub(crate) fn first_keyword(line: &[u8]) -> Option<(TestKeyword, &[u8])>
    ensures { spec.first_keyword (words line.now) ≡ option_map (λ p. (p.0, words p.1.now)) result }
{
    let (word, rest) = first_word(line)?;
    let keyword = find_keyword(word)?;
    Some((keyword, rest))
}

/// The bytes after an arrow.
#[tactic(auto, unfolding(crate::specs::Reading::behind_arrow))]
fn behind_arrow(line: &[u8]) -> Option<&[u8]>
    ensures { spec.behind_arrow (words line.now) ≡ option_map (λ rest. words rest.now) result }
{
    let (keyword, rest) = first_keyword(line)?;
    match keyword {
        TestKeyword::Arrow => Some(rest),
        _ => None,
    }
}

/// `accept`: with the metric received, or with the one that follows.
#[tactic(auto, unfolding(crate::specs::Reading::accepted_in))]
fn accepted_in(line: &[u8], size: u32) -> Option<RunEnding>
    ensures { spec.accepted_in size (words line.now) ≡ result }
{
    match next_word(line) {
        None => Some(RunEnding::Unchanged),
        Some((word, rest)) => {
            let metric = read_number(word, size)?;
            no_more(rest)?;
            Some(RunEnding::Fixed(Outcome::Accept(metric)))
        }
    }
}

/// A verdict by its keyword, where nothing follows.
#[tactic(auto, unfolding(crate::specs::Reading::verdict_of))]
fn verdict_of(keyword: TestKeyword, line: &[u8], size: u32) -> Option<RunEnding>
    ensures { spec.verdict_of size keyword (words line.now) ≡ result }
{
    match keyword {
        TestKeyword::Accept => accepted_in(line, size),
        TestKeyword::Reject => {
            no_more(line)?;
            Some(RunEnding::Fixed(Outcome::Reject))
        }
        _ => None,
    }
}

/// A verdict, where nothing follows.
#[tactic(auto, unfolding(crate::specs::Reading::verdict_in))]
fn verdict_in(line: &[u8], size: u32) -> Option<RunEnding>
    ensures { spec.verdict_in size (words line.now) ≡ result }
{
    let (keyword, rest) = first_keyword(line)?;
    verdict_of(keyword, rest, size)
}

/// Two numbers in order.
fn in_order(low: u32, high: u32) -> Option<(u32, u32)>
    ensures { spec.in_order low high ≡ result }
{
    if low <= high { Some((low, high)) } else { None }
}

/// There is nothing.
fn none_of(text: &[u8]) -> Option<()>
    ensures { spec.none_of text.now ≡ option_map (λ _. tt) result }
{
    match text {
        [] => Some(()),
        [_, ..] => None,
    }
}

/// What stands behind a dot.
fn behind_dot(text: &[u8]) -> Option<&[u8]>
    ensures { spec.behind_dot text.now ≡ option_map (λ rest. rest.now) result }
{
    match text {
        [b'.', rest @ ..] => Some(rest),
        _ => None,
    }
}

/// The metrics from a text to one behind another dot.
#[tactic(auto, unfolding(crate::specs::Reading::metrics_between))]
fn metrics_between(first: &[u8], behind: &[u8], size: u32) -> Option<(u32, u32)>
    ensures { spec.metrics_between size first.now behind.now ≡ result }
{
    let last = behind_dot(behind)?;
    let least = read_number(first, size)?;
    let greatest = read_number(last, size)?;
    in_order(least, greatest)
}

/// One metric alone.
#[tactic(auto, unfolding(crate::specs::Reading::one_metric))]
fn one_metric(text: &[u8], size: u32) -> Option<(u32, u32)>
    ensures { spec.one_metric size text.now ≡ result }
{
    let metric = read_number(text, size)?;
    Some((metric, metric))
}

/// Metrics: `A..B`, or `A` alone.
fn metrics_in(text: &[u8], size: u32) -> Option<(u32, u32)>
    ensures { spec.metrics_in size text.now ≡ result }
{
    match cut_at(text, b'.') {
        Some((first, behind)) => metrics_between(first, behind, size),
        None => one_metric(text, size),
    }
}

/// Metrics that are named, and the bytes after the arrow behind them.
#[tactic(auto, unfolding(crate::specs::Reading::named_metrics))]
fn named_metrics(line: &[u8], size: u32) -> Option<((u32, u32), &[u8])>
    ensures { spec.named_metrics size (words line.now) ≡ option_map (λ p. (p.0, words p.1.now)) result }
{
    let (word, rest) = first_word(line)?;
    let metrics = metrics_in(word, size)?;
    let rest = behind_arrow(rest)?;
    Some((metrics, rest))
}

/// Metrics by the keyword before them, and the bytes after the arrow.
fn metrics_by(keyword: TestKeyword, line: &[u8], size: u32) -> Option<((u32, u32), &[u8])>
    ensures { spec.metrics_by size keyword (words line.now) ≡ option_map (λ p. (p.0, words p.1.now)) result }
{
    match keyword {
        TestKeyword::Arrow => Some(((0, size), line)),
        TestKeyword::Metric => named_metrics(line, size),
        _ => None,
    }
}

/// The metrics of a test of many routes, and the bytes after its arrow.
#[tactic(auto, unfolding(crate::specs::Reading::first_metrics))]
fn first_metrics(line: &[u8], size: u32) -> Option<((u32, u32), &[u8])>
    ensures { spec.first_metrics size (words line.now) ≡ option_map (λ p. (p.0, words p.1.now)) result }
{
    let (keyword, rest) = first_keyword(line)?;
    metrics_by(keyword, rest, size)
}

/// The pattern of a prefix and two lengths.
fn with_lengths(prefix: Prefix, low: u8, high: u8) -> Option<Pattern>
    requires { high ≤ address_length }
    ensures { spec.with_lengths prefix low high ≡ result }
{
    Pattern::new(prefix, low, high)
}

/// A pattern with its lengths in braces, of which these are the texts before and behind the first brace.
#[tactic(auto, unfolding(crate::specs::Reading::braced))]
fn braced(first: &[u8], behind: &[u8]) -> Option<Pattern>
    ensures { spec.braced first.now behind.now ≡ result }
{
    let prefix = read_prefix(first)?;
    let (low, behind) = cut_at(behind, b',')?;
    let (high, behind) = cut_at(behind, b'}')?;
    none_of(behind)?;
    let least = read_number(low, u32::from(ADDRESS_LENGTH))?;
    let greatest = read_number(high, u32::from(ADDRESS_LENGTH))?;
    with_lengths(prefix, least as u8, greatest as u8)
}

/// The pattern of a prefix and all within it.
#[tactic(auto, unfolding(crate::specs::Reading::all_within))]
fn all_within(first: &[u8], behind: &[u8]) -> Option<Pattern>
    ensures { spec.all_within first.now behind.now ≡ result }
{
    let prefix = read_prefix(first)?;
    none_of(behind)?;
    Pattern::new(prefix, prefix.len(), ADDRESS_LENGTH)
}

/// The pattern of a prefix and all that it lies in.
#[tactic(auto, unfolding(crate::specs::Reading::all_round))]
fn all_round(first: &[u8], behind: &[u8]) -> Option<Pattern>
    ensures { spec.all_round first.now behind.now ≡ result }
{
    let prefix = read_prefix(first)?;
    none_of(behind)?;
    Pattern::new(prefix, 0, prefix.len())
}

/// The pattern of a prefix alone.
#[tactic(auto, unfolding(crate::specs::Reading::alone))]
fn alone(text: &[u8]) -> Option<Pattern>
    ensures { spec.alone text.now ≡ result }
{
    let prefix = read_prefix(text)?;
    Pattern::new(prefix, prefix.len(), prefix.len())
}

/// A pattern without braces and without a `+`.
fn unsigned(text: &[u8]) -> Option<Pattern>
    ensures { spec.unsigned_of text.now (parts_at spec.minus text.now) ≡ result }
{
    match cut_at(text, b'-') {
        Some((first, behind)) => all_round(first, behind),
        None => alone(text),
    }
}

/// A pattern without braces.
fn unbraced(text: &[u8]) -> Option<Pattern>
    ensures { spec.unbraced_of text.now (parts_at spec.plus text.now) ≡ result }
{
    match cut_at(text, b'+') {
        Some((first, behind)) => all_within(first, behind),
        None => unsigned(text),
    }
}

/// A pattern.
fn pattern_in(text: &[u8]) -> Option<Pattern>
    ensures { spec.pattern_in text.now ≡ result }
{
    match cut_at(text, b'{') {
        Some((first, behind)) => braced(first, behind),
        None => unbraced(text),
    }
}

/// A test of many routes, behind its first word.
#[tactic(auto, unfolding(crate::specs::Reading::every_in))]
fn every_in(line: &[u8], size: u32) -> Option<Expectation>
    ensures { spec.every_in size (words line.now) ≡ result }
{
    let (word, rest) = first_word(line)?;
    let pattern = pattern_in(word)?;
    let ((least, greatest), rest) = first_metrics(rest, size)?;
    let ending = verdict_in(rest, size)?;
    Some(Expectation {
        pattern,
        least,
        greatest,
        ending,
    })
}

/// A test of one route.
#[tactic(auto, unfolding(crate::specs::Reading::one_in))]
fn one_in(line: &[u8], size: u32) -> Option<Expectation>
    ensures { spec.one_in size (words line.now) ≡ result }
{
    let (word, rest) = first_word(line)?;
    let pattern = alone(word)?;
    let (metric, rest) = first_number(rest, size)?;
    let rest = behind_arrow(rest)?;
    let ending = verdict_in(rest, size)?;
    Some(Expectation {
        pattern,
        least: metric,
        greatest: metric,
        ending,
    })
}

/// A test in a domain of a size.
pub(crate) fn test_in(line: &[u8], size: u32) -> Option<Expectation>
    ensures { spec.test_in size (words line.now) ≡ result }
{
    let (first, others) = next_word(line)?;
    if is_every(first) {
        every_in(others, size)
    } else {
        one_in(line, size)
    }
}
