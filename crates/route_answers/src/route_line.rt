//! A route line: `PREFIX METRIC SIZE`, or `PREFIX METRIC` where the size of the domain is given.
//!
//! **A route line is read in two ways.** The first reads the usual spelling in one pass: it says that what it returns is the route of the line, and
//! that it returns one for each line in that spelling. Where it returns none, the second cuts the line into words and judges each. So the meaning
//! of a line is defined in one place, and the lines of a large input are read at the speed of a scan. `read_route` does both, of `eval`'s lines of
//! three words and of `filter`'s of two: whether the size is given is known where it is called, and the compiler makes of it one reader for each.
//! What the usual spelling of numbers and prefixes is, `prefix_patterns` says once for all who read it.
ghost use Rattle.std.specs.Prelude.{◌≡◌, ◌≤◌, ℕ, [], length, IfSome, IsSome, IsSomeAnd, Ok};
ghost use Rattle.std.specs.Option.{option_map};
ghost use Rattle.line_protocol.specs.Limits.{line_limit, number_limit};
ghost use Rattle.line_protocol.specs.Words.{words};
ghost use Rattle.prefix_patterns.specs.Reading.{number_in, prefix_in};
ghost use Rattle.route_answers.specs.RouteLine.{BeginsWithSize, IsUsualEnd, IsUsualLine, parts_in, route_in, route_of_parts};

use crate::line_fault::LineFault;
use filter_code::Route;
use line_protocol::{LINE_LIMIT, NUMBER_LIMIT, next_word};
use prefix_patterns::{after_byte, leading_number, leading_prefix, read_number, read_prefix};

/// The texts of the prefix and of the metric of a line, and its size: the given one, or the number of its third word.
fn parts_of(line: &[u8], given: Option<u32>) -> Option<(&[u8], &[u8], Option<u32>)>
    ensures { parts_in (words line.now) given ≡ option_map (λ all. (all.0.now, all.1.now, all.2)) result }
{
    let (prefix, rest) = next_word(line)?;
    let (metric, rest) = next_word(rest)?;
    match given {
        Some(_) => match next_word(rest) {
            None => Some((prefix, metric, given)),
            Some(_) => None,
        },
        None => {
            let (size, rest) = next_word(rest)?;
            match next_word(rest) {
                None => Some((prefix, metric, read_number(size, NUMBER_LIMIT))),
                Some(_) => None,
            }
        }
    }
}

/// The route of the texts of a prefix and of a metric, in a domain of a size, if that was read.
fn read_parts(prefix: &[u8], metric: &[u8], size: Option<u32>) -> Result<Route, LineFault>
    ensures { result ≡ route_of_parts (prefix_in prefix.now) (number_in number_limit metric.now) size }
{
    let Some(prefix) = read_prefix(prefix) else {
        return Err(LineFault::Prefix);
    };
    let Some(metric) = read_number(metric, NUMBER_LIMIT) else {
        return Err(LineFault::Numbers);
    };
    let Some(size) = size else {
        return Err(LineFault::Numbers);
    };
    Route::new(prefix, metric, size).ok_or(LineFault::Numbers)
}

/// The size that is given, or the one behind a metric and a space, in the usual spelling; and what follows it.
#[inline(always)]
fn leading_size(text: &[u8], given: Option<u32>) -> Option<(u32, &[u8])>
    ensures found { IfSome result (λ cut. BeginsWithSize given text.now cut.0 cut.1.now) }
    // What ends a line in the usual spelling is read, and all of it.
    ensures usual { (size : ℕ) → IsUsualEnd given text.now size → IsSomeAnd result (λ cut. (cut.0 ≡ size) × (cut.1.now ≡ [])) }
{
    match given {
        Some(size) => Some((size, text)),
        None => {
            let (size, rest) = leading_number(after_byte(text, b' ')?)?;
            Some((size, rest))
        }
    }
}

/// The route of a line whose words are parted by one space each, in the usual spelling.
#[inline(always)]
fn read_plain(line: &[u8], given: Option<u32>) -> Option<Route>
    requires { length line.now ≤ line_limit }
    ensures route { IfSome result (λ route. route_in given line.now ≡ Ok route) }
    // A line in the usual spelling is read in this one pass.
    ensures usual { IsUsualLine given line.now → IsSome result }
{
    let Some((prefix, rest)) = leading_prefix(line) else {
        return None;
    };
    let (metric, rest) = leading_number(after_byte(rest, b' ')?)?;
    let (size, rest) = leading_size(rest, given)?;
    if !rest.is_empty() {
        return None;
    }
    let route = Route::new(prefix, metric, size)?;
    Some(route)
}

/// The route of a line in the usual spelling, which is read in one pass.
#[inline(always)]
pub(crate) fn read_usual(line: &[u8], given: Option<u32>) -> Option<Route>
    ensures route { IfSome result (λ route. route_in given line.now ≡ Ok route) }
    ensures usual { length line.now ≤ line_limit → IsUsualLine given line.now → IsSome result }
{
    if line.len() > LINE_LIMIT {
        return None;
    }
    read_plain(line, given)
}

/// Reads a route line word by word.
#[cold]
#[inline(never)]
pub(crate) fn read_words(line: &[u8], given: Option<u32>) -> Result<Route, LineFault>
    ensures { result ≡ route_in given line.now }
{
    if line.len() > LINE_LIMIT {
        return Err(LineFault::TooLong);
    }
    match parts_of(line, given) {
        None => Err(LineFault::Words),
        Some((prefix, metric, size)) => read_parts(prefix, metric, size),
    }
}

/// Reads a route line, which is at most as long as a line may be: `PREFIX METRIC SIZE`, or `PREFIX METRIC` in a domain of the given size.
#[inline(always)]
pub fn read_route(line: &[u8], given: Option<u32>) -> Result<Route, LineFault>
    ensures { result ≡ route_in given line.now }
{
    match read_usual(line, given) {
        Some(route) => Ok(route),
        None => read_words(line, given),
    }
}
