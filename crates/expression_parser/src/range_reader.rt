//! Ranges of ints, as sets of ints and labels have them.

ghost use Rattle.std.specs.Prelude.{◌∷◌, ◌<◌, ◌≤◌, [], Some, None, IfOk, length, map};
ghost use Rattle.filter_syntax.specs.Placed.{next_range_kept, range_kept, ranges_kept};
ghost use Rattle.expression_parser.specs.Reading as spec;
ghost use Rattle.expression_parser.specs.Steps.{Reads, Continues, Grown, ReadsAs, StaysWithin, StaysWithinAfter, remaining};
ghost use Rattle.filter_syntax.specs.Syntax.{view_range};

use crate::fault::ParseFault;
use crate::input::Input;
use filter_syntax::SetRange;
use filter_tokens::Symbol;
use int_sets::IntRange;
use std::alloc::Global;

/// A range, after its first int, which has the place `at`, and `..`.
fn parse_range_up<'a>(
    at: usize,
    low: u32,
    input: Input<'a>,
) -> Result<(SetRange, Input<'a>), ParseFault>
    ensures reads { ReadsAs spec.range_read_of result (spec.range_up_from low (remaining input.entry)) }
    ensures shorter { IfOk result (λ x. length (remaining x.1) < length (remaining input.entry)) }
    ensures placed { IfOk result (λ x. Continues (Some at ∷ None ∷ []) (range_kept x.0) input.entry x.1) }
    ensures within { StaysWithinAfter at input.entry result }
{
    let (high, rest) = input.expect_number()?;
    match IntRange::new(low, high) {
        Some(range) => Ok((SetRange::FromTo(at, range), rest)),
        None => Err(ParseFault::RangeOrder(at)),
    }
}

/// A range, after its first int, which has the place `at`.
fn parse_range_from<'a>(
    at: usize,
    low: u32,
    input: Input<'a>,
) -> Result<(SetRange, Input<'a>), ParseFault>
    ensures reads { ReadsAs spec.range_read_of result (spec.range_from low (remaining input.entry)) }
    ensures shorter { IfOk result (λ x. length (remaining x.1) ≤ length (remaining input.entry)) }
    ensures placed { IfOk result (λ x. Continues (Some at ∷ []) (range_kept x.0) input.entry x.1) }
    ensures within { StaysWithinAfter at input.entry result }
{
    match input.eat(Symbol::DotDot) {
        Some(rest) => parse_range_up(at, low, rest),
        None => Ok((SetRange::One(at, low), input)),
    }
}

/// A range.
fn parse_range<'a>(input: Input<'a>) -> Result<(SetRange, Input<'a>), ParseFault>
    ensures { Reads view_range range_kept spec.a_range input.entry result }
{
    match input.expect_number() {
        Ok((low, rest)) => parse_range_from(input.at(), low, rest),
        Err(fault) => Err(fault),
    }
}

/// Ranges after those that were read, as long as commas follow.
fn parse_more_ranges<'a>(
    ranges: Vec<SetRange>,
    input: Input<'a>,
) -> Result<(Vec<SetRange>, Input<'a>), ParseFault>
    ensures reads { ReadsAs spec.ranges_read_of result
        (spec.more_ranges (map view_range ranges.items) (remaining input.entry)) }
    ensures shorter { IfOk result (λ x. length (remaining x.1) ≤ length (remaining input.entry)) }
    ensures placed { IfOk result (λ x. Grown next_range_kept ranges.items x.0.items input.entry x.1) }
    ensures within { StaysWithin input.entry result }
{
    let mut all = ranges;
    let mut rest = input;
    while let Some(after) = rest.eat(Symbol::Comma) {
        match parse_range(after) {
            Ok((range, next)) => {
                all.push(range)?;
                rest = next;
            }
            Err(fault) => return Err(fault),
        }
    }
    Ok((all, rest))
}

/// Ranges after the first one.
fn parse_ranges_after<'a>(
    alloc: Global,
    first: SetRange,
    input: Input<'a>,
) -> Result<(Vec<SetRange>, Input<'a>), ParseFault>
    ensures reads { ReadsAs spec.ranges_read_of result
        (spec.more_ranges (view_range first ∷ []) (remaining input.entry)) }
    ensures shorter { IfOk result (λ x. length (remaining x.1) ≤ length (remaining input.entry)) }
    ensures placed { IfOk result (λ x. Continues (range_kept first) (ranges_kept x.0.items) input.entry x.1) }
    ensures within { StaysWithin input.entry result }
{
    let mut ranges = Vec::new(alloc);
    ranges.push(first)?;
    parse_more_ranges(ranges, input)
}

/// Ranges, after the first int of the first one, which has the place `at`.
pub fn parse_ranges_from<'a>(
    alloc: Global,
    at: usize,
    low: u32,
    input: Input<'a>,
) -> Result<(Vec<SetRange>, Input<'a>), ParseFault>
    ensures reads { ReadsAs spec.ranges_read_of result (spec.ranges_from low (remaining input.entry)) }
    ensures shorter { IfOk result (λ x. length (remaining x.1) ≤ length (remaining input.entry)) }
    ensures placed { IfOk result (λ x. Continues (Some at ∷ []) (ranges_kept x.0.items) input.entry x.1) }
    ensures within { StaysWithinAfter at input.entry result }
{
    match parse_range_from(at, low, input) {
        Ok((first, rest)) => parse_ranges_after(alloc, first, rest),
        Err(fault) => Err(fault),
    }
}
