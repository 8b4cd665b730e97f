ghost use Rattle.std.specs.Prelude.{◌∷◌, ◌<◌, ◌≤◌, [], Some, None, IfOk, length, map};
ghost use Rattle.filter_syntax.specs.Placed.{next_pattern_kept, set_kept, set_pattern_kept};
ghost use Rattle.expression_parser.specs.Reading as spec;
ghost use Rattle.expression_parser.specs.Steps.{Reads, ReadsOn, Continues, Finds, Grown, ReadsAs, Spans, StaysWithin, StaysWithinAfter, remaining};
ghost use Rattle.filter_syntax.specs.Syntax.{SetPatternView, view_set_pattern};
ghost use Rattle.expression_parser.specs.declared.input.Input.{Input as TheInput};

use crate::expected::Expected;
use crate::fault::ParseFault;
use crate::input::Input;
use crate::range_reader::parse_ranges_from;
use filter_syntax::{Members, Set, SetPattern};
use filter_tokens::Symbol;
use prefix_patterns::{ADDRESS_LENGTH, Pattern, Prefix};
use std::alloc::Global;

/// The pattern with these lengths, where they are in order.
fn between(prefix: Prefix, low: u32, high: u32) -> Option<Pattern>
    ensures { Finds (λ p. SetPatternView.between p.bits p.low p.high) result (spec.between_of prefix low high) }
{
    let limit = u32::from(ADDRESS_LENGTH);
    if low > limit || high > limit {
        return None;
    }
    Pattern::new(prefix, low as u8, high as u8)
}

/// A pattern with lengths in braces, after its `{`, which has the place `brace`. The pattern's place is `at`.
fn parse_braces<'a>(
    at: usize,
    prefix: Prefix,
    brace: usize,
    input: Input<'a>,
) -> Result<(SetPattern, Input<'a>), ParseFault>
    ensures reads { ReadsAs spec.set_pattern_read_of result (spec.braces_of prefix (remaining input.entry)) }
    ensures shorter { IfOk result (λ x. length (remaining x.1) < length (remaining input.entry)) }
    ensures placed { IfOk result (λ x. Continues (Some at ∷ None ∷ []) (set_pattern_kept x.0) input.entry x.1) }
    ensures within { StaysWithinAfter brace input.entry result }
{
    let (low, rest) = input.expect_number()?;
    let rest = rest.expect(Symbol::Comma, Expected::Comma)?;
    let (high, rest) = rest.expect_number()?;
    let rest = rest.expect(Symbol::RightBrace, Expected::RightBrace)?;
    match between(prefix, low, high) {
        Some(pattern) => Ok((SetPattern::Between(at, pattern), rest)),
        None => Err(ParseFault::PatternLengths(brace)),
    }
}

/// A pattern, after its prefix.
fn parse_lengths<'a>(
    at: usize,
    prefix: Prefix,
    input: Input<'a>,
) -> Result<(SetPattern, Input<'a>), ParseFault>
    ensures { ReadsOn 0 (Some at ∷ []) view_set_pattern set_pattern_kept (spec.lengths_of prefix) input.entry result }
{
    if let Some(rest) = input.eat(Symbol::Plus) {
        return Ok((SetPattern::OrLonger(at, prefix), rest));
    }
    if let Some(rest) = input.eat(Symbol::Minus) {
        return Ok((SetPattern::OrShorter(at, prefix), rest));
    }
    match input.eat(Symbol::LeftBrace) {
        Some(rest) => parse_braces(at, prefix, input.at(), rest),
        None => Ok((SetPattern::Exact(at, prefix), input)),
    }
}

/// A pattern.
fn parse_set_pattern<'a>(input: Input<'a>) -> Result<(SetPattern, Input<'a>), ParseFault>
    ensures { Reads view_set_pattern set_pattern_kept spec.a_set_pattern input.entry result }
{
    match input.expect_prefix() {
        Ok((prefix, rest)) => parse_lengths(input.at(), prefix, rest),
        Err(fault) => Err(fault),
    }
}

/// The patterns of a set after those that were read, as long as commas follow.
fn parse_set_patterns<'a>(
    patterns: Vec<SetPattern>,
    input: Input<'a>,
) -> Result<(Vec<SetPattern>, Input<'a>), ParseFault>
    ensures reads { ReadsAs spec.set_patterns_read_of result
        (spec.set_patterns_from (map view_set_pattern patterns.items) (remaining input.entry)) }
    ensures shorter { IfOk result (λ x. length (remaining x.1) ≤ length (remaining input.entry)) }
    ensures placed { IfOk result (λ x. Grown next_pattern_kept patterns.items x.0.items input.entry x.1) }
    ensures within { StaysWithin input.entry result }
{
    let mut all = patterns;
    let mut rest = input;
    while let Some(after) = rest.eat(Symbol::Comma) {
        match parse_set_pattern(after) {
            Ok((pattern, next)) => {
                all.push(pattern)?;
                rest = next;
            }
            Err(fault) => return Err(fault),
        }
    }
    Ok((all, rest))
}

/// The patterns of a set from the second on, and its `]`. The set's place is `at`.
fn parse_set_after_first<'a>(
    alloc: Global,
    at: usize,
    first: SetPattern,
    input: Input<'a>,
) -> Result<(Set, Input<'a>), ParseFault>
    ensures { ReadsOn 1 (Some at ∷ set_pattern_kept first) spec.set_view set_kept
        (spec.set_after_first (view_set_pattern first)) input.entry result }
{
    let mut patterns = Vec::new(alloc);
    patterns.push(first)?;
    match parse_set_patterns(patterns, input) {
        Ok((patterns, rest)) => {
            let rest = rest.expect(Symbol::RightBracket, Expected::CommaOrBracket)?;
            let members = Members::Patterns(patterns);
            Ok((Set { at, members }, rest))
        }
        Err(fault) => Err(fault),
    }
}

/// The first pattern of a set, where no number is.
fn parse_first_pattern<'a>(input: Input<'a>) -> Result<(SetPattern, Input<'a>), ParseFault>
    ensures { Reads view_set_pattern set_pattern_kept spec.a_set_pattern input.entry result }
{
    match input.expect_prefix() {
        Ok((prefix, rest)) => parse_lengths(input.at(), prefix, rest),
        Err(_) => Err(input.unexpected(Expected::Member)),
    }
}

/// A set of prefixes, after its `[`, which has the place `at`.
fn parse_pattern_set<'a>(
    alloc: Global,
    at: usize,
    input: Input<'a>,
) -> Result<(Set, Input<'a>), ParseFault>
    ensures { ReadsOn 1 (Some at ∷ []) spec.set_view set_kept spec.pattern_set_of input.entry result }
{
    match parse_first_pattern(input) {
        Ok((first, rest)) => parse_set_after_first(alloc, at, first, rest),
        Err(fault) => Err(fault),
    }
}

/// A set of ints, whose place is `at`, after its first int, which has the place `first`.
fn parse_range_set<'a>(
    alloc: Global,
    at: usize,
    first: usize,
    low: u32,
    input: Input<'a>,
) -> Result<(Set, Input<'a>), ParseFault>
    ensures reads { ReadsAs spec.set_read_of result (spec.range_set_from low (remaining input.entry)) }
    ensures shorter { IfOk result (λ x. length (remaining x.1) < length (remaining input.entry)) }
    ensures placed { IfOk result (λ x. (start middle : TheInput) → Spans (Some at ∷ []) start middle
        → Spans (Some first ∷ []) middle input.entry → Spans (set_kept x.0) start x.1) }
    ensures within { StaysWithinAfter first input.entry result }
{
    match parse_ranges_from(alloc, first, low, input) {
        Ok((ranges, rest)) => {
            let rest = rest.expect(Symbol::RightBracket, Expected::CommaOrBracket)?;
            let members = Members::Ranges(ranges);
            Ok((Set { at, members }, rest))
        }
        Err(fault) => Err(fault),
    }
}

/// A set, after its `[`, which has the place `at`.
pub(crate) fn parse_set<'a>(
    alloc: Global,
    at: usize,
    input: Input<'a>,
) -> Result<(Set, Input<'a>), ParseFault>
    ensures { ReadsOn 1 (Some at ∷ []) spec.set_view set_kept spec.set_of input.entry result }
{
    match input.eat_number() {
        Some((low, rest)) => parse_range_set(alloc, at, input.at(), low, rest),
        None => parse_pattern_set(alloc, at, input),
    }
}
