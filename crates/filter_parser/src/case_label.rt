//! The labels of the parts of a `case`.

ghost use Rattle.std.specs.Prelude.{◌≡◌, ◌&&◌, ◌∷◌, ◌++◌, ◌≤◌, [], Some, None, IfOk, length};
ghost use Rattle.filter_syntax.specs.Placed.{label_kept};
ghost use Rattle.filter_parser.specs.ReadingCommands as spec;
ghost use Rattle.expression_parser.specs.Steps.{Reads, Continues, ReadsAs, StaysWithinAfter, remaining};
ghost use Rattle.filter_syntax.specs.SyntaxCommands.{has_ranges, view_label};

use expression_parser::{Expected, Input, ParseFault, parse_ranges_from};
use filter_syntax::Label;
use filter_tokens::Symbol;
use std::alloc::Global;

/// Whether a part of a `case` begins here.
pub(crate) fn begins_part(input: Input) -> bool
    ensures { result ≡ spec.part_begins (remaining input.entry) }
{
    match input.eat_number() {
        Some(_) => true,
        None => input.eat(Symbol::Else).is_some(),
    }
}

/// Whether no part up to the one with this label is the `else` part, where `is_first` says so of the parts before it.
pub(crate) fn stays_first(is_first: bool, label: &Label) -> bool
    ensures { result ≡ (is_first && has_ranges (view_label label.now)) }
{
    match label {
        Label::Ranges(_) => is_first,
        Label::Else(_) => false,
    }
}

/// A label of ranges and its `:`, after the first int, which has the place `at`.
fn parse_ranges_label<'a>(
    alloc: Global,
    at: usize,
    low: u32,
    input: Input<'a>,
) -> Result<(Label, Input<'a>), ParseFault>
    ensures reads { ReadsAs spec.label_read_of result (spec.ranges_label_from low (remaining input.entry)) }
    ensures shorter { IfOk result (λ x. length (remaining x.1) ≤ length (remaining input.entry)) }
    ensures placed { IfOk result (λ x. Continues (Some at ∷ []) (label_kept x.0 ++ None ∷ []) input.entry x.1) }
    ensures within { StaysWithinAfter at input.entry result }
{
    match parse_ranges_from(alloc, at, low, input) {
        Ok((ranges, rest)) => {
            let rest = rest.expect(Symbol::Colon, Expected::CommaOrColon)?;
            Ok((Label::Ranges(ranges), rest))
        }
        Err(fault) => Err(fault),
    }
}

/// `else` and its `:`. Whether no part before it is the `else` part.
fn parse_else_label<'a>(is_first: bool, input: Input<'a>) -> Result<(Label, Input<'a>), ParseFault>
    ensures { Reads view_label (λ x. label_kept x ++ None ∷ []) (spec.else_label_of is_first) input.entry result }
{
    if !is_first {
        return Err(input.unexpected(Expected::CommandOrRange));
    }
    let rest = input.expect(Symbol::Else, Expected::CommandOrPart)?;
    let rest = rest.expect(Symbol::Colon, Expected::Colon)?;
    Ok((Label::Else(input.at()), rest))
}

/// A label and its `:`. Whether no part before it is the `else` part.
pub(crate) fn parse_label<'a>(
    alloc: Global,
    is_first: bool,
    input: Input<'a>,
) -> Result<(Label, Input<'a>), ParseFault>
    ensures { Reads view_label (λ x. label_kept x ++ None ∷ []) (spec.label_of is_first) input.entry result }
{
    match input.eat_number() {
        Some((low, rest)) => parse_ranges_label(alloc, input.at(), low, rest),
        None => parse_else_label(is_first, input),
    }
}
