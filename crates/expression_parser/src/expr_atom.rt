ghost use Rattle.std.specs.Prelude.{◌≡◌, ◌∷◌, ◌<◌, [], Some, None, IfSome};
ghost use Rattle.filter_syntax.specs.Placed.{expr_kept, suffix_kept};
ghost use Rattle.expression_parser.specs.Reading as spec;
ghost use Rattle.expression_parser.specs.Steps.{Reads, ReadsOn, Finds, first_place};
ghost use Rattle.filter_syntax.specs.Syntax.{view};

use crate::expected::Expected;
use crate::expr_make::{suffixed, suffixed_once};
use crate::fault::ParseFault;
use crate::input::Input;
use filter_syntax::{Attribute, Expr, MaskLength, Suffix};
use filter_tokens::{Symbol, TokenKind};
use std::alloc::Global;

/// The attribute that a keyword names.
fn attribute_of(symbol: Symbol) -> Option<Attribute>
    ensures { result ≡ spec.attribute_of symbol }
{
    match symbol {
        Symbol::Net => Some(Attribute::Net),
        Symbol::RipMetric => Some(Attribute::RipMetric),
        _ => None,
    }
}

/// An attribute that has to come first, and what is left after it.
fn parse_attribute<'a>(input: Input<'a>) -> Result<(Attribute, Input<'a>), ParseFault>
    ensures { Reads (λ x. x) (λ _. Some (first_place input.entry) ∷ []) spec.an_attribute input.entry result }
{
    let Some((first, rest)) = input.next() else {
        return Err(input.unexpected(Expected::Attribute));
    };
    let TokenKind::Symbol(symbol) = first.word else {
        return Err(input.unexpected(Expected::Attribute));
    };
    match attribute_of(symbol) {
        Some(found) => Ok((found, rest)),
        None => Err(input.unexpected(Expected::Attribute)),
    }
}

/// `(net)` or `(rip_metric)`, after `defined`, which has the place `at`.
fn parse_defined<'a>(at: usize, input: Input<'a>) -> Result<(Expr, Input<'a>), ParseFault>
    ensures { ReadsOn 1 (Some at ∷ []) view expr_kept spec.defined_of input.entry result }
{
    let rest = input.expect(Symbol::LeftParen, Expected::LeftParen)?;
    let (found, rest) = parse_attribute(rest)?;
    let rest = rest.expect(Symbol::RightParen, Expected::RightParen)?;
    Ok((Expr::Defined(at, found), rest))
}

/// The expression that a keyword is, at a place.
fn keyword_expr(at: usize, symbol: Symbol) -> Option<Expr>
    ensures is { Finds view result (spec.keyword_of symbol) }
    ensures placed { IfSome result (λ t. expr_kept t ≡ Some at ∷ []) }
{
    match symbol {
        Symbol::True => Some(Expr::Truth(at, true)),
        Symbol::False => Some(Expr::Truth(at, false)),
        Symbol::Net => Some(Expr::Attribute(at, Attribute::Net)),
        Symbol::RipMetric => Some(Expr::Attribute(at, Attribute::RipMetric)),
        _ => None,
    }
}

/// An expression of one token.
fn parse_single<'a>(alloc: Global, input: Input<'a>) -> Result<(Expr, Input<'a>), ParseFault>
    ensures { Reads view expr_kept spec.a_single input.entry result }
{
    let Some((first, rest)) = input.next() else {
        return Err(input.unexpected(Expected::Operand));
    };
    let at = first.from;
    match &first.word {
        TokenKind::Number(n) => Ok((Expr::Number(at, *n), rest)),
        TokenKind::Address(ip) => Ok((Expr::Address(at, *ip), rest)),
        TokenKind::Prefix { prefix, .. } => Ok((Expr::Prefix(at, *prefix), rest)),
        TokenKind::Name => Ok((Expr::Name(at, input.name(alloc, first)?), rest)),
        TokenKind::Symbol(symbol) => match keyword_expr(at, *symbol) {
            Some(found) => Ok((found, rest)),
            None => Err(input.unexpected(Expected::Operand)),
        },
        TokenKind::Text => Err(input.unexpected(Expected::Operand)),
    }
}

/// An operand without parentheses.
pub(crate) fn parse_atom<'a>(
    alloc: Global,
    input: Input<'a>,
) -> Result<(Expr, Input<'a>), ParseFault>
    ensures { Reads view expr_kept spec.atom_of input.entry result }
{
    match input.eat(Symbol::Defined) {
        Some(rest) => parse_defined(input.at(), rest),
        None => parse_single(alloc, input),
    }
}

/// `.mask` of this number, where it is one of bits of an address.
fn mask_of_bits(n: u32) -> Option<Suffix>
    ensures is { result ≡ spec.mask_suffix n }
    ensures kept { IfSome result (λ s. suffix_kept s ≡ None ∷ None ∷ None ∷ None ∷ None ∷ []) }
{
    match MaskLength::new(n) {
        Some(bits) => Some(Suffix::Mask(bits)),
        None => None,
    }
}

/// `(n)`, after `.mask`.
fn parse_mask<'a>(input: Input<'a>) -> Result<(Suffix, Input<'a>), ParseFault>
    ensures { ReadsOn 1 (None ∷ None ∷ []) (λ x. x) suffix_kept spec.mask_of input.entry result }
{
    let after = input.expect(Symbol::LeftParen, Expected::LeftParen)?;
    let (n, rest) = after.expect_number()?;
    let Some(found) = mask_of_bits(n) else {
        return Err(ParseFault::MaskOverLimit(after.at()));
    };
    let rest = rest.expect(Symbol::RightParen, Expected::RightParen)?;
    Ok((found, rest))
}

/// What follows a dot.
fn parse_suffix<'a>(input: Input<'a>) -> Result<(Suffix, Input<'a>), ParseFault>
    ensures { ReadsOn 1 (None ∷ []) (λ x. x) suffix_kept spec.suffix_of input.entry result }
{
    if let Some(rest) = input.eat(Symbol::Ip) {
        return Ok((Suffix::Ip, rest));
    }
    if let Some(rest) = input.eat_name(b"len") {
        return Ok((Suffix::Len, rest));
    }
    match input.eat_name(b"mask") {
        Some(rest) => parse_mask(rest),
        None => Err(input.unexpected(Expected::Part)),
    }
}

/// An operand's suffixes, if any follow.
#[inline(always)]
pub(crate) fn parse_suffixes<'a>(
    alloc: Global,
    inner: Expr,
    input: Input<'a>,
) -> Result<(Expr, Input<'a>), ParseFault>
    ensures { ReadsOn 0 (expr_kept inner) view expr_kept (spec.suffixes_from (view inner)) input.entry result }
{
    // Most operands stand alone: then nothing is called.
    if input.eat(Symbol::Dot).is_none() {
        return Ok((inner, input));
    }
    parse_dotted(alloc, inner, input)
}

/// An operand's suffixes, as long as dots follow.
#[inline(never)]
fn parse_dotted<'a>(
    alloc: Global,
    inner: Expr,
    input: Input<'a>,
) -> Result<(Expr, Input<'a>), ParseFault>
    ensures { ReadsOn 0 (expr_kept inner) view expr_kept (spec.suffixes_from (view inner)) input.entry result }
{
    let Some(after) = input.eat(Symbol::Dot) else {
        return Ok((inner, input));
    };
    let (first, next) = match parse_suffix(after) {
        Ok(read) => read,
        Err(fault) => return Err(fault),
    };
    // Most have one suffix: then no list is made.
    if next.eat(Symbol::Dot).is_none() {
        return Ok((suffixed_once(alloc, inner, first)?, next));
    }
    let mut all = Vec::with_capacity(alloc, 2)?;
    all.push(first)?;
    let mut rest = next;
    while let Some(after) = rest.eat(Symbol::Dot) {
        match parse_suffix(after) {
            Ok((found, next)) => {
                all.push(found)?;
                rest = next;
            }
            Err(fault) => return Err(fault),
        }
    }
    Ok((suffixed(alloc, inner, all)?, rest))
}
