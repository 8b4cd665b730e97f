//! Declarations.

ghost use Rattle.std.specs.Prelude.{◌≡◌, ◌∷◌, ◌<◌, [], length, map, Some, None, IfOk, IfSome};
ghost use Rattle.filter_syntax.specs.Placed.{decl_kept};
ghost use Rattle.expression_parser.specs.Readers.{a_name};
ghost use Rattle.filter_parser.specs.ReadingCommands as spec;
ghost use Rattle.expression_parser.specs.Steps.{ReadsOn, Finds, Follows, Grown, LeavesWithin, ReadsAs, Spans, StaysWithin, first_place, remaining};
ghost use Rattle.filter_syntax.specs.SyntaxCommands.{view_decl};

use expression_parser::{Expected, Input, ParseFault};
use filter_syntax::{Decl, Kind};
use filter_tokens::{Symbol, TokenKind};
use std::alloc::Global;

/// The kind that a keyword names.
fn kind_of(symbol: Symbol) -> Option<Kind>
    ensures { result ≡ spec.kind_of symbol }
{
    match symbol {
        Symbol::Int => Some(Kind::Int),
        Symbol::Bool => Some(Kind::Bool),
        Symbol::Ip => Some(Kind::Ip),
        Symbol::Prefix => Some(Kind::Prefix),
        _ => None,
    }
}

/// The kind with which a declaration begins, if one comes first.
fn eat_kind<'a>(input: Input<'a>) -> Option<(Kind, Input<'a>)>
    ensures found { Finds (λ x. (x.0, remaining x.1)) result (spec.a_kind (remaining input.entry)) }
    ensures shorter { IfSome result (λ x. length (remaining x.1) < length (remaining input.entry)) }
    ensures placed { IfSome result (λ x. Spans (Some (first_place input.entry) ∷ []) input.entry x.1) }
    ensures within { IfSome result (λ x. Follows input.entry x.1) }
{
    let (first, rest) = input.next()?;
    let TokenKind::Symbol(symbol) = first.word else {
        return None;
    };
    match kind_of(symbol) {
        Some(found) => Some((found, rest)),
        None => None,
    }
}

/// A name that has to come first, and its place.
pub(crate) fn parse_name<'a>(
    alloc: Global,
    input: Input<'a>,
) -> Result<(usize, Vec<u8>, Input<'a>), ParseFault>
    ensures reads { ReadsAs (λ x. (x.1.items, remaining x.2)) result (a_name (remaining input.entry)) }
    ensures shorter { IfOk result (λ x. length (remaining x.2) < length (remaining input.entry)) }
    ensures placed { IfOk result (λ x. Spans (Some x.0 ∷ []) input.entry x.2) }
    ensures within { LeavesWithin (λ x. x.2) input.entry result }
{
    let Some((first, rest)) = input.next() else {
        return Err(input.unexpected(Expected::Name));
    };
    match &first.word {
        TokenKind::Name => Ok((first.from, input.bytes(alloc, first)?, rest)),
        _ => Err(input.unexpected(Expected::Name)),
    }
}

/// A declaration, after its kind.
fn parse_declaration<'a>(
    alloc: Global,
    kind: Kind,
    input: Input<'a>,
) -> Result<(Decl, Input<'a>), ParseFault>
    ensures { ReadsOn 1 (None ∷ []) view_decl decl_kept (spec.decl_with kind) input.entry result }
{
    let (at, name, rest) = parse_name(alloc, input)?;
    let rest = rest.expect(Symbol::Semicolon, Expected::Semicolon)?;
    Ok((Decl { at, kind, name }, rest))
}

/// Declarations, as many as there are, after others.
pub(crate) fn parse_declarations<'a>(
    alloc: Global,
    before: Vec<Decl>,
    input: Input<'a>,
) -> Result<(Vec<Decl>, Input<'a>), ParseFault>
    ensures reads { ReadsAs (λ x. (map view_decl x.0.items, remaining x.1)) result
        (spec.decls_after (map view_decl before.items) (remaining input.entry)) }
    ensures placed { IfOk result (λ x. Grown decl_kept before.items x.0.items input.entry x.1) }
    ensures within { StaysWithin input.entry result }
{
    let mut decls = before;
    let mut rest = input;
    while let Some((kind, after)) = eat_kind(rest) {
        match parse_declaration(alloc, kind, after) {
            Ok((decl, next)) => {
                decls.push(decl)?;
                rest = next;
            }
            Err(fault) => return Err(fault),
        }
    }
    Ok((decls, rest))
}
