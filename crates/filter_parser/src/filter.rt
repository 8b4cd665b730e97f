//! A whole filter.

ghost use Rattle.std.specs.Prelude.{◌≡◌, ◌∷◌, ℕ, [], None, IfErr, IfOk, length, map};
ghost use Rattle.expression_parser.specs.Codes.{LiesWithin};
ghost use Rattle.filter_syntax.specs.Placed.{joined};
ghost use Rattle.filter_syntax.specs.Placed.{ArePlaced, decl_kept};
ghost use Rattle.filter_parser.specs.ReadingCommands as spec;
ghost use Rattle.expression_parser.specs.Steps.{IsWithin, ReadsAs, Spans, remaining};
ghost use Rattle.filter_syntax.specs.SyntaxCommands.{view_decl};
ghost use Rattle.expression_parser.specs.declared.input.Input.{Input as TheInput};

use crate::command::parse_commands;
use crate::decl::{parse_declarations, parse_name};
use crate::parts::Parts;
use expression_parser::{Expected, Input, ParseFault};
use filter_syntax::Decl;
use filter_tokens::Symbol;
use std::alloc::Global;

/// How deep commands and expressions may nest.
const NESTING_LIMIT: usize = 32;

/// What was read, where nothing is left.
fn nothing_after<'a>(parts: Parts, rest: Input<'a>) -> Result<Parts, ParseFault>
    ensures reads { ReadsAs spec.view_parts result (spec.nothing_after (spec.view_parts parts) (remaining rest.entry)) }
    ensures same { IfOk result (λ p. p ≡ parts) }
    ensures end { IfOk result (λ _. rest.entry.tokens.now ≡ []) }
    ensures within { (len : ℕ) → IsWithin len rest.entry → IfErr result (LiesWithin len) }
{
    match rest.next() {
        None => Ok(parts),
        Some(_) => Err(rest.unexpected(Expected::End)),
    }
}

/// A body from its `{` on, after a name and declarations, and nothing after it.
fn parse_body<'a>(
    alloc: Global,
    name: Vec<u8>,
    head: Vec<Decl>,
    input: Input<'a>,
) -> Result<Parts, ParseFault>
    ensures reads { ReadsAs spec.view_parts result (spec.body_of name.items (map view_decl head.items) (remaining input.entry)) }
    ensures placed { IfOk result (λ parts. (start : TheInput) → Spans (None ∷ None ∷ joined (map decl_kept head.items)) start input.entry
        → ArePlaced start.source.now.text.now start.tokens.now parts.decls.items parts.body.items) }
    ensures within { (len : ℕ) → IsWithin len input.entry → IfErr result (LiesWithin len) }
{
    let rest = input.expect(Symbol::LeftBrace, Expected::Body)?;
    let (decls, rest) = parse_declarations(alloc, head, rest)?;
    let (body, rest) = parse_commands(alloc, NESTING_LIMIT, rest)?;
    let rest = rest.expect(Symbol::RightBrace, Expected::CommandOrEnd)?;
    nothing_after(Parts { name, decls, body }, rest)
}

/// A filter's name, its declarations and its commands, and nothing after it.
pub(crate) fn parse_filter<'a>(alloc: Global, input: Input<'a>) -> Result<Parts, ParseFault>
    ensures reads { ReadsAs spec.view_parts result (spec.filter_of (remaining input.entry)) }
    ensures placed { IfOk result (λ parts. ArePlaced input.entry.source.now.text.now input.entry.tokens.now parts.decls.items parts.body.items) }
    ensures within { (len : ℕ) → IsWithin len input.entry → IfErr result (LiesWithin len) }
{
    let rest = input.expect(Symbol::Filter, Expected::FilterWord)?;
    let (_, name, rest) = parse_name(alloc, rest)?;
    let (head, rest) = parse_declarations(alloc, Vec::new(alloc), rest)?;
    parse_body(alloc, name, head, rest)
}
