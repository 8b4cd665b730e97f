//! Commands.

ghost use Rattle.std.specs.Prelude.{◌≡◌, ◌≢◌, ◌∷◌, ◌++◌, ℕ, ◌<◌, ◌≤◌, [], length, map, Some, None, IfOk, IfSome, MatchResult};
ghost use Rattle.expression_parser.specs.declared.fault.ParseFault.TheVariants.{Memory};
ghost use Rattle.expression_parser.specs.Codes.{LiesWithin};
ghost use Rattle.filter_parser.specs.ReadingCommands as spec;
ghost use Rattle.filter_syntax.specs.Placed.{expr_kept, joined};
ghost use Rattle.filter_syntax.specs.Placed.{command_kept, end_kept, part_kept};
ghost use Rattle.expression_parser.specs.Reading.{expr_at};
ghost use Rattle.expression_parser.specs.Steps.{Reads, ReadsOn, Continues, Finds, Follows, IsWithin, ReadsAs};
ghost use Rattle.expression_parser.specs.Steps.{Spans, StaysWithin, StaysWithinAfter, first_place, remaining};
ghost use Rattle.filter_syntax.specs.Syntax.{view};
ghost use Rattle.filter_syntax.specs.SyntaxCommands.{view_command, view_part, view_target};
ghost use Rattle.filter_syntax.specs.SyntaxCommands.CommandView.{if_then, if_else};

use crate::case_label::{begins_part, parse_label, stays_first};
use expression_parser::{Expected, Input, ParseFault, parse_expr};
use filter_syntax::{Command, Expr, Label, Target};
use filter_tokens::{Symbol, Token, TokenKind};
use std::alloc::{AllocError, Global};

/// The text, if there is one, and the `;` that ends `accept` and `reject`.
fn parse_end<'a>(input: Input<'a>) -> Result<(bool, Input<'a>), ParseFault>
    ensures { Reads (λ x. x) end_kept spec.end_of input.entry result }
{
    match input.eat_text() {
        Some(rest) => Ok((true, rest.expect(Symbol::Semicolon, Expected::Semicolon)?)),
        None => Ok((
            false,
            input.expect(Symbol::Semicolon, Expected::TextOrSemicolon)?,
        )),
    }
}

/// The `=` of an assignment, its right side, and `;`.
fn parse_assignment<'a>(
    alloc: Global,
    depth: usize,
    at: usize,
    target: Target,
    input: Input<'a>,
) -> Result<(Command, Input<'a>), ParseFault>
    ensures { ReadsOn 1 (Some at ∷ []) view_command command_kept
        (spec.assign_with (expr_at depth) (view_target target)) input.entry result }
{
    let value = input.expect(Symbol::Equal, Expected::Assign)?;
    let (value, end) = parse_expr(alloc, depth, value)?;
    let rest = end.expect(Symbol::Semicolon, Expected::Semicolon)?;
    Ok((Command::Assign(at, target, value), rest))
}

/// An `if` without `else`.
fn if_command(alloc: Global, at: usize, test: Expr, chosen: Command) -> Result<Command, AllocError>
    ensures is { IfOk result (λ c. view_command c ≡ if_then (view test) (view_command chosen)) }
    ensures placed { IfOk result (λ c. command_kept c ≡ Some at ∷ (expr_kept test ++ None ∷ command_kept chosen)) }
{
    Ok(Command::If(at, test, Box::new(alloc, chosen)?, None))
}

/// An `if` with `else`.
fn if_else_command(
    alloc: Global,
    at: usize,
    test: Expr,
    chosen: Command,
    other: Command,
) -> Result<Command, AllocError>
    ensures is { IfOk result (λ c. view_command c ≡ if_else (view test) (view_command chosen) (view_command other)) }
    ensures placed { IfOk result (λ c. command_kept c
        ≡ Some at ∷ (expr_kept test ++ None ∷ (command_kept chosen ++ None ∷ command_kept other))) }
{
    Ok(Command::If(
        at,
        test,
        Box::new(alloc, chosen)?,
        Some(Box::new(alloc, other)?),
    ))
}

/// The `else` of an `if`, if it comes first: a `:` after it makes it the label of a part of a `case`.
fn eat_else<'a>(input: Input<'a>) -> Option<Input<'a>>
    ensures found { Finds remaining result (spec.an_else (remaining input.entry)) }
    ensures placed { IfSome result (λ rest. Spans (Some (first_place input.entry) ∷ []) input.entry rest) }
    ensures within { IfSome result (Follows input.entry) }
    ensures shorter { IfSome result (λ rest. length (remaining rest) < length (remaining input.entry)) }
{
    let rest = input.eat(Symbol::Else)?;
    match rest.eat(Symbol::Colon) {
        Some(_) => None,
        None => Some(rest),
    }
}

/// What follows the first command of an `if`.
#[cycle(command)]
fn parse_else<'a>(
    alloc: Global,
    depth: usize,
    at: usize,
    test: Expr,
    chosen: Command,
    input: Input<'a>,
) -> Result<(Command, Input<'a>), ParseFault>
    ensures { ReadsOn 0 (Some at ∷ (expr_kept test ++ None ∷ command_kept chosen)) view_command command_kept
        (spec.else_with (spec.command_at depth) (view test) (view_command chosen)) input.entry result }
{
    match eat_else(input) {
        None => Ok((if_command(alloc, at, test, chosen)?, input)),
        Some(rest) => {
            let (other, rest) = parse_command(alloc, depth, rest)?;
            Ok((if_else_command(alloc, at, test, chosen, other)?, rest))
        }
    }
}

/// An `if`, after that word.
#[cycle(command)]
#[tactic(auto, using(crate::proofs::Bodies::if_is))]
fn parse_if<'a>(
    alloc: Global,
    depth: usize,
    at: usize,
    input: Input<'a>,
) -> Result<(Command, Input<'a>), ParseFault>
    ensures reads { ReadsAs spec.command_read_of result (spec.if_at depth (remaining input.entry)) }
    ensures shorter { IfOk result (λ x. length (remaining x.1) < length (remaining input.entry)) }
    ensures placed { IfOk result (λ x. Continues (Some at ∷ []) (command_kept x.0) input.entry x.1) }
    ensures within { StaysWithinAfter at input.entry result }
{
    if depth == 0 {
        return Err(ParseFault::TooDeep(at));
    }
    let (test, rest) = parse_expr(alloc, depth - 1, input)?;
    let rest = rest.expect(Symbol::Then, Expected::Then)?;
    let (chosen, rest) = parse_command(alloc, depth - 1, rest)?;
    parse_else(alloc, depth - 1, at, test, chosen, rest)
}

/// Whether a command begins with this symbol.
fn symbol_begins(symbol: Symbol) -> bool
    ensures { result ≡ spec.symbol_begins symbol }
{
    match symbol {
        Symbol::Semicolon => true,
        Symbol::LeftBrace => true,
        Symbol::If => true,
        Symbol::Case => true,
        Symbol::Accept => true,
        Symbol::Reject => true,
        Symbol::RipMetric => true,
        Symbol::Net => true,
        _ => false,
    }
}

/// Whether a command begins here.
fn begins_command(input: Input) -> bool
    ensures { result ≡ spec.command_begins (remaining input.entry) }
{
    let Some((first, _)) = input.next() else {
        return false;
    };
    match &first.word {
        TokenKind::Name => true,
        TokenKind::Symbol(symbol) => symbol_begins(*symbol),
        _ => false,
    }
}

/// Commands as long as one begins.
#[cycle(command)]
pub(crate) fn parse_commands<'a>(
    alloc: Global,
    depth: usize,
    input: Input<'a>,
) -> Result<(Vec<Command>, Input<'a>), ParseFault>
    ensures reads { ReadsAs spec.commands_read_of result
        (spec.commands_with (spec.command_at depth) (remaining input.entry)) }
    ensures shorter { IfOk result (λ x. length (remaining x.1) ≤ length (remaining input.entry)) }
    ensures placed { IfOk result (λ x. Spans (joined (map command_kept x.0.items)) input.entry x.1) }
    ensures within { StaysWithin input.entry result }
{
    let mut commands = Vec::new(alloc);
    let mut rest = input;
    while begins_command(rest) {
        match parse_command(alloc, depth, rest) {
            Ok((command, after)) => {
                commands.push(command)?;
                rest = after;
            }
            Err(fault) => return Err(fault),
        }
    }
    Ok((commands, rest))
}

/// A part of a `case`. Whether no part before it is the `else` part.
#[cycle(command)]
fn parse_part<'a>(
    alloc: Global,
    depth: usize,
    is_first: bool,
    input: Input<'a>,
) -> Result<((Label, Vec<Command>), Input<'a>), ParseFault>
    ensures { Reads view_part part_kept
        (spec.part_of (spec.commands_with (spec.command_at depth)) is_first) input.entry result }
{
    let (label, rest) = parse_label(alloc, is_first, input)?;
    let (commands, rest) = parse_commands(alloc, depth, rest)?;
    Ok(((label, commands), rest))
}

/// Parts of a `case` as long as one begins.
#[cycle(command)]
fn parse_parts<'a>(
    alloc: Global,
    depth: usize,
    input: Input<'a>,
) -> Result<(Vec<(Label, Vec<Command>)>, Input<'a>), ParseFault>
    ensures reads { ReadsAs spec.parts_read_of result
        (spec.parts_with (spec.commands_with (spec.command_at depth)) (remaining input.entry)) }
    ensures shorter { IfOk result (λ x. length (remaining x.1) ≤ length (remaining input.entry)) }
    ensures placed { IfOk result (λ x. Spans (joined (map part_kept x.0.items)) input.entry x.1) }
    ensures within { StaysWithin input.entry result }
{
    let mut parts = Vec::new(alloc);
    let mut is_first = true;
    let mut rest = input;
    while begins_part(rest) {
        match parse_part(alloc, depth, is_first, rest) {
            Ok((part, after)) => {
                is_first = stays_first(is_first, &part.0);
                parts.push(part)?;
                rest = after;
            }
            Err(fault) => return Err(fault),
        }
    }
    Ok((parts, rest))
}

/// A `case`, after that word.
#[cycle(command)]
#[tactic(auto, using(crate::proofs::Bodies::case_is))]
fn parse_case<'a>(
    alloc: Global,
    depth: usize,
    at: usize,
    input: Input<'a>,
) -> Result<(Command, Input<'a>), ParseFault>
    ensures reads { ReadsAs spec.command_read_of result (spec.case_at depth (remaining input.entry)) }
    ensures shorter { IfOk result (λ x. length (remaining x.1) < length (remaining input.entry)) }
    ensures placed { IfOk result (λ x. Continues (Some at ∷ []) (command_kept x.0) input.entry x.1) }
    ensures within { StaysWithinAfter at input.entry result }
{
    if depth == 0 {
        return Err(ParseFault::TooDeep(at));
    }
    let (argument, rest) = parse_expr(alloc, depth - 1, input)?;
    let rest = rest.expect(Symbol::LeftBrace, Expected::LeftBrace)?;
    let (parts, rest) = parse_parts(alloc, depth - 1, rest)?;
    let rest = rest.expect(Symbol::RightBrace, Expected::CommandOrPart)?;
    Ok((Command::Case(at, argument, parts), rest))
}

/// A block, after its `{`.
#[cycle(command)]
fn parse_block<'a>(
    alloc: Global,
    depth: usize,
    at: usize,
    input: Input<'a>,
) -> Result<(Command, Input<'a>), ParseFault>
    ensures reads { ReadsAs spec.command_read_of result (spec.block_at depth (remaining input.entry)) }
    ensures shorter { IfOk result (λ x. length (remaining x.1) < length (remaining input.entry)) }
    ensures placed { IfOk result (λ x. Continues (Some at ∷ []) (command_kept x.0) input.entry x.1) }
    ensures within { StaysWithinAfter at input.entry result }
{
    if depth == 0 {
        return Err(ParseFault::TooDeep(at));
    }
    let (commands, rest) = parse_commands(alloc, depth - 1, input)?;
    let rest = rest.expect(Symbol::RightBrace, Expected::CommandOrEnd)?;
    Ok((Command::Block(at, commands), rest))
}

/// An assignment to a variable, whose name is the token before the rest.
fn parse_variable_assignment<'a>(
    alloc: Global,
    depth: usize,
    input: Input<'a>,
    name: &Token,
    rest: Input<'a>,
) -> Result<(Command, Input<'a>), ParseFault>
    ensures { ReadsOn 1 (Some name.now.from ∷ []) view_command command_kept
        (spec.assign_with (expr_at depth) (spec.target_of input.entry.source.now.text.now name.now)) rest.entry result }
{
    let text = input.name(alloc, name)?;
    parse_assignment(alloc, depth, name.from, Target::Name(text), rest)
}

/// `accept`, after that word.
fn parse_accept<'a>(at: usize, input: Input<'a>) -> Result<(Command, Input<'a>), ParseFault>
    ensures { ReadsOn 1 (Some at ∷ []) view_command command_kept spec.accepts input.entry result }
{
    let (has_text, rest) = parse_end(input)?;
    Ok((Command::Accept(at, has_text), rest))
}

/// `reject`, after that word.
fn parse_reject<'a>(at: usize, input: Input<'a>) -> Result<(Command, Input<'a>), ParseFault>
    ensures { ReadsOn 1 (Some at ∷ []) view_command command_kept spec.rejects input.entry result }
{
    let (has_text, rest) = parse_end(input)?;
    Ok((Command::Reject(at, has_text), rest))
}

/// A command that a symbol begins, at a place. Where none does, the fault is the one that is given.
#[cycle(command)]
fn parse_command_by<'a>(
    alloc: Global,
    depth: usize,
    symbol: Symbol,
    at: usize,
    other: ParseFault,
    rest: Input<'a>,
) -> Result<(Command, Input<'a>), ParseFault>
    requires { other ≢ Memory }
    ensures reads { ReadsAs spec.command_read_of result
        (spec.command_by (expr_at depth) (spec.block_at depth) (spec.if_at depth) (spec.case_at depth) symbol (remaining rest.entry)) }
    ensures shorter { IfOk result (λ x. length (remaining x.1) ≤ length (remaining rest.entry)) }
    ensures placed { IfOk result (λ x. Continues (Some at ∷ []) (command_kept x.0) rest.entry x.1) }
    ensures within { (len : ℕ) → at < len → LiesWithin len other → IsWithin len rest.entry
        → MatchResult result (λ x. IsWithin len x.1) (LiesWithin len) }
{
    match symbol {
        Symbol::Semicolon => Ok((Command::Empty(at), rest)),
        Symbol::LeftBrace => parse_block(alloc, depth, at, rest),
        Symbol::If => parse_if(alloc, depth, at, rest),
        Symbol::Case => parse_case(alloc, depth, at, rest),
        Symbol::Accept => parse_accept(at, rest),
        Symbol::Reject => parse_reject(at, rest),
        Symbol::RipMetric => parse_assignment(alloc, depth, at, Target::RipMetric, rest),
        Symbol::Net => parse_assignment(alloc, depth, at, Target::Net, rest),
        _ => Err(other),
    }
}

/// A command, where this many more levels may nest.
#[cycle(command)]
#[tactic(auto, using(crate::proofs::Bodies::command_is))]
fn parse_command<'a>(
    alloc: Global,
    depth: usize,
    input: Input<'a>,
) -> Result<(Command, Input<'a>), ParseFault>
    ensures { Reads view_command command_kept (spec.command_at depth) input.entry result }
{
    let other = input.unexpected(Expected::Command);
    let Some((first, rest)) = input.next() else {
        return Err(other);
    };
    match &first.word {
        TokenKind::Name => parse_variable_assignment(alloc, depth, input, first, rest),
        TokenKind::Symbol(symbol) => parse_command_by(
            alloc, depth, *symbol, first.from, other, rest,
        ),
        _ => Err(other),
    }
}
