ghost use Rattle.std.specs.Prelude.{◌≡◌, ◌∷◌, ◌++◌, ℕ, ◌<◌, ◌≤◌, [], Some, None, IfOk, IfSome, length};
ghost use Rattle.expression_parser.specs.Codes.{LiesWithin};
ghost use Rattle.expression_parser.specs.Levels as levels;
ghost use Rattle.filter_syntax.specs.Placed.{expr_kept};
ghost use Rattle.expression_parser.specs.Readers.{turns};
ghost use Rattle.expression_parser.specs.Reading as spec;
ghost use Rattle.expression_parser.specs.Steps.{Continues, Reads, ReadsOn, Finds, Follows, ReadsAs, Spans, StaysWithin, first_place, remaining};
ghost use Rattle.filter_syntax.specs.Syntax.{ExprView, view};
ghost use Rattle.expression_parser.specs.declared.fault.ParseFault.TheVariants.{Memory};
ghost use Rattle.expression_parser.specs.declared.input.Input.{Input as TheInput};

use crate::expected::Expected;
use crate::expr_atom::{parse_atom, parse_suffixes};
use crate::expr_level::{Level, eat_operator, join_level, next_level};
use crate::expr_make::{binary, chain, group, member, negation};
use crate::fault::ParseFault;
use crate::input::Input;
use crate::set_reader::parse_set;
use filter_syntax::{Expr, Membership, Op};
use filter_tokens::Symbol;
use std::alloc::Global;

/// An expression that was read, where no operator of the other kind of chain follows it.
fn unmixed<'a>(whole: Expr, rest: Input<'a>) -> Result<(Expr, Input<'a>), ParseFault>
    ensures { ReadsOn 0 (expr_kept whole) view expr_kept (spec.unmixed (view whole)) rest.entry result }
{
    if eat_operator(Level::And, rest).is_some() {
        return Err(ParseFault::MixedOperators(rest.at()));
    }
    if eat_operator(Level::Or, rest).is_some() {
        return Err(ParseFault::MixedOperators(rest.at()));
    }
    Ok((whole, rest))
}

/// The set after a `~` or `!~`, of which this is the operand.
fn parse_member<'a>(
    alloc: Global,
    at: usize,
    op: Membership,
    left: Expr,
    input: Input<'a>,
) -> Result<(Expr, Input<'a>), ParseFault>
    ensures reads { ReadsAs spec.read_of result (spec.member_of (view left) op (remaining input.entry)) }
    ensures shorter { IfOk result (λ x. length (remaining x.1) < length (remaining input.entry)) }
    ensures placed { IfOk result (λ x. (start middle : TheInput) → Spans (expr_kept left ++ None ∷ []) start middle
        → Spans (Some at ∷ []) middle input.entry → Spans (expr_kept x.0) start x.1) }
    ensures within { StaysWithin input.entry result }
{
    let (found, rest) = parse_set(alloc, at, input)?;
    Ok((member(alloc, op, left, found)?, rest))
}

/// The membership operator that an operator is before a set, if it is one.
fn membership_of(op: Op) -> Option<Membership>
    ensures { result ≡ spec.membership_of op }
{
    match op {
        Op::Match => Some(Membership::In),
        Op::NotMatch => Some(Membership::NotIn),
        _ => None,
    }
}

/// The `[` of a set after an operator, and what is left after it.
fn eat_set_opening<'a>(op: Op, input: Input<'a>) -> Option<(Membership, Input<'a>)>
    ensures found { Finds (λ x. (x.0, remaining x.1)) result (spec.set_opening op (remaining input.entry)) }
    ensures shorter { IfSome result (λ x. length (remaining x.1) < length (remaining input.entry)) }
    ensures placed { IfSome result (λ x. Spans (Some (first_place input.entry) ∷ []) input.entry x.1) }
    ensures within { IfSome result (λ x. Follows input.entry x.1) }
{
    let found = membership_of(op)?;
    let rest = input.eat(Symbol::LeftBracket)?;
    Some((found, rest))
}

/// A fault at the right of an operator. After `~` and `!~` a set would do as well, and the fault says so.
fn right_operand_fault(op: Op, at: usize, fault: ParseFault) -> ParseFault
    ensures memory { fault ≡ Memory → result ≡ Memory }
    ensures within { (len : ℕ) → LiesWithin len fault → LiesWithin len result }
{
    if membership_of(op).is_some() && fault == ParseFault::Unexpected(at, Expected::Operand) {
        return ParseFault::Unexpected(at, Expected::OperandOrSet);
    }
    fault
}

/// The `)` after an expression, whose `(` has the place `at`.
fn parse_group_end<'a>(
    alloc: Global,
    at: usize,
    inner: Expr,
    input: Input<'a>,
) -> Result<(Expr, Input<'a>), ParseFault>
    ensures { ReadsOn 1 (Some at ∷ expr_kept inner) view expr_kept (spec.group_end (view inner)) input.entry result }
{
    match input.expect(Symbol::RightParen, Expected::RightParen) {
        Ok(rest) => Ok((group(alloc, at, inner)?, rest)),
        Err(fault) => Err(fault),
    }
}

/// An expression, where `depth` more levels may nest.
pub fn parse_expr<'a>(
    alloc: Global,
    depth: usize,
    input: Input<'a>,
) -> Result<(Expr, Input<'a>), ParseFault>
    ensures { Reads view expr_kept (spec.expr_at depth) input.entry result }
{
    parse_operand(alloc, depth, None, input)
}

/// An operand of operators of the level `outer`, or a whole expression where there is no such level.
#[cycle(expr)]
fn parse_operand<'a>(
    alloc: Global,
    depth: usize,
    outer: Option<Level>,
    input: Input<'a>,
) -> Result<(Expr, Input<'a>), ParseFault>
    ensures { Reads view expr_kept (levels.operand_with (spec.unary_at depth) outer) input.entry result }
{
    let (first, rest) = parse_unary(alloc, depth, input)?;
    parse_rest(alloc, depth, outer, first, rest)
}

/// What follows the first part of an operand: the operators that bind more strongly than those of `outer`, level by level.
#[cycle(expr)]
#[inline(always)]
fn parse_rest<'a>(
    alloc: Global,
    depth: usize,
    outer: Option<Level>,
    first: Expr,
    input: Input<'a>,
) -> Result<(Expr, Input<'a>), ParseFault>
    ensures { ReadsOn 0 (expr_kept first) view expr_kept (levels.rest_with (spec.unary_at depth) outer None (view first)) input.entry result }
{
    let mut whole = first;
    let mut rest = input;
    // The level that was read last. What follows in the same operand binds less strongly.
    let mut inner = None;
    while let Some(level) = next_level(outer, inner, rest) {
        match parse_level(alloc, depth, level, whole, rest) {
            Ok((more, next)) => {
                whole = more;
                rest = next;
                inner = Some(level);
            }
            Err(fault) => return Err(fault),
        }
    }
    Ok((whole, rest))
}

/// The operators of a level after their first operand.
#[cycle(expr)]
#[inline(always)]
fn parse_level<'a>(
    alloc: Global,
    depth: usize,
    level: Level,
    first: Expr,
    input: Input<'a>,
) -> Result<(Expr, Input<'a>), ParseFault>
    ensures { ReadsOn 0 (expr_kept first) view expr_kept (levels.level_with (spec.unary_at depth) level (view first)) input.entry result }
{
    match level {
        Level::Or | Level::And => parse_join(alloc, depth, first, input),
        Level::Comparison => parse_comparison(alloc, depth, first, input),
        Level::Sum | Level::Product => parse_operators(alloc, depth, level, first, input),
    }
}

/// A chain of `&&` or of `||` after its first operand.
#[cycle(expr)]
#[inline(always)]
fn parse_join<'a>(
    alloc: Global,
    depth: usize,
    first: Expr,
    input: Input<'a>,
) -> Result<(Expr, Input<'a>), ParseFault>
    ensures { ReadsOn 0 (expr_kept first) view expr_kept (levels.join_with (spec.unary_at depth) (view first)) input.entry result }
{
    let (whole, rest) = parse_operators(alloc, depth, join_level(input), first, input)?;
    unmixed(whole, rest)
}

/// A comparison after its left operand.
#[cycle(expr)]
#[inline(always)]
fn parse_comparison<'a>(
    alloc: Global,
    depth: usize,
    left: Expr,
    input: Input<'a>,
) -> Result<(Expr, Input<'a>), ParseFault>
    ensures { ReadsOn 0 (expr_kept left) view expr_kept (levels.compared_with (spec.unary_at depth) (view left)) input.entry result }
{
    match eat_operator(Level::Comparison, input) {
        Some((op, after)) => parse_right_operand(alloc, depth, input.at(), op, left, after),
        None => Ok((left, input)),
    }
}

/// What follows a comparison operator, which has the place `at`.
#[cycle(expr)]
#[inline(never)]
fn parse_right_operand<'a>(
    alloc: Global,
    depth: usize,
    at: usize,
    op: Op,
    left: Expr,
    input: Input<'a>,
) -> Result<(Expr, Input<'a>), ParseFault>
    ensures { ReadsOn 1 (expr_kept left ++ Some at ∷ []) view expr_kept
        (spec.right_operand_with (spec.sum_with (spec.unary_at depth)) (view left) op) input.entry result }
{
    if let Some((found, after)) = eat_set_opening(op, input) {
        return parse_member(alloc, input.at(), found, left, after);
    }
    match parse_operand(alloc, depth, Some(Level::Comparison), input) {
        Ok((other, rest)) => Ok((binary(alloc, at, op, left, other)?, rest)),
        Err(fault) => Err(right_operand_fault(op, input.at(), fault)),
    }
}

/// The operators of a level after their first operand, as long as they follow.
#[cycle(expr)]
#[inline(always)]
fn parse_operators<'a>(
    alloc: Global,
    depth: usize,
    level: Level,
    first: Expr,
    input: Input<'a>,
) -> Result<(Expr, Input<'a>), ParseFault>
    ensures { ReadsOn 0 (expr_kept first) view expr_kept (spec.chain_with (spec.unary_at depth) level (view first)) input.entry result }
{
    let Some((op, after)) = eat_operator(level, input) else {
        return Ok((first, input));
    };
    let (right, rest) = parse_operand(alloc, depth, Some(level), after)?;
    let parts = Box::new(alloc, (first, input.at(), op, right))?;
    // Most have one operator: then no list is made.
    if eat_operator(level, rest).is_none() {
        return Ok((Expr::Binary(parts), rest));
    }
    parse_more_operators(alloc, depth, level, parts, rest)
}

/// The operators of a level after the first one and its two operands.
#[cycle(expr)]
#[inline(never)]
fn parse_more_operators<'a>(
    alloc: Global,
    depth: usize,
    level: Level,
    parts: Box<(Expr, usize, Op, Expr)>,
    input: Input<'a>,
) -> Result<(Expr, Input<'a>), ParseFault>
    ensures reads { (count : ℕ) → length (remaining input.entry) ≤ count → ReadsAs spec.read_of result
        (turns (spec.joins (spec.next_with (spec.unary_at depth) level) level) count
        (ExprView.binary parts.value.2 (view parts.value.0) (view parts.value.3)) (remaining input.entry)) }
    ensures shorter { IfOk result (λ x. length (remaining x.1) ≤ length (remaining input.entry)) }
    ensures placed { IfOk result (λ x. Continues (expr_kept parts.value.0 ++ Some parts.value.1 ∷ expr_kept parts.value.3)
        (expr_kept x.0) input.entry x.1) }
    ensures within { StaysWithin input.entry result }
{
    let (first, at, op, right) = Box::into_inner(parts);
    let mut more = Vec::with_capacity(alloc, 2)?;
    more.push((at, op, right))?;
    let mut rest = input;
    while let Some((op, after)) = eat_operator(level, rest) {
        match parse_operand(alloc, depth, Some(level), after) {
            Ok((right, next)) => {
                more.push((rest.at(), op, right))?;
                rest = next;
            }
            Err(fault) => return Err(fault),
        }
    }
    Ok((chain(alloc, first, more)?, rest))
}

/// An operand without operators around it, with any `!` before it.
#[cycle(expr)]
#[tactic(auto, unfolding(crate::specs::Reading::unary_at))]
#[inline(always)]
fn parse_unary<'a>(
    alloc: Global,
    depth: usize,
    input: Input<'a>,
) -> Result<(Expr, Input<'a>), ParseFault>
    ensures { Reads view expr_kept (spec.unary_at depth) input.entry result }
{
    let Some(rest) = input.eat(Symbol::Not) else {
        return parse_postfix(alloc, depth, input);
    };
    if depth == 0 {
        return Err(ParseFault::TooDeep(input.at()));
    }
    parse_negation(alloc, depth - 1, input.at(), rest)
}

/// The operand of a `!`, which has the place `at`.
#[cycle(expr)]
#[inline(always)]
fn parse_negation<'a>(
    alloc: Global,
    depth: usize,
    at: usize,
    input: Input<'a>,
) -> Result<(Expr, Input<'a>), ParseFault>
    ensures { ReadsOn 1 (Some at ∷ []) view expr_kept (spec.not_with (spec.unary_at depth)) input.entry result }
{
    let (inner, rest) = parse_operand(alloc, depth, Some(Level::Product), input)?;
    Ok((negation(alloc, at, inner)?, rest))
}

/// An operand and its suffixes.
#[cycle(expr)]
#[inline(always)]
fn parse_postfix<'a>(
    alloc: Global,
    depth: usize,
    input: Input<'a>,
) -> Result<(Expr, Input<'a>), ParseFault>
    ensures { Reads view expr_kept (spec.postfix_with (spec.inner_at depth)) input.entry result }
{
    let (inner, rest) = parse_primary(alloc, depth, input)?;
    parse_suffixes(alloc, inner, rest)
}

/// An operand without suffixes.
#[cycle(expr)]
#[inline(always)]
fn parse_primary<'a>(
    alloc: Global,
    depth: usize,
    input: Input<'a>,
) -> Result<(Expr, Input<'a>), ParseFault>
    ensures { Reads view expr_kept (spec.primary_with (spec.inner_at depth)) input.entry result }
{
    let Some(after) = input.eat(Symbol::LeftParen) else {
        return parse_atom(alloc, input);
    };
    if depth == 0 {
        return Err(ParseFault::TooDeep(input.at()));
    }
    parse_group(alloc, depth - 1, input.at(), after)
}

/// An expression in parentheses, the first of which has the place `at`.
#[cycle(expr)]
#[inline(always)]
fn parse_group<'a>(
    alloc: Global,
    depth: usize,
    at: usize,
    input: Input<'a>,
) -> Result<(Expr, Input<'a>), ParseFault>
    ensures { ReadsOn 1 (Some at ∷ []) view expr_kept (spec.group_with (spec.expr_at depth)) input.entry result }
{
    let (inner, rest) = parse_operand(alloc, depth, None, input)?;
    parse_group_end(alloc, at, inner, rest)
}
