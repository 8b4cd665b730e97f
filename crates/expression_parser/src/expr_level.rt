//! Chains of operators.
//!
//! **Operators are read by how strongly they bind**, by one function and not by one for each level. After an operand it looks once at the token
//! behind it: if no operator follows, as after most operands, it returns at once. Otherwise a loop reads the operators of a level after their first
//! operand, and then of the levels that bind less strongly. `expr_at` still has a reader for each level, one inside the other; that both read the
//! same is a lemma (`Levels.antt`). What is called in few cases has a small function of its own, since a call takes memory that is cleared first.

ghost use Rattle.std.specs.Prelude.{◌≡◌, ◌≢◌, ◌∷◌, ◌<◌, ◌≤◌, [], Some, None, IfSome, MatchBool, MatchOption, length};
ghost use Rattle.expression_parser.specs.Levels as levels;
ghost use Rattle.expression_parser.specs.Reading as spec;
ghost use Rattle.expression_parser.specs.Steps.{Finds, Follows, Spans, first_place, remaining};

use crate::input::Input;
use filter_syntax::Op;
use filter_tokens::{Symbol, TokenKind};

/// Operators that bind equally.
#[derive(Clone, Copy, PartialEq, Eq)]
pub enum Level {
    /// `||`
    Or,
    /// `&&`
    And,
    /// `=`, `<`, `~` and their kin
    Comparison,
    /// `+` and `-`
    Sum,
    /// `*` and `/`
    Product,
}

impl Level {
    /// How strongly the operators of the level bind. `&&` and `||` do not mix, so neither binds more strongly.
    #[inline(always)]
    fn strength(self) -> u8
        ensures { result ≡ levels.strength self }
    {
        match self {
            Level::Or | Level::And => 1,
            Level::Comparison => 2,
            Level::Sum => 3,
            Level::Product => 4,
        }
    }

    /// Whether the operators of the level bind more strongly than those of `outer`, where that is a level.
    #[inline(always)]
    fn is_inside(self, outer: Option<Level>) -> bool
        ensures { MatchBool result (levels.least outer < levels.strength self) (levels.strength self ≤ levels.least outer) }
    {
        match outer {
            Some(outer) => self.strength() > outer.strength(),
            None => true,
        }
    }

    /// Whether the operators of the level bind less strongly than those of `inner`, where that is a level.
    #[inline(always)]
    fn is_around(self, inner: Option<Level>) -> bool
        ensures { MatchBool result (levels.strength self ≤ levels.most inner) (levels.most inner < levels.strength self) }
    {
        match inner {
            Some(inner) => self.strength() < inner.strength(),
            None => true,
        }
    }
}

/// The operator that a symbol stands for.
fn operator_of(symbol: Symbol) -> Option<Op>
    ensures { result ≡ levels.operator_of symbol }
{
    match symbol {
        Symbol::Or => Some(Op::Or),
        Symbol::And => Some(Op::And),
        Symbol::Equal => Some(Op::Equal),
        Symbol::NotEqual => Some(Op::NotEqual),
        Symbol::Less => Some(Op::Less),
        Symbol::Greater => Some(Op::Greater),
        Symbol::LessEqual => Some(Op::LessEqual),
        Symbol::GreaterEqual => Some(Op::GreaterEqual),
        Symbol::Match => Some(Op::Match),
        Symbol::NotMatch => Some(Op::NotMatch),
        Symbol::Plus => Some(Op::Add),
        Symbol::Minus => Some(Op::Sub),
        Symbol::Times => Some(Op::Mul),
        Symbol::Divide => Some(Op::Div),
        _ => None,
    }
}

/// The level of an operator.
#[inline(always)]
fn level_of(op: Op) -> Level
    ensures { result ≡ levels.level_of_op op }
{
    match op {
        Op::Or => Level::Or,
        Op::And => Level::And,
        Op::Equal | Op::NotEqual | Op::Less | Op::Greater => Level::Comparison,
        Op::LessEqual | Op::GreaterEqual | Op::Match | Op::NotMatch => Level::Comparison,
        Op::Add | Op::Sub => Level::Sum,
        Op::Mul | Op::Div => Level::Product,
    }
}

/// The operator of a level that a symbol stands for.
#[inline(always)]
fn op_of(level: Level, symbol: Symbol) -> Option<Op>
    ensures { result ≡ spec.op_of level symbol }
{
    let op = operator_of(symbol)?;
    if level_of(op) == level {
        Some(op)
    } else {
        None
    }
}

/// An operator of a level, if one comes first, and what is left after it.
#[inline(always)]
pub(crate) fn eat_operator<'a>(level: Level, input: Input<'a>) -> Option<(Op, Input<'a>)>
    ensures found { Finds (λ x. (x.0, remaining x.1)) result (spec.an_operator level (remaining input.entry)) }
    ensures shorter { IfSome result (λ x. length (remaining x.1) < length (remaining input.entry)) }
    ensures placed { IfSome result (λ x. Spans (Some (first_place input.entry) ∷ []) input.entry x.1) }
    ensures within { IfSome result (λ x. Follows input.entry x.1) }
{
    let (first, rest) = input.next()?;
    match &first.word {
        TokenKind::Symbol(symbol) => match op_of(level, *symbol) {
            Some(op) => Some((op, rest)),
            None => None,
        },
        _ => None,
    }
}

/// The level of the operator that comes first, if one does.
#[inline(always)]
fn first_level(input: Input) -> Option<Level>
    ensures { (level : Level) → result ≢ Some level → spec.an_operator level (remaining input.entry) ≡ None }
{
    let (first, _) = input.next()?;
    match &first.word {
        TokenKind::Symbol(symbol) => match operator_of(*symbol) {
            Some(op) => Some(level_of(op)),
            None => None,
        },
        _ => None,
    }
}

/// The level of the operator that comes first, if that binds more strongly than those of `outer` and less than those of `inner`.
#[inline(always)]
pub(crate) fn next_level(outer: Option<Level>, inner: Option<Level>, input: Input) -> Option<Level>
    ensures { MatchOption result
        ((level : Level) → levels.IsBetween outer inner level → spec.an_operator level (remaining input.entry) ≡ None)
        (λ found. levels.IsBetween outer inner found × ((level : Level) → level ≢ found → spec.an_operator level (remaining input.entry) ≡ None)) }
{
    let level = first_level(input)?;
    if level.is_inside(outer) && level.is_around(inner) {
        Some(level)
    } else {
        None
    }
}

/// The kind of a chain of `&&` or `||`, by the operator that comes first.
pub(crate) fn join_level(input: Input) -> Level
    ensures { result ≡ spec.level_of (remaining input.entry) }
{
    match input.eat(Symbol::Or) {
        Some(_) => Level::Or,
        None => Level::And,
    }
}
