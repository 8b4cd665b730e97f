//! The kinds of expressions.

ghost use Rattle.std.specs.Prelude.{IfErr, map};
ghost use Rattle.filter_syntax.specs.Syntax.{binary, view, view_more};
ghost use Rattle.filter_syntax.specs.SyntaxCommands.{view_decl};
ghost use Rattle.filter_types.specs.Answers.{AnswersKind};
ghost use Rattle.filter_types.specs.Faults.{HasFault};
ghost use Rattle.filter_types.specs.Kinds.{kind_in};
ghost use Rattle.filter_types.specs.Refusals.{view_operand};
ghost use Rattle.filter_types.specs.Turns.{BinaryHasFault, ChainHasFault, SuffixRefuses, kind_after, kind_with};

use crate::fault::TypeFault;
use crate::table::{Operand, attribute_kind, in_set, negated, operator, suffixed_by};
use crate::variables::resolve;
use filter_syntax::{Decl, Expr, Kind, Op, Suffix};

/// The kind of an operand with the suffixes after it.
fn kind_with_suffixes(operand: Operand, suffixes: &[Suffix]) -> Result<Kind, TypeFault>
    ensures kind { AnswersKind result (kind_after operand.entry.kind suffixes.now) }
    ensures fault { IfErr result (SuffixRefuses (view_operand operand.entry) suffixes.now) }
{
    let mut operand = operand;
    for suffix in suffixes {
        operand.kind = suffixed_by(*suffix, operand)?;
    }
    Ok(operand.kind)
}

/// The kind of a first operand with the operators after it, each with the operand at its right.
#[cycle(kinds)]
fn kind_of_chain(
    more: &[(usize, Op, Expr)],
    first: Operand,
    variables: &[Decl],
) -> Result<Kind, TypeFault>
    ensures kind { AnswersKind result (kind_with (map view_decl variables.now) first.entry.kind (view_more more.now)) }
    ensures fault { IfErr result (ChainHasFault (map view_decl variables.now) (view_operand first.entry) more.now) }
{
    let mut kind = first.kind;
    for (_, op, right) in more {
        let left = Operand {
            expr: first.expr,
            kind,
        };
        let right_kind = kind_of(right, variables)?;
        kind = operator(
            *op,
            left,
            Operand {
                expr: right,
                kind: right_kind,
            },
        )?;
    }
    Ok(kind)
}

/// The kind of two operands and the operator between them.
#[cycle(kinds)]
fn kind_of_binary(parts: &(Expr, usize, Op, Expr), variables: &[Decl]) -> Result<Kind, TypeFault>
    ensures kind { AnswersKind result (kind_in (map view_decl variables.now) (binary parts.now.2 (view parts.now.0) (view parts.now.3))) }
    ensures fault { IfErr result (BinaryHasFault (map view_decl variables.now) parts.now) }
{
    let (left, _, op, right) = parts;
    let left_kind = kind_of(left, variables)?;
    let right_kind = kind_of(right, variables)?;
    operator(
        *op,
        Operand {
            expr: left,
            kind: left_kind,
        },
        Operand {
            expr: right,
            kind: right_kind,
        },
    )
}

/// The kind of an expression.
#[cycle(kinds)]
pub(crate) fn kind_of(expr: &Expr, variables: &[Decl]) -> Result<Kind, TypeFault>
    ensures kind { AnswersKind result (kind_in (map view_decl variables.now) (view expr.now)) }
    ensures fault { IfErr result (HasFault (map view_decl variables.now) expr.now) }
{
    match expr {
        Expr::Number(_, _) => Ok(Kind::Int),
        Expr::Address(_, _) => Ok(Kind::Ip),
        Expr::Prefix(_, _) => Ok(Kind::Prefix),
        Expr::Truth(_, _) | Expr::Defined(_, _) => Ok(Kind::Bool),
        Expr::Name(at, name) => resolve(*at, name.as_slice(), variables),
        Expr::Attribute(_, attribute) => Ok(attribute_kind(*attribute)),
        Expr::AttributePart(_, attribute, suffix) => suffixed_by(
            *suffix,
            Operand {
                expr,
                kind: attribute_kind(*attribute),
            },
        ),
        Expr::Group(_, inner) => kind_of(inner, variables),
        Expr::Binary(parts) => kind_of_binary(parts, variables),
        Expr::Not(_, inner) => {
            let kind = kind_of(inner, variables)?;
            negated(Operand { expr: inner, kind })
        }
        Expr::GroupedBinary(_, parts) => kind_of_binary(parts, variables),
        Expr::Chain(first, more) => {
            let kind = kind_of(first, variables)?;
            kind_of_chain(more, Operand { expr: first, kind }, variables)
        }
        Expr::Member(_, left, set) => {
            let kind = kind_of(left, variables)?;
            in_set(&set.members, Operand { expr: left, kind })
        }
        Expr::Suffixed(inner, suffixes) => {
            let kind = kind_of(inner, variables)?;
            kind_with_suffixes(Operand { expr: inner, kind }, suffixes)
        }
    }
}
