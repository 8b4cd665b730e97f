ghost use Rattle.std.specs.Prelude.{◌≡◌, ◌∷◌, ◌++◌, [], Some, None, IfOk, map};
ghost use Rattle.filter_syntax.specs.Placed.{expr_kept, joined, kept_more, operand_kept, set_kept, suffix_kept};
ghost use Rattle.filter_syntax.specs.Syntax.{ExprView, chain_of, suffixes_of, view, view_members, view_more};

use filter_syntax::{Expr, Membership, Op, Set, Suffix};
use std::alloc::{AllocError, Global};

/// An expression in parentheses, the first of which has the place `at`.
pub(crate) fn group(alloc: Global, at: usize, inner: Expr) -> Result<Expr, AllocError>
    ensures is { IfOk result (λ t. view t ≡ ExprView.group (view inner)) }
    ensures placed { IfOk result (λ t. expr_kept t ≡ Some at ∷ (expr_kept inner ++ None ∷ [])) }
{
    match inner {
        Expr::Binary(parts) => Ok(Expr::GroupedBinary(at, parts)),
        _ => Ok(Expr::Group(at, Box::new(alloc, inner)?)),
    }
}

/// `!`, which has the place `at`, and its operand.
pub(crate) fn negation(alloc: Global, at: usize, inner: Expr) -> Result<Expr, AllocError>
    ensures is { IfOk result (λ t. view t ≡ ExprView.negation (view inner)) }
    ensures placed { IfOk result (λ t. expr_kept t ≡ Some at ∷ expr_kept inner) }
{
    Ok(Expr::Not(at, Box::new(alloc, inner)?))
}

/// An operand and the operators after it.
#[inline(always)]
pub(crate) fn chain(
    alloc: Global,
    first: Expr,
    more: Vec<(usize, Op, Expr)>,
) -> Result<Expr, AllocError>
    ensures is { IfOk result (λ t. view t ≡ chain_of (view first) (view_more more.items)) }
    ensures placed { IfOk result (λ t. expr_kept t ≡ expr_kept first ++ joined (map operand_kept (kept_more more.items))) }
{
    Ok(Expr::Chain(Box::new(alloc, first)?, more))
}

/// Two operands and the operator between them, which has the place `at`.
pub(crate) fn binary(
    alloc: Global,
    at: usize,
    op: Op,
    left: Expr,
    right: Expr,
) -> Result<Expr, AllocError>
    ensures is { IfOk result (λ t. view t ≡ ExprView.binary op (view left) (view right)) }
    ensures placed { IfOk result (λ t. expr_kept t ≡ expr_kept left ++ Some at ∷ expr_kept right) }
{
    Ok(Expr::Binary(Box::new(alloc, (left, at, op, right))?))
}

/// An operand and a set.
pub(crate) fn member(
    alloc: Global,
    op: Membership,
    left: Expr,
    set: Set,
) -> Result<Expr, AllocError>
    ensures is { IfOk result (λ t. view t ≡ ExprView.member op (view left) (view_members set.members)) }
    ensures placed { IfOk result (λ t. expr_kept t ≡ expr_kept left ++ None ∷ set_kept set) }
{
    Ok(Expr::Member(op, Box::new(alloc, left)?, set))
}

/// An operand and its suffixes.
pub(crate) fn suffixed(
    alloc: Global,
    inner: Expr,
    suffixes: Vec<Suffix>,
) -> Result<Expr, AllocError>
    ensures is { IfOk result (λ t. view t ≡ suffixes_of (view inner) suffixes.items) }
    ensures placed { IfOk result (λ t. expr_kept t ≡ expr_kept inner ++ joined (map suffix_kept suffixes.items)) }
{
    Ok(Expr::Suffixed(Box::new(alloc, inner)?, suffixes))
}

/// An operand and one suffix.
pub(crate) fn suffixed_once(alloc: Global, inner: Expr, suffix: Suffix) -> Result<Expr, AllocError>
    ensures is { IfOk result (λ t. view t ≡ ExprView.suffixed (view inner) suffix) }
    ensures placed { IfOk result (λ t. expr_kept t ≡ expr_kept inner ++ suffix_kept suffix) }
{
    match inner {
        Expr::Attribute(at, attribute) => Ok(Expr::AttributePart(at, attribute, suffix)),
        _ => {
            let mut suffixes = Vec::with_capacity(alloc, 1)?;
            suffixes.push(suffix)?;
            suffixed(alloc, inner, suffixes)
        }
    }
}
