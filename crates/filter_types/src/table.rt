//! The kinds table: what each form takes, and what it gives.

ghost use Rattle.std.specs.Prelude.{◌≡◌, IfErr};
ghost use Rattle.filter_types.specs.Answers.{AnswersKind};
ghost use Rattle.filter_syntax.specs.Syntax.{view_members};
ghost use Rattle.filter_types.specs.Refusals.{arithmetic_refusal, equality_refusal, logic_refusal, member_refusal, operator_refusal};
ghost use Rattle.filter_types.specs.Refusals.{order_refusal, suffix_refusal, view_operand, within_refusal, wrong_kind};
ghost use Rattle.filter_types.specs.Table.{arithmetic, attribute_kind, equality, in_set, logic};
ghost use Rattle.filter_types.specs.Table.{negated, operator, order, suffixed_by, within};

use crate::fault::{ExpectedKind, TypeFault};
use filter_syntax::{Attribute, Expr, Kind, Members, Op, Suffix};

/// An operand whose kind is known.
#[derive(Clone, Copy)]
pub(crate) struct Operand<'a> {
    pub(crate) expr: &'a Expr,
    pub(crate) kind: Kind,
}

impl Operand<'_> {
    /// The fault of an operand that has another kind than is expected.
    pub(crate) fn wrong_kind(self, expected: ExpectedKind) -> TypeFault
        ensures { result ≡ wrong_kind (view_operand self.entry) expected }
    {
        TypeFault::WrongKind(self.expr.at(), expected, self.kind)
    }
}

/// `+ - * /`
fn arithmetic(left: Operand, right: Operand) -> Result<Kind, TypeFault>
    ensures kind { AnswersKind result (arithmetic left.entry.kind right.entry.kind) }
    ensures refusal { IfErr result (λ why. why ≡ arithmetic_refusal (view_operand left.entry) (view_operand right.entry)) }
{
    match (left.kind, right.kind) {
        (Kind::Int, Kind::Int) => Ok(Kind::Int),
        (Kind::Int, _) => Err(right.wrong_kind(ExpectedKind::Int)),
        _ => Err(left.wrong_kind(ExpectedKind::Int)),
    }
}

/// `= !=`
fn equality(left: Operand, right: Operand) -> Result<Kind, TypeFault>
    ensures kind { AnswersKind result (equality left.entry.kind right.entry.kind) }
    ensures refusal { IfErr result (λ why. why ≡ equality_refusal (view_operand left.entry) (view_operand right.entry)) }
{
    match (left.kind, right.kind) {
        (Kind::Int, Kind::Int)
        | (Kind::Bool, Kind::Bool)
        | (Kind::Ip, Kind::Ip)
        | (Kind::Prefix, Kind::Prefix) => Ok(Kind::Bool),
        _ => Err(right.wrong_kind(ExpectedKind::from(left.kind))),
    }
}

/// `< > <= >=`
fn order(left: Operand, right: Operand) -> Result<Kind, TypeFault>
    ensures kind { AnswersKind result (order left.entry.kind right.entry.kind) }
    ensures refusal { IfErr result (λ why. why ≡ order_refusal (view_operand left.entry) (view_operand right.entry)) }
{
    match (left.kind, right.kind) {
        (Kind::Int, Kind::Int) | (Kind::Ip, Kind::Ip) => Ok(Kind::Bool),
        (Kind::Int, _) | (Kind::Ip, _) => Err(right.wrong_kind(ExpectedKind::from(left.kind))),
        _ => Err(left.wrong_kind(ExpectedKind::IntOrIp)),
    }
}

/// `~ !~` between two operands
fn within(left: Operand, right: Operand) -> Result<Kind, TypeFault>
    ensures kind { AnswersKind result (within left.entry.kind right.entry.kind) }
    ensures refusal { IfErr result (λ why. why ≡ within_refusal (view_operand left.entry) (view_operand right.entry)) }
{
    match (left.kind, right.kind) {
        (Kind::Ip, Kind::Prefix) | (Kind::Prefix, Kind::Prefix) => Ok(Kind::Bool),
        (Kind::Ip, _) | (Kind::Prefix, _) => Err(right.wrong_kind(ExpectedKind::Prefix)),
        _ => Err(left.wrong_kind(ExpectedKind::IpOrPrefix)),
    }
}

/// `&& ||`
fn logic(left: Operand, right: Operand) -> Result<Kind, TypeFault>
    ensures kind { AnswersKind result (logic left.entry.kind right.entry.kind) }
    ensures refusal { IfErr result (λ why. why ≡ logic_refusal (view_operand left.entry) (view_operand right.entry)) }
{
    match (left.kind, right.kind) {
        (Kind::Bool, Kind::Bool) => Ok(Kind::Bool),
        (Kind::Bool, _) => Err(right.wrong_kind(ExpectedKind::Bool)),
        _ => Err(left.wrong_kind(ExpectedKind::Bool)),
    }
}

/// An operator between two operands.
pub(crate) fn operator(op: Op, left: Operand, right: Operand) -> Result<Kind, TypeFault>
    ensures kind { AnswersKind result (operator op left.entry.kind right.entry.kind) }
    ensures refusal { IfErr result (λ why. why ≡ operator_refusal op (view_operand left.entry) (view_operand right.entry)) }
{
    match op {
        Op::Add | Op::Sub | Op::Mul | Op::Div => arithmetic(left, right),
        Op::Equal | Op::NotEqual => equality(left, right),
        Op::Less | Op::Greater | Op::LessEqual | Op::GreaterEqual => order(left, right),
        Op::Match | Op::NotMatch => within(left, right),
        Op::And | Op::Or => logic(left, right),
    }
}

/// `!`
pub(crate) fn negated(operand: Operand) -> Result<Kind, TypeFault>
    ensures kind { AnswersKind result (negated operand.entry.kind) }
    ensures refusal { IfErr result (λ why. why ≡ wrong_kind (view_operand operand.entry) ExpectedKind.Bool) }
{
    match operand.kind {
        Kind::Bool => Ok(Kind::Bool),
        _ => Err(operand.wrong_kind(ExpectedKind::Bool)),
    }
}

/// `~ !~` with a set
pub(crate) fn in_set(members: &Members, operand: Operand) -> Result<Kind, TypeFault>
    ensures kind { AnswersKind result (in_set (view_members members.now) operand.entry.kind) }
    ensures refusal { IfErr result (λ why. why ≡ member_refusal (view_members members.now) (view_operand operand.entry)) }
{
    match (members, operand.kind) {
        (Members::Patterns(_), Kind::Prefix) | (Members::Ranges(_), Kind::Int) => Ok(Kind::Bool),
        (Members::Patterns(_), _) => Err(operand.wrong_kind(ExpectedKind::Prefix)),
        (Members::Ranges(_), _) => Err(operand.wrong_kind(ExpectedKind::Int)),
    }
}

/// `.ip`, `.len` and `.mask(n)`
pub(crate) fn suffixed_by(suffix: Suffix, operand: Operand) -> Result<Kind, TypeFault>
    ensures kind { AnswersKind result (suffixed_by suffix operand.entry.kind) }
    ensures refusal { IfErr result (λ why. why ≡ suffix_refusal suffix (view_operand operand.entry)) }
{
    match (suffix, operand.kind) {
        (Suffix::Ip, Kind::Prefix) => Ok(Kind::Ip),
        (Suffix::Len, Kind::Prefix) => Ok(Kind::Int),
        (Suffix::Mask(_), Kind::Ip) => Ok(Kind::Ip),
        (Suffix::Mask(_), _) => Err(operand.wrong_kind(ExpectedKind::Ip)),
        _ => Err(operand.wrong_kind(ExpectedKind::Prefix)),
    }
}

/// `net` and `rip_metric`
pub(crate) fn attribute_kind(attribute: Attribute) -> Kind
    ensures { result ≡ attribute_kind attribute }
{
    match attribute {
        Attribute::Net => Kind::Prefix,
        Attribute::RipMetric => Kind::Int,
    }
}
