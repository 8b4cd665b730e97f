//! The code of expressions.

ghost use Rattle.std.specs.Prelude.{◌≡◌, ℕ, [], ◌∷◌, ◌++◌, flat_map, length, map, min, replicate};
ghost use Rattle.filter_code.specs.CodeView.{HasMask};
ghost use Rattle.filter_syntax.specs.Places.{expr_place};
ghost use Rattle.filter_syntax.specs.Syntax.{ExprView, chain_of, suffixes_of, view, view_members, view_more};
ghost use Rattle.filter_syntax.specs.SyntaxText.{view_filter};
ghost use Rattle.filter_compiler.specs.InstructionPlaces.{all_at, expression_places, right_places, suffixes_places};
ghost use Rattle.filter_compiler.specs.SetOrder.{SetCounts};
ghost use Rattle.filter_compiler.specs.Translation.{attribute_code, expression_code, member_code, operator_code, suffix_code};
ghost use Rattle.filter_compiler.specs.declared.numbers.SetNumbers.{SetNumbers as TheNumbers};
ghost use Rattle.filter_compiler.specs.declared.output.Output.{Output as TheOutput};
ghost use Rattle.filter_compiler.specs.Written.{Emits, IsCounted, Notes, Puts, code_alone, expression_part, member_part, right_part};

use crate::numbers::SetNumbers;
use crate::output::Output;
use filter_code::{INT_SET_LIMIT, Instr, SET_LIMIT};
use filter_syntax::{Attribute, Expr, Members, Membership, Op, Set, Suffix};
use filter_types::Typed;

/// The instruction that puts an attribute of the route on the stack.
fn attribute_instr(attribute: Attribute) -> Instr
    ensures code { result ≡ attribute_code attribute }
    ensures mask { HasMask result }
{
    match attribute {
        Attribute::Net => Instr::Net,
        Attribute::RipMetric => Instr::Metric,
    }
}

/// The instruction of a suffix.
fn suffix_instr(suffix: Suffix) -> Instr
    ensures code { result ≡ suffix_code suffix }
    ensures mask { HasMask result }
{
    match suffix {
        Suffix::Ip => Instr::Addr,
        Suffix::Len => Instr::Len,
        Suffix::Mask(length) => Instr::Mask(length.bits()),
    }
}

/// Writes an instruction, and NOT after it.
fn put_opposite(at: usize, instr: Instr, out: &mut Output)
    requires { HasMask instr }
    ensures code { Puts out.old out.new (instr ∷ Instr.Not ∷ []) }
    ensures places { Notes out.old out.new (at ∷ at ∷ []) }
{
    out.put(at, instr);
    out.put(at, Instr::Not);
}

/// Writes an operator that takes both operands.
fn emit_operator(at: usize, op: Op, out: &mut Output)
    ensures code { Puts out.old out.new (operator_code op) }
    ensures places { Notes out.old out.new (all_at at (operator_code op)) }
{
    match op {
        Op::Add => out.put(at, Instr::Add),
        Op::Sub => out.put(at, Instr::Sub),
        Op::Mul => out.put(at, Instr::Mul),
        Op::Div => out.put(at, Instr::Div),
        Op::Equal => out.put(at, Instr::Eq),
        Op::NotEqual => put_opposite(at, Instr::Eq, out),
        Op::Less => out.put(at, Instr::Lt),
        Op::Greater => put_opposite(at, Instr::Le, out),
        Op::LessEqual => out.put(at, Instr::Le),
        Op::GreaterEqual => put_opposite(at, Instr::Lt, out),
        Op::Match => out.put(at, Instr::Within),
        Op::NotMatch => put_opposite(at, Instr::Within, out),
        Op::And | Op::Or => {}
    }
}

/// Writes what is one instruction.
pub(crate) fn emit_one(at: usize, instr: Instr, sets: SetNumbers, out: &mut Output) -> SetNumbers
    requires { HasMask instr }
    ensures code { Emits out.old out.new sets result (code_alone (instr ∷ [])) }
    ensures places { Notes out.old out.new (at ∷ []) }
{
    out.put(at, instr);
    sets
}

/// Writes a question that takes one operand, or its opposite.
fn put_member(at: usize, op: Membership, question: Instr, out: &mut Output)
    requires { HasMask question }
    ensures code { Puts out.old out.new (member_code op question) }
    ensures places { Notes out.old out.new (all_at at (member_code op question)) }
{
    match op {
        Membership::In => out.put(at, question),
        Membership::NotIn => put_opposite(at, question, out),
    }
}

/// Writes the question whether an operand is in a set, where the next sets have these numbers. What is answered are the numbers after it.
fn emit_member(op: Membership, set: &Set, sets: SetNumbers, out: &mut Output) -> SetNumbers
    ensures code { Emits out.old out.new sets result (member_part op (view_members set.now.members)) }
    ensures places { Notes out.old out.new (all_at set.now.at (member_code op (Instr.Member 0))) }
{
    match &set.members {
        Members::Patterns(_) => {
            out.need_set(sets.patterns, SET_LIMIT);
            put_member(set.at, op, Instr::Member(sets.patterns), out);
            sets.after_patterns()
        }
        Members::Ranges(_) => {
            out.need_set(sets.ints, INT_SET_LIMIT);
            put_member(set.at, op, Instr::InSet(sets.ints), out);
            sets.after_ints()
        }
    }
}

/// Writes the argument of a `case` and the question whether it is in the set of ints of a label.
pub(crate) fn emit_question(
    typed: &Typed,
    at: usize,
    argument: &Expr,
    sets: SetNumbers,
    number: u8,
    out: &mut Output,
)
    ensures code { (n : SetCounts) (m : ℕ) → IsCounted n sets → number ≡ min m 255
        → Puts out.old out.new (expression_code (view_filter typed.now).decls n (view argument.now) ++ Instr.InSet m ∷ []) }
    ensures places { Notes out.old out.new (expression_places argument.now ++ at ∷ []) }
{
    emit(typed, argument, sets, out);
    out.need_set(number, INT_SET_LIMIT);
    out.put(at, Instr::InSet(number));
}

/// Writes an operand with its suffixes, from the left.
#[cycle(expressions)]
fn emit_suffixed(
    typed: &Typed,
    operand: &Expr,
    suffixes: &[Suffix],
    sets: SetNumbers,
    out: &mut Output,
) -> SetNumbers
    ensures code { Emits out.old out.new sets result
        (expression_part (view_filter typed.now).decls (suffixes_of (view operand.now) suffixes.now)) }
    ensures places { Notes out.old out.new (expression_places operand.now ++ suffixes_places (expr_place operand.now) suffixes.now) }
{
    let next = emit(typed, operand, sets, out);
    let at = operand.at();
    for suffix in suffixes {
        out.put(at, suffix_instr(*suffix));
    }
    next
}

/// Writes `&&` with the operand at its right, which is passed over where the left one is false.
#[cycle(expressions)]
fn emit_and(
    typed: &Typed,
    at: usize,
    right: &Expr,
    sets: SetNumbers,
    out: &mut Output,
) -> SetNumbers
    ensures code { Emits out.old out.new sets result (right_part (view_filter typed.now).decls Op.And (view right.now)) }
    ensures places { Notes out.old out.new (right_places at Op.And (expression_places right.now)) }
{
    let jump = out.length;
    out.put(at, Instr::JumpIfNot(0));
    let next = emit(typed, right, sets, out);
    let distance = out.distance(jump);
    out.patch(jump, Instr::JumpIfNot(distance + 1));
    out.put(at, Instr::Jump(1));
    out.put(at, Instr::Bool(false));
    next
}

/// Writes `||` with the operand at its right, which is passed over where the left one is true.
#[cycle(expressions)]
fn emit_or(typed: &Typed, at: usize, right: &Expr, sets: SetNumbers, out: &mut Output) -> SetNumbers
    ensures code { Emits out.old out.new sets result (right_part (view_filter typed.now).decls Op.Or (view right.now)) }
    ensures places { Notes out.old out.new (right_places at Op.Or (expression_places right.now)) }
{
    out.put(at, Instr::JumpIfNot(2));
    out.put(at, Instr::Bool(true));
    let jump = out.length;
    out.put(at, Instr::Jump(0));
    let next = emit(typed, right, sets, out);
    let distance = out.distance(jump);
    out.patch(jump, Instr::Jump(distance));
    next
}

/// Writes an operator, which stands at a place, with the operand at its right.
#[cycle(expressions)]
fn emit_right(
    typed: &Typed,
    at: usize,
    op: Op,
    right: &Expr,
    sets: SetNumbers,
    out: &mut Output,
) -> SetNumbers
    ensures code { Emits out.old out.new sets result (right_part (view_filter typed.now).decls op (view right.now)) }
    ensures places { Notes out.old out.new (right_places at op (expression_places right.now)) }
{
    match op {
        Op::And => emit_and(typed, at, right, sets, out),
        Op::Or => emit_or(typed, at, right, sets, out),
        _ => {
            let next = emit(typed, right, sets, out);
            emit_operator(at, op, out);
            next
        }
    }
}

/// Writes the operators after a first operand, each with the operand at its right.
#[cycle(expressions)]
fn emit_chain(
    typed: &Typed,
    more: &[(usize, Op, Expr)],
    sets: SetNumbers,
    out: &mut Output,
) -> SetNumbers
    ensures code { (before : TheOutput) (start : TheNumbers) (first : ExprView)
        → Emits before out.old start sets (expression_part (view_filter typed.now).decls first)
        → Emits before out.new start result (expression_part (view_filter typed.now).decls (chain_of first (view_more more.now))) }
    ensures places { Notes out.old out.new (flat_map (λ x. right_places x.0 x.1 (expression_places x.2)) more.now) }
{
    let mut next = sets;
    for (at, op, right) in more {
        next = emit_right(typed, *at, *op, right, next, out);
    }
    next
}

/// Writes two operands and the operator between them.
#[cycle(expressions)]
fn emit_binary(
    typed: &Typed,
    parts: &(Expr, usize, Op, Expr),
    sets: SetNumbers,
    out: &mut Output,
) -> SetNumbers
    ensures code { Emits out.old out.new sets result
        (expression_part (view_filter typed.now).decls (ExprView.binary parts.now.2 (view parts.now.0) (view parts.now.3))) }
    ensures places { Notes out.old out.new
        (expression_places parts.now.0 ++ right_places parts.now.1 parts.now.2 (expression_places parts.now.3)) }
{
    let (left, at, op, right) = parts;
    let next = emit(typed, left, sets, out);
    emit_right(typed, *at, *op, right, next, out)
}

/// Writes an expression, where the next sets have these numbers. What is answered are the numbers after those of the expression.
#[cycle(expressions)]
pub(crate) fn emit(typed: &Typed, expr: &Expr, sets: SetNumbers, out: &mut Output) -> SetNumbers
    ensures code { Emits out.old out.new sets result (expression_part (view_filter typed.now).decls (view expr.now)) }
    ensures places { Notes out.old out.new (expression_places expr.now) }
{
    match expr {
        Expr::Number(at, number) => emit_one(*at, Instr::Int(*number), sets, out),
        Expr::Address(at, address) => emit_one(*at, Instr::Ip(*address), sets, out),
        Expr::Prefix(at, prefix) => emit_one(*at, Instr::Prefix(*prefix), sets, out),
        Expr::Truth(at, truth) => emit_one(*at, Instr::Bool(*truth), sets, out),
        Expr::Name(at, name) => emit_one(
            *at,
            Instr::Load(typed.number_of(name.as_slice())),
            sets,
            out,
        ),
        Expr::Attribute(at, attribute) => emit_one(*at, attribute_instr(*attribute), sets, out),
        Expr::Defined(at, _) => emit_one(*at, Instr::Bool(true), sets, out),
        Expr::AttributePart(at, attribute, suffix) => {
            out.put(*at, attribute_instr(*attribute));
            emit_one(*at, suffix_instr(*suffix), sets, out)
        }
        Expr::Group(_, inner) => emit(typed, inner, sets, out),
        Expr::Not(at, inner) => {
            let next = emit(typed, inner, sets, out);
            out.put(*at, Instr::Not);
            next
        }
        Expr::Binary(parts) => emit_binary(typed, parts, sets, out),
        Expr::GroupedBinary(_, parts) => emit_binary(typed, parts, sets, out),
        Expr::Chain(first, more) => {
            let next = emit(typed, first, sets, out);
            emit_chain(typed, more, next, out)
        }
        Expr::Member(op, left, set) => {
            let next = emit(typed, left, sets, out);
            emit_member(*op, set, next, out)
        }
        Expr::Suffixed(inner, suffixes) => emit_suffixed(typed, inner, suffixes, sets, out),
    }
}
