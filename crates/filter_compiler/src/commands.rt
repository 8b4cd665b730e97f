//! The code of declarations and commands.

ghost use Rattle.std.specs.Prelude.{◌≡◌, ◌≤◌, List, ◌∷◌, [], ◌++◌, flat_map, length, map};
ghost use Rattle.filter_code.specs.CodeView.{HasMask};
ghost use Rattle.filter_syntax.specs.Syntax.{RangeView, view};
ghost use Rattle.filter_syntax.specs.SyntaxCommands.{case, commands_of, parts_of, view_command, view_decl, view_part, view_target};
ghost use Rattle.filter_syntax.specs.SyntaxText.{view_filter};
ghost use Rattle.filter_syntax.specs.Surroundings.{variable_limit};
ghost use Rattle.filter_compiler.specs.InstructionPlaces.{case_places, command_places, decl_places, expression_places};
ghost use Rattle.filter_compiler.specs.InstructionPlaces.{label_place, part_of, parts_places, target_places};
ghost use Rattle.filter_compiler.specs.Translation.{commands_code, declarations_code, expression_code, first_value, metric_code, target_code};
ghost use Rattle.filter_compiler.specs.SetOrder.{SetCounts};
ghost use Rattle.filter_compiler.specs.Written.{Emits, IsCounted, Notes, Puts, command_part, commands_part, labelled_part, parts_part};

use crate::expressions::{emit, emit_one, emit_question};
use crate::numbers::SetNumbers;
use crate::output::Output;
use crate::sets::{after_commands, after_expr, after_parts, has_labelled};
use filter_code::{INSTRUCTION_LIMIT, Instr};
use filter_syntax::{Command, Decl, Expr, Kind, Label, SetRange, Target};
use filter_types::Typed;
use prefix_patterns::{Ip, Prefix};

/// The instruction that puts a variable's first value on the stack.
fn first_value(kind: Kind) -> Instr
    ensures code { result ≡ first_value kind }
    ensures mask { HasMask result }
{
    match kind {
        Kind::Int => Instr::Int(0),
        Kind::Bool => Instr::Bool(false),
        Kind::Ip => Instr::Ip(Ip(0)),
        Kind::Prefix => Instr::Prefix(Prefix::new(Ip(0), 0).unwrap()),
    }
}

/// Writes the declarations: each gives its variable the first value.
pub(crate) fn emit_declarations(variables: &[Decl], out: &mut Output)
    requires { length variables.now ≤ variable_limit }
    ensures code { Puts out.old out.new (declarations_code 0 (map view_decl variables.now)) }
    ensures places { Notes out.old out.new (flat_map decl_places variables.now) }
{
    for (number, variable) in variables.iter().enumerate() {
        out.put(variable.at, first_value(variable.kind));
        out.put(variable.at, Instr::Store(number as u8));
    }
}

/// Writes what sets the metric, which is at least the metric received.
fn emit_metric(at: usize, out: &mut Output)
    ensures code { Puts out.old out.new metric_code }
    ensures places { Notes out.old out.new (at ∷ at ∷ at ∷ []) }
{
    out.put(at, Instr::Received);
    out.put(at, Instr::Max);
    out.put(at, Instr::SetMetric);
}

/// Writes what sets a variable or the metric to a value, where its name stands at a place.
fn emit_target(typed: &Typed, at: usize, target: &Target, out: &mut Output)
    ensures code { Puts out.old out.new (target_code (view_filter typed.now).decls (view_target target.now)) }
    ensures places { Notes out.old out.new (target_places at target.now) }
{
    match target {
        Target::Name(name) => out.put(at, Instr::Store(typed.number_of(name.as_slice()))),
        Target::RipMetric => emit_metric(at, out),
        Target::Net => {}
    }
}

/// Writes commands one after another, where the next sets have these numbers. What is answered are the numbers after theirs.
#[cycle(command)]
pub(crate) fn emit_commands(
    typed: &Typed,
    commands: &[Command],
    sets: SetNumbers,
    out: &mut Output,
) -> SetNumbers
    ensures code { Emits out.old out.new sets result
        (commands_part (view_filter typed.now).decls (commands_of (map view_command commands.now))) }
    ensures places { Notes out.old out.new (flat_map command_places commands.now) }
{
    let mut next = sets;
    for command in commands {
        next = emit_command(typed, command, next, out);
    }
    next
}

/// The place of the label of a part of a `case`, which is at the place `at`: that of its first range.
fn label_place(at: usize, ranges: &[SetRange]) -> usize
    ensures { result ≡ label_place at ranges.now }
{
    match ranges.first() {
        None => at,
        Some(range) => range.at(),
    }
}

/// Writes a labelled part of a `case` up to its last command: the question whether the argument is in its label, whose place this is,
/// and its commands, which with one more instruction are passed over where it is not.
#[cycle(command)]
fn emit_part(
    typed: &Typed,
    at: usize,
    argument: &Expr,
    argument_sets: SetNumbers,
    commands: &[Command],
    sets: SetNumbers,
    out: &mut Output,
) -> SetNumbers
    ensures code { (n : SetCounts) (ranges : List RangeView) → IsCounted n argument_sets → Emits out.old out.new sets result
        (labelled_part (view_filter typed.now).decls (expression_code (view_filter typed.now).decls n (view argument.now)) ranges
        (commands_of (map view_command commands.now))) }
    ensures places { Notes out.old out.new (expression_places argument.now ++ at ∷ at ∷ flat_map command_places commands.now) }
{
    emit_question(typed, at, argument, argument_sets, sets.ints, out);
    let jump = out.length;
    out.put(at, Instr::JumpIfNot(0));
    let next = emit_commands(typed, commands, sets.after_ints(), out);
    let distance = out.distance(jump);
    out.patch(jump, Instr::JumpIfNot(distance + 1));
    next
}

/// Writes parts of a `case`, which is at this place: the labelled ones in order, and then the `else` part, which is among them or came
/// before them with these sets.
#[cycle(command)]
fn emit_parts(
    typed: &Typed,
    at: usize,
    argument: &Expr,
    argument_sets: SetNumbers,
    parts: &[(Label, Vec<Command>)],
    other: &[Command],
    other_sets: SetNumbers,
    sets: SetNumbers,
    out: &mut Output,
) -> SetNumbers
    ensures code { (n m : SetCounts) → IsCounted n argument_sets → IsCounted m other_sets → Emits out.old out.new sets result
        (parts_part (view_filter typed.now).decls (expression_code (view_filter typed.now).decls n (view argument.now))
        (commands_code (view_filter typed.now).decls m (commands_of (map view_command other.now))) (parts_of (map view_part parts.now))) }
    ensures places { Notes out.old out.new
        (parts_places at (expression_places argument.now) (flat_map command_places other.now) (map part_of parts.now)) }
{
    let Some((part, more)) = parts.split_first() else {
        emit_commands(typed, other, other_sets, out);
        return sets;
    };
    match &part.0 {
        Label::Else(_) => {
            let next = after_commands(out.alloc, &part.1, sets);
            emit_parts(
                typed,
                at,
                argument,
                argument_sets,
                more,
                &part.1,
                sets,
                next,
                out,
            )
        }
        Label::Ranges(ranges) => {
            // So many parts are never kept, and are not gone through one inside the other.
            if usize::from(out.length) > INSTRUCTION_LIMIT {
                out.kept = false;
                return after_parts(out.alloc, parts, sets);
            }
            let place = label_place(at, ranges);
            let next = emit_part(typed, place, argument, argument_sets, &part.1, sets, out);
            let jump_to_end = out.length;
            out.put(place, Instr::Jump(0));
            let last = emit_parts(
                typed,
                at,
                argument,
                argument_sets,
                more,
                other,
                other_sets,
                next,
                out,
            );
            let distance = out.distance(jump_to_end);
            out.patch(jump_to_end, Instr::Jump(distance));
            last
        }
    }
}

/// Writes a `case`, which is at this place.
#[cycle(command)]
fn emit_case(
    typed: &Typed,
    at: usize,
    argument: &Expr,
    parts: &[(Label, Vec<Command>)],
    sets: SetNumbers,
    out: &mut Output,
) -> SetNumbers
    ensures code { Emits out.old out.new sets result
        (command_part (view_filter typed.now).decls (case (view argument.now) (parts_of (map view_part parts.now)))) }
    ensures places { Notes out.old out.new (case_places at (expression_places argument.now) (map part_of parts.now)) }
{
    let first = after_expr(out.alloc, argument, sets);
    if has_labelled(parts) {
        return emit_parts(typed, at, argument, sets, parts, &[], first, first, out);
    }
    let next = emit_part(typed, at, argument, sets, &[], first, out);
    let jump = out.length;
    out.put(at, Instr::Jump(0));
    let last = emit_parts(typed, at, argument, sets, parts, &[], first, next, out);
    let distance = out.distance(jump);
    out.patch(jump, Instr::Jump(distance));
    last
}

/// Writes a command, where the next sets have these numbers. What is answered are the numbers after those of the command.
#[cycle(command)]
fn emit_command(typed: &Typed, command: &Command, sets: SetNumbers, out: &mut Output) -> SetNumbers
    ensures code { Emits out.old out.new sets result (command_part (view_filter typed.now).decls (view_command command.now)) }
    ensures places { Notes out.old out.new (command_places command.now) }
{
    match command {
        Command::Empty(_) => sets,
        Command::Block(_, body) => emit_commands(typed, body, sets, out),
        Command::If(at, test, chosen, other) => {
            let tested = emit(typed, test, sets, out);
            let jump = out.length;
            out.put(*at, Instr::JumpIfNot(0));
            let next = emit_command(typed, chosen, tested, out);
            let distance = out.distance(jump);
            match other {
                None => {
                    out.patch(jump, Instr::JumpIfNot(distance));
                    next
                }
                Some(other) => {
                    out.patch(jump, Instr::JumpIfNot(distance + 1));
                    let jump_over = out.length;
                    out.put(*at, Instr::Jump(0));
                    let last = emit_command(typed, other, next, out);
                    let distance = out.distance(jump_over);
                    out.patch(jump_over, Instr::Jump(distance));
                    last
                }
            }
        }
        Command::Case(at, argument, parts) => { emit_case(typed, *at, argument, parts, sets, out) }
        Command::Assign(at, target, value) => {
            let next = emit(typed, value, sets, out);
            emit_target(typed, *at, target, out);
            next
        }
        Command::Accept(at, _) => emit_one(*at, Instr::Accept, sets, out),
        Command::Reject(at, _) => emit_one(*at, Instr::Reject, sets, out),
    }
}
