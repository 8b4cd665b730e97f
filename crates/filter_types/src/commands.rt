//! The names and kinds of commands.

ghost use Rattle.std.specs.Prelude.{◌≡◌, ◌≢◌, ◌⊎◌, Contains, IfErr, Some, flat_map, map};
ghost use Rattle.filter_syntax.specs.Syntax.{view};
ghost use Rattle.filter_syntax.specs.SyntaxCommands.{commands_of, parts_of, view_command, view_decl, view_part, view_target};
ghost use Rattle.filter_syntax.specs.declared.tree.command.Command.{Command as TheCommand};
ghost use Rattle.filter_types.specs.Answers.{AnswersKind, DoPartsFit, Judges};
ghost use Rattle.filter_types.specs.Codes.{expected_of};
ghost use Rattle.filter_types.specs.Faults.{CommandHasFault, HasFault, IsOtherKind, IsOtherThanTarget, IsTargetFault, SharesLabel};
ghost use Rattle.filter_types.specs.Kinds.{KindsFit, KindsFitAll, HasSameKind, target_kind, kind_in};
ghost use Rattle.filter_types.specs.Refusals.{view_operand, wrong_kind};
ghost use Rattle.filter_types.specs.Table.{argument_kind, condition_kind};
ghost use Rattle.filter_types.specs.declared.fault.TypeFault.TheVariants as fault;

use crate::fault::{ExpectedKind, TypeFault};
use crate::kinds::kind_of;
use crate::parts::{first_shared_label, shared_label};
use crate::table::{Operand, attribute_kind};
use crate::variables::resolve;
use filter_syntax::{Attribute, Command, Decl, Expr, Kind, Label, Target};
use std::alloc::Global;

/// The kind of what an assignment sets.
fn target_kind(at: usize, target: &Target, variables: &[Decl]) -> Result<Kind, TypeFault>
    ensures kind { AnswersKind result (target_kind (map view_decl variables.now) (view_target target.now)) }
    ensures fault { IfErr result (IsTargetFault (map view_decl variables.now) at target.now) }
{
    match target {
        Target::Name(name) => resolve(at, name.as_slice(), variables),
        Target::RipMetric => Ok(attribute_kind(Attribute::RipMetric)),
        Target::Net => Err(TypeFault::NetAssigned(at)),
    }
}

/// Judges an operand where a kind is expected.
fn check_kind(operand: Operand, expected: Kind) -> Result<(), TypeFault>
    ensures judged { Judges result (operand.entry.kind ≡ expected) }
    ensures fault { IfErr result (λ why. (operand.entry.kind ≢ expected) × (why ≡ wrong_kind (view_operand operand.entry) (expected_of expected))) }
{
    if operand.kind == expected {
        Ok(())
    } else {
        Err(operand.wrong_kind(ExpectedKind::from(expected)))
    }
}

/// Judges the condition of an `if`.
fn check_test(test: &Expr, variables: &[Decl]) -> Result<(), TypeFault>
    ensures judged { Judges result (kind_in (map view_decl variables.now) (view test.now) ≡ Some condition_kind) }
    ensures fault { IfErr result (λ why. HasFault (map view_decl variables.now) test.now why
        ⊎ IsOtherKind (map view_decl variables.now) condition_kind test.now why) }
{
    let kind = kind_of(test, variables)?;
    check_kind(Operand { expr: test, kind }, Kind::Bool)
}

/// Judges an assignment: first what it sets, then its right side.
fn check_assignment(
    at: usize,
    target: &Target,
    value: &Expr,
    variables: &[Decl],
) -> Result<(), TypeFault>
    ensures judged { Judges result (HasSameKind (target_kind (map view_decl variables.now) (view_target target.now))
        (kind_in (map view_decl variables.now) (view value.now))) }
    ensures fault { IfErr result (λ why. HasFault (map view_decl variables.now) value.now why
        ⊎ (IsTargetFault (map view_decl variables.now) at target.now why
        ⊎ IsOtherThanTarget (map view_decl variables.now) target.now value.now why)) }
{
    let expected = target_kind(at, target, variables)?;
    let kind = kind_of(value, variables)?;
    check_kind(Operand { expr: value, kind }, expected)
}

/// Judges the argument of a `case`.
fn check_argument(argument: &Expr, variables: &[Decl]) -> Result<(), TypeFault>
    ensures judged { Judges result (kind_in (map view_decl variables.now) (view argument.now) ≡ Some argument_kind) }
    ensures fault { IfErr result (λ why. HasFault (map view_decl variables.now) argument.now why
        ⊎ IsOtherKind (map view_decl variables.now) argument_kind argument.now why) }
{
    let kind = kind_of(argument, variables)?;
    check_kind(
        Operand {
            expr: argument,
            kind,
        },
        Kind::Int,
    )
}

/// Judges commands one after another.
#[cycle(command)]
pub(crate) fn check_commands(
    alloc: Global,
    commands: &[Command],
    variables: &[Decl],
) -> Result<(), TypeFault>
    ensures judged { Judges result (KindsFitAll (map view_decl variables.now) (commands_of (map view_command commands.now))) }
    ensures fault { IfErr result (λ why. why ≢ fault.Memory → (command : TheCommand) × Contains commands.now command
        × CommandHasFault (map view_decl variables.now) command why) }
{
    for command in commands {
        check_command(alloc, command, variables)?;
    }
    Ok(())
}

/// Judges the parts of a `case`, of each its label and then its commands.
#[cycle(command)]
fn check_parts(
    alloc: Global,
    parts: &[(Label, Vec<Command>)],
    variables: &[Decl],
) -> Result<(), TypeFault>
    ensures judged { Judges result (DoPartsFit (map view_decl variables.now) (parts_of (map view_part parts.now))) }
    ensures fault { IfErr result (λ why. why ≢ fault.Memory → SharesLabel parts.now why
        ⊎ ((command : TheCommand) × Contains (flat_map (λ p. p.1.items) parts.now) command
        × CommandHasFault (map view_decl variables.now) command why)) }
{
    let shared = first_shared_label(alloc, parts)?;
    for (number, (label, commands)) in parts.iter().enumerate() {
        if number == shared {
            return Err(shared_label(label));
        }
        check_commands(alloc, commands, variables)?;
    }
    Ok(())
}

/// Judges a command.
#[cycle(command)]
fn check_command(alloc: Global, command: &Command, variables: &[Decl]) -> Result<(), TypeFault>
    ensures judged { Judges result (KindsFit (map view_decl variables.now) (view_command command.now)) }
    ensures fault { IfErr result (λ why. why ≢ fault.Memory → CommandHasFault (map view_decl variables.now) command.now why) }
{
    match command {
        Command::Empty(_) | Command::Accept(_, _) | Command::Reject(_, _) => Ok(()),
        Command::Block(_, body) => check_commands(alloc, body, variables),
        Command::If(_, test, chosen, other) => {
            check_test(test, variables)?;
            check_command(alloc, chosen, variables)?;
            match other {
                None => Ok(()),
                Some(other) => check_command(alloc, other, variables),
            }
        }
        Command::Case(_, argument, parts) => {
            check_argument(argument, variables)?;
            check_parts(alloc, parts, variables)
        }
        Command::Assign(at, target, value) => check_assignment(*at, target, value, variables),
    }
}
