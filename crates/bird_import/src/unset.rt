//! Variables that are read before they are assigned: they are 0 here, and void in BIRD.
//!
//! **A variable that may be read before it is assigned, and one that a body declares without a value, leave the filter out.** BIRD 2.0.12 holds a
//! variable of the first sort for void, and rejects each route at the second. Both are 0 here.

ghost use Rattle.std.specs.Prelude.{◌≡◌, ◌⊎◌, ◌<◌, ◌||◌, IfSome, IsTrue, None, Some, is_some, length, map, not, true};
ghost use Rattle.filter_syntax.specs.Syntax.{view, view_more};
ghost use Rattle.filter_syntax.specs.Places.{decls_of};
ghost use Rattle.filter_syntax.specs.SyntaxCommands.{DeclView, commands_of, has_ranges, parts_of, view_command, view_label, view_part, view_target};
ghost use Rattle.filter_syntax.specs.SyntaxText.{view_filter};
ghost use Rattle.bird_import.specs.Unassigned as spec;

use filter_parser::{Command, Expr, Filter, Label, Op, Target};

/// A variable that may be read before it is assigned.
#[derive(Clone, Copy)]
pub struct Unset {
    /// Which of the declarations is its own.
    pub variable: usize,
    /// The place of its name where it is read.
    pub at: usize,
}

/// The place at which an expression reads a variable first, if it does.
#[cycle(reading)]
fn read_by(variable: &[u8], expr: &Expr) -> Option<usize>
    ensures { is_some result ≡ spec.reads variable.now (view expr.now) }
{
    match expr {
        Expr::Name(at, name) => {
            if name.as_slice() == variable {
                Some(*at)
            } else {
                None
            }
        }
        Expr::Group(_, inner) => read_by(variable, inner),
        Expr::Not(_, inner) => read_by(variable, inner),
        Expr::Member(_, left, _) => read_by(variable, left),
        Expr::Suffixed(inner, _) => read_by(variable, inner),
        Expr::Binary(parts) => read_by_either(variable, parts),
        Expr::GroupedBinary(_, parts) => read_by_either(variable, parts),
        Expr::Chain(left, others) => match read_by(variable, left) {
            Some(at) => Some(at),
            None => read_among(variable, others.as_slice()),
        },
        Expr::Number(_, _)
        | Expr::Address(_, _)
        | Expr::Prefix(_, _)
        | Expr::Truth(_, _)
        | Expr::Attribute(_, _)
        | Expr::Defined(_, _)
        | Expr::AttributePart(_, _, _) => None,
    }
}

/// The same of two operands.
#[cycle(reading)]
fn read_by_either(variable: &[u8], parts: &(Expr, usize, Op, Expr)) -> Option<usize>
    ensures { is_some result ≡ (spec.reads variable.now (view parts.now.0) || spec.reads variable.now (view parts.now.3)) }
{
    let (left, _, _, right) = parts;
    match read_by(variable, left) {
        Some(at) => Some(at),
        None => read_by(variable, right),
    }
}

/// The same of the further operands of a chain.
#[cycle(reading)]
fn read_among(variable: &[u8], operands: &[(usize, Op, Expr)]) -> Option<usize>
    ensures { is_some result ≡ spec.reads_among variable.now (view_more operands.now) }
{
    for operand in operands {
        if let Some(at) = read_by(variable, &operand.2) {
            return Some(at);
        }
    }
    None
}

/// Whether a variable is what an assignment sets.
fn is_set_by(variable: &[u8], target: &Target) -> bool
    ensures { result ≡ spec.is_set_by variable.now (view_target target.now) }
{
    match target {
        Target::Name(name) => name.as_slice() == variable,
        Target::RipMetric | Target::Net => false,
    }
}

/// Whether one of the parts of a `case` is that of `else`.
fn has_else(parts: &[(Label, Vec<Command>)]) -> bool
    ensures { result ≡ spec.has_else (parts_of (map view_part parts.now)) }
{
    for (label, _) in parts {
        if is_else(label) {
            return true;
        }
    }
    false
}

/// Whether a label is `else`.
fn is_else(label: &Label) -> bool
    ensures { result ≡ not (has_ranges (view_label label.now)) }
{
    match label {
        Label::Ranges(_) => false,
        Label::Else(_) => true,
    }
}

/// Whether a variable is assigned on each way through a command that goes on behind it.
#[cycle(assigning)]
fn assigns(variable: &[u8], command: &Command) -> bool
    ensures { result ≡ spec.assigns variable.now (view_command command.now) }
{
    match command {
        Command::Empty(_) => false,
        Command::Block(_, commands) => assigns_in(variable, commands),
        Command::If(_, _, chosen, other) => match other {
            None => false,
            Some(other) => assigns(variable, chosen) && assigns(variable, other),
        },
        Command::Case(_, _, parts) => has_else(parts) && assigns_in_parts(variable, parts),
        Command::Assign(_, target, _) => is_set_by(variable, target),
        Command::Accept(_, _) | Command::Reject(_, _) => true,
    }
}

/// The same of commands one after another.
#[cycle(assigning)]
fn assigns_in(variable: &[u8], commands: &[Command]) -> bool
    ensures { result ≡ spec.assigns_in variable.now (commands_of (map view_command commands.now)) }
{
    for command in commands {
        if assigns(variable, command) {
            return true;
        }
    }
    false
}

/// The same of each part of a `case`.
#[cycle(assigning)]
fn assigns_in_parts(variable: &[u8], parts: &[(Label, Vec<Command>)]) -> bool
    ensures { result ≡ spec.assigns_in_parts variable.now (parts_of (map view_part parts.now)) }
{
    for (_, commands) in parts {
        if !assigns_in(variable, commands) {
            return false;
        }
    }
    true
}

/// The place at which a command first reads a variable that is not assigned before, on some way through it, if it does.
#[cycle(following)]
fn unset_by(variable: &[u8], command: &Command) -> Option<usize>
    ensures { is_some result ≡ spec.reads_first variable.now (view_command command.now) }
{
    match command {
        Command::Empty(_) | Command::Accept(_, _) | Command::Reject(_, _) => None,
        Command::Block(_, commands) => unset_in(variable, commands),
        Command::If(_, test, chosen, other) => {
            if let Some(at) = read_by(variable, test) {
                return Some(at);
            }
            if let Some(at) = unset_by(variable, chosen) {
                return Some(at);
            }
            match other {
                None => None,
                Some(other) => unset_by(variable, other),
            }
        }
        Command::Case(_, argument, parts) => match read_by(variable, argument) {
            Some(at) => Some(at),
            None => unset_in_parts(variable, parts),
        },
        Command::Assign(_, _, value) => read_by(variable, value),
    }
}

/// The same of commands one after another.
#[cycle(following)]
fn unset_in(variable: &[u8], commands: &[Command]) -> Option<usize>
    ensures { is_some result ≡ spec.reads_first_in variable.now (commands_of (map view_command commands.now)) }
{
    for command in commands {
        if let Some(at) = unset_by(variable, command) {
            return Some(at);
        }
        if assigns(variable, command) {
            return None;
        }
    }
    None
}

/// The same of the parts of a `case`.
#[cycle(following)]
fn unset_in_parts(variable: &[u8], parts: &[(Label, Vec<Command>)]) -> Option<usize>
    ensures { is_some result ≡ spec.reads_first_in_parts variable.now (parts_of (map view_part parts.now)) }
{
    for (_, commands) in parts {
        if let Some(at) = unset_in(variable, commands) {
            return Some(at);
        }
    }
    None
}

/// Whether a place comes before that of what was found, if there is such.
fn is_earlier(at: usize, found: Option<Unset>) -> bool
    ensures { found ≡ None → IsTrue result }
{
    match found {
        Some(unset) => at < unset.at,
        None => true,
    }
}

/// What was found so far, or a further variable that may be read before it is assigned, if that is read at an earlier place.
fn earlier(found: Option<Unset>, variable: usize, at: Option<usize>) -> Option<Unset>
    ensures none { result ≡ None → (found ≡ None) × (at ≡ None) }
    ensures some { IfSome result (λ unset. (found ≡ Some unset) ⊎ ((unset.variable ≡ variable) × (is_some at ≡ true))) }
{
    match at {
        Some(at) if is_earlier(at, found) => Some(Unset { variable, at }),
        _ => found,
    }
}

/// A variable that a filter may read before it assigns it, if there is one: the one that is read so at the first place.
pub(crate) fn first_unset(filter: &Filter) -> Option<Unset>
    ensures within { IfSome result (λ unset. unset.variable < length (decls_of filter.now)) }
    ensures some { IfSome result (λ unset. (decl : DeclView) × spec.MayReadUnset (view_filter filter.now) unset.variable decl) }
    ensures none { result ≡ None → spec.AreAssigned (view_filter filter.now) }
{
    let (variables, body) = (filter.decls(), filter.body());
    let mut found = None;
    for variable in 0..variables.len() {
        let at = unset_in(variables[variable].name.as_slice(), body);
        found = earlier(found, variable, at);
    }
    found
}
