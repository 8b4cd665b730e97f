//! The variables of a filter: their numbers and kinds.
//!
//! **A variable's number is looked up by its name**, as the definition of the translation says it. A filter has at most 16 variables, so a list of
//! the numbers in the order of their uses would save little, and whoever reads it would have to walk the tree in that order.

ghost use Rattle.std.specs.Prelude.{◌≡◌, ◌≤◌, ◌⊎◌, IfErr, None, length, map};
ghost use Rattle.filter_syntax.specs.SyntaxCommands.{view_decl};
ghost use Rattle.filter_types.specs.Answers.{AnswersKind, Judges};
ghost use Rattle.filter_types.specs.Faults.{IsDeclaredTwice, IsOneTooMany};
ghost use Rattle.filter_types.specs.Kinds.{AreDeclared, kind_named, number_of};
ghost use Rattle.filter_types.specs.declared.fault.TypeFault.TheVariants as fault;

use crate::fault::TypeFault;
use filter_syntax::{Decl, Kind, VARIABLE_LIMIT};

/// The number of a variable, and the count of the variables where none has the name.
pub(crate) fn number_of(variables: &[Decl], name: &[u8]) -> usize
    ensures value { result ≡ number_of (map view_decl variables.now) name.now }
    ensures limit { result ≤ length variables.now }
{
    for (number, variable) in variables.iter().enumerate() {
        if variable.name.as_slice() == name {
            return number;
        }
    }
    variables.len()
}

/// The kind of the variable of a name.
pub(crate) fn resolve(at: usize, name: &[u8], variables: &[Decl]) -> Result<Kind, TypeFault>
    ensures kind { AnswersKind result (kind_named (map view_decl variables.now) name.now) }
    ensures fault { IfErr result (λ why. (kind_named (map view_decl variables.now) name.now ≡ None) × (why ≡ fault.UnknownName at)) }
{
    match variables.get(number_of(variables, name)) {
        None => Err(TypeFault::UnknownName(at)),
        Some(variable) => Ok(variable.kind),
    }
}

/// Judges the declarations from the first one on: each name is new, and there are not too many.
pub(crate) fn check_variables(variables: &[Decl]) -> Result<(), TypeFault>
    ensures judged { Judges result (AreDeclared (map view_decl variables.now)) }
    ensures fault { IfErr result (λ why. IsDeclaredTwice variables.now why ⊎ IsOneTooMany variables.now why) }
{
    for (number, variable) in variables.iter().enumerate() {
        if number_of(&variables[..number], &variable.name) < number {
            return Err(TypeFault::DeclaredTwice(variable.at));
        }
        if number == VARIABLE_LIMIT {
            return Err(TypeFault::TooManyVariables(variable.at));
        }
    }
    Ok(())
}
