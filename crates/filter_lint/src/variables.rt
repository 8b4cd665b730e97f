//! W6: variables that are never read.
ghost use Rattle.std.specs.Prelude.{◌≡◌, IfOk};
ghost use Rattle.std.specs.List.{list_any};
ghost use Rattle.filter_lint.specs.Variables as spec;

use crate::finding::found_below;
use crate::surveyed_filter::SurveyedFilter;
use crate::warning::{Warning, WarningCause};
use filter_code::Instr;
use std::alloc::{AllocError, Global};

/// Whether an instruction reads the variable of a number.
fn is_load_of(number: u8, instr: &Instr) -> bool
    ensures { result ≡ spec.is_load_of number instr.now }
{
    match instr {
        Instr::Load(read) => *read == number,
        _ => false,
    }
}

/// Whether some instruction reads the variable of a number.
fn is_read(instrs: &[Instr], number: u8) -> bool
    ensures { result ≡ list_any (spec.is_load_of number) instrs.now }
{
    instrs.iter().any(|instr| is_load_of(number, instr))
}

/// The number of the variable that an instruction declares: the second instruction of each declaration sets it.
fn declared_by(instr: Instr, at: usize) -> Option<u8>
    ensures { result ≡ spec.declared_by instr at }
{
    match instr {
        Instr::Store(number) if at == 2 * usize::from(number) + 1 => Some(number),
        _ => None,
    }
}

/// What is said of the instruction of an index.
fn unread_at(source: &SurveyedFilter, at: usize) -> Option<Warning>
    ensures { result ≡ spec.unread_at source.now at }
{
    let instr = source.instr(at)?;
    let byte = source.place(at)?;
    let number = declared_by(instr, at)?;
    if is_read(source.instrs(), number) {
        return None;
    }
    Some(Warning {
        instruction: at,
        byte,
        cause: WarningCause::Unread,
    })
}

/// What is said of all variables, in the order of their declarations.
pub(crate) fn unread_variables(
    alloc: Global,
    source: &SurveyedFilter,
) -> Result<Vec<Warning>, AllocError>
    ensures { IfOk result (λ found. found.items ≡ spec.unread_variables source.now) }
{
    found_below(alloc, source.instrs().len(), |at| unread_at(source, at))
}
