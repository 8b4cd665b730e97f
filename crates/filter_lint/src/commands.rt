//! W2: commands that no route reaches.
ghost use Rattle.std.specs.Prelude.{◌≡◌, IfOk};
ghost use Rattle.filter_lint.specs.Commands as spec;

use crate::finding::push_found;
use crate::site::is_if;
use crate::surveyed_filter::SurveyedFilter;
use crate::warning::{Warning, WarningCause};
use filter_code::Instr;
use filter_diff::Mark;
use std::alloc::{AllocError, Global};

/// Whether an instruction that comes from a byte of the text does what a command says: it ends the run or sets something, or jumps by
/// the condition of an `if`.
fn is_of_command(text: &[u8], instr: Instr, byte: usize) -> bool
    ensures { result ≡ spec.is_of_command text.now instr byte }
{
    match instr {
        Instr::Accept | Instr::Reject | Instr::Store(_) | Instr::SetMetric => true,
        Instr::JumpIfNot(_) => is_if(text, byte),
        _ => false,
    }
}

/// The byte of the command that the instruction of an index stands for. The last instruction stands for none: it is the REJECT at the end.
fn command_at(source: &SurveyedFilter, at: usize) -> Option<usize>
    ensures { result ≡ spec.command_at source.now at }
{
    if source.instrs().len().saturating_sub(at) <= 1 {
        return None;
    }
    let instr = source.instr(at)?;
    let byte = source.place(at)?;
    if is_of_command(source.text(), instr, byte) {
        Some(byte)
    } else {
        None
    }
}

/// Whether a route may come to the instruction of an index.
fn is_reached(marks: &[Mark], at: usize) -> bool
    ensures { result ≡ spec.is_reached marks.now at }
{
    match marks.get(at) {
        Some(mark) => mark.is_reached,
        None => true,
    }
}

/// What is said of the instruction of an index, where it is known whether the command before it is reached.
fn unreached_at(
    source: &SurveyedFilter,
    marks: &[Mark],
    at: usize,
    was_reached: bool,
) -> Option<Warning>
    ensures { result ≡ spec.unreached_at source.now marks.now at was_reached }
{
    let byte = command_at(source, at)?;
    if !was_reached || is_reached(marks, at) {
        return None;
    }
    Some(Warning {
        instruction: at,
        byte,
        cause: WarningCause::Unreached,
    })
}

/// Whether the last command up to an index is reached, where it is known of the one before.
fn reached_up_to(source: &SurveyedFilter, marks: &[Mark], at: usize, was_reached: bool) -> bool
    ensures { result ≡ spec.reached_up_to source.now marks.now at was_reached }
{
    match command_at(source, at) {
        Some(_) => is_reached(marks, at),
        None => was_reached,
    }
}

/// What is said of all commands, in the order of the code: of the first of some that are not reached one after another.
pub(crate) fn unreached_commands(
    alloc: Global,
    source: &SurveyedFilter,
    marks: &[Mark],
) -> Result<Vec<Warning>, AllocError>
    ensures { IfOk result (λ found. found.items ≡ spec.unreached_commands source.now marks.now) }
{
    let mut found = Vec::new(alloc);
    let mut was_reached = true;
    for at in 0..source.instrs().len() {
        push_found(&mut found, &unreached_at(source, marks, at, was_reached))?;
        was_reached = reached_up_to(source, marks, at, was_reached);
    }
    Ok(found)
}
