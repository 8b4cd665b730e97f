//! W3: arithmetic that may wrap, by the ranges that the verifier knows.
ghost use Rattle.std.specs.Prelude.{◌≡◌, IfOk};
ghost use Rattle.filter_lint.specs.Arithmetic as spec;

use crate::finding::found_below;
use crate::surveyed_filter::SurveyedFilter;
use crate::warning::{Operation, ValueBounds, Warning, WarningCause};
use filter_code::Instr;
use std::alloc::{AllocError, Global};

/// The operation of an instruction, if its result may be one that no int has.
fn operation_of(instr: Instr) -> Option<Operation>
    ensures { result ≡ spec.operation_of instr }
{
    match instr {
        Instr::Add => Some(Operation::Sum),
        Instr::Sub => Some(Operation::Difference),
        Instr::Mul => Some(Operation::Product),
        _ => None,
    }
}

/// Whether an operation on ints within these bounds may wrap.
fn may_wrap(operation: Operation, left: ValueBounds, right: ValueBounds) -> bool
    ensures { result ≡ spec.may_wrap operation left right }
{
    match operation {
        Operation::Sum => left.high.checked_add(right.high).is_none(),
        Operation::Difference => left.low < right.high,
        Operation::Product => left.high.checked_mul(right.high).is_none(),
    }
}

/// What is said of an operation that comes from a byte of the text, where its instruction has this index.
fn wraps(
    at: usize,
    byte: usize,
    operation: Operation,
    left: ValueBounds,
    right: ValueBounds,
) -> Option<Warning>
    ensures { result ≡ spec.wraps at byte operation left right }
{
    if !may_wrap(operation, left, right) {
        return None;
    }
    Some(Warning {
        instruction: at,
        byte,
        cause: WarningCause::Wraps(operation, left, right),
    })
}

/// What is said of the instruction of an index. Of the instructions that come from one byte, as those of the argument of a `case` do,
/// it is said of the first.
fn wraps_at(source: &SurveyedFilter, at: usize) -> Option<Warning>
    ensures { result ≡ spec.wraps_at source.now at }
{
    let instr = source.instr(at)?;
    let byte = source.place(at)?;
    let operation = operation_of(instr)?;
    let (left, right) = source.top_two(at)?;
    if source.is_first(at, byte) {
        wraps(at, byte, operation, left, right)
    } else {
        None
    }
}

/// What is said of all operations, in the order of the code.
pub(crate) fn wrapping_operations(
    alloc: Global,
    source: &SurveyedFilter,
) -> Result<Vec<Warning>, AllocError>
    ensures { IfOk result (λ found. found.items ≡ spec.wrapping_operations source.now) }
{
    found_below(alloc, source.instrs().len(), |at| wraps_at(source, at))
}
