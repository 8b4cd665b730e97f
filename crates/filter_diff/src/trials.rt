//! Runs on all routes of a class at once.

ghost use Rattle.std.specs.Prelude.{◌≡◌, ◌+◌, ◌<◌, ◌≤◌};
ghost use Rattle.filter_code.specs.Limits.{instruction_limit};
ghost use Rattle.filter_diff.specs.Turns.{EndSo, IsGiven, IsGivenIfKnown, Takes};

use crate::class::Class;
use crate::computing::compute;
use crate::ending::RunEnding;
use crate::slots::Slots;
use crate::symbol::SymbolicValue;
use crate::turn::Turn;
use filter_code::{Code, Instr, Outcome, Stack};

/// Puts a value on the stack, if there is room.
fn give(value: SymbolicValue, stack: &mut Stack<SymbolicValue>) -> Turn
    ensures { IsGiven value stack.old stack.new result }
{
    match stack.push(value) {
        Ok(()) => Turn::On,
        Err(_) => Turn::AsksBits,
    }
}

/// Puts the metric on the stack, if it is known and there is room.
fn give_metric(metric: Option<u32>, stack: &mut Stack<SymbolicValue>) -> Turn
    ensures { IsGivenIfKnown metric stack.old stack.new result }
{
    match metric {
        Some(metric) => give(SymbolicValue::Int(metric), stack),
        None => Turn::AsksMetric,
    }
}

/// Carries out an instruction on all routes of a class. A jump adds to the place what it skips; the next instruction is then one
/// further.
pub(crate) fn carry_out(
    instr: &Instr,
    code: &Code,
    class: &Class,
    stack: &mut Stack<SymbolicValue>,
    locals: &mut Slots,
    metric: &mut Option<u32>,
    pc: &mut usize,
) -> Turn
    requires inside { pc.old < instruction_limit }
    ensures step { Takes code.now class.now instr.now
        (record { pc = pc.old; stack = stack.old; locals = locals.old; metric = metric.old })
        (record { pc = pc.new; stack = stack.new; locals = locals.new; metric = metric.new }) result }
    ensures on { (pc.old ≤ pc.new) × (pc.new ≤ 131072) }
{
    match instr {
        Instr::Load(local) => match locals.get(*local) {
            Some(value) => give(value, stack),
            None => Turn::AsksBits,
        },
        Instr::Store(local) => {
            if usize::from(*local) >= locals.count() {
                return Turn::AsksBits;
            }
            let Ok(value) = stack.take_one() else {
                return Turn::AsksBits;
            };
            locals.set(*local, value);
            Turn::On
        }
        Instr::Metric => give_metric(*metric, stack),
        Instr::Received => give_metric(class.metric, stack),
        Instr::SetMetric => {
            let Some(received) = class.metric else {
                return Turn::AsksMetric;
            };
            let Ok(SymbolicValue::Int(value)) = stack.take_one() else {
                return Turn::AsksBits;
            };
            if value < received {
                return Turn::AsksBits;
            }
            *metric = Some(value.min(class.size));
            Turn::On
        }
        Instr::Jump(skipped) => {
            *pc += usize::from(*skipped);
            Turn::On
        }
        Instr::JumpIfNot(skipped) => {
            let Ok(SymbolicValue::Bool(truth)) = stack.take_one() else {
                return Turn::AsksBits;
            };
            if !truth {
                *pc += usize::from(*skipped);
            }
            Turn::On
        }
        Instr::Accept => match *metric {
            Some(metric) => Turn::Ended(RunEnding::Fixed(Outcome::Accept(metric))),
            None => Turn::Ended(RunEnding::Unchanged),
        },
        Instr::Reject => Turn::Ended(RunEnding::Fixed(Outcome::Reject)),
        _ => {
            if compute(instr, class, code, stack) {
                Turn::On
            } else {
                Turn::AsksBits
            }
        }
    }
}

/// How the runs on all routes of a class end, if they end alike and that can be said; otherwise what has to be known first.
pub(crate) fn trial(code: &Code, class: &Class) -> Turn
    ensures { EndSo code.now class.now result }
{
    let instrs = code.instrs();
    let mut stack = Stack::new();
    let mut locals = Slots::new(code.locals());
    let mut metric = class.metric;
    let mut pc = 0;
    while let Some(instr) = instrs.get(pc) {
        match carry_out(
            instr,
            code,
            class,
            &mut stack,
            &mut locals,
            &mut metric,
            &mut pc,
        ) {
            Turn::On => pc += 1,
            turn => return turn,
        }
    }
    Turn::AsksBits
}
