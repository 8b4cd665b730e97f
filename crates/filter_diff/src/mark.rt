//! What a search finds of instructions.
ghost use Rattle.std.specs.Prelude.{◌≡◌, IfSome, IsTrue, MatchOption, Some, slice_get};
ghost use Rattle.filter_code.specs.Machine.{Config};
ghost use Rattle.filter_code.specs.declared.value.Value.TheVariants as value;
ghost use Rattle.filter_diff.specs.Marking.{AreInts, AreNoInts, AreTop, IsFull, IsNoBool, IsTop, IsUnseen, Shows, ShowsAt};
ghost use Rattle.filter_diff.specs.Marking.{joined, shown_raise, shown_truth, unmarked};

use crate::symbol::SymbolicValue;
use filter_code::{Instr, Stack, Value};

/// What was found of an instruction.
#[derive(Clone, Copy, PartialEq, Eq)]
pub struct Mark {
    /// The run on some route comes to it.
    pub is_reached: bool,
    /// It is a JUMPIFNOT, and the run on some route comes to it with a condition that is true.
    pub is_true: bool,
    /// The same with one that is false.
    pub is_false: bool,
    /// It is a MAX, and the run on some route comes to it with two ints of which the upper one is greater.
    pub is_raised: bool,
    /// This is asked of it. Where it is not, the search may end before it finds such a route.
    pub is_watched: bool,
}

/// What was found of the instructions of a code.
#[derive(Drop)]
pub struct Reach {
    /// A mark for each instruction.
    pub marks: Vec<Mark>,
    /// Whether there is no more to find: what is not marked then is so on no route.
    pub is_complete: bool,
}

impl Mark {
    /// Nothing was found.
    pub(crate) fn nothing(is_watched: bool) -> Mark
        ensures { result ≡ unmarked is_watched }
    {
        Mark {
            is_reached: false,
            is_true: false,
            is_false: false,
            is_raised: false,
            is_watched,
        }
    }

    /// What was found here or there.
    pub(crate) fn or(self, other: Mark) -> Mark
        ensures { result ≡ joined self other }
    {
        Mark {
            is_reached: self.is_reached || other.is_reached,
            is_true: self.is_true || other.is_true,
            is_false: self.is_false || other.is_false,
            is_raised: self.is_raised || other.is_raised,
            is_watched: self.is_watched,
        }
    }

    /// Whether there is no more to find of this instruction.
    pub(crate) fn is_full(&self, instr: &Instr) -> bool
        ensures { IsTrue result → IsFull instr.now self.now }
    {
        match instr {
            Instr::JumpIfNot(_) => self.is_reached && self.is_true && self.is_false,
            Instr::Max => self.is_reached && (self.is_raised || !self.is_watched),
            _ => self.is_reached,
        }
    }
}

/// The bool on top, if there is one. The stack stays as it is.
fn truth_on(stack: &mut Stack<SymbolicValue>) -> Option<bool>
    ensures { IfSome result (λ truth. (stack.new ≡ stack.old) × IsTop truth stack.old) }
{
    let Ok(SymbolicValue::Bool(truth)) = stack.take_one() else {
        return None;
    };
    match stack.push(SymbolicValue::Bool(truth)) {
        Ok(()) => Some(truth),
        Err(_) => None,
    }
}

/// Whether the upper one of the two ints on top is greater, if there are two. The stack stays as it is.
fn raise_on(stack: &mut Stack<SymbolicValue>) -> Option<bool>
    ensures { IfSome result (λ raised. (stack.new ≡ stack.old) × AreTop raised stack.old) }
{
    let Ok((SymbolicValue::Int(lower), SymbolicValue::Int(upper))) = stack.take_two() else {
        return None;
    };
    let Ok(()) = stack.push(SymbolicValue::Int(lower)) else {
        return None;
    };
    match stack.push(SymbolicValue::Int(upper)) {
        Ok(()) => Some(lower < upper),
        Err(_) => None,
    }
}

/// What runs show of a JUMPIFNOT to which they come with this condition.
fn of_condition(truth: bool) -> Mark
    ensures { result ≡ shown_truth truth }
{
    Mark {
        is_reached: true,
        is_true: truth,
        is_false: !truth,
        is_raised: false,
        is_watched: false,
    }
}

/// What runs show of an instruction that is no JUMPIFNOT, and whether it is a MAX that raises what is below.
fn of_other(is_raised: bool) -> Mark
    ensures { result ≡ shown_raise is_raised }
{
    Mark {
        is_reached: true,
        is_true: false,
        is_false: false,
        is_raised,
        is_watched: false,
    }
}

/// What runs show of the instruction that they come to with a stack. None if it is a JUMPIFNOT whose condition is not known, or a MAX of
/// which the ints are not. The stack stays as it is.
pub(crate) fn mark_of(instr: &Instr, stack: &mut Stack<SymbolicValue>) -> Option<Mark>
    ensures { IfSome result (λ mark. (stack.new ≡ stack.old) × Shows instr.now stack.old mark) }
{
    match instr {
        Instr::JumpIfNot(_) => match truth_on(stack) {
            Some(truth) => Some(of_condition(truth)),
            None => None,
        },
        Instr::Max => match raise_on(stack) {
            Some(is_raised) => Some(of_other(is_raised)),
            None => None,
        },
        _ => Some(of_other(false)),
    }
}

/// The bool that a value is, if it is one.
fn truth_in(top: Option<Value>) -> Option<bool>
    ensures { MatchOption result (IsNoBool top) (λ truth. top ≡ Some (value.Bool truth)) }
{
    match top {
        Some(Value::Bool(truth)) => Some(truth),
        _ => None,
    }
}

/// Whether the upper one of two ints is greater, if they are ints.
fn raise_in(top: Option<Value>, below: Option<Value>) -> Option<bool>
    ensures { MatchOption result (AreNoInts top below) (AreInts top below) }
{
    match top {
        Some(Value::Int(upper)) => match below {
            Some(Value::Int(lower)) => Some(lower < upper),
            _ => None,
        },
        _ => None,
    }
}

/// What a run shows of the instruction that it comes to with these values on top of the stack and below it. None if it is a JUMPIFNOT
/// without a bool, or a MAX without two ints.
pub(crate) fn mark_seen(instr: &Instr, top: Option<Value>, below: Option<Value>) -> Option<Mark>
    ensures { MatchOption result (IsUnseen instr.now top below) (λ mark. (c : Config) → slice_get c.frame.stack 0 ≡ top
        → slice_get c.frame.stack 1 ≡ below → ShowsAt instr.now c mark) }
{
    match instr {
        Instr::JumpIfNot(_) => match truth_in(top) {
            Some(is_true) => Some(of_condition(is_true)),
            None => None,
        },
        Instr::Max => match raise_in(top, below) {
            Some(is_greater) => Some(of_other(is_greater)),
            None => None,
        },
        _other => Some(of_other(false)),
    }
}
