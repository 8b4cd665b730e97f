//! Why code is refused.

ghost use Rattle.std.specs.Prelude.{◌≡◌, None};
ghost use Rattle.filter_verifier.specs.declared.fault.VerifyFault.TheVariants.{Memory};

use crate::range::Range;
use filter_code::{LARGEST_SIZE, SMALLEST_SIZE};
use std::alloc::{AllocError, AllocFailed};
use thiserror::Error;

/// Why code was refused: the first test that failed.
///
/// A place is the index of an instruction.
#[derive(Clone, Copy, Debug, PartialEq, Eq, Error)]
pub enum VerifyFault {
    /// V1: the instruction needs more operands than the stack holds.
    #[error("instruction {0}: too few operands on the stack")]
    MissingOperand(usize),
    /// V2: an operand has the wrong kind for the instruction, paths with different kinds at a stack place meet here, or
    /// LOAD reads a local variable that may be empty.
    #[error("instruction {0}: an operand has an unknown or wrong kind")]
    WrongKind(usize),
    /// V3: the divisor may be 0.
    #[error("instruction {0}: the divisor may be 0")]
    ZeroDivisor(usize),
    /// V4: a successor of the instruction is outside the code.
    #[error("instruction {0}: execution may continue outside the code")]
    OutsideCode(usize),
    /// V5: the stack would hold more than 32 values.
    #[error("instruction {0}: the stack may overflow")]
    FullStack(usize),
    /// V6: the new metric may be lower than the one received.
    #[error("instruction {0}: the new metric may be lower than the one received")]
    LowerMetric(usize),
    /// V7: the code has no such local variable or set.
    #[error("instruction {0}: no such local variable or set")]
    UnknownName(usize),
    /// V8: the size is not 2 to 250.
    #[error("the size of a domain must be {least} to {most}", least = SMALLEST_SIZE, most = LARGEST_SIZE)]
    BadSize,
    /// V9: paths meet here whose stacks differ in depth.
    #[error("instruction {0}: the stack depth differs between the paths that lead here")]
    UnlikeDepths(usize),
    /// V10: out of memory.
    #[error("out of memory")]
    Memory,
}

impl VerifyFault {
    ghost use Rattle.filter_verifier.specs.Faults.{fault_code, fault_place};

    /// The code and the place, of which `code` and `at` are the halves.
    fn code_and_place(self) -> (&'static str, usize)
        ensures code { result.0.now ≡ fault_code self }
        ensures place { result.1 ≡ fault_place self }
    {
        match self {
            VerifyFault::MissingOperand(at) => ("V1", at),
            VerifyFault::WrongKind(at) => ("V2", at),
            VerifyFault::ZeroDivisor(at) => ("V3", at),
            VerifyFault::OutsideCode(at) => ("V4", at),
            VerifyFault::FullStack(at) => ("V5", at),
            VerifyFault::LowerMetric(at) => ("V6", at),
            VerifyFault::UnknownName(at) => ("V7", at),
            VerifyFault::BadSize => ("V8", 0),
            VerifyFault::UnlikeDepths(at) => ("V9", at),
            VerifyFault::Memory => ("V10", 0),
        }
    }

    /// The fault's code, `V1` to `V10`.
    pub fn code(self) -> &'static str
        ensures { result.now ≡ fault_code self }
    {
        self.code_and_place().0
    }

    /// The fault's place; 0 for a bad size and for a lack of memory, which have none.
    pub fn at(self) -> usize
        ensures { result ≡ fault_place self }
    {
        self.code_and_place().1
    }
}

impl From<AllocError> for VerifyFault {
    ghost from_gives = { λ _ e. e ≡ Memory };

    fn from(_e: AllocError) -> VerifyFault {
        VerifyFault::Memory
    }
}

impl<T: Drop> From<AllocFailed<T>> for VerifyFault {
    ghost from_gives = { λ _ e. e ≡ Memory };

    fn from(_e: AllocFailed<T>) -> VerifyFault {
        VerifyFault::Memory
    }
}

/// Why code was refused, and the range of the int that is refused, if it is one: of a divisor that may be 0 (V3), or of a metric that
/// may be too low (V6).
#[derive(Clone, Copy)]
pub struct Unverified {
    /// The first test that failed.
    pub fault: VerifyFault,
    /// The range that is known of the int.
    pub range: Option<Range>,
}

impl From<AllocError> for Unverified {
    ghost from_gives = { λ _ e. e ≡ record { fault = Memory; range = None } };

    fn from(_e: AllocError) -> Unverified {
        Unverified {
            fault: VerifyFault::Memory,
            range: None,
        }
    }
}
