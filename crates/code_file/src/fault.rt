//! Why bytes are not a code file.
//!
//! **A fault of a code file carries its place in its variant**, so that `code` and `at` cannot disagree with it, and the text for a person names
//! the place.

ghost use Rattle.std.specs.Prelude.{◌≡◌};
ghost use Rattle.code_file.specs.declared.fault.FileFault.TheVariants.{Memory};

use std::alloc::{AllocError, AllocFailed};
use thiserror::Error;

/// The first fault of a file.
///
/// A place is the offset of a byte in the file.
#[derive(Clone, Copy, Debug, PartialEq, Eq, Error)]
pub enum FileFault {
    /// C1: the byte at this place is not that of the mark `NCF1` or `NCF2`.
    #[error("byte {0} does not match the mark NCF1 or NCF2, which begins a code file")]
    OtherMark(usize),
    /// C2: the file ends at this place, inside a field.
    #[error("the file ends at byte {0}, inside a field")]
    EndsEarly(usize),
    /// C3: the byte at this place is no known opcode.
    #[error("byte {0} is no known opcode")]
    UnknownOpcode(usize),
    /// C4: the operand, pattern or range that begins at this place is out of range.
    #[error("the operand, pattern or range at byte {0} is out of range")]
    BadOperand(usize),
    /// C5: the number that begins at this place is over its limit.
    #[error("the number at byte {0} is over its limit")]
    OverLimit(usize),
    /// C6: the code ends before this place, and more bytes follow.
    #[error("the code ends before byte {0}, and more bytes follow")]
    BytesAfterEnd(usize),
    /// C7: memory was refused.
    #[error("out of memory")]
    Memory,
    /// C8: the code has a set of ints or an INSET, which a file with the mark `NCF1` cannot say.
    #[error("the code has sets of ints, which a file with the mark NCF1 does not have")]
    OldForm,
}

impl FileFault {
    ghost use Rattle.code_file.specs.Codes.{fault_code, fault_place};

    /// The code and the place, of which `code` and `at` are the halves.
    fn code_and_place(self) -> (&'static str, usize)
        ensures code { result.0.now ≡ fault_code self }
        ensures place { result.1 ≡ fault_place self }
    {
        match self {
            FileFault::OtherMark(at) => ("C1", at),
            FileFault::EndsEarly(at) => ("C2", at),
            FileFault::UnknownOpcode(at) => ("C3", at),
            FileFault::BadOperand(at) => ("C4", at),
            FileFault::OverLimit(at) => ("C5", at),
            FileFault::BytesAfterEnd(at) => ("C6", at),
            FileFault::Memory => ("C7", 0),
            FileFault::OldForm => ("C8", 0),
        }
    }

    /// The fault's code, `C1` to `C8`.
    pub fn code(self) -> &'static str
        ensures { result.now ≡ fault_code self }
    {
        self.code_and_place().0
    }

    /// The fault's place; 0 if memory was refused or the code is not for an older file.
    pub fn at(self) -> usize
        ensures { result ≡ fault_place self }
    {
        self.code_and_place().1
    }
}

impl From<AllocError> for FileFault {
    ghost from_gives = { λ _ e. e ≡ Memory };

    fn from(_e: AllocError) -> FileFault {
        FileFault::Memory
    }
}

impl<T: Drop> From<AllocFailed<T>> for FileFault {
    ghost from_gives = { λ _ e. e ≡ Memory };

    fn from(_e: AllocFailed<T>) -> FileFault {
        FileFault::Memory
    }
}
