//! Why a filter has no code.

ghost use Rattle.std.specs.Prelude.{◌≡◌};
ghost use Rattle.filter_compiler.specs.Codes.{fault_code};
ghost use Rattle.filter_compiler.specs.declared.fault.CompileFault.TheVariants.{Memory};

use std::alloc::{AllocError, AllocFailed};
use thiserror::Error;

/// Why a filter has no code. Where several hold, it is the first of them.
#[derive(Clone, Copy, Debug, PartialEq, Eq, Error)]
pub enum CompileFault {
    /// G1: its code would have more than 1,024 instructions.
    #[error("the compiled filter exceeds 1024 instructions")]
    TooManyInstructions,
    /// G2: it has more than 64 sets of patterns, or a set of more than 1,024 patterns; or more than 64 sets of ints, or one of more
    /// than 1,024 ranges.
    #[error("more than 64 sets of patterns or of ints, or more than 1024 patterns or ranges in one")]
    TooManySets,
    /// G3: memory was refused.
    #[error("out of memory")]
    Memory,
}

impl CompileFault {
    /// The fault's code, `G1` to `G3`.
    pub fn code(self) -> &'static str
        ensures { result.now ≡ fault_code self }
    {
        match self {
            CompileFault::TooManyInstructions => "G1",
            CompileFault::TooManySets => "G2",
            CompileFault::Memory => "G3",
        }
    }

    /// The fault's place. It is the whole filter's, and has none: 0.
    pub fn at(self) -> usize
        ensures { result ≡ 0 }
    {
        0
    }
}

impl From<AllocError> for CompileFault {
    ghost from_gives = { λ _ e. e ≡ Memory };

    fn from(_e: AllocError) -> CompileFault {
        CompileFault::Memory
    }
}

impl<T: Drop> From<AllocFailed<T>> for CompileFault {
    ghost from_gives = { λ _ e. e ≡ Memory };

    fn from(_e: AllocFailed<T>) -> CompileFault {
        CompileFault::Memory
    }
}
