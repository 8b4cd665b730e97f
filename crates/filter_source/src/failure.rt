//! What ends the work on a source.
ghost use Rattle.std.specs.Prelude.{◌≡◌};
ghost use Rattle.filter_syntax.specs.Surroundings.{nothing};
ghost use Rattle.filter_source.specs.Diagnoses.{of_source};
ghost use Rattle.filter_source.specs.Failures as spec;
ghost use Rattle.filter_source.specs.declared.failure.Failure.TheVariants as failure;

use crate::diagnosis::Diagnosis;
use crate::refusal::Refusal;
use code_file::FileFault;
use filter_compiler::CompileFault;
use filter_parser::{Around, ParseFault, Unparsed};
use filter_types::{TypeFault, Untyped};
use hex::FromHexError;
use std::alloc::AllocError;
use thiserror::Error;

/// Why a source gave nothing: it is refused, or memory was. `?` makes it of the fault of each step.
#[derive(Clone, Copy, Debug, Error)]
pub enum Failure {
    /// The source is refused.
    #[error("{0}")]
    Refused(Diagnosis),
    /// Memory was refused, and nothing is known of the source.
    #[error("out of memory")]
    Memory,
}

impl From<AllocError> for Failure {
    ghost from_gives = { λ _ e. e ≡ failure.Memory };

    fn from(_error: AllocError) -> Failure {
        Failure::Memory
    }
}

impl From<Refusal> for Failure {
    ghost from_gives = { λ why e. e ≡ failure.Refused (of_source why nothing) };

    /// That of a source which gives no code, and which has no text round the place.
    fn from(why: Refusal) -> Failure {
        Failure::Refused(Diagnosis::of_source(why, Around::nothing()))
    }
}

impl From<FromHexError> for Failure {
    ghost from_gives = { λ fault e. e ≡ spec.of_digits fault };

    fn from(fault: FromHexError) -> Failure {
        match fault {
            FromHexError::OutOfMemory => Failure::Memory,
            _ => Failure::from(Refusal::Hexadecimal),
        }
    }
}

impl From<FileFault> for Failure {
    ghost from_gives = { λ fault e. e ≡ spec.of_file fault };

    fn from(fault: FileFault) -> Failure {
        match fault {
            FileFault::Memory => Failure::Memory,
            _ => Failure::from(Refusal::File(fault)),
        }
    }
}

impl From<Unparsed> for Failure {
    ghost from_gives = { λ why e. e ≡ spec.of_unparsed why };

    fn from(why: Unparsed) -> Failure {
        match why.fault {
            ParseFault::Memory => Failure::Memory,
            fault => Failure::Refused(Diagnosis::of_source(Refusal::Parse(fault), why.around)),
        }
    }
}

impl From<Untyped> for Failure {
    ghost from_gives = { λ why e. e ≡ spec.of_untyped why };

    fn from(why: Untyped) -> Failure {
        match why.fault {
            TypeFault::Memory => Failure::Memory,
            fault => Failure::Refused(Diagnosis::of_source(Refusal::Typing(fault), why.around)),
        }
    }
}

impl From<CompileFault> for Failure {
    ghost from_gives = { λ fault e. e ≡ spec.of_compile fault };

    fn from(fault: CompileFault) -> Failure {
        match fault {
            CompileFault::Memory => Failure::Memory,
            _ => Failure::from(Refusal::Compile(fault)),
        }
    }
}
