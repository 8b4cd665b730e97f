//! What ends a run of the program.
ghost use Rattle.std.specs.Prelude.{◌≡◌};

use line_protocol::StreamFault;
use std::alloc::{AllocError, AllocFailed};
use thiserror::Error;

/// What ended a run of the program before its input did.
#[derive(Clone, Copy, Debug, Error)]
pub enum ProgramFault {
    /// The stream of lines that is read and answered: E1 to E4.
    #[error(transparent)]
    Stream(StreamFault),
}

impl ProgramFault {
    ghost use Rattle.filter_reports.specs.Faults.{program_code};

    /// Want of memory.
    pub const MEMORY: ProgramFault = ProgramFault::Stream(StreamFault::Memory);

    /// The code by which the program names the fault.
    pub fn code(&self) -> &'static str
        ensures { result.now ≡ program_code self.now }
    {
        match self {
            ProgramFault::Stream(fault) => fault.code(),
        }
    }

    /// The place of the fault: 0, since none of these names one.
    pub fn at(&self) -> usize
        ensures { result ≡ 0 }
    {
        match self {
            ProgramFault::Stream(fault) => fault.at(),
        }
    }
}

impl From<StreamFault> for ProgramFault {
    ghost use Rattle.filter_reports.specs.declared.fault.ProgramFault.TheVariants.{Stream};

    ghost from_gives = { λ fault e. e ≡ Stream fault };

    fn from(fault: StreamFault) -> ProgramFault {
        ProgramFault::Stream(fault)
    }
}

impl From<AllocError> for ProgramFault {
    ghost use Rattle.filter_reports.specs.declared.fault.ProgramFault.TheVariants.{Stream};
    ghost use Rattle.line_protocol.specs.declared.faults.StreamFault.TheVariants.{Memory};

    ghost from_gives = { λ _ e. e ≡ Stream Memory };

    fn from(_error: AllocError) -> ProgramFault {
        ProgramFault::MEMORY
    }
}

impl<T: Drop> From<AllocFailed<T>> for ProgramFault {
    ghost use Rattle.filter_reports.specs.declared.fault.ProgramFault.TheVariants.{Stream};
    ghost use Rattle.line_protocol.specs.declared.faults.StreamFault.TheVariants.{Memory};

    ghost from_gives = { λ _ e. e ≡ Stream Memory };

    fn from(_error: AllocFailed<T>) -> ProgramFault {
        ProgramFault::MEMORY
    }
}
