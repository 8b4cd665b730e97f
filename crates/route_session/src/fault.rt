//! Why sessions were not run.
//!
//! **X1 can come after all jobs have run**, where the list of results cannot grow. The passes are then gone, as after any X1.

ghost use Rattle.std.specs.Prelude.{◌≡◌};

use std::alloc::{AllocError, AllocFailed};
use thiserror::Error;

/// Why sessions were not run to their ends.
#[derive(Clone, Copy, Debug, PartialEq, Eq, Error)]
pub enum RunFault {
    /// X1: the memory for the jobs or for their results was refused.
    #[error("out of memory")]
    Memory,
    /// X2: a thread was not started.
    #[error("a thread was not started")]
    NotStarted,
}

impl RunFault {
    ghost use Rattle.route_session.specs.Codes.{run_code};

    /// The fault's code, `X1` or `X2`.
    pub fn code(self) -> &'static str
        ensures { result.now ≡ run_code self }
    {
        match self {
            RunFault::Memory => "X1",
            RunFault::NotStarted => "X2",
        }
    }

    /// The fault's place: always 0, since neither fault has one.
    pub fn at(self) -> usize
        ensures { result ≡ 0 }
    {
        0
    }
}

impl From<AllocError> for RunFault {
    ghost use Rattle.route_session.specs.declared.fault.RunFault.TheVariants.{Memory};

    ghost from_gives = { λ _ fault. fault ≡ Memory };

    fn from(_: AllocError) -> RunFault {
        RunFault::Memory
    }
}

impl<T: Drop> From<AllocFailed<T>> for RunFault {
    ghost use Rattle.route_session.specs.declared.fault.RunFault.TheVariants.{Memory};

    ghost from_gives = { λ _ fault. fault ≡ Memory };

    fn from(_: AllocFailed<T>) -> RunFault {
        RunFault::Memory
    }
}
