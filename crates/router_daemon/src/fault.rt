//! Why a router is not run.
ghost use Rattle.std.specs.Prelude.{◌≡◌};

use history_saver::SaveFault;
use line_protocol::StreamFault;
use route_history::CallFault;
use slot_lock::LockFault;
use std::alloc::{AllocError, AllocFailed};
use thiserror::Error;

/// Why a router was not run to its end, or not all that it did is saved.
#[derive(Clone, Copy, Debug, Error)]
pub enum DaemonFault {
    /// E1 to E4: the operator's lines could not be read or answered.
    #[error("{0}")]
    Stream(StreamFault),
    /// J1 or J2: a filter was not set.
    #[error("{0}")]
    Call(CallFault),
    /// L3: the router was not opened.
    #[error("{0}")]
    Lock(LockFault),
    /// E2 or E3: the first segment of the history was not made.
    #[error("{0}")]
    NotBegun(SaveFault),
    /// E2 or E3: the history is not saved whole.
    #[error("{0}")]
    Save(SaveFault),
    /// X2: the thread that saves and forgets the history was not started.
    #[error("a thread was not started")]
    NotStarted,
    /// E3: memory was refused.
    #[error("out of memory")]
    Memory,
}

impl DaemonFault {
    ghost use Rattle.router_daemon.specs.Codes.{fault_code};

    /// The fault's code.
    pub fn code(&self) -> &'static str
        ensures { result.now ≡ fault_code self.now }
    {
        match self {
            DaemonFault::Stream(fault) => fault.code(),
            DaemonFault::Call(fault) => fault.code(),
            DaemonFault::Lock(fault) => fault.code(),
            DaemonFault::NotBegun(fault) => fault.code(),
            DaemonFault::Save(fault) => fault.code(),
            DaemonFault::NotStarted => "X2",
            DaemonFault::Memory => "E3",
        }
    }

    /// The fault's place: always 0.
    pub fn at(&self) -> usize
        ensures { result ≡ 0 }
    {
        0
    }
}

impl From<AllocError> for DaemonFault {
    ghost use Rattle.std.specs.Prelude.{◌≡◌};
    ghost use Rattle.router_daemon.specs.declared.fault.DaemonFault.TheVariants.{Memory};

    ghost from_gives = { λ _ fault. fault ≡ Memory };

    fn from(_: AllocError) -> DaemonFault {
        DaemonFault::Memory
    }
}

impl<T: Drop> From<AllocFailed<T>> for DaemonFault {
    ghost use Rattle.std.specs.Prelude.{◌≡◌};
    ghost use Rattle.router_daemon.specs.declared.fault.DaemonFault.TheVariants.{Memory};

    ghost from_gives = { λ _ fault. fault ≡ Memory };

    fn from(_: AllocFailed<T>) -> DaemonFault {
        DaemonFault::Memory
    }
}
