//! What ends a network of routers.

ghost use Rattle.std.specs.Prelude.{◌≡◌};

use line_protocol::StreamFault;
use route_history::CallFault;
use route_session::RunFault;
use slot_lock::LockFault;
use std::alloc::{AllocError, AllocFailed};
use thiserror::Error;

/// Why a network was not run to its end.
#[derive(Clone, Copy, Debug, Error)]
pub enum NetworkFault {
    /// The output could not be written (E2), or memory was refused in a place that has no code of its own (E3).
    #[error(transparent)]
    Stream(StreamFault),
    /// A router's history was full (J1), or the memory for a call was refused (J2).
    #[error(transparent)]
    Call(CallFault),
    /// A router was not opened or closed (L2, L3).
    #[error(transparent)]
    Lock(LockFault),
    /// The sessions of a node were not run (X1), or a thread was not started (X2).
    #[error(transparent)]
    Run(RunFault),
}

impl NetworkFault {
    ghost use Rattle.ring_network.specs.Network.{network_code};

    /// Refused memory.
    pub const MEMORY: NetworkFault = NetworkFault::Stream(StreamFault::Memory);

    /// The fault's code: E2, E3, J1, J2, L2, L3, X1 or X2.
    pub fn code(&self) -> &'static str
        ensures { result.now ≡ network_code self.now }
    {
        match self {
            NetworkFault::Stream(fault) => fault.code(),
            NetworkFault::Call(fault) => fault.code(),
            NetworkFault::Lock(fault) => fault.code(),
            NetworkFault::Run(fault) => fault.code(),
        }
    }

    /// The fault's place: 0, since none of these names one.
    pub fn at(&self) -> usize
        ensures { result ≡ 0 }
    {
        0
    }
}

impl From<StreamFault> for NetworkFault {
    ghost use Rattle.ring_network.specs.declared.fault.NetworkFault.TheVariants.{Stream};

    ghost from_gives = { λ fault e. e ≡ Stream fault };

    fn from(fault: StreamFault) -> NetworkFault {
        NetworkFault::Stream(fault)
    }
}

impl From<CallFault> for NetworkFault {
    fn from(fault: CallFault) -> NetworkFault {
        NetworkFault::Call(fault)
    }
}

impl From<LockFault> for NetworkFault {
    fn from(fault: LockFault) -> NetworkFault {
        NetworkFault::Lock(fault)
    }
}

impl From<RunFault> for NetworkFault {
    fn from(fault: RunFault) -> NetworkFault {
        NetworkFault::Run(fault)
    }
}

impl From<AllocError> for NetworkFault {
    ghost use Rattle.line_protocol.specs.declared.faults.StreamFault.TheVariants as stream;
    ghost use Rattle.ring_network.specs.declared.fault.NetworkFault.TheVariants.{Stream};

    ghost from_gives = { λ _ fault. fault ≡ Stream stream.Memory };

    fn from(_: AllocError) -> NetworkFault {
        NetworkFault::MEMORY
    }
}

impl<T: Drop> From<AllocFailed<T>> for NetworkFault {
    ghost use Rattle.line_protocol.specs.declared.faults.StreamFault.TheVariants as stream;
    ghost use Rattle.ring_network.specs.declared.fault.NetworkFault.TheVariants.{Stream};

    ghost from_gives = { λ _ fault. fault ≡ Stream stream.Memory };

    fn from(_: AllocFailed<T>) -> NetworkFault {
        NetworkFault::MEMORY
    }
}
