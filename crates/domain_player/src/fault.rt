//! Why routers could not be linked, or played until quiet.

use std::alloc::{AllocError, AllocFailed};
use thiserror::Error;

/// Why two nodes were not linked.
#[derive(Clone, Copy, Debug, PartialEq, Eq, Error)]
pub enum LinkingFault {
    /// Memory was refused.
    #[error("out of memory")]
    Memory,
    /// One of the two has used its last session number.
    #[error("no session number is left")]
    NoSession,
}

impl From<AllocError> for LinkingFault {
    ghost use Rattle.std.specs.Prelude.{◌≡◌};
    ghost use Rattle.domain_player.specs.declared.fault.LinkingFault.TheVariants.{Memory};

    ghost from_gives = { λ _ e. e ≡ Memory };

    fn from(_: AllocError) -> LinkingFault {
        LinkingFault::Memory
    }
}

/// Why the routers were not played until quiet.
#[derive(Clone, Copy, Debug, PartialEq, Eq, Error)]
pub enum SettleFault {
    /// Memory was refused.
    #[error("out of memory")]
    Memory,
    /// More than 18,446,744,073,709,551,615 messages were heard.
    #[error("more than 18,446,744,073,709,551,615 messages were heard")]
    TooManyMessages,
}

impl From<AllocError> for SettleFault {
    ghost use Rattle.std.specs.Prelude.{◌≡◌};
    ghost use Rattle.domain_player.specs.declared.fault.SettleFault.TheVariants.{Memory};

    ghost from_gives = { λ _ e. e ≡ Memory };

    fn from(_: AllocError) -> SettleFault {
        SettleFault::Memory
    }
}
