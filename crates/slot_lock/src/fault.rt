//! Why a call of a router has no answer.
//!
//! **The faults of `call` are those of the journal**, `CallFault`; `try_call` has one more. L2 has no test: no call leads to it.

ghost use Rattle.std.specs.Prelude.{◌≡◌};

use netchange_core::Event;
use std::fmt;
use thiserror::Error;

/// Why one try entered nothing.
#[derive(Drop, Error)]
pub enum TryFault {
    /// L1: another caller has the lock. The event comes back.
    #[error("another caller has the lock")]
    Busy(Event),
    /// J1: the journal has as many entries as its limit allows.
    #[error("the history is full")]
    Full,
    /// J2: the memory for the event or its entry was refused.
    #[error("out of memory")]
    Memory,
}

impl TryFault {
    ghost use Rattle.slot_lock.specs.Codes.{try_code};

    /// The fault's code, `L1`, `J1` or `J2`.
    pub fn code(&self) -> &'static str
        ensures { result.now ≡ try_code self.now }
    {
        match self {
            TryFault::Busy(_) => "L1",
            TryFault::Full => "J1",
            TryFault::Memory => "J2",
        }
    }

    /// The fault's place: always 0, since no fault of a call has one.
    pub fn at(&self) -> usize
        ensures { result ≡ 0 }
    {
        0
    }
}

/// The code alone: the event that comes back is the caller's to show.
impl fmt::Debug for TryFault {
    fn fmt<W: fmt::Write>(&self, f: &mut fmt::Formatter<W>) -> fmt::Result {
        f.write_str(self.code())
    }
}

/// Why a router was not opened or closed.
#[derive(Clone, Copy, Debug, PartialEq, Eq, Error)]
pub enum LockFault {
    /// L2: the lock is held.
    #[error("the lock is held")]
    Held,
    /// L3: the memory for the router was refused.
    #[error("out of memory")]
    Memory,
}

impl LockFault {
    ghost use Rattle.slot_lock.specs.Codes.{lock_code};

    /// The fault's code, `L2` or `L3`.
    pub fn code(self) -> &'static str
        ensures { result.now ≡ lock_code self }
    {
        match self {
            LockFault::Held => "L2",
            LockFault::Memory => "L3",
        }
    }

    /// The fault's place: always 0, since neither fault has one.
    pub fn at(self) -> usize
        ensures { result ≡ 0 }
    {
        0
    }
}
