//! Why a journal takes no entry, and why a history does not replay.

ghost use Rattle.std.specs.Prelude.{◌≡◌};

use thiserror::Error;

/// Why an event was not entered. The journal is unchanged, and the event is dropped.
#[derive(Clone, Copy, Debug, PartialEq, Eq, Error)]
pub enum CallFault {
    /// J1: the journal has as many entries as its limit allows.
    #[error("the history is full")]
    Full,
    /// J2: the memory for the event or its entry was refused.
    #[error("out of memory")]
    Memory,
}

impl CallFault {
    ghost use Rattle.route_history.specs.Codes.{call_code};

    /// The fault's code, `J1` or `J2`.
    pub fn code(self) -> &'static str
        ensures { result.now ≡ call_code self }
    {
        match self {
            CallFault::Full => "J1",
            CallFault::Memory => "J2",
        }
    }

    /// The fault's place: always 0, since neither fault has one.
    pub fn at(self) -> usize
        ensures { result ≡ 0 }
    {
        0
    }
}

/// Why a history does not replay.
#[derive(Clone, Copy, Debug, Error)]
pub enum ReplayFault {
    /// The recorded reply of the entry at this index, counted from 0, differs from the replayed one. It is the first such entry.
    #[error("entry {0}: the recorded reply differs from the replayed one")]
    Differs(usize),
    /// The memory for the tables was refused.
    #[error("out of memory")]
    Memory,
}
