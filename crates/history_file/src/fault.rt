//! What is wrong with a line, and what ends the reading of a file.
ghost use Rattle.std.specs.Prelude.{◌≡◌};
ghost use Rattle.history_file.specs.declared.fault.HistoryLineFault.TheVariants as line;
ghost use Rattle.history_file.specs.declared.fault.HistoryFault.TheVariants as history;

use std::alloc::{AllocError, AllocFailed};
use thiserror::Error;

/// Why a line gives nothing.
#[derive(Clone, Copy, PartialEq, Eq)]
pub(crate) enum HistoryLineFault {
    /// It is not the line that a history has here.
    Form,
    /// Memory was refused, and nothing is known of the line.
    Memory,
}

impl From<AllocError> for HistoryLineFault {
    ghost from_gives = { λ _ e. e ≡ line.Memory };

    fn from(_error: AllocError) -> HistoryLineFault {
        HistoryLineFault::Memory
    }
}

impl<T: Drop> From<AllocFailed<T>> for HistoryLineFault {
    ghost from_gives = { λ _ e. e ≡ line.Memory };

    fn from(_error: AllocFailed<T>) -> HistoryLineFault {
        HistoryLineFault::Memory
    }
}

/// Why bytes tell no history.
#[derive(Clone, Copy, Debug, Error)]
pub enum HistoryFault {
    /// H1: the line of this number, counted from 1, is the first that is not as a history has it.
    #[error("line {0} is not as a history has it")]
    Line(u32),
    /// The first line is not whole.
    #[error("the first line is not whole")]
    Unopened,
    /// Memory was refused.
    #[error("out of memory")]
    Memory,
}

impl<T: Drop> From<AllocFailed<T>> for HistoryFault {
    ghost from_gives = { λ _ e. e ≡ history.Memory };

    fn from(_error: AllocFailed<T>) -> HistoryFault {
        HistoryFault::Memory
    }
}
