//! Why a history is not saved whole.
ghost use Rattle.std.specs.Prelude.{◌≡◌};

use thiserror::Error;

/// Why a history is not saved whole.
#[derive(Clone, Copy, Debug, PartialEq, Eq, Error)]
pub enum SaveFault {
    /// E2: a write failed. A part of a line may be written.
    #[error("the history could not be written")]
    Write,
    /// E3: memory was refused. What was to be written is not.
    #[error("out of memory")]
    Memory,
}

impl SaveFault {
    ghost use Rattle.history_saver.specs.Codes.{save_code};

    /// The fault's code, `E2` or `E3`.
    pub fn code(self) -> &'static str
        ensures { result.now ≡ save_code self }
    {
        match self {
            SaveFault::Write => "E2",
            SaveFault::Memory => "E3",
        }
    }

    /// The fault's place: always 0.
    pub fn at(self) -> usize
        ensures { result ≡ 0 }
    {
        0
    }
}
