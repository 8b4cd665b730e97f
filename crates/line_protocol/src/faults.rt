//! What ends a stream of lines before its end.
ghost use Rattle.std.specs.Prelude.{◌≡◌};

use thiserror::Error;

/// Why a stream of lines was not answered to its end.
#[derive(Clone, Copy, Debug, PartialEq, Eq, Error)]
pub enum StreamFault {
    /// The reader failed.
    #[error("the input could not be read")]
    Read,
    /// The writer failed, or took no more bytes.
    #[error("the output could not be written")]
    Write,
    /// Memory was refused.
    #[error("out of memory")]
    Memory,
    /// The input has more bytes than its limit.
    #[error("the input is too long")]
    TooLong,
}

impl StreamFault {
    ghost use Rattle.line_protocol.specs.Faults.{fault_code};

    /// The fault's code, `E1` to `E4`.
    pub fn code(&self) -> &'static str
        ensures { result.now ≡ fault_code self.now }
    {
        match self {
            StreamFault::Read => "E1",
            StreamFault::Write => "E2",
            StreamFault::Memory => "E3",
            StreamFault::TooLong => "E4",
        }
    }

    /// The place of the fault: 0, since a stream has no places.
    pub fn at(&self) -> usize
        ensures { result ≡ 0 }
    {
        0
    }
}
