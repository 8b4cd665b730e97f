//! What ends a script whose history is saved.
//!
//! **A saver that fails is E2**, as an output that does, and the line whose entry it was gets no answer: what is answered is saved. It is a fault
//! of its own (`SavingFault::Saver`), so that the file is named where it is the file that failed. Answers end by it as by refused memory, each of
//! them whole. Where the answers cannot be written either, that is what is told.
ghost use Rattle.std.specs.Prelude.{◌≡◌};

use line_protocol::StreamFault;
use thiserror::Error;

/// What ended a script whose history is saved before its input did.
#[derive(Clone, Copy, Debug, PartialEq, Eq, Error)]
pub enum SavingFault {
    /// The streams that the lines are read from and answered to: E1 to E4.
    #[error(transparent)]
    Stream(StreamFault),
    /// E2: the saver did not take what was written to it. A part of a line may be saved.
    #[error("the history could not be written")]
    Saver,
}

impl SavingFault {
    ghost use Rattle.router_script.specs.Faults.{saving_code};

    /// The fault's code, `E1` to `E4`.
    pub fn code(self) -> &'static str
        ensures { result.now ≡ saving_code self }
    {
        match self {
            SavingFault::Stream(fault) => fault.code(),
            SavingFault::Saver => "E2",
        }
    }

    /// The fault's place: always 0.
    pub fn at(self) -> usize
        ensures { result ≡ 0 }
    {
        0
    }
}
