ghost use Rattle.std.specs.Prelude.{◌≡◌, codes};
ghost use Rattle.int_sets.specs.Fault.{set_fault_code};

use thiserror::Error;

/// Why a set was not built.
#[derive(Clone, Copy, Debug, PartialEq, Eq, Error)]
pub enum SetFault {
    #[error("more than 1024 ranges in a set")]
    TooManyRanges,
    #[error("out of memory")]
    Memory,
}

impl SetFault {
    /// The fault's code: S1 for too many ranges, S2 if memory was refused.
    pub fn code(&self) -> &'static str
        ensures { result.now ≡ set_fault_code self.now }
    {
        match self {
            SetFault::TooManyRanges => "S1",
            SetFault::Memory => "S2",
        }
    }

    /// The place of the fault: 0, since a set has no places.
    pub fn at(&self) -> usize
        ensures { result ≡ 0 }
    {
        0
    }
}
