//! The successors of an instruction.

ghost use Rattle.std.specs.Prelude.{◌≡◌, ◌<◌, ◌≤◌, All};
ghost use Rattle.filter_code.specs.Table.{leads};
ghost use Rattle.filter_verifier.specs.Sweep.{offsets};
ghost use Rattle.filter_verifier.specs.Transfer.{leads_below};

use filter_code::Instr;

/// The successors of an instruction, as offsets from it: 1 is the next instruction.
#[derive(Clone, Copy)]
pub enum Successors {
    /// The run ends.
    Nowhere,
    /// The only successor.
    One(usize),
    /// Both successors of a branch.
    Either(usize, usize),
}

impl Successors {
    /// The successors of an instruction.
    pub fn of(instr: Instr) -> Successors
        ensures value { offsets result ≡ leads instr }
        ensures near { All (λ offset. (0 < offset) × (offset ≤ 65536)) (offsets result) }
    {
        match instr {
            Instr::Jump(skipped) => Successors::One(1 + usize::from(skipped)),
            Instr::JumpIfNot(skipped) => Successors::Either(1, 1 + usize::from(skipped)),
            Instr::Accept | Instr::Reject => Successors::Nowhere,
            _ => Successors::One(1),
        }
    }

    /// Whether each successor of the instruction at an index has an index below a limit.
    pub fn are_below(self, at: usize, limit: usize) -> bool
        requires { at ≤ limit }
        ensures { result ≡ leads_below at limit (offsets self) }
    {
        match self {
            Successors::Nowhere => true,
            Successors::One(offset) => offset < limit - at,
            Successors::Either(a, b) => a < limit - at && b < limit - at,
        }
    }
}
