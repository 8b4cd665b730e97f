//! Laws on what the verifier answers, each the contract of a function with an empty body.

ghost use Rattle.std.specs.Prelude.{ℕ, List};
ghost use Rattle.filter_code.specs.declared.instruction.Instr.{Instr};
ghost use Rattle.filter_verifier.specs.Bounds.{HasBounds};

/// The cost and the peak at each index follow from those of its successors: the budget is the length of the longest path
/// from the first instruction to ACCEPT or REJECT, and the depth the most operands on any path.
pub fn bounds_follow_the_successors()
    ensures { (instrs : List Instr) → (pc : ℕ) → HasBounds instrs pc }
{}
