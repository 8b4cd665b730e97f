//! The most instructions on any path.

ghost use Rattle.std.specs.Prelude.{◌≡◌, ◌<◌, ◌≤◌, ◌∷◌, All, IfOk, length, slice_index};
ghost use Rattle.filter_code.specs.Limits.{instruction_limit};
ghost use Rattle.filter_verifier.specs.Bounds.{cost, greatest_at};
ghost use Rattle.filter_verifier.specs.Sweep.{offsets};

use crate::successors::Successors;
use filter_code::Instr;
use std::alloc::{AllocError, Global};

/// The cost of the instruction at an offset, from the costs of the next instructions in order. 0 outside the code.
fn cost_at(costs: &[u32], offset: usize) -> u32
    requires { 0 < offset }
    ensures { result ≡ slice_index (0 ∷ costs.now) offset }
{
    match costs.get(offset - 1) {
        Some(cost) => *cost,
        None => 0,
    }
}

/// The greatest cost of some successors.
fn greatest(costs: &[u32], successors: Successors) -> u32
    requires { All (λ offset. (0 < offset) × (offset ≤ 65536)) (offsets successors) }
    ensures { result ≡ greatest_at costs.now (offsets successors) }
{
    match successors {
        Successors::Nowhere => 0,
        Successors::One(offset) => cost_at(costs, offset),
        Successors::Either(a, b) => cost_at(costs, a).max(cost_at(costs, b)),
    }
}

/// The most instructions on any path from the first one to ACCEPT or REJECT.
#[tactic(auto, using(crate::proofs::Budgets::costs_at))]
pub(crate) fn budget_of(alloc: Global, instrs: &[Instr]) -> Result<u32, AllocError>
    requires { length instrs.now ≤ instruction_limit }
    ensures { IfOk result (λ budget. budget ≡ cost instrs.now 0) }
{
    let mut costs = vec![in alloc; 0; instrs.len()]?;
    for at in (0..instrs.len()).rev() {
        costs[at] = 1 + greatest(&costs[at + 1..], Successors::of(instrs[at]));
    }
    Ok(cost_at(&costs, 1))
}
