//! Ranges in order, merged where they share a number.

ghost use Rattle.std.specs.Prelude.{◌≡◌, ℕ, ◌≤◌, ◌||◌, All, IfOk, OnOk};
ghost use Rattle.std.specs.List.Sorted.{IsNonDecreasingBy};
ghost use Rattle.int_sets.specs.Holding.{holds, holds_any};
ghost use Rattle.int_sets.specs.Merged.{AreRising, StandFor};

use crate::range::IntRange;
use std::alloc::{AllocError, Global};

/// The ranges in the order of their first numbers.
fn sorted(alloc: Global, ranges: &[IntRange]) -> Result<Vec<IntRange>, AllocError>
    ensures order { IfOk result (λ sorted. IsNonDecreasingBy (λ r. r.low) sorted.items) }
    ensures same { IfOk result (λ sorted. (number : ℕ) → holds_any number sorted.items ≡ holds_any number ranges.now) }
{
    let mut sorted = Vec::from_slice(alloc, ranges)?;
    sorted.sort_unstable_by_key(|range| range.low());
    Ok(sorted)
}

/// Adds a range that begins no earlier than any of the merged ones: the last of these is widened where it reaches the new one.
fn add(merged: &mut Vec<IntRange>, range: IntRange) -> Result<(), AllocError>
    requires rising { AreRising merged.old.items }
    requires before { All (λ r. r.low ≤ range.low) merged.old.items }
    ensures rising { OnOk result (AreRising merged.new.items) }
    ensures before { OnOk result (All (λ r. r.low ≤ range.low) merged.new.items) }
    ensures numbers { OnOk result ((number : ℕ) →
        holds_any number merged.new.items ≡ (holds_any number merged.old.items || holds number range)) }
{
    let count = merged.len();
    if count > 0 && range.low() <= merged[count - 1].high() {
        merged[count - 1] = merged[count - 1].up_to(range.high());
        return Ok(());
    }
    merged.push(range)?;
    Ok(())
}

/// The ranges in order, merged where they share a number.
pub(crate) fn merge(alloc: Global, ranges: &[IntRange]) -> Result<Vec<IntRange>, AllocError>
    ensures { IfOk result (λ merged. StandFor merged.items ranges.now) }
{
    let sorted = sorted(alloc, ranges)?;
    let mut merged = Vec::with_capacity(alloc, sorted.len())?;
    for range in &sorted {
        add(&mut merged, *range)?;
    }
    Ok(merged)
}
