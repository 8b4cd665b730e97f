//! W4: ranges of a set of ints that share a number with another one of the set.
//!
//! BIRD looks a number up in a tree of the ranges, and misses some numbers where two ranges share one. Here each number that a range has is found.
ghost use Rattle.std.specs.Prelude.{◌≡◌, IfOk, position};
ghost use Rattle.filter_lint.specs.Overlaps as spec;

use crate::finding::found_below;
use crate::sets::Asked;
use crate::warning::{ValueBounds, Warning, WarningCause};
use int_sets::IntRange;
use std::alloc::{AllocError, Global};

/// Whether two ranges share a number.
fn overlaps(other: &IntRange, range: &IntRange) -> bool
    ensures { result ≡ spec.overlaps other.now range.now }
{
    other.low().max(range.low()) <= other.high().min(range.high())
}

/// The first and the last number of a range.
fn bounds_of(range: IntRange) -> ValueBounds
    ensures { result ≡ spec.bounds_of range }
{
    ValueBounds {
        low: range.low(),
        high: range.high(),
    }
}

/// The index of the first of some ranges that shares a number with another one.
fn first_overlapping(ranges: &[IntRange], range: &IntRange) -> Option<usize>
    ensures { result ≡ position (λ other. spec.overlaps other range.now) ranges.now }
{
    ranges.iter().position(|other| overlaps(other, range))
}

/// The first of the ranges before an index that shares a number with the range there.
fn overlapped(ranges: &[IntRange], at: usize, range: &IntRange) -> Option<IntRange>
    ensures { result ≡ spec.overlapped ranges.now at range.now }
{
    let (before, _) = ranges.split_at(at.min(ranges.len()));
    let index = first_overlapping(before, range)?;
    ranges.get(index).copied()
}

/// What is said of the range of an index, in the set that an instruction asks for.
fn overlap_at(ranges: &[IntRange], asked: &Asked, at: usize) -> Option<Warning>
    ensures { result ≡ spec.overlap_at ranges.now asked.now at }
{
    match ranges.get(at) {
        Some(range) => {
            let other = overlapped(ranges, at, range)?;
            Some(Warning {
                instruction: asked.instruction,
                byte: asked.byte,
                cause: WarningCause::Overlapping(bounds_of(*range), bounds_of(other)),
            })
        }
        None => None,
    }
}

/// What is said of all ranges of a set.
pub(crate) fn overlaps_in(
    alloc: Global,
    ranges: &[IntRange],
    asked: &Asked,
) -> Result<Vec<Warning>, AllocError>
    ensures { IfOk result (λ found. found.items ≡ spec.overlaps_in ranges.now asked.now) }
{
    found_below(alloc, ranges.len(), |at| overlap_at(ranges, asked, at))
}
