ghost use Rattle.std.specs.Prelude.{◌≡◌, ◌<◌, ◌≤◌, ◌↔◌, IsTrue, IfOk, IsErrOf, length};
ghost use Rattle.int_sets.specs.Holding.{HoldsAny, holds_any, range_limit};

use crate::fault::SetFault;
use crate::merge::merge;
use crate::range::IntRange;
use crate::search::{scan, search};
use std::alloc::{AllocError, Global};
use std::marker::Model;

/// The greatest number of ranges in a set.
pub const RANGE_LIMIT: usize = 1024;

/// The greatest number of ranges in a set that is scanned. More of them are merged, and searched.
const SCAN_LIMIT: usize = 8;

/// A set of ints. A contract sees it as the list of its ranges, in the order given.
#[derive(Drop)]
pub struct IntSet {
    ranges: Vec<IntRange>,
    /// The ranges in order, merged, of a set that is not scanned.
    merged: Option<Vec<IntRange>>,
}

impl Model for IntSet {
    ghost use Rattle.std.specs.Prelude.{List};
    ghost use Rattle.int_sets.specs.Holding.{NumberRange};
    ghost use Rattle.int_sets.specs.Merged.{IsSearchable};

    ghost Value = { List NumberRange };

    ghost view = { λ s. s.ranges.items };

    ghost invariant = { λ s. IsSearchable s.ranges.items s.merged };
}

impl IntSet {
    /// Makes the set of these ranges. Refused with S1 if and only if there are more than 1,024, and with S2 if memory is
    /// refused.
    pub fn build(alloc: Global, ranges: &[IntRange]) -> Result<IntSet, SetFault>
        ensures built { IfOk result (λ set. set ≡ ranges.now) }
        ensures too_many { IsErrOf result SetFault.TooManyRanges ↔ (range_limit < length ranges.now) }
    {
        if ranges.len() > RANGE_LIMIT {
            return Err(SetFault::TooManyRanges);
        }
        match IntSet::searchable(alloc, ranges) {
            Ok(set) => Ok(set),
            Err(_) => Err(SetFault::Memory),
        }
    }

    /// Makes the set of these ranges, merged if there are many.
    fn searchable(alloc: Global, ranges: &[IntRange]) -> Result<IntSet, AllocError>
        requires { length ranges.now ≤ range_limit }
        ensures { IfOk result (λ set. set ≡ ranges.now) }
    {
        let merged = if ranges.len() > SCAN_LIMIT {
            Some(merge(alloc, ranges)?)
        } else {
            None
        };
        Ok(IntSet {
            ranges: Vec::from_slice(alloc, ranges)?,
            merged,
        })
    }

    /// The ranges, in the order given.
    pub fn ranges(&self) -> &[IntRange]
        ensures value { result.now ≡ self.now }
        ensures limit { length result.now ≤ range_limit }
    {
        self.ranges.as_slice()
    }

    /// Whether one of the ranges holds a number.
    pub fn holds(&self, number: u32) -> bool
        ensures any { IsTrue result ↔ HoldsAny number self.now }
        ensures exact { result ≡ holds_any number self.now }
    {
        match &self.merged {
            Some(merged) => search(merged, number),
            None => scan(&self.ranges, number),
        }
    }
}
