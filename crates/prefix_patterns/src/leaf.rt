//! The leaves of a tree: up to eight patterns each.
//!
//! **A leaf compares all of its patterns at once.** It has the addresses, the masks, and the least and the greatest lengths of eight patterns, each
//! in an array of its own, and where it has fewer patterns, its other places allow no length. So the compiler makes a few instructions of it that
//! work on several numbers each, and none of them is a branch. Which of its patterns matches, and how many it has, the processor could not have
//! foreseen: to guess it wrong takes longer than to compare eight. With 1,024 patterns a bucket has four on average: where a leaf had four, more
//! than a third of the buckets had nodes, and at every second match it was guessed wrong whether there is one. Lengths are bytes, so a leaf has 80
//! bytes, and those of all buckets stay in the processor's first cache. All trees without patterns share one leaf of none, and so do all buckets
//! without patterns.

ghost use Rattle.std.specs.Prelude.{◌≡◌, ◌<◌, ◌≤◌, ◌++◌, false, List, [], ◌∷◌, IfOk, length};
ghost use Rattle.prefix_patterns.specs.Matching.{PrefixPattern, matches, matches_any};
ghost use Rattle.prefix_patterns.specs.Trees.{AreLeavesOf, IsEntry, IsLeafOf, IsVacant, leaf_limit};

use crate::pattern::Pattern;
use crate::prefix::Prefix;
use std::alloc::{AllocError, Global};

/// The greatest number of patterns in a leaf.
pub(crate) const FEW: usize = 8;

/// Up to eight patterns: of each its first address, the mask of its bits, and the least and the greatest length that it allows.
/// At a place without a pattern the least is above the greatest, so it allows none. All eight are compared at once, without a
/// branch. Lengths are bytes: a leaf takes 80 bytes, and those of 256 buckets find room in the first cache of a processor.
#[derive(Clone, Copy)]
pub(crate) struct Leaf {
    addresses: [u32; FEW],
    masks: [u32; FEW],
    lows: [u8; FEW],
    highs: [u8; FEW],
}

impl Leaf {
    /// The leaf of no patterns.
    pub fn none() -> Leaf
        ensures { IsLeafOf result [] }
    {
        Leaf {
            addresses: [0; FEW],
            masks: [0; FEW],
            lows: [1; FEW],
            highs: [0; FEW],
        }
    }

    /// Puts one more pattern into a leaf of `at` patterns.
    pub fn put(&mut self, at: usize, pattern: &Pattern)
        requires { at < leaf_limit }
        ensures { (part : List PrefixPattern) → length part ≡ at → IsLeafOf self.old part →
            IsLeafOf self.new (part ++ pattern.now ∷ []) }
    {
        let prefix = pattern.prefix();
        self.addresses[at] = prefix.address().0;
        self.masks[at] = prefix.mask();
        self.lows[at] = pattern.low();
        self.highs[at] = pattern.high();
    }

    /// The leaf of a few patterns.
    pub fn of(part: &[Pattern]) -> Leaf
        requires { length part.now ≤ leaf_limit }
        ensures { IsLeafOf result part.now }
    {
        let mut leaf = Leaf::none();
        for (at, pattern) in part.iter().enumerate() {
            leaf.put(at, pattern);
        }
        leaf
    }

    /// Whether a prefix matches one of the patterns.
    #[inline(always)]
    pub fn matches(&self, prefix: &Prefix) -> bool
        ensures { (part : List PrefixPattern) → IsLeafOf self.now part → result ≡ matches_any prefix.now part }
    {
        self.matches_at(0, prefix)
            | self.matches_at(1, prefix)
            | self.matches_at(2, prefix)
            | self.matches_at(3, prefix)
            | self.matches_at(4, prefix)
            | self.matches_at(5, prefix)
            | self.matches_at(6, prefix)
            | self.matches_at(7, prefix)
    }

    /// Whether a prefix matches the pattern at a place.
    #[inline(always)]
    fn matches_at(&self, at: usize, prefix: &Prefix) -> bool
        requires { at < leaf_limit }
        ensures filled { (pattern : PrefixPattern) → IsEntry self.now at pattern → result ≡ matches prefix.now pattern }
        ensures empty { IsVacant self.now at → result ≡ false }
    {
        let mask = self.masks[at] & prefix.mask();
        (self.addresses[at] & mask == prefix.address().0 & mask)
            & ((self.lows[at] <= prefix.len()) & (prefix.len() <= self.highs[at]))
    }
}

/// The leaves of patterns, in their order.
pub(crate) fn leaves_of(alloc: Global, patterns: &[Pattern]) -> Result<Vec<Leaf>, AllocError>
    ensures { IfOk result (λ leaves. AreLeavesOf leaves.items patterns.now) }
{
    let mut leaves = Vec::with_capacity(alloc, patterns.len().div_ceil(FEW))?;
    let mut rest = patterns;
    'rest: while !rest.is_empty() {
        let count = rest.len().min(FEW);
        leaves.push(Leaf::of(&rest[..count]))?;
        rest = &rest[count..];
    }
    Ok(leaves)
}

/// Whether a prefix matches one of the patterns that leaves have.
pub(crate) fn any_leaf_matches(leaves: &[Leaf], prefix: &Prefix) -> bool
    ensures { (patterns : List PrefixPattern) → AreLeavesOf leaves.now patterns → result ≡ matches_any prefix.now patterns }
{
    // A match ends the loop: otherwise the compiler would take several leaves at a time, which takes longer where there are few.
    for leaf in leaves {
        if leaf.matches(prefix) {
            return true;
        }
    }
    false
}
