ghost use Rattle.std.specs.Prelude.{◌≡◌, ℕ, ◌<◌, ◌≤◌, ◌&&◌, IsTrue, ◌↔◌, nat_le};
ghost use Rattle.std.specs.Option.{SomeIff};
ghost use Rattle.prefix_patterns.specs.Bits.{address_length};
ghost use Rattle.prefix_patterns.specs.Matching.{HasOrderedLengths, Matches, matches};
ghost use Rattle.prefix_patterns.specs.Trees.{allows, bucket, has_length, short_bucket, turns};

use crate::address::ADDRESS_LENGTH;
use crate::lengths::Lengths;
use crate::prefix::Prefix;
use std::marker::Model;

/// The number of bits that tell the bucket of a pattern.
pub(crate) const BUCKET_BITS: u8 = 8;

/// The bucket of all patterns with fewer bits.
pub(crate) const SHORT_BUCKET: usize = 256;

/// A pattern for prefixes: a prefix, and the least and the greatest length that it allows.
///
/// A prefix matches if its length is allowed and if it agrees with the pattern's prefix on the bits that both have.
#[derive(Clone, Copy, PartialEq, Eq)]
pub struct Pattern {
    prefix: Prefix,
    low: u8,
    high: u8,
}

impl Model for Pattern {
    ghost use Rattle.prefix_patterns.specs.Matching.{PrefixPattern, HasOrderedLengths};

    ghost Value = { PrefixPattern };

    ghost view = { λ p. record { bits = p.prefix; low = p.low; high = p.high } };

    ghost invariant = { λ p. HasOrderedLengths p.low p.high };

    ghost inverse = { λ v. record { prefix = v.bits; low = v.low; high = v.high } };
}

impl Pattern {
    /// The pattern of a prefix and the lengths from `low` to `high`.
    /// None if and only if `low` is above `high` or `high` is above 32.
    pub fn new(prefix: Prefix, low: u8, high: u8) -> Option<Pattern>
        ensures { SomeIff result (HasOrderedLengths low high) (record { bits = prefix; low = low; high = high }) }
    {
        if low <= high && high <= ADDRESS_LENGTH {
            Some(Pattern { prefix, low, high })
        } else {
            None
        }
    }

    /// The pattern's prefix.
    pub fn prefix(&self) -> Prefix
        ensures { result ≡ self.now.bits }
    {
        self.prefix
    }

    /// The least length of a prefix that matches.
    pub fn low(&self) -> u8
        ensures { result ≡ self.now.low }
    {
        self.low
    }

    /// The greatest length of a prefix that matches.
    pub fn high(&self) -> u8
        ensures lengths { HasOrderedLengths self.now.low result }
        ensures high { result ≡ self.now.high }
    {
        self.high
    }

    /// The lengths that the pattern allows.
    pub(crate) fn lengths(&self) -> Lengths
        ensures { (len : ℕ) → has_length result len ≡ allows len self.now }
    {
        Lengths::between(self.low, self.high)
    }

    /// Whether the pattern's prefix has this bit at a depth.
    pub(crate) fn turns(&self, bit: bool, depth: u8) -> bool
        ensures value { result ≡ turns bit depth self.now }
        ensures limit { IsTrue result → depth < address_length }
    {
        match self.prefix.bit(depth) {
            Some(found) => bit == found,
            None => false,
        }
    }

    /// The bucket of the pattern: its first 8 bits as a number, or `SHORT_BUCKET` if it has fewer.
    pub(crate) fn bucket(&self) -> usize
        ensures value { result ≡ bucket self.now }
        ensures limit { result ≤ short_bucket }
    {
        if self.prefix.len() < BUCKET_BITS {
            SHORT_BUCKET
        } else {
            self.prefix.leading(BUCKET_BITS)
        }
    }

    /// Whether a prefix matches.
    pub fn matches(&self, prefix: &Prefix) -> bool
        ensures cases { IsTrue result ↔ Matches prefix.now self.now }
        ensures exact { result ≡ matches prefix.now self.now }
    {
        prefix.has_same_bits(&self.prefix) && self.takes(prefix.len())
    }

    /// Whether the pattern allows prefixes of a length.
    fn takes(&self, len: u8) -> bool
        ensures { result ≡ (nat_le self.now.low len && nat_le len self.now.high) }
    {
        self.low <= len && len <= self.high
    }
}
