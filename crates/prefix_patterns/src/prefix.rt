//! Prefixes.
//!
//! **Contracts see a prefix as the list of its bits**, not as an address and a length. Two prefixes are equal if and only if their bits are, and
//! "the first n bits" needs no arithmetic.

ghost use Rattle.std.proofs.lemmas.Cmp.{lists_equiv};
ghost use Rattle.std.specs.Bool.{beq};
ghost use Rattle.std.specs.Cmp.{bool_eq_equiv, partial_equiv_from_equiv};
ghost use Rattle.std.specs.Cmp.Lexicographic.{pointwise};
ghost use Rattle.std.specs.Prelude.{◌≡◌, ◌^◌, ◌<◌, ◌≤◌, ◌↔◌, IsSome, IsTrue, length, slice_get, take};
ghost use Rattle.std.specs.Option.{SomeIff};
ghost use Rattle.prefix_patterns.specs.Bits.{address_bits, address_length, address_of, number, prefix_bits};
ghost use Rattle.prefix_patterns.specs.Matching.{LiesWithin, lies_within, has_same_bits};
ghost use Rattle.prefix_patterns.specs.Trees.{index_of, mask_of};

use crate::address::{ADDRESS_LENGTH, Ip};
use std::marker::Model;

/// An IPv4 prefix of 0 to 32 bits: the addresses that begin with these bits.
///
/// A contract sees a prefix as the list of its bits, in order.
#[derive(Clone, Copy)]
pub struct Prefix {
    address: u32,
    len: u8,
}

impl Model for Prefix {
    ghost use Rattle.std.specs.Prelude.{List, Bool, length};
    ghost use Rattle.prefix_patterns.specs.Bits.{prefix_bits, address_of, HasNoBitPast};
    ghost use Rattle.prefix_patterns.specs.BitLists.{fields_again};

    ghost Value = { List Bool };

    ghost view = { λ p. prefix_bits p.address p.len };

    ghost invariant = { λ p. HasNoBitPast p.len p.address };

    ghost inverse = { λ bits. record { address = address_of bits; len = length bits } };

    ghost inverse_ok = { λ p clear. fields_again p clear };
}

impl Prefix {
    /// The prefix of the first `len` bits of an address. None if and only if `len` is above 32.
    pub fn new(ip: Ip, len: u8) -> Option<Prefix>
        ensures { SomeIff result (len ≤ address_length) (prefix_bits ip.0 len) }
    {
        if len > ADDRESS_LENGTH {
            return None;
        }
        Some(Prefix::masked(ip, len))
    }

    /// The prefix of the first `len` bits of an address.
    pub(crate) fn masked(ip: Ip, len: u8) -> Prefix
        requires { len ≤ address_length }
        ensures { result ≡ prefix_bits ip.0 len }
    {
        let host_bits = ADDRESS_LENGTH - len;
        let cleared = u64::from(ip.0) >> host_bits << host_bits;
        Prefix {
            address: cleared as u32,
            len,
        }
    }

    /// Whether an address lies within the prefix.
    pub fn contains(&self, ip: Ip) -> bool
        ensures cases { IsTrue result ↔ LiesWithin (address_bits ip.0) self.now }
        ensures exact { result ≡ lies_within (address_bits ip.0) self.now }
    {
        Prefix::masked(ip, self.len()) == *self
    }

    /// Whether the prefix lies within another, or equals it.
    pub fn within(&self, other: &Prefix) -> bool
        ensures cases { IsTrue result ↔ LiesWithin self.now other.now }
        ensures exact { result ≡ lies_within self.now other.now }
    {
        other.len() <= self.len() && self.first(other.len()) == *other
    }

    /// Whether two prefixes agree on the bits that both have.
    pub fn has_same_bits(&self, other: &Prefix) -> bool
        ensures { result ≡ has_same_bits self.now other.now }
    {
        let shared = self.len().min(other.len());
        self.first(shared) == other.first(shared)
    }

    /// The prefix of the first `len` bits.
    fn first(&self, len: u8) -> Prefix
        requires { len ≤ length self.now }
        ensures { result ≡ take len self.now }
    {
        Prefix::masked(Ip(self.address), len)
    }

    /// The bit at a depth, the first bit at 0. None if and only if the prefix has no bit there.
    pub(crate) fn bit(&self, depth: u8) -> Option<bool>
        ensures value { result ≡ slice_get self.now depth }
        ensures limit { IsSome result → depth < address_length }
    {
        if depth < self.len {
            Some(self.address >> (ADDRESS_LENGTH - 1 - depth) & 1 == 1)
        } else {
            None
        }
    }

    /// The first `count` bits as a number.
    pub(crate) fn leading(&self, count: u8) -> usize
        requires { count ≤ length self.now }
        ensures value { result ≡ number (take count self.now) }
        ensures limit { result < 2 ^ count }
    {
        (u64::from(self.address) >> (ADDRESS_LENGTH - count)) as usize
    }

    /// The place of the first `count` bits in a heap of all prefixes: the number whose digits are a 1 and these bits.
    pub(crate) fn heap_index(&self, count: u8) -> usize
        requires { count ≤ length self.now }
        ensures { result ≡ index_of (take count self.now) }
    {
        let above = 1 << ADDRESS_LENGTH;
        ((above + u64::from(self.address)) >> (ADDRESS_LENGTH - count)) as usize
    }

    /// The first address of the prefix: its bits followed by zeros.
    pub fn address(&self) -> Ip
        ensures { result.0 ≡ address_of self.now }
    {
        Ip(self.address)
    }

    /// The mask of the prefix: as many ones as it has bits, and zeros behind them.
    pub(crate) fn mask(&self) -> u32
        ensures value { result ≡ mask_of (length self.now) }
        ensures limit { length self.now ≤ address_length }
    {
        ((1u64 << ADDRESS_LENGTH) - (1u64 << (ADDRESS_LENGTH - self.len))) as u32
    }

    /// The length of the prefix in bits, 0 to 32.
    pub fn len(&self) -> u8
        ensures bits { result ≡ length self.now }
        ensures limit { result ≤ address_length }
    {
        self.len
    }
}

impl PartialEq for Prefix {
    ghost eq = { pointwise beq };

    ghost laws = { partial_equiv_from_equiv (lists_equiv bool_eq_equiv) };

    fn eq(&self, other: &Prefix) -> bool {
        self.address == other.address && self.len == other.len
    }
}

impl Eq for Prefix {
    ghost laws = { lists_equiv bool_eq_equiv };
}
