//! The length that a `.mask` keeps.
//!
//! **The type of the tree says that a `.mask` keeps at most 32 bits.** A contract sees the number alone, so the proofs of the compiler carry along
//! that each MASK is within the limit.

ghost use Rattle.std.specs.Prelude.{◌≡◌, ◌≤◌};
ghost use Rattle.std.specs.Option.{SomeIff};

use prefix_patterns::ADDRESS_LENGTH;
use std::marker::Model;

/// How many bits of an address `.mask` keeps: 0 to 32.
///
/// A contract sees the number.
#[derive(Clone, Copy, PartialEq, Eq)]
pub struct MaskLength {
    bits: u8,
}

impl Model for MaskLength {
    ghost use Rattle.std.specs.Prelude.{ℕ, ◌≤◌};

    ghost Value = { ℕ };

    ghost view = { λ m. m.bits };

    ghost invariant = { λ m. m.bits ≤ 32 };

    ghost inverse = { λ n. record { bits = n } };
}

impl MaskLength {
    /// The first `bits` bits. None if and only if these are more than an address has.
    pub fn new(bits: u32) -> Option<MaskLength>
        ensures { SomeIff result (bits ≤ 32) bits }
    {
        if bits > u32::from(ADDRESS_LENGTH) {
            return None;
        }
        Some(MaskLength { bits: bits as u8 })
    }

    /// The number of bits.
    pub fn bits(self) -> u8
        ensures value { result ≡ self }
        ensures limit { result ≤ 32 }
    {
        self.bits
    }
}
