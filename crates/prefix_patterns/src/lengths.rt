ghost use Rattle.std.specs.Prelude.{◌≡◌, ℕ, ◌<◌, ◌&&◌, ◌||◌, false, nat_le};
ghost use Rattle.prefix_patterns.specs.Matching.{HasOrderedLengths};
ghost use Rattle.prefix_patterns.specs.Trees.{has_length};

/// A set of lengths of prefixes, each of them a bit of the mask.
#[derive(Clone, Copy)]
pub(crate) struct Lengths {
    mask: u64,
}

impl Lengths {
    /// No lengths.
    pub fn none() -> Lengths
        ensures { (len : ℕ) → has_length result len ≡ false }
    {
        Lengths { mask: 0 }
    }

    /// The lengths from `low` to `high`.
    pub fn between(low: u8, high: u8) -> Lengths
        requires { HasOrderedLengths low high }
        ensures { (len : ℕ) → has_length result len ≡ (nat_le low len && nat_le len high) }
    {
        let past = high + 1;
        Lengths {
            mask: (1 << past) - (1 << low),
        }
    }

    /// The lengths of either set.
    pub fn union(self, other: Lengths) -> Lengths
        ensures { (len : ℕ) → has_length result len ≡ (has_length self len || has_length other len) }
    {
        Lengths {
            mask: self.mask | other.mask,
        }
    }

    /// Whether it has a length.
    pub fn has(self, len: u8) -> bool
        requires { len < 64 }
        ensures { result ≡ has_length self len }
    {
        self.mask >> len & 1 == 1
    }
}
