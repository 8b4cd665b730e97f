ghost use Rattle.std.specs.Prelude.{◌≡◌, ◌≤◌, ◌↔◌, IsTrue, max};
ghost use Rattle.std.specs.Option.{SomeIff};
ghost use Rattle.int_sets.specs.Holding.{Holds, holds};

use std::marker::Model;

/// A range of ints: the numbers from a first one to a last one, both included. It holds at least one number.
#[derive(Clone, Copy, PartialEq, Eq)]
pub struct IntRange {
    low: u32,
    high: u32,
}

impl Model for IntRange {
    ghost use Rattle.std.specs.Prelude.{◌≤◌};
    ghost use Rattle.int_sets.specs.Holding.{NumberRange};

    ghost Value = { NumberRange };

    ghost view = { λ r. record { low = r.low; high = r.high } };

    ghost invariant = { λ r. r.low ≤ r.high };

    ghost inverse = { λ v. record { low = v.low; high = v.high } };
}

impl IntRange {
    /// The range from `low` to `high`. None if and only if `low` is above `high`.
    pub fn new(low: u32, high: u32) -> Option<IntRange>
        ensures { SomeIff result (low ≤ high) (record { low = low; high = high }) }
    {
        if low <= high {
            Some(IntRange { low, high })
        } else {
            None
        }
    }

    /// The first number of the range.
    pub fn low(&self) -> u32
        ensures low { result ≡ self.now.low }
        ensures order { result ≤ self.now.high }
    {
        self.low
    }

    /// The last number of the range.
    pub fn high(&self) -> u32
        ensures { result ≡ self.now.high }
    {
        self.high
    }

    /// Whether the range holds a number.
    pub fn holds(&self, number: u32) -> bool
        ensures cases { IsTrue result ↔ Holds number self.now }
        ensures exact { result ≡ holds number self.now }
    {
        self.low <= number && number <= self.high
    }

    /// The range, widened to end at `high` or later.
    pub(crate) fn up_to(self, high: u32) -> IntRange
        ensures { result ≡ record { low = self.low; high = max self.high high } }
    {
        IntRange {
            low: self.low,
            high: self.high.max(high),
        }
    }
}
