//! What is known of an int.

ghost use Rattle.std.specs.Prelude.{◌≡◌, ◌<◌, ◌≤◌};
ghost use Rattle.std.specs.Option.{SomeIff};
ghost use Rattle.filter_verifier.specs.PairwiseJoin.{join_two_ranges};
ghost use Rattle.filter_verifier.specs.Ranges.{any_number, range_in, range_of_difference, range_of_greater, range_of_length};
ghost use Rattle.filter_verifier.specs.Ranges.{range_of_metric, range_of_number, range_of_product, range_of_quotient};
ghost use Rattle.filter_verifier.specs.Ranges.{range_of_sum};

use std::marker::Model;

/// The values that an int may have, and whether it is known to be at least the metric received.
///
/// A contract sees a range as a `RangeView`.
#[derive(Clone, Copy, Debug)]
pub struct Range {
    low: u32,
    high: u32,
    at_least_received: bool,
}

impl Model for Range {
    ghost use Rattle.std.specs.Prelude.{◌≤◌};
    ghost use Rattle.filter_verifier.specs.Ranges.{RangeView};

    ghost Value = { RangeView };

    ghost view = { λ r. record { low = r.low; high = r.high; at_least_received = r.at_least_received } };

    ghost invariant = { λ r. r.low ≤ r.high };

    ghost inverse = { λ s. record { low = s.low; high = s.high; at_least_received = s.at_least_received } };
}

impl Range {
    /// A range in a domain of a size. No metric received is above the size, so an int from the size up is at least it.
    fn new(size: u32, low: u32, high: u32, at_least_received: bool) -> Range
        requires { low ≤ high }
        ensures { result ≡ range_in size low high at_least_received }
    {
        Range {
            low,
            high,
            at_least_received: at_least_received || size <= low,
        }
    }

    /// Any int.
    fn any(size: u32) -> Range
        ensures { result ≡ any_number size }
    {
        Range::new(size, 0, u32::MAX, false)
    }

    /// A literal.
    pub fn of_number(size: u32, number: u32) -> Range
        ensures { result ≡ range_of_number size number }
    {
        Range::new(size, number, number, false)
    }

    /// The current metric, and the one received.
    pub fn of_metric(size: u32) -> Range
        ensures { result ≡ range_of_metric size }
    {
        Range::new(size, 0, size, true)
    }

    /// The length of a prefix.
    pub fn of_length(size: u32) -> Range
        ensures { result ≡ range_of_length size }
    {
        Range::new(size, 0, 32, false)
    }

    /// The sum of two ints, modulo 2^32.
    pub fn sum(size: u32, operands: (Range, Range)) -> Range
        ensures { result ≡ range_of_sum size operands.0 operands.1 }
    {
        let (a, b) = operands;
        match a.high.checked_add(b.high) {
            Some(high) => Range::new(
                size,
                a.low + b.low,
                high,
                a.at_least_received || b.at_least_received,
            ),
            None => Range::any(size),
        }
    }

    /// The difference of two ints, modulo 2^32.
    pub fn difference(size: u32, operands: (Range, Range)) -> Range
        ensures { result ≡ range_of_difference size operands.0 operands.1 }
    {
        let (a, b) = operands;
        if b.high <= a.low {
            Range::new(size, a.low - b.high, a.high - b.low, false)
        } else {
            Range::any(size)
        }
    }

    /// The product of two ints, modulo 2^32.
    pub fn product(size: u32, operands: (Range, Range)) -> Range
        ensures { result ≡ range_of_product size operands.0 operands.1 }
    {
        let (a, b) = operands;
        match a.high.checked_mul(b.high) {
            Some(high) => {
                let at_least_received = (a.at_least_received && 1 <= b.low)
                    || (b.at_least_received && 1 <= a.low);
                Range::new(size, a.low * b.low, high, at_least_received)
            }
            None => Range::any(size),
        }
    }

    /// The quotient of two ints, rounded down. None if and only if the divisor may be 0.
    pub fn quotient(size: u32, operands: (Range, Range)) -> Option<Range>
        ensures { SomeIff result (0 < operands.1.low) (range_of_quotient size operands.0 operands.1) }
    {
        let (a, b) = operands;
        if b.low == 0 {
            return None;
        }
        Some(Range::new(size, a.low / b.high, a.high / b.low, false))
    }

    /// The greater of two ints.
    pub fn greater(size: u32, operands: (Range, Range)) -> Range
        ensures { result ≡ range_of_greater size operands.0 operands.1 }
    {
        let (a, b) = operands;
        Range::new(
            size,
            a.low.max(b.low),
            a.high.max(b.high),
            a.at_least_received || b.at_least_received,
        )
    }

    /// The least value.
    pub fn low(self) -> u32
        ensures { result ≡ self.low }
    {
        self.low
    }

    /// The greatest value.
    pub fn high(self) -> u32
        ensures { result ≡ self.high }
    {
        self.high
    }

    /// Whether the int is known to be at least the metric received.
    pub fn is_at_least_received(self) -> bool
        ensures { result ≡ self.at_least_received }
    {
        self.at_least_received
    }

    /// The join of two ranges: the smallest that holds both, at least the metric received if both are.
    pub fn join(a: Range, b: Range) -> Range
        ensures { result ≡ join_two_ranges a b }
    {
        Range {
            low: a.low.min(b.low),
            high: a.high.max(b.high),
            at_least_received: a.at_least_received && b.at_least_received,
        }
    }
}
