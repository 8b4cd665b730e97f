ghost use Rattle.std.specs.Prelude.{◌≡◌};
ghost use Rattle.filter_syntax.specs.Places.{pattern_place, range_place};
ghost use Rattle.filter_syntax.specs.Syntax.{pattern_of, range_of, view_range, view_set_pattern};

use int_sets::IntRange;
use prefix_patterns::{ADDRESS_LENGTH, Pattern, Prefix};

/// A set in brackets: of prefixes, as `[10.0.0.0/8+, 20.0.0.0/8{9,24}]`, or of ints, as `[2, 4..6]`.
#[derive(Drop)]
pub struct Set {
    /// The place of its `[`.
    pub at: usize,
    /// Its members.
    pub members: Members,
}

/// The members of a set, at least one. All are of one kind.
#[derive(Drop)]
pub enum Members {
    /// Those of a set of prefixes.
    Patterns(Vec<SetPattern>),
    /// Those of a set of ints.
    Ranges(Vec<SetRange>),
}

/// Ints as they are written in a set or in the label of a `case`. The place is that of the first int.
#[derive(Clone, Copy)]
pub enum SetRange {
    /// `n`: this int alone.
    One(usize, u32),
    /// `low..high`: the ints from `low` to `high`.
    FromTo(usize, IntRange),
}

impl SetRange {
    /// The place of the first int.
    pub fn at(&self) -> usize
        ensures { result ≡ range_place self.now }
    {
        match *self {
            SetRange::One(at, _) => at,
            SetRange::FromTo(at, _) => at,
        }
    }

    /// The range that is meant.
    pub fn range(&self) -> IntRange
        ensures { result ≡ range_of (view_range self.now) }
    {
        match *self {
            SetRange::One(_, number) => IntRange::new(number, number).unwrap(),
            SetRange::FromTo(_, range) => range,
        }
    }
}

/// A pattern as it is written in a set. The place is that of its prefix.
#[derive(Clone, Copy)]
pub enum SetPattern {
    /// `a/len`: prefixes of the length `len` alone.
    Exact(usize, Prefix),
    /// `a/len+`: prefixes of `len` to 32 bits.
    OrLonger(usize, Prefix),
    /// `a/len-`: prefixes of 0 to `len` bits.
    OrShorter(usize, Prefix),
    /// `a/len{low,high}`: prefixes of `low` to `high` bits.
    Between(usize, Pattern),
}

impl SetPattern {
    /// The place of the pattern's prefix.
    pub fn at(&self) -> usize
        ensures { result ≡ pattern_place self.now }
    {
        match *self {
            SetPattern::Exact(at, _) => at,
            SetPattern::OrLonger(at, _) => at,
            SetPattern::OrShorter(at, _) => at,
            SetPattern::Between(at, _) => at,
        }
    }

    /// The pattern that is meant.
    pub fn pattern(&self) -> Pattern
        ensures { result ≡ pattern_of (view_set_pattern self.now) }
    {
        match *self {
            SetPattern::Exact(_, prefix) => Pattern::new(
                prefix,
                prefix.len(),
                prefix.len(),
            ).unwrap(),
            SetPattern::OrLonger(_, prefix) => Pattern::new(
                prefix,
                prefix.len(),
                ADDRESS_LENGTH,
            ).unwrap(),
            SetPattern::OrShorter(_, prefix) => Pattern::new(prefix, 0, prefix.len()).unwrap(),
            SetPattern::Between(_, pattern) => pattern,
        }
    }
}
