//! The numbers of sets.

ghost use Rattle.filter_compiler.specs.SetOrder.{SetCounts, none_before, past};
ghost use Rattle.filter_compiler.specs.Translation.{one_set, ranges_set};
ghost use Rattle.filter_compiler.specs.Written.{IsCounted};

/// The numbers that the next sets have, or the greatest number that there is here. Sets of patterns and sets of ints are numbered
/// each by themselves.
#[derive(Clone, Copy)]
pub(crate) struct SetNumbers {
    pub patterns: u8,
    pub ints: u8,
}

impl SetNumbers {
    ghost use Rattle.std.specs.Prelude.{List};
    ghost use Rattle.filter_syntax.specs.Syntax.{RangeView, SetPatternView, of_patterns};

    /// Those of the first sets.
    pub(crate) fn first() -> SetNumbers
        ensures { IsCounted none_before result }
    {
        SetNumbers {
            patterns: 0,
            ints: 0,
        }
    }

    /// Those after a set of patterns.
    pub(crate) fn after_patterns(self) -> SetNumbers
        ensures { (n : SetCounts) (set : List SetPatternView) → IsCounted n self → IsCounted (past n (one_set (of_patterns set))) result }
    {
        SetNumbers {
            patterns: self.patterns.saturating_add(1),
            ints: self.ints,
        }
    }

    /// Those after a set of ints.
    pub(crate) fn after_ints(self) -> SetNumbers
        ensures { (n : SetCounts) (set : List RangeView) → IsCounted n self → IsCounted (past n (ranges_set set)) result }
    {
        SetNumbers {
            patterns: self.patterns,
            ints: self.ints.saturating_add(1),
        }
    }
}
