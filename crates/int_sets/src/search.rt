ghost use Rattle.std.specs.Prelude.{◌≡◌, ◌+◌, ◌*◌, ◌<◌, ◌≤◌, get_or, length};
ghost use Rattle.int_sets.specs.Holding.{NumberRange, holds_any};
ghost use Rattle.int_sets.specs.Merged.{AreRising};

use crate::range::IntRange;

/// 1 if a range begins at a number or before it, else 0.
fn begins_by(range: &IntRange, number: u32) -> usize
    ensures limit { result ≤ 1 }
    ensures begun { 0 < result → range.now.low ≤ number }
    ensures later { result < 1 → number < range.now.low }
{
    (range.low() <= number) as usize
}

/// Of four parts of `part` ranges each, of which the first begins at `base`: the last one whose first range begins at a number or
/// before it; the first one if none does. The three comparisons are added up, so that no branch waits for one.
fn part_of(ranges: &[IntRange], number: u32, base: usize, part: usize) -> usize
    requires inside { base + 3 * part < length ranges.now }
    requires rising { AreRising ranges.now }
    ensures limit { result ≤ 3 }
    ensures begun { 0 < result → (d : NumberRange) → (get_or ranges.now (base + part * result) d).low ≤ number }
    ensures later { result < 3 → (d : NumberRange) → number < (get_or ranges.now (base + part * (result + 1)) d).low }
{
    begins_by(&ranges[base + part], number)
        + begins_by(&ranges[base + 2 * part], number)
        + begins_by(&ranges[base + 3 * part], number)
}

/// Whether one of the ranges holds a number. What is left is divided by four as long as it can be: the ranges before it end no later
/// than its first one, which begins at the number or before it, and those after it begin past the number.
pub(crate) fn search(ranges: &[IntRange], number: u32) -> bool
    requires { AreRising ranges.now }
    ensures { result ≡ holds_any number ranges.now }
{
    let mut base = 0;
    let mut size = ranges.len();
    while size > 3 {
        let part = size / 4;
        base += part * part_of(ranges, number, base, part);
        size -= 3 * part;
    }
    scan(&ranges[base..base + size], number)
}

/// Whether one of the ranges holds a number, by looking at one after another.
pub(crate) fn scan(ranges: &[IntRange], number: u32) -> bool
    ensures { result ≡ holds_any number ranges.now }
{
    ranges.iter().any(|range| range.holds(number))
}
