//! The labels of a `case`: the first of them that shares a number with an earlier one.
//!
//! All ranges are put in the order of their first numbers once. A sweep over them tells whether the labels up to a number
//! share none, and that number is found by halving: so labels of many ranges cost little more than the sort.
//!
//! **`check` asks for memory only at a `case`**, for a list of the ranges of all its labels. They are put in the order of their first numbers once.
//! One sweep over them tells whether the labels up to one share a number: each range is compared with the one before it that ends last. The first
//! label that shares one is found by halving. So labels of thousands of ranges are judged in the time that the sort takes, and a bit more.

ghost use Rattle.std.specs.Prelude.{◌≡◌, ◌+◌, ◌<◌, ◌≤◌, All};
ghost use Rattle.std.specs.List.Sorted.{IsNonDecreasingBy, IsPermutation};
ghost use Rattle.filter_types.specs.Sweep.{AreAllApartBefore, IsOrdered, are_apart, meets};

use int_sets::IntRange;

/// A range, and the number of the label that has it.
#[derive(Clone, Copy)]
pub(crate) struct Labelled {
    pub(crate) label: usize,
    pub(crate) range: IntRange,
}

impl Labelled {
    /// The number after the last one.
    fn end(self) -> u64
        ensures { result ≡ self.range.high + 1 }
    {
        u64::from(self.range.high()) + 1
    }

    /// Whether it begins before this number, and is not of this label.
    fn meets(self, end: u64, label: usize) -> bool
        ensures { result ≡ meets self end label }
    {
        u64::from(self.range.low()) < end && self.label != label
    }
}

/// Whether of the labels before this number no two share a number, by ranges in the order of their first numbers.
fn are_apart(sorted: &[Labelled], count: usize) -> bool
    ensures { result ≡ are_apart count 0 0 sorted.now }
{
    // Where the range ends that ends last, and its label.
    let mut end = 0;
    let mut label = 0;
    for next in sorted {
        if next.label < count {
            if next.meets(end, label) {
                return false;
            }
            if end < next.end() {
                end = next.end();
                label = next.label;
            }
        }
    }
    true
}

/// How many labels from the first on share no number, by ranges in the order of their first numbers.
fn count_apart(sorted: &[Labelled], labels: usize) -> usize
    requires rising { IsNonDecreasingBy (λ x. x.range.low) sorted.now }
    requires ordered { All IsOrdered sorted.now }
    ensures limit { result ≤ labels }
    ensures apart { AreAllApartBefore result sorted.now }
    ensures most { result < labels → AreAllApartBefore (result + 1) sorted.now → ⊥ }
{
    let mut low = 0;
    let mut high = labels;
    while low < high {
        let middle = high - (high - low) / 2;
        if are_apart(sorted, middle) {
            low = middle;
        } else {
            high = middle - 1;
        }
    }
    low
}

/// The ranges in the order of their first numbers.
fn sorted(ranges: Vec<Labelled>) -> Vec<Labelled>
    ensures rising { IsNonDecreasingBy (λ x. x.range.low) result.items }
    ensures same { IsPermutation ranges.items result.items }
{
    let mut ranges = ranges;
    ranges.sort_unstable_by_key(|x| x.range.low());
    ranges
}

/// The number of the first label that shares a number with an earlier one, and the count of the labels where none does.
pub(crate) fn first_shared(ranges: Vec<Labelled>, labels: usize) -> usize
    requires ordered { All IsOrdered ranges.items }
    ensures limit { result ≤ labels }
    ensures apart { AreAllApartBefore result ranges.items }
    ensures most { result < labels → AreAllApartBefore (result + 1) ranges.items → ⊥ }
{
    let sorted = sorted(ranges);
    count_apart(&sorted, labels)
}
