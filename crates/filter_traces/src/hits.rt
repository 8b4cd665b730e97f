//! To which instructions a run comes.
//!
//! **A route is counted at a command at most once**, since jumps only go forward. Counts have 64 bits. They would stay at the greatest number; no
//! input is long enough for that, and the contract says the number itself.
ghost use Rattle.std.specs.Prelude.{◌≡◌, ◌<◌, ◌==◌, ℕ, length, slice_index};
ghost use Rattle.filter_traces.specs.Hits.{comes_to, counted_up};

use crate::traced::Traced;
use filter_code::{Route, Running};

/// Counts one more at a place, unless no larger number can be told.
fn count_one(counts: &mut [u64], place: usize)
    ensures { (k : ℕ) → k < length counts.old → slice_index counts.new k ≡ counted_up (place == k) (slice_index counts.old k) }
{
    if place < counts.len() {
        counts[place] = counts[place].saturating_add(1);
    }
}

impl<'a> Traced<'a> {
    /// Counts the instructions to which the run on a route comes, each at its place.
    pub(crate) fn count_run(&self, route: &Route, counts: &mut [u64])
        ensures { (k : ℕ) → k < length counts.old
            → slice_index counts.new k ≡ counted_up (comes_to self.now.program route.now k) (slice_index counts.old k) }
    {
        let mut running = Running::new(self.code(), route);
        for taken in 0..self.code().instrs().len() + 1 {
            count_one(counts, running.place());
            match running.step(self.code(), route) {
                Some(_) => return,
                None => {}
            }
        }
    }
}
