//! What follows from counts of positions, for callers who gather what several passes did.
//!
//! **"Each call once" is a count**, an equation for each position over all passes, and not a permutation. So each step is a sum, and at the close
//! the count says where each position is.
//!
//! **Laws about counts are public** (`counts_add_up`, `each_position_is_there`, `none_is_twice`), so that a caller who gathers several passes cites
//! a contract and no lemma of this crate.

ghost use Rattle.std.specs.Prelude.{◌≡◌, ℕ, ◌+◌, ◌<◌, ◌++◌, List, length};
ghost use Rattle.route_history.specs.Positions.{times};
ghost use Rattle.slot_lock.specs.Counts.{HasEachOnce, HasNoneTwice, StandsAt};

/// Where each position of a history of n entries stands in a list once, and nothing else does, the list has n positions;
/// each number below n stands at one of its indices, and each of its positions is below n.
pub fn each_position_is_there()
    ensures number { (n : ℕ) (xs : List ℕ) → HasEachOnce n xs → length xs ≡ n }
    ensures there { (n x : ℕ) (xs : List ℕ) → HasEachOnce n xs → x < n → (k : ℕ) × StandsAt x xs k }
    ensures within { (n x k : ℕ) (xs : List ℕ) → HasEachOnce n xs → StandsAt x xs k → x < n }
{}

/// Where nothing stands in a list twice, one position stands at one index.
pub fn none_is_twice()
    ensures { (x j k : ℕ) (xs : List ℕ) → HasNoneTwice xs → StandsAt x xs j → StandsAt x xs k → j ≡ k }
{}

/// A position stands in two lists, one after the other, as often as in both.
pub fn counts_add_up()
    ensures { (x : ℕ) (xs ys : List ℕ) → times x (xs ++ ys) ≡ times x xs + times x ys }
{}
