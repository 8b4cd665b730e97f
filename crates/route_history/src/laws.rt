//! What holds of every legal history, and of its positions.

ghost use Rattle.std.specs.Prelude.{◌≡◌, ℕ, ◌+◌, ◌<◌, ◌⊎◌, ◌∷◌, [], ◌++◌, List, length, slice_index_or, slice_set};
ghost use Rattle.netchange_core.specs.OpeningView.{OpeningView};
ghost use Rattle.route_history.specs.declared.entry.Entry.{Entry as Pair};
ghost use Rattle.route_history.specs.Beginning.{Begins};
ghost use Rattle.route_history.specs.History.{IsLegal};
ghost use Rattle.route_history.specs.Laws.{IsWithinTake, TakesWhatWasSent};
ghost use Rattle.route_history.specs.Positions.{AreSharedOut};

/// A beginning of a legal history is legal; and of two beginnings of one history one begins the other.
pub fn beginnings_are_legal()
    ensures legal { (opening : OpeningView) (es fs : List Pair) → Begins es fs → IsLegal opening fs → IsLegal opening es }
    ensures nested { (es fs all : List Pair) → Begins es all → Begins fs all → Begins es fs ⊎ Begins fs es }
{}

/// What each session took begins what it was sent, and the reply to a Take has at most as many messages as were asked for.
pub fn taken_begins_sent()
    ensures sent { (opening : OpeningView) (es : List Pair) (s : ℕ) → IsLegal opening es → TakesWhatWasSent opening es s }
    ensures at_most { (opening : OpeningView) (es : List Pair) → IsLegal opening es → (k : ℕ) (d : Pair) → k < length es →
        IsWithinTake (slice_index_or es k d) }
{}

/// Where each position of a history stands in one of several lists, once, that stays so as the position of a new entry joins
/// one of the lists.
pub fn each_position_once()
    ensures { (n k : ℕ) (lists : List (List ℕ)) → AreSharedOut n lists → k < length lists →
        AreSharedOut (n + 1) (slice_set lists k (slice_index_or lists k [] ++ n ∷ [])) }
{}
