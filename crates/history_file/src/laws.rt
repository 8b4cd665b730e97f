//! What holds of every text of a history.
ghost use Rattle.std.specs.Prelude.{◌≡◌, ◌++◌, ◌<◌, ◌^◌, ℕ, List};
ghost use Rattle.netchange_core.specs.Calls.{opened};
ghost use Rattle.netchange_core.specs.Consistent.{IsConsistent};
ghost use Rattle.netchange_core.specs.OpeningView.{OpeningView};
ghost use Rattle.netchange_core.specs.World.{World};
ghost use Rattle.route_history.specs.History.{IsLegal, world_of};
ghost use Rattle.history_file.specs.Chains.{AreChained, Begins, Follows, IsLegalChain, SegmentView, all_entries, last_state};
ghost use Rattle.history_file.specs.declared.chain.Chain.{Chain as Joined};
ghost use Rattle.history_file.specs.Files.{IsFaultOf, Tells};
ghost use Rattle.history_file.specs.Segments.{IsOneState, IsStateText};
ghost use Rattle.history_lines.specs.Views.{HistoryView};
ghost use Rattle.history_file.specs.declared.fault.HistoryFault.{HistoryFault as Fault};
ghost use Rattle.history_file.specs.declared.fault.HistoryFault.TheVariants.{Memory};

/// Bytes tell at most one history, and no fault is found in those that tell one but that memory was refused. So what was written
/// is read as the same opening and entries.
pub fn one_history()
    ensures one { (bytes : List ℕ) (a b : HistoryView) (s t : List ℕ) → Tells bytes a s → Tells bytes b t → (a ≡ b) × (s ≡ t) }
    ensures faultless { (bytes : List ℕ) (found : Fault) (h : HistoryView) (s : List ℕ) → IsFaultOf bytes found → Tells bytes h s →
        found ≡ Memory }
{}

/// Segments of which the first begins in the state of an opening, each other one in the state in which the one before ends, and each is legal
/// from the state that it begins in, are one legal history, and the last one ends in the state that this history leads to.
pub fn segments_are_one_history()
    ensures legal { (o : OpeningView) (ss : List SegmentView) → AreChained (opened o) ss → IsLegal o (all_entries ss) }
    ensures ends { (o : OpeningView) (ss : List SegmentView) → AreChained (opened o) ss → last_state (opened o) ss ≡ world_of o (all_entries ss) }
{}

/// All replies of a chain are right: a first segment begins such a chain, and each next one leaves it so.
pub fn chains_are_legal()
    ensures begins { (bytes : List ℕ) (c : Joined) → Begins bytes c → IsLegalChain c }
    ensures follows { (bytes : List ℕ) (c d : Joined) → IsLegalChain c → Follows bytes c d → IsLegalChain d }
{}

/// A text tells at most one state that a router comes to: bytes that begin with the text of such a state begin with no other one's.
pub fn one_state()
    ensures { (r s a b : ℕ) (w v : World) (t u x y : List ℕ) → a < 2 ^ 64 → b < 2 ^ 64 → IsConsistent w → IsConsistent v →
        IsStateText r a w t → IsStateText s b v u → t ++ x ≡ u ++ y → IsOneState r s a b w v x y }
{}
