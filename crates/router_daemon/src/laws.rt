//! What the notes on the states of the links are for.

ghost use Rattle.std.specs.Prelude.{◌≡◌, ◌<◌, ℕ, true, false, Some, List, [], ◌∷◌, ◌++◌, length};
ghost use Rattle.router_daemon.specs.StatesView.{LinkStatesView, noted};
ghost use Rattle.router_daemon.specs.Noting.{AreNoted, IsNoted, WasEmptied, queue_of, tells_all};
ghost use Rattle.router_daemon.specs.Steps.{queued_at, taken_at, waits};
ghost use Rattle.router_daemon.specs.declared.waiting.Waiting.{Waiting as Noted};
ghost use Rattle.netchange_core.specs.declared.event.Event.TheVariants as event;
ghost use Rattle.netchange_core.specs.declared.reply.Reply.{Reply as Told};
ghost use Rattle.netchange_core.specs.Calls.{carried};
ghost use Rattle.netchange_core.specs.OpeningView.{OpeningView};
ghost use Rattle.netchange_core.specs.World.{holder};
ghost use Rattle.route_history.specs.declared.entry.Entry.{Entry as Pair};
ghost use Rattle.route_history.specs.History.{IsLegal, world_of};

/// A writer never sleeps while something waits: where each entry of a legal history is noted, and nothing may wait for a node, its queue is
/// empty.
pub fn no_queue_is_overlooked()
    ensures { (opening : OpeningView) (es : List Pair) (k changed : ℕ) (w : Noted) → IsLegal opening es → AreNoted k changed w es →
        WasEmptied opening k es w.emptied → waits changed w ≡ false → queue_of (world_of opening es) k ≡ [] }
{}

/// A note does to an entry what the law above asks, and undoes no other note, in whatever order they come: one that a distance changed
/// (`all`), one that something was queued for a node (`node`), and one that a Take of the node's session emptied its queue (`emptied`).
pub fn notes_add_up()
    ensures all { (b : LinkStatesView) (at : ℕ) (reply : Told) → tells_all reply ≡ true → at < (noted at reply b).changed }
    ensures node { (at : ℕ) (w : Noted) → at < (queued_at at w).queued }
    ensures emptied { (opening : OpeningView) (k session most : ℕ) (es before rest : List Pair) (last : Pair) (w : Noted) →
        es ≡ before ++ last ∷ rest → last.event ≡ event.Take session most → holder (world_of opening before) session ≡ Some k →
        WasEmptied opening k es w.emptied → WasEmptied opening k es (taken_at (length before) (length (carried last.reply)) most w).emptied }
    ensures kept_by_all { (b : LinkStatesView) (at k other : ℕ) (reply : Told) (w : Noted) (e : Pair) → IsNoted k b.changed w other e →
        IsNoted k (noted at reply b).changed w other e }
    ensures kept_by_node { (at k changed other : ℕ) (w : Noted) (e : Pair) → IsNoted k changed w other e →
        IsNoted k changed (queued_at at w) other e }
    ensures kept_by_take { (at taken most k changed other : ℕ) (w : Noted) (e : Pair) → IsNoted k changed w other e →
        IsNoted k changed (taken_at at taken most w) other e }
{}
