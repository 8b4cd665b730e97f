//! What the table of a router is, in the subject's words.

ghost use Rattle.std.specs.Prelude.{◌≡◌, ℕ, ◌<◌, Bool, List, None};
ghost use Rattle.netchange_core.specs.Best.{best};
ghost use Rattle.netchange_core.specs.FilteredDistance.{prefix_of};
ghost use Rattle.netchange_core.specs.World.{World};
ghost use Rattle.route_feed.specs.Laws.{IsNearest, IsOutOfReach};
ghost use Rattle.route_feed.specs.Table.{hop_of, table};

/// Packets for a prefix go along the route to the nearest of the nodes that have it, of equally near ones to the least. They go nowhere where none of
/// these can be reached, and where the router itself has the prefix.
pub fn packets_go_to_the_nearest()
    ensures nearest { (w : World) (p : List Bool) (v : ℕ) → IsNearest w p v → table w p ≡ hop_of (best w v) }
    ensures none { (w : World) (p : List Bool) → IsOutOfReach w p → table w p ≡ None }
    ensures own { (w : World) → w.opening.me < w.opening.size → table w (prefix_of w.opening w.opening.me) ≡ None }
{}
