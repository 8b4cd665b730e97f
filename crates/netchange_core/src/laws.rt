//! What the definitions mean, in Tel's words: laws that hold whatever the code does.

ghost use Rattle.std.specs.Prelude.{◌≡◌, ◌≢◌, ℕ, length};
ghost use Rattle.netchange_core.specs.declared.best_route.BestRoute.{BestRoute};
ghost use Rattle.netchange_core.specs.declared.event.Event.{Event};
ghost use Rattle.netchange_core.specs.declared.reply.Via.TheVariants.{Local};
ghost use Rattle.netchange_core.specs.Best.{best, neighbour_distances, route_of};
ghost use Rattle.netchange_core.specs.Calls.{opened};
ghost use Rattle.netchange_core.specs.Consistent.{IsConsistent};
ghost use Rattle.netchange_core.specs.Leading.{Leads};
ghost use Rattle.netchange_core.specs.Next.{next};
ghost use Rattle.netchange_core.specs.OpeningView.{IsOpening, OpeningView};
ghost use Rattle.netchange_core.specs.World.{World};

/// The best route to the router's own node is local, at distance 0. The best route to any other node leads through the nearest
/// neighbour, of several the least, at one more than that neighbour's distance; where that is not below the size there is no
/// route. And a route of which this holds is the best route.
pub fn best_route_leads()
    ensures own { (w : World) → best w w.opening.me ≡ route_of 0 Local }
    ensures leads { (w : World) → (v : ℕ) → v ≢ w.opening.me →
        Leads w.opening.size (length (neighbour_distances w v)) (neighbour_distances w v) (best w v) }
    ensures alone { (w : World) → (v : ℕ) → v ≢ w.opening.me → (route : BestRoute) →
        Leads w.opening.size (length (neighbour_distances w v)) (neighbour_distances w v) route → route ≡ best w v }
{}

/// Each world that is reached from an opening is consistent, so a router can be restored to it: the world of an opening is
/// consistent, and each event leaves a consistent world so.
fn reached_worlds_are_consistent()
    ensures opened { (o : OpeningView) → IsOpening o → IsConsistent (opened o) }
    ensures next { (w : World) (e : Event) → IsConsistent w → IsConsistent (next w e).world }
{}
