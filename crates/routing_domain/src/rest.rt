//! Laws of domains at rest.
//!
//! **A law speaks of the routers' own next hops**, beside those on distances: `via` is what forwards. That a tie goes to the neighbour of the least
//! number is in it, so that a plan and the routers choose alike.

ghost use Rattle.std.specs.Prelude.{◌≡◌, ℕ, ◌<◌, ◌≤◌, None, true, []};
ghost use Rattle.netchange_core.specs.Best.{best, distance};
ghost use Rattle.routing_domain.specs.Domain.{Domain, IsInOrder, IsQuiet, are_linked, neighbour, topology};
ghost use Rattle.routing_domain.specs.Rest.{IsRest, LeadsThrough, NeverNearer, Topology};
ghost use Rattle.routing_domain.specs.Ways.{Arrives, Forwards, GoesVia, IsPath, IsPlain};

/// Where no filter makes a distance less, two states of rest of one topology have the same distances.
pub fn only_one_rest()
    ensures alone { (m : Topology) → NeverNearer m → (to : ℕ) → (a b : ℕ → ℕ) → IsRest m to a → IsRest m to b → (u : ℕ) → u < m.size → a u ≡ b u }
{}

/// At rest, whoever a route leads through is strictly nearer to the destination.
pub fn no_loop_at_rest()
    ensures nearer { (m : Topology) → NeverNearer m → (to : ℕ) → (a : ℕ → ℕ) → IsRest m to a → (u w : ℕ) → u < m.size →
        LeadsThrough m to a u w → a w < a u }
{}

/// At rest, some way along routes from a node that is reached arrives, in at most as many hops as its distance; and since each hop is
/// nearer, each other way does too.
pub fn routes_arrive()
    ensures arrives { (m : Topology) → NeverNearer m → (to : ℕ) → (a : ℕ → ℕ) → IsRest m to a → (u : ℕ) → u < m.size → a u < m.size →
        (k : ℕ) × (k ≤ a u) × Arrives m to a k u }
{}

/// Without filters a distance at rest is the fewest links to the destination, where there is a way.
pub fn plain_routes_are_shortest()
    ensures plain { (d : Domain) → ((u w : ℕ) → u < d.size → w < d.size → ((neighbour d u w).imports ≡ None) × ((neighbour d u w).exports ≡ None)) →
        (v : ℕ) → IsPlain (topology d v) }
    ensures shortest { (m : Topology) → IsPlain m → (to : ℕ) → (a : ℕ → ℕ) → IsRest m to a → (k u : ℕ) → u < m.size → IsPath m to k u → a u ≤ k }
    ensures path { (m : Topology) → IsPlain m → (to : ℕ) → (a : ℕ → ℕ) → IsRest m to a → (u : ℕ) → u < m.size → a u < m.size →
        IsPath m to (a u) u }
{}

/// A domain in order in which nothing waits and nothing is on its way is at rest, and each router's next hop is the first through which
/// its route leads.
pub fn quiet_is_rest()
    ensures rest { (d : Domain) → IsInOrder d → IsQuiet d → (v : ℕ) → v < d.size →
        IsRest (topology d v) v (λ u. distance (d.router u) v) }
    ensures vias { (d : Domain) → IsInOrder d → IsQuiet d → (v : ℕ) → v < d.size → (u : ℕ) → u < d.size →
        GoesVia (topology d v) v (λ x. distance (d.router x) v) u (best (d.router u) v).via }
{}

/// In a quiet domain in order there is no loop: what each router hands to the next hop of its own best route comes to the destination, in
/// at most as many hops as the distance of the first.
pub fn quiet_routers_forward()
    ensures forwards { (d : Domain) → IsInOrder d → IsQuiet d → (v : ℕ) → v < d.size → (u : ℕ) → u < d.size → distance (d.router u) v < d.size →
        (k : ℕ) × (k ≤ distance (d.router u) v) × Forwards d v k u }
{}

/// In a domain in order, nothing waits and nothing is on its way where there is no link. So it is quiet if that is so of the links.
pub fn quiet_where_linked_is_quiet()
    ensures quiet { (d : Domain) → IsInOrder d →
        ((u w : ℕ) → u < d.size → w < d.size → are_linked d u w ≡ true → (neighbour d u w).queue ≡ []) →
        ((u w : ℕ) → u < d.size → w < d.size → are_linked d u w ≡ true → d.flight u w ≡ []) → IsQuiet d }
{}

/// Filters make no distance less, so all this holds of each domain in order, whatever its filters are.
pub fn filters_never_bring_nearer()
    ensures farther { (d : Domain) → IsInOrder d → (v : ℕ) → NeverNearer (topology d v) }
{}
