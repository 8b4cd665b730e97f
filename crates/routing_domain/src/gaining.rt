//! Laws of domains that gain links and lose none.

ghost use Rattle.std.specs.Prelude.{◌≡◌, ℕ, ◌<◌, ◌≤◌};
ghost use Rattle.netchange_core.specs.Best.{distance};
ghost use Rattle.routing_domain.specs.Domain.{Domain, IsInOrder, IsQuiet, topology};
ghost use Rattle.routing_domain.specs.Gains.{Gains, KeepsOrder};
ghost use Rattle.routing_domain.specs.Rest.{Topology};
ghost use Rattle.routing_domain.specs.Ways.{Forwards, IsPlain};

/// Where filters keep order, a domain that was quiet and only gains links brings no destination farther from any node, in whatever order
/// links come up and messages are sent, received and left out; and at each moment what a node with a route forwards arrives, in at most
/// as many hops as the node's distance. So there is no loop, not even before the domain comes to rest.
pub fn new_links_raise_no_distance()
    ensures falls { (j k : ℕ) → (d e f : Domain) → IsInOrder d → IsQuiet d → Gains j d e → Gains k e f → (v : ℕ) → v < d.size →
        KeepsOrder (topology d v) → (u : ℕ) → u < d.size → distance (f.router u) v ≤ distance (e.router u) v }
    ensures forwards { (k : ℕ) → (d e : Domain) → IsInOrder d → IsQuiet d → Gains k d e → (v : ℕ) → v < d.size → KeepsOrder (topology d v) →
        (u : ℕ) → u < d.size → distance (e.router u) v < d.size → (h : ℕ) × (h ≤ distance (e.router u) v) × Forwards e v h u }
    ensures order { (k : ℕ) → (d e : Domain) → IsInOrder d → IsQuiet d → Gains k d e → (v : ℕ) → v < d.size → KeepsOrder (topology d v) →
        IsInOrder e }
{}

/// Without filters order is kept.
pub fn plain_links_keep_order()
    ensures plain { (m : Topology) → IsPlain m → KeepsOrder m }
{}
