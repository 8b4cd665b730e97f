//! Laws of what happens far away.

ghost use Rattle.std.specs.Prelude.{◌≡◌, ℕ, ◌<◌, ◌≤◌};
ghost use Rattle.netchange_core.specs.Best.{best, distance};
ghost use Rattle.netchange_core.specs.declared.reply.Via.{Via};
ghost use Rattle.routing_domain.specs.Domain.{Domain, IsInOrder, topology};
ghost use Rattle.routing_domain.specs.Failures.{AreOneBelow, HappenAll, IsLoose, Loose, with_all, with_none};
ghost use Rattle.routing_domain.specs.Network.{IsOrderly, IsWhole, Network};
ghost use Rattle.routing_domain.specs.Phases.{Phases};
ghost use Rattle.routing_domain.specs.Rest.{IsRest};
ghost use Rattle.routing_domain.specs.Ways.{GoesVia};

/// What happens far away touches no near route. Some links may come and go at either end, filters on some of them may be replaced, and
/// routers that have only such links may end and be opened anew; any direction may lose messages. Of a whole network that was left alone for
/// as many phases as a bound, take a destination whose distances at rest are one below that bound with all these links (without filters
/// where these may be replaced) and with none of them. Then, whatever of that happens and in whatever order, each distance below the bound stays
/// what it is, and so does each next hop there that is the same with all of them and with none.
pub fn far_failures_touch_no_near_route()
    ensures distance { (n m : Network) → (k : ℕ) → (d : Domain) → (loose : Loose) → (v : ℕ) → (a b : ℕ → ℕ) → IsOrderly n → IsWhole n → k ≤ n.domain.size →
        IsInOrder d → Phases k d n.domain → IsLoose loose → v < n.domain.size →
        IsRest (with_all (topology n.domain v) loose) v a → IsRest (with_none (topology n.domain v) loose) v b → AreOneBelow n.domain.size k a b →
        (j : ℕ) → HappenAll j loose n m → (u : ℕ) → u < n.domain.size → a u < k → distance (m.domain.router u) v ≡ a u }
    ensures via { (n m : Network) → (k : ℕ) → (d : Domain) → (loose : Loose) → (v : ℕ) → (a b : ℕ → ℕ) → IsOrderly n → IsWhole n → k ≤ n.domain.size →
        IsInOrder d → Phases k d n.domain → IsLoose loose → v < n.domain.size →
        IsRest (with_all (topology n.domain v) loose) v a → IsRest (with_none (topology n.domain v) loose) v b → AreOneBelow n.domain.size k a b →
        (j : ℕ) → HappenAll j loose n m → (u : ℕ) → u < n.domain.size → a u < k → (hop : Via) →
        GoesVia (with_all (topology n.domain v) loose) v a u hop → GoesVia (with_none (topology n.domain v) loose) v b u hop →
        (best (m.domain.router u) v).via ≡ hop }
{}
