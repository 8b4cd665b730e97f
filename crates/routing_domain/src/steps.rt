//! Laws of steps: they come to an end.

ghost use Rattle.std.specs.Prelude.{◌≡◌, ◌⊎◌, ℕ, ◌+◌, ◌<◌, ◌≤◌, List, length, take};
ghost use Rattle.netchange_core.specs.Best.{best, distance};
ghost use Rattle.netchange_core.specs.declared.message.Message.{Message};
ghost use Rattle.routing_domain.specs.Domain.{Domain, IsInOrder, IsQuiet, IsSame, neighbour, topology};
ghost use Rattle.routing_domain.specs.Rest.{IsRest};
ghost use Rattle.routing_domain.specs.Runs.{DropsOne, ReceivesOne, Runs, SendsSome};
ghost use Rattle.routing_domain.specs.Steps.{IsNext, receives, sends};
ghost use Rattle.routing_domain.specs.Ways.{Forwards, GoesVia};
ghost use Rattle.routing_domain.specs.Weight.{weight};

/// Each sending of a message and each receiving of one makes a domain lighter, and so does a link that leaves one out. So they cannot go
/// on for ever, in whatever order they happen and whatever the filters are.
pub fn steps_come_to_an_end()
    ensures receives { (d : Domain) → (u w : ℕ) → (m : Message) → (rest : List Message) → IsInOrder d → IsNext d u w m rest →
        weight (receives d u w m rest) < weight d }
    ensures sends { (d : Domain) → (u w max : ℕ) → IsInOrder d → u < d.size → w < d.size →
        0 < length (take max (neighbour d u w).queue) → weight (sends d u w max) < weight d }
    ensures drops { (d e : Domain) → DropsOne d e → weight e < weight d }
{}

/// No run of a domain in order has more steps than the domain weighs, whatever steps are taken, and the domain stays in order. While
/// anything waits or is on its way, a step can be taken; so each run that goes on as long as it can ends where nothing does, and one is there.
pub fn domains_come_to_rest()
    ensures short { (k : ℕ) → (d e : Domain) → IsInOrder d → Runs k d e → (IsInOrder e) × (k + weight e ≤ weight d) }
    ensures goes_on { (d : Domain) → IsInOrder d → (IsQuiet d) ⊎ ((e : Domain) × ((ReceivesOne d e) ⊎ (SendsSome d e))) }
    ensures quiet { (d : Domain) → IsInOrder d → (k : ℕ) × (e : Domain) × (Runs k d e) × (IsQuiet e) }
{}

/// Wherever a run ends quiet, in whatever order its steps were taken, it ends in one and the same routing: the distances are those of
/// the one rest in the topology that it began in, each next hop is the first through which a route leads, and following them arrives.
pub fn runs_end_in_one_rest()
    ensures rest { (k : ℕ) → (d e : Domain) → IsInOrder d → Runs k d e → IsQuiet e → (v : ℕ) → v < d.size →
        IsRest (topology d v) v (λ u. distance (e.router u) v) }
    ensures one { (k : ℕ) → (d e : Domain) → IsInOrder d → Runs k d e → IsQuiet e → (v : ℕ) → v < d.size → (a : ℕ → ℕ) → IsRest (topology d v) v a →
        (u : ℕ) → u < d.size → distance (e.router u) v ≡ a u }
    ensures vias { (k : ℕ) → (d e : Domain) → IsInOrder d → Runs k d e → IsQuiet e → (v : ℕ) → v < d.size → (u : ℕ) → u < d.size →
        GoesVia (topology d v) v (λ x. distance (e.router x) v) u (best (e.router u) v).via }
    ensures forwards { (k : ℕ) → (d e : Domain) → IsInOrder d → Runs k d e → IsQuiet e → (v : ℕ) → v < d.size → (u : ℕ) → u < d.size →
        distance (e.router u) v < d.size → (h : ℕ) × (h ≤ distance (e.router u) v) × Forwards e v h u }
{}

/// The weight is of the routers below the size alone, so it is that of a domain however it is written.
pub fn same_domain_weighs_the_same()
    ensures same { (d e : Domain) → IsSame d e → weight e ≡ weight d }
{}
