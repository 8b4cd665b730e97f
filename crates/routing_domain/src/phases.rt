//! Laws of phases: when distances are right.

ghost use Rattle.std.specs.Prelude.{◌≡◌, ◌⊎◌, ℕ, suc, ◌<◌, ◌≤◌, List, length, take, true};
ghost use Rattle.netchange_core.specs.Best.{best, distance};
ghost use Rattle.netchange_core.specs.declared.message.Message.{Message};
ghost use Rattle.routing_domain.specs.Domain.{Domain, IsInOrder, IsQuiet, are_linked, imported, neighbour, topology};
ghost use Rattle.routing_domain.specs.Network.{IsOrderly, IsWhole, Network, gets, hands};
ghost use Rattle.routing_domain.specs.Phases.{AreWithin, CountsUpTo, IsPhase, Phases};
ghost use Rattle.routing_domain.specs.Rest.{IsRest};
ghost use Rattle.routing_domain.specs.Runs.{ReceivesOne, Runs, SendsSome};
ghost use Rattle.routing_domain.specs.Steps.{IsNext};
ghost use Rattle.routing_domain.specs.Ways.{Forwards, GoesVia};

/// After so many phases, from any state in order, in whatever order messages are sent and received and whatever the filters are, each
/// node that is at most so far from the destination at rest has that distance and the next hop of rest, and keeps them while nothing
/// else happens; what it forwards arrives, in at most as many hops; and each other node is farther than that.
pub fn near_routes_are_right_first()
    ensures distance { (j : ℕ) → (d e : Domain) → IsInOrder d → Phases j d e → (v : ℕ) → v < d.size → (a : ℕ → ℕ) → IsRest (topology d v) v a →
        (u : ℕ) → u < d.size → a u ≤ j → distance (e.router u) v ≡ a u }
    ensures farther { (j : ℕ) → (d e : Domain) → IsInOrder d → Phases j d e → (v : ℕ) → v < d.size → (a : ℕ → ℕ) → IsRest (topology d v) v a →
        (u : ℕ) → u < d.size → j < a u → j < distance (e.router u) v }
    ensures via { (j : ℕ) → (d e : Domain) → IsInOrder d → Phases j d e → (v : ℕ) → v < d.size → (a : ℕ → ℕ) → IsRest (topology d v) v a →
        (u : ℕ) → u < d.size → a u ≤ j → GoesVia (topology d v) v a u (best (e.router u) v).via }
    ensures forwards { (j : ℕ) → (d e : Domain) → IsInOrder d → Phases j d e → (v : ℕ) → v < d.size → (a : ℕ → ℕ) → IsRest (topology d v) v a →
        (u : ℕ) → u < d.size → a u ≤ j → a u < d.size → (h : ℕ) × (h ≤ a u) × Forwards e v h u }
{}

/// After as many phases as there are nodes a domain is quiet; and so it is after one phase more than the longest distance at rest.
pub fn domains_rest_after_phases()
    ensures soon { (j : ℕ) → (d e : Domain) → IsInOrder d → AreWithin j d → Phases (suc j) d e → IsQuiet e }
    ensures quiet { (d e : Domain) → IsInOrder d → Phases d.size d e → IsQuiet e }
{}

/// What is out of reach is known to be so once distances have counted up to a bound. Where they count up to no more than the bound towards a
/// destination, each distance to it is that of rest after as many phases. Where that is so of all destinations, everything is quiet after one
/// phase more. A limit in the import filters gives such a bound, one more than itself, if at both ends of each link they let nothing through
/// beyond it.
pub fn limits_end_counting()
    ensures right { (j : ℕ) → (d e : Domain) → IsInOrder d → Phases j d e → (v : ℕ) → v < d.size → (a : ℕ → ℕ) → IsRest (topology d v) v a →
        CountsUpTo j d v a → (u : ℕ) → u < d.size → distance (e.router u) v ≡ a u }
    ensures quiet { (j : ℕ) → (d e : Domain) → IsInOrder d →
        ((v : ℕ) → v < d.size → (a : ℕ → ℕ) → IsRest (topology d v) v a → CountsUpTo j d v a) → Phases (suc j) d e → IsQuiet e }
    ensures limited { (limit : ℕ) → (d : Domain) → (v : ℕ) → IsInOrder d →
        ((u w x : ℕ) → u < d.size → w < d.size → are_linked d u w ≡ true → x ≤ d.size → (imported d u w v x ≤ limit) ⊎ (imported d u w v x ≡ d.size)) →
        (a : ℕ → ℕ) → IsRest (topology d v) v a → CountsUpTo (suc limit) d v a }
{}

/// A phase can always be had: each run that ends quiet is one, and there is one.
pub fn phases_end()
    ensures quiet { (k : ℕ) → (d e : Domain) → IsInOrder d → Runs k d e → IsQuiet e → IsPhase d e }
    ensures phase { (d : Domain) → IsInOrder d → (e : Domain) × IsPhase d e }
{}

/// A whole network that is left alone stays whole, and what its nodes hand over and get are steps of its domain; so all this holds of it.
pub fn whole_networks_run_as_domains()
    ensures hands { (n : Network) → (u w max : ℕ) → IsOrderly n → IsWhole n → u < n.domain.size → w < n.domain.size →
        0 < length (take max (neighbour n.domain u w).queue) → (SendsSome n.domain (hands n u w max).domain) × (IsWhole (hands n u w max)) }
    ensures gets { (n : Network) → (u w : ℕ) → (m : Message) → (rest : List Message) → IsOrderly n → IsWhole n → IsNext n.domain u w m rest →
        (ReceivesOne n.domain (gets n u w m rest).domain) × (IsWhole (gets n u w m rest)) }
{}
