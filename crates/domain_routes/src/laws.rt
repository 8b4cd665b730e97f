//! What plans and their routes come to: laws that hold whatever the code does.

ghost use Rattle.std.specs.Prelude.{◌≡◌, ◌≢◌, ℕ, ◌+◌, ◌<◌, ◌≤◌, ◌==◌, ◌&&◌, ◌||◌, if◌then◌else◌, Bool, List, length, true, false};
ghost use Rattle.domain_routes.specs.declared.best.Best.{Best};
ghost use Rattle.domain_routes.specs.Edits.{exporting, importing, linking, put, unlinked};
ghost use Rattle.domain_routes.specs.OfDomain.{IsPlanOf};
ghost use Rattle.domain_routes.specs.PlanView.{IsPlan, PeerView, PlanView, is_linked, peer};
ghost use Rattle.domain_routes.specs.Reach.{greatest, phases_to_rest};
ghost use Rattle.domain_routes.specs.Routes.{AreRoutes, route_at};
ghost use Rattle.domain_routes.specs.Still.{BetweenView, IsSince, StaysBetween, after_anew, after_filter, after_link, loose_between, one_below};
ghost use Rattle.domain_routes.specs.Still.{still_between, unchanged};
ghost use Rattle.netchange_core.specs.Best.{best, distance};
ghost use Rattle.domain_routes.specs.Topology.{topology};
ghost use Rattle.std.proofs.Common.{Global};
ghost use Rattle.std.specs.declared.sync.Arc.{Arc};
ghost use Rattle.filter_verifier.specs.VerifiedView.{VerifiedView};
ghost use Rattle.netchange_core.specs.declared.event.Event.TheVariants as event;
ghost use Rattle.netchange_core.specs.declared.message.Message.{Message};
ghost use Rattle.netchange_core.specs.OpeningView.{OpeningView};
ghost use Rattle.routing_domain.specs.Domain.{AreOpenings, Domain, IsInOrder, IsQuiet, are_linked, opened_domain, topology as domain_topology};
ghost use Rattle.routing_domain.specs.Events.{CanLink, cuts, enters, links};
ghost use Rattle.routing_domain.specs.Failures.{AreOneBelow, HappenAll};
ghost use Rattle.routing_domain.specs.Network.{IsOrderly, IsWhole, Network};
ghost use Rattle.routing_domain.specs.Phases.{AreWithin, Phases};
ghost use Rattle.routing_domain.specs.Rest.{IsRest};
ghost use Rattle.routing_domain.specs.Runs.{Runs};
ghost use Rattle.routing_domain.specs.Steps.{receives, sends};

/// What one node has for another is changed for these two alone, and a link in both directions.
pub fn edits_change_one_place()
    ensures put { (p : PlanView) → (u w : ℕ) → (c : PeerView) → IsPlan p → u < p.size → w < p.size → (x y : ℕ) →
        peer (put u w c p) x y ≡ (if (x == u) && (y == w) then c else peer p x y) }
    ensures link { (p : PlanView) → (u w : ℕ) → (linked : Bool) → IsPlan p → u < p.size → w < p.size → u ≢ w → (x y : ℕ) →
        is_linked (linking linked u w p) x y
        ≡ (if ((x == u) && (y == w)) || ((x == w) && (y == u)) then linked else is_linked p x y) }
{}

/// What is at rest in the topology of a plan is at rest in a domain whose routers have its links and filters.
pub fn rest_is_of_the_domain()
    ensures rest { (d : Domain) → (p : PlanView) → IsPlanOf d p → (v : ℕ) → (dist : ℕ → ℕ) →
        IsRest (topology p v) v dist → IsRest (domain_topology d v) v dist }
{}

/// Routers that were just opened have the links and filters of a plan without any. They have those of a plan after an edit of it when
/// they did the same: a link that comes up at both ends, or goes down, and a new filter. Messages change nothing of that, so after any
/// run they still have them.
pub fn domains_follow_plans()
    ensures opened { (prefixes : List (List Bool)) → (openings : ℕ → OpeningView) → AreOpenings (length prefixes) openings →
        ((u : ℕ) → u < length prefixes → (openings u).prefixes ≡ prefixes) → IsPlanOf (opened_domain (length prefixes) openings) (unlinked prefixes) }
    ensures link { (d : Domain) → (p : PlanView) → (u w : ℕ) → IsInOrder d → IsPlanOf d p → IsPlan p → CanLink d u w →
        IsPlanOf (links d u w) (linking true u w p) }
    ensures cut { (d : Domain) → (p : PlanView) → (u w : ℕ) → IsInOrder d → IsPlanOf d p → IsPlan p → u < d.size → w < d.size → are_linked d u w ≡ true →
        IsPlanOf (cuts d u w) (linking false u w p) }
    ensures import { (d : Domain) → (p : PlanView) → (u w : ℕ) → (f : Arc VerifiedView Global) → IsInOrder d → IsPlanOf d p → IsPlan p → u < d.size → w < d.size →
        u ≢ w → f.value.size ≡ d.size → IsPlanOf (enters d u (event.SetImport w f)) (importing f.value u w p) }
    ensures export { (d : Domain) → (p : PlanView) → (u w : ℕ) → (f : Arc VerifiedView Global) → IsInOrder d → IsPlanOf d p → IsPlan p → u < d.size → w < d.size →
        u ≢ w → f.value.size ≡ d.size → IsPlanOf (enters d u (event.SetExport w f)) (exporting f.value u w p) }
    ensures sends { (d : Domain) → (p : PlanView) → (u w max : ℕ) → IsPlanOf d p → IsPlanOf (sends d u w max) p }
    ensures receives { (d : Domain) → (p : PlanView) → (u w : ℕ) → (m : Message) → (rest : List Message) → IsPlanOf d p → IsPlanOf (receives d u w m rest) p }
    ensures runs { (k : ℕ) → (d e : Domain) → (p : PlanView) → IsPlanOf d p → Runs k d e → IsPlanOf e p }
{}

/// A plan has just one list of routes to a node.
pub fn routes_are_one()
    ensures alone { (p : PlanView) → (v : ℕ) → (a b : List Best) →
        AreRoutes (topology p v) v a → AreRoutes (topology p v) v b → a ≡ b }
{}

/// When a domain in order with the links and filters of a plan is quiet, its routers have the plan's routes: the distances, and the next
/// hops.
pub fn quiet_routers_have_the_routes()
    ensures distances { (d : Domain) → (p : PlanView) → IsInOrder d → IsQuiet d → IsPlanOf d p → (v : ℕ) → v < p.size → (routes : List Best) →
        AreRoutes (topology p v) v routes → (u : ℕ) → u < p.size → (route_at p.size routes u).dist ≡ distance (d.router u) v }
    ensures vias { (d : Domain) → (p : PlanView) → IsInOrder d → IsQuiet d → IsPlanOf d p → (v : ℕ) → v < p.size → (routes : List Best) →
        AreRoutes (topology p v) v routes → (u : ℕ) → u < p.size → (route_at p.size routes u).via ≡ (best (d.router u) v).via }
{}

/// How far the routes of a plan go says how soon a domain in order with its links and filters is quiet, whatever was routed before.
pub fn reach_bounds_phases()
    ensures within { (d : Domain) → (p : PlanView) → (all : ℕ → List Best) → IsInOrder d → IsPlanOf d p →
        ((v : ℕ) → v < p.size → AreRoutes (topology p v) v (all v)) → AreWithin (greatest p.size (p.size + 1) (λ v u. (route_at p.size (all v) u).dist)) d }
    ensures quiet { (d e : Domain) → (p : PlanView) → (all : ℕ → List Best) → IsInOrder d → IsPlanOf d p →
        ((v : ℕ) → v < p.size → AreRoutes (topology p v) v (all v)) →
        Phases (phases_to_rest p.size (λ v u. (route_at p.size (all v) u).dist)) d e → IsQuiet e }
{}

/// A plan stays between two others, whatever is done to it: links are made and cut, filters are set, and nodes begin anew; and so does the plan as it
/// was at first.
pub fn plans_stay_between()
    ensures begins { (p : PlanView) → IsPlan p → StaysBetween (unchanged p) p p }
    ensures link { (b : BetweenView) → (linked : Bool) → (p q : PlanView) → (u w : ℕ) → StaysBetween b p q → IsPlan q → u < q.size → w < q.size → u ≢ w →
        StaysBetween (after_link u w b) p (linking linked u w q) }
    ensures import { (b : BetweenView) → (f : VerifiedView) → (p q : PlanView) → (u w : ℕ) → StaysBetween b p q → IsPlan q → u < q.size → w < q.size → u ≢ w →
        StaysBetween (after_filter u w b) p (importing f u w q) }
    ensures export { (b : BetweenView) → (f : VerifiedView) → (p q : PlanView) → (u w : ℕ) → StaysBetween b p q → IsPlan q → u < q.size → w < q.size → u ≢ w →
        StaysBetween (after_filter u w b) p (exporting f w u q) }
    ensures anew { (b : BetweenView) → (p q : PlanView) → (u : ℕ) → StaysBetween b p q → IsPlan q → u < q.size → StaysBetween (after_anew q u b) p q }
{}

/// What is near stands still. Take the routes to a destination in the two plans between which a plan stayed since a moment. There is a greatest bound
/// below which their distances are one. A network with the links and filters of the plan as it was, that was left alone for as many phases, keeps each
/// distance below the bound, whichever links come up and go down from then on that the greatest plan alone has, at either end, whichever filters are
/// replaced on those of them on which that one has none, and whatever messages are lost; and each next hop there that both plans have.
pub fn what_is_near_stands_still()
    ensures one { (size : ℕ) → (a b : ℕ → ℕ) → AreOneBelow size (one_below size a b) a b }
    ensures greatest { (size k : ℕ) → (a b : ℕ → ℕ) → k ≤ size → AreOneBelow size k a b → k ≤ one_below size a b }
    ensures distance { (b : BetweenView) → (p : PlanView) → IsPlan b.most → IsPlan b.least → IsSince b p → (v : ℕ) → v < p.size → (most least : List Best) →
        AreRoutes (topology b.most v) v most → AreRoutes (topology b.least v) v least → (n m : Network) → IsOrderly n → IsWhole n → IsPlanOf n.domain p →
        (d : Domain) → IsInOrder d → Phases (still_between b most least) d n.domain → (j : ℕ) → HappenAll j (loose_between b) n m → (u : ℕ) → u < p.size →
        (route_at b.most.size most u).dist < still_between b most least → distance (m.domain.router u) v ≡ (route_at b.most.size most u).dist }
    ensures via { (b : BetweenView) → (p : PlanView) → IsPlan b.most → IsPlan b.least → IsSince b p → (v : ℕ) → v < p.size → (most least : List Best) →
        AreRoutes (topology b.most v) v most → AreRoutes (topology b.least v) v least → (n m : Network) → IsOrderly n → IsWhole n → IsPlanOf n.domain p →
        (d : Domain) → IsInOrder d → Phases (still_between b most least) d n.domain → (j : ℕ) → HappenAll j (loose_between b) n m → (u : ℕ) → u < p.size →
        (route_at b.most.size most u).dist < still_between b most least → (route_at b.most.size most u).via ≡ (route_at b.least.size least u).via →
        (best (m.domain.router u) v).via ≡ (route_at b.most.size most u).via }
{}
