//! Laws of topologies: what there is between the nodes, after a step or an event.
//!
//! **What is on its way is a list for each direction**, and Down at the receiver empties it, as a stream that is closed. Up at the sender does too:
//! a new session has a new stream. What was sent before a failure may still come in, as from the buffers of a system.

ghost use Rattle.std.specs.Prelude.{◌≡◌, ◌≢◌, ℕ, ◌<◌, Some, List, true};
ghost use Rattle.std.specs.declared.sync.Arc.{Arc};
ghost use Rattle.std.proofs.Common.{Global};
ghost use Rattle.filter_verifier.specs.VerifiedView.{VerifiedView};
ghost use Rattle.netchange_core.specs.declared.event.Event.TheVariants as event;
ghost use Rattle.netchange_core.specs.declared.message.Message.{Message};
ghost use Rattle.netchange_core.specs.FilteredDistance.{filtered_distance};
ghost use Rattle.routing_domain.specs.Changes.{with_link, with_filtered, without_link};
ghost use Rattle.routing_domain.specs.Domain.{Domain, IsInOrder, KeepsLinksAndFilters, are_linked, exported, imported, topology};
ghost use Rattle.routing_domain.specs.Events.{CanLink, cuts, enters, links};
ghost use Rattle.routing_domain.specs.Runs.{DropsOne, Runs};
ghost use Rattle.routing_domain.specs.Steps.{receives, sends};

/// Sending and receiving change nothing between nodes: no link, and neither the import filter nor the export filter of any; nor does a
/// message that is left out, nor a run of all that. So the topology stays, to each destination.
pub fn steps_keep_topology()
    ensures receives { (d : Domain) → (u w : ℕ) → (m : Message) → (rest : List Message) → KeepsLinksAndFilters d (receives d u w m rest) }
    ensures sends { (d : Domain) → (u w max : ℕ) → KeepsLinksAndFilters d (sends d u w max) }
    ensures drops { (d e : Domain) → DropsOne d e → KeepsLinksAndFilters d e }
    ensures runs { (k : ℕ) → (d e : Domain) → Runs k d e → KeepsLinksAndFilters d e }
    ensures topology { (d e : Domain) → KeepsLinksAndFilters d e → (v : ℕ) → topology e v ≡ topology d v }
{}

/// Linking adds a link, cutting takes it away, and a new filter is another filter at one end of it.
pub fn events_change_topology()
    ensures link { (d : Domain) → (u w v : ℕ) → IsInOrder d → CanLink d u w → topology (links d u w) v ≡ with_link (topology d v) u w }
    ensures cut { (d : Domain) → (u w v : ℕ) → IsInOrder d → u < d.size → w < d.size → are_linked d u w ≡ true →
        topology (cuts d u w) v ≡ without_link (topology d v) u w }
    ensures set_import { (d : Domain) → (u w v : ℕ) → (f : Arc VerifiedView Global) → IsInOrder d → u < d.size → w < d.size → u ≢ w → f.value.size ≡ d.size →
        topology (enters d u (event.SetImport w f)) v
        ≡ with_filtered (topology d v) u w (λ x. filtered_distance (d.router u).opening (Some f.value) v (exported d w u v x)) }
    ensures set_export { (d : Domain) → (u w v : ℕ) → (f : Arc VerifiedView Global) → IsInOrder d → u < d.size → w < d.size → u ≢ w → f.value.size ≡ d.size →
        topology (enters d u (event.SetExport w f)) v
        ≡ with_filtered (topology d v) w u (λ x. imported d w u v (filtered_distance (d.router u).opening (Some f.value) v x)) }
{}
