//! Laws of order: a domain is in order from its opening, and stays so, whatever happens in it.
//!
//! **A domain in order has links at both ends**, and the laws on rest are about such domains. What happens while the ends of a link differ is
//! another, weaker definition, `IsOrderly`, of each direction by itself. A direction that lost something says nothing any more until its sender
//! comes up anew, and its receiver knows nothing of a node that is not up: these two keep it through each event of one end. `IsWhole` leads from
//! the one to the other. One weaker definition for all would have put its premise on each law of rest.

ghost use Rattle.std.specs.Prelude.{◌≡◌, ℕ, ◌<◌, List, true};
ghost use Rattle.std.specs.declared.sync.Arc.{Arc};
ghost use Rattle.std.proofs.Common.{Global};
ghost use Rattle.filter_verifier.specs.VerifiedView.{VerifiedView};
ghost use Rattle.netchange_core.specs.declared.event.Event.TheVariants as event;
ghost use Rattle.netchange_core.specs.declared.message.Message.{Message};
ghost use Rattle.netchange_core.specs.OpeningView.{OpeningView};
ghost use Rattle.routing_domain.specs.Domain.{AreOpenings, Domain, IsInOrder, IsSame, are_linked, opened_domain};
ghost use Rattle.routing_domain.specs.Events.{CanLink, cuts, enters, links};
ghost use Rattle.routing_domain.specs.Runs.{DropsOne};
ghost use Rattle.routing_domain.specs.Steps.{IsNext, receives, sends};

/// A domain of routers that were just opened, without links, is in order.
pub fn opened_domain_is_in_order()
    ensures order { (n : ℕ) → (openings : ℕ → OpeningView) → AreOpenings n openings → IsInOrder (opened_domain n openings) }
{}

/// Order is of the routers below the size alone, so it holds of a domain however it is written.
pub fn same_domain_is_in_order()
    ensures order { (d e : Domain) → IsSame d e → IsInOrder d → IsInOrder e }
{}

/// Sending and receiving keep a domain in order, and so does a link that leaves out a message that a later one about the same node follows.
pub fn steps_keep_order()
    ensures receives { (d : Domain) → (u w : ℕ) → (m : Message) → (rest : List Message) → IsInOrder d → IsNext d u w m rest → IsInOrder (receives d u w m rest) }
    ensures sends { (d : Domain) → (u w max : ℕ) → IsInOrder d → u < d.size → w < d.size → IsInOrder (sends d u w max) }
    ensures drops { (d e : Domain) → IsInOrder d → DropsOne d e → IsInOrder e }
{}

/// A link that comes up at both ends keeps a domain in order.
pub fn linking_keeps_order()
    ensures order { (d : Domain) → (u w : ℕ) → IsInOrder d → CanLink d u w → IsInOrder (links d u w) }
{}

/// A link that goes down at both ends, and loses what is on its way, keeps a domain in order.
pub fn cutting_keeps_order()
    ensures order { (d : Domain) → (u w : ℕ) → IsInOrder d → u < d.size → w < d.size → are_linked d u w ≡ true → IsInOrder (cuts d u w) }
{}

/// New filters and looks keep a domain in order, whether they are refused or not.
pub fn events_keep_order()
    ensures set_import { (d : Domain) → (u w : ℕ) → (f : Arc VerifiedView Global) → IsInOrder d → u < d.size → IsInOrder (enters d u (event.SetImport w f)) }
    ensures set_export { (d : Domain) → (u w : ℕ) → (f : Arc VerifiedView Global) → IsInOrder d → u < d.size → IsInOrder (enters d u (event.SetExport w f)) }
    ensures show { (d : Domain) → (u v : ℕ) → IsInOrder d → IsInOrder (enters d u (event.Show v)) }
{}
