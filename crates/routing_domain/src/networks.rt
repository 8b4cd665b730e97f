//! Laws of networks: they stay orderly while each end of a link acts by itself, and as soon as all links are whole, what is said of
//! domains in order holds.

ghost use Rattle.std.proofs.Common.{Global};
ghost use Rattle.std.specs.Prelude.{◌≡◌, ◌≢◌, ℕ, ◌+◌, ◌<◌, List, Some, take, true};
ghost use Rattle.std.specs.declared.sync.Arc.{Arc};
ghost use Rattle.filter_verifier.specs.VerifiedView.{VerifiedView};
ghost use Rattle.netchange_core.specs.OpeningView.{OpeningView};
ghost use Rattle.netchange_core.specs.declared.event.Event.TheVariants as event;
ghost use Rattle.netchange_core.specs.declared.message.Message.{Message};
ghost use Rattle.netchange_core.specs.declared.reply.Reply.TheVariants as reply;
ghost use Rattle.netchange_core.specs.Next.{answered, next};
ghost use Rattle.routing_domain.specs.Domain.{AreOpenings, IsInOrder, are_linked, neighbour};
ghost use Rattle.routing_domain.specs.Network.{CanComeUp, IsOrderly, IsWhole, Network, comes_up, enters_there, fails, gets, goes_down, hands};
ghost use Rattle.routing_domain.specs.Network.{opened_network, restarts};
ghost use Rattle.routing_domain.specs.Steps.{IsNext};

/// A network of routers that were just opened is orderly.
pub fn opened_network_is_orderly()
    ensures orderly { (n : ℕ) → (openings : ℕ → OpeningView) → AreOpenings n openings → IsOrderly (opened_network n openings) }
{}

/// A network stays orderly when one end of a link comes up or goes down, and when one direction of it fails.
pub fn links_change_at_one_end()
    ensures up { (n : Network) → (u w : ℕ) → IsOrderly n → CanComeUp n.domain u w → IsOrderly (comes_up n u w) }
    ensures down { (n : Network) → (u w : ℕ) → IsOrderly n → u < n.domain.size → w < n.domain.size → are_linked n.domain u w ≡ true →
        IsOrderly (goes_down n u w) }
    ensures fail { (n : Network) → (u w kept : ℕ) → IsOrderly n → u < n.domain.size → w < n.domain.size → IsOrderly (fails n u w kept) }
{}

/// A network stays orderly when messages are sent, also where they are lost, and when one is received.
pub fn steps_keep_networks_orderly()
    ensures hands { (n : Network) → (u w max : ℕ) → IsOrderly n → u < n.domain.size → w < n.domain.size → u ≢ w → IsOrderly (hands n u w max) }
    ensures gets { (n : Network) → (u w : ℕ) → (m : Message) → (rest : List Message) → IsOrderly n → IsNext n.domain u w m rest →
        IsOrderly (gets n u w m rest) }
{}

/// A network stays orderly when a router gets a new filter, whether it is refused or not, and when one ends and is opened anew.
pub fn operators_keep_networks_orderly()
    ensures set_import { (n : Network) → (u w : ℕ) → (f : Arc VerifiedView Global) → IsOrderly n → u < n.domain.size →
        IsOrderly (enters_there n u (event.SetImport w f)) }
    ensures set_export { (n : Network) → (u w : ℕ) → (f : Arc VerifiedView Global) → IsOrderly n → u < n.domain.size →
        IsOrderly (enters_there n u (event.SetExport w f)) }
    ensures restart { (n : Network) → (u : ℕ) → (o : OpeningView) → IsOrderly n → u < n.domain.size → o.size ≡ n.domain.size → o.me ≡ u →
        IsOrderly (restarts n u o) }
{}

/// All that a network does is events of its routers, in their present sessions, and none of these is refused: Up, Down, Take and Receive.
pub fn networks_change_by_events()
    ensures up { (n : Network) → (u w : ℕ) → IsOrderly n → CanComeUp n.domain u w →
        next (n.domain.router u) (event.Up w) ≡ answered ((comes_up n u w).domain.router u) (reply.Opened ((n.domain.router u).sessions + 1)) }
    ensures down { (n : Network) → (u w s : ℕ) → IsOrderly n → u < n.domain.size → w < n.domain.size → (neighbour n.domain u w).session ≡ Some s →
        (changed : ℕ) × (next (n.domain.router u) (event.Down s) ≡ answered ((goes_down n u w).domain.router u) (reply.Done changed)) }
    ensures take { (n : Network) → (u w max s : ℕ) → IsOrderly n → u < n.domain.size → w < n.domain.size → (neighbour n.domain u w).session ≡ Some s →
        next (n.domain.router u) (event.Take s max)
        ≡ answered ((hands n u w max).domain.router u) (reply.Messages (take max (neighbour n.domain u w).queue)) }
    ensures receive { (n : Network) → (u w s : ℕ) → (m : Message) → (rest : List Message) → IsOrderly n → IsNext n.domain u w m rest →
        (neighbour n.domain w u).session ≡ Some s →
        (changed : ℕ) × (next (n.domain.router w) (event.Receive s m.dest m.dist) ≡ answered ((gets n u w m rest).domain.router w) (reply.Done changed)) }
{}

/// As soon as each link of an orderly network is whole, up at both ends or down at both, its domain is in order.
pub fn whole_networks_are_in_order()
    ensures order { (n : Network) → IsOrderly n → IsWhole n → IsInOrder n.domain }
{}
