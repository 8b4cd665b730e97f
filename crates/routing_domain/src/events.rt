//! What the steps of a domain are as events of its routers.
//!
//! **A run may leave messages out**, such as a later one about the same node follows. So all laws of runs and phases hold of links that only hand
//! over the newest, and there is one family of them. What a phase awaits is a number for each link, from its front: a message that is left out is
//! not simply one fewer, since what came in about its node may be older than the phase until the later one comes in.

ghost use Rattle.std.specs.Prelude.{◌≡◌, ℕ, ◌+◌, ◌<◌, Some, List, ◌∷◌, take};
ghost use Rattle.netchange_core.specs.declared.event.Event.{Event};
ghost use Rattle.netchange_core.specs.declared.event.Event.TheVariants as event;
ghost use Rattle.netchange_core.specs.declared.message.Message.{Message};
ghost use Rattle.netchange_core.specs.declared.reply.EventRefusal.{EventRefusal};
ghost use Rattle.netchange_core.specs.declared.reply.Reply.TheVariants as reply;
ghost use Rattle.netchange_core.specs.Next.{answered, next};
ghost use Rattle.routing_domain.specs.Domain.{Domain, IsInOrder, neighbour};
ghost use Rattle.routing_domain.specs.Events.{CanLink, cuts, enters, links};
ghost use Rattle.routing_domain.specs.Steps.{IsNext, receives, sends};

/// Sending is Take in the neighbour's present session: it is not refused, the router is as after sending, and the reply has what
/// is put on its way.
pub fn sending_is_take()
    ensures taken { (d : Domain) → (u w max s : ℕ) → IsInOrder d → u < d.size → w < d.size → (neighbour d u w).session ≡ Some s →
        next (d.router u) (event.Take s max)
        ≡ answered ((sends d u w max).router u) (reply.Messages (take max (neighbour d u w).queue)) }
{}

/// What is first on its way to a node is received by it: there is a link, and the message fits the domain. Receiving is Receive in the
/// neighbour's present session: it is not refused, and the router is as after receiving.
pub fn receiving_is_receive()
    ensures is_next { (d : Domain) → (u w : ℕ) → (m : Message) → (rest : List Message) → IsInOrder d → u < d.size → w < d.size →
        d.flight u w ≡ m ∷ rest → IsNext d u w m rest }
    ensures received { (d : Domain) → (u w s : ℕ) → (m : Message) → (rest : List Message) → IsInOrder d → IsNext d u w m rest →
        (neighbour d w u).session ≡ Some s →
        (changed : ℕ) × (next (d.router w) (event.Receive s m.dest m.dist)
        ≡ answered ((receives d u w m rest).router w) (reply.Done changed)) }
{}

/// Linking is Up at both ends, and neither is refused.
pub fn linking_is_up()
    ensures one { (d : Domain) → (u w : ℕ) → IsInOrder d → CanLink d u w →
        next (d.router u) (event.Up w) ≡ answered ((links d u w).router u) (reply.Opened ((d.router u).sessions + 1)) }
    ensures other { (d : Domain) → (u w : ℕ) → IsInOrder d → CanLink d u w →
        next (d.router w) (event.Up u) ≡ answered ((links d u w).router w) (reply.Opened ((d.router w).sessions + 1)) }
{}

/// Cutting is Down at both ends, in the present sessions, and neither is refused.
pub fn cutting_is_down()
    ensures one { (d : Domain) → (u w s : ℕ) → IsInOrder d → u < d.size → w < d.size → (neighbour d u w).session ≡ Some s →
        (changed : ℕ) × (next (d.router u) (event.Down s) ≡ answered ((cuts d u w).router u) (reply.Done changed)) }
    ensures other { (d : Domain) → (u w s : ℕ) → IsInOrder d → u < d.size → w < d.size → (neighbour d w u).session ≡ Some s →
        (changed : ℕ) × (next (d.router w) (event.Down s) ≡ answered ((cuts d u w).router w) (reply.Done changed)) }
{}

/// An event that is refused changes nothing.
pub fn refused_events_change_nothing()
    ensures same { (d : Domain) → (u : ℕ) → (e : Event) → (why : EventRefusal) → (next (d.router u) e).reply ≡ reply.Refused why → enters d u e ≡ d }
{}
