//! Messages into the queues.
//!
//! **Messages are queued along that list**, in the order of the sessions. Each neighbour has a queue of its own, so the definition, which goes by
//! the numbers of the nodes, says the same; and in a large domain with few neighbours a change costs no look at the others.

ghost use Rattle.std.specs.Prelude.{◌≡◌, ◌≢◌, ℕ, ◌+◌, ◌<◌, ◌≤◌, ◌==◌, not, if◌then◌else◌, [], ◌∷◌, map};
ghost use Rattle.std.specs.VecDeque.{deque_len, deque_capacity};
ghost use Rattle.netchange_core.specs.Kept.{AreDestinations, AreNeighbours, FitsSize, filter_of, kept_distance, view_of};
ghost use Rattle.netchange_core.specs.Next.{all_messages, message_of, tell};
ghost use Rattle.netchange_core.specs.Present.{AreListed, sessions_of};
ghost use Rattle.netchange_core.specs.Room.{HaveRoom, queueing};
ghost use Rattle.netchange_core.specs.Recomputing.{told_if_differs};

use crate::destination::Destination;
use crate::filter::filtered_distance;
use crate::message::Message;
use crate::neighbour::Neighbour;
use crate::opening::Opening;
use crate::sessions::Present;

/// Queues the distance to a node for a neighbour.
fn queue_message(opening: &Opening, neighbour: &mut Neighbour, node: u16, dist: u16)
    requires node { node < opening.now.size }
    requires reachable { dist ≤ opening.now.size }
    requires exports { FitsSize opening.now.size (filter_of neighbour.old.exports) }
    requires room { deque_len neighbour.old.queue < deque_capacity neighbour.old.queue }
    ensures view { view_of neighbour.new ≡ queueing (message_of opening.now (view_of neighbour.old).exports node dist ∷ []) (view_of neighbour.old) }
    ensures len { deque_len neighbour.new.queue ≡ deque_len neighbour.old.queue + 1 }
    ensures capacity { deque_capacity neighbour.new.queue ≡ deque_capacity neighbour.old.queue }
{
    let dist = filtered_distance(opening, &neighbour.exports, node, dist);
    neighbour
        .queue
        .push_back_reserved(Message { dest: node, dist });
}

/// Tells each up neighbour the distance to a node.
#[inline(never)]
fn tell_all(
    opening: &Opening,
    present: &[Present],
    neighbours: &mut [Neighbour],
    node: u16,
    dist: u16,
)
    requires node { node < opening.now.size }
    requires reachable { dist ≤ opening.now.size }
    requires neighbours { AreNeighbours opening.now.size (map view_of neighbours.old) }
    requires listed { AreListed (sessions_of (map view_of neighbours.old)) present.now }
    requires room { HaveRoom 1 neighbours.old }
    ensures told { map view_of neighbours.new ≡ map (tell opening.now node dist) (map view_of neighbours.old) }
    ensures room { (more : ℕ) → HaveRoom (more + 1) neighbours.old → HaveRoom more neighbours.new }
{
    for session in present {
        let neighbour = &mut neighbours[usize::from(session.node)];
        queue_message(opening, neighbour, node, dist);
    }
}

/// Tells each up neighbour the distance to a node where it is another than it was. Answers whether it is.
#[inline(always)]
pub(crate) fn tell_if_differs(
    opening: &Opening,
    present: &[Present],
    neighbours: &mut [Neighbour],
    node: u16,
    old: u16,
    new: u16,
) -> bool
    requires node { node < opening.now.size }
    requires reachable { new ≤ opening.now.size }
    requires neighbours { AreNeighbours opening.now.size (map view_of neighbours.old) }
    requires listed { AreListed (sessions_of (map view_of neighbours.old)) present.now }
    requires room { old ≢ new → HaveRoom 1 neighbours.old }
    ensures differs { result ≡ not (old == new) }
    ensures told { map view_of neighbours.new ≡ told_if_differs opening.now node old new (map view_of neighbours.old) }
    ensures room { (more : ℕ) → HaveRoom (more + 1) neighbours.old → HaveRoom more neighbours.new }
{
    let differs = old != new;
    if differs {
        tell_all(opening, present, neighbours, node, new);
    }
    differs
}

/// Tells a neighbour the distances to all nodes, from node 0 upwards.
pub(crate) fn tell_everything(
    opening: &Opening,
    neighbour: &mut Neighbour,
    destinations: &[Destination],
)
    requires exports { FitsSize opening.now.size (filter_of neighbour.old.exports) }
    requires destinations { AreDestinations opening.now destinations.now }
    requires room { deque_len neighbour.old.queue + opening.now.size ≤ deque_capacity neighbour.old.queue }
    ensures { view_of neighbour.new ≡ queueing (all_messages opening.now (view_of neighbour.old).exports
        (kept_distance destinations.now) opening.now.size) (view_of neighbour.old) }
{
    for node in 0..opening.size() {
        let dist = destinations[usize::from(node)].route.dist;
        queue_message(opening, neighbour, node, dist);
    }
}
