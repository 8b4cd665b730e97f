//! Routes after a neighbour's distances changed.

ghost use Rattle.std.specs.Prelude.{◌≡◌, ℕ, ◌+◌, ◌<◌, ◌≤◌, ◌==◌, not, if◌then◌else◌, map, length, slice_index_or, slice_set};
ghost use Rattle.netchange_core.specs.Best.{best_by, neighbour_distance};
ghost use Rattle.netchange_core.specs.Kept.{AreNeighbours, IsDestination, IsNeighbour, view_of};
ghost use Rattle.netchange_core.specs.Leading.{ListsReachable};
ghost use Rattle.netchange_core.specs.Present.{AreListed, sessions_of};
ghost use Rattle.netchange_core.specs.Room.{HaveRoom};
ghost use Rattle.netchange_core.specs.Recomputing.{IsStaleAt, Recomputes, told_if_differs};
ghost use Rattle.netchange_core.specs.World.{neighbour_at};

use crate::best_route::{BestRoute, best_after};
use crate::destination::Destination;
use crate::filter::filtered_distance;
use crate::neighbour::Neighbour;
use crate::opening::Opening;
use crate::sessions::Present;
use crate::state::State;
use crate::telling::tell_if_differs;

/// How far a node is from a neighbour, after the import filter.
pub(crate) fn neighbour_distance(opening: &Opening, neighbour: &Neighbour, node: u16) -> u16
    requires neighbour { IsNeighbour opening.now.size (view_of neighbour.now) }
    requires node { node < opening.now.size }
    ensures value { result ≡ neighbour_distance opening.now node (view_of neighbour.now) }
    ensures reachable { result ≤ opening.now.size }
{
    if neighbour.session.is_none() {
        return opening.size();
    }
    filtered_distance(
        opening,
        &neighbour.imports,
        node,
        neighbour.advertised[usize::from(node)],
    )
}

/// The best route to a node, where one neighbour is now at another distance from it.
#[inline(always)]
pub(crate) fn route_after(
    opening: &Opening,
    present: &[Present],
    node: u16,
    destination: &Destination,
    hop: usize,
    near: u16,
) -> BestRoute
    requires right { IsDestination opening.now node destination.now }
    requires hop { hop < opening.now.size }
    requires listed { ListsReachable opening.now.size (slice_set destination.now.distances.items hop near) present.now }
    ensures best { result ≡ best_by opening.now node (slice_set destination.now.distances.items hop near) }
    ensures reachable { result.dist ≤ opening.now.size }
{
    if node == opening.me() {
        return destination.route;
    }
    best_after(
        opening.size(),
        present,
        &destination.distances,
        hop,
        near,
        destination.route,
    )
}

/// Keeps a neighbour's new distance from a node, and the new route to the node.
pub(crate) fn put(destination: &mut Destination, hop: usize, near: u16, route: BestRoute)
    requires { hop < length destination.old.distances.items }
    ensures distances { destination.new.distances.items ≡ slice_set destination.old.distances.items hop near }
    ensures route { destination.new.route ≡ route }
{
    destination.route = route;
    destination.distances[hop] = near;
}

/// Recomputes the route to a node, after one neighbour changed. Answers whether its distance changed. Mostly the
/// neighbour is as far from the node as it was, and then there is nothing to do.
fn recompute_at(
    opening: &Opening,
    present: &[Present],
    neighbours: &mut [Neighbour],
    destination: &mut Destination,
    node: u16,
    hop: usize,
) -> bool
    requires node { node < opening.now.size }
    requires hop { hop < opening.now.size }
    requires neighbours { AreNeighbours opening.now.size (map view_of neighbours.old) }
    requires listed { AreListed (sessions_of (map view_of neighbours.old)) present.now }
    requires right { IsDestination opening.now node destination.old }
    requires stale { slice_set destination.old.distances.items hop (neighbour_distance opening.now node (neighbour_at (map view_of neighbours.old) hop))
        ≡ map (neighbour_distance opening.now node) (map view_of neighbours.old) }
    requires room { HaveRoom 1 neighbours.old }
    ensures changed { result ≡ not (destination.old.route.dist == destination.new.route.dist) }
    ensures told { map view_of neighbours.new ≡ told_if_differs opening.now node destination.old.route.dist destination.new.route.dist (map view_of neighbours.old) }
    ensures distances { destination.new.distances.items ≡ slice_set destination.old.distances.items hop
        (neighbour_distance opening.now node (neighbour_at (map view_of neighbours.old) hop)) }
    ensures right { IsDestination opening.now node destination.new }
    ensures room { (more : ℕ) → HaveRoom (more + 1) neighbours.old → HaveRoom more neighbours.new }
{
    let near = neighbour_distance(opening, &neighbours[hop], node);
    if near == destination.distances[hop] {
        return false;
    }
    let route = route_after(opening, present, node, destination, hop, near);
    let old = destination.route.dist;
    put(destination, hop, near, route);
    tell_if_differs(opening, present, neighbours, node, old, route.dist)
}

impl State {
    /// Recomputes all routes, after one neighbour changed, and tells the distances that changed. Answers how many did.
    pub(crate) fn recompute(&mut self, hop: usize) -> u16
        requires { IsStaleAt hop self.old }
        ensures { Recomputes self.old self.new result }
    {
        let present = self.sessions.present.as_slice();
        let neighbours = self.neighbours.as_mut_slice();
        let destinations = self.destinations.as_mut_slice();
        let mut changed = 0;
        for node in 0..self.opening.size() {
            changed += u16::from(recompute_at(
                &self.opening,
                present,
                neighbours,
                &mut destinations[usize::from(node)],
                node,
                hop,
            ));
        }
        changed
    }
}
