//! A node as a destination.

ghost use Rattle.std.specs.Prelude.{◌≡◌, ◌<◌, IfOk, map};
ghost use Rattle.netchange_core.specs.Best.{neighbour_distance};
ghost use Rattle.netchange_core.specs.Kept.{AreKept, AreNeighbours, IsDestination, view_of};
ghost use Rattle.netchange_core.specs.Present.{AreListed, sessions_of};

use crate::best_route::{BestRoute, best_by};
use crate::neighbour::Neighbour;
use crate::opening::Opening;
use crate::recomputing::neighbour_distance;
use crate::sessions::Present;
use std::alloc::{AllocError, Global};

/// A node as a destination.
#[derive(Drop)]
pub(crate) struct Destination {
    /// How far it is from each neighbour, after the import filter: the size of the domain where the neighbour is down.
    pub(crate) distances: Vec<u16>,
    /// The best route to it.
    pub(crate) route: BestRoute,
}

/// How far a node is from each neighbour, after the import filters.
fn distances_to(
    alloc: Global,
    opening: &Opening,
    neighbours: &[Neighbour],
    node: u16,
) -> Result<Vec<u16>, AllocError>
    requires neighbours { AreNeighbours opening.now.size (map view_of neighbours.now) }
    requires node { node < opening.now.size }
    ensures { IfOk result (λ ds. ds.items ≡ map (neighbour_distance opening.now node) (map view_of neighbours.now)) }
{
    let mut distances = Vec::with_capacity(alloc, neighbours.len())?;
    for neighbour in neighbours {
        distances.push(neighbour_distance(opening, neighbour, node))?;
    }
    Ok(distances)
}

/// A node as a destination, by what the neighbours told.
fn make_destination(
    alloc: Global,
    opening: &Opening,
    present: &[Present],
    neighbours: &[Neighbour],
    node: u16,
) -> Result<Destination, AllocError>
    requires neighbours { AreNeighbours opening.now.size (map view_of neighbours.now) }
    requires listed { AreListed (sessions_of (map view_of neighbours.now)) present.now }
    requires node { node < opening.now.size }
    ensures distances { IfOk result (λ d. d.distances.items ≡ map (neighbour_distance opening.now node) (map view_of neighbours.now)) }
    ensures right { IfOk result (IsDestination opening.now node) }
{
    let distances = distances_to(alloc, opening, neighbours, node)?;
    let route = best_by(opening, present, node, &distances);
    Ok(Destination { distances, route })
}

/// The nodes as destinations, by what the neighbours told.
pub(crate) fn make_destinations(
    alloc: Global,
    opening: &Opening,
    present: &[Present],
    neighbours: &[Neighbour],
) -> Result<Vec<Destination>, AllocError>
    requires neighbours { AreNeighbours opening.now.size (map view_of neighbours.now) }
    requires listed { AreListed (sessions_of (map view_of neighbours.now)) present.now }
    ensures { IfOk result (λ ds. AreKept opening.now (map view_of neighbours.now) ds.items) }
{
    let mut destinations = Vec::with_capacity(alloc, usize::from(opening.size()))?;
    for node in 0..opening.size() {
        destinations.push(make_destination(alloc, opening, present, neighbours, node)?)?;
    }
    Ok(destinations)
}
