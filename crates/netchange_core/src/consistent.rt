//! Whether neighbours are consistent, as they are in each world that is reached.

ghost use Rattle.std.specs.Prelude.{◌≡◌, ◌↔◌, ◌≤◌, All, IsTrue, map, length};
ghost use Rattle.netchange_core.specs.Consistent.{AreConsistentNeighbours, IsConsistentNeighbour, IsIdle, IsMessage, IsOwn};
ghost use Rattle.netchange_core.specs.Kept.{FitsSize, IsNeighbour, filter_of, view_of};

use crate::message::Message;
use crate::neighbour::Neighbour;
use crate::opening::Opening;
use filter_verifier::Verified;
use std::collections::VecDeque;
use std::sync::Arc;

/// Whether no distance is above the size of the domain.
fn are_distances(size: u16, distances: &[u16]) -> bool
    ensures { IsTrue result ↔ All (λ dist. dist ≤ size) distances.now }
{
    distances.iter().all(|dist| *dist <= size)
}

/// Whether each distance says that the node cannot be reached.
fn are_unreached(size: u16, distances: &[u16]) -> bool
    ensures { IsTrue result ↔ All (λ dist. dist ≡ size) distances.now }
{
    distances.iter().all(|dist| *dist == size)
}

/// Whether each message is one of the domain.
fn are_messages(size: u16, queue: &VecDeque<Message>) -> bool
    ensures { IsTrue result ↔ All (IsMessage size) queue.now.items }
{
    queue
        .iter()
        .all(|message| message.dest < size && message.dist <= size)
}

/// Whether a filter, if there is one, was verified for the domain's size.
fn fits(size: u16, filter: &Option<Arc<Verified>>) -> bool
    ensures { IsTrue result ↔ FitsSize size (filter_of filter.now) }
{
    match filter {
        Some(filter) => filter.size() == u32::from(size),
        None => true,
    }
}

/// Whether a node is a neighbour of the domain.
fn is_neighbour(size: u16, neighbour: &Neighbour) -> bool
    ensures { IsTrue result ↔ IsNeighbour size (view_of neighbour.now) }
{
    neighbour.advertised.len() == usize::from(size)
        && are_distances(size, &neighbour.advertised)
        && fits(size, &neighbour.imports)
        && fits(size, &neighbour.exports)
}

/// Whether a node has advertised nothing, and nothing waits for it.
fn is_idle(opening: &Opening, neighbour: &Neighbour) -> bool
    requires { length neighbour.now.advertised.items ≡ opening.now.size }
    ensures { IsTrue result ↔ IsIdle opening.now (view_of neighbour.now) }
{
    are_unreached(opening.size(), &neighbour.advertised) && neighbour.queue.is_empty()
}

/// Whether a node is a neighbour of the domain, for which messages of the domain wait, and idle where it is down.
fn is_consistent(opening: &Opening, neighbour: &Neighbour) -> bool
    ensures { IsTrue result ↔ IsConsistentNeighbour opening.now (view_of neighbour.now) }
{
    is_neighbour(opening.size(), neighbour)
        && are_messages(opening.size(), &neighbour.queue)
        && (neighbour.session.is_some() || is_idle(opening, neighbour))
}

/// Whether a node was never up, and no filter was set for it.
fn is_own(neighbour: &Neighbour) -> bool
    ensures { IsTrue result ↔ IsOwn (view_of neighbour.now) }
{
    neighbour.session.is_none() && neighbour.imports.is_none() && neighbour.exports.is_none()
}

/// Whether there is one neighbour a node, each of them consistent, and the router's own node was never up.
pub(crate) fn are_consistent(opening: &Opening, neighbours: &[Neighbour]) -> bool
    ensures { IsTrue result ↔ AreConsistentNeighbours opening.now (map view_of neighbours.now) }
{
    if neighbours.len() != usize::from(opening.size()) {
        return false;
    }
    if !is_own(&neighbours[usize::from(opening.me())]) {
        return false;
    }
    for neighbour in neighbours {
        if !is_consistent(opening, neighbour) {
            return false;
        }
    }
    true
}
