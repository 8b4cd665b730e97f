//! Closed journals, replayed.

ghost use Rattle.std.specs.Prelude.{◌≡◌, IfOk};
ghost use Rattle.ring_network.specs.Replays.{IsReplayed};
ghost use Rattle.route_history.specs.History.{world_of};

use crate::ring::Ring;
use netchange_core::Tables;
use route_history::{Journal, ReplayFault, replay};
use std::alloc::{AllocError, Global};

/// The closed journals of a ring, and the tables that the replay of each came to.
#[derive(Drop)]
pub struct Replayed {
    /// The journals.
    pub ring: Ring,
    /// The tables of node 0.
    pub zero: Tables,
    /// Those of node 1.
    pub one: Tables,
    /// Those of node 2.
    pub two: Tables,
}

/// Replays the journals of a ring. Their histories are legal, so memory alone can be refused.
pub fn replay_ring(alloc: Global, ring: Ring) -> Result<Replayed, AllocError>
    ensures ring { IfOk result (λ r. r.ring ≡ ring) }
    ensures replayed { IfOk result IsReplayed }
{
    let zero = replay_whole(alloc, &ring.zero)?;
    let one = replay_whole(alloc, &ring.one)?;
    let two = replay_whole(alloc, &ring.two)?;
    Ok(Replayed {
        ring,
        zero,
        one,
        two,
    })
}

/// Replays a journal.
fn replay_whole(alloc: Global, journal: &Journal) -> Result<Tables, AllocError>
    ensures { IfOk result (λ t. t ≡ world_of journal.now.opening journal.now.entries) }
{
    match replay(alloc, journal.opening(), journal.entries()) {
        Ok(tables) => Ok(tables),
        Err(ReplayFault::Memory) => Err(AllocError),
        Err(ReplayFault::Differs(_)) => unreachable!(),
    }
}
