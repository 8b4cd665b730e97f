//! The replay of a history.
//!
//! **What a session was sent is defined event by event** (`queued_by` in `specs/Sent.antt`), not as the difference of two queues. So the law that a
//! session takes what it was sent, and that nothing is lost between, says something about the queues of the definition itself.
//!
//! **`replay` names the first wrong entry by its index as `usize`**, so a slice of any length has an answer.

ghost use Rattle.std.specs.Prelude.{◌≡◌, ◌<◌, IfOk, MatchResult};
ghost use Rattle.netchange_core.specs.Calls.{opened};
ghost use Rattle.route_history.specs.History.{IsFirstWrong, IsLegal, world_of};
ghost use Rattle.route_history.specs.Replaying.{IsFaultOf};

use crate::entries::Entries;
use crate::entry::Entry;
use crate::fault::ReplayFault;
use netchange_core::{Opening, Tables};
use std::alloc::{AllocError, Global};

/// The tables of an opening.
fn open(alloc: Global, opening: &Opening) -> Result<Tables, AllocError>
    ensures { IfOk result (λ t. t ≡ opened opening.now) }
{
    let opening = opening.copy(alloc)?;
    Tables::open(alloc, opening)
}

/// Replays a history from its opening: the tables after all its entries, or the first entry whose reply is not theirs.
pub fn replay(alloc: Global, opening: &Opening, entries: &Entries) -> Result<Tables, ReplayFault>
    ensures { MatchResult result
        (λ t. (t ≡ world_of opening.now entries.now) × IsLegal opening.now entries.now)
        (λ f. IsFaultOf opening.now entries.now f) }
{
    let Ok(mut tables) = open(alloc, opening) else {
        return Err(ReplayFault::Memory);
    };
    for k in 0..entries.len() {
        let entry = entries.entry(k);
        let Ok(reply) = tables.apply(entry.event) else {
            return Err(ReplayFault::Memory);
        };
        if !entry.reply.is_same(&reply) {
            return Err(ReplayFault::Differs(k));
        }
    }
    Ok(tables)
}

/// Replays a history that is no journal's, as one that was read from a file.
pub fn replay_list(
    alloc: Global,
    opening: &Opening,
    entries: &[Entry],
) -> Result<Tables, ReplayFault>
    ensures { MatchResult result
        (λ t. (t ≡ world_of opening.now entries.now) × IsLegal opening.now entries.now)
        (λ f. IsFaultOf opening.now entries.now f) }
{
    let Ok(mut tables) = open(alloc, opening) else {
        return Err(ReplayFault::Memory);
    };
    for k in 0..entries.len() {
        let entry = &entries[k];
        let Ok(reply) = tables.apply(&entry.event) else {
            return Err(ReplayFault::Memory);
        };
        if !reply.is_same(&entry.reply) {
            return Err(ReplayFault::Differs(k));
        }
    }
    Ok(tables)
}
