//! Messages are taken to be sent.

ghost use Rattle.std.specs.Prelude.{◌≡◌, true, Some};
ghost use Rattle.netchange_core.specs.Kept.{AreTables, views_of, world_of};
ghost use Rattle.netchange_core.specs.Handling.{Handles};
ghost use Rattle.netchange_core.specs.Next.{take_from};
ghost use Rattle.netchange_core.specs.World.{is_up, neighbour_at};

use crate::changing::dequeue;
use crate::message::Messages;
use crate::reply::Reply;
use crate::state::State;
use std::alloc::AllocError;

impl State {
    /// The first messages leave the queue for an up neighbour, at most so many.
    pub(crate) fn take(&mut self, hop: usize, max: u16) -> Result<Reply, AllocError>
        requires right { AreTables self.old }
        requires up { is_up (neighbour_at (views_of self.old) hop) ≡ true }
        ensures { Handles self.old (take_from (world_of self.old) (Some hop) max) self.new result }
    {
        let neighbour = &mut self.neighbours[hop];
        let count = usize::from(max).min(neighbour.queue.len());
        let mut items = Vec::with_capacity(*neighbour.queue.allocator(), count)?;
        dequeue(neighbour, &mut items, count);
        Ok(Reply::Messages(Messages::from_vec(items)))
    }
}
