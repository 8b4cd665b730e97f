//! A channel fails.

ghost use Rattle.std.specs.Prelude.{◌≡◌, Some};
ghost use Rattle.netchange_core.specs.Handling.{Handles};
ghost use Rattle.netchange_core.specs.Kept.{AreTables, views_of, world_of};
ghost use Rattle.netchange_core.specs.Next.{down};
ghost use Rattle.netchange_core.specs.World.{neighbour_at};

use crate::changing::leave;
use crate::reply::Reply;
use crate::room::make_room;
use crate::sessions::close;
use crate::state::State;
use std::alloc::AllocError;

impl State {
    /// The channel to an up neighbour failed, whose present session this is.
    pub(crate) fn down(&mut self, hop: usize, session: u32) -> Result<Reply, AllocError>
        requires right { AreTables self.old }
        requires holds { (neighbour_at (views_of self.old) hop).session ≡ Some session }
        ensures { Handles self.old (down (world_of self.old) (Some hop)) self.new result }
    {
        make_room(
            &self.sessions.present,
            &mut self.neighbours,
            usize::from(self.opening.size()),
        )?;
        let neighbour = &mut self.neighbours[hop];
        close(&mut self.sessions.present, session);
        leave(&self.opening, neighbour);
        let changed = self.recompute(hop);
        Ok(Reply::Done { changed })
    }
}
