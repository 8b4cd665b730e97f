//! New filters.

ghost use Rattle.std.specs.Prelude.{◌≡◌, ◌<◌};
ghost use Rattle.netchange_core.specs.Best.{distance};
ghost use Rattle.netchange_core.specs.Handling.{Handles};
ghost use Rattle.netchange_core.specs.Kept.{AreTables, world_of};
ghost use Rattle.netchange_core.specs.Next.{answered, exporting, importing, recomputed, set_export, set_import};
ghost use Rattle.netchange_core.specs.World.{changed};

use crate::changing::{export, import};
use crate::neighbour::is_no_neighbour;
use crate::reply::{EventRefusal, Reply};
use crate::room::{make_room, make_room_for};
use crate::state::State;
use filter_verifier::Verified;
use std::alloc::AllocError;
use std::sync::Arc;

impl State {
    /// The distances that a neighbour tells pass this filter from now on. While it is down they are all the size, whatever
    /// the filter.
    fn import(&mut self, node: usize, filter: Arc<Verified>) -> Result<Reply, AllocError>
        requires right { AreTables self.old }
        requires node { node < self.old.opening.size }
        requires size { filter.value.size ≡ self.old.opening.size }
        ensures { let w = world_of self.old in
            Handles self.old (recomputed w (changed w node (importing filter.value))) self.new result }
    {
        if self.neighbours[node].session.is_none() {
            import(&mut self.neighbours[node], filter);
            return Ok(Reply::Done { changed: 0 });
        }
        make_room(
            &self.sessions.present,
            &mut self.neighbours,
            usize::from(self.opening.size()),
        )?;
        import(&mut self.neighbours[node], filter);
        let changed = self.recompute(node);
        Ok(Reply::Done { changed })
    }

    /// The distances that a node tells pass this filter from now on.
    pub(crate) fn set_import(
        &mut self,
        node: u16,
        filter: &Arc<Verified>,
    ) -> Result<Reply, AllocError>
        requires { AreTables self.old }
        ensures { Handles self.old (set_import (world_of self.old) node filter.now.value) self.new result }
    {
        if is_no_neighbour(&self.opening, node) {
            return Ok(Reply::Refused(EventRefusal::NoNode));
        }
        if filter.size() != u32::from(self.opening.size()) {
            return Ok(Reply::Refused(EventRefusal::OtherSize));
        }
        let filter = Arc::try_clone(filter)?;
        self.import(usize::from(node), filter)
    }

    /// The distances that a node is told pass this filter from now on.
    pub(crate) fn set_export(
        &mut self,
        node: u16,
        filter: &Arc<Verified>,
    ) -> Result<Reply, AllocError>
        requires { AreTables self.old }
        ensures { Handles self.old (set_export (world_of self.old) node filter.now.value) self.new result }
    {
        if is_no_neighbour(&self.opening, node) {
            return Ok(Reply::Refused(EventRefusal::NoNode));
        }
        if filter.size() != u32::from(self.opening.size()) {
            return Ok(Reply::Refused(EventRefusal::OtherSize));
        }
        let filter = Arc::try_clone(filter)?;
        let neighbour = &mut self.neighbours[usize::from(node)];
        make_room_for(neighbour, usize::from(self.opening.size()))?;
        export(&self.opening, neighbour, &self.destinations, filter);
        Ok(Reply::Done { changed: 0 })
    }
}
