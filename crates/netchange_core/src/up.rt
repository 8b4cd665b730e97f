//! A channel is there.

ghost use Rattle.netchange_core.specs.Handling.{Handles};
ghost use Rattle.netchange_core.specs.Kept.{AreTables, world_of};
ghost use Rattle.netchange_core.specs.Next.{up};

use crate::changing::join;
use crate::neighbour::is_no_neighbour;
use crate::reply::{EventRefusal, Reply};
use crate::room::reserve;
use crate::sessions::Present;
use crate::state::State;
use std::alloc::AllocError;

impl State {
    /// The channel to a node is there.
    pub(crate) fn up(&mut self, node: u16) -> Result<Reply, AllocError>
        requires { AreTables self.old }
        ensures { Handles self.old (up (world_of self.old) node) self.new result }
    {
        if is_no_neighbour(&self.opening, node) {
            return Ok(Reply::Refused(EventRefusal::NoNode));
        }
        let neighbour = &mut self.neighbours[usize::from(node)];
        if neighbour.session.is_some() {
            return Ok(Reply::Refused(EventRefusal::AlreadyUp));
        }
        if self.sessions.count == u32::MAX {
            return Ok(Reply::Refused(EventRefusal::NoSession));
        }
        reserve(neighbour, usize::from(self.opening.size()))?;
        self.sessions.present.reserve(1)?;
        let session = self.sessions.count + 1;
        join(&self.opening, neighbour, &self.destinations, session);
        self.sessions
            .present
            .push_reserved(Present { session, node });
        self.sessions.count = session;
        Ok(Reply::Opened(session))
    }
}
