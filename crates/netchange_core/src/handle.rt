//! An event at a router.

ghost use Rattle.std.specs.Prelude.{◌≡◌};
ghost use Rattle.netchange_core.specs.Handling.{Handles};
ghost use Rattle.netchange_core.specs.Kept.{AreTables, world_of};
ghost use Rattle.netchange_core.specs.Next.{answered, next, show};

use crate::event::Event;
use crate::message::Message;
use crate::reply::{EventRefusal, Reply};
use crate::state::State;
use std::alloc::AllocError;

impl State {
    /// A look at the route to a node.
    fn show(&self, node: u16) -> Reply
        requires { AreTables self.now }
        ensures { show (world_of self.now) node ≡ answered (world_of self.now) result }
    {
        if self.opening.size() <= node {
            return Reply::Refused(EventRefusal::BadDest);
        }
        let route = self.destinations[usize::from(node)].route;
        Reply::Route {
            dist: route.dist,
            via: route.via,
        }
    }

    /// Carries out an event. After an error nothing is changed.
    #[inline(always)]
    pub(crate) fn handle(&mut self, event: &Event) -> Result<Reply, AllocError>
        requires { AreTables self.old }
        ensures { Handles self.old (next (world_of self.old) event.now) self.new result }
    {
        match event {
            Event::Up(node) => self.up(*node),
            Event::Down(session) => match self.holder(*session) {
                Some(hop) => self.down(hop, *session),
                None => Ok(Reply::Refused(EventRefusal::Stale)),
            },
            Event::Receive(session, dest, dist) => match self.holder(*session) {
                Some(hop) => {
                    let message = Message {
                        dest: *dest,
                        dist: *dist,
                    };
                    self.receive(hop, message)
                }
                None => Ok(Reply::Refused(EventRefusal::Stale)),
            },
            Event::Take(session, max) => match self.holder(*session) {
                Some(hop) => self.take(hop, *max),
                None => Ok(Reply::Refused(EventRefusal::Stale)),
            },
            Event::SetImport(node, filter) => self.set_import(*node, filter),
            Event::SetExport(node, filter) => self.set_export(*node, filter),
            Event::Show(node) => Ok(self.show(*node)),
        }
    }
}
