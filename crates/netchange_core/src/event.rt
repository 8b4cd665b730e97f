//! What happens at a router.

ghost use Rattle.std.specs.Prelude.{◌≡◌, ◌<◌, ◌^◌};

use crate::tables::Tables;
use filter_verifier::Verified;
use std::sync::Arc;

/// What happens at a router: at its channels to neighbours, at its filters, or a look at a route.
///
/// Nodes are named by number, and sessions by theirs. A distance is 0 to the size of the domain, which says that a node
/// cannot be reached.
#[derive(Drop)]
pub enum Event {
    /// The channel to a node is there: it becomes an up neighbour, in a session of its own.
    Up(u16),
    /// The channel of a session failed: its node is no up neighbour any more.
    Down(u32),
    /// In a session, a message came: the node that it is about, and the distance.
    Receive(u32, u16, u16),
    /// Of a session, the first messages that wait to be sent leave the queue, at most so many.
    Take(u32, u16),
    /// The distances that a node tells pass this filter from now on, also those that it told before.
    SetImport(u16, Arc<Verified>),
    /// The distances that a node is told pass this filter from now on.
    SetExport(u16, Arc<Verified>),
    /// A look at the route to a node.
    Show(u16),
}

impl Event {
    ghost use Rattle.netchange_core.specs.Calls.{room_of};

    /// At most how many messages the tables' reply to the event has.
    pub fn room(&self, tables: &Tables) -> usize
        ensures value { result ≡ room_of tables.now self.now }
        ensures few { result < 2 ^ 16 }
    {
        match self {
            Event::Take(session, max) => usize::from(*max).min(tables.queued(*session)),
            _ => 0,
        }
    }
}
