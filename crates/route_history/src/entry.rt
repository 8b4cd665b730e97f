//! One event with its reply.

ghost use Rattle.std.specs.Prelude.{◌≡◌};
ghost use Rattle.route_history.specs.Whole.{whole_entry};

use netchange_core::{Event, Reply, ReplyRef};

/// An event at a router, and what was replied to it. A refused event is an entry too.
#[derive(Drop)]
pub struct Entry {
    /// What happened.
    pub event: Event,
    /// What the router replied.
    pub reply: Reply,
}

/// An entry where it stands.
#[derive(Clone, Copy)]
pub struct EntryRef<'a> {
    /// What happened.
    pub event: &'a Event,
    /// What the router replied.
    pub reply: ReplyRef<'a>,
}

impl Entry {
    /// The entry where it stands.
    pub fn as_ref(&self) -> EntryRef<'_>
        ensures { whole_entry result ≡ self.now }
    {
        EntryRef {
            event: &self.event,
            reply: self.reply.as_ref(),
        }
    }
}
