//! What a router replies to an event.

ghost use Rattle.std.specs.Prelude.{◌≡◌, ◌↔◌, IsTrue};
ghost use Rattle.netchange_core.specs.Whole.{whole_reply};

use crate::message::{Message, Messages, are_same};
use thiserror::Error;

/// Through whom a route goes.
#[derive(Clone, Copy, PartialEq, Eq)]
pub enum Via {
    /// The node is the router itself.
    Local,
    /// The neighbour of this number is the next hop.
    Node(u16),
    /// There is no route.
    Nowhere,
}

/// Why an event was refused. A refused event changes nothing.
#[derive(Clone, Copy, Debug, Error)]
pub enum EventRefusal {
    /// N1: the node is the router itself, or not in the domain.
    #[error("the node is the router itself, or not in the domain")]
    NoNode,
    /// N2: the node is an up neighbour already.
    #[error("the node is an up neighbour already")]
    AlreadyUp,
    /// N3: no up neighbour's present session has this number.
    #[error("no neighbour is up in this session")]
    Stale,
    /// N4: the node that a message or a look is about is not in the domain.
    #[error("the destination is not in the domain")]
    BadDest,
    /// N5: the distance is above the size of the domain.
    #[error("the distance is above the size of the domain")]
    BadDist,
    /// N6: the filter was verified for domains of another size.
    #[error("the filter was verified for domains of another size")]
    OtherSize,
    /// N7: the last session number is used.
    #[error("no session number is left")]
    NoSession,
}

impl EventRefusal {
    ghost use Rattle.netchange_core.specs.Codes.{refusal_code};

    /// The refusal's code, `N1` to `N7`.
    pub fn code(self) -> &'static str
        ensures { result.now ≡ refusal_code self }
    {
        match self {
            EventRefusal::NoNode => "N1",
            EventRefusal::AlreadyUp => "N2",
            EventRefusal::Stale => "N3",
            EventRefusal::BadDest => "N4",
            EventRefusal::BadDist => "N5",
            EventRefusal::OtherSize => "N6",
            EventRefusal::NoSession => "N7",
        }
    }
}

/// What a router replies to an event.
#[derive(Drop)]
pub enum Reply {
    /// The number of the session that the event opened, 1 or more.
    Opened(u32),
    /// The event was carried out.
    Done {
        /// How many nodes' distances changed.
        changed: u16,
    },
    /// The messages that left the queue, in the order in which they were queued.
    Messages(Messages),
    /// The route to a node.
    Route {
        /// The distance, 0 to the size of the domain, which says that there is no route.
        dist: u16,
        /// Through whom it goes.
        via: Via,
    },
    /// The event was refused.
    Refused(EventRefusal),
}

/// A reply whose messages, if it has any, stand somewhere else, one after another.
#[derive(Clone, Copy)]
pub enum ReplyRef<'a> {
    /// The number of the session that the event opened, 1 or more.
    Opened(u32),
    /// The event was carried out.
    Done {
        /// How many nodes' distances changed.
        changed: u16,
    },
    /// The messages that left the queue, in the order in which they were queued.
    Messages(&'a [Message]),
    /// The route to a node.
    Route {
        /// The distance, 0 to the size of the domain, which says that there is no route.
        dist: u16,
        /// Through whom it goes.
        via: Via,
    },
    /// The event was refused.
    Refused(EventRefusal),
}

impl Reply {
    /// The reply, with its messages where they stand.
    pub fn as_ref(&self) -> ReplyRef<'_>
        ensures { whole_reply result ≡ self.now }
    {
        match self {
            Reply::Opened(session) => ReplyRef::Opened(*session),
            Reply::Done { changed } => ReplyRef::Done { changed: *changed },
            Reply::Messages(messages) => ReplyRef::Messages(messages.as_slice()),
            Reply::Route { dist, via } => ReplyRef::Route {
                dist: *dist,
                via: *via,
            },
            Reply::Refused(why) => ReplyRef::Refused(*why),
        }
    }

    /// Whether two replies are the same, with the same messages in the same order.
    pub fn is_same(&self, other: &Reply) -> bool
        ensures { IsTrue result ↔ (self.now ≡ other.now) }
    {
        self.as_ref().is_same(other)
    }
}

impl<'a> ReplyRef<'a> {
    /// Whether two replies are the same, with the same messages in the same order.
    pub fn is_same(self, other: &Reply) -> bool
        ensures { IsTrue result ↔ (whole_reply self.entry ≡ other.now) }
    {
        match (self, other) {
            (ReplyRef::Opened(one), Reply::Opened(two)) => one == *two,
            (ReplyRef::Done { changed: one }, Reply::Done { changed: two }) => one == *two,
            (ReplyRef::Messages(one), Reply::Messages(two)) => are_same(one, two.as_slice()),
            (ReplyRef::Route { dist, via }, Reply::Route { dist: d, via: v }) => {
                dist == *d && via == *v
            }
            (ReplyRef::Refused(one), Reply::Refused(two)) => one == *two,
            _ => false,
        }
    }
}
