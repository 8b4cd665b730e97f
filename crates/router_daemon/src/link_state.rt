//! A link, between two of its sessions or in one.
ghost use Rattle.std.specs.Prelude.{◌≡◌, None};
ghost use Rattle.router_daemon.specs.Steps as spec;

use crate::waiting::Waiting;

/// A link, between two of its sessions or in one.
#[derive(Clone, Copy, PartialEq, Eq)]
pub struct LinkState {
    /// The neighbour that it leads to.
    pub node: u16,
    /// The session that is there; none where none is, or the last one is over.
    pub session: Option<u32>,
    /// Whether something waits for the neighbour.
    pub waiting: Waiting,
    /// Its writer sleeps until something waits.
    pub is_asleep: bool,
    /// How many Ups and Downs of its sessions are being entered. One session's Down and its successor's Up may be on their way at once.
    pub changing: u32,
}

impl LinkState {
    /// The link to a node, without a session.
    pub fn to(node: u16) -> LinkState
        ensures { result ≡ spec.link_to node }
    {
        LinkState {
            node,
            session: None,
            waiting: Waiting::new(),
            is_asleep: false,
            changing: 0,
        }
    }

    /// One more Up or Down is about to be entered.
    pub fn note_changing(&mut self)
        ensures { self.new ≡ spec.changing_more self.old }
    {
        self.changing = self.changing.saturating_add(1);
    }

    /// One that was being entered is entered, or was refused.
    pub fn note_change_end(&mut self)
        ensures { self.new ≡ spec.changing_less self.old }
    {
        self.changing = self.changing.saturating_sub(1);
    }

    /// Begins a session, whose Up was entered and has this position. False, and nothing is done, where a session is there already.
    pub fn begin(&mut self, session: u32, at: u64) -> bool
        ensures { spec.Begins session at self.old result self.new }
    {
        if self.session.is_some() {
            return false;
        }
        self.session = Some(session);
        self.waiting.note_queued(at);
        self.note_change_end();
        true
    }

    /// Ends a session: true for the first who does, who is to enter its Down.
    pub fn end(&mut self, session: u32) -> bool
        ensures { spec.Ends session self.old result self.new }
    {
        if self.session != Some(session) {
            return false;
        }
        self.session = None;
        self.note_changing();
        true
    }

    /// Whether the writer is to be woken, where the last entry that changed a distance left so many in the history: it sleeps, and
    /// something waits or no session is there. It counts as awake then.
    pub fn wakes(&mut self, changed: u128) -> bool
        ensures { spec.Wakes changed self.old result self.new }
    {
        let wakes = self.is_asleep && (self.waiting.is_some(changed) || self.session.is_none());
        if wakes {
            self.is_asleep = false;
        }
        wakes
    }
}
