//! What those who serve the links of one router know together: which sessions are there, whether something waits in a queue, and how long the
//! history is. It is data alone: who shares it among threads keeps it under a lock.
//!
//! **It knows replies and histories.** What is noted serves one purpose: a writer sleeps only while its neighbour's queue is empty. That can be said
//! only beside the definitions of a history. So the functions here are handed a reply and take from it what counts.
//!
//! **What is noted are numbers of entries.** Answers become known in any order, and each note is a maximum. So the law over them asks only that
//! each entry is noted, not when. Such a number is one more than a position, of 64 bits, and so has 128.
ghost use Rattle.std.specs.Prelude.{◌≡◌, ◌==◌, ◌<◌, ◌≤◌, ◌||◌, ◌&&◌, false, true, None, Some, []};
ghost use Rattle.std.specs.Prelude.{IfOk, IfSome, IfNone, map, position, length, slice_get};
ghost use Rattle.router_daemon.specs.StatesView as spec;
ghost use Rattle.router_daemon.specs.Noting.{tells_all};
ghost use Rattle.router_daemon.specs.Steps.{link_to};

use crate::ending::SessionEnding;
use crate::link_state::LinkState;
use netchange_core::Reply;
use route_session::MOST_TAKEN;
use std::alloc::{AllocError, Global};
use std::marker::Model;

/// What those who serve the links of one router know together. A contract sees it as a `LinkStatesView`.
///
/// A link has at most one session. Whoever finds first that it is over ends it, and nobody does so twice.
#[derive(Drop)]
pub struct LinkStates {
    links: Vec<LinkState>,
    /// The least number of entries that the history is known to have. It is one more than a position, and so may not fit 64 bits.
    entries: u128,
    /// How many it had with the last one that is known to have changed a distance.
    changed: u128,
    /// Who saves the history sleeps until it has more entries than that.
    awaited: Option<u64>,
    /// The router is being closed: no session begins any more.
    closing: bool,
}

impl Model for LinkStates {
    ghost use Rattle.router_daemon.specs.StatesView.{LinkStatesView};

    ghost Value = { LinkStatesView };

    ghost view = { λ b. record { links = b.links.items; entries = b.entries; changed = b.changed; awaited = b.awaited; closing = b.closing } };
}

impl LinkStates {
    /// The links to these neighbours, without sessions.
    pub fn new(alloc: Global, nodes: &[u16]) -> Result<LinkStates, AllocError>
        ensures { IfOk result (λ b. b ≡ spec.fresh nodes.now) }
    {
        Ok(LinkStates {
            links: links_to(alloc, nodes)?,
            entries: 0,
            changed: 0,
            awaited: None,
            closing: false,
        })
    }

    /// The Up of a session of a link is about to be entered. False, and nothing is done, where the router is being closed.
    pub fn open(&mut self, index: usize) -> bool
        ensures { spec.OpensAt index self.old result self.new }
    {
        if self.closing {
            return false;
        }
        if let Some(link) = self.links.get_mut(index) {
            link.note_changing();
        }
        true
    }

    /// An Up or a Down of a link that was being entered is entered, or was refused.
    pub fn end_change(&mut self, index: usize)
        ensures { spec.EndsChangeAt index self.old self.new }
    {
        if let Some(link) = self.links.get_mut(index) {
            link.note_change_end();
        }
    }

    /// Whether any Up or Down is being entered.
    pub fn is_changing(&self) -> bool
        ensures { result ≡ spec.is_changing self.now.links }
    {
        self.links.iter().any(|link| link.changing > 0)
    }

    /// Begins a session of a link, whose Up was entered and has this position. False, and only the entry is noted, where a session is
    /// there already, there is no such link, or the router is being closed.
    pub fn begin(&mut self, index: usize, session: u32, at: u64) -> bool
        ensures { spec.BeginsAt index session at (spec.with_entry at self.old) result self.new }
    {
        self.note_entry(at);
        if self.closing {
            return false;
        }
        match self.links.get_mut(index) {
            Some(link) => link.begin(session, at),
            None => false,
        }
    }

    /// Ends a session of a link: the answer says who is the first who does, who is to enter its Down.
    pub fn end(&mut self, index: usize, session: u32) -> SessionEnding
        ensures ends { spec.EndsAt index session self.old result.is_first self.new }
        ensures of { (result.link ≡ index) × (result.session ≡ session) }
    {
        let is_first = match self.links.get_mut(index) {
            Some(link) => link.end(session),
            None => false,
        };
        SessionEnding {
            link: index,
            session,
            is_first,
        }
    }

    /// The session of a link, if one is there.
    pub fn session(&self, index: usize) -> Option<u32>
        ensures { result ≡ spec.session_at self.now index }
    {
        match self.links.get(index) {
            Some(link) => link.session,
            None => None,
        }
    }

    /// The link to a node, if it has one.
    pub fn link_to(&self, node: u16) -> Option<usize>
        ensures { result ≡ position (λ l. l.node == node) self.now.links }
    {
        self.links.iter().position(|link| link.node == node)
    }

    /// The number of links.
    pub fn len(&self) -> usize
        ensures { result ≡ length self.now.links }
    {
        self.links.len()
    }

    /// The entry at this position is there.
    fn note_entry(&mut self, at: u64)
        ensures { self.new ≡ spec.with_entry at self.old }
    {
        self.entries = self.entries.max(u128::from(at) + 1);
    }

    /// The entry at this position changed a distance: something waits for each neighbour.
    fn note_changed(&mut self, at: u64)
        ensures { self.new ≡ spec.with_change at self.old }
    {
        self.note_entry(at);
        self.changed = self.changed.max(u128::from(at) + 1);
    }

    /// The entry at this position queued something for the neighbour of a link.
    fn note_queued(&mut self, index: usize, at: u64)
        ensures { spec.QueuesAt index at self.old self.new }
    {
        self.note_entry(at);
        if let Some(link) = self.links.get_mut(index) {
            link.waiting.note_queued(at);
        }
    }

    /// The entry at this position is a Take for a link, of at most `most` messages, and brought `taken` of them.
    fn note_taken(&mut self, index: usize, at: u64, taken: usize, most: usize)
        ensures { spec.TakesAt index at taken most self.old self.new }
    {
        self.note_entry(at);
        if let Some(link) = self.links.get_mut(index) {
            link.waiting.note_taken(at, taken, most);
        }
    }

    /// The entry at this position has this reply: where it changed a distance, something waits for each neighbour. Whether it did.
    pub fn note(&mut self, at: u64, reply: &Reply) -> bool
        ensures changed { result ≡ tells_all reply.now }
        ensures noted { self.new ≡ spec.noted at reply.now self.old }
    {
        match reply {
            Reply::Done { changed } if *changed > 0 => {
                self.note_changed(at);
                true
            }
            _ => {
                self.note_entry(at);
                false
            }
        }
    }

    /// The entry at this position is a call of those who serve a session of a link, with this reply. A Take is one of `MOST_TAKEN` messages:
    /// where it brought fewer, nothing is left in the queue. Whether a distance changed.
    pub fn note_served(&mut self, index: usize, at: u64, reply: &Reply) -> bool
        ensures changed { result ≡ tells_all reply.now }
        ensures noted { spec.Serves index at reply.now self.old self.new }
    {
        let Reply::Messages(messages) = reply else {
            return self.note(at, reply);
        };
        self.note_taken(
            index,
            at,
            messages.as_slice().len(),
            usize::from(MOST_TAKEN),
        );
        false
    }

    /// The entry at this position set the export filter of a node, with this reply: unless it was refused, something waits for the node.
    pub fn note_exported(&mut self, node: u16, at: u64, reply: &Reply)
        ensures { spec.Exports node at reply.now self.old self.new }
    {
        match (reply, self.link_to(node)) {
            (Reply::Done { .. }, Some(index)) => self.note_queued(index, at),
            _ => self.note_entry(at),
        }
    }

    /// Whether something waits for the neighbour of a link.
    pub fn has_waiting(&self, index: usize) -> bool
        ensures { result ≡ spec.waits_at self.now index }
    {
        match self.links.get(index) {
            Some(link) => link.waiting.is_some(self.changed),
            None => false,
        }
    }

    /// The writer of a link is about to sleep.
    pub fn sleep(&mut self, index: usize)
        ensures { spec.SleepsAt index self.old self.new }
    {
        if let Some(link) = self.links.get_mut(index) {
            link.is_asleep = true;
        }
    }

    /// Whether the writer of a link is to be woken: it sleeps, and something waits or its session is over. It counts as awake then.
    pub fn wakes(&mut self, index: usize) -> bool
        ensures { spec.WakesAt index self.old result self.new }
    {
        let changed = self.changed;
        match self.links.get_mut(index) {
            Some(link) => link.wakes(changed),
            None => false,
        }
    }

    /// Who saves the history has saved so many entries, and is about to sleep. False where there is more to save, or the router is
    /// being closed: then nobody sleeps.
    pub fn rest_saver(&mut self, saved: u64) -> bool
        ensures rests { result ≡ spec.can_rest saved self.old }
        ensures states { self.new ≡ record self.old { awaited = spec.awaits (spec.can_rest saved self.old) saved } }
    {
        let rests = self.entries <= u128::from(saved) && !self.closing;
        self.awaited = if rests { Some(saved) } else { None };
        rests
    }

    /// Whether who saves the history is to be woken. They count as awake then.
    pub fn wakes_saver(&mut self) -> bool
        ensures { spec.WakesSaver self.old result self.new }
    {
        let Some(saved) = self.awaited else {
            return false;
        };
        let wakes = self.entries > u128::from(saved) || self.closing;
        if wakes {
            self.awaited = None;
        }
        wakes
    }

    /// The router is being closed.
    pub fn close(&mut self)
        ensures { self.new ≡ record self.old { closing = true } }
    {
        self.closing = true;
    }

    /// Whether the router is being closed.
    pub fn is_closing(&self) -> bool
        ensures { result ≡ self.now.closing }
    {
        self.closing
    }
}

/// A link to each of these nodes, without a session.
fn links_to(alloc: Global, nodes: &[u16]) -> Result<Vec<LinkState>, AllocError>
    ensures { IfOk result (λ links. links.items ≡ map link_to nodes.now) }
{
    let mut links = Vec::with_capacity(alloc, nodes.len())?;
    for node in nodes {
        links.push(LinkState::to(*node))?;
    }
    Ok(links)
}
