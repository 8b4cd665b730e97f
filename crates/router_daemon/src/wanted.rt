//! Which links a router is to have.
//!
//! **Each node that may have a link has a place from the start on**: a neighbour of the start, or a node that may become one by a reload. So a link has
//! one number for good, and what is counted of it goes on when it comes back.
//!
//! **Whoever keeps a link knows which turn of it they keep.** Each time another link is wanted at a place, or none, a turn begins there; and where the
//! turn that somebody keeps is over, they begin no session, and keep that link no more. A thread that waits for a file is not woken: it sees that its
//! turn is over as soon as the neighbour says or takes a byte, or ends the streams.
//!
//! **The domain has one digest at a time**, which a reload sets: whoever begins to greet looks it up here, and so does who tells the status.

use crate::retrying::seconds;
use router_options::LinkFiles;
use std::alloc::{AllocError, Global};
use std::rt::Clock;
use std::sync::{Condvar, Mutex, MutexGuard, Wait};
use std::thread;

/// A link that is wanted, and the turn that it has.
#[derive(Drop)]
pub(crate) struct WantedLink {
    /// The neighbour, and the files.
    pub(crate) files: LinkFiles,
    /// The turn.
    pub(crate) turn: u32,
}

/// What is wanted at the place of a node.
#[derive(Drop)]
struct LinkPlace {
    /// The turn that is on.
    turn: u32,
    /// The link, if one is wanted.
    files: Option<LinkFiles>,
    /// The same, until who is to keep it takes it.
    untaken: Option<LinkFiles>,
    /// There are threads that keep the links of the node, or they were asked for.
    is_kept: bool,
}

/// What is wanted at all places.
#[derive(Drop)]
pub(crate) struct LinkPlaces {
    places: Vec<LinkPlace>,
    /// The digest of the domain that they are wanted in, if a file set it up.
    digest: Option<[u8; 8]>,
    /// The router is being closed.
    is_closing: bool,
}

/// The links that a router is to have.
#[derive(Drop)]
pub(crate) struct WantedLinks {
    places: Mutex<LinkPlaces>,
    condvar: Condvar,
}

/// Shows that the turn of a link is over, or that the router is being closed: only `WantedLinks` makes one, and only then.
#[derive(Drop)]
pub(crate) struct TurnEnd {
    of: (),
}

/// The same files.
pub(crate) fn copy_files(alloc: Global, files: &LinkFiles) -> Result<LinkFiles, AllocError> {
    Ok(LinkFiles {
        node: files.node,
        input: String::from_str(alloc, files.input.as_str())?,
        output: String::from_str(alloc, files.output.as_str())?,
    })
}

/// Whether these are the files of the link of a place.
fn has_files(place: &LinkPlace, files: &LinkFiles) -> bool {
    match &place.files {
        Some(before) => before == files,
        None => false,
    }
}

/// Whether the link of a place is wanted already, or that there be none.
fn is_set(place: &LinkPlace, files: &Option<LinkFiles>) -> bool {
    match files {
        Some(files) => has_files(place, files),
        None => place.files.is_none(),
    }
}

impl LinkPlaces {
    /// Whether this turn of a link is on, and not the router being closed.
    fn has_turn(&self, link: usize, turn: u32) -> bool {
        match self.places.get(link) {
            Some(place) => place.turn == turn && !self.is_closing,
            None => false,
        }
    }

    /// Shows that this turn of a link is over, if it is.
    fn end_of(&self, link: usize, turn: u32) -> Option<TurnEnd> {
        if self.has_turn(link, turn) {
            None
        } else {
            Some(TurnEnd { of: () })
        }
    }

    /// Takes the link of a place that is to be kept, if there is one.
    fn take(&mut self, link: usize) -> Option<WantedLink> {
        let place = self.places.get_mut(link)?;
        let files = place.untaken.take()?;
        Some(WantedLink {
            files,
            turn: place.turn,
        })
    }

    /// The first place whose link nobody keeps. Those who are to keep it count as there.
    fn take_unkept(&mut self) -> Option<usize> {
        let unkept = self
            .places
            .iter()
            .position(|place| place.untaken.is_some() && !place.is_kept);
        if let Some(link) = unkept {
            if let Some(place) = self.places.get_mut(link) {
                place.is_kept = true;
            }
        }
        unkept
    }
}

impl WantedLinks {
    /// These links, which threads are started for, and so many places without one, in a domain of this digest.
    pub(crate) fn new(
        alloc: Global,
        links: &[LinkFiles],
        spares: usize,
        digest: Option<[u8; 8]>,
    ) -> Result<WantedLinks, AllocError> {
        let mut places = Vec::new(alloc);
        for files in links {
            places.push(LinkPlace {
                turn: 0,
                files: Some(copy_files(alloc, files)?),
                untaken: Some(copy_files(alloc, files)?),
                is_kept: true,
            })?;
        }
        for _ in 0..spares {
            places.push(LinkPlace {
                turn: 0,
                files: None,
                untaken: None,
                is_kept: false,
            })?;
        }
        Ok(WantedLinks {
            places: Mutex::new(LinkPlaces {
                places,
                digest,
                is_closing: false,
            }),
            condvar: Condvar::new(),
        })
    }

    /// Whether a link is wanted at a place.
    pub(crate) fn is_wanted<R: Wait>(&self, rt: &R, link: usize) -> bool {
        match self.places.lock(rt).places.get(link) {
            Some(place) => place.files.is_some(),
            None => false,
        }
    }

    /// Whether these are the files of the link of a place.
    pub(crate) fn has_files<R: Wait>(&self, rt: &R, link: usize, files: &LinkFiles) -> bool {
        match self.places.lock(rt).places.get(link) {
            Some(place) => has_files(place, files),
            None => false,
        }
    }

    /// Whether this turn of a link is on.
    pub(crate) fn has_turn<R: Wait>(&self, rt: &R, link: usize, turn: u32) -> bool {
        self.places.lock(rt).has_turn(link, turn)
    }

    /// Holds this turn of a link on, if it is.
    pub(crate) fn hold_turn<R: Wait>(
        &self,
        rt: &R,
        link: usize,
        turn: u32,
    ) -> Option<MutexGuard<'_, LinkPlaces>> {
        let places = self.places.lock(rt);
        if places.has_turn(link, turn) {
            Some(places)
        } else {
            None
        }
    }

    /// The digest of the domain, if a file set it up.
    pub(crate) fn digest<R: Wait>(&self, rt: &R) -> Option<[u8; 8]> {
        self.places.lock(rt).digest
    }

    /// The domain has this digest from now on.
    pub(crate) fn set_digest<R: Wait>(&self, rt: &R, digest: [u8; 8]) {
        self.places.lock(rt).digest = Some(digest);
    }

    /// Another link is wanted at a place, or none: its turn, for which nobody is there yet. None, and nothing is done, where it is so already: somebody
    /// else said so first.
    pub(crate) fn set<R: Wait>(
        &self,
        rt: &R,
        link: usize,
        files: Option<LinkFiles>,
    ) -> Option<u32> {
        let mut places = self.places.lock(rt);
        let place = places.places.get_mut(link)?;
        if is_set(place, &files) {
            return None;
        }
        place.turn = place.turn.wrapping_add(1);
        place.files = files;
        place.untaken = None;
        let turn = place.turn;
        drop(places);
        self.condvar.notify_all();
        Some(turn)
    }

    /// Hands over the link of a turn that is on, if it has one, to who is to keep it.
    pub(crate) fn hand_over<R: Wait>(
        &self,
        rt: &R,
        link: usize,
        turn: u32,
        files: Option<LinkFiles>,
    ) {
        let mut places = self.places.lock(rt);
        if let Some(place) = places.places.get_mut(link) {
            if place.turn == turn {
                place.untaken = files;
            }
        }
        drop(places);
        self.condvar.notify_all();
    }

    /// Waits for a link that is to be kept at a place; None where the router is being closed.
    pub(crate) fn await_link<R: Wait>(&self, rt: &R, link: usize) -> Option<WantedLink> {
        let mut places = self.places.lock(rt);
        for _ in rt.forever() {
            if places.is_closing {
                return None;
            }
            if let Some(wanted) = places.take(link) {
                return Some(wanted);
            }
            places = self.condvar.wait(rt, places);
        }
        unreachable!()
    }

    /// Waits for a link that nobody keeps: its place; None where the router is being closed.
    pub(crate) fn await_unkept<R: Wait>(&self, rt: &R) -> Option<usize> {
        let mut places = self.places.lock(rt);
        for _ in rt.forever() {
            if places.is_closing {
                return None;
            }
            if let Some(link) = places.take_unkept() {
                return Some(link);
            }
            places = self.condvar.wait(rt, places);
        }
        unreachable!()
    }

    /// Rests for so many seconds, or until the turn of a link is over: that it is, if so. It is looked at once a second.
    pub(crate) fn rest<R: Wait + Clock>(
        &self,
        rt: &R,
        link: usize,
        turn: u32,
        count: u32,
    ) -> Option<TurnEnd> {
        for _ in 0..count {
            if let Some(end) = self.places.lock(rt).end_of(link, turn) {
                return Some(end);
            }
            thread::sleep(rt, seconds(1));
        }
        self.places.lock(rt).end_of(link, turn)
    }

    /// The router is being closed.
    pub(crate) fn close<R: Wait>(&self, rt: &R) {
        self.places.lock(rt).is_closing = true;
        self.condvar.notify_all();
    }
}
