//! The ends of the links of a router, as those who serve them share them.
ghost use Rattle.std.specs.Prelude.{◌≡◌, ◌<◌, IfSome};
ghost use Rattle.link_handshake.specs.declared.said.Said.TheVariants.{Greeting as greets};

use crate::station::Station;
use link_handshake::{CameUp, Greeting, Said, Speaker, Unheard};
use std::alloc::{AllocError, Global};
use std::random::RandomSource;
use std::sync::{Mutex, Wait};

/// The ends of the links of a router.
#[derive(Drop)]
pub(crate) struct Stations {
    /// For each link its end, while its streams are open.
    stations: Vec<Mutex<Option<Station>>>,
}

/// A number for an attempt, chosen at random. Where none is to be had, one that was not used lately.
fn draw<R: RandomSource>(rt: &R, before: u32) -> u32
    ensures { 0 < result }
{
    let mut bytes = [0; 4];
    let number = match rt.fill_bytes(&mut bytes) {
        Ok(()) => u32::from_le_bytes(bytes),
        Err(_) => before.wrapping_add(1),
    };
    number.max(1)
}

impl Stations {
    /// The ends of so many links, which are closed.
    pub(crate) fn new(alloc: Global, count: usize) -> Result<Stations, AllocError> {
        let mut stations = Vec::with_capacity(alloc, count)?;
        for _ in 0..count {
            stations.push(Mutex::new(None))?;
        }
        Ok(Stations { stations })
    }

    /// A link is opened: its end begins, and owes its greeting.
    pub(crate) fn open<R: Wait + RandomSource>(
        &self,
        rt: &R,
        link: usize,
        speaker: Speaker,
        now: u64,
    ) {
        let Some(station) = self.stations.get(link) else {
            return;
        };
        let mut station = station.lock(rt);
        let last = match &*station {
            Some(before) => before.next,
            None => 0,
        };
        let number = draw(rt, last);
        let next = draw(rt, number);
        *station = Some(Station::open(speaker, number, next, now));
    }

    /// A link is closed, or cannot be written to any more. Whether it was open until now.
    pub(crate) fn close<R: Wait>(&self, rt: &R, link: usize) -> bool {
        match self.stations.get(link) {
            Some(station) => station.lock(rt).take().is_some(),
            None => false,
        }
    }

    /// Whether a link is open.
    pub(crate) fn is_open<R: Wait>(&self, rt: &R, link: usize) -> bool {
        match self.stations.get(link) {
            Some(station) => station.lock(rt).is_some(),
            None => false,
        }
    }

    /// For how many seconds no line was heard on a link, if it is open.
    pub(crate) fn unheard<R: Wait>(&self, rt: &R, link: usize) -> Option<u64> {
        let guard = self.stations.get(link)?.lock(rt);
        match &*guard {
            Some(station) => Some(u64::from(station.post.clocks.unheard / 1_000)),
            None => None,
        }
    }

    /// The end of a link hears a line, without a session: what it came up on, if it did.
    pub(crate) fn hear<R: Wait + RandomSource>(
        &self,
        rt: &R,
        link: usize,
        line: Said,
    ) -> Option<CameUp>
        ensures { IfSome result (λ m. (line ≡ greets m.greeting) × (m.greeting.heard ≡ m.number)) }
    {
        let mut guard = self.stations.get(link)?.lock(rt);
        let station = guard.as_mut()?;
        let next = draw(rt, station.next);
        station.next = draw(rt, next);
        station.hear(line, next)
    }

    /// A line was heard in session.
    pub(crate) fn note_heard<R: Wait>(&self, rt: &R, link: usize) {
        if let Some(station) = self.stations.get(link) {
            if let Some(station) = station.lock(rt).as_mut() {
                station.post.note_alive();
            }
        }
    }

    /// A line was written in session.
    pub(crate) fn note_written<R: Wait>(&self, rt: &R, link: usize) {
        if let Some(station) = self.stations.get(link) {
            if let Some(station) = station.lock(rt).as_mut() {
                station.post.wrote();
            }
        }
    }

    /// The session of a link is over: its end begins anew, in a domain of this digest. If a line ended it, who reads the link hears that line next.
    pub(crate) fn begin_anew<R: Wait>(
        &self,
        rt: &R,
        link: usize,
        by_line: bool,
        digest: Option<[u8; 8]>,
    ) {
        if let Some(station) = self.stations.get(link) {
            if let Some(station) = station.lock(rt).as_mut() {
                station.begin_anew(by_line, digest);
            }
        }
    }

    /// Who reads a link has no line at hand that is heard first.
    pub(crate) fn listen<R: Wait>(&self, rt: &R, link: usize) {
        if let Some(station) = self.stations.get(link) {
            if let Some(station) = station.lock(rt).as_mut() {
                station.listen();
            }
        }
    }

    /// The greeting that the end of a link has to write now, if it has to.
    pub(crate) fn take_greeting<R: Wait>(&self, rt: &R, link: usize) -> Option<Greeting> {
        let mut guard = self.stations.get(link)?.lock(rt);
        guard.as_mut()?.take_greeting()
    }

    /// Whether the end of a link has to write a line.
    pub(crate) fn is_due<R: Wait>(&self, rt: &R, link: usize) -> bool {
        match self.stations.get(link) {
            Some(station) => match &*station.lock(rt) {
                Some(station) => station.is_due(),
                None => false,
            },
            None => false,
        }
    }

    /// Looks at the clock of a link: that nothing was heard for too long in its session, if it is so.
    pub(crate) fn look<R: Wait>(&self, rt: &R, link: usize, now: u64) -> Option<Unheard> {
        let mut guard = self.stations.get(link)?.lock(rt);
        guard.as_mut()?.look(now)
    }
}
