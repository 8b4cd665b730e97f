//! Who tells the routes waits for something new.

use crate::signals::{Closing, Signals};
use std::alloc::{AllocError, Global};
use std::rt::Clock;
use std::sync::{Condvar, Mutex, Wait};
use std::time::Duration;

/// What is known of what is new.
#[derive(Drop)]
struct Known {
    /// How many entries the history has at least.
    entries: u64,
    /// For each link whether it may come up for the first time: it has not come up, and has not failed for good.
    is_awaited: Vec<bool>,
}

/// What who tells the routes waits for.
#[derive(Drop)]
pub(crate) struct News {
    known: Mutex<Known>,
    condvar: Condvar,
}

impl News {
    /// The news of a router that has so many links when it begins.
    pub(crate) fn new(alloc: Global, links: usize) -> Result<News, AllocError> {
        let mut is_awaited = Vec::with_capacity(alloc, links)?;
        for _ in 0..links {
            is_awaited.push(true)?;
        }
        Ok(News {
            known: Mutex::new(Known {
                entries: 0,
                is_awaited,
            }),
            condvar: Condvar::new(),
        })
    }

    /// Notes that an entry was made at this position.
    pub(crate) fn note<R: Wait>(&self, rt: &R, at: u64) {
        let mut known = self.known.lock(rt);
        known.entries = known.entries.max(at.saturating_add(1));
        drop(known);
        self.condvar.notify_one();
    }

    /// Notes that a link came up, or failed and is not opened again.
    pub(crate) fn note_there<R: Wait>(&self, rt: &R, link: usize) {
        let mut known = self.known.lock(rt);
        if link < known.is_awaited.len() {
            known.is_awaited[link] = false;
        }
    }

    /// Wakes who waits.
    pub(crate) fn notify<R: Wait>(&self, rt: &R) {
        let known = self.known.lock(rt);
        drop(known);
        self.condvar.notify_one();
    }

    /// How many entries the history has at least, and whether no link is still to come up for the first time.
    pub(crate) fn look<R: Wait>(&self, rt: &R) -> (u64, bool) {
        let known = self.known.lock(rt);
        let mut are_there = true;
        for is_awaited in &known.is_awaited {
            if *is_awaited {
                are_there = false;
            }
        }
        (known.entries, are_there)
    }
}

impl Signals {
    /// Sleeps until the history has more entries than are told, or the router is being closed, and no longer than this: that it is being closed, if so.
    pub(crate) fn await_news<R: Wait + Clock>(
        &self,
        rt: &R,
        told: u64,
        longest: Duration,
    ) -> Option<Closing> {
        let known = self.news.known.lock(rt);
        let closing = self.closing(rt);
        if closing.is_some() || known.entries > told {
            return closing;
        }
        drop(self.news.condvar.wait_timeout(rt, known, longest).0);
        self.closing(rt)
    }
}
