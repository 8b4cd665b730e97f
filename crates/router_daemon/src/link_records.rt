//! What is counted of the links of a router.
//!
//! **Times are those of a clock that never goes back**, in milliseconds. Where it cannot be read, no time has gone by.

use crate::watching::now;
use std::alloc::{AllocError, Global};
use std::rt::Clock;
use std::sync::{Mutex, Wait};

/// What is counted of a link.
#[derive(Drop)]
pub(crate) struct LinkRecord {
    /// Since when it has been up, or not.
    pub(crate) since: u64,
    /// How many sessions it had, with the one that it has.
    pub(crate) sessions: u64,
    /// How many messages were heard of the neighbour.
    pub(crate) received: u64,
    /// How many were handed to who writes to the neighbour.
    pub(crate) sent: u64,
    /// Why its last session ended, or it did not come up.
    pub(crate) ended: Option<String>,
}

/// What is counted of the links of a router.
#[derive(Drop)]
pub(crate) struct LinkRecords {
    records: Vec<Mutex<LinkRecord>>,
    /// Since when the router runs.
    begun: u64,
}

/// So many whole seconds.
fn seconds_of(milliseconds: u64) -> u64 {
    milliseconds / 1_000
}

/// A copy of a text, if there is one.
fn copy_of(alloc: Global, text: &Option<String>) -> Result<Option<String>, AllocError> {
    match text {
        Some(text) => Ok(Some(String::from_str(alloc, text.as_str())?)),
        None => Ok(None),
    }
}

impl LinkRecords {
    /// Those of so many links of a router that begins at this time.
    pub(crate) fn new(alloc: Global, links: usize, begun: u64) -> Result<LinkRecords, AllocError> {
        let mut records = Vec::with_capacity(alloc, links)?;
        for _ in 0..links {
            records.push(Mutex::new(LinkRecord {
                since: begun,
                sessions: 0,
                received: 0,
                sent: 0,
                ended: None,
            }))?;
        }
        Ok(LinkRecords { records, begun })
    }

    /// For how many seconds it is since then.
    fn since<R: Clock>(&self, rt: &R, then: u64) -> u64 {
        seconds_of(now(rt).unwrap_or(then).saturating_sub(then))
    }

    /// For how many seconds the router runs.
    pub(crate) fn up<R: Clock>(&self, rt: &R) -> u64 {
        self.since(rt, self.begun)
    }

    /// A session of a link began.
    pub(crate) fn note_begun<R: Wait + Clock>(&self, rt: &R, link: usize) {
        if let Some(record) = self.records.get(link) {
            let mut record = record.lock(rt);
            record.since = now(rt).unwrap_or(record.since);
            record.sessions = record.sessions.saturating_add(1);
        }
    }

    /// The session of a link is over.
    pub(crate) fn note_over<R: Wait + Clock>(&self, rt: &R, link: usize) {
        if let Some(record) = self.records.get(link) {
            let mut record = record.lock(rt);
            record.since = now(rt).unwrap_or(record.since);
        }
    }

    /// A message was heard of the neighbour of a link.
    pub(crate) fn note_received<R: Wait>(&self, rt: &R, link: usize) {
        if let Some(record) = self.records.get(link) {
            let mut record = record.lock(rt);
            record.received = record.received.saturating_add(1);
        }
    }

    /// So many messages were handed to who writes to the neighbour of a link.
    pub(crate) fn note_sent<R: Wait>(&self, rt: &R, link: usize, count: usize) {
        if let Some(record) = self.records.get(link) {
            let mut record = record.lock(rt);
            record.sent = record.sent.saturating_add(count as u64);
        }
    }

    /// A link was closed for this reason, or did not come up. Without memory for it nothing is known of the reason.
    pub(crate) fn note_ended<R: Wait>(&self, rt: &R, link: usize, why: Option<String>) {
        if let Some(record) = self.records.get(link) {
            record.lock(rt).ended = why;
        }
    }

    /// What is counted of a link: since how many seconds it has been up or not, its sessions, what was heard and sent, and why it was closed last.
    pub(crate) fn look<R: Wait + Clock>(
        &self,
        rt: &R,
        alloc: Global,
        link: usize,
    ) -> Result<LinkRecord, AllocError> {
        let Some(record) = self.records.get(link) else {
            return Err(AllocError);
        };
        let record = record.lock(rt);
        Ok(LinkRecord {
            since: self.since(rt, record.since),
            sessions: record.sessions,
            received: record.received,
            sent: record.sent,
            ended: copy_of(alloc, &record.ended)?,
        })
    }
}
