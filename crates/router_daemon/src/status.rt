//! What a router is about, but for what its history says.

use crate::link_records::LinkRecord;
use crate::signals::Signals;
use link_handshake::digest_digits;
use operator_cmds::Direction;
use router_status::{LinkState, LinkStatus, Status};
use std::alloc::{AllocError, Global};
use std::rt::Clock;
use std::sync::Wait;

/// Whether a link is up, and for how many seconds nothing was heard of its neighbour, where it is open.
fn state_of<R: Wait>(rt: &R, signals: &Signals, link: usize) -> (LinkState, Option<u64>) {
    let session = signals.session(rt, link);
    let unheard = signals.stations.unheard(rt, link);
    match (session, unheard) {
        (Some(session), unheard) => (LinkState::Up(session), unheard),
        (None, Some(unheard)) => (LinkState::Open, Some(unheard)),
        (None, None) => (LinkState::Closed, None),
    }
}

/// What is told of a link to a node.
fn link_status<R: Wait + Clock>(
    rt: &R,
    alloc: Global,
    signals: &Signals,
    link: usize,
    node: u16,
) -> Result<LinkStatus, AllocError> {
    let (state, unheard) = state_of(rt, signals, link);
    let LinkRecord {
        since,
        sessions,
        received,
        sent,
        ended,
    } = signals.records.look(rt, alloc, link)?;
    let names = &signals.names;
    Ok(LinkStatus {
        node,
        state,
        since,
        sessions,
        received,
        sent,
        waiting: 0,
        import_named: names.look(rt, alloc, Direction::Import, link)?,
        import_status: None,
        export_named: names.look(rt, alloc, Direction::Export, link)?,
        export_status: None,
        unheard,
        ended,
    })
}

/// What is told of each link.
fn link_statuses<R: Wait + Clock>(
    rt: &R,
    alloc: Global,
    signals: &Signals,
) -> Result<Vec<LinkStatus>, AllocError> {
    let nodes = signals.nodes.as_slice();
    let mut links = Vec::with_capacity(alloc, nodes.len())?;
    for (link, node) in nodes.iter().enumerate() {
        if signals.wanted.is_wanted(rt, link) {
            links.push(link_status(rt, alloc, signals, link, *node)?)?;
        }
    }
    Ok(links)
}

/// The digits of the digest of a domain, if there is one.
fn digits_of(alloc: Global, digest: Option<[u8; 8]>) -> Result<Option<String>, AllocError> {
    let Some(digest) = digest else {
        return Ok(None);
    };
    match str::from_utf8(digest_digits(digest).as_slice()) {
        Ok(digits) => Ok(Some(String::from_str(alloc, digits)?)),
        Err(_) => Ok(None),
    }
}

/// What a router is about, but for what its history says.
pub(crate) fn status_of<R: Wait + Clock>(
    rt: &R,
    alloc: Global,
    signals: &Signals,
) -> Result<Status, AllocError> {
    let saved = *signals.saved.lock(rt);
    Ok(Status {
        version: signals.version,
        size: 0,
        node: 0,
        up: signals.records.up(rt),
        entries: 0,
        forgotten: 0,
        room: 0,
        saved: saved.map(|saved| saved.entries),
        segments: saved.map(|saved| saved.size.segments),
        bytes: saved.map(|saved| saved.size.bytes),
        domain: digits_of(alloc, signals.wanted.digest(rt))?,
        links: link_statuses(rt, alloc, signals)?,
    })
}
