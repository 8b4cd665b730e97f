//! The links of a router change while it runs.
//!
//! **All that a change needs is made before the first one**, so that a reload for which there is no memory changes no link.
//!
//! **A link that goes has its Down in the history when the reload is answered**, unless the history is full: then it is owed, as ever.

use crate::signals::Signals;
use crate::telling::{CloseReason, Event};
use crate::wanted::copy_files;
use neighbour_session::{SessionEnd, pause};
use router_operator::LinkChange;
use router_options::LinkFiles;
use std::alloc::{AllocError, Global};
use std::rt::Clock;
use std::sync::Wait;

/// How often it is looked whether the Down of a link is entered: for a second.
const TRIES: u32 = 200;

/// The link to a node, if these have one.
fn link_to(links: &[LinkFiles], node: u16) -> Option<&LinkFiles> {
    for files in links {
        if files.node == node {
            return Some(files);
        }
    }
    None
}

/// What becomes of a link that is to have these files from now on.
fn change_to(
    alloc: Global,
    link: usize,
    is_new: bool,
    files: &LinkFiles,
) -> Result<LinkChange, AllocError> {
    Ok(LinkChange {
        link,
        node: files.node,
        is_new,
        files: Some(copy_files(alloc, files)?),
        copy: Some(copy_files(alloc, files)?),
    })
}

impl Signals {
    /// What becomes of the link to a node, if anything does, where these links are wanted.
    fn compare_link<R: Wait>(
        &self,
        rt: &R,
        alloc: Global,
        links: &[LinkFiles],
        link: usize,
        node: u16,
    ) -> Result<Option<LinkChange>, AllocError> {
        let is_wanted = self.wanted.is_wanted(rt, link);
        match link_to(links, node) {
            Some(files) if self.wanted.has_files(rt, link, files) => Ok(None),
            Some(files) => Ok(Some(change_to(alloc, link, !is_wanted, files)?)),
            None if is_wanted => Ok(Some(LinkChange {
                link,
                node,
                is_new: false,
                files: None,
                copy: None,
            })),
            None => Ok(None),
        }
    }

    /// What becomes of the links where these are wanted.
    pub(crate) fn compare_all<R: Wait>(
        &self,
        rt: &R,
        alloc: Global,
        links: &[LinkFiles],
    ) -> Result<Vec<LinkChange>, AllocError> {
        let mut changes = Vec::new(alloc);
        for (link, node) in self.nodes.iter().enumerate() {
            if let Some(change) = self.compare_link(rt, alloc, links, link, *node)? {
                changes.push(change)?;
            }
        }
        Ok(changes)
    }

    /// Ends the session of a link, if one is there and nobody else ended it. Its Down is owed then.
    pub(crate) fn end_session<R: Wait + Clock>(&self, rt: &R, link: usize) {
        let Some(session) = self.session(rt, link) else {
            return;
        };
        if self.end(rt, link, session, false).is_first() {
            self.owe(rt, link, session);
            self.end_change(rt, link);
        }
    }

    /// Another link is wanted than there is, or none: that one is closed, its session is over, and the other one is opened.
    fn change_link<R: Wait + Clock>(&self, rt: &R, change: LinkChange) {
        let LinkChange {
            link,
            node,
            is_new,
            files,
            copy,
        } = change;
        let Some(turn) = self.wanted.set(rt, link, files) else {
            return;
        };
        self.stations.close(rt, link);
        self.end_session(rt, link);
        self.notify(rt, link);
        self.await_down(rt, link);
        self.wanted.hand_over(rt, link, turn, copy);
        if !is_new {
            let why = CloseReason::Ended(SessionEnd::Closed);
            self.log(rt, Event::Closed { node, why });
        }
    }

    /// Waits until the Down of a link is entered, if it is to be, for a second at most.
    fn await_down<R: Wait + Clock>(&self, rt: &R, link: usize) {
        for _ in 0..TRIES {
            // Who takes what is owed says before that they change the link.
            if !self.owes(rt, link) && !self.is_changing(rt) {
                return;
            }
            pause(rt);
        }
    }

    /// Changes links, in a domain that has this digest from now on.
    pub(crate) fn change_all<R: Wait + Clock>(
        &self,
        rt: &R,
        changes: Vec<LinkChange>,
        digest: [u8; 8],
    ) {
        self.wanted.set_digest(rt, digest);
        for change in changes {
            self.change_link(rt, change);
        }
    }
}
