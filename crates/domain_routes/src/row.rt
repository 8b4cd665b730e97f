//! What a plan has between a node and all others.

ghost use Rattle.std.specs.Prelude.{◌≡◌, ◌<◌, IfOk, None, Some, length, replicate, slice_index_or, slice_set};
ghost use Rattle.domain_routes.specs.PlanView.{stranger};

use crate::peer::Peer;
use filter_verifier::Verified;
use std::alloc::{AllocError, Global};
use std::marker::Model;
use std::sync::Arc;

/// Each node as one node has it, by number.
#[derive(Drop)]
pub(crate) struct Row {
    peers: Vec<Peer>,
}

impl Model for Row {
    ghost use Rattle.std.specs.Prelude.{List};
    ghost use Rattle.domain_routes.specs.PlanView.{PeerView};

    ghost Value = { List PeerView };

    ghost view = { λ r. r.peers.items };
}

/// The same nodes again.
fn copy_peers(alloc: Global, peers: &[Peer]) -> Result<Vec<Peer>, AllocError>
    ensures { IfOk result (λ copies. copies.items ≡ peers.now) }
{
    let mut copies = Vec::with_capacity(alloc, peers.len())?;
    for peer in peers {
        copies.push(peer.copy()?)?;
    }
    Ok(copies)
}

impl Row {
    /// A row without links and filters.
    pub(crate) fn strangers(alloc: Global, size: u16) -> Result<Row, AllocError>
        ensures { IfOk result (λ r. r ≡ replicate size stranger) }
    {
        let mut peers = Vec::with_capacity(alloc, usize::from(size))?;
        for _ in 0..size {
            peers.push(Peer::stranger())?;
        }
        Ok(Row { peers })
    }

    /// The same again.
    pub(crate) fn copy(&self, alloc: Global) -> Result<Row, AllocError>
        ensures { IfOk result (λ r. r ≡ self.now) }
    {
        Ok(Row {
            peers: copy_peers(alloc, self.peers.as_slice())?,
        })
    }

    /// A node as this one has it.
    pub(crate) fn peer(&self, node: u16) -> &Peer
        requires { node < length self.now }
        ensures { result.now ≡ slice_index_or self.now node stranger }
    {
        &self.peers[usize::from(node)]
    }

    /// There is a link to a node from now on, or none.
    pub(crate) fn set_linked(&mut self, node: u16, linked: bool)
        requires { node < length self.old }
        ensures { self.new ≡ slice_set self.old node (record (slice_index_or self.old node stranger) { linked = linked }) }
    {
        self.peers[usize::from(node)].set_linked(linked);
    }

    /// What a node tells passes this filter from now on.
    pub(crate) fn set_imports(&mut self, node: u16, filter: Arc<Verified>)
        requires { node < length self.old }
        ensures { self.new ≡ slice_set self.old node (record (slice_index_or self.old node stranger) { imports = Some filter.value }) }
    {
        self.peers[usize::from(node)].set_imports(filter);
    }

    /// What a node is told passes this filter from now on.
    pub(crate) fn set_exports(&mut self, node: u16, filter: Arc<Verified>)
        requires { node < length self.old }
        ensures { self.new ≡ slice_set self.old node (record (slice_index_or self.old node stranger) { exports = Some filter.value }) }
    {
        self.peers[usize::from(node)].set_exports(filter);
    }
    /// What a node tells passes no filter from now on.
    pub(crate) fn drop_imports(&mut self, node: u16)
        requires { node < length self.old }
        ensures { self.new ≡ slice_set self.old node (record (slice_index_or self.old node stranger) { imports = None }) }
    {
        self.peers[usize::from(node)].drop_imports();
    }

    /// What a node is told passes no filter from now on.
    pub(crate) fn drop_exports(&mut self, node: u16)
        requires { node < length self.old }
        ensures { self.new ≡ slice_set self.old node (record (slice_index_or self.old node stranger) { exports = None }) }
    {
        self.peers[usize::from(node)].drop_exports();
    }
}
