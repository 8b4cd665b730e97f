//! What a plan has between a node and another.

ghost use Rattle.std.specs.Prelude.{◌≡◌, IfOk, None, Some};
ghost use Rattle.netchange_core.specs.Kept.{filter_of};
ghost use Rattle.domain_routes.specs.PlanView.{stranger};

use filter_verifier::Verified;
use std::alloc::AllocError;
use std::marker::Model;
use std::sync::Arc;

/// A node as another node has it: whether there is a link, and the filters of what it tells and of what it is told. The filters
/// stay where there is no link.
///
/// A contract sees it as a `PeerView`.
#[derive(Drop)]
pub(crate) struct Peer {
    linked: bool,
    imports: Option<Arc<Verified>>,
    exports: Option<Arc<Verified>>,
}

impl Model for Peer {
    ghost use Rattle.netchange_core.specs.Kept.{filter_of};
    ghost use Rattle.domain_routes.specs.PlanView.{PeerView};

    ghost Value = { PeerView };

    ghost view = { λ p. record { linked = p.linked; imports = filter_of p.imports; exports = filter_of p.exports } };
}

/// The same filter, or none.
fn copy_filter(filter: &Option<Arc<Verified>>) -> Result<Option<Arc<Verified>>, AllocError>
    ensures { IfOk result (λ f. filter_of f ≡ filter_of filter.now) }
{
    match filter {
        Some(filter) => Ok(Some(Arc::try_clone(filter)?)),
        None => Ok(None),
    }
}

impl Peer {
    /// The same again.
    pub(crate) fn copy(&self) -> Result<Peer, AllocError>
        ensures { IfOk result (λ p. p ≡ self.now) }
    {
        Ok(Peer {
            linked: self.linked,
            imports: copy_filter(&self.imports)?,
            exports: copy_filter(&self.exports)?,
        })
    }

    /// A node without a link and without filters.
    pub(crate) fn stranger() -> Peer
        ensures { result ≡ stranger }
    {
        Peer {
            linked: false,
            imports: None,
            exports: None,
        }
    }

    /// Whether there is a link.
    pub(crate) fn is_linked(&self) -> bool
        ensures { result ≡ self.now.linked }
    {
        self.linked
    }

    /// The filter of what the node tells.
    pub(crate) fn imports(&self) -> &Option<Arc<Verified>>
        ensures { filter_of result.now ≡ self.now.imports }
    {
        &self.imports
    }

    /// The filter of what the node is told.
    pub(crate) fn exports(&self) -> &Option<Arc<Verified>>
        ensures { filter_of result.now ≡ self.now.exports }
    {
        &self.exports
    }

    /// There is a link from now on, or none.
    pub(crate) fn set_linked(&mut self, linked: bool)
        ensures { self.new ≡ record self.old { linked = linked } }
    {
        self.linked = linked;
    }

    /// What the node tells passes this filter from now on.
    pub(crate) fn set_imports(&mut self, filter: Arc<Verified>)
        ensures { self.new ≡ record self.old { imports = Some filter.value } }
    {
        self.imports = Some(filter);
    }

    /// What the node is told passes this filter from now on.
    pub(crate) fn set_exports(&mut self, filter: Arc<Verified>)
        ensures { self.new ≡ record self.old { exports = Some filter.value } }
    {
        self.exports = Some(filter);
    }
    /// What the node tells passes no filter from now on.
    pub(crate) fn drop_imports(&mut self)
        ensures { self.new ≡ record self.old { imports = None } }
    {
        self.imports = None;
    }

    /// What the node is told passes no filter from now on.
    pub(crate) fn drop_exports(&mut self)
        ensures { self.new ≡ record self.old { exports = None } }
    {
        self.exports = None;
    }
}
