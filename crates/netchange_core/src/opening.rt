//! What a router is opened with.
//!
//! **`filtered_distance` is public, and an opening can be given another prefix of a node**, so that what a distance becomes under a filter is
//! computed in one place: `domain_routes` asks for it too.

ghost use Rattle.std.specs.Prelude.{◌≡◌, ◌<◌, IfOk, length, slice_set};
ghost use Rattle.std.specs.Option.{SomeIff};

use filter_code::{LARGEST_SIZE, SMALLEST_SIZE};
use prefix_patterns::Prefix;
use std::alloc::{AllocError, Global};
use std::marker::Model;

/// The routing domain, and the node in it that the router is.
///
/// The domain's nodes are numbered from 0. A contract sees an opening as an `OpeningView`.
#[derive(Drop)]
pub struct Opening {
    size: u16,
    me: u16,
    prefixes: Vec<Prefix>,
}

impl Model for Opening {
    ghost use Rattle.netchange_core.specs.OpeningView.{OpeningView, IsOpening};

    ghost Value = { OpeningView };

    ghost view = { λ o. record { size = o.size; me = o.me; prefixes = o.prefixes.items } };

    ghost invariant = { λ o. IsOpening (record { size = o.size; me = o.me; prefixes = o.prefixes.items }) };
}

impl Opening {
    ghost use Rattle.netchange_core.specs.OpeningView.{OpeningView, IsOpening};

    /// The opening of node `me` in a domain of `size` nodes with these prefixes, one a node, by number. None exactly where
    /// the size is not 2 to 250, `me` is no node, or there are more or fewer prefixes than nodes; the prefixes are then dropped.
    pub fn new(size: u16, me: u16, prefixes: Vec<Prefix>) -> Option<Opening>
        ensures { let opening : OpeningView = record { size = size; me = me; prefixes = prefixes.items } in
            SomeIff result (IsOpening opening) opening }
    {
        let is_size = SMALLEST_SIZE <= u32::from(size) && u32::from(size) <= LARGEST_SIZE;
        if is_size && me < size && prefixes.len() == usize::from(size) {
            Some(Opening { size, me, prefixes })
        } else {
            None
        }
    }

    /// An opening with the same size, node and prefixes.
    pub fn copy(&self, alloc: Global) -> Result<Opening, AllocError>
        ensures { IfOk result (λ o. o ≡ self.now) }
    {
        let prefixes = Vec::from_slice(alloc, self.prefixes.as_slice())?;
        Ok(Opening {
            size: self.size,
            me: self.me,
            prefixes,
        })
    }

    /// Gives a node another prefix.
    pub fn set_prefix(&mut self, node: u16, prefix: Prefix)
        requires { node < self.old.size }
        ensures { self.new ≡ record self.old { prefixes = slice_set self.old.prefixes node prefix } }
    {
        self.prefixes[usize::from(node)] = prefix;
    }

    /// The number of nodes of the domain, 2 to 250.
    pub fn size(&self) -> u16
        ensures value { result ≡ self.now.size }
        ensures limits { IsOpening self.now }
    {
        self.size
    }

    /// The node that the router is, below the size.
    pub fn me(&self) -> u16
        ensures value { result ≡ self.now.me }
        ensures limits { IsOpening self.now }
    {
        self.me
    }

    /// The prefix of each node, by number.
    pub fn prefixes(&self) -> &[Prefix]
        ensures value { result.now ≡ self.now.prefixes }
        ensures one_a_node { length result.now ≡ self.now.size }
    {
        &self.prefixes
    }
}
