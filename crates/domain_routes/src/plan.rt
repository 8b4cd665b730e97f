//! The plan of a domain: its nodes' prefixes, the links between the nodes, and the filters on them.
//!
//! **A plan has a place for each two nodes**, and not a list of the neighbours of each. A filter stays where there is no link, so the places have
//! to be kept anyway; a change then needs no memory and cannot fail; and a look at a place is one index. In a domain of 250 nodes that is 1.5 MB.
//! The routes to a node take a look at each pair, linked or not, and Dijkstra's order compares as many distances to find the nearest nodes.
//!
//! **Links and nodes that there are not are conditions of the calls, and no refusals.** The command that changes plans has to tell its user which
//! of them it was, and has looked before.

ghost use Rattle.std.specs.Prelude.{◌≡◌, ◌≢◌, ◌≤◌, ◌<◌, ℕ, IfOk, false, length, slice_index_or, slice_set, true};
ghost use Rattle.std.specs.Option.{SomeIff};
ghost use Rattle.domain_routes.specs.Edits.{exporting, importing, linking, unfiltered, unlinked, with_prefix};
ghost use Rattle.domain_routes.specs.PlanView.{IsPlan, IsSize, is_linked, opening_of, peer, stranger};
ghost use Rattle.domain_routes.specs.Still.{HasFewerLinks};
ghost use Rattle.domain_routes.specs.Topology.{filtered};
ghost use Rattle.netchange_core.specs.Kept.{filter_of};

use crate::peer::Peer;
use crate::row::Row;
use filter_verifier::Verified;
use netchange_core::{Opening, filtered_distance};
use prefix_patterns::Prefix;
use std::alloc::{AllocError, Global};
use std::marker::Model;
use std::sync::Arc;

/// The plan of a domain of 2 to 250 nodes: the prefix of each node, the links between the nodes, and the filters on them.
///
/// Nodes are numbered from 0. A link is mutual, and no node is linked to itself. A filter stays where there is no link, or no
/// link any more. A contract sees a plan as a `PlanView`. It keeps a place for each two nodes, so that nothing but making one
/// needs memory.
#[derive(Drop)]
pub struct Plan {
    opening: Opening,
    rows: Vec<Row>,
}

impl Model for Plan {
    ghost use Rattle.std.specs.Prelude.{◌≡◌};
    ghost use Rattle.domain_routes.specs.PlanView.{IsPlan, PlanView};

    ghost Value = { PlanView };

    ghost view = { λ p. record { size = p.opening.size; prefixes = p.opening.prefixes; rows = p.rows.items } };

    ghost invariant = { λ p. (p.opening.me ≡ 0) × IsPlan (record { size = p.opening.size; prefixes = p.opening.prefixes; rows = p.rows.items }) };
}

/// The plan without links and filters, where its first node was opened with these prefixes.
fn make_plan(alloc: Global, opening: Opening) -> Result<Plan, AllocError>
    requires { opening.me ≡ 0 }
    ensures { IfOk result (λ p. p ≡ unlinked opening.prefixes) }
{
    let size = opening.size();
    let mut rows = Vec::with_capacity(alloc, usize::from(size))?;
    for _ in 0..size {
        rows.push(Row::strangers(alloc, size)?)?;
    }
    Ok(Plan { opening, rows })
}

/// The same rows again.
fn copy_rows(alloc: Global, rows: &[Row]) -> Result<Vec<Row>, AllocError>
    ensures { IfOk result (λ copies. copies.items ≡ rows.now) }
{
    let mut copies = Vec::with_capacity(alloc, rows.len())?;
    for row in rows {
        copies.push(row.copy(alloc)?)?;
    }
    Ok(copies)
}

impl Plan {
    /// A plan without links and filters, of as many nodes as there are prefixes. None exactly where these are not 2 to 250.
    pub fn new(alloc: Global, prefixes: Vec<Prefix>) -> Result<Option<Plan>, AllocError>
        ensures { IfOk result (λ p. SomeIff p (IsSize (length prefixes.items)) (unlinked prefixes.items)) }
    {
        let Ok(size) = u16::try_from(prefixes.len()) else {
            return Ok(None);
        };
        match Opening::new(size, 0, prefixes) {
            Some(opening) => Ok(Some(make_plan(alloc, opening)?)),
            None => Ok(None),
        }
    }

    /// The same plan again.
    pub fn copy(&self, alloc: Global) -> Result<Plan, AllocError>
        ensures { IfOk result (λ p. p ≡ self.now) }
    {
        let opening = self.opening.copy(alloc)?;
        let rows = copy_rows(alloc, self.rows.as_slice())?;
        Ok(Plan { opening, rows })
    }

    /// The number of nodes, 2 to 250.
    pub fn size(&self) -> u16
        ensures value { result ≡ self.now.size }
        ensures limits { IsPlan self.now }
    {
        self.opening.size()
    }

    /// The prefix of each node, by number.
    pub fn prefixes(&self) -> &[Prefix]
        ensures value { result.now ≡ self.now.prefixes }
        ensures one_a_node { length result.now ≡ self.now.size }
    {
        self.opening.prefixes()
    }

    /// Gives a node another prefix.
    pub fn set_prefix(&mut self, node: u16, prefix: Prefix)
        requires { node < self.old.size }
        ensures { self.new ≡ with_prefix node prefix self.old }
    {
        self.opening.set_prefix(node, prefix);
    }

    /// All nodes as one has them.
    pub(crate) fn row(&self, u: u16) -> &Row
        requires { u < self.now.size }
        ensures one_a_node { length result.now ≡ self.now.size }
        ensures linked { (w : ℕ) → (slice_index_or result.now w stranger).linked ≡ is_linked self.now w u }
    {
        &self.rows[usize::from(u)]
    }

    /// A node as another has it.
    pub(crate) fn peer(&self, u: u16, w: u16) -> &Peer
        requires u { u < self.now.size }
        requires w { w < self.now.size }
        ensures { result.now ≡ peer self.now u w }
    {
        self.rows[usize::from(u)].peer(w)
    }

    /// Whether there is a link between two nodes.
    pub fn is_linked(&self, u: u16, w: u16) -> bool
        requires u { u < self.now.size }
        requires w { w < self.now.size }
        ensures value { result ≡ is_linked self.now u w }
        ensures both_ways { is_linked self.now w u ≡ is_linked self.now u w }
        ensures apart { is_linked self.now u u ≡ false }
    {
        self.rows[usize::from(u)].peer(w).is_linked()
    }

    /// There is a link between two nodes from now on, or none.
    fn set_linked(&mut self, u: u16, w: u16, linked: bool)
        requires u { u < self.old.size }
        requires w { w < self.old.size }
        requires apart { u ≢ w }
        ensures value { self.new ≡ linking linked u w self.old }
        ensures plan { IsPlan self.old }
    {
        self.rows[usize::from(u)].set_linked(w, linked);
        self.rows[usize::from(w)].set_linked(u, linked);
    }

    /// Two nodes are neighbours from now on.
    pub fn link(&mut self, u: u16, w: u16)
        requires u { u < self.old.size }
        requires w { w < self.old.size }
        requires apart { u ≢ w }
        ensures { self.new ≡ linking true u w self.old }
    {
        self.set_linked(u, w, true);
    }

    /// Two nodes are neighbours no more. Their filters stay, so a link that is made again leaves the plan as it was.
    pub fn cut(&mut self, u: u16, w: u16)
        requires u { u < self.old.size }
        requires w { w < self.old.size }
        requires apart { u ≢ w }
        ensures value { self.new ≡ linking false u w self.old }
        ensures fewer { HasFewerLinks self.old self.new }
        ensures back { is_linked self.old u w ≡ true → linking true u w self.new ≡ self.old }
    {
        self.set_linked(u, w, false);
    }

    /// What the first node receives from the second passes this filter from now on, whether they are linked or not.
    pub fn set_import(&mut self, u: u16, w: u16, filter: Arc<Verified>)
        requires u { u < self.old.size }
        requires w { w < self.old.size }
        requires fits { filter.value.size ≡ self.old.size }
        ensures { self.new ≡ importing filter.value u w self.old }
    {
        self.rows[usize::from(u)].set_imports(w, filter);
    }

    /// What the first node tells the second passes this filter from now on, whether they are linked or not.
    pub fn set_export(&mut self, u: u16, w: u16, filter: Arc<Verified>)
        requires u { u < self.old.size }
        requires w { w < self.old.size }
        requires fits { filter.value.size ≡ self.old.size }
        ensures { self.new ≡ exporting filter.value u w self.old }
    {
        self.rows[usize::from(u)].set_exports(w, filter);
    }

    /// The filter of what the first node receives from the second, if there is one.
    pub fn import(&self, u: u16, w: u16) -> &Option<Arc<Verified>>
        requires u { u < self.now.size }
        requires w { w < self.now.size }
        ensures { filter_of result.now ≡ (peer self.now u w).imports }
    {
        self.peer(u, w).imports()
    }

    /// The filter of what the first node tells the second, if there is one.
    pub fn export(&self, u: u16, w: u16) -> &Option<Arc<Verified>>
        requires u { u < self.now.size }
        requires w { w < self.now.size }
        ensures { filter_of result.now ≡ (peer self.now u w).exports }
    {
        self.peer(u, w).exports()
    }

    /// What the first node receives from the second passes no filter from now on, neither that of the first nor that of the second.
    pub fn take_filters_off(&mut self, u: u16, w: u16)
        requires u { u < self.old.size }
        requires w { w < self.old.size }
        ensures { self.new ≡ unfiltered u w self.old }
    {
        self.rows[usize::from(u)].drop_imports(w);
        self.rows[usize::from(w)].drop_exports(u);
    }

    /// What the second node's distance from a destination comes to at the first, under the filters between them.
    pub(crate) fn filtered(&self, v: u16, u: u16, w: u16, dist: u16) -> u16
        requires v { v < self.now.size }
        requires u { u < self.now.size }
        requires w { w < self.now.size }
        requires reachable { dist ≤ self.now.size }
        ensures value { result ≡ filtered self.now v u w dist }
        ensures reachable { result ≤ self.now.size }
    {
        let told = filtered_distance(&self.opening, self.peer(w, u).exports(), v, dist);
        filtered_distance(&self.opening, self.peer(u, w).imports(), v, told)
    }
}
