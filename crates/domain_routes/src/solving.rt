//! The routes of all nodes to one destination.
//!
//! **Of the nodes that are not done the nearest is found by looking at each**, and not by a heap. There are at most 250, and a heap would need
//! memory, and a rule of its own for distances that fall.
//!
//! **A node that is done is offered ways too.** None comes before its route, since no filter makes a distance less. For the same reason a filter is run
//! only for a way that would come before a route without it.

ghost use Rattle.std.specs.Prelude.{◌≡◌, ◌≢◌, ◌<◌, ◌≤◌, ℕ, IfOk, MatchOption, length, slice_index_or};
ghost use Rattle.domain_routes.specs.PlanView.{is_linked, stranger};
ghost use Rattle.domain_routes.specs.Routes.{AreRoutes, route_at};
ghost use Rattle.domain_routes.specs.Solving.{AreAllDone, AreBestSoFar, AreOffered, IsNearest, IsOffered, is_done};
ghost use Rattle.domain_routes.specs.Topology.{topology};

use crate::best::{Best, better, comes_before};
use crate::plan::Plan;
use crate::row::Row;
use netchange_core::Via;
use std::alloc::{AllocError, Global};

/// More than any distance, which is a `u16`.
const MORE_THAN_ANY_DISTANCE: u32 = 65_536;

/// Of the nodes that are not done, one that no other is nearer than.
pub(crate) fn nearest(routes: &[Best], done: &[bool]) -> Option<usize>
    requires { length done.now ≡ length routes.now }
    ensures { MatchOption result (AreAllDone (length routes.now) (is_done done.now))
        (IsNearest (length routes.now) (route_at (length routes.now) routes.now) (is_done done.now)) }
{
    let mut found = None;
    let mut least = MORE_THAN_ANY_DISTANCE;
    for u in 0..routes.len() {
        let dist = u32::from(routes[u].dist);
        if dist < least && !done[u] {
            found = Some(u);
            least = dist;
        }
    }
    found
}

/// A node is offered the way through another at this distance, if they are neighbours. The row is what the other has.
fn offer_one(plan: &Plan, row: &Row, v: u16, w: u16, dist: u16, u: u16, routes: &mut [Best])
    requires v { v < plan.now.size }
    requires w { w < plan.now.size }
    requires u { u < plan.now.size }
    requires place { u < length row.now }
    requires linked { (slice_index_or row.now u stranger).linked ≡ is_linked plan.now u w }
    requires one_a_node { length routes.old ≡ plan.now.size }
    requires reachable { dist ≤ plan.now.size }
    ensures offered { IsOffered (topology plan.now v) w dist u (route_at plan.now.size routes.old u) (route_at plan.now.size routes.new u) }
    ensures others { (x : ℕ) → x ≢ u → route_at plan.now.size routes.new x ≡ route_at plan.now.size routes.old x }
{
    let k = usize::from(u);
    if !comes_before(routes[k], dist, w) {
        return;
    }
    if row.peer(u).is_linked() {
        routes[k] = better(routes[k], plan.filtered(v, u, w, dist), w);
    }
}

/// Each neighbour of a node is offered the way through it.
fn offer(plan: &Plan, v: u16, w: usize, routes: &mut [Best])
    requires v { v < plan.now.size }
    requires w { w < plan.now.size }
    requires one_a_node { length routes.old ≡ plan.now.size }
    requires reachable { (route_at plan.now.size routes.old w).dist ≤ plan.now.size }
    ensures { AreOffered (topology plan.now v) w (route_at plan.now.size routes.old) (route_at plan.now.size routes.new) }
{
    let dist = routes[w].dist;
    let size = plan.size();
    let hop = w as u16;
    let row = plan.row(hop);
    for u in 0..size {
        offer_one(plan, row, v, hop, dist, u, routes);
    }
}

/// One node after another is done, the nearest first, until all are.
fn finish(plan: &Plan, v: u16, routes: &mut [Best], done: &mut [bool])
    requires v { v < plan.now.size }
    requires one_a_node { length routes.old ≡ plan.now.size }
    requires done { length done.old ≡ plan.now.size }
    requires best { AreBestSoFar (topology plan.now v) v (route_at plan.now.size routes.old) (is_done done.old) }
    ensures { AreRoutes (topology plan.now v) v routes.new }
{
    while let Some(w) = nearest(routes, done) {
        done[w] = true;
        offer(plan, v, w, routes);
    }
}

impl Plan {
    /// The route of each node to a destination, by the node's number, when the domain is at rest.
    ///
    /// The distances are the fixed point of Bellman's equation under the filters, and by `only_one_rest` there is no other. The
    /// next hop is the least neighbour through whom a route leads at that distance. They are found in Dijkstra's order, which
    /// serves since no filter makes a distance less: each node is done once, the nearest first, and each link's filters run once
    /// in each direction.
    pub fn routes_to(&self, alloc: Global, v: u16) -> Result<Vec<Best>, AllocError>
        requires { v < self.now.size }
        ensures { IfOk result (λ routes. AreRoutes (topology self.now v) v routes.items) }
    {
        let size = self.size();
        let nowhere = Best {
            dist: size,
            via: Via::Nowhere,
        };
        let mut routes = vec![in alloc; nowhere; usize::from(size)]?;
        let mut done = vec![in alloc; false; usize::from(size)]?;
        routes[usize::from(v)] = Best {
            dist: 0,
            via: Via::Local,
        };
        finish(self, v, &mut routes, &mut done);
        Ok(routes)
    }
}
