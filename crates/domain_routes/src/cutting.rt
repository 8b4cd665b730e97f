//! The routes of all nodes to one destination, once links were cut, by the routes before.
//!
//! **Most routes are left.** A route is left if it leads over a link that is, to a node whose route is left. Only the other nodes look for a way
//! again: first the best one through nodes whose routes are left, and then in Dijkstra's order. Where all routes lead over links that are, they are
//! what they were.
//!
//! **A node whose route is left may gain by another's loss**, where a filter makes less of a greater distance. So it is offered each new way, too.
//! Once one of these would come before its route, all routes are found from nothing: what was found may lead through that node.
ghost use Rattle.std.specs.Prelude.{◌≡◌, ◌≢◌, ◌+◌, ◌<◌, ◌≤◌, ℕ, IfOk, IsTrue, false, length, true};
ghost use Rattle.netchange_core.specs.declared.reply.Via.TheVariants as via;
ghost use Rattle.domain_routes.specs.Cuts.{WereRoutes};
ghost use Rattle.domain_routes.specs.Left.{AreBestBefore, AreLeft, HasHops, IsLeft};
ghost use Rattle.domain_routes.specs.PlanView.{is_linked};
ghost use Rattle.domain_routes.specs.Routes.{AreRoutes, route_at};
ghost use Rattle.domain_routes.specs.Solving.{AreOffered, IsBestSoFar, IsOffered, is_done};
ghost use Rattle.domain_routes.specs.Topology.{topology};

use crate::best::{Best, better, comes_before};
use crate::plan::Plan;
use crate::solving::nearest;
use netchange_core::Via;
use std::alloc::{AllocError, Global};

/// Whether a node's route is left: it leads over a link to a node that is done, or it is the destination's own, or none.
fn is_left(plan: &Plan, u: u16, route: Best, done: &[bool]) -> bool
    requires node { u < plan.now.size }
    requires hop { (w : ℕ) → route.via ≡ via.Node w → w < plan.now.size }
    requires marks { length done.now ≡ plan.now.size }
    ensures { IsTrue result → IsLeft (is_linked plan.now) (is_done done.now) u route.via }
{
    match route.via {
        Via::Node(w) => done[usize::from(w)] && plan.is_linked(u, w),
        Via::Local | Via::Nowhere => true,
    }
}

/// A node whose route is left is done. Whether it was not before.
fn keep_one(plan: &Plan, before: &[Best], u: u16, done: &mut [bool]) -> bool
    requires node { u < plan.now.size }
    requires one_a_node { length before.now ≡ plan.now.size }
    requires hops { HasHops plan.now.size before.now }
    requires marks { length done.old ≡ plan.now.size }
    requires left { AreLeft plan.now before.now (is_done done.old) }
    ensures left { AreLeft plan.now before.now (is_done done.new) }
    ensures still { (x : ℕ) → is_done done.old x ≡ true → is_done done.new x ≡ true }
{
    let k = usize::from(u);
    if done[k] || !is_left(plan, u, before[k], done) {
        return false;
    }
    done[k] = true;
    true
}

/// Each node whose route is left is done, as far as one look at each shows it. Whether there were any that were not before.
fn keep_more(plan: &Plan, before: &[Best], done: &mut [bool]) -> bool
    requires one_a_node { length before.now ≡ plan.now.size }
    requires hops { HasHops plan.now.size before.now }
    requires marks { length done.old ≡ plan.now.size }
    requires left { AreLeft plan.now before.now (is_done done.old) }
    ensures left { AreLeft plan.now before.now (is_done done.new) }
    ensures still { (x : ℕ) → is_done done.old x ≡ true → is_done done.new x ≡ true }
{
    let mut more = false;
    for u in 0..plan.size() {
        if keep_one(plan, before, u, done) {
            more = true;
        }
    }
    more
}

/// Each node whose route is left is done.
fn keep(plan: &Plan, before: &[Best], done: &mut [bool])
    requires one_a_node { length before.now ≡ plan.now.size }
    requires hops { HasHops plan.now.size before.now }
    requires marks { length done.old ≡ plan.now.size }
    requires left { AreLeft plan.now before.now (is_done done.old) }
    ensures left { AreLeft plan.now before.now (is_done done.new) }
    ensures still { (x : ℕ) → is_done done.old x ≡ true → is_done done.new x ≡ true }
{
    for _ in 0..plan.size() {
        if !keep_more(plan, before, done) {
            return;
        }
    }
}

/// The better of a node's route and the way through another at this distance, where they are neighbours.
fn offered(plan: &Plan, v: u16, u: u16, w: u16, dist: u16, route: Best) -> Best
    requires v { v < plan.now.size }
    requires u { u < plan.now.size }
    requires w { w < plan.now.size }
    requires reachable { dist ≤ plan.now.size }
    ensures { IsOffered (topology plan.now v) w dist u route result }
{
    if !comes_before(route, dist, w) {
        return route;
    }
    if plan.is_linked(u, w) {
        better(route, plan.filtered(v, u, w, dist), w)
    } else {
        route
    }
}

/// The better of a node's route and the way through another, where they are neighbours and that one is done.
fn offered_through(
    plan: &Plan,
    v: u16,
    u: u16,
    w: u16,
    routes: &[Best],
    done: &[bool],
    route: Best,
) -> Best
    requires v { v < plan.now.size }
    requires u { u < plan.now.size }
    requires w { w < plan.now.size }
    requires one_a_node { length routes.now ≡ plan.now.size }
    requires marks { length done.now ≡ plan.now.size }
    requires reachable { (route_at plan.now.size routes.now w).dist ≤ plan.now.size }
    ensures done { is_done done.now w ≡ true → IsOffered (topology plan.now v) w (route_at plan.now.size routes.now w).dist u route result }
    ensures waits { is_done done.now w ≡ false → result ≡ route }
{
    let k = usize::from(w);
    if !done[k] {
        return route;
    }
    offered(plan, v, u, w, routes[k].dist, route)
}

/// The best way of a node through those that are done, or none.
fn best_way(plan: &Plan, v: u16, u: u16, routes: &[Best], done: &[bool]) -> Best
    requires v { v < plan.now.size }
    requires u { u < plan.now.size }
    requires one_a_node { length routes.now ≡ plan.now.size }
    requires marks { length done.now ≡ plan.now.size }
    requires bounded { (x : ℕ) → x < plan.now.size → (route_at plan.now.size routes.now x).dist ≤ plan.now.size }
    ensures { IsBestSoFar (topology plan.now v) (route_at plan.now.size routes.now) (is_done done.now) u result }
{
    let mut best = Best {
        dist: plan.size(),
        via: Via::Nowhere,
    };
    for w in 0..plan.size() {
        best = offered_through(plan, v, u, w, routes, done, best);
    }
    best
}

/// A node that is not done takes the best way through those that are.
fn take_way(plan: &Plan, v: u16, u: u16, routes: &mut [Best], done: &[bool])
    requires v { v < plan.now.size }
    requires u { u < plan.now.size }
    requires one_a_node { length routes.old ≡ plan.now.size }
    requires marks { length done.now ≡ plan.now.size }
    requires own { is_done done.now v ≡ true }
    requires best { AreBestBefore (topology plan.now v) v (route_at plan.now.size routes.old) (is_done done.now) u }
    ensures { AreBestBefore (topology plan.now v) v (route_at plan.now.size routes.new) (is_done done.now) (u + 1) }
{
    let k = usize::from(u);
    if done[k] {
        return;
    }
    routes[k] = best_way(plan, v, u, routes, done);
}

/// Each node that is not done takes the best way through those that are.
fn take_ways(plan: &Plan, v: u16, routes: &mut [Best], done: &[bool])
    requires v { v < plan.now.size }
    requires one_a_node { length routes.old ≡ plan.now.size }
    requires marks { length done.now ≡ plan.now.size }
    requires own { is_done done.now v ≡ true }
    requires best { AreBestBefore (topology plan.now v) v (route_at plan.now.size routes.old) (is_done done.now) 0 }
    ensures { AreBestBefore (topology plan.now v) v (route_at plan.now.size routes.new) (is_done done.now) plan.now.size }
{
    for u in 0..plan.size() {
        take_way(plan, v, u, routes, done);
    }
}

/// Whether a node's route stays where the way through another at this distance is offered to it, if they are neighbours.
fn stays(plan: &Plan, v: u16, u: u16, w: u16, dist: u16, route: Best) -> bool
    requires v { v < plan.now.size }
    requires u { u < plan.now.size }
    requires w { w < plan.now.size }
    requires reachable { dist ≤ plan.now.size }
    ensures { IsTrue result → IsOffered (topology plan.now v) w dist u route route }
{
    if !comes_before(route, dist, w) {
        return true;
    }
    if !plan.is_linked(u, w) {
        return true;
    }
    !comes_before(route, plan.filtered(v, u, w, dist), w)
}

/// A node is offered the way through another at this distance, if they are neighbours. Whether it keeps its route, where it is done.
fn offer_one(
    plan: &Plan,
    v: u16,
    w: u16,
    dist: u16,
    u: u16,
    routes: &mut [Best],
    done: &[bool],
) -> bool
    requires v { v < plan.now.size }
    requires w { w < plan.now.size }
    requires u { u < plan.now.size }
    requires one_a_node { length routes.old ≡ plan.now.size }
    requires marks { length done.now ≡ plan.now.size }
    requires reachable { dist ≤ plan.now.size }
    ensures offered { IsTrue result → IsOffered (topology plan.now v) w dist u (route_at plan.now.size routes.old u) (route_at plan.now.size routes.new u) }
    ensures keeps { is_done done.now u ≡ true → route_at plan.now.size routes.new u ≡ route_at plan.now.size routes.old u }
    ensures others { (x : ℕ) → x ≢ u → route_at plan.now.size routes.new x ≡ route_at plan.now.size routes.old x }
{
    let k = usize::from(u);
    if done[k] {
        return stays(plan, v, u, w, dist, routes[k]);
    }
    routes[k] = offered(plan, v, u, w, dist, routes[k]);
    true
}

/// Each neighbour of a node is offered the way through it. Whether all that are done keep their routes.
fn offer(plan: &Plan, v: u16, w: usize, routes: &mut [Best], done: &[bool]) -> bool
    requires v { v < plan.now.size }
    requires w { w < plan.now.size }
    requires one_a_node { length routes.old ≡ plan.now.size }
    requires marks { length done.now ≡ plan.now.size }
    requires reachable { (route_at plan.now.size routes.old w).dist ≤ plan.now.size }
    ensures offered { IsTrue result → AreOffered (topology plan.now v) w (route_at plan.now.size routes.old) (route_at plan.now.size routes.new) }
    ensures keeps { (x : ℕ) → x < plan.now.size → is_done done.now x ≡ true → route_at plan.now.size routes.new x ≡ route_at plan.now.size routes.old x }
{
    let dist = routes[w].dist;
    let size = plan.size();
    let hop = w as u16;
    for u in 0..size {
        if !offer_one(plan, v, hop, dist, u, routes, done) {
            return false;
        }
    }
    true
}

/// One node after another is done, the nearest first, until all are. Whether all that were done before keep their routes.
fn complete(plan: &Plan, v: u16, routes: &mut [Best], done: &mut [bool]) -> bool
    requires v { v < plan.now.size }
    requires one_a_node { length routes.old ≡ plan.now.size }
    requires marks { length done.old ≡ plan.now.size }
    requires own { is_done done.old v ≡ true }
    requires best { AreBestBefore (topology plan.now v) v (route_at plan.now.size routes.old) (is_done done.old) plan.now.size }
    ensures { IsTrue result → AreRoutes (topology plan.now v) v routes.new }
{
    while let Some(w) = nearest(routes, done) {
        done[w] = true;
        if !offer(plan, v, w, routes, done) {
            return false;
        }
    }
    true
}

/// Whether a route leads over a link that there is, or is the destination's own, or none.
fn keeps_route(plan: &Plan, u: u16, route: Best) -> bool
    requires { u < plan.now.size }
    ensures { IsTrue result → IsLeft (is_linked plan.now) (λ x. true) u route.via }
{
    match route.via {
        Via::Node(w) => w < plan.size() && plan.is_linked(u, w),
        Via::Local | Via::Nowhere => true,
    }
}

/// Whether each of these routes leads over a link that there is. If they were the routes to a destination before links were cut, they are it still.
fn keeps_routes(plan: &Plan, before: &[Best]) -> bool
    requires { length before.now ≡ plan.now.size }
    ensures { IsTrue result → (v : ℕ) → v < plan.now.size → WereRoutes plan.now v before.now → AreRoutes (topology plan.now v) v before.now }
{
    for u in 0..plan.size() {
        if !keeps_route(plan, u, before[usize::from(u)]) {
            return false;
        }
    }
    true
}

/// The nodes whose routes are left, the destination among them.
fn kept(alloc: Global, plan: &Plan, v: u16, before: &[Best]) -> Result<Vec<bool>, AllocError>
    requires v { v < plan.now.size }
    requires before { WereRoutes plan.now v before.now }
    ensures marks { IfOk result (λ done. length done.items ≡ plan.now.size) }
    ensures own { IfOk result (λ done. is_done done.items v ≡ true) }
    ensures left { IfOk result (λ done. AreLeft plan.now before.now (is_done done.items)) }
{
    let mut done = vec![in alloc; false; usize::from(plan.size())]?;
    done[usize::from(v)] = true;
    keep(plan, before, &mut done);
    Ok(done)
}

impl Plan {
    /// The route of each node to a destination, by the node's number, when the domain is at rest, once links were cut: by the routes
    /// before, most of which are left.
    pub fn routes_after_cuts(
        &self,
        alloc: Global,
        v: u16,
        before: &[Best],
    ) -> Result<Vec<Best>, AllocError>
        requires node { v < self.now.size }
        requires before { WereRoutes self.now v before.now }
        ensures { IfOk result (λ routes. AreRoutes (topology self.now v) v routes.items) }
    {
        if keeps_routes(self, before) {
            return Ok(Vec::from_slice(alloc, before)?);
        }
        let mut done = kept(alloc, self, v, before)?;
        let mut routes = Vec::from_slice(alloc, before)?;
        take_ways(self, v, &mut routes, &done);
        if complete(self, v, &mut routes, &mut done) {
            Ok(routes)
        } else {
            self.routes_to(alloc, v)
        }
    }
}
