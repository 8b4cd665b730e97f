//! How much a failure changes of the routes to one destination, of all routes before it and after it.
//!
//! **Each pair of nodes is looked at once.** Most routes are what they were, whatever fails, so that is asked first.
ghost use Rattle.std.specs.Prelude.{◌≡◌, ◌≤◌};
ghost use Rattle.domain_cmds.specs.ByColumn as by_column;
ghost use Rattle.domain_cmds.specs.Failures as spec;

use crate::failure::Failing;
use crate::routes::{Column, route_of};
use crate::still::{distance, lesser, lesser_of_two};
use crate::text::is_same;

/// What a failure changes of one route.
#[derive(Clone, Copy)]
pub(crate) struct RouteEffect {
    /// It has another distance or next hop.
    changed: bool,
    /// It is no more.
    lost: bool,
    /// The lesser of both distances, where they are two; otherwise the number of nodes.
    still: u16,
}

/// What a failure changes of the routes to one destination.
#[derive(Clone, Copy)]
pub(crate) struct ColumnEffect {
    /// How many have another distance or next hop.
    pub(crate) changed: u32,
    /// How many of these are no more.
    pub(crate) lost: u32,
    /// Below which distance none is another: the number of nodes, where none is at all.
    pub(crate) still: u16,
}

/// Whether a node counts: the one that fails does not.
fn is_told(what: Failing, v: u16) -> bool
    ensures { result ≡ spec.is_told what v }
{
    match what {
        Failing::Link(_, _) => true,
        Failing::Node(x) => v != x,
    }
}

/// 1 where a test holds.
pub(crate) fn one_if(holds: bool) -> u32
    ensures value { result ≡ spec.one_if holds }
    ensures small { result ≤ 1 }
{
    if holds { 1 } else { 0 }
}

/// Whether a route is another than it was.
fn is_changed(size: u16, what: Failing, before: &[Column], after: &[Column], u: u16, v: u16) -> bool
    ensures { result ≡ spec.is_changed size what before.now after.now u v }
{
    is_told(what, u)
        && is_told(what, v)
        && !is_same(route_of(size, after, u, v), route_of(size, before, u, v))
}

/// Whether one node reached another, and does no longer.
pub(crate) fn is_lost(
    size: u16,
    what: Failing,
    before: &[Column],
    after: &[Column],
    u: u16,
    v: u16,
) -> bool
    ensures { result ≡ spec.is_lost size what before.now after.now u v }
{
    is_told(what, u)
        && is_told(what, v)
        && route_of(size, before, u, v).dist < size
        && !(route_of(size, after, u, v).dist < size)
}

/// The lesser of the two distances from a node that counts to another, where they are two; otherwise the size.
fn told_lesser(size: u16, what: Failing, before: &[Column], after: &[Column], v: u16, u: u16) -> u16
    ensures { result ≡ spec.told_lesser size what before.now after.now v u }
{
    if is_told(what, u) {
        lesser_of_two(
            size,
            distance(size, before, u, v),
            distance(size, after, u, v),
        )
    } else {
        size
    }
}

/// What a failure changes of the route of one node to another.
fn route_effect(
    size: u16,
    what: Failing,
    before: &[Column],
    after: &[Column],
    u: u16,
    v: u16,
) -> RouteEffect
    ensures { result ≡ by_column.route_effect size what before.now after.now u v }
{
    if is_same(route_of(size, after, u, v), route_of(size, before, u, v)) {
        return RouteEffect {
            changed: false,
            lost: false,
            still: size,
        };
    }
    RouteEffect {
        changed: is_changed(size, what, before, after, u, v),
        lost: is_lost(size, what, before, after, u, v),
        still: told_lesser(size, what, before, after, v, u),
    }
}

/// What a failure changes of the routes to a node.
pub(crate) fn column_effect(
    size: u16,
    what: Failing,
    before: &[Column],
    after: &[Column],
    v: u16,
) -> ColumnEffect
    ensures value { result ≡ by_column.column_effect size what before.now after.now v }
    ensures few { (result.changed ≤ size) × (result.lost ≤ size) }
{
    let (mut changed, mut lost, mut still) = (0, 0, size);
    for u in 0..size {
        let effect = route_effect(size, what, before, after, u, v);
        changed += one_if(effect.changed);
        lost += one_if(effect.lost);
        still = lesser(still, effect.still);
    }
    ColumnEffect {
        changed,
        lost,
        still: if is_told(what, v) { still } else { size },
    }
}
