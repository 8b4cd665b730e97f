//! Where packets go, by prefix.

ghost use Rattle.std.specs.Prelude.{◌≡◌, ◌<◌, IfOk, length};
ghost use Rattle.route_feed.specs.Table as spec;

use crate::hop::Hop;
use netchange_core::{BestRoute, Via};
use prefix_patterns::Prefix;
use std::alloc::{AllocError, Global};

/// The nearer of two routes, of equally near ones the first.
fn nearer(one: BestRoute, two: BestRoute) -> BestRoute
    ensures { result ≡ spec.nearer one two }
{
    if two.dist < one.dist { two } else { one }
}

/// The route to the nearest node of a prefix, of several the least.
fn nearest(size: u16, prefixes: &[Prefix], routes: &[BestRoute], prefix: Prefix) -> BestRoute
    requires prefixes { length prefixes.now ≡ size }
    requires routes { length routes.now ≡ size }
    ensures { result ≡ spec.nearest_below size (spec.prefix_at prefixes.now) (spec.route_at routes.now) prefix size }
{
    let mut best = BestRoute {
        dist: size,
        via: Via::Nowhere,
    };
    for v in 0..usize::from(size) {
        if prefixes[v] == prefix {
            best = nearer(best, routes[v]);
        }
    }
    best
}

/// Where packets go by a route, if it leads to another node.
fn hop_of(route: BestRoute) -> Option<Hop>
    ensures { result ≡ spec.hop_of route }
{
    match route.via {
        Via::Node(node) => Some(Hop {
            node,
            dist: route.dist,
        }),
        Via::Local | Via::Nowhere => None,
    }
}

/// Where packets for the prefix of each node go.
pub(crate) fn hops_of(
    alloc: Global,
    size: u16,
    prefixes: &[Prefix],
    routes: &[BestRoute],
) -> Result<Vec<Option<Hop>>, AllocError>
    requires prefixes { length prefixes.now ≡ size }
    requires routes { length routes.now ≡ size }
    ensures { IfOk result (λ hops. spec.AreHops size (spec.prefix_at prefixes.now)
        (spec.table_by size (spec.prefix_at prefixes.now) (spec.route_at routes.now)) hops.items) }
{
    let mut hops = Vec::with_capacity(alloc, usize::from(size))?;
    for v in 0..usize::from(size) {
        hops.push(hop_of(nearest(size, prefixes, routes, prefixes[v])))?;
    }
    Ok(hops)
}
