//! How far the routes of a domain go, and how soon all of them are right.
ghost use Rattle.std.specs.Prelude.{◌≡◌, max};
ghost use Rattle.domain_routes.specs.Reach as spec;
ghost use Rattle.domain_cmds.specs.Texts.{distances};

use crate::routes::{Column, route_of};

/// The greater of two distances.
fn greater(a: u16, b: u16) -> u16
    ensures { result ≡ max a b }
{
    if a < b { b } else { a }
}

/// A distance, where it is below a limit.
fn counted(limit: u32, dist: u16) -> u16
    ensures { result ≡ spec.counted limit dist }
{
    if u32::from(dist) < limit { dist } else { 0 }
}

/// The greatest distance to one destination of those below a limit.
fn greatest_to(size: u16, all: &[Column], v: u16, limit: u32) -> u16
    ensures { result ≡ spec.greatest_to size limit (distances size all.now v) }
{
    let mut greatest = 0;
    for u in 0..size {
        greatest = greater(greatest, counted(limit, route_of(size, all, u, v).dist));
    }
    greatest
}

/// The greatest distance of those below a limit.
fn greatest(size: u16, all: &[Column], limit: u32) -> u16
    ensures { result ≡ spec.greatest size limit (distances size all.now) }
{
    let mut greatest = 0;
    for v in 0..size {
        greatest = greater(greatest, greatest_to(size, all, v, limit));
    }
    greatest
}

/// The longest route that there is.
pub(crate) fn longest(size: u16, all: &[Column]) -> u16
    ensures { result ≡ spec.longest size (distances size all.now) }
{
    greatest(size, all, u32::from(size))
}

/// After how many phases all is told: one more than the longest route, or as many as there are nodes, where one is out of reach.
pub(crate) fn phases_to_rest(size: u16, all: &[Column]) -> u16
    ensures { result ≡ spec.phases_to_rest size (distances size all.now) }
{
    let farthest = greatest(size, all, u32::from(size) + 1);
    if farthest < size { farthest + 1 } else { size }
}
