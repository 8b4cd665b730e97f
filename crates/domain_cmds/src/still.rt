//! How near to a destination distances stand still while a domain changes.
//!
//! **What stands still is said for each destination.** One bound for all destinations would be 1 whenever a link without filters is cut, since its
//! ends are at distance 1 from each other. It is not said from where to where a distance is felt, as nearness to the failed link decides nothing.
//!
//! **It is what two plans say alike**: that with each link that there was since the `mark`, and without filters where one was set; and that with the
//! links alone to which nothing was done. So a link that is cut and made again moves distances, though none is another, and so does a node that begins
//! anew. Where links were made alone, or cut alone, they are the plan at the `mark` and the plan now, and their routes are found once more: to
//! remember which of them it is would be one thing more to keep right.
ghost use Rattle.std.specs.Prelude.{◌≡◌, IfOk, min};
ghost use Rattle.domain_routes.specs.Still as rest;
ghost use Rattle.domain_cmds.specs.Rests.{AreRestsBetween};
ghost use Rattle.domain_cmds.specs.Texts as spec;

use crate::routes::{Column, all_columns, route_of};
use domain_routes::Between;
use std::alloc::{AllocError, Global};
use std::marker::Model;

/// All routes at rest in the two plans between which a plan stayed. A contract sees them as a `RestsView`.
#[derive(Drop)]
pub(crate) struct Rests {
    most: Vec<Column>,
    least: Vec<Column>,
}

impl Model for Rests {
    ghost use Rattle.domain_cmds.specs.Rests.{RestsView};

    ghost Value = { RestsView };

    ghost view = { λ r. record { most = r.most.items; least = r.least.items } };
}

impl Rests {
    /// Those of the greatest.
    pub(crate) fn most(&self) -> &[Column]
        ensures { result.now ≡ self.now.most }
    {
        self.most.as_slice()
    }

    /// Those of the least.
    pub(crate) fn least(&self) -> &[Column]
        ensures { result.now ≡ self.now.least }
    {
        self.least.as_slice()
    }
}

/// All routes at rest in the plans between which a plan stayed since the last `mark`. Before any, none.
pub(crate) fn rests_between(
    alloc: Global,
    since: &Option<Between>,
) -> Result<Option<Rests>, AllocError>
    ensures { IfOk result (λ rests. AreRestsBetween since.now rests) }
{
    match since {
        Some(between) => {
            let most = all_columns(alloc, between.most())?;
            let least = all_columns(alloc, between.least())?;
            Ok(Some(Rests { most, least }))
        }
        None => Ok(None),
    }
}

/// The lesser of two distances.
pub(crate) fn lesser(a: u16, b: u16) -> u16
    ensures { result ≡ min a b }
{
    if a < b { a } else { b }
}

/// The lesser of two distances of a node, where they are two; otherwise the size.
pub(crate) fn lesser_of_two(size: u16, a: u16, b: u16) -> u16
    ensures { result ≡ rest.lesser_of_two size a b }
{
    if a == b { size } else { lesser(a, b) }
}

/// How far it is from a node to a destination.
pub(crate) fn distance(size: u16, all: &[Column], u: u16, v: u16) -> u16
    ensures { result ≡ spec.distances size all.now v u }
{
    route_of(size, all, u, v).dist
}

/// The bound below which all distances to a destination are the same in both: the least that a node has in one of them, where it has another in the
/// other.
pub(crate) fn still_below(size: u16, most: &[Column], least: &[Column], v: u16) -> u16
    ensures { result ≡ spec.still_below size most.now least.now v }
{
    let mut bound = size;
    for u in 0..size {
        let one = distance(size, most, u, v);
        let other = distance(size, least, u, v);
        let lesser_one = lesser_of_two(size, one, other);
        bound = lesser(bound, lesser_one);
    }
    bound
}
