//! Distances under filters.
//!
//! **A new import filter of a neighbour that is down is stored, and no route is looked at.** The definition has one rule for both cases, since its
//! recomputation then changes nothing; the code leaves it out.

ghost use Rattle.std.specs.Prelude.{◌≡◌, ◌<◌, ◌≤◌, Some};
ghost use Rattle.netchange_core.specs.Kept.{FitsSize, filter_of};
ghost use Rattle.netchange_core.specs.FilteredDistance.{filtered_distance};

use crate::opening::Opening;
use filter_machine::{Verdict, run};
use filter_verifier::Verified;
use std::sync::Arc;

/// What a distance to a node becomes under a filter, if there is one. Distances are 0 to the size of the domain, which says
/// that there is no route; of the opening only the size and the prefixes matter.
#[tactic(auto, unfolding(crate::specs::FilteredDistance::filtered_distance))]
#[inline]
pub fn filtered_distance(
    opening: &Opening,
    filter: &Option<Arc<Verified>>,
    node: u16,
    dist: u16,
) -> u16
    requires fits { FitsSize opening.now.size (filter_of filter.now) }
    requires node { node < opening.now.size }
    requires reachable { dist ≤ opening.now.size }
    ensures value { result ≡ filtered_distance opening.now (filter_of filter.now) node dist }
    ensures reachable { result ≤ opening.now.size }
{
    match filter {
        None => dist,
        Some(filter) => filtered(opening, filter, node, dist),
    }
}

/// What a distance to a node becomes under a filter. It is a function of its own so that the tables' loops stay short
/// where there is no filter.
#[tactic(auto, unfolding(crate::specs::FilteredDistance::filtered_distance))]
#[inline(never)]
fn filtered(opening: &Opening, filter: &Verified, node: u16, dist: u16) -> u16
    requires fits { filter.now.size ≡ opening.now.size }
    requires node { node < opening.now.size }
    requires reachable { dist ≤ opening.now.size }
    ensures value { result ≡ filtered_distance opening.now (Some filter.now) node dist }
    ensures reachable { result ≤ opening.now.size }
{
    let size = opening.size();
    if dist == size {
        return size;
    }
    let prefix = &opening.prefixes()[usize::from(node)];
    match run(filter, prefix, u32::from(dist)).verdict {
        Verdict::Accept(accepted) => accepted as u16,
        Verdict::Reject => size,
    }
}
