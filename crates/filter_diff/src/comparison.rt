//! The search for the routes on which two codes differ.

ghost use Rattle.std.specs.Prelude.{◌≡◌, ◌+◌, ◌*◌, ◌≤◌, All, IfOk, length};
ghost use Rattle.prefix_patterns.specs.Bits.{address_length};
ghost use Rattle.filter_code.specs.RouteView.{RouteView};
ghost use Rattle.filter_code.specs.Limits.{largest_size};
ghost use Rattle.filter_diff.specs.Parts.{Cover, IsDecided, IsEnough, IsIn, IsReal, IsTrueOf, class_limit};
ghost use Rattle.filter_diff.specs.Classes.{IsOf, IsOfSize};
ghost use Rattle.filter_diff.specs.Searches.{IsLeft, most_tried, most_tried_of, split_by_bits};

use crate::class::Class;
use crate::route_part::{PartFinding, RoutePart};
use crate::search::{push_part, visit};
use filter_code::Code;
use prefix_patterns::{ADDRESS_LENGTH, Ip, Prefix};
use std::alloc::{AllocError, Global};

/// All routes of a length.
fn all_of(len: u8, size: u32) -> Class
    requires { len ≤ address_length }
    ensures all { (route : RouteView) → IsIn size route → length route.net ≡ len → IsOf result route }
    ensures real { IsOfSize size result }
    ensures tried { most_tried size result ≡ (size + 2) * split_by_bits len }
{
    Class {
        known: Prefix::new(Ip(0), 0).unwrap(),
        len,
        metric: None,
        size,
    }
}

/// All routes, by their lengths.
pub(crate) fn all_classes(alloc: Global, size: u32) -> Result<Vec<Class>, AllocError>
    ensures all { IfOk result (λ todo. (route : RouteView) → IsIn size route → IsLeft route todo.items) }
    ensures real { IfOk result (λ todo. All (IsOfSize size) todo.items) }
    ensures tried { IfOk result (λ todo. most_tried_of size todo.items ≤ class_limit size) }
{
    let mut todo = Vec::new(alloc);
    for step in 0..=ADDRESS_LENGTH {
        todo.push(all_of(ADDRESS_LENGTH - step, size))?;
    }
    Ok(todo)
}

/// Compares two codes on all routes of the domains of a size: the parts of the routes on which they differ, and those on which it is not
/// decided. It tries at most as many classes of routes as the limit says, each by one run of each code; what is left then is undecided, and
/// nothing else.
pub fn compare(
    alloc: Global,
    old: &Code,
    new: &Code,
    size: u32,
    limit: u64,
) -> Result<Vec<RoutePart>, AllocError>
    requires { size ≤ largest_size }
    ensures complete { IfOk result (λ parts. Cover old.now new.now size parts.items) }
    ensures sound { IfOk result (λ parts. All (IsTrueOf old.now new.now size) parts.items) }
    ensures real { IfOk result (λ parts. All (IsReal size) parts.items) }
    ensures decided { IsEnough size limit → IfOk result (λ parts. All IsDecided parts.items) }
{
    let mut parts = Vec::new(alloc);
    let mut todo = all_classes(alloc, size)?;
    let mut left = limit;
    while let Some(next) = todo.pop() {
        let class = Class {
            known: next.known,
            len: next.len,
            metric: next.metric,
            size,
        };
        if left == 0 {
            push_part(old, new, &class, PartFinding::Undecided, &mut parts)?;
        } else {
            left -= 1;
            visit(old, new, &class, &mut parts, &mut todo)?;
        }
    }
    Ok(parts)
}
