//! The picture that shows where what was done since the last `mark` ends being felt.
//!
//! **A node that does not reach the destination is red in the picture of changes.** The law promises nothing of it, also where no link of its part
//! of the domain came or went.
//!
//! **A picture is one line**, so that `grep` finds it among the answers.
ghost use Rattle.std.specs.Prelude.{◌≡◌, ◌++◌, OnOk, OnErr, false};
ghost use Rattle.std.specs.Io.{StartsWith};
ghost use Rattle.domain_cmds.specs.Texts as spec;

use crate::routes::{Column, route_of};
use crate::still::{Rests, distance, still_below};
use crate::text::{is_same_via, push_links, push_node, push_step};
use domain_routes::{Best, Plan};
use line_protocol::push_decimal;
use netchange_core::Via;
use std::alloc::AllocError;

/// Whether a node keeps its route to a destination while what was done since happens.
pub(crate) fn is_still(size: u16, rests: &Option<Rests>, v: u16, u: u16) -> bool
    ensures { result ≡ spec.is_still size rests.now v u }
{
    match rests {
        Some(rests) => {
            let (most, least) = (rests.most(), rests.least());
            distance(size, most, u, v) < still_below(size, most, least, v)
                && is_same_via(
                    route_of(size, most, u, v).via,
                    route_of(size, least, u, v).via,
                )
        }
        None => false,
    }
}

/// Adds how a node looks that reaches the destination, and may not keep its route.
fn push_red(out: &mut Vec<u8>, u: u16, dist: u16) -> Result<(), AllocError>
    ensures ok { OnOk result (out.new.items ≡ out.old.items ++ spec.red_text u dist) }
    ensures err { OnErr result (StartsWith out.new.items out.old.items) }
{
    out.extend_from_slice(b" [label=\"")?;
    push_decimal(out, u64::from(u))?;
    out.extend_from_slice(b" at ")?;
    push_decimal(out, u64::from(dist))?;
    out.extend_from_slice(b"\", color=red];")
}

/// Adds a node that may not keep its route.
fn push_felt_node(out: &mut Vec<u8>, u: u16, route: Best) -> Result<(), AllocError>
    ensures ok { OnOk result (out.new.items ≡ out.old.items ++ spec.felt_node_text false u route) }
    ensures err { OnErr result (StartsWith out.new.items out.old.items) }
{
    push_step(out, u)?;
    match route.via {
        Via::Local | Via::Node(_) => push_red(out, u, route.dist),
        Via::Nowhere => out.extend_from_slice(b" [style=dotted, color=red];"),
    }
}

/// Adds a node, red where it may not keep its route.
fn push_marked_node(out: &mut Vec<u8>, still: bool, u: u16, route: Best) -> Result<(), AllocError>
    ensures ok { OnOk result (out.new.items ≡ out.old.items ++ spec.felt_node_text still u route) }
    ensures err { OnErr result (StartsWith out.new.items out.old.items) }
{
    if still {
        push_node(out, u, route)
    } else {
        push_felt_node(out, u, route)
    }
}

/// Adds the nodes.
#[tactic(auto, unfolding(operator_cmds::specs::Looks::texts_below))]
fn push_felt_nodes(
    out: &mut Vec<u8>,
    size: u16,
    rests: &Option<Rests>,
    now: &[Column],
    v: u16,
) -> Result<(), AllocError>
    ensures ok { OnOk result (out.new.items ≡ out.old.items ++ spec.felt_nodes_text size rests.now now.now v) }
    ensures err { OnErr result (StartsWith out.new.items out.old.items) }
{
    for u in 0..size {
        let still = is_still(size, rests, v, u);
        push_marked_node(out, still, u, route_of(size, now, u, v))?;
    }
    Ok(())
}

/// Adds all that stands between the braces of such a picture.
fn push_felt_body(
    out: &mut Vec<u8>,
    plan: &Plan,
    rests: &Option<Rests>,
    now: &[Column],
    v: u16,
    routes: &Column,
) -> Result<(), AllocError>
    ensures ok { OnOk result (out.new.items ≡ out.old.items ++ spec.felt_body_text plan.now rests.now now.now v routes.now) }
    ensures err { OnErr result (StartsWith out.new.items out.old.items) }
{
    push_felt_nodes(out, plan.size(), rests, now, v)?;
    push_links(out, plan, routes)
}

/// Adds a picture of the routes to a destination, in which those nodes are red that may not keep theirs. The routes are those of `now`.
pub(crate) fn push_felt(
    out: &mut Vec<u8>,
    plan: &Plan,
    rests: &Option<Rests>,
    now: &[Column],
    v: u16,
    routes: &Column,
) -> Result<(), AllocError>
    ensures ok { OnOk result (out.new.items ≡ out.old.items ++ spec.felt_text plan.now rests.now now.now v routes.now) }
    ensures err { OnErr result (StartsWith out.new.items out.old.items) }
{
    out.extend_from_slice(b"digraph {")?;
    push_felt_body(out, plan, rests, now, v, routes)?;
    out.extend_from_slice(b" }")
}
