//! The lines that tell of routes at rest.
ghost use Rattle.std.specs.Prelude.{◌≡◌, ◌++◌, ◌<◌, ◌∷◌, ℕ, List, OnOk, OnErr, flat_map, length};
ghost use Rattle.std.specs.Io.{StartsWith};
ghost use Rattle.domain_routes.specs.Routes.{AreRoutes};
ghost use Rattle.domain_routes.specs.Topology.{topology};
ghost use Rattle.operator_cmds.specs.Looks.{texts_below};
ghost use Rattle.operator_cmds.specs.Replies.{pair_text};
ghost use Rattle.domain_cmds.specs.Texts as spec;

use crate::reach::{longest, phases_to_rest};
use crate::routes::{Column, route_of};
use crate::still::{Rests, still_below};
use domain_routes::{Best, Plan};
use line_protocol::push_decimal;
use netchange_core::Via;
use operator_cmds::push_via;
use std::alloc::AllocError;

/// Adds a blank and a number.
pub(crate) fn push_step(out: &mut Vec<u8>, n: u16) -> Result<(), AllocError>
    ensures ok { OnOk result (out.new.items ≡ out.old.items ++ spec.step_text n) }
    ensures err { OnErr result (StartsWith out.new.items out.old.items) }
{
    out.push(b' ')?;
    push_decimal(out, u64::from(n))
}

/// Adds the answer to `route`.
pub(crate) fn push_route(out: &mut Vec<u8>, route: Best) -> Result<(), AllocError>
    ensures ok { OnOk result (out.new.items ≡ out.old.items ++ spec.route_text route) }
    ensures err { OnErr result (StartsWith out.new.items out.old.items) }
{
    out.extend_from_slice(b"route ")?;
    push_decimal(out, u64::from(route.dist))?;
    push_via(out, route.via)
}

/// Adds the next hop of a route in a table, if it has one.
fn push_hop(out: &mut Vec<u8>, via: Via) -> Result<(), AllocError>
    ensures ok { OnOk result (out.new.items ≡ out.old.items ++ spec.hop_text via) }
    ensures err { OnErr result (StartsWith out.new.items out.old.items) }
{
    match via {
        Via::Node(w) => {
            out.push(b':')?;
            push_decimal(out, u64::from(w))
        }
        Via::Local | Via::Nowhere => Ok(()),
    }
}

/// Adds how far a route goes in a table, and through whom.
fn push_far(out: &mut Vec<u8>, route: Best) -> Result<(), AllocError>
    ensures ok { OnOk result (out.new.items ≡ out.old.items ++ spec.far_text route) }
    ensures err { OnErr result (StartsWith out.new.items out.old.items) }
{
    out.push(b':')?;
    push_decimal(out, u64::from(route.dist))?;
    push_hop(out, route.via)
}

/// Adds a route to a node, as a table has it.
fn push_row(out: &mut Vec<u8>, v: u16, route: Best) -> Result<(), AllocError>
    ensures ok { OnOk result (out.new.items ≡ out.old.items ++ spec.row_text v route) }
    ensures err { OnErr result (StartsWith out.new.items out.old.items) }
{
    push_step(out, v)?;
    push_far(out, route)
}

/// Adds the rows of a table.
#[tactic(auto, unfolding(operator_cmds::specs::Looks::texts_below))]
fn push_rows(out: &mut Vec<u8>, size: u16, all: &[Column], u: u16) -> Result<(), AllocError>
    ensures ok { OnOk result (out.new.items ≡ out.old.items ++ spec.rows_text size all.now u) }
    ensures err { OnErr result (StartsWith out.new.items out.old.items) }
{
    for v in 0..size {
        push_row(out, v, route_of(size, all, u, v))?;
    }
    Ok(())
}

/// Adds all routes of a node, to each destination from 0 upwards.
pub(crate) fn push_table(
    out: &mut Vec<u8>,
    size: u16,
    all: &[Column],
    u: u16,
) -> Result<(), AllocError>
    ensures ok { OnOk result (out.new.items ≡ out.old.items ++ spec.table_text size all.now u) }
    ensures err { OnErr result (StartsWith out.new.items out.old.items) }
{
    out.extend_from_slice(b"table")?;
    push_rows(out, size, all, u)
}

/// Adds how a node of a picture looks that reaches the destination at a distance.
fn push_near(out: &mut Vec<u8>, u: u16, dist: u16) -> Result<(), AllocError>
    ensures ok { OnOk result (out.new.items ≡ out.old.items ++ spec.near_text u dist) }
    ensures err { OnErr result (StartsWith out.new.items out.old.items) }
{
    out.extend_from_slice(b" [label=\"")?;
    push_decimal(out, u64::from(u))?;
    out.extend_from_slice(b" at ")?;
    push_decimal(out, u64::from(dist))?;
    out.extend_from_slice(b"\"];")
}

/// Adds a node of a picture: dotted, where the destination cannot be reached from it.
pub(crate) fn push_node(out: &mut Vec<u8>, u: u16, route: Best) -> Result<(), AllocError>
    ensures ok { OnOk result (out.new.items ≡ out.old.items ++ spec.node_text u route) }
    ensures err { OnErr result (StartsWith out.new.items out.old.items) }
{
    push_step(out, u)?;
    match route.via {
        Via::Local | Via::Node(_) => push_near(out, u, route.dist),
        Via::Nowhere => out.extend_from_slice(b" [style=dotted];"),
    }
}

/// Adds the arrow of a picture from a node to its next hop, if it has one.
fn push_arrow(out: &mut Vec<u8>, u: u16, via: Via) -> Result<(), AllocError>
    ensures ok { OnOk result (out.new.items ≡ out.old.items ++ spec.arrow_text u via) }
    ensures err { OnErr result (StartsWith out.new.items out.old.items) }
{
    match via {
        Via::Node(w) => {
            push_step(out, u)?;
            out.extend_from_slice(b" -> ")?;
            push_decimal(out, u64::from(w))?;
            out.extend_from_slice(b";")
        }
        Via::Local | Via::Nowhere => Ok(()),
    }
}

/// Whether a node is the next hop.
fn is_hop(via: Via, w: u16) -> bool
    ensures { result ≡ spec.is_hop via w }
{
    match via {
        Via::Node(x) => x == w,
        Via::Local | Via::Nowhere => false,
    }
}

/// Whether there is a link from a node to a later one that no next hop uses in either direction.
fn is_idle(plan: &Plan, routes: &Column, u: u16, w: u16) -> bool
    requires u { u < plan.now.size }
    requires w { w < plan.now.size }
    ensures { result ≡ spec.is_idle plan.now routes.now u w }
{
    u < w
        && plan.is_linked(u, w)
        && !is_hop(routes.at(plan.size(), u).via, w)
        && !is_hop(routes.at(plan.size(), w).via, u)
}

/// Adds a dotted line of a picture between two nodes.
fn push_dotted(out: &mut Vec<u8>, u: u16, w: u16) -> Result<(), AllocError>
    ensures ok { OnOk result (out.new.items ≡ out.old.items ++ spec.dotted_text u w) }
    ensures err { OnErr result (StartsWith out.new.items out.old.items) }
{
    push_step(out, u)?;
    out.extend_from_slice(b" -> ")?;
    push_decimal(out, u64::from(w))?;
    out.extend_from_slice(b" [dir=none, style=dotted];")
}

/// Adds a link of a picture, if it is one and no next hop uses it.
fn push_idle(
    out: &mut Vec<u8>,
    plan: &Plan,
    routes: &Column,
    u: u16,
    w: u16,
) -> Result<(), AllocError>
    requires u { u < plan.now.size }
    requires w { w < plan.now.size }
    ensures ok { OnOk result (out.new.items ≡ out.old.items ++ spec.idle_text plan.now routes.now u w) }
    ensures err { OnErr result (StartsWith out.new.items out.old.items) }
{
    if is_idle(plan, routes, u, w) {
        push_dotted(out, u, w)
    } else {
        Ok(())
    }
}

/// Adds the nodes of a picture.
#[tactic(auto, unfolding(operator_cmds::specs::Looks::texts_below))]
fn push_nodes(out: &mut Vec<u8>, plan: &Plan, routes: &Column) -> Result<(), AllocError>
    ensures ok { OnOk result (out.new.items ≡ out.old.items ++ spec.nodes_text plan.now routes.now) }
    ensures err { OnErr result (StartsWith out.new.items out.old.items) }
{
    for u in 0..plan.size() {
        push_node(out, u, routes.at(plan.size(), u))?;
    }
    Ok(())
}

/// Adds the arrows of a picture.
#[tactic(auto, unfolding(operator_cmds::specs::Looks::texts_below))]
fn push_arrows(out: &mut Vec<u8>, plan: &Plan, routes: &Column) -> Result<(), AllocError>
    ensures ok { OnOk result (out.new.items ≡ out.old.items ++ spec.arrows_text plan.now routes.now) }
    ensures err { OnErr result (StartsWith out.new.items out.old.items) }
{
    for u in 0..plan.size() {
        push_arrow(out, u, routes.at(plan.size(), u).via)?;
    }
    Ok(())
}

/// Adds the links of a node to those above it that no next hop uses.
#[tactic(auto, unfolding(operator_cmds::specs::Looks::texts_below))]
fn push_idles_of(out: &mut Vec<u8>, plan: &Plan, routes: &Column, u: u16) -> Result<(), AllocError>
    requires u { u < plan.now.size }
    ensures ok { OnOk result (out.new.items ≡ out.old.items ++ spec.idles_of plan.now routes.now u) }
    ensures err { OnErr result (StartsWith out.new.items out.old.items) }
{
    for w in 0..plan.size() {
        push_idle(out, plan, routes, u, w)?;
    }
    Ok(())
}

/// Adds the links that no next hop uses.
#[tactic(auto, unfolding(operator_cmds::specs::Looks::texts_below))]
fn push_idles(out: &mut Vec<u8>, plan: &Plan, routes: &Column) -> Result<(), AllocError>
    ensures ok { OnOk result (out.new.items ≡ out.old.items ++ spec.idles_text plan.now routes.now) }
    ensures err { OnErr result (StartsWith out.new.items out.old.items) }
{
    for u in 0..plan.size() {
        push_idles_of(out, plan, routes, u)?;
    }
    Ok(())
}

/// Adds the links of a picture: the arrows to next hops, and then the links that none uses.
pub(crate) fn push_links(out: &mut Vec<u8>, plan: &Plan, routes: &Column) -> Result<(), AllocError>
    ensures ok { OnOk result (out.new.items ≡ out.old.items ++ spec.links_text plan.now routes.now) }
    ensures err { OnErr result (StartsWith out.new.items out.old.items) }
{
    push_arrows(out, plan, routes)?;
    push_idles(out, plan, routes)
}

/// Adds all that stands between the braces of a picture.
fn push_body(out: &mut Vec<u8>, plan: &Plan, routes: &Column) -> Result<(), AllocError>
    ensures ok { OnOk result (out.new.items ≡ out.old.items ++ spec.body_text plan.now routes.now) }
    ensures err { OnErr result (StartsWith out.new.items out.old.items) }
{
    push_nodes(out, plan, routes)?;
    push_links(out, plan, routes)
}

/// Adds a picture of the routes to a destination, in the language DOT.
pub(crate) fn push_drawing(
    out: &mut Vec<u8>,
    plan: &Plan,
    routes: &Column,
) -> Result<(), AllocError>
    ensures ok { OnOk result (out.new.items ≡ out.old.items ++ spec.draw_text plan.now routes.now) }
    ensures err { OnErr result (StartsWith out.new.items out.old.items) }
{
    out.extend_from_slice(b"digraph {")?;
    push_body(out, plan, routes)?;
    out.extend_from_slice(b" }")
}

/// Whether two routes have the same next hop.
pub(crate) fn is_same_via(a: Via, b: Via) -> bool
    ensures { result ≡ spec.is_same_via a b }
{
    match (a, b) {
        (Via::Local, Via::Local) | (Via::Nowhere, Via::Nowhere) => true,
        (Via::Node(w), Via::Node(x)) => w == x,
        _ => false,
    }
}

/// Whether two routes are the same.
pub(crate) fn is_same(a: Best, b: Best) -> bool
    ensures { result ≡ spec.is_same a b }
{
    a.dist == b.dist && is_same_via(a.via, b.via)
}

/// Adds a blank and two numbers, with a colon between them.
pub(crate) fn push_pair(out: &mut Vec<u8>, u: u16, v: u16) -> Result<(), AllocError>
    ensures ok { OnOk result (out.new.items ≡ out.old.items ++ pair_text u v) }
    ensures err { OnErr result (StartsWith out.new.items out.old.items) }
{
    push_step(out, u)?;
    out.push(b':')?;
    push_decimal(out, u64::from(v))
}

/// Adds a node and a destination, if the route is another than it was.
fn push_change(
    out: &mut Vec<u8>,
    size: u16,
    before: &[Column],
    now: &[Column],
    u: u16,
    v: u16,
) -> Result<(), AllocError>
    ensures ok { OnOk result (out.new.items ≡ out.old.items ++ spec.change_text size before.now now.now u v) }
    ensures err { OnErr result (StartsWith out.new.items out.old.items) }
{
    if is_same(route_of(size, now, u, v), route_of(size, before, u, v)) {
        Ok(())
    } else {
        push_pair(out, u, v)
    }
}

/// Adds the destinations to which a node's route is another than it was.
#[tactic(auto, unfolding(operator_cmds::specs::Looks::texts_below))]
fn push_changes_of(
    out: &mut Vec<u8>,
    size: u16,
    before: &[Column],
    now: &[Column],
    u: u16,
) -> Result<(), AllocError>
    ensures ok { OnOk result (out.new.items ≡ out.old.items ++ spec.changes_of size before.now now.now u) }
    ensures err { OnErr result (StartsWith out.new.items out.old.items) }
{
    for v in 0..size {
        push_change(out, size, before, now, u, v)?;
    }
    Ok(())
}

/// Adds the nodes and destinations between which the route is another than it was.
#[tactic(auto, unfolding(operator_cmds::specs::Looks::texts_below))]
fn push_all_changes(
    out: &mut Vec<u8>,
    size: u16,
    before: &[Column],
    now: &[Column],
) -> Result<(), AllocError>
    ensures ok { OnOk result (out.new.items ≡ out.old.items ++ spec.all_changes size before.now now.now) }
    ensures err { OnErr result (StartsWith out.new.items out.old.items) }
{
    for u in 0..size {
        push_changes_of(out, size, before, now, u)?;
    }
    Ok(())
}

/// Adds a destination, if a distance to it is not the same in both, and the bound below which all are.
fn push_still(
    out: &mut Vec<u8>,
    size: u16,
    most: &[Column],
    least: &[Column],
    v: u16,
) -> Result<(), AllocError>
    ensures ok { OnOk result (out.new.items ≡ out.old.items ++ spec.still_text size most.now least.now v) }
    ensures err { OnErr result (StartsWith out.new.items out.old.items) }
{
    let bound = still_below(size, most, least, v);
    if bound < size {
        push_pair(out, v, bound)
    } else {
        Ok(())
    }
}

/// Adds the destinations to which a distance is not the same in both, each with its bound.
#[tactic(auto, unfolding(operator_cmds::specs::Looks::texts_below))]
fn push_all_still(
    out: &mut Vec<u8>,
    size: u16,
    most: &[Column],
    least: &[Column],
) -> Result<(), AllocError>
    ensures ok { OnOk result (out.new.items ≡ out.old.items ++ texts_below size (spec.still_text size most.now least.now)) }
    ensures err { OnErr result (StartsWith out.new.items out.old.items) }
{
    for v in 0..size {
        push_still(out, size, most, least, v)?;
    }
    Ok(())
}

/// Adds what stands still while what was done since happens, where something was marked.
fn push_stills(out: &mut Vec<u8>, size: u16, rests: &Option<Rests>) -> Result<(), AllocError>
    ensures ok { OnOk result (out.new.items ≡ out.old.items ++ spec.stills_text size rests.now) }
    ensures err { OnErr result (StartsWith out.new.items out.old.items) }
{
    match rests {
        Some(rests) => {
            out.extend_from_slice(b" still")?;
            push_all_still(out, size, rests.most(), rests.least())
        }
        None => Ok(()),
    }
}

/// Adds the answer to `changes`.
pub(crate) fn push_changes(
    out: &mut Vec<u8>,
    size: u16,
    rests: &Option<Rests>,
    before: &[Column],
    now: &[Column],
) -> Result<(), AllocError>
    ensures ok { OnOk result (out.new.items ≡ out.old.items ++ spec.changes_text size rests.now before.now now.now) }
    ensures err { OnErr result (StartsWith out.new.items out.old.items) }
{
    out.extend_from_slice(b"changes")?;
    push_all_changes(out, size, before, now)?;
    push_stills(out, size, rests)
}

/// Adds the answer to `reach`.
pub(crate) fn push_reach(out: &mut Vec<u8>, size: u16, all: &[Column]) -> Result<(), AllocError>
    ensures ok { OnOk result (out.new.items ≡ out.old.items ++ spec.reach_text size all.now) }
    ensures err { OnErr result (StartsWith out.new.items out.old.items) }
{
    out.extend_from_slice(b"reach ")?;
    push_decimal(out, u64::from(longest(size, all)))?;
    out.push(b' ')?;
    push_decimal(out, u64::from(phases_to_rest(size, all)))
}

/// Adds the answer to `settle`.
pub(crate) fn push_settled(out: &mut Vec<u8>, rounds: u64, messages: u64) -> Result<(), AllocError>
    ensures ok { OnOk result (out.new.items ≡ out.old.items ++ spec.settled_text rounds messages) }
    ensures err { OnErr result (StartsWith out.new.items out.old.items) }
{
    out.extend_from_slice(b"settled ")?;
    push_decimal(out, rounds)?;
    out.push(b' ')?;
    push_decimal(out, messages)
}

/// Adds the nodes on the way from a node to a destination that it reaches, by next hops.
fn push_way(
    out: &mut Vec<u8>,
    plan: &Plan,
    routes: &Column,
    u: u16,
    v: u16,
) -> Result<(), AllocError>
    requires routes { AreRoutes (topology plan.now v) v routes.now }
    requires u { u < plan.now.size }
    requires reached { (spec.route_in plan.now.size routes.now u).dist < plan.now.size }
    ensures ok { OnOk result ((hops : List ℕ) × spec.AreOnTheWay plan.now.size routes.now u hops
        × (out.new.items ≡ out.old.items ++ flat_map spec.step_text (u ∷ hops))) }
    ensures err { OnErr result (StartsWith out.new.items out.old.items) }
{
    push_step(out, u)?;
    match routes.at(plan.size(), u).via {
        Via::Node(w) => push_way(out, plan, routes, w, v),
        Via::Local | Via::Nowhere => Ok(()),
    }
}

/// Adds the answer to `path`.
pub(crate) fn push_path(
    out: &mut Vec<u8>,
    plan: &Plan,
    routes: &Column,
    u: u16,
    v: u16,
) -> Result<(), AllocError>
    requires routes { AreRoutes (topology plan.now v) v routes.now }
    requires u { u < plan.now.size }
    ensures ok { OnOk result ((words : List ℕ) × spec.IsPathText plan.now.size routes.now u words × (out.new.items ≡ out.old.items ++ words)) }
    ensures err { OnErr result (StartsWith out.new.items out.old.items) }
{
    out.extend_from_slice(b"path")?;
    if routes.at(plan.size(), u).dist < plan.size() {
        push_way(out, plan, routes, u, v)
    } else {
        out.extend_from_slice(b" none")
    }
}
