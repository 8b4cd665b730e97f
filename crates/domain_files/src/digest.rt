//! The digest of a domain.
//!
//! **It is taken of a text that tells the whole plan**, as SHA-256 has it, and cut to 8 bytes, which a greeting has room for. It guards against files
//! that were not copied to all machines, and not against somebody who looks for another file of the same digest.
//!
//! **The text is not kept.** A domain of 250 nodes with a filter on each link has a text of many megabytes; each piece of it is handed on as it is
//! made.
ghost use Rattle.std.specs.Prelude.{◌≡◌, ◌<◌, ◌++◌, ℕ, IfOk, List, OnOk};
ghost use Rattle.netchange_core.specs.Kept.{filter_of};
ghost use Rattle.operator_cmds.specs.Looks.{texts_below};
ghost use Rattle.sha2.specs.Hashers.{Holds256};
ghost use Rattle.domain_files.specs.PlanTexts as spec;

use crate::text::{push_filter, push_link, push_prefix, push_size};
use domain_routes::Plan;
use filter_verifier::Verified;
use operator_cmds::Direction;
use sha2::{Digest, Sha256};
use std::alloc::{AllocError, Global};
use std::sync::Arc;

/// Adds the filter between two nodes, if there is one.
fn push_filters(
    alloc: Global,
    out: &mut Vec<u8>,
    direction: Direction,
    u: u16,
    w: u16,
    filter: &Option<Arc<Verified>>,
) -> Result<(), AllocError>
    ensures { OnOk result (out.new.items ≡ out.old.items ++ spec.filter_lines direction u w (filter_of filter.now)) }
{
    match filter {
        Some(filter) => push_filter(alloc, out, direction, u, w, filter),
        None => Ok(()),
    }
}

/// Adds the link of a node to one of a higher number, if there is one.
fn push_own_link(out: &mut Vec<u8>, plan: &Plan, u: u16, w: u16) -> Result<(), AllocError>
    requires u { u < plan.now.size }
    requires w { w < plan.now.size }
    ensures { OnOk result (out.new.items ≡ out.old.items ++ spec.link_lines plan.now u w) }
{
    if u < w && plan.is_linked(u, w) {
        push_link(out, u, w)
    } else {
        Ok(())
    }
}

/// Adds what a node has for another one.
fn push_peer(
    alloc: Global,
    out: &mut Vec<u8>,
    plan: &Plan,
    u: u16,
    w: u16,
) -> Result<(), AllocError>
    requires u { u < plan.now.size }
    requires w { w < plan.now.size }
    ensures { OnOk result (out.new.items ≡ out.old.items ++ spec.peer_lines plan.now u w) }
{
    push_own_link(out, plan, u, w)?;
    push_filters(alloc, out, Direction::Import, u, w, plan.import(u, w))?;
    push_filters(alloc, out, Direction::Export, u, w, plan.export(u, w))
}

/// Adds what a node has for all nodes.
fn push_peers(alloc: Global, out: &mut Vec<u8>, plan: &Plan, u: u16) -> Result<(), AllocError>
    requires { u < plan.now.size }
    ensures { OnOk result (out.new.items ≡ out.old.items ++ texts_below plan.now.size (spec.peer_lines plan.now u)) }
{
    for w in 0..plan.size() {
        push_peer(alloc, out, plan, u, w)?;
    }
    Ok(())
}

/// Adds what is told of a node.
fn push_node(alloc: Global, out: &mut Vec<u8>, plan: &Plan, u: u16) -> Result<(), AllocError>
    requires { u < plan.now.size }
    ensures { OnOk result (out.new.items ≡ out.old.items ++ spec.node_lines plan.now u) }
{
    push_prefix(alloc, out, u, plan.prefixes()[usize::from(u)])?;
    push_peers(alloc, out, plan, u)
}

/// Hands on what is told of a node.
fn digest_node(alloc: Global, hasher: &mut Sha256, plan: &Plan, u: u16) -> Result<(), AllocError>
    requires { u < plan.now.size }
    ensures { OnOk result ((told : List ℕ) → Holds256 hasher.old told → Holds256 hasher.new (told ++ spec.node_lines plan.now u)) }
{
    let mut lines = Vec::new(alloc);
    push_node(alloc, &mut lines, plan, u)?;
    hasher.update(lines.as_slice());
    Ok(())
}

/// The digest of a domain: two that have the same one are, but for a chance of one in 2^64, the same in their size, prefixes, links and filters.
pub fn domain_digest(alloc: Global, plan: &Plan) -> Result<[u8; 8], AllocError>
    ensures { IfOk result (λ digest. digest ≡ spec.digest_of plan.now) }
{
    let mut hasher = Sha256::new();
    let mut first = Vec::new(alloc);
    push_size(&mut first, plan.size())?;
    hasher.update(first.as_slice());
    for u in 0..plan.size() {
        digest_node(alloc, &mut hasher, plan, u)?;
    }
    let all = hasher.finalize();
    let mut digest = [0; 8];
    digest.copy_from_slice(&all[..8]);
    Ok(digest)
}
