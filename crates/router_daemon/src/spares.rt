//! The nodes that may get links while a router runs.
//!
//! **They are known from the start on**, so that each has a place then: all nodes of the domain, where a file sets it up, which may be read again.
ghost use Rattle.std.specs.Prelude.{◌≡◌, ◌++◌, OnOk};
ghost use Rattle.router_daemon.specs.Spares as spec;

use router_options::LinkFiles;
use std::alloc::AllocError;

/// Whether a node has one of these links.
fn has_link(links: &[LinkFiles], node: u16) -> bool
    ensures { result ≡ spec.has_link links.now node }
{
    links.iter().any(|link| link.node == node)
}

/// Adds a node to others, if it is not the router's own and has none of these links.
fn push_spare(
    nodes: &mut Vec<u16>,
    me: u16,
    links: &[LinkFiles],
    node: u16,
) -> Result<(), AllocError>
    ensures { OnOk result (nodes.new.items ≡ nodes.old.items ++ spec.spare_at me links.now node) }
{
    if node != me && !has_link(links, node) {
        nodes.push(node)?;
    }
    Ok(())
}

/// Adds all nodes of a domain of a size that have none of these links, but may get one to a node.
pub(crate) fn push_spares(
    nodes: &mut Vec<u16>,
    size: u16,
    me: u16,
    links: &[LinkFiles],
) -> Result<(), AllocError>
    ensures { OnOk result (nodes.new.items ≡ nodes.old.items ++ spec.spares_below me links.now size) }
{
    for node in 0..size {
        push_spare(nodes, me, links, node)?;
    }
    Ok(())
}
