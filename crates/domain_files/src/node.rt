//! What a domain's file says to one of its routers.
ghost use Rattle.std.specs.Prelude.{◌≡◌, ◌++◌, ◌<◌, IfOk, OnOk, map};
ghost use Rattle.std.specs.Option.{option_map};
ghost use Rattle.domain_files.specs.FileView.{use_of};
ghost use Rattle.domain_files.specs.Files.{name_between};
ghost use Rattle.domain_files.specs.Nodes as spec;

use crate::file::{DomainFile, NamedUse};
use domain_routes::Plan;
use operator_cmds::Direction;
use std::alloc::{AllocError, Global};

/// A neighbour, and the name of the filter that is used there.
#[derive(Drop)]
pub struct FilterAt {
    /// The neighbour.
    pub node: u16,
    /// The name.
    pub name: Vec<u8>,
}

/// What a node has of its domain, beside size and prefixes.
#[derive(Drop)]
pub struct NodeFile {
    /// Its neighbours, in order.
    pub neighbours: Vec<u16>,
    /// Its import filters, in the order of the neighbours, with those of nodes that are none.
    pub imports: Vec<FilterAt>,
    /// Its export filters, likewise.
    pub exports: Vec<FilterAt>,
}

/// Whether both are the same direction.
fn is_same_way(one: Direction, other: Direction) -> bool
    ensures { result ≡ spec.is_same_way one other }
{
    matches!(
        (one, other),
        (Direction::Import, Direction::Import) | (Direction::Export, Direction::Export)
    )
}

/// Whether a filter is used in a direction between two nodes.
fn is_between(used: &NamedUse, direction: Direction, u: u16, w: u16) -> bool
    ensures { result ≡ spec.is_between direction u w (use_of used.now) }
{
    is_same_way(direction, used.direction) && u == used.u && w == used.w
}

/// The name that counts after one more use: that of this use, if it is of this direction between these nodes, or else the one that counted before.
fn name_after<'a>(
    name: Option<&'a [u8]>,
    used: &'a NamedUse,
    direction: Direction,
    u: u16,
    w: u16,
) -> Option<&'a [u8]>
    ensures { option_map (λ name. name.now) result ≡ spec.name_after direction u w (option_map (λ name. name.now) name.entry) (use_of used.now) }
{
    if is_between(used, direction, u, w) {
        Some(used.name.as_slice())
    } else {
        name
    }
}

/// The name of the filter that is used in a direction between two nodes, if one is: that of the last use.
fn find_name(uses: &[NamedUse], direction: Direction, u: u16, w: u16) -> Option<&[u8]>
    ensures { option_map (λ name. name.now) result ≡ name_between direction u w (map use_of uses.now) }
{
    let mut name = None;
    for used in uses {
        name = name_after(name, used, direction, u, w);
    }
    name
}

/// Adds a node to the neighbours of another one, if it is one.
fn push_neighbour(nodes: &mut Vec<u16>, plan: &Plan, me: u16, w: u16) -> Result<(), AllocError>
    requires me { me < plan.now.size }
    requires w { w < plan.now.size }
    ensures { OnOk result (nodes.new.items ≡ nodes.old.items ++ spec.neighbour_at plan.now me w) }
{
    if plan.is_linked(me, w) {
        nodes.push(w)?;
    }
    Ok(())
}

/// The neighbours of a node.
fn neighbours_of(alloc: Global, plan: &Plan, me: u16) -> Result<Vec<u16>, AllocError>
    requires { me < plan.now.size }
    ensures { IfOk result (λ nodes. nodes.items ≡ spec.neighbours_of plan.now me) }
{
    let mut nodes = Vec::new(alloc);
    for w in 0..plan.size() {
        push_neighbour(&mut nodes, plan, me, w)?;
    }
    Ok(nodes)
}

/// Adds a neighbour with the name of the filter that is used there, if one is.
fn push_filter_at(
    alloc: Global,
    filters: &mut Vec<FilterAt>,
    name: Option<&[u8]>,
    node: u16,
) -> Result<(), AllocError>
    ensures { OnOk result (map spec.filter_at_of filters.new.items
        ≡ map spec.filter_at_of filters.old.items ++ spec.at_name (option_map (λ name. name.now) name.entry) node) }
{
    if let Some(name) = name {
        let name = Vec::from_slice(alloc, name)?;
        filters.push(FilterAt { node, name })?;
    }
    Ok(())
}

/// The filters of a direction that a node has, in a domain of so many nodes.
fn filters_at(
    alloc: Global,
    uses: &[NamedUse],
    size: u16,
    direction: Direction,
    me: u16,
) -> Result<Vec<FilterAt>, AllocError>
    ensures { IfOk result (λ filters. map spec.filter_at_of filters.items ≡ spec.filters_below size (map use_of uses.now) direction me) }
{
    let mut filters = Vec::new(alloc);
    for node in 0..size {
        push_filter_at(
            alloc,
            &mut filters,
            find_name(uses, direction, me, node),
            node,
        )?;
    }
    Ok(filters)
}

impl DomainFile {
    /// What a node has of the domain; none if it is not in it.
    pub fn node(&self, alloc: Global, me: u32) -> Result<Option<NodeFile>, AllocError>
        ensures { IfOk result (spec.IsAtNode self.now me) }
    {
        let size = self.plan().size();
        if me >= u32::from(size) {
            return Ok(None);
        }
        let me = me as u16;
        Ok(Some(NodeFile {
            neighbours: neighbours_of(alloc, self.plan(), me)?,
            imports: filters_at(alloc, self.uses(), size, Direction::Import, me)?,
            exports: filters_at(alloc, self.uses(), size, Direction::Export, me)?,
        }))
    }
}
