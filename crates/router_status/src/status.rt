//! What a running router tells of itself.
//!
//! **The routes that a filter lets through are counted at the moment of the question**, as routes are there or not: the number that a filter was
//! asked about ever would say how often neighbours repeat themselves. A filter that comes into force is shown all routes again, so the counts are also
//! those since it is in force, and no reload takes any of them back.
//!
//! **A filter has a name if it has the code of the one that was put in force last under a name.** Filters are told apart by their code, as everywhere.
ghost use Rattle.std.specs.Prelude.{◌≡◌, ◌<◌, IfOk, OnOk, Some, map};
ghost use Rattle.netchange_core.specs.Kept.{FitsSize, filter_of};
ghost use Rattle.netchange_core.specs.World.{World};
ghost use Rattle.router_status.specs.Status as spec;

use code_file::write_code;
use filter_verifier::Verified;
use netchange_core::{Tables, filtered_distance};
use route_history::LongJournal;
use std::alloc::{AllocError, Global};
use std::sync::Arc;

/// Whether a link is up.
#[derive(Clone, Copy, PartialEq, Eq)]
pub enum LinkState {
    /// It has this session.
    Up(u32),
    /// Its files are open, and it has no session: its ends greet one another.
    Open,
    /// Its files are not open.
    Closed,
}

/// A filter, and the name under which it was put in force.
#[derive(Drop)]
pub struct NamedFilter {
    /// The name.
    pub name: String,
    /// The filter.
    pub filter: Arc<Verified>,
}

/// What a filter in force does with the routes that there are at this moment.
#[derive(Clone, Copy, PartialEq, Eq)]
pub struct FilterStatus {
    /// It is the one that was put in force last under a name.
    pub is_named: bool,
    /// The most instructions that it executes on a route.
    pub budget: u32,
    /// How many routes it lets through.
    pub accepted: u16,
    /// How many it rejects.
    pub rejected: u16,
}

/// What is told of a link.
#[derive(Drop)]
pub struct LinkStatus {
    /// The neighbour.
    pub node: u16,
    /// Whether it is up.
    pub state: LinkState,
    /// For how many seconds it has been up, or not.
    pub since: u64,
    /// How many sessions it had, with the one that it has.
    pub sessions: u64,
    /// How many messages were heard of the neighbour.
    pub received: u64,
    /// How many messages were handed to who writes to the neighbour.
    pub sent: u64,
    /// How many messages wait for the neighbour.
    pub waiting: u64,
    /// The filter of what the neighbour tells that was put in force last under a name.
    pub import_named: Option<NamedFilter>,
    /// What the filter in force does with the routes that the neighbour advertises, if the link is up and has one.
    pub import_status: Option<FilterStatus>,
    /// The filter of what the neighbour is told that was put in force last under a name.
    pub export_named: Option<NamedFilter>,
    /// What the filter in force does with the routes that the neighbour is told, if the link is up and has one.
    pub export_status: Option<FilterStatus>,
    /// For how many seconds nothing was heard of the neighbour, where the link is open.
    pub unheard: Option<u64>,
    /// Why its last session ended, or it did not come up, if any did.
    pub ended: Option<String>,
}

/// What a router tells of itself.
#[derive(Drop)]
pub struct Status {
    /// The version of the program.
    pub version: &'static str,
    /// The number of nodes of the domain.
    pub size: u16,
    /// The node that the router is.
    pub node: u16,
    /// For how many seconds it runs.
    pub up: u64,
    /// How many entries its history has.
    pub entries: u64,
    /// How many of them are forgotten.
    pub forgotten: u64,
    /// For how many there is room in memory.
    pub room: u32,
    /// How many of them are saved, if they are.
    pub saved: Option<u64>,
    /// In how many segments, where they are.
    pub segments: Option<u64>,
    /// How many bytes these segments have.
    pub bytes: Option<u64>,
    /// The digits of the digest of its domain, if a file set it up.
    pub domain: Option<String>,
    /// The links, in their order.
    pub links: Vec<LinkStatus>,
}

/// How many messages wait for a node, if it is up.
fn waiting_for(tables: &Tables, node: u16) -> u64
    ensures { result ≡ spec.waiting_for tables.now node }
{
    match tables.present_session(node) {
        Some(_) => tables.neighbour(node).queue.len() as u64,
        None => 0,
    }
}

/// Whether a neighbour advertises a route to a node, and the route passes its import filter or does not.
fn is_import(tables: &Tables, node: u16, passes: bool, dest: u16) -> bool
    requires node { node < tables.now.opening.size }
    requires dest { dest < tables.now.opening.size }
    ensures { result ≡ spec.is_import tables.now node passes dest }
{
    let size = tables.opening().size();
    let is_there = tables.neighbour_distance(node, dest) < size;
    tables.advertised(node, dest) < size && is_there == passes
}

/// How many routes a neighbour advertises that pass its import filter, or that do not.
fn count_imports(tables: &Tables, node: u16, passes: bool) -> u16
    requires { node < tables.now.opening.size }
    ensures { result ≡ spec.count_imports tables.now node passes }
{
    let mut count: u16 = 0;
    for dest in 0..tables.opening().size() {
        if is_import(tables, node, passes, dest) {
            count += 1;
        }
    }
    count
}

/// Whether a filter that is verified for the domain lets the route to a node through that there is, or rejects it.
fn is_export(tables: &Tables, filter: &Option<Arc<Verified>>, passes: bool, dest: u16) -> bool
    requires fits { FitsSize tables.now.opening.size (filter_of filter.now) }
    requires dest { dest < tables.now.opening.size }
    ensures { result ≡ spec.is_export tables.now (filter_of filter.now) passes dest }
{
    let size = tables.opening().size();
    let dist = tables.route(dest).dist;
    if dist < size {
        let is_there = filtered_distance(tables.opening(), filter, dest, dist) < size;
        is_there == passes
    } else {
        false
    }
}

/// How many of the routes that there are such a filter lets through, or rejects.
fn count_exports(tables: &Tables, filter: &Option<Arc<Verified>>, passes: bool) -> u16
    requires { FitsSize tables.now.opening.size (filter_of filter.now) }
    ensures { result ≡ spec.count_exports tables.now (filter_of filter.now) passes }
{
    let mut count: u16 = 0;
    for dest in 0..tables.opening().size() {
        if is_export(tables, filter, passes, dest) {
            count += 1;
        }
    }
    count
}

/// Whether two filters have the same code.
pub fn is_same_code(alloc: Global, one: &Verified, other: &Verified) -> Result<bool, AllocError>
    ensures { IfOk result (λ same. same ≡ spec.is_same_code one.now other.now) }
{
    let Ok(one) = write_code(alloc, one.code()) else {
        return Err(AllocError);
    };
    let Ok(other) = write_code(alloc, other.code()) else {
        return Err(AllocError);
    };
    Ok(one.as_slice() == other.as_slice())
}

/// Whether a filter is the one that was put in force last under a name, if one was.
fn is_named(
    alloc: Global,
    filter: &Verified,
    named: &Option<NamedFilter>,
) -> Result<bool, AllocError>
    ensures { IfOk result (λ is. is ≡ spec.is_named filter.now (spec.named_view_of named.now)) }
{
    match named {
        Some(named) => is_same_code(alloc, filter, &named.filter),
        None => Ok(false),
    }
}

/// What a filter does with the routes that a neighbour advertises.
fn import_by(
    alloc: Global,
    tables: &Tables,
    node: u16,
    named: &Option<NamedFilter>,
    filter: &Verified,
) -> Result<FilterStatus, AllocError>
    requires { node < tables.now.opening.size }
    ensures { IfOk result (λ status. status ≡ spec.import_by tables.now node (spec.named_view_of named.now) filter.now) }
{
    Ok(FilterStatus {
        is_named: is_named(alloc, filter, named)?,
        budget: filter.budget(),
        accepted: count_imports(tables, node, true),
        rejected: count_imports(tables, node, false),
    })
}

/// What the import filter of a neighbour does, if it has one.
fn import_at(
    alloc: Global,
    tables: &Tables,
    node: u16,
    named: &Option<NamedFilter>,
) -> Result<Option<FilterStatus>, AllocError>
    requires { node < tables.now.opening.size }
    ensures { IfOk result (λ status. status ≡ spec.import_at tables.now node (spec.named_view_of named.now)) }
{
    match &tables.neighbour(node).imports {
        Some(filter) => Ok(Some(import_by(alloc, tables, node, named, filter)?)),
        None => Ok(None),
    }
}

/// What the import filter of a node does, if it is up and has one.
fn import_of(
    alloc: Global,
    tables: &Tables,
    node: u16,
    named: &Option<NamedFilter>,
) -> Result<Option<FilterStatus>, AllocError>
    ensures { IfOk result (λ status. status ≡ spec.import_of tables.now node (spec.named_view_of named.now)) }
{
    match tables.present_session(node) {
        Some(_) => import_at(alloc, tables, node, named),
        None => Ok(None),
    }
}

/// What a filter that is verified for the domain does with the routes that a neighbour is told.
fn export_by(
    alloc: Global,
    tables: &Tables,
    named: &Option<NamedFilter>,
    filter: &Verified,
    exports: &Option<Arc<Verified>>,
) -> Result<FilterStatus, AllocError>
    requires same { filter_of exports.now ≡ Some filter.now }
    requires fits { FitsSize tables.now.opening.size (filter_of exports.now) }
    ensures { IfOk result (λ status. status ≡ spec.export_by tables.now (spec.named_view_of named.now) filter.now) }
{
    Ok(FilterStatus {
        is_named: is_named(alloc, filter, named)?,
        budget: filter.budget(),
        accepted: count_exports(tables, exports, true),
        rejected: count_exports(tables, exports, false),
    })
}

/// What an export filter does, if there is one. One that is verified for domains of another size is no filter here: no event puts it in force.
fn export_with(
    alloc: Global,
    tables: &Tables,
    named: &Option<NamedFilter>,
    exports: &Option<Arc<Verified>>,
) -> Result<Option<FilterStatus>, AllocError>
    ensures { IfOk result (λ status. status ≡ spec.export_with tables.now (spec.named_view_of named.now) (filter_of exports.now)) }
{
    let Some(filter) = exports else {
        return Ok(None);
    };
    if filter.size() != u32::from(tables.opening().size()) {
        return Ok(None);
    }
    Ok(Some(export_by(alloc, tables, named, filter, exports)?))
}

/// What the export filter of a node does, if it is up and has one.
fn export_of(
    alloc: Global,
    tables: &Tables,
    node: u16,
    named: &Option<NamedFilter>,
) -> Result<Option<FilterStatus>, AllocError>
    ensures { IfOk result (λ status. status ≡ spec.export_of tables.now node (spec.named_view_of named.now)) }
{
    match tables.present_session(node) {
        Some(_) => export_with(alloc, tables, named, &tables.neighbour(node).exports),
        None => Ok(None),
    }
}

/// Says of a link what the tables say of it.
fn fill_link(alloc: Global, link: &mut LinkStatus, tables: &Tables) -> Result<(), AllocError>
    ensures { OnOk result (link.new ≡ spec.filled tables.now link.old) }
{
    link.waiting = waiting_for(tables, link.node);
    link.import_status = import_of(alloc, tables, link.node, &link.import_named)?;
    link.export_status = export_of(alloc, tables, link.node, &link.export_named)?;
    Ok(())
}

/// Says of each link what the tables say of it.
fn fill_links(alloc: Global, links: &mut Vec<LinkStatus>, tables: &Tables) -> Result<(), AllocError>
    ensures { OnOk result
        (map spec.link_view links.new.items ≡ map (spec.with_tables tables.now) (map spec.link_view links.old.items)) }
{
    for link in links.iter_mut() {
        fill_link(alloc, link, tables)?;
    }
    Ok(())
}

impl Status {
    ghost use Rattle.std.specs.Prelude.{OnOk};
    ghost use Rattle.route_history.specs.Long.{OfHistory};
    ghost use Rattle.router_status.specs.Status.{completed, status_view};

    /// Says what only the history says: how many entries there are, what waits for each neighbour, and what filters do with its routes.
    pub fn complete(&mut self, alloc: Global, journal: &LongJournal) -> Result<(), AllocError>
        ensures { OfHistory journal.now (λ history.
            OnOk result (status_view self.new ≡ completed journal.now.first history (status_view self.old))) }
    {
        let opening = journal.opening();
        self.size = opening.size();
        self.node = opening.me();
        self.forgotten = journal.first();
        self.entries = self.forgotten.saturating_add(u64::from(journal.kept()));
        self.room = journal.bounds().limit;
        fill_links(alloc, &mut self.links, journal.tables())?;
        Ok(())
    }
}
