//! A domain, its routes at rest and its failures, as programs read them.
ghost use Rattle.std.specs.Prelude.{◌≡◌, ◌++◌, ◌∷◌, [], ◌<◌, All, IfOk, OnOk, map};
ghost use Rattle.std.specs.Str.{bytes_eq};
ghost use Rattle.domain_routes.specs.PlanView.{opening_of};
ghost use Rattle.domain_reports.specs.Views.{domain_view, effect_view, filter_view};
ghost use Rattle.netchange_core.specs.Kept.{FitsSize, filter_of};
ghost use Rattle.prefix_patterns.specs.Spelling.{prefix_text};
ghost use Rattle.domain_cmds.specs.Said as spec;
ghost use Rattle.domain_cmds.specs.Texts.{route_of};

use crate::failure::{Failing, FailureEffect};
use crate::failures::{is_link, link_failures, node_failures};
use crate::origins::{Origin, Origins};
use crate::reach::{longest, phases_to_rest};
use crate::resting::RestingPlan;
use crate::routes::{Column, route_of};
use domain_reports::{
    DomainReport, Effect, Fails, FailureReport, FilterReport, LinkReport, RouteReport,
};
use domain_routes::Plan;
use filter_verifier::Verified;
use netchange_core::{Opening, Via, filtered_distance};
use operator_cmds::Direction;
use prefix_patterns::Prefix;
use refusal_words::push_prefix;
use std::alloc::{AllocError, Global};
use std::marker::Model;
use std::sync::Arc;

/// What is said of a domain. A contract sees it as a `DomainView`.
#[derive(Drop)]
pub(crate) struct Said<'a> {
    /// The number of nodes.
    size: u16,
    /// The prefix of each node.
    prefixes: Vec<Vec<u8>>,
    /// Its links.
    links: Vec<LinkReport>,
    /// The filters that got names.
    filters: Vec<FilterReport<'a>>,
    /// The routes of each node.
    tables: Vec<Vec<RouteReport>>,
    /// The longest distance of a route.
    longest: u16,
    /// After how many phases all routes are right and nothing waits.
    phases: u16,
    /// What the failure of each link changes.
    link_failures: Vec<FailureReport>,
    /// What the failure of each node changes.
    node_failures: Vec<FailureReport>,
}

impl<'a> Model for Said<'a> {
    ghost use Rattle.std.specs.Prelude.{map};
    ghost use Rattle.domain_reports.specs.Views.{DomainView, filter_view};

    ghost Value = { DomainView };

    ghost view = { λ s. record {
      size = s.size;
      prefixes = map (λ prefix. prefix.items) s.prefixes.items;
      links = s.links.items;
      filters = map filter_view s.filters.items;
      tables = map (λ table. table.items) s.tables.items;
      longest = s.longest;
      phases = s.phases;
      link_failures = s.link_failures.items;
      node_failures = s.node_failures.items;
    } };
}

impl<'a> Said<'a> {
    /// All of it.
    pub(crate) fn report(&self) -> DomainReport<'_>
        ensures { domain_view result ≡ self.now }
    {
        DomainReport {
            size: self.size,
            prefixes: self.prefixes.as_slice(),
            links: self.links.as_slice(),
            filters: self.filters.as_slice(),
            tables: self.tables.as_slice(),
            longest: self.longest,
            phases: self.phases,
            link_failures: self.link_failures.as_slice(),
            node_failures: self.node_failures.as_slice(),
        }
    }
}

/// A prefix as a text.
fn text_of(alloc: Global, prefix: Prefix) -> Result<Vec<u8>, AllocError>
    ensures { IfOk result (λ text. text.items ≡ prefix_text prefix) }
{
    let mut text = Vec::new(alloc);
    push_prefix(alloc, &mut text, prefix)?;
    Ok(text)
}

/// The prefixes of all nodes.
fn prefix_texts(alloc: Global, plan: &Plan) -> Result<Vec<Vec<u8>>, AllocError>
    ensures { IfOk result (λ texts. map (λ text. text.items) texts.items ≡ map prefix_text plan.now.prefixes) }
{
    let mut texts = Vec::with_capacity(alloc, usize::from(plan.size()))?;
    for prefix in plan.prefixes() {
        texts.push(text_of(alloc, *prefix)?)?;
    }
    Ok(texts)
}

/// The link between two nodes.
fn link_of(origins: &Origins, u: u16, w: u16) -> LinkReport
    ensures { result ≡ spec.link_report origins.now u w }
{
    LinkReport {
        u,
        w,
        exports: (
            origins.used(Direction::Export, u, w),
            origins.used(Direction::Export, w, u),
        ),
        imports: (
            origins.used(Direction::Import, u, w),
            origins.used(Direction::Import, w, u),
        ),
    }
}

/// Adds the link between two nodes, if there is one, and the first is the lesser.
fn push_link(
    plan: &Plan,
    origins: &Origins,
    u: u16,
    w: u16,
    links: &mut Vec<LinkReport>,
) -> Result<(), AllocError>
    requires u { u < plan.now.size }
    requires w { w < plan.now.size }
    ensures { OnOk result (links.new.items ≡ links.old.items ++ spec.link_report_at plan.now origins.now u w) }
{
    if !is_link(plan, u, w) {
        return Ok(());
    }
    links.push(link_of(origins, u, w))?;
    Ok(())
}

/// Adds the links of a node to greater ones.
fn push_links_of(
    plan: &Plan,
    origins: &Origins,
    u: u16,
    links: &mut Vec<LinkReport>,
) -> Result<(), AllocError>
    requires { u < plan.now.size }
    ensures { OnOk result (links.new.items ≡ links.old.items ++ spec.link_reports_of plan.now origins.now u) }
{
    for w in 0..plan.size() {
        push_link(plan, origins, u, w, links)?;
    }
    Ok(())
}

/// All links.
fn link_reports(
    alloc: Global,
    plan: &Plan,
    origins: &Origins,
) -> Result<Vec<LinkReport>, AllocError>
    ensures { IfOk result (λ links. links.items ≡ spec.link_reports plan.now origins.now) }
{
    let mut links = Vec::new(alloc);
    for u in 0..plan.size() {
        push_links_of(plan, origins, u, &mut links)?;
    }
    Ok(links)
}

/// What filters are shown of a domain.
fn opening_of(alloc: Global, plan: &Plan) -> Result<Opening, AllocError>
    ensures { IfOk result (λ opening. opening ≡ opening_of plan.now) }
{
    let prefixes = Vec::from_slice(alloc, plan.prefixes())?;
    Ok(Opening::new(plan.size(), 0, prefixes).unwrap())
}

/// What each distance from a node comes to under a filter.
fn distances_of(
    alloc: Global,
    opening: &Opening,
    filter: &Option<Arc<Verified>>,
    v: u16,
) -> Result<Vec<u16>, AllocError>
    requires fits { FitsSize opening.now.size (filter_of filter.now) }
    requires node { v < opening.now.size }
    ensures { IfOk result (λ distances. distances.items ≡ spec.distances_under opening.now (filter_of filter.now) v) }
{
    let size = opening.size();
    let mut distances = Vec::with_capacity(alloc, usize::from(size))?;
    for dist in 0..size {
        distances.push(filtered_distance(opening, filter, v, dist))?;
    }
    Ok(distances)
}

/// Whether distances come to these.
fn comes_to(effect: &Effect, distances: &[u16]) -> bool
    ensures { result ≡ bytes_eq effect.now.distances.items distances.now }
{
    effect.distances.as_slice() == distances
}

/// Adds a node of which distances come to the same.
fn join(effect: &mut Effect, v: u16) -> Result<(), AllocError>
    ensures { OnOk result (effect_view effect.new ≡ record { distances = effect.old.distances.items; nodes = effect.old.nodes.items ++ v ∷ [] }) }
{
    effect.nodes.push(v)?;
    Ok(())
}

/// What distances from a node come to, of which no other's come to the same.
fn new_effect(alloc: Global, distances: Vec<u16>, v: u16) -> Result<Effect, AllocError>
    ensures { IfOk result (λ effect. effect_view effect ≡ record { distances = distances.items; nodes = v ∷ [] }) }
{
    let mut nodes = Vec::new(alloc);
    nodes.push(v)?;
    Ok(Effect { distances, nodes })
}

/// Adds a node to those of which distances come to the same, or begins with it.
fn add_node(
    alloc: Global,
    effects: &mut Vec<Effect>,
    distances: Vec<u16>,
    v: u16,
) -> Result<(), AllocError>
    ensures { OnOk result (spec.AddsNode distances.items v (map effect_view effects.old.items) (map effect_view effects.new.items)) }
{
    for k in 0..effects.len() {
        if comes_to(&effects[k], distances.as_slice()) {
            return join(&mut effects[k], v);
        }
    }
    let effect = new_effect(alloc, distances, v)?;
    effects.push(effect)?;
    Ok(())
}

/// What a filter makes of all distances.
fn effects_of(
    alloc: Global,
    opening: &Opening,
    filter: &Option<Arc<Verified>>,
) -> Result<Vec<Effect>, AllocError>
    requires fits { FitsSize opening.now.size (filter_of filter.now) }
    ensures { IfOk result (λ effects. spec.AreEffects opening.now (filter_of filter.now) (map effect_view effects.items)) }
{
    let mut effects = Vec::new(alloc);
    for v in 0..opening.size() {
        let distances = distances_of(alloc, opening, filter, v)?;
        add_node(alloc, &mut effects, distances, v)?;
    }
    Ok(effects)
}

/// What is said of a filter that got a name.
fn filter_report<'a>(
    alloc: Global,
    opening: &Opening,
    origin: &'a Origin,
) -> Result<FilterReport<'a>, AllocError>
    requires fits { origin.now.filter.size ≡ opening.now.size }
    ensures { IfOk result (λ report. spec.IsFilterReport opening.now origin.now (filter_view report)) }
{
    let filter = Some(Arc::try_clone(&origin.filter)?);
    Ok(FilterReport {
        name: origin.name.as_slice(),
        line: origin.line,
        text: origin.text.as_deref(),
        listing: origin.listing.as_slice(),
        budget: origin.filter.budget(),
        depth: origin.filter.depth(),
        effects: effects_of(alloc, opening, &filter)?,
    })
}

/// What is said of all filters that got names.
fn filter_reports<'a>(
    alloc: Global,
    plan: &Plan,
    origins: &'a Origins,
) -> Result<Vec<FilterReport<'a>>, AllocError>
    requires fits { All (λ origin. origin.filter.size ≡ plan.now.size) origins.now.all }
    ensures { IfOk result (λ reports. spec.AreFilterReports (opening_of plan.now) origins.now.all (map filter_view reports.items)) }
{
    let opening = opening_of(alloc, plan)?;
    let all = origins.all();
    let mut reports = Vec::with_capacity(alloc, all.len())?;
    for origin in all {
        reports.push(filter_report(alloc, &opening, origin)?)?;
    }
    Ok(reports)
}

/// The next hop of a route, if there is one.
fn hop_of(via: Via) -> Option<usize>
    ensures { result ≡ spec.hop_of via }
{
    match via {
        Via::Node(w) => Some(usize::from(w)),
        Via::Local | Via::Nowhere => None,
    }
}

/// The route of one node to another.
fn route_report(size: u16, all: &[Column], u: u16, v: u16) -> RouteReport
    ensures { result ≡ spec.route_report (route_of size all.now u v) }
{
    let route = route_of(size, all, u, v);
    RouteReport {
        dist: route.dist,
        hop: hop_of(route.via),
    }
}

/// All routes of a node.
fn table_of(
    alloc: Global,
    size: u16,
    all: &[Column],
    u: u16,
) -> Result<Vec<RouteReport>, AllocError>
    ensures { IfOk result (λ routes. routes.items ≡ spec.table_of size all.now u) }
{
    let mut routes = Vec::with_capacity(alloc, usize::from(size))?;
    for v in 0..size {
        routes.push(route_report(size, all, u, v))?;
    }
    Ok(routes)
}

/// All routes of all nodes.
fn tables(alloc: Global, size: u16, all: &[Column]) -> Result<Vec<Vec<RouteReport>>, AllocError>
    ensures { IfOk result (λ tables. map (λ table. table.items) tables.items ≡ spec.tables_of size all.now) }
{
    let mut tables = Vec::with_capacity(alloc, usize::from(size))?;
    for u in 0..size {
        tables.push(table_of(alloc, size, all, u)?)?;
    }
    Ok(tables)
}

/// What fails.
pub(crate) fn fails_of(what: Failing) -> Fails
    ensures { result ≡ spec.fails_of what }
{
    match what {
        Failing::Link(u, w) => Fails::Link(u, w),
        Failing::Node(x) => Fails::Node(x),
    }
}

/// What is said of a failure.
fn failure_report(failure: FailureEffect) -> FailureReport
    ensures { result ≡ spec.failure_report failure }
{
    FailureReport {
        what: fails_of(failure.what),
        changed: failure.changed,
        lost: failure.lost,
        moved: failure.moved,
        rounds: failure.rounds,
        still: failure.still,
    }
}

/// What is said of failures.
fn failure_reports(
    alloc: Global,
    failures: &[FailureEffect],
) -> Result<Vec<FailureReport>, AllocError>
    ensures { IfOk result (λ reports. reports.items ≡ map spec.failure_report failures.now) }
{
    let mut reports = Vec::with_capacity(alloc, failures.len())?;
    for failure in failures {
        reports.push(failure_report(*failure))?;
    }
    Ok(reports)
}

/// What is said of a domain.
pub(crate) fn said_of<'a>(
    alloc: Global,
    domain: &mut RestingPlan,
    origins: &'a Origins,
) -> Result<Said<'a>, AllocError>
    requires fits { All (λ origin. origin.filter.size ≡ domain.old.size) origins.now.all }
    ensures said { IfOk result (λ said. spec.IsSaid domain.old origins.now said) }
    ensures same { domain.new ≡ domain.old }
{
    let all = domain.all_routes(alloc)?;
    let by_link = link_failures(alloc, domain, all.as_slice())?;
    let by_node = node_failures(alloc, domain, all.as_slice())?;
    let size = domain.size();
    Ok(Said {
        size,
        prefixes: prefix_texts(alloc, domain.plan())?,
        links: link_reports(alloc, domain.plan(), origins)?,
        filters: filter_reports(alloc, domain.plan(), origins)?,
        tables: tables(alloc, size, all.as_slice())?,
        longest: longest(size, all.as_slice()),
        phases: phases_to_rest(size, all.as_slice()),
        link_failures: failure_reports(alloc, by_link.as_slice())?,
        node_failures: failure_reports(alloc, by_node.as_slice())?,
    })
}
