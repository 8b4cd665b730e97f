//! A whole domain as a value of JSON, and as its line.
ghost use Rattle.std.specs.Prelude.{◌≡◌, ◌++◌, IfOk, OnOk, map};
ghost use Rattle.serde_json.specs.View.{view};
ghost use Rattle.domain_reports.specs.Reports as spec;
ghost use Rattle.domain_reports.specs.Views.{domain_view};

use crate::failure::{FailureReport, failures_value};
use crate::filter::{FilterReport, filters_value};
use crate::link::{LinkReport, links_value};
use crate::lists::texts_value;
use report_formats::{ObjectBuilder, number_or_null, push_value};
use serde_json::{Value, json};
use std::alloc::{AllocError, Global};

/// How far a route goes, and through whom, if through anybody.
#[derive(Clone, Copy)]
pub struct RouteReport {
    /// Its distance: the number of nodes where there is no route.
    pub dist: u16,
    /// Its next hop.
    pub hop: Option<usize>,
}

/// What is said of a domain.
#[derive(Clone, Copy)]
pub struct DomainReport<'a> {
    /// The number of nodes.
    pub size: u16,
    /// The prefix of each node.
    pub prefixes: &'a [Vec<u8>],
    /// Its links.
    pub links: &'a [LinkReport],
    /// Its filters.
    pub filters: &'a [FilterReport<'a>],
    /// The routes of each node.
    pub tables: &'a [Vec<RouteReport>],
    /// The longest distance of a route.
    pub longest: u16,
    /// After how many phases all routes are right and nothing waits.
    pub phases: u16,
    /// What the failure of each link changes.
    pub link_failures: &'a [FailureReport],
    /// What the failure of each node changes.
    pub node_failures: &'a [FailureReport],
}

/// A route as a list.
fn route_value(alloc: Global, route: RouteReport) -> Result<Value, AllocError>
    ensures { IfOk result (λ value. view value ≡ spec.route_data route) }
{
    let (dist, hop) = (route.dist, number_or_null(route.hop));
    json!(in alloc; [dist, hop])
}

/// The routes of a node as a list.
fn table_value(alloc: Global, table: &[RouteReport]) -> Result<Value, AllocError>
    ensures { IfOk result (λ value. view value ≡ spec.table_data table.now) }
{
    let mut list = Vec::with_capacity(alloc, table.len())?;
    for route in table {
        list.push(route_value(alloc, *route)?)?;
    }
    Ok(Value::Array(list))
}

/// All routes as a list.
fn tables_value(alloc: Global, tables: &[Vec<RouteReport>]) -> Result<Value, AllocError>
    ensures { IfOk result (λ value. view value ≡ spec.list_data spec.table_data (map (λ table. table.items) tables.now)) }
{
    let mut list = Vec::with_capacity(alloc, tables.len())?;
    for table in tables {
        list.push(table_value(alloc, table.as_slice())?)?;
    }
    Ok(Value::Array(list))
}

/// How far routes go, and how soon they are right, as an object.
fn reach_value(alloc: Global, longest: u16, phases: u16) -> Result<Value, AllocError>
    ensures { IfOk result (λ value. view value ≡ spec.reach_data longest phases) }
{
    ObjectBuilder::new(alloc)
        .member("longest", Value::from(longest))
        .member("phases", Value::from(phases))
        .finish()
}

/// A domain as an object.
pub(crate) fn domain_value(alloc: Global, domain: &DomainReport<'_>) -> Result<Value, AllocError>
    ensures { IfOk result (λ value. view value ≡ spec.domain_data (domain_view domain.now)) }
{
    ObjectBuilder::new(alloc)
        .try_member(
            "failures",
            failures_value(alloc, domain.link_failures, domain.node_failures),
        )
        .try_member("filters", filters_value(alloc, domain.filters))
        .try_member("links", links_value(alloc, domain.links))
        .try_member("prefixes", texts_value(alloc, domain.prefixes))
        .try_member("reach", reach_value(alloc, domain.longest, domain.phases))
        .member("size", Value::from(domain.size))
        .try_member("tables", tables_value(alloc, domain.tables))
        .finish()
}

/// Puts the line of a domain at the end of `out`.
pub fn push_domain(
    alloc: Global,
    out: &mut Vec<u8>,
    domain: &DomainReport<'_>,
) -> Result<(), AllocError>
    ensures { OnOk result (out.new.items ≡ out.old.items ++ spec.domain_line (domain_view domain.now)) }
{
    let value = domain_value(alloc, domain)?;
    push_value(alloc, out, &value)
}
