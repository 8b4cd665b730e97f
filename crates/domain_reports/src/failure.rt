//! A failure as a value of JSON.
ghost use Rattle.std.specs.Prelude.{◌≡◌, IfOk};
ghost use Rattle.serde_json.specs.View.{view};
ghost use Rattle.domain_reports.specs.Reports as spec;

use crate::lists::pair_value;
use report_formats::ObjectBuilder;
use serde_json::Value;
use std::alloc::{AllocError, Global};

/// What fails.
#[derive(Clone, Copy)]
pub enum Fails {
    /// The link between two nodes.
    Link(u16, u16),
    /// A node.
    Node(u16),
}

/// A single failure, and what it changes.
#[derive(Clone, Copy)]
pub struct FailureReport {
    /// What fails.
    pub what: Fails,
    /// How many routes have another distance or next hop.
    pub changed: u32,
    /// How many of these are no more.
    pub lost: u32,
    /// To how many nodes some distance is another.
    pub moved: u32,
    /// After how many rounds all is told, at most.
    pub rounds: u16,
    /// Below which distance none is another.
    pub still: u16,
}

/// A failure as an object.
fn failure_value(alloc: Global, failure: FailureReport) -> Result<Value, AllocError>
    ensures { IfOk result (λ value. view value ≡ spec.failure_data failure) }
{
    match failure.what {
        Fails::Link(u, w) => ObjectBuilder::new(alloc)
            .member("changed", Value::from(failure.changed))
            .try_member("link", pair_value(alloc, u, w))
            .member("lost", Value::from(failure.lost))
            .member("moved", Value::from(failure.moved))
            .member("rounds", Value::from(failure.rounds))
            .member("still", Value::from(failure.still))
            .finish(),
        Fails::Node(x) => ObjectBuilder::new(alloc)
            .member("changed", Value::from(failure.changed))
            .member("lost", Value::from(failure.lost))
            .member("moved", Value::from(failure.moved))
            .member("node", Value::from(x))
            .member("rounds", Value::from(failure.rounds))
            .member("still", Value::from(failure.still))
            .finish(),
    }
}

/// Failures as a list.
fn list_value(alloc: Global, failures: &[FailureReport]) -> Result<Value, AllocError>
    ensures { IfOk result (λ value. view value ≡ spec.list_data spec.failure_data failures.now) }
{
    let mut list = Vec::with_capacity(alloc, failures.len())?;
    for failure in failures {
        list.push(failure_value(alloc, *failure)?)?;
    }
    Ok(Value::Array(list))
}

/// The failures of links and those of nodes as an object.
pub(crate) fn failures_value(
    alloc: Global,
    links: &[FailureReport],
    nodes: &[FailureReport],
) -> Result<Value, AllocError>
    ensures { IfOk result (λ value. view value ≡ spec.failures_data links.now nodes.now) }
{
    ObjectBuilder::new(alloc)
        .try_member("links", list_value(alloc, links))
        .try_member("nodes", list_value(alloc, nodes))
        .finish()
}
