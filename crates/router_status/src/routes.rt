//! The object that tells the routes of a router.
ghost use Rattle.std.specs.Prelude.{◌≡◌, ◌++◌, ◌<◌, IfOk, OnErr, OnOk};
ghost use Rattle.std.specs.Io.{StartsWith};
ghost use Rattle.serde_json.specs.View.{items_view, view};
ghost use Rattle.router_status.specs.Objects as spec;

use crate::object::{number_or_null, push_line};
use netchange_core::{Tables, Via};
use prefix_patterns::Prefix;
use report_formats::ObjectBuilder;
use serde_json::{Value, json};
use std::alloc::{AllocError, Global};

/// The next hop of a route, if it has one.
fn next_hop(via: Via) -> Option<u64>
    ensures { result ≡ spec.next_hop via }
{
    match via {
        Via::Node(hop) => Some(u64::from(hop)),
        Via::Local | Via::Nowhere => None,
    }
}

/// A prefix as a text.
fn prefix_value(alloc: Global, prefix: Prefix) -> Result<Value, AllocError>
    ensures { IfOk result (λ value. view value ≡ spec.prefix_data prefix) }
{
    Ok(Value::String(format!(in alloc; "{prefix}")?))
}

/// The route to a node as an object.
fn route_value(alloc: Global, tables: &Tables, node: u16) -> Result<Value, AllocError>
    requires { node < tables.now.opening.size }
    ensures { IfOk result (λ value. view value ≡ spec.route_data tables.now node) }
{
    let route = tables.route(node);
    let prefix = tables.opening().prefixes()[usize::from(node)];
    let reachable = route.dist < tables.opening().size();
    let via = number_or_null(next_hop(route.via));
    ObjectBuilder::new(alloc)
        .member("distance", Value::from(route.dist))
        .member("node", Value::from(node))
        .try_member("prefix", prefix_value(alloc, prefix))
        .member("reachable", Value::from(reachable))
        .member("via", via)
        .finish()
}

/// The routes to all nodes as an array.
fn route_values(alloc: Global, tables: &Tables) -> Result<Vec<Value>, AllocError>
    ensures { IfOk result (λ values. items_view values.items ≡ spec.routes_data tables.now) }
{
    let mut values = Vec::new(alloc);
    for node in 0..tables.opening().size() {
        values.push(route_value(alloc, tables, node)?)?;
    }
    Ok(values)
}

/// The routes of a router as an object.
fn routes_value(alloc: Global, tables: &Tables) -> Result<Value, AllocError>
    ensures { IfOk result (λ value. view value ≡ spec.all_routes_data tables.now) }
{
    let routes = Value::Array(route_values(alloc, tables)?);
    json!(in alloc; {"routes": routes})
}

/// Adds the object that tells the routes of a router, in a line.
pub fn push_routes_object(
    alloc: Global,
    out: &mut Vec<u8>,
    tables: &Tables,
) -> Result<(), AllocError>
    ensures ok { OnOk result (out.new.items ≡ out.old.items ++ spec.routes_object tables.now) }
    ensures err { OnErr result (StartsWith out.new.items out.old.items) }
{
    let value = routes_value(alloc, tables)?;
    push_line(alloc, out, &value)
}
