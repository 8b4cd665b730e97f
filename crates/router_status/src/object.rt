//! The object that tells what a router is about.
ghost use Rattle.std.specs.Prelude.{◌≡◌, ◌++◌, IfOk, OnErr, OnOk, false, map};
ghost use Rattle.std.specs.Io.{StartsWith};
ghost use Rattle.serde_json.specs.Data.{array};
ghost use Rattle.serde_json.specs.View.{view};
ghost use Rattle.serde_json.specs.Written.{has_float};
ghost use Rattle.router_status.specs.Lines.{text_of};
ghost use Rattle.router_status.specs.Objects as spec;
ghost use Rattle.router_status.specs.Status.{link_view, name_of, named_view_of, status_view};

use crate::status::{FilterStatus, LinkState, LinkStatus, NamedFilter, Status};
use report_formats::ObjectBuilder;
use serde_json::Value;
use std::alloc::{AllocError, Global};

/// A text.
fn text_value(alloc: Global, text: &str) -> Result<Value, AllocError>
    ensures { IfOk result (λ value. view value ≡ spec.text_data text.now) }
{
    Ok(Value::String(String::from_str(alloc, text)?))
}

/// A text, if there is one.
fn text_or_null(alloc: Global, text: &Option<String>) -> Result<Value, AllocError>
    ensures { IfOk result (λ value. view value ≡ spec.text_or_null (text_of text.now)) }
{
    match text {
        Some(text) => text_value(alloc, text.as_str()),
        None => Ok(Value::Null),
    }
}

/// A number, if there is one.
pub(crate) fn number_or_null(number: Option<u64>) -> Value
    ensures { view result ≡ spec.number_or_null number }
{
    match number {
        Some(number) => Value::from(number),
        None => Value::Null,
    }
}

/// The word for whether a link is up.
fn state_word(state: LinkState) -> &'static str
    ensures { result.now ≡ spec.state_word state }
{
    match state {
        LinkState::Up(_) => "up",
        LinkState::Open => "open",
        LinkState::Closed => "closed",
    }
}

/// The session of a link that is up.
fn session_in(state: LinkState) -> Option<u64>
    ensures { result ≡ spec.session_in state }
{
    match state {
        LinkState::Up(session) => Some(u64::from(session)),
        LinkState::Open | LinkState::Closed => None,
    }
}

/// The name of a filter, if it has one.
fn filter_name(
    alloc: Global,
    filter: FilterStatus,
    named: &Option<NamedFilter>,
) -> Result<Value, AllocError>
    ensures { IfOk result (λ value. view value ≡ spec.text_or_null (name_of filter (named_view_of named.now))) }
{
    match named {
        Some(named) if filter.is_named => text_value(alloc, named.name.as_str()),
        _ => Ok(Value::Null),
    }
}

/// What a filter does as an object.
fn filter_value(
    alloc: Global,
    filter: FilterStatus,
    named: &Option<NamedFilter>,
) -> Result<Value, AllocError>
    ensures { IfOk result (λ value. view value ≡ spec.filter_data filter (name_of filter (named_view_of named.now))) }
{
    ObjectBuilder::new(alloc)
        .member("accepted", Value::from(filter.accepted))
        .member("budget", Value::from(filter.budget))
        .try_member("name", filter_name(alloc, filter, named))
        .member("rejected", Value::from(filter.rejected))
        .finish()
}

/// What a filter does as an object, if there is one.
fn filter_or_null(
    alloc: Global,
    filter: Option<FilterStatus>,
    named: &Option<NamedFilter>,
) -> Result<Value, AllocError>
    ensures { IfOk result (λ value. view value ≡ spec.filter_or_null filter (named_view_of named.now)) }
{
    match filter {
        Some(filter) => filter_value(alloc, filter, named),
        None => Ok(Value::Null),
    }
}

/// A link as an object.
fn link_value(alloc: Global, link: &LinkStatus) -> Result<Value, AllocError>
    ensures { IfOk result (λ value. view value ≡ spec.link_data (link_view link.now)) }
{
    ObjectBuilder::new(alloc)
        .try_member("ended", text_or_null(alloc, &link.ended))
        .try_member(
            "export",
            filter_or_null(alloc, link.export_status, &link.export_named),
        )
        .try_member(
            "import",
            filter_or_null(alloc, link.import_status, &link.import_named),
        )
        .member("node", Value::from(link.node))
        .member("received", Value::from(link.received))
        .member("sent", Value::from(link.sent))
        .member("session", number_or_null(session_in(link.state)))
        .member("sessions", Value::from(link.sessions))
        .member("since", Value::from(link.since))
        .try_member("state", text_value(alloc, state_word(link.state)))
        .member("unheard", number_or_null(link.unheard))
        .member("waiting", Value::from(link.waiting))
        .finish()
}

/// The links as an array.
fn links_value(alloc: Global, links: &[LinkStatus]) -> Result<Value, AllocError>
    ensures { IfOk result (λ value. view value ≡ array (spec.links_data (map link_view links.now))) }
{
    let mut values = Vec::with_capacity(alloc, links.len())?;
    for link in links {
        values.push(link_value(alloc, link)?)?;
    }
    Ok(Value::Array(values))
}

/// The router as an object.
fn status_value(alloc: Global, status: &Status) -> Result<Value, AllocError>
    ensures { IfOk result (λ value. view value ≡ spec.status_data (status_view status.now)) }
{
    ObjectBuilder::new(alloc)
        .member("bytes", number_or_null(status.bytes))
        .try_member("domain", text_or_null(alloc, &status.domain))
        .member("entries", Value::from(status.entries))
        .member("forgotten", Value::from(status.forgotten))
        .try_member("links", links_value(alloc, status.links.as_slice()))
        .member("node", Value::from(status.node))
        .member("room", Value::from(status.room))
        .member("saved", number_or_null(status.saved))
        .member("segments", number_or_null(status.segments))
        .member("size", Value::from(status.size))
        .member("up", Value::from(status.up))
        .try_member("version", text_value(alloc, status.version))
        .finish()
}

/// Adds the line of a value without floats.
pub(crate) fn push_line(alloc: Global, out: &mut Vec<u8>, value: &Value) -> Result<(), AllocError>
    requires { has_float (view value.now) ≡ false }
    ensures ok { OnOk result (out.new.items ≡ out.old.items ++ spec.json_line (view value.now)) }
    ensures err { OnErr result (StartsWith out.new.items out.old.items) }
{
    let text = value.to_string(alloc)?;
    out.extend_from_slice(text.as_bytes())?;
    out.push(b'\n')?;
    Ok(())
}

/// Adds the object that tells what a router is about, in a line.
pub fn push_status_object(
    alloc: Global,
    out: &mut Vec<u8>,
    status: &Status,
) -> Result<(), AllocError>
    ensures ok { OnOk result (out.new.items ≡ out.old.items ++ spec.status_object (status_view status.now)) }
    ensures err { OnErr result (StartsWith out.new.items out.old.items) }
{
    let value = status_value(alloc, status)?;
    push_line(alloc, out, &value)
}
