//! The line that tells what a router is about.
ghost use Rattle.std.specs.Prelude.{◌≡◌, ◌++◌, ◌∷◌, [], OnErr, OnOk, flat_map};
ghost use Rattle.std.specs.Io.{StartsWith};
ghost use Rattle.router_status.specs.Lines as spec;
ghost use Rattle.router_status.specs.Status.{link_view, name_of, named_view_of, status_view};

use crate::status::{FilterStatus, LinkState, LinkStatus, NamedFilter, Status};
use line_protocol::push_decimal;
use std::alloc::AllocError;

/// Adds a number under its name.
fn push_number(out: &mut Vec<u8>, name: &str, number: u64) -> Result<(), AllocError>
    ensures ok { OnOk result (out.new.items ≡ out.old.items ++ spec.number_text name.now number) }
    ensures err { OnErr result (StartsWith out.new.items out.old.items) }
{
    out.push(b' ')?;
    out.extend_from_slice(name.as_bytes())?;
    out.push(b' ')?;
    push_decimal(out, number)
}

/// Adds a number under its name, if there is one.
fn push_if_known(out: &mut Vec<u8>, name: &str, number: Option<u64>) -> Result<(), AllocError>
    ensures ok { OnOk result (out.new.items ≡ out.old.items ++ spec.known_text name.now number) }
    ensures err { OnErr result (StartsWith out.new.items out.old.items) }
{
    match number {
        Some(number) => push_number(out, name, number),
        None => Ok(()),
    }
}

/// Adds whether a link is up.
fn push_state(out: &mut Vec<u8>, state: LinkState) -> Result<(), AllocError>
    ensures ok { OnOk result (out.new.items ≡ out.old.items ++ spec.state_text state) }
    ensures err { OnErr result (StartsWith out.new.items out.old.items) }
{
    match state {
        LinkState::Up(session) => push_number(out, "up", u64::from(session)),
        LinkState::Open => out.extend_from_slice(b" open"),
        LinkState::Closed => out.extend_from_slice(b" closed"),
    }
}

/// Adds why a link was closed last, if it was.
fn push_ended(out: &mut Vec<u8>, ended: &Option<String>) -> Result<(), AllocError>
    ensures ok { OnOk result (out.new.items ≡ out.old.items ++ spec.ended_text (spec.text_of ended.now)) }
    ensures err { OnErr result (StartsWith out.new.items out.old.items) }
{
    match ended {
        Some(why) => {
            out.extend_from_slice(b" ended ")?;
            out.extend_from_slice(why.as_bytes())
        }
        None => Ok(()),
    }
}

/// Adds since when a link is up or not, and how many sessions it had.
fn push_sessions(out: &mut Vec<u8>, link: &LinkStatus) -> Result<(), AllocError>
    ensures ok { OnOk result (out.new.items ≡ out.old.items ++ spec.sessions_text (link_view link.now)) }
    ensures err { OnErr result (StartsWith out.new.items out.old.items) }
{
    push_number(out, "since", link.since)?;
    push_number(out, "sessions", link.sessions)
}

/// Adds how many messages were heard and sent, and wait.
fn push_messages(out: &mut Vec<u8>, link: &LinkStatus) -> Result<(), AllocError>
    ensures ok { OnOk result (out.new.items ≡ out.old.items ++ spec.messages_text (link_view link.now)) }
    ensures err { OnErr result (StartsWith out.new.items out.old.items) }
{
    push_number(out, "received", link.received)?;
    push_number(out, "sent", link.sent)?;
    push_number(out, "waiting", link.waiting)
}

/// The name of a filter, or `-` where it has none.
fn shown_name(filter: FilterStatus, named: &Option<NamedFilter>) -> &[u8]
    ensures { result.now ≡ spec.name_text (name_of filter (named_view_of named.now)) }
{
    match named {
        Some(named) if filter.is_named => named.name.as_bytes(),
        _ => b"-",
    }
}

/// Adds a filter by its direction and its name.
fn push_direction(
    out: &mut Vec<u8>,
    direction: &str,
    filter: FilterStatus,
    named: &Option<NamedFilter>,
) -> Result<(), AllocError>
    ensures ok { OnOk result (out.new.items ≡ out.old.items ++ spec.direction_text direction.now (name_of filter (named_view_of named.now))) }
    ensures err { OnErr result (StartsWith out.new.items out.old.items) }
{
    out.push(b' ')?;
    out.extend_from_slice(direction.as_bytes())?;
    out.push(b' ')?;
    out.extend_from_slice(shown_name(filter, named))
}

/// Adds the budget of a filter, and how many routes it lets through and rejects.
fn push_verdicts(out: &mut Vec<u8>, filter: FilterStatus) -> Result<(), AllocError>
    ensures ok { OnOk result (out.new.items ≡ out.old.items ++ spec.verdicts_text filter) }
    ensures err { OnErr result (StartsWith out.new.items out.old.items) }
{
    push_number(out, "budget", u64::from(filter.budget))?;
    push_number(out, "accepted", u64::from(filter.accepted))?;
    push_number(out, "rejected", u64::from(filter.rejected))
}

/// Adds what a filter does.
fn push_filter(
    out: &mut Vec<u8>,
    direction: &str,
    filter: FilterStatus,
    named: &Option<NamedFilter>,
) -> Result<(), AllocError>
    ensures ok { OnOk result (out.new.items ≡ out.old.items ++ spec.filter_text direction.now (named_view_of named.now) filter) }
    ensures err { OnErr result (StartsWith out.new.items out.old.items) }
{
    push_direction(out, direction, filter, named)?;
    push_verdicts(out, filter)
}

/// Adds what a filter does, if there is one.
fn push_if_filtered(
    out: &mut Vec<u8>,
    direction: &str,
    filter: Option<FilterStatus>,
    named: &Option<NamedFilter>,
) -> Result<(), AllocError>
    ensures ok { OnOk result (out.new.items ≡ out.old.items ++ spec.filtered_text direction.now (named_view_of named.now) filter) }
    ensures err { OnErr result (StartsWith out.new.items out.old.items) }
{
    match filter {
        Some(filter) => push_filter(out, direction, filter, named),
        None => Ok(()),
    }
}

/// Adds what is told of the filters of a link.
fn push_filters(out: &mut Vec<u8>, link: &LinkStatus) -> Result<(), AllocError>
    ensures ok { OnOk result (out.new.items ≡ out.old.items ++ spec.filters_text (link_view link.now)) }
    ensures err { OnErr result (StartsWith out.new.items out.old.items) }
{
    push_if_filtered(out, "import", link.import_status, &link.import_named)?;
    push_if_filtered(out, "export", link.export_status, &link.export_named)
}

/// Adds what is counted of a link.
fn push_counts(out: &mut Vec<u8>, link: &LinkStatus) -> Result<(), AllocError>
    ensures ok { OnOk result (out.new.items ≡ out.old.items ++ spec.counts_text (link_view link.now)) }
    ensures err { OnErr result (StartsWith out.new.items out.old.items) }
{
    push_sessions(out, link)?;
    push_messages(out, link)?;
    push_filters(out, link)?;
    push_if_known(out, "unheard", link.unheard)
}

/// Adds the neighbour of a link, and whether it is up.
fn push_neighbour(out: &mut Vec<u8>, link: &LinkStatus) -> Result<(), AllocError>
    ensures ok { OnOk result (out.new.items ≡ out.old.items ++ spec.neighbour_text (link_view link.now)) }
    ensures err { OnErr result (StartsWith out.new.items out.old.items) }
{
    out.extend_from_slice(b" | link ")?;
    push_decimal(out, u64::from(link.node))?;
    push_state(out, link.state)
}

/// Adds what is told of a link.
fn push_link(out: &mut Vec<u8>, link: &LinkStatus) -> Result<(), AllocError>
    ensures ok { OnOk result (out.new.items ≡ out.old.items ++ spec.link_text (link_view link.now)) }
    ensures err { OnErr result (StartsWith out.new.items out.old.items) }
{
    push_neighbour(out, link)?;
    push_counts(out, link)?;
    push_ended(out, &link.ended)
}

/// Adds what is told of each link.
fn push_links(out: &mut Vec<u8>, links: &[LinkStatus]) -> Result<(), AllocError>
    ensures ok { OnOk result (out.new.items ≡ out.old.items ++ flat_map (λ link. spec.link_text (link_view link)) links.now) }
    ensures err { OnErr result (StartsWith out.new.items out.old.items) }
{
    for link in links {
        push_link(out, link)?;
    }
    Ok(())
}

/// Adds which node of its domain the router is, and for how long it runs.
fn push_node(out: &mut Vec<u8>, status: &Status) -> Result<(), AllocError>
    ensures ok { OnOk result (out.new.items ≡ out.old.items ++ spec.node_text (status_view status.now)) }
    ensures err { OnErr result (StartsWith out.new.items out.old.items) }
{
    push_number(out, "node", u64::from(status.node))?;
    push_number(out, "size", u64::from(status.size))?;
    push_number(out, "up", status.up)
}

/// Adds how much of its history is saved, if it is.
fn push_saved(out: &mut Vec<u8>, status: &Status) -> Result<(), AllocError>
    ensures ok { OnOk result (out.new.items ≡ out.old.items ++ spec.saved_text (status_view status.now)) }
    ensures err { OnErr result (StartsWith out.new.items out.old.items) }
{
    push_if_known(out, "saved", status.saved)?;
    push_if_known(out, "segments", status.segments)?;
    push_if_known(out, "bytes", status.bytes)
}

/// Adds how long its history is.
fn push_history(out: &mut Vec<u8>, status: &Status) -> Result<(), AllocError>
    ensures ok { OnOk result (out.new.items ≡ out.old.items ++ spec.history_text (status_view status.now)) }
    ensures err { OnErr result (StartsWith out.new.items out.old.items) }
{
    push_number(out, "entries", status.entries)?;
    push_number(out, "forgotten", status.forgotten)?;
    push_number(out, "room", u64::from(status.room))?;
    push_saved(out, status)
}

/// Adds the digest of its domain, if a file set it up.
fn push_domain(out: &mut Vec<u8>, domain: &Option<String>) -> Result<(), AllocError>
    ensures ok { OnOk result (out.new.items ≡ out.old.items ++ spec.domain_text (spec.text_of domain.now)) }
    ensures err { OnErr result (StartsWith out.new.items out.old.items) }
{
    match domain {
        Some(digits) => {
            out.extend_from_slice(b" domain ")?;
            out.extend_from_slice(digits.as_bytes())
        }
        None => Ok(()),
    }
}

/// Adds the version of the program.
fn push_version(out: &mut Vec<u8>, version: &str) -> Result<(), AllocError>
    ensures ok { OnOk result (out.new.items ≡ out.old.items ++ spec.version_text version.now) }
    ensures err { OnErr result (StartsWith out.new.items out.old.items) }
{
    out.extend_from_slice(b" version ")?;
    out.extend_from_slice(version.as_bytes())
}

/// Adds the file by which it was set up, and the version of the program.
fn push_origin(out: &mut Vec<u8>, status: &Status) -> Result<(), AllocError>
    ensures ok { OnOk result (out.new.items ≡ out.old.items ++ spec.origin_text (status_view status.now)) }
    ensures err { OnErr result (StartsWith out.new.items out.old.items) }
{
    push_domain(out, &status.domain)?;
    push_version(out, status.version)
}

/// Adds what is told of the router itself.
fn push_router(out: &mut Vec<u8>, status: &Status) -> Result<(), AllocError>
    ensures ok { OnOk result (out.new.items ≡ out.old.items ++ spec.router_text (status_view status.now)) }
    ensures err { OnErr result (StartsWith out.new.items out.old.items) }
{
    out.extend_from_slice(b"status")?;
    push_node(out, status)?;
    push_history(out, status)?;
    push_origin(out, status)
}

/// Adds the line that tells what a router is about.
pub fn push_status(out: &mut Vec<u8>, status: &Status) -> Result<(), AllocError>
    ensures ok { OnOk result (out.new.items ≡ out.old.items ++ spec.status_line (status_view status.now)) }
    ensures err { OnErr result (StartsWith out.new.items out.old.items) }
{
    push_router(out, status)?;
    push_links(out, status.links.as_slice())?;
    out.push(b'\n')?;
    Ok(())
}
