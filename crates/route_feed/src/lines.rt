//! The lines of a feed.

ghost use Rattle.std.specs.Prelude.{◌≡◌, ◌<◌, ◌++◌, IfOk, None, OnOk, Some, length};
ghost use Rattle.prefix_patterns.specs.Spelling.{prefix_text};
ghost use Rattle.route_feed.specs.Changes as changes;
ghost use Rattle.route_feed.specs.Lines as spec;
ghost use Rattle.route_feed.specs.Table.{hop_at, prefix_at};

use crate::hop::Hop;
use line_protocol::push_decimal;
use prefix_patterns::Prefix;
use std::alloc::{AllocError, Global};

/// Whether packets go the same way.
pub(crate) fn is_same(one: Option<Hop>, two: Option<Hop>) -> bool
    ensures { result ≡ changes.is_same one two }
{
    match (one, two) {
        (None, None) => true,
        (Some(one), Some(two)) => one.node == two.node && one.dist == two.dist,
        _ => false,
    }
}

/// Whether a node is the least that has its prefix.
fn is_first(prefixes: &[Prefix], node: usize) -> bool
    requires { node < length prefixes.now }
    ensures { result ≡ changes.is_first (prefix_at prefixes.now) node }
{
    let prefix = prefixes[node];
    let mut is_had = false;
    for v in 0..node {
        if prefixes[v] == prefix {
            is_had = true;
        }
    }
    !is_had
}

/// Adds a prefix.
fn push_prefix(alloc: Global, out: &mut Vec<u8>, prefix: Prefix) -> Result<(), AllocError>
    ensures { OnOk result (out.new.items ≡ out.old.items ++ prefix_text prefix) }
{
    let text = format!(in alloc; "{prefix}")?;
    out.extend_from_slice(text.as_bytes())
}

/// Adds the line that packets for a prefix go there.
fn push_route(alloc: Global, out: &mut Vec<u8>, prefix: Prefix, hop: Hop) -> Result<(), AllocError>
    ensures { OnOk result (out.new.items ≡ out.old.items ++ spec.line_text prefix (Some hop)) }
{
    out.extend_from_slice(b"route ")?;
    push_prefix(alloc, out, prefix)?;
    out.extend_from_slice(b" via ")?;
    push_decimal(out, u64::from(hop.node))?;
    out.extend_from_slice(b" metric ")?;
    push_decimal(out, u64::from(hop.dist))?;
    out.push(b'\n')?;
    Ok(())
}

/// Adds the line that packets for a prefix go nowhere any more.
fn push_unreachable(alloc: Global, out: &mut Vec<u8>, prefix: Prefix) -> Result<(), AllocError>
    ensures { OnOk result (out.new.items ≡ out.old.items ++ spec.line_text prefix None) }
{
    out.extend_from_slice(b"unreachable ")?;
    push_prefix(alloc, out, prefix)?;
    out.push(b'\n')?;
    Ok(())
}

/// Adds the line for a node: one, if it is the least of its prefix, and packets for that go another way than they went.
fn push_change(
    alloc: Global,
    out: &mut Vec<u8>,
    prefixes: &[Prefix],
    node: usize,
    old: Option<Hop>,
    new: Option<Hop>,
) -> Result<(), AllocError>
    requires { node < length prefixes.now }
    ensures { OnOk result (out.new.items ≡ out.old.items ++ spec.changes_text (changes.change_of (prefix_at prefixes.now) node old new)) }
{
    if is_same(old, new) || !is_first(prefixes, node) {
        return Ok(());
    }
    match new {
        Some(hop) => push_route(alloc, out, prefixes[node], hop),
        None => push_unreachable(alloc, out, prefixes[node]),
    }
}

/// Adds the lines for all nodes.
fn push_changes(
    alloc: Global,
    out: &mut Vec<u8>,
    prefixes: &[Prefix],
    old: &[Option<Hop>],
    new: &[Option<Hop>],
) -> Result<(), AllocError>
    requires old { length old.now ≡ length prefixes.now }
    requires new { length new.now ≡ length prefixes.now }
    ensures { OnOk result (out.new.items ≡ out.old.items
        ++ spec.changes_text (changes.changes_below (prefix_at prefixes.now) (hop_at old.now) (hop_at new.now) (length prefixes.now))) }
{
    for v in 0..prefixes.len() {
        push_change(alloc, out, prefixes, v, old[v], new[v])?;
    }
    Ok(())
}

/// Adds the line that a block begins with.
fn push_begin(out: &mut Vec<u8>, at: u64, is_whole: bool) -> Result<(), AllocError>
    ensures { OnOk result (out.new.items ≡ out.old.items ++ spec.begin_text at is_whole) }
{
    out.extend_from_slice(b"begin ")?;
    push_decimal(out, at)?;
    if is_whole {
        out.extend_from_slice(b" whole\n")
    } else {
        out.extend_from_slice(b"\n")
    }
}

/// Adds the line that it ends with.
fn push_end(out: &mut Vec<u8>, at: u64) -> Result<(), AllocError>
    ensures { OnOk result (out.new.items ≡ out.old.items ++ spec.end_text at) }
{
    out.extend_from_slice(b"end ")?;
    push_decimal(out, at)?;
    out.push(b'\n')?;
    Ok(())
}

/// The text of a block: what is another way than it was, after so many entries.
pub(crate) fn block_of(
    alloc: Global,
    prefixes: &[Prefix],
    old: &[Option<Hop>],
    new: &[Option<Hop>],
    at: u64,
    is_whole: bool,
) -> Result<Vec<u8>, AllocError>
    requires old { length old.now ≡ length prefixes.now }
    requires new { length new.now ≡ length prefixes.now }
    ensures { IfOk result (λ text. text.items ≡ spec.block_text (record {
      at = at;
      is_whole = is_whole;
      changes = changes.changes_below (prefix_at prefixes.now) (hop_at old.now) (hop_at new.now) (length prefixes.now);
    })) }
{
    let mut out = Vec::new(alloc);
    push_begin(&mut out, at, is_whole)?;
    push_changes(alloc, &mut out, prefixes, old, new)?;
    push_end(&mut out, at)?;
    Ok(out)
}

/// Whether all packets go the same way.
pub(crate) fn are_same(old: &[Option<Hop>], new: &[Option<Hop>]) -> bool
    requires { length old.now ≡ length new.now }
    ensures { result ≡ changes.are_same_below (hop_at old.now) (hop_at new.now) (length new.now) }
{
    let mut are_same = true;
    for v in 0..new.len() {
        if !is_same(old[v], new[v]) {
            are_same = false;
        }
    }
    are_same
}
