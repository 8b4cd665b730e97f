//! What a script answers to a command that looks at its router.
//!
//! **A look is no event** (`routes`, `neighbours`, `told`, `history`), so it can be made of a full history and changes no replay. Before the first
//! event it is made of a journal that is opened for it and dropped, so that prefixes can still be set.
//!
//! **`told` of a node that is not up is O2**, with the line's number: N codes name a place in the history, where a look has none.
//!
//! **`told` names all nodes**, since the tables do not keep which of them a neighbour told: a node of which it told nothing has distance N.
//!
//! **O10 names the first position that can be shown**, and not the line, as the other O codes do: without it nobody would know where to ask from.
//!
//! **FROM has 64 bits in scripts too**, whose histories are shorter: one command has one range.
ghost use Rattle.std.specs.Prelude.{◌≡◌, ◌++◌, ◌<◌, ◌≤◌, ◌-◌, ◌^◌, true, IfOk, OnOk, OnErr, drop, length, map, take};
ghost use Rattle.std.specs.Io.{StartsWith};
ghost use Rattle.history_lines.specs.Views.{entry_view};
ghost use Rattle.operator_cmds.specs.Looks as spec;
ghost use Rattle.operator_cmds.specs.Replies.{Adds, answered};

use crate::HISTORY_COUNT;
use crate::command::Look;
use crate::fault::CommandFault;
use crate::reply::{push_pair, refuse};
use history_lines::push_entry;
use line_protocol::{LineReply, push_decimal};
use netchange_core::{BestRoute, Tables, Via};
use route_history::{Entries, Journal};
use std::alloc::{AllocError, Global};

/// Adds a route to a node.
fn push_route(out: &mut Vec<u8>, node: u16, route: BestRoute) -> Result<(), AllocError>
    ensures ok { OnOk result (out.new.items ≡ out.old.items ++ spec.route_text node route) }
    ensures err { OnErr result (StartsWith out.new.items out.old.items) }
{
    push_pair(out, node, u32::from(route.dist))?;
    match route.via {
        Via::Node(hop) => {
            out.push(b':')?;
            push_decimal(out, u64::from(hop))
        }
        Via::Local | Via::Nowhere => Ok(()),
    }
}

/// Adds a node with its present session, if it has one.
fn push_session(out: &mut Vec<u8>, node: u16, session: Option<u32>) -> Result<(), AllocError>
    ensures ok { OnOk result (out.new.items ≡ out.old.items ++ spec.session_text node session) }
    ensures err { OnErr result (StartsWith out.new.items out.old.items) }
{
    match session {
        Some(session) => push_pair(out, node, session),
        None => Ok(()),
    }
}

/// Adds the distance to a node that a neighbour advertised, and what its import filter made of it where that is another.
fn push_told(out: &mut Vec<u8>, node: u16, advertised: u16, filtered: u16) -> Result<(), AllocError>
    ensures ok { OnOk result (out.new.items ≡ out.old.items ++ spec.told_text node advertised filtered) }
    ensures err { OnErr result (StartsWith out.new.items out.old.items) }
{
    push_pair(out, node, u32::from(advertised))?;
    if advertised == filtered {
        return Ok(());
    }
    out.push(b'>')?;
    push_decimal(out, u64::from(filtered))
}

/// Adds what a look tells of a node.
fn push_node(out: &mut Vec<u8>, tables: &Tables, look: Look, node: u16) -> Result<(), AllocError>
    requires node { node < tables.now.opening.size }
    requires known { spec.IsLook tables.now.opening.size look }
    ensures ok { OnOk result (out.new.items ≡ out.old.items ++ spec.node_text tables.now look node) }
    ensures err { OnErr result (StartsWith out.new.items out.old.items) }
{
    match look {
        Look::Routes => push_route(out, node, tables.route(node)),
        Look::Neighbours => push_session(out, node, tables.present_session(node)),
        Look::Told(from) => push_told(
            out,
            node,
            tables.advertised(from, node),
            tables.neighbour_distance(from, node),
        ),
    }
}

/// Adds what a look tells of each node, in order.
#[tactic(auto, unfolding(crate::specs::Looks::texts_below))]
fn push_nodes(out: &mut Vec<u8>, tables: &Tables, look: Look) -> Result<(), AllocError>
    requires { spec.IsLook tables.now.opening.size look }
    ensures ok { OnOk result (out.new.items ≡ out.old.items ++ spec.nodes_text tables.now look) }
    ensures err { OnErr result (StartsWith out.new.items out.old.items) }
{
    for node in 0..tables.opening().size() {
        push_node(out, tables, look, node)?;
    }
    Ok(())
}

/// The first word of the answer to a look.
fn look_word(look: Look) -> &'static str
    ensures { result.now ≡ spec.look_word look }
{
    match look {
        Look::Routes => "routes",
        Look::Neighbours => "neighbours",
        Look::Told(_) => "told",
    }
}

/// Whether a look can be answered: only an up neighbour has told something.
fn can_look(tables: &Tables, look: Look) -> bool
    ensures value { result ≡ spec.can_look tables.now look }
    ensures known { result ≡ true → spec.IsLook tables.now.opening.size look }
{
    match look {
        Look::Routes | Look::Neighbours => true,
        Look::Told(from) => tables.present_session(from).is_some(),
    }
}

/// Answers the line of this number, which looks at the tables.
pub fn answer_look(
    out: &mut Vec<u8>,
    tables: &Tables,
    number: u32,
    look: Look,
) -> Result<LineReply, AllocError>
    ensures ok { IfOk result (Adds (spec.looked tables.now number look) out.old.items out.new.items) }
    ensures err { OnErr result (StartsWith out.new.items out.old.items) }
{
    if !can_look(tables, look) {
        return refuse(out, CommandFault::Numbers.code(), u64::from(number));
    }
    out.extend_from_slice(look_word(look).as_bytes())?;
    push_nodes(out, tables, look)?;
    out.push(b'\n')?;
    Ok(LineReply::Answered)
}

/// Adds what stands before an entry, where so many were told before it.
pub(crate) fn push_bar(out: &mut Vec<u8>, told: usize) -> Result<(), AllocError>
    ensures ok { OnOk result (out.new.items ≡ out.old.items ++ spec.bar_before told) }
    ensures err { OnErr result (StartsWith out.new.items out.old.items) }
{
    if told == 0 {
        Ok(out.push(b' ')?)
    } else {
        out.extend_from_slice(b" | ")
    }
}

/// How many entries are told at once, from a position on.
fn count_told(entries: &Entries, from: u64) -> usize
    ensures value { take result (drop from entries.now) ≡ spec.told_entries entries.now from }
    ensures within { result ≤ length entries.now - from }
{
    HISTORY_COUNT.min(entries.len().saturating_sub(from as usize))
}

/// Adds so many entries, from a position on.
fn push_entries(
    alloc: Global,
    out: &mut Vec<u8>,
    from: u64,
    entries: &Entries,
    count: usize,
) -> Result<(), AllocError>
    requires within { count ≤ length entries.now - from }
    requires numbered { length entries.now ≤ 2 ^ 32 }
    ensures ok { OnOk result (out.new.items ≡
        out.old.items ++ spec.entries_text from 0 (map entry_view (take count (drop from entries.now)))) }
    ensures err { OnErr result (StartsWith out.new.items out.old.items) }
{
    for told in 0..count {
        push_bar(out, told)?;
        let at = from + told as u64;
        push_entry(alloc, out, at, entries.entry(at as usize))?;
    }
    Ok(())
}

/// Answers a line that looks at the history from a position on.
pub fn answer_history(
    alloc: Global,
    out: &mut Vec<u8>,
    journal: &Journal,
    from: u64,
) -> Result<LineReply, AllocError>
    ensures ok { IfOk result (Adds (answered (spec.history_text journal.now.entries from)) out.old.items out.new.items) }
    ensures err { OnErr result (StartsWith out.new.items out.old.items) }
{
    // For the proof alone, which needs what its contract says.
    let _limit = journal.limit();
    answer_entries(alloc, out, journal.entries(), from)
}

/// The same of the entries of its journal.
fn answer_entries(
    alloc: Global,
    out: &mut Vec<u8>,
    entries: &Entries,
    from: u64,
) -> Result<LineReply, AllocError>
    requires numbered { length entries.now ≤ 2 ^ 32 }
    ensures ok { IfOk result (Adds (answered (spec.history_text entries.now from)) out.old.items out.new.items) }
    ensures err { OnErr result (StartsWith out.new.items out.old.items) }
{
    let count = count_told(entries, from);
    out.extend_from_slice(b"history")?;
    push_entries(alloc, out, from, entries, count)?;
    out.push(b'\n')?;
    Ok(LineReply::Answered)
}
