//! The state that a segment begins in is written.
ghost use Rattle.std.specs.Prelude.{◌≡◌, ◌++◌, ◌∷◌, [], ◌<◌, ◌≤◌, ◌^◌, OnErr, OnOk, decimal, length, map};
ghost use Rattle.std.specs.Io.{StartsWith};
ghost use Rattle.netchange_core.specs.Kept.{view_of};
ghost use Rattle.history_lines.specs.Fits.{FitsOpening};
ghost use Rattle.route_history.specs.Limits.{largest_limit};
ghost use Rattle.history_lines.specs.Keywords.{keyword_text};
ghost use Rattle.history_file.specs.Numbering.{row_line, rows_text, texts_of};
ghost use Rattle.history_file.specs.Segments as spec;
ghost use Rattle.history_lines.specs.Text.{message_word, spaced};

use crate::numbering::{Uses, number_filters};
use history_lines::{
    HistoryKeyword, push_keyword, push_messages, push_number, push_opening_words, push_word,
};
use line_protocol::push_decimal;
use netchange_core::{Message, Neighbour, Opening, Tables};
use std::alloc::{AllocError, Global};
use std::collections::VecDeque;

/// The first word of a segment's text.
const SEGMENT_MARK: &str = "NCH2";

/// Adds the line of a segment's opening and of the router's room, without a line feed.
pub(crate) fn push_mark(
    alloc: Global,
    out: &mut Vec<u8>,
    opening: &Opening,
    room: u32,
) -> Result<(), AllocError>
    requires { (1 ≤ room) × (room ≤ largest_limit) }
    ensures ok { OnOk result (out.new.items ≡ out.old.items ++ spec.mark_line opening.now room) }
    ensures fits { OnOk result (FitsOpening opening.now room) }
    ensures err { OnErr result (StartsWith out.new.items out.old.items) }
{
    out.extend_from_slice(SEGMENT_MARK.as_bytes())?;
    push_opening_words(alloc, out, opening, room)
}

/// Adds the line of a segment's place, without a line feed.
pub(crate) fn push_place(out: &mut Vec<u8>, at: u64, sessions: u32) -> Result<(), AllocError>
    ensures ok { OnOk result (out.new.items ≡ out.old.items ++ spec.place_line at sessions) }
    ensures err { OnErr result (StartsWith out.new.items out.old.items) }
{
    out.extend_from_slice(b"at")?;
    push_number(out, at)?;
    push_word(out, b"sessions")?;
    push_number(out, u64::from(sessions))
}

/// Adds the line of a filter, by its number and its words, without a line feed.
pub(crate) fn push_row(out: &mut Vec<u8>, number: usize, row: &[u8]) -> Result<(), AllocError>
    ensures ok { OnOk result (out.new.items ≡ out.old.items ++ row_line number row.now) }
    ensures err { OnErr result (StartsWith out.new.items out.old.items) }
{
    out.extend_from_slice(b"filter")?;
    push_number(out, number as u64)?;
    out.extend_from_slice(row)
}

/// Adds the lines of all filters.
fn push_rows(out: &mut Vec<u8>, rows: &[Vec<u8>]) -> Result<(), AllocError>
    ensures ok { OnOk result (out.new.items ≡ out.old.items ++ rows_text 0 (texts_of rows.now)) }
    ensures few { length rows.now < 2 ^ 64 }
    ensures err { OnErr result (StartsWith out.new.items out.old.items) }
{
    for number in 0..rows.len() {
        push_row(out, number, &rows[number])?;
        out.push(b'\n')?;
    }
    Ok(())
}

/// Adds the words of the number of a filter, if there is one.
fn push_use(
    out: &mut Vec<u8>,
    keyword: HistoryKeyword,
    number: Option<usize>,
) -> Result<(), AllocError>
    ensures ok { OnOk result (out.new.items ≡ out.old.items ++ spaced (spec.use_words (keyword_text keyword) number)) }
    ensures err { OnErr result (StartsWith out.new.items out.old.items) }
{
    match number {
        Some(number) => {
            push_keyword(out, keyword)?;
            push_number(out, number as u64)
        }
        None => Ok(()),
    }
}

/// Adds the words of distances, in order.
fn push_distances(out: &mut Vec<u8>, distances: &[u16]) -> Result<(), AllocError>
    ensures ok { OnOk result (out.new.items ≡ out.old.items ++ spaced (map decimal distances.now)) }
    ensures err { OnErr result (StartsWith out.new.items out.old.items) }
{
    for dist in distances {
        push_number(out, u64::from(*dist))?;
    }
    Ok(())
}

/// Adds the words that say whether a node is up, and what it advertised.
fn push_link(out: &mut Vec<u8>, session: Option<u32>, advertised: &[u16]) -> Result<(), AllocError>
    ensures ok { OnOk result (out.new.items ≡ out.old.items ++ spaced (spec.link_words session advertised.now)) }
    ensures err { OnErr result (StartsWith out.new.items out.old.items) }
{
    match session {
        Some(session) => {
            push_keyword(out, HistoryKeyword::Up)?;
            push_number(out, u64::from(session))?;
            push_distances(out, advertised)
        }
        None => push_keyword(out, HistoryKeyword::Down),
    }
}

/// Adds the line of a node, without a line feed.
pub(crate) fn push_node_line(
    out: &mut Vec<u8>,
    node: u16,
    uses: Uses,
    neighbour: &Neighbour,
) -> Result<(), AllocError>
    ensures ok { OnOk result (out.new.items ≡ out.old.items ++ spec.node_line node uses (view_of neighbour.now)) }
    ensures err { OnErr result (StartsWith out.new.items out.old.items) }
{
    out.extend_from_slice(b"node")?;
    push_number(out, u64::from(node))?;
    push_use(out, HistoryKeyword::Import, uses.imports)?;
    push_use(out, HistoryKeyword::Export, uses.exports)?;
    push_link(out, neighbour.session, &neighbour.advertised)
}

/// Adds the line of the messages that wait, without a line feed.
pub(crate) fn push_queue(out: &mut Vec<u8>, queue: &VecDeque<Message>) -> Result<(), AllocError>
    ensures ok { OnOk result (out.new.items ≡ out.old.items ++ spec.queue_line queue.now.items) }
    ensures err { OnErr result (StartsWith out.new.items out.old.items) }
{
    let (first, second) = queue.as_slices();
    out.extend_from_slice(b"queue")?;
    push_messages(out, first)?;
    push_messages(out, second)
}

/// Adds the line of the messages that wait for an up node, if there are any.
fn push_waiting(
    out: &mut Vec<u8>,
    session: Option<u32>,
    queue: &VecDeque<Message>,
) -> Result<(), AllocError>
    ensures ok { OnOk result (out.new.items ≡ out.old.items ++ spec.queue_text session queue.now.items) }
    ensures err { OnErr result (StartsWith out.new.items out.old.items) }
{
    if session.is_none() || queue.is_empty() {
        return Ok(());
    }
    push_queue(out, queue)?;
    Ok(out.push(b'\n')?)
}

/// Adds all lines of a node.
fn push_node(
    out: &mut Vec<u8>,
    node: u16,
    uses: Uses,
    neighbour: &Neighbour,
) -> Result<(), AllocError>
    ensures ok { OnOk result (out.new.items ≡ out.old.items ++ spec.node_text node uses (view_of neighbour.now)) }
    ensures err { OnErr result (StartsWith out.new.items out.old.items) }
{
    push_node_line(out, node, uses, neighbour)?;
    out.push(b'\n')?;
    push_waiting(out, neighbour.session, &neighbour.queue)
}

/// Adds the lines of all nodes.
fn push_nodes(out: &mut Vec<u8>, tables: &Tables, uses: &[Uses]) -> Result<(), AllocError>
    requires { length uses.now ≡ tables.now.opening.size }
    ensures ok { OnOk result (out.new.items ≡ out.old.items ++ spec.nodes_text 0 uses.now tables.now.neighbours) }
    ensures err { OnErr result (StartsWith out.new.items out.old.items) }
{
    for node in 0..tables.opening().size() {
        push_node(out, node, uses[usize::from(node)], tables.neighbour(node))?;
    }
    Ok(())
}

/// Adds the state of tables at a position of their history, from the first line of a segment to the line that ends the state. `room` is how
/// many entries the router keeps in memory.
///
/// Each filter in force is written once.
pub fn write_state(
    alloc: Global,
    out: &mut Vec<u8>,
    room: u32,
    at: u64,
    tables: &Tables,
) -> Result<(), AllocError>
    requires { (1 ≤ room) × (room ≤ largest_limit) }
    ensures ok { OnOk result (spec.AddsState room at tables.now out.old.items out.new.items) }
    ensures err { OnErr result (StartsWith out.new.items out.old.items) }
{
    let numbered = number_filters(alloc, tables)?;
    push_mark(alloc, out, tables.opening(), room)?;
    out.push(b'\n')?;
    push_place(out, at, tables.sessions())?;
    out.push(b'\n')?;
    push_rows(out, &numbered.rows)?;
    push_nodes(out, tables, &numbered.uses)?;
    Ok(out.extend_from_slice(b".\n")?)
}
