//! The text of a whole history is read.
ghost use Rattle.std.specs.Prelude.{◌≡◌, ◌≤◌, IfOk, IfErr, MatchResult, map};
ghost use Rattle.history_file.specs.Files as spec;
ghost use Rattle.history_lines.specs.Fits.{FitsEntry, FitsOpening};
ghost use Rattle.route_history.specs.Limits.{largest_limit};
ghost use Rattle.history_lines.specs.Text.{entry_line, opening_line};
ghost use Rattle.history_lines.specs.Views.{entry_view};

use crate::fault::{HistoryFault, HistoryLineFault};
use crate::reading::{entry_in, opening_parts};
use history_lines::{push_entry, push_opening};
use netchange_core::Opening;
use prefix_patterns::cut_at;
use route_history::Entry;
use std::alloc::Global;

/// A history as a file tells it. Whether its replies are right is not known: `replay` tells.
#[derive(Drop)]
pub struct SavedHistory {
    /// What the router was opened with.
    pub opening: Opening,
    /// The most entries that the history takes.
    pub limit: u32,
    /// The entries, in order.
    pub entries: Vec<Entry>,
    /// How many bytes follow the last whole line: the front of a line that was not written to its end.
    pub unfinished: usize,
}

/// The opening and the limit that a line tells.
fn read_opening(alloc: Global, line: &[u8]) -> Result<(Opening, u32), HistoryLineFault>
    ensures { MatchResult result
        (λ r. FitsOpening r.0 r.1 × (line.now ≡ opening_line r.0 r.1))
        (λ fault. fault ≡ HistoryLineFault.Form → spec.IsNoOpening line.now) }
{
    let parts = match opening_parts(alloc, line) {
        Ok(parts) => parts,
        Err(fault) => return Err(fault),
    };
    let limit = parts.limit;
    let Some(opening) = Opening::new(parts.size, parts.me, parts.prefixes) else {
        return Err(HistoryLineFault::Form);
    };
    if limit == 0 {
        return Err(HistoryLineFault::Form);
    }
    let mut again = Vec::with_capacity(alloc, line.len())?;
    push_opening(alloc, &mut again, &opening, limit)?;
    if again.as_slice() != line {
        return Err(HistoryLineFault::Form);
    }
    Ok((opening, limit))
}

/// The entry that a line tells at a position.
pub(crate) fn read_entry(alloc: Global, at: u64, line: &[u8]) -> Result<Entry, HistoryLineFault>
    ensures { MatchResult result
        (λ e. FitsEntry (entry_view e) × (line.now ≡ entry_line at (entry_view e)))
        (λ fault. fault ≡ HistoryLineFault.Form → spec.IsNoEntry at line.now) }
{
    let entry = match entry_in(alloc, line) {
        Ok(entry) => entry,
        Err(fault) => return Err(fault),
    };
    let mut again = Vec::with_capacity(alloc, line.len())?;
    push_entry(alloc, &mut again, at, entry.as_ref())?;
    if again.as_slice() != line {
        return Err(HistoryLineFault::Form);
    }
    Ok(entry)
}

/// Reads the text of a history, up to its last whole line.
///
/// Otherwise the first line that is not as a history has it, or that no line is whole, or that memory was refused, which may come
/// before a fault is found. `one_history` says that bytes tell no other history, and that none of them has a fault.
pub fn read_history(alloc: Global, bytes: &[u8]) -> Result<SavedHistory, HistoryFault>
    // What is read is the history that the bytes tell.
    ensures found { IfOk result (λ s. spec.IsRead bytes.now (spec.history_view s) s.unfinished) }
    // The line that is named is the first wrong one.
    ensures refused { IfErr result (spec.IsFaultOf bytes.now) }
{
    let Some((first, rest)) = cut_at(bytes, b'\n') else {
        return Err(HistoryFault::Unopened);
    };
    match read_opening(alloc, first) {
        Ok((opening, limit)) => read_rest(alloc, opening, limit, rest),
        Err(HistoryLineFault::Form) => Err(HistoryFault::Line(1)),
        Err(HistoryLineFault::Memory) => Err(HistoryFault::Memory),
    }
}

/// The history with this opening, whose entries the lines after the first tell.
fn read_rest(
    alloc: Global,
    opening: Opening,
    limit: u32,
    bytes: &[u8],
) -> Result<SavedHistory, HistoryFault>
    requires { limit ≤ largest_limit }
    ensures { MatchResult result (λ s. spec.IsRest bytes.now opening limit s) (spec.IsEntriesFault bytes.now limit) }
{
    match read_entries(alloc, bytes, limit) {
        Ok((entries, unfinished)) => Ok(SavedHistory {
            opening,
            limit,
            entries,
            unfinished,
        }),
        Err(fault) => Err(fault),
    }
}

/// The entries that the lines after the first tell, at most so many, and how many bytes follow the last whole line.
fn read_entries(
    alloc: Global,
    bytes: &[u8],
    limit: u32,
) -> Result<(Vec<Entry>, usize), HistoryFault>
    requires { limit ≤ largest_limit }
    ensures { MatchResult result (λ r. spec.AreRead bytes.now limit (map entry_view r.0.items) r.1)
        (spec.IsEntriesFault bytes.now limit) }
{
    let mut entries = Vec::new(alloc);
    let mut rest = bytes;
    for at in 0..limit {
        let Some((line, later)) = cut_at(rest, b'\n') else {
            return Ok((entries, rest.len()));
        };
        match read_entry(alloc, u64::from(at), line) {
            Ok(entry) => entries.push(entry)?,
            Err(HistoryLineFault::Form) => return Err(HistoryFault::Line(at + 2)),
            Err(HistoryLineFault::Memory) => return Err(HistoryFault::Memory),
        }
        rest = later;
    }
    match cut_at(rest, b'\n') {
        Some(_) => Err(HistoryFault::Line(limit + 2)),
        None => Ok((entries, rest.len())),
    }
}
