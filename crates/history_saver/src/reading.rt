//! What is not saved of a journal is read.
ghost use Rattle.std.specs.Prelude.{◌≡◌, ◌+◌, ◌≤◌, IfOk, length};
ghost use Rattle.route_history.specs.Long.{OfHistory};
ghost use Rattle.history_saver.specs.Adding as spec;

use history_lines::write_entry;
use route_history::LongJournal;
use std::alloc::{AllocError, Global};

/// The most entries that are read while callers of the router wait.
pub const MOST_AT_ONCE: usize = 256;

/// Adds the lines of the next entries, of which so many are saved: how many are then.
pub(crate) fn push_entries(
    alloc: Global,
    out: &mut Vec<u8>,
    journal: &LongJournal,
    saved: u64,
) -> Result<u64, AllocError>
    requires none_missed { journal.now.first ≤ saved }
    ensures count { IfOk result (λ to. to ≡ spec.next_count saved (journal.now.first + length journal.now.entries)) }
    ensures added { IfOk result (λ to. OfHistory journal.now (λ h. spec.AddsEntries out.old.items h.entries saved to out.new.items)) }
{
    let first = journal.first();
    // No history has more entries than a position can tell.
    let Some(all) = first.checked_add(u64::from(journal.kept())) else {
        return Err(AllocError);
    };
    let end = all.min(saved.saturating_add(MOST_AT_ONCE as u64));
    for at in saved..end {
        write_entry(alloc, out, at, journal.entry((at - first) as usize))?;
    }
    Ok(saved.max(end))
}
