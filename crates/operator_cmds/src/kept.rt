//! What is answered to who looks at a history whose first entries may be forgotten.
ghost use Rattle.std.specs.Prelude.{◌≡◌, ◌+◌, ◌-◌, ◌++◌, ◌∷◌, [], ◌≤◌, nat_le, true, min, IfOk, OnOk, OnErr, codes, drop, length, map, take};
ghost use Rattle.std.specs.Io.{StartsWith};
ghost use Rattle.history_lines.specs.Views.{entry_view};
ghost use Rattle.route_history.specs.Long.{OfHistory};
ghost use Rattle.operator_cmds.specs.Looks as spec;
ghost use Rattle.operator_cmds.specs.Replies.{Adds, refused};

use crate::HISTORY_COUNT;
use crate::look::push_bar;
use crate::reply::refuse;
use history_lines::push_entry;
use line_protocol::LineReply;
use route_history::LongJournal;
use std::alloc::{AllocError, Global};

/// The code of a look from a position on whose entry is forgotten.
const FORGOTTEN: &str = "O10";

/// Whether nothing is forgotten from a position on.
fn is_kept(journal: &LongJournal, from: u64) -> bool
    ensures { result ≡ nat_le journal.now.first from }
{
    journal.first() <= from
}

/// Whether each position of a history fits 64 bits. No journal forgets so many entries that it would not.
fn has_positions(journal: &LongJournal) -> bool
    ensures { result ≡ true → journal.now.first + length journal.now.entries ≤ 18446744073709551615 }
{
    journal.first() <= u64::MAX - u64::from(journal.kept())
}

/// How many entries are told at once, from a position on.
fn count_kept(journal: &LongJournal, from: u64) -> usize
    requires { journal.now.first + length journal.now.entries ≤ 18446744073709551615 }
    ensures { result ≡ min 100 (journal.now.first + length journal.now.entries - from) }
{
    let end = journal.first() + u64::from(journal.kept());
    HISTORY_COUNT.min(end.saturating_sub(from) as usize)
}

/// Adds so many entries, from a position on.
fn push_kept(
    alloc: Global,
    out: &mut Vec<u8>,
    journal: &LongJournal,
    from: u64,
    count: usize,
) -> Result<(), AllocError>
    requires kept { journal.now.first ≤ from }
    requires within { count ≤ journal.now.first + length journal.now.entries - from }
    requires positions { journal.now.first + length journal.now.entries ≤ 18446744073709551615 }
    ensures ok { OnOk result (OfHistory journal.now (λ history. out.new.items ≡
        out.old.items ++ spec.entries_text from 0 (map entry_view (take count (drop from history.entries))))) }
    ensures front { StartsWith out.new.items out.old.items }
{
    let first = journal.first();
    for told in 0..count {
        push_bar(out, told)?;
        let at = from + told as u64;
        push_entry(alloc, out, at, journal.entry((at - first) as usize))?;
    }
    Ok(())
}

/// Adds the line that tells entries, from a position on.
fn push_history(
    alloc: Global,
    out: &mut Vec<u8>,
    journal: &LongJournal,
    from: u64,
) -> Result<(), AllocError>
    requires kept { journal.now.first ≤ from }
    requires positions { journal.now.first + length journal.now.entries ≤ 18446744073709551615 }
    ensures ok { OnOk result (OfHistory journal.now (λ history. out.new.items ≡
        out.old.items ++ (spec.history_text history.entries from ++ 10 ∷ []))) }
    ensures err { OnErr result (StartsWith out.new.items out.old.items) }
{
    let count = count_kept(journal, from);
    out.extend_from_slice(b"history")?;
    push_kept(alloc, out, journal, from, count)?;
    Ok(out.push(b'\n')?)
}

/// Refuses to tell what is forgotten: the first position that is not is named.
fn refuse_forgotten(out: &mut Vec<u8>, journal: &LongJournal) -> Result<LineReply, AllocError>
    ensures ok { IfOk result (Adds (refused (codes "O10") journal.now.first) out.old.items out.new.items) }
    ensures err { OnErr result (StartsWith out.new.items out.old.items) }
{
    refuse(out, FORGOTTEN, journal.first())
}

/// Answers a line that looks at a history from a position on. O10 where the entry there is forgotten, with the first position that is not.
pub fn answer_kept(
    alloc: Global,
    out: &mut Vec<u8>,
    journal: &LongJournal,
    from: u64,
) -> Result<LineReply, AllocError>
    ensures ok { IfOk result (λ reply. OfHistory journal.now (λ history.
        Adds (spec.history_looked journal.now.first history.entries from) out.old.items out.new.items reply)) }
    ensures err { OnErr result (StartsWith out.new.items out.old.items) }
{
    if !is_kept(journal, from) {
        return refuse_forgotten(out, journal);
    }
    if !has_positions(journal) {
        return Err(AllocError);
    }
    push_history(alloc, out, journal, from)?;
    Ok(LineReply::Answered)
}
