//! What a replay says of the text of a history.
ghost use Rattle.std.specs.Prelude.{◌≡◌, ◌++◌, IfOk, OnErr, OnOk};
ghost use Rattle.std.specs.Io.{StartsWith};
ghost use Rattle.route_history.specs.History.{IsFirstWrong, IsLegal};
ghost use Rattle.history_file.specs.Replays as spec;

use crate::fault::HistoryFault;
use crate::history::{SavedHistory, read_history};
use history_lines::push_reply;
use line_protocol::{push_decimal, push_refusal};
use netchange_core::Reply;
use route_history::{ReplayFault, replay_list};
use std::alloc::{AllocError, Global};

/// What a replay says of the text of a history.
#[derive(Drop)]
pub enum ReplayVerdict {
    /// All entries are right: so many.
    Replays(u64),
    /// The recorded reply of an entry differs from the replayed one. It is the first such entry.
    Differs {
        /// The entry's position, counted from 0.
        at: u64,
        /// The reply that was saved.
        saved: Reply,
        /// The reply of the tables.
        right: Reply,
    },
    /// The line of this number, counted from 1, was not written to its end. All entries before it are right.
    Cut(u64),
    /// H1: the line of this number, counted from 1, is the first that is not as a history has it.
    Wrong(u64),
}

impl ReplayVerdict {
    ghost use Rattle.history_file.specs.Replays.{is_right};

    /// Whether the text is that of a right history, to its end.
    pub fn is_right(&self) -> bool
        ensures { result ≡ is_right self.now }
    {
        matches!(self, ReplayVerdict::Replays(_))
    }
}

/// Replays the text of a history.
pub fn judge(alloc: Global, bytes: &[u8]) -> Result<ReplayVerdict, AllocError>
    ensures { IfOk result (spec.IsVerdict bytes.now) }
{
    match read_history(alloc, bytes) {
        Ok(saved) => judge_saved(alloc, saved),
        Err(HistoryFault::Line(line)) => Ok(ReplayVerdict::Wrong(u64::from(line))),
        Err(HistoryFault::Unopened) => Ok(ReplayVerdict::Cut(1)),
        Err(HistoryFault::Memory) => Err(AllocError),
    }
}

/// Replays a history that was read.
fn judge_saved(alloc: Global, saved: SavedHistory) -> Result<ReplayVerdict, AllocError>
    ensures { IfOk result (spec.IsVerdictOn saved) }
{
    match replay_list(alloc, &saved.opening, saved.entries.as_slice()) {
        Ok(_) => Ok(judge_right(&saved)),
        Err(ReplayFault::Differs(at)) => tell_difference(alloc, saved, at),
        Err(ReplayFault::Memory) => Err(AllocError),
    }
}

/// The verdict on a history whose entries are right.
fn judge_right(saved: &SavedHistory) -> ReplayVerdict
    requires { IsLegal saved.now.opening saved.now.entries.items }
    ensures { spec.IsVerdictOn saved.now result }
{
    let entries = saved.entries.len() as u64;
    if saved.unfinished == 0 {
        ReplayVerdict::Replays(entries)
    } else {
        ReplayVerdict::Cut(entries + 2)
    }
}

/// The verdict on a history whose entry at this index is the first wrong one.
fn tell_difference(
    alloc: Global,
    saved: SavedHistory,
    at: usize,
) -> Result<ReplayVerdict, AllocError>
    requires { IsFirstWrong saved.opening saved.entries.items at }
    ensures { IfOk result (spec.IsVerdictOn saved) }
{
    let mut entries = saved.entries;
    let Ok(mut tables) = replay_list(alloc, &saved.opening, &entries[..at]) else {
        return Err(AllocError);
    };
    let entry = entries.remove(at);
    let right = tables.apply(&entry.event)?;
    Ok(ReplayVerdict::Differs {
        at: at as u64,
        saved: entry.reply,
        right,
    })
}

/// Adds the line of a verdict.
pub fn push_verdict(out: &mut Vec<u8>, verdict: &ReplayVerdict) -> Result<(), AllocError>
    ensures ok { OnOk result (out.new.items ≡ out.old.items ++ spec.verdict_line verdict.now) }
    ensures err { OnErr result (StartsWith out.new.items out.old.items) }
{
    match verdict {
        ReplayVerdict::Replays(entries) => {
            out.extend_from_slice(b"replay ok ")?;
            push_decimal(out, *entries)?;
        }
        ReplayVerdict::Differs { at, saved, right } => {
            out.extend_from_slice(b"differs ")?;
            push_decimal(out, *at)?;
            out.extend_from_slice(b" saved")?;
            push_reply(out, saved.as_ref())?;
            out.extend_from_slice(b" right")?;
            push_reply(out, right.as_ref())?;
        }
        ReplayVerdict::Cut(line) => {
            out.extend_from_slice(b"cut ")?;
            push_decimal(out, *line)?;
        }
        ReplayVerdict::Wrong(line) => return push_refusal(out, "H1", *line),
    }
    Ok(out.push(b'\n')?)
}
