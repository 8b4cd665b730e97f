//! The events of a script's router.
//!
//! **An event of a script names session 0 where its node is not up** (`session_number`): an event has a number there, and a session's is 1 or more.
//! So the line is in the history, refused as N3. The tables have an `Option`, which says so by its type.
ghost use Rattle.std.specs.Prelude.{◌≡◌, IfOk, OnErr};
ghost use Rattle.std.specs.Io.{StartsWith};
ghost use Rattle.operator_cmds.specs.Script.{AnswersIn};
ghost use Rattle.operator_cmds.specs.Stages.{session_number};
ghost use Rattle.operator_cmds.specs.Replies.{Answers};

use crate::reply::{answer_reply, refuse};
use filter_verifier::Verified;
use line_protocol::LineReply;
use netchange_core::Event;
use route_history::{CallFault, Journal};
use std::alloc::AllocError;
use std::sync::Arc;

/// Which distances pass a filter: those that a neighbour tells, or those that it is told.
#[derive(Clone, Copy)]
pub enum Direction {
    /// `import`: those that it tells.
    Import,
    /// `export`: those that it is told.
    Export,
}

impl Direction {
    ghost use Rattle.operator_cmds.specs.Script.{setting};

    /// The event that gives a neighbour a filter in this direction.
    pub fn event(self, node: u16, filter: Arc<Verified>) -> Event
        ensures { result ≡ setting self node filter }
    {
        match self {
            Direction::Import => Event::SetImport(node, filter),
            Direction::Export => Event::SetExport(node, filter),
        }
    }
}

/// The number by which an event of a script names a node's session: 0, which no session has, where the node is no up neighbour.
#[inline(always)]
pub fn session_number(session: Option<u32>) -> u32
    ensures { result ≡ session_number session }
{
    session.unwrap_or(0)
}

/// Enters an event in the journal, and answers it. A full journal refuses it with the number of its entries.
#[inline(always)]
pub fn enter(
    journal: &mut Journal,
    event: Event,
    out: &mut Vec<u8>,
) -> Result<LineReply, AllocError>
    ensures ok { IfOk result (Answers (λ answer. AnswersIn journal.old event answer journal.new) out.old.items out.new.items) }
    ensures err { OnErr result (StartsWith out.new.items out.old.items) }
{
    match journal.apply(event) {
        Ok((at, reply)) => answer_reply(out, u64::from(at), reply.as_ref()),
        Err(CallFault::Full) => {
            let entries = journal.entries().len() as u64;
            refuse(out, CallFault::Full.code(), entries)
        }
        Err(CallFault::Memory) => Err(AllocError),
    }
}
