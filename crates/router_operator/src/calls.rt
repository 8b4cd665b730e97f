//! What an operator is answered to a call of the router.
ghost use Rattle.std.specs.Prelude.{◌≡◌, IfOk, OnErr};
ghost use Rattle.std.specs.Io.{StartsWith};
ghost use Rattle.operator_cmds.specs.Replies.{Answers};
ghost use Rattle.router_operator.specs.Looking.{AnswersCall};
ghost use Rattle.router_operator.specs.Telling as spec;

use crate::listener::Listener;
use line_protocol::LineReply;
use netchange_core::Event;
use operator_cmds::{answer_reply, refuse};
use route_history::CallFault;
use slot_lock::Answer;
use std::alloc::AllocError;
use std::rt::Clock;
use std::sync::Wait;

/// The node whose export filter an event sets, if it sets one.
pub(crate) fn exported_by(event: &Event) -> Option<u16>
    ensures { result ≡ spec.exported_by event.now }
{
    match event {
        Event::SetExport(node, _) => Some(*node),
        _ => None,
    }
}

/// Tells a listener of the answer to a call, which set the export filter of this node, if of any.
fn tell<R: Wait + Clock, L: Listener>(rt: &R, listener: &L, exported: Option<u16>, answer: &Answer)
    ensures { L.is_notified exported answer.now }
{
    match exported {
        Some(node) => listener.exported(rt, node, answer),
        None => listener.answered(rt, answer),
    }
}

/// Answers a call by the router's reply, and tells a listener of it. A full history refuses it with the number of its entries.
pub(crate) fn answer_call<R: Wait + Clock, L: Listener>(
    rt: &R,
    listener: &L,
    limit: u32,
    exported: Option<u16>,
    called: Result<Answer, CallFault>,
    out: &mut Vec<u8>,
) -> Result<LineReply, AllocError>
    ensures ok { IfOk result (Answers (AnswersCall limit called) out.old.items out.new.items) }
    ensures err { OnErr result (StartsWith out.new.items out.old.items) }
    ensures notified { IfOk called (λ answer. L.is_notified exported answer) }
{
    match called {
        Ok(answer) => {
            tell(rt, listener, exported, &answer);
            answer_reply(out, answer.at, answer.reply.as_ref())
        }
        Err(CallFault::Full) => refuse(out, CallFault::Full.code(), u64::from(limit)),
        Err(CallFault::Memory) => Err(AllocError),
    }
}
