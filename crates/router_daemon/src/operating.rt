//! The operator of a router that runs.
ghost use Rattle.std.specs.Prelude.{◌≡◌, [], IfSome};
ghost use Rattle.router_operator.specs.OperatorView.{IsAt, OperatorView};
ghost use Rattle.router_daemon.specs.Running.{HasOperator, Operates, operator_of};

use crate::router_passes::{LegalPass, RouterPass};
use crate::setting::VerifiedFilters;
use crate::shared::Shared;
use crate::signals::Signals;
use crate::telling::Event;
use line_protocol::StreamFault;
use router_operator::{Naming, Operator};
use slot_lock::Pass;
use std::alloc::Global;
use std::io::{Read, Write};
use std::rt::Clock;
use std::sync::Wait;

/// What the operator is told of the router.
#[derive(Clone, Copy)]
pub(crate) struct Figures {
    /// The number of nodes of the domain.
    pub(crate) size: u16,
    /// The most entries of the history.
    pub(crate) limit: u32,
    /// The router goes on where the operator's lines end.
    pub(crate) stays: bool,
}

/// How an operator's lines ended.
#[derive(Drop)]
pub(crate) struct OperatorEnd<J: Naming> {
    /// How many were refused, or what broke them off.
    pub(crate) answered: Result<u32, StreamFault>,
    /// The operator's pass, at the end.
    pub(crate) router_pass: RouterPass<J>,
}

/// Tells people that a router that goes on takes no line of its operator any more, where a fault broke the lines off.
fn tell_if_broken_off<R: Wait + Clock, J: Naming, E: Write>(
    rt: &R,
    alloc: Global,
    shared: &Shared<J, E>,
    answered: &Result<u32, StreamFault>,
) {
    if let Err(why) = answered {
        shared.tell(rt, alloc, Event::Deaf(*why));
    }
}

/// Answers the operator's lines, to their end or to `quit`.
pub(crate) fn serve_operator<'a, R: Wait + Clock, I: Read, W: Write, J: Naming, E: Write>(
    rt: &'a R,
    alloc: Global,
    shared: &'a Shared<J, E>,
    pass: Pass,
    figures: Figures,
    filters: VerifiedFilters,
    reader: &mut I,
    writer: &mut W,
) -> OperatorEnd<J>
    requires { IsAt J.router pass figures.size figures.limit }
    ensures { IfSome (I.remaining reader.old) (λ input. (after : OperatorView) × (after.pass ≡ result.router_pass.pass)
        × Operates (operator_of J.router pass filters.entries shared.now.nodes.items) after result.answered input (I.remaining reader.new)
        (W.contents writer.old) (W.contents writer.new)) }
{
    let mut operator: Operator<'_, R, Signals, J> = Operator::new(
        rt,
        &shared.router,
        pass,
        &shared.signals,
        figures.size,
        figures.limit,
        shared.nodes.as_slice(),
        filters,
    );
    let answered = operator.run(alloc, reader, writer);
    if figures.stays && !operator.has_quit() {
        tell_if_broken_off(rt, alloc, shared, &answered);
        shared.signals.request_gate.await_quit(rt);
    }
    OperatorEnd {
        answered,
        router_pass: RouterPass::new(operator.pass()),
    }
}

/// Answers the operator's lines by a pass that has seen a legal history.
pub(crate) fn serve_lines<R: Wait + Clock, I: Read, W: Write, J: Naming, E: Write>(
    rt: &R,
    alloc: Global,
    shared: &Shared<J, E>,
    router_pass: LegalPass<J>,
    figures: Figures,
    filters: VerifiedFilters,
    reader: &mut I,
    writer: &mut W,
) -> OperatorEnd<J>
    requires size { figures.size ≡ J.router.opening.size }
    requires limit { figures.limit ≡ J.router.limit }
    requires no_calls { router_pass.fragment.mine ≡ [] }
    ensures { IfSome (I.remaining reader.old) (λ input.
        HasOperator J.router router_pass.fragment.seen filters.entries shared.now.nodes.items result.answered input (I.remaining reader.new)
        (W.contents writer.old) (W.contents writer.new) result.router_pass.pass) }
{
    let pass = router_pass.pass();
    serve_operator(rt, alloc, shared, pass, figures, filters, reader, writer)
}
