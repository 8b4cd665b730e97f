//! `ncroute filter`: routes through a filter that is verified first.
//!
//! **`filter` defines its answers by the meaning of the filter's text**, not by code. The proof joins the compiler, the verifier and the machine.
//!
//! **`filter` reads its filter from a file that the command line names**, since standard input has the routes. Files need no handle.
ghost use Rattle.std.specs.Prelude.{◌≡◌, ◌++◌, IfErr, IfOk, IfSome, OnErr, OnOk};
ghost use Rattle.std.specs.Io.{StartsWith};
ghost use Rattle.filter_machine.specs.Verdicts.{outcome_said};
ghost use Rattle.filter_reports.specs.Faults.{stream_fault};
ghost use Rattle.route_answers.specs.Eval.{verdict};
ghost use Rattle.route_answers.specs.Filtering.{AnswersEach, AnswersFirst, code_answer};

use crate::route_line::read_route;
use crate::verdict_line::push_accept;
use crate::watch::{RefusedRoute, WatchRoutes, WhyRefused};
use filter_machine::{Verdict, run};
use filter_reports::ProgramFault;
use filter_verifier::Verified;
use line_protocol::{LineReply, Service, answer_lines_within, push_refusal};
use std::alloc::{AllocError, Global};
use std::io::{Read, Write};

/// How many bytes of routes a run answers at most: about 200 times the routes of the whole Internet. Lines are numbered below 2^32.
pub const ROUTES_LIMIT: usize = 4_000_000_000;

/// The service that answers route lines by a verified filter, and who watches them.
#[derive(Drop)]
struct RouteFilter<S: WatchRoutes + Drop> {
    /// The code of the filter.
    verified: Verified,
    /// Who watches the lines.
    watcher: S,
}

impl<S: WatchRoutes + Drop> Service for RouteFilter<S> {
    ghost use Rattle.std.specs.Prelude.{⊤};

    ghost answers = { λ before number line answer after. (after.verified ≡ before.verified)
        × (answer ≡ code_answer before.verified.program before.verified.size (number, line)) };

    ghost refuses = { λ _ _. ⊤ };

    fn answer(
        &mut self,
        alloc: Global,
        number: u32,
        line: &[u8],
        out: &mut Vec<u8>,
    ) -> Result<LineReply, AllocError> {
        answer_route(alloc, &self.verified, &mut self.watcher, number, line, out)
    }
}

/// Puts the line of a verdict at the end of `out`.
#[inline(always)]
fn push_verdict(out: &mut Vec<u8>, said: Verdict) -> Result<(), AllocError>
    ensures ok { OnOk result (out.new.items ≡ out.old.items ++ verdict (outcome_said said)) }
    ensures err { OnErr result (StartsWith out.new.items out.old.items) }
{
    match said {
        Verdict::Accept(metric) => push_accept(out, metric),
        Verdict::Reject => out.extend_from_slice(b"reject\n"),
    }
}

/// Answers a route line by verified code, in domains of the size that it was verified for. Where it is refused, it is shown to who
/// watches.
#[inline(always)]
fn answer_route<S: WatchRoutes>(
    alloc: Global,
    verified: &Verified,
    watcher: &mut S,
    number: u32,
    line: &[u8],
    out: &mut Vec<u8>,
) -> Result<LineReply, AllocError>
    ensures ok { IfOk result (λ reply.
        (out.new.items ≡ out.old.items ++ (code_answer verified.now.program verified.now.size (number, line.now)).text)
        × (reply ≡ (code_answer verified.now.program verified.now.size (number, line.now)).reply)) }
    ensures err { OnErr result (StartsWith out.new.items out.old.items) }
{
    match read_route(line, Some(verified.size())) {
        Ok(route) => {
            let ran = run(verified, &route.net(), route.metric());
            push_verdict(out, ran.verdict)?;
            Ok(LineReply::Answered)
        }
        Err(fault) => {
            push_refusal(out, fault.code(), u64::from(number))?;
            let refused = RefusedRoute {
                number,
                line,
                size: Some(verified.size()),
                why: WhyRefused::Route(fault),
            };
            watcher.see_refused(alloc, &refused);
            Ok(LineReply::Refused)
        }
    }
}

/// Answers each line of `reader` on `writer` by verified code, and shows each that is refused to who watches.
pub(crate) fn answer_routes<R: Read, W: Write, S: WatchRoutes + Drop>(
    alloc: Global,
    verified: Verified,
    reader: &mut R,
    writer: &mut W,
    watcher: S,
) -> Result<u32, ProgramFault>
    ensures finished { IfOk result (λ refused. IfSome (R.remaining reader.old) (λ input.
        AnswersEach (code_answer verified.program verified.size) input (R.remaining reader.new)
        (W.contents writer.old) (W.contents writer.new) refused)) }
    ensures broken_off { IfErr result (λ fault. IfSome (R.remaining reader.old) (λ input.
        AnswersFirst (code_answer verified.program verified.size) (stream_fault fault) input (R.remaining reader.new)
        (W.contents writer.old) (W.contents writer.new))) }
{
    let mut service = RouteFilter { verified, watcher };
    Ok(answer_lines_within(alloc, ROUTES_LIMIT, reader, writer, &mut service)?)
}
