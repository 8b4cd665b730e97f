//! `ncroute filter --why`: routes through a filter that is verified first, and why each of them got its verdict.
ghost use Rattle.std.specs.Prelude.{◌≡◌, ◌++◌, ℕ, [], ◌∷◌, IfErr, IfOk, IfSome, OnErr, OnOk, slice_get};
ghost use Rattle.std.specs.Io.{StartsWith};
ghost use Rattle.filter_code.specs.Machine.{outcome_of};
ghost use Rattle.filter_reports.specs.Faults.{stream_fault};
ghost use Rattle.filter_reports.specs.Opening.{IsPlacedOf};
ghost use Rattle.route_answers.specs.Filtering.{AnswersEach, AnswersFirst};
ghost use Rattle.filter_traces.specs.Sites.{site_text};
ghost use Rattle.filter_traces.specs.Whys.{Whys, WhysOff, code_why, outcome_words, route_text, why_text};

use crate::run::ShownRun;
use crate::site::push_site;
use crate::traced::{Traced, trace_filter};
use filter_code::{Outcome, Route};
use filter_reports::{PlacedCode, ProgramFault};
use line_protocol::{LineReply, Service, answer_lines_within, push_decimal, push_refusal};
use refusal_words::push_prefix;
use route_answers::{ROUTES_LIMIT, read_route};
use std::alloc::{AllocError, Global};
use std::io::{Read, Write};

/// Puts a route at the end of `out`.
fn push_route(alloc: Global, out: &mut Vec<u8>, route: &Route) -> Result<(), AllocError>
    ensures { OnOk result (out.new.items ≡ out.old.items ++ route_text route.now) }
{
    push_prefix(alloc, out, route.net())?;
    out.push(b' ')?;
    push_decimal(out, u64::from(route.metric()))
}

/// Puts the words of an outcome at the end of `out`.
fn push_outcome(out: &mut Vec<u8>, outcome: Outcome) -> Result<(), AllocError>
    ensures { OnOk result (out.new.items ≡ out.old.items ++ outcome_words outcome) }
{
    match outcome {
        Outcome::Accept(metric) => {
            out.extend_from_slice(b"accept ")?;
            push_decimal(out, u64::from(metric))
        }
        Outcome::Reject | Outcome::Fault(_, _) => out.extend_from_slice(b"reject"),
    }
}

impl<'a> Traced<'a> {
    /// The line on a route, whose run is told.
    fn route_line(
        &self,
        alloc: Global,
        route: &Route,
        run: &ShownRun,
    ) -> Result<Vec<u8>, AllocError>
        ensures { IfOk result (λ line. line.items ≡ route_text route.now ++ 32 ∷ [] ++ outcome_words run.now.outcome ++ 32 ∷ []
            ++ site_text (slice_get self.now.sites run.now.place) ++ 10 ∷ []) }
    {
        let mut line = Vec::new(alloc);
        push_route(alloc, &mut line, route)?;
        line.push(b' ')?;
        push_outcome(&mut line, run.outcome)?;
        line.push(b' ')?;
        push_site(&mut line, self.site(run.place))?;
        line.push(b'\n')?;
        Ok(line)
    }

    /// Why a route gets its verdict.
    fn why(&self, alloc: Global, route: &Route) -> Result<Vec<u8>, AllocError>
        ensures { IfOk result (λ text. text.items
            ≡ why_text self.now route.now (outcome_words (outcome_of self.now.program route.now))) }
    {
        let run = self.tell_run(alloc, route)?;
        let mut text = self.route_line(alloc, route, &run)?;
        text.extend_from_slice(run.lines.as_slice())?;
        Ok(text)
    }

    /// Answers a route line.
    fn answer_why(
        &self,
        alloc: Global,
        number: u32,
        line: &[u8],
        out: &mut Vec<u8>,
    ) -> Result<LineReply, AllocError>
        ensures ok { IfOk result (λ reply.
            (out.new.items ≡ out.old.items ++ (code_why self.now (number, line.now)).text)
            × (reply ≡ (code_why self.now (number, line.now)).reply)) }
        ensures err { OnErr result (StartsWith out.new.items out.old.items) }
    {
        match read_route(line, Some(self.size())) {
            Ok(route) => {
                let text = self.why(alloc, &route)?;
                out.extend_from_slice(text.as_slice())?;
                Ok(LineReply::Answered)
            }
            Err(fault) => {
                push_refusal(out, fault.code(), u64::from(number))?;
                Ok(LineReply::Refused)
            }
        }
    }
}

/// The service that answers route lines, and says why.
#[derive(Drop)]
struct Explainer<'a> {
    /// The filter.
    traced: Traced<'a>,
}

impl<'a> Service for Explainer<'a> {
    ghost use Rattle.std.specs.Prelude.{⊤};

    ghost answers = { λ before number line answer after. (after.traced ≡ before.traced)
        × (answer ≡ code_why before.traced (number, line)) };

    ghost refuses = { λ _ _. ⊤ };

    fn answer(
        &mut self,
        alloc: Global,
        number: u32,
        line: &[u8],
        out: &mut Vec<u8>,
    ) -> Result<LineReply, AllocError> {
        self.traced.answer_why(alloc, number, line, out)
    }
}

/// Answers each line of `reader` on `writer` by a filter, and says why.
fn answer_whys<'a, R: Read, W: Write>(
    alloc: Global,
    traced: Traced<'a>,
    reader: &mut R,
    writer: &mut W,
) -> Result<u32, ProgramFault>
    ensures finished { IfOk result (λ refused. IfSome (R.remaining reader.old) (λ input.
        AnswersEach (code_why traced.entry) input (R.remaining reader.new)
        (W.contents writer.old) (W.contents writer.new) refused)) }
    ensures broken_off { IfErr result (λ fault. IfSome (R.remaining reader.old) (λ input.
        AnswersFirst (code_why traced.entry) (stream_fault fault) input (R.remaining reader.new)
        (W.contents writer.old) (W.contents writer.new))) }
{
    let mut service = Explainer { traced };
    Ok(answer_lines_within(alloc, ROUTES_LIMIT, reader, writer, &mut service)?)
}

/// Answers each line of `reader`, a route, on `writer` by the verified code of a filter's text, and says why each route gets its verdict: the answer
/// to a route begins with its own line, with the verdict and where in the text it was decided, and below it is a line for each assignment that was
/// carried out, each comparison and each condition, in the order in which they were.
pub fn explain_routes<R: Read, W: Write>(
    alloc: Global,
    text: &[u8],
    placed: PlacedCode,
    reader: &mut R,
    writer: &mut W,
) -> Result<u32, ProgramFault>
    ensures finished { (size : ℕ) → IsPlacedOf size text.now placed → IfOk result (λ refused. IfSome (R.remaining reader.old) (λ input.
        Whys size text.now input (R.remaining reader.new) (W.contents writer.old) (W.contents writer.new) refused)) }
    ensures broken_off { (size : ℕ) → IsPlacedOf size text.now placed → IfErr result (λ fault. IfSome (R.remaining reader.old) (λ input.
        WhysOff (stream_fault fault) size text.now input (R.remaining reader.new) (W.contents writer.old) (W.contents writer.new))) }
{
    match trace_filter(alloc, text, placed) {
        Ok(traced) => answer_whys(alloc, traced, reader, writer),
        Err(_) => Err(ProgramFault::MEMORY),
    }
}
