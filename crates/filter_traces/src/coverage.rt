//! `ncroute filter --coverage`: how many routes come to each command of a filter.
ghost use Rattle.std.specs.Prelude.{◌≡◌, ◌≤◌, ◌⊎◌, ℕ, [], length, slice_index, IfErr, IfOk, IfSome, OnOk};
ghost use Rattle.std.specs.Io.KnownBytes.{Appends};
ghost use Rattle.filter_reports.specs.Cuts.{IsCut};
ghost use Rattle.filter_reports.specs.Faults.{stream_fault};
ghost use Rattle.route_answers.specs.Filtering.{AnswersEach, AnswersFirst, routes_limit};
ghost use Rattle.filter_traces.specs.Commands.{lines_among};
ghost use Rattle.filter_reports.specs.Opening.{IsPlacedOf};
ghost use Rattle.filter_traces.specs.Coverage.{Covers, CoversCut, CoversEach, CoversFirst, CoversOff, HasCounted, IsCounted, cover_answer, fault_in};
ghost use Rattle.route_answers.specs.RouteLine.{route_in};
ghost use Rattle.line_protocol.specs.Lines.{numbered};

use crate::traced::{Traced, trace_filter};
use filter_reports::{PlacedCode, ProgramFault};
use line_protocol::{LineReply, Service, answer_lines_within, push_refusal, write_text};
use route_answers::{LineFault, ROUTES_LIMIT, read_route};
use std::alloc::{AllocError, Global};
use std::io::{Read, Write};

/// The service that counts to which instructions routes come.
#[derive(Drop)]
struct Counter<'a> {
    /// The filter.
    traced: Traced<'a>,
    /// For each instruction the number of routes that came to it.
    counts: Vec<u64>,
}

impl<'a> Service for Counter<'a> {
    ghost use Rattle.std.specs.Prelude.{⊤};

    ghost answers = { λ before number line answer after. IsCounted before after (number, line)
        × (answer ≡ cover_answer before.traced.size (number, line)) };

    ghost refuses = { λ _ _. ⊤ };

    fn answer(
        &mut self,
        _alloc: Global,
        number: u32,
        line: &[u8],
        out: &mut Vec<u8>,
    ) -> Result<LineReply, AllocError> {
        match self.count_line(line) {
            Some(fault) => {
                push_refusal(out, fault.code(), u64::from(number))?;
                Ok(LineReply::Refused)
            }
            None => Ok(LineReply::Answered),
        }
    }
}

impl<'a> Counter<'a> {
    /// A counter that has counted nothing.
    fn new(alloc: Global, traced: Traced<'a>) -> Result<Counter<'a>, AllocError>
        ensures { IfOk result (HasCounted traced.entry []) }
    {
        let len = traced.code().instrs().len();
        let counts = vec![in alloc; 0; len]?;
        Ok(Counter { traced, counts })
    }

    /// Counts the route of a line, or answers why there is none.
    fn count_line(&mut self, line: &[u8]) -> Option<LineFault>
        ensures counted { (number : ℕ) → IsCounted self.old self.new (number, line.now) }
        ensures fault { result ≡ fault_in (route_in (Some self.old.traced.size) line.now) }
    {
        match read_route(line, Some(self.traced.size())) {
            Ok(route) => {
                self.traced.count_run(&route, self.counts.as_mut_slice());
                None
            }
            Err(fault) => Some(fault),
        }
    }

    /// Counts each line of `reader`. Those that give no route are refused on `writer`.
    fn count_lines<R: Read, W: Write>(
        &mut self,
        alloc: Global,
        reader: &mut R,
        writer: &mut W,
    ) -> Result<u32, ProgramFault>
        requires { HasCounted self.old.traced [] self.old }
        ensures finished { IfOk result (λ refused. IfSome (R.remaining reader.old) (λ input.
            AnswersEach (cover_answer self.old.traced.size) input (R.remaining reader.new)
            (W.contents writer.old) (W.contents writer.new) refused
            × HasCounted self.old.traced (numbered input) self.new × (length input ≤ routes_limit))) }
        ensures broken_off { IfErr result (λ fault. IfSome (R.remaining reader.old) (λ input.
            AnswersFirst (cover_answer self.old.traced.size) (stream_fault fault) input (R.remaining reader.new)
            (W.contents writer.old) (W.contents writer.new))) }
    {
        Ok(answer_lines_within(alloc, ROUTES_LIMIT, reader, writer, self)?)
    }

    /// Writes the commands, each with its count.
    fn write_coverage<W: Write>(&self, alloc: Global, writer: &mut W) -> Result<(), ProgramFault>
        ensures ok { OnOk result (Appends (W.contents writer.old) (W.contents writer.new)
            (lines_among self.now.traced (slice_index self.now.counts.items) (length self.now.counts.items))) }
        ensures err { IfErr result (λ fault. IsCut (stream_fault fault) (W.contents writer.old) (W.contents writer.new)
            (lines_among self.now.traced (slice_index self.now.counts.items) (length self.now.counts.items))) }
    {
        let text = self.traced.coverage(alloc, self.counts.as_slice())?;
        write_text(writer, text.as_slice())?;
        Ok(())
    }
}

/// Counts each line of `reader`, and writes the commands of a filter on `writer`, each with its count.
fn cover_lines<'a, R: Read, W: Write>(
    alloc: Global,
    counter: Counter<'a>,
    reader: &mut R,
    writer: &mut W,
) -> Result<u32, ProgramFault>
    requires { HasCounted counter.traced [] counter }
    ensures finished { IfOk result (λ refused. IfSome (R.remaining reader.old) (λ input.
        CoversEach counter.entry.traced input (R.remaining reader.new) (W.contents writer.old) (W.contents writer.new) refused)) }
    ensures broken_off { IfErr result (λ fault. IfSome (R.remaining reader.old) (λ input.
        AnswersFirst (cover_answer counter.entry.traced.size) (stream_fault fault) input (R.remaining reader.new)
        (W.contents writer.old) (W.contents writer.new)
        ⊎ CoversCut counter.entry.traced (stream_fault fault) input (R.remaining reader.new)
        (W.contents writer.old) (W.contents writer.new))) }
{
    let mut counter = counter;
    let refused = counter.count_lines(alloc, reader, writer)?;
    counter.write_coverage(alloc, writer)?;
    Ok(refused)
}

/// Counts each line of `reader` at the commands of a filter, and writes these on `writer`, each with its count.
fn cover_traced<'a, R: Read, W: Write>(
    alloc: Global,
    traced: Traced<'a>,
    reader: &mut R,
    writer: &mut W,
) -> Result<u32, ProgramFault>
    ensures finished { IfOk result (λ refused. IfSome (R.remaining reader.old) (λ input.
        CoversEach traced.entry input (R.remaining reader.new) (W.contents writer.old) (W.contents writer.new) refused)) }
    ensures broken_off { IfErr result (λ fault. IfSome (R.remaining reader.old) (λ input.
        CoversFirst traced.entry (stream_fault fault) input (R.remaining reader.new) (W.contents writer.old) (W.contents writer.new))) }
{
    match Counter::new(alloc, traced) {
        Ok(counter) => cover_lines(alloc, counter, reader, writer),
        Err(_) => Err(ProgramFault::MEMORY),
    }
}

/// Takes each line of `reader`, a route, through the verified code of a filter's text. When all are through, it writes a line for each command of the
/// filter: how many routes came to it, its line and column in the text, and its word. Those that no route came to are last. A line that gives no
/// route is refused as by `filter_routes`.
pub fn cover_routes<R: Read, W: Write>(
    alloc: Global,
    text: &[u8],
    placed: PlacedCode,
    reader: &mut R,
    writer: &mut W,
) -> Result<u32, ProgramFault>
    ensures finished { (size : ℕ) → IsPlacedOf size text.now placed → IfOk result (λ refused. IfSome (R.remaining reader.old) (λ input.
        Covers size text.now input (R.remaining reader.new) (W.contents writer.old) (W.contents writer.new) refused)) }
    ensures broken_off { (size : ℕ) → IsPlacedOf size text.now placed → IfErr result (λ fault. IfSome (R.remaining reader.old) (λ input.
        CoversOff (stream_fault fault) size text.now input (R.remaining reader.new) (W.contents writer.old) (W.contents writer.new))) }
{
    match trace_filter(alloc, text, placed) {
        Ok(traced) => cover_traced(alloc, traced, reader, writer),
        Err(_) => Err(ProgramFault::MEMORY),
    }
}
