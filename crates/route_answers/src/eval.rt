//! `ncroute eval`: routes through a code file.
//!
//! **`eval` reads at most one byte past the limit of its input**, so that E4 is answered only if that byte was there.
//!
//! **After a refused code line, `eval` is in the state "no code yet".** Nothing after that line is answered, so no third state is needed.
ghost use Rattle.std.specs.Prelude.{◌≡◌, ◌++◌, ℕ, List, None, Ok, Err, OnOk, IfOk, IfErr, IfSome, MatchResult, OnErr};
ghost use Rattle.std.specs.Io.{StartsWith};
ghost use Rattle.std.specs.Io.KnownBytes.{Appends};
ghost use Rattle.filter_source.specs.Failures.{OnRefusal};
ghost use Rattle.route_answers.specs.Eval.{code_in, no_code, route_answer};
ghost use Rattle.filter_reports.specs.Cuts.{IsCut};
ghost use Rattle.route_answers.specs.Evaluation.{Breaks, Evaluates};
ghost use Rattle.filter_reports.specs.Faults.{stream_fault};

use crate::judge::Judge;
use crate::line_fault::LineFault;
use crate::route_line::{read_usual, read_words};
use crate::watch::{NoRouteWatcher, RefusedRoute, WatchRoutes, WhyRefused};
use filter_code::Code;
use filter_reports::ProgramFault;
use filter_source::{Failure, check_length, read_hexadecimal};
use line_protocol::{LineReply, Service, answer_lines, push_refusal, trim_blanks, write_text};
use std::alloc::{AllocError, Global};
use std::io::{Read, Write};

/// The service that answers the lines of `eval`, and who watches them.
#[derive(Drop)]
struct Evaluator<S: WatchRoutes + Drop> {
    /// The code of the filter, once its line has come.
    code: Judge,
    /// Who watches the lines.
    watcher: S,
}

impl<S: WatchRoutes + Drop> Service for Evaluator<S> {
    ghost use Rattle.std.specs.Prelude.{⊤};
    ghost use Rattle.route_answers.specs.Steps.{AnswersLine};

    ghost answers = { λ before number line answer after. AnswersLine before.code number line answer after.code };

    ghost refuses = { λ _ _. ⊤ };

    fn answer(
        &mut self,
        alloc: Global,
        number: u32,
        line: &[u8],
        out: &mut Vec<u8>,
    ) -> Result<LineReply, AllocError> {
        if self.code.is_awaiting() {
            return self.take_code(alloc, number, line, out);
        }
        answer_route(alloc, &mut self.code, &mut self.watcher, number, line, out)
    }
}

impl<S: WatchRoutes + Drop> Evaluator<S> {
    ghost use Rattle.route_answers.specs.Steps.{TakesCode};

    /// Answers the line that is to give the code.
    #[cold]
    #[inline(never)]
    fn take_code(
        &mut self,
        alloc: Global,
        number: u32,
        line: &[u8],
        out: &mut Vec<u8>,
    ) -> Result<LineReply, AllocError>
        requires { self.old.code ≡ None }
        ensures ok { IfOk result (λ reply. (text : List ℕ) × (out.new.items ≡ out.old.items ++ text)
            × TakesCode number (code_in line.now) (record { text = text; reply = reply }) self.new.code) }
        ensures err { OnErr result (StartsWith out.new.items out.old.items) }
    {
        match read_code_line(alloc, line) {
            Ok(code) => {
                self.code = Judge::of(code);
                Ok(LineReply::Answered)
            }
            Err(Failure::Refused(diagnosis)) => {
                let why = diagnosis.refusal;
                push_refusal(out, why.code(), why.place_in_line(number))?;
                show(
                    alloc,
                    &mut self.watcher,
                    number,
                    line,
                    WhyRefused::Code(diagnosis),
                );
                Ok(LineReply::Ended)
            }
            Err(Failure::Memory) => Err(AllocError),
        }
    }
}

/// Shows a line that is refused to who watches.
#[inline(always)]
fn show<S: WatchRoutes>(alloc: Global, watcher: &mut S, number: u32, line: &[u8], why: WhyRefused) {
    let refused = RefusedRoute {
        number,
        line,
        size: None,
        why,
    };
    watcher.see_refused(alloc, &refused);
}

/// The code of the first line that is answered: a code file in hexadecimal.
fn read_code_line(alloc: Global, line: &[u8]) -> Result<Code, Failure>
    ensures { MatchResult result (λ code. code_in line.now ≡ Ok code) (OnRefusal (λ why. code_in line.now ≡ Err why)) }
{
    check_length(line)?;
    read_hexadecimal(alloc, trim_blanks(line))
}

/// Answers a route line under a filter's code. Where it is refused, it is shown to who watches.
#[inline(always)]
fn answer_route<S: WatchRoutes>(
    alloc: Global,
    code: &mut Judge,
    watcher: &mut S,
    number: u32,
    line: &[u8],
    out: &mut Vec<u8>,
) -> Result<LineReply, AllocError>
    ensures ok { IfSome code.old (λ program. IfOk result (λ reply.
        (out.new.items ≡ out.old.items ++ (route_answer program (number, line.now)).text)
        × (reply ≡ (route_answer program (number, line.now)).reply))) }
    ensures kept { code.new ≡ code.old }
    ensures err { OnErr result (StartsWith out.new.items out.old.items) }
{
    let Some(route) = read_usual(line, None) else {
        return answer_unusual(alloc, code, watcher, number, line, out);
    };
    code.answer(alloc, &route, out)?;
    Ok(LineReply::Answered)
}

/// Does what `answer_route` does with a line that is not in the usual spelling.
#[cold]
#[inline(never)]
fn answer_unusual<S: WatchRoutes>(
    alloc: Global,
    code: &mut Judge,
    watcher: &mut S,
    number: u32,
    line: &[u8],
    out: &mut Vec<u8>,
) -> Result<LineReply, AllocError>
    ensures ok { IfSome code.old (λ program. IfOk result (λ reply.
        (out.new.items ≡ out.old.items ++ (route_answer program (number, line.now)).text)
        × (reply ≡ (route_answer program (number, line.now)).reply))) }
    ensures kept { code.new ≡ code.old }
    ensures err { OnErr result (StartsWith out.new.items out.old.items) }
{
    match read_words(line, None) {
        Ok(route) => {
            code.answer_rarely(alloc, &route, out)?;
            Ok(LineReply::Answered)
        }
        Err(fault) => {
            push_refusal(out, fault.code(), u64::from(number))?;
            show(alloc, watcher, number, line, WhyRefused::Route(fault));
            Ok(LineReply::Refused)
        }
    }
}

/// Answers the lines of `reader` on `writer`: the first has a code file, each other a route. Returns the number of lines that
/// were refused. What was answered is written before more is read.
pub fn eval_lines<R: Read, W: Write>(
    alloc: Global,
    reader: &mut R,
    writer: &mut W,
) -> Result<u32, ProgramFault>
    ensures finished { IfOk result (λ refused. IfSome (R.remaining reader.old) (λ input.
        Evaluates input (R.remaining reader.new) (W.contents writer.old) (W.contents writer.new) refused)) }
    ensures broken_off { IfErr result (λ fault. IfSome (R.remaining reader.old) (λ input.
        Breaks (stream_fault fault) input (R.remaining reader.new) (W.contents writer.old) (W.contents writer.new))) }
{
    eval_watched_lines(alloc, reader, writer, NoRouteWatcher)
}

/// Does what `eval_lines` does, and shows each line that is refused to who watches.
pub fn eval_watched_lines<R: Read, W: Write, S: WatchRoutes + Drop>(
    alloc: Global,
    reader: &mut R,
    writer: &mut W,
    watcher: S,
) -> Result<u32, ProgramFault>
    ensures finished { IfOk result (λ refused. IfSome (R.remaining reader.old) (λ input.
        Evaluates input (R.remaining reader.new) (W.contents writer.old) (W.contents writer.new) refused)) }
    ensures broken_off { IfErr result (λ fault. IfSome (R.remaining reader.old) (λ input.
        Breaks (stream_fault fault) input (R.remaining reader.new) (W.contents writer.old) (W.contents writer.new))) }
{
    let mut evaluator = Evaluator {
        code: Judge::awaiting(),
        watcher,
    };
    let refused = answer_lines(alloc, reader, writer, &mut evaluator)?;
    if refused == 0 && evaluator.code.is_awaiting() {
        show(alloc, &mut evaluator.watcher, 0, b"", WhyRefused::NoCode);
        return refuse_empty(alloc, writer);
    }
    Ok(refused)
}

/// Answers an input in which no line has a code, by the one refusal that it counts.
fn refuse_empty<W: Write>(alloc: Global, writer: &mut W) -> Result<u32, ProgramFault>
    ensures ok { IfOk result (λ refused. (refused ≡ 1)
        × Appends (W.contents writer.old) (W.contents writer.new) no_code.text) }
    ensures err { IfErr result (λ fault.
        IsCut (stream_fault fault) (W.contents writer.old) (W.contents writer.new) no_code.text) }
{
    let text = empty_refusal(alloc)?;
    write_text(writer, text.as_slice())?;
    Ok(1)
}

/// The answer to an input in which no line has a code.
fn empty_refusal(alloc: Global) -> Result<Vec<u8>, AllocError>
    ensures { IfOk result (λ text. text.items ≡ no_code.text) }
{
    let mut text = Vec::new(alloc);
    push_refusal(&mut text, LineFault::Words.code(), 0)?;
    Ok(text)
}
