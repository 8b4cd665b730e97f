//! `ncroute filter` and `ncroute eval` for people: each line that is refused is told in words.
ghost use Rattle.std.specs.Prelude.{ℕ, List, IfErr, IfOk, IfSome};
ghost use Rattle.filter_reports.specs.Faults.{stream_fault};
ghost use Rattle.filter_reports.specs.VerifiedFilters.{IsVerifiedOf};
ghost use Rattle.route_answers.specs.Evaluation.{Breaks, Evaluates};
ghost use Rattle.route_answers.specs.Filtering.{AnswersEach, AnswersFirst, filter_answer};
ghost use Rattle.route_answers.specs.WatchedRoutes.{IsQuiet};

use crate::eval::eval_watched_lines;
use crate::filter::answer_routes;
use crate::route_words::explain_route;
use crate::watch::{NoRouteWatcher, RefusedRoute, WatchRoutes};
use filter_reports::ProgramFault;
use filter_verifier::Verified;
use line_protocol::write_text;
use std::alloc::Global;
use std::io::{Read, Write};

/// The lines that give routes.
#[derive(Clone, Copy)]
pub struct Routes<'a> {
    /// The name by which people know them.
    pub name: &'a [u8],
    /// Why one of them is refused is told in words.
    pub tells_people: bool,
}

/// Who is told why a line is refused.
#[derive(Drop)]
enum RouteTeller<'a, E: Write> {
    /// Nobody.
    Quiet,
    /// People, who know the lines by this name, on this stream.
    People(&'a [u8], &'a mut E),
}

impl<'a, E: Write> WatchRoutes for RouteTeller<'a, E> {
    fn see_refused(&mut self, alloc: Global, refused: &RefusedRoute<'_>) {
        if let RouteTeller::People(name, errors) = self {
            tell_refused(alloc, name, refused, errors);
        }
    }
}

/// Tells people why a line is refused. Where `errors` takes no text, or memory is refused, they are not told: the answer on standard
/// output stays.
#[cold]
#[inline(never)]
fn tell_refused<E: Write>(alloc: Global, name: &[u8], refused: &RefusedRoute<'_>, errors: &mut E) {
    if let Ok(words) = explain_route(alloc, name, refused) {
        let _ = write_text(errors, words.as_slice());
    }
}

/// Answers each line of `reader`, a route `PREFIX METRIC`, on `writer` by the verified code of a filter: `accept METRIC`, `reject`, or why the line
/// gives no route. The answer to a route is what the filter's text means for it. What was answered is written before more is read.
///
/// Why a line is refused is told in words on `errors` where `routes` says so.
pub fn filter_routes<R: Read, W: Write, E: Write>(
    alloc: Global,
    verified: Verified,
    routes: Routes<'_>,
    reader: &mut R,
    writer: &mut W,
    errors: &mut E,
) -> Result<u32, ProgramFault>
    ensures finished { (size : ℕ) (text : List ℕ) → (is : IsVerifiedOf size text verified) → IfOk result (λ refused.
        IfSome (R.remaining reader.old) (λ input. AnswersEach (filter_answer is.filter size) input (R.remaining reader.new)
        (W.contents writer.old) (W.contents writer.new) refused)) }
    ensures broken_off { (size : ℕ) (text : List ℕ) → (is : IsVerifiedOf size text verified) → IfErr result (λ fault.
        IfSome (R.remaining reader.old) (λ input. AnswersFirst (filter_answer is.filter size) (stream_fault fault) input (R.remaining reader.new)
        (W.contents writer.old) (W.contents writer.new))) }
    ensures quiet { IsQuiet routes.entry.tells_people (E.contents errors.old) (E.contents errors.new) }
{
    if routes.tells_people {
        let people = RouteTeller::People(routes.name, errors);
        answer_routes(alloc, verified, reader, writer, people)
    } else {
        answer_routes(alloc, verified, reader, writer, NoRouteWatcher)
    }
}

/// Does what `eval_lines` does. Why a line is refused is told in words on `errors` where `routes` says so.
pub fn eval_routes<R: Read, W: Write, E: Write>(
    alloc: Global,
    routes: Routes<'_>,
    reader: &mut R,
    writer: &mut W,
    errors: &mut E,
) -> Result<u32, ProgramFault>
    ensures finished { IfOk result (λ refused. IfSome (R.remaining reader.old) (λ input.
        Evaluates input (R.remaining reader.new) (W.contents writer.old) (W.contents writer.new) refused)) }
    ensures broken_off { IfErr result (λ fault. IfSome (R.remaining reader.old) (λ input.
        Breaks (stream_fault fault) input (R.remaining reader.new) (W.contents writer.old) (W.contents writer.new))) }
    ensures quiet { IsQuiet routes.entry.tells_people (E.contents errors.old) (E.contents errors.new) }
{
    if routes.tells_people {
        let people = RouteTeller::People(routes.name, errors);
        eval_watched_lines(alloc, reader, writer, people)
    } else {
        // Not `NoRouteWatcher`: of a second type the program has a second copy of the engine, and the compiler puts less in line in both.
        eval_watched_lines(alloc, reader, writer, RouteTeller::<E>::Quiet)
    }
}
