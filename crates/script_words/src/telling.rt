//! What people are told of a refused line.
ghost use Rattle.std.specs.Option.{option_map};
ghost use Rattle.std.specs.Prelude.{◌≡◌, IfOk};
ghost use Rattle.script_words.specs.Causes.{cause_in};
ghost use Rattle.script_words.specs.Telling.{Tells, TellsCause, TellsFilter, cause_of, code_in};

use crate::cause::{RefusalCause, read_cause};
use crate::finding::ScriptFinding;
use crate::forms::ScriptKind;
use crate::line_words::line_words;
use operator_cmds::{RefusedLine, text_in, three_words};
use refusal_words::{explain_line, place_in, push_shown, tell_at};
use std::alloc::{AllocError, Global};

/// The code and the place of an answer `refused CODE AT`.
#[derive(Clone, Copy)]
struct CodeAndPlace<'a> {
    /// The code.
    code: &'a [u8],
    /// The place.
    at: &'a [u8],
}

/// Why a line is refused, where no filter in it is, and the place that the answer names.
#[derive(Clone, Copy)]
struct PlacedCause<'a> {
    /// Why.
    cause: RefusalCause,
    /// The place.
    at: &'a [u8],
}

/// The code and the place of an answer, if it has three words.
fn refusal_in(answer: &[u8]) -> Option<CodeAndPlace<'_>>
    ensures { option_map (λ r. r.code.now) result ≡ code_in answer.now }
{
    let (_, code, at) = three_words(place_in(answer, 0).behind)?;
    Some(CodeAndPlace { code, at })
}

/// The cause that an answer names, if it names one.
fn cause_of(answer: &[u8]) -> Option<PlacedCause<'_>>
    ensures { option_map (λ p. p.cause) result ≡ cause_of answer.now }
{
    let refusal = refusal_in(answer)?;
    let cause = read_cause(refusal.code)?;
    let at = refusal.at;
    Some(PlacedCause { cause, at })
}

/// What is said of a line that is refused for this cause, in words as they are shown.
fn tell_found(
    alloc: Global,
    name: &[u8],
    refused: &RefusedLine<'_>,
    cause: RefusalCause,
    found: ScriptFinding,
) -> Result<Vec<u8>, AllocError>
    ensures { IfOk result (λ out. TellsCause name.now refused.now.number refused.now.line.now cause out.items) }
{
    let mut words = Vec::new(alloc);
    push_shown(alloc, &mut words, found.words.as_bytes())?;
    let (number, line) = (Some(refused.number), refused.line);
    tell_at(
        alloc,
        name,
        number,
        line,
        words.as_slice(),
        cause.code(),
        found.byte,
    )
}

/// Why the filter that a line gives is refused, if that is known.
fn tell_filter(
    alloc: Global,
    name: &[u8],
    refused: &RefusedLine<'_>,
) -> Result<Option<Vec<u8>>, AllocError>
    ensures { IfOk result (λ out. TellsFilter refused.now.diagnosis name.now refused.now.number refused.now.line.now
        (option_map (λ out. out.items) out)) }
{
    let Some(diagnosis) = refused.diagnosis else {
        return Ok(None);
    };
    let (number, line) = (refused.number, refused.line);
    let words = explain_line(alloc, name, number, line, text_in(line), &diagnosis)?;
    Ok(Some(words))
}

/// What is said of a line that is refused for a cause.
fn tell_cause(
    alloc: Global,
    kind: ScriptKind,
    name: &[u8],
    refused: &RefusedLine<'_>,
    placed: PlacedCause<'_>,
) -> Result<Vec<u8>, AllocError>
    ensures { IfOk result (λ out. TellsCause name.now refused.now.number refused.now.line.now placed.entry.cause out.items) }
{
    let found = line_words(alloc, kind, placed.cause, placed.at, refused)?;
    tell_found(alloc, name, refused, placed.cause, found)
}

/// Why a line of a script that people know by a name is refused, for people: `NAME:NUMBER:COLUMN: WORDS (CODE)`, and the line with a
/// caret under the word that is wrong. None if the answer is a refusal of a filter of which nothing is known.
pub fn explain_refused(
    alloc: Global,
    kind: ScriptKind,
    name: &[u8],
    refused: &RefusedLine<'_>,
) -> Result<Option<Vec<u8>>, AllocError>
    ensures { IfOk result (λ out. Tells name.now refused.now.number refused.now.line.now refused.now.answer.now refused.now.diagnosis
        (option_map (λ out. out.items) out)) }
{
    match cause_of(refused.answer) {
        Some(placed) => Ok(Some(tell_cause(alloc, kind, name, refused, placed)?)),
        None => tell_filter(alloc, name, refused),
    }
}
