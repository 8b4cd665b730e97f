//! What BIRD writes to its log: it changes no route, and is left out.
//!
//! **Print is left out, and not refused**: it changes no route. Where what is printed calls a function, divides or compares, the filter is left
//! out, since a run may end there. Attributes that no route has here may be printed, and so may what is in parentheses or behind `.mask`.

ghost use Rattle.std.specs.Prelude.{◌≡◌, ◌⊎◌, ◌+◌, ◌<◌, IfOk, IfSome, IsTrue, Some, codes, length};
ghost use Rattle.filter_tokens.specs.declared.symbol.Symbol.TheVariants as symbol;
ghost use Rattle.bird_import.specs.Indices.{IsAt, IsForeignAt, kind_at};
ghost use Rattle.bird_import.specs.Reasons.{why_of_plan};
ghost use Rattle.bird_import.specs.Stuck.{Hinder, PrintsMore};
ghost use Rattle.bird_import.specs.declared.reason.Why.TheVariants as why;
ghost use Rattle.bird_import.specs.declared.word.WordKind.TheVariants as kind;

use crate::reason::{Reason, Why};
use crate::step::{NextStep, Rule, planned};
use crate::word::{Word, WordKind, begins_command, find_outside, is_at, is_foreign_at, kind_at};
use filter_tokens::Symbol;
use std::alloc::{AllocError, Global};

/// Whether the word at an index is a command that prints.
fn prints(words: &[Word<'_>], at: usize) -> bool
    ensures { IsTrue result → IsForeignAt (codes "print") words.now at ⊎ IsForeignAt (codes "printn") words.now at }
{
    (is_foreign_at(words, at, b"print") || is_foreign_at(words, at, b"printn"))
        && begins_command(words, at)
}

/// Whether the word at an index ends the filter.
fn ends_filter(words: &[Word<'_>], at: usize) -> bool
    ensures { IsTrue result → IsAt symbol.Accept words.now at ⊎ IsAt symbol.Reject words.now at }
{
    is_at(words, at, Symbol::Accept) || is_at(words, at, Symbol::Reject)
}

/// Whether nothing or a text is printed behind the word at an index.
fn is_short(words: &[Word<'_>], at: usize) -> bool
    requires { at < length words.now }
    ensures nothing { IsAt symbol.Semicolon words.now (at + 1) → IsTrue result }
    ensures text { kind_at words.now (at + 1) ≡ kind.Text → IsAt symbol.Semicolon words.now (at + 2) → IsTrue result }
{
    let (next, second) = (at.saturating_add(1), at.saturating_add(2));
    is_at(words, next, Symbol::Semicolon)
        || (kind_at(words, next) == WordKind::Text && is_at(words, second, Symbol::Semicolon))
}

/// Whether more than a text is printed behind the `accept` or `reject` at an index.
fn prints_more(words: &[Word<'_>], at: usize) -> bool
    requires { at < length words.now }
    ensures { IsTrue result → PrintsMore words.now at }
{
    ends_filter(words, at) && !is_short(words, at)
}

/// The index behind what is kept of what is printed from an index on: a text, or nothing.
fn kept_end(words: &[Word<'_>], from: usize) -> usize {
    if kind_at(words, from) == WordKind::Text {
        from.saturating_add(1)
    } else {
        from
    }
}

/// Leaves out the command `print` that begins at an index and ends with the `;` at another.
fn leave_out<'a>(
    alloc: Global,
    word: Word<'a>,
    at: usize,
    end: usize,
) -> Result<NextStep<'a>, AllocError>
    ensures { IfOk result (λ plan. IfSome (why_of_plan plan) (λ reason. reason ≡ why.PrintDoesMore)) }
{
    let stop = Word::of_symbol(Symbol::Semicolon, word.at).after(word.gap);
    let written = Vec::from_slice(alloc, &[stop]);
    planned(
        Rule::Unprinted,
        at,
        end.saturating_add(1),
        written,
        does_more(word),
    )
}

/// Keeps a text at most of what is printed between the `accept` or `reject` before an index and the `;` at another.
fn shorten<'a>(
    alloc: Global,
    words: &[Word<'a>],
    word: Word<'a>,
    from: usize,
    end: usize,
) -> Result<NextStep<'a>, AllocError>
    ensures { IfOk result (λ plan. IfSome (why_of_plan plan) (λ reason. reason ≡ why.PrintDoesMore)) }
{
    match words.get(from..kept_end(words, from)) {
        Some(kept) => planned(
            Rule::Shortened,
            from,
            end,
            Vec::from_slice(alloc, kept),
            does_more(word),
        ),
        None => Ok(NextStep::Done),
    }
}

/// Why a command that prints cannot be left out.
fn does_more<'a>(word: Word<'a>) -> Reason<'a>
    ensures { result.why ≡ why.PrintDoesMore }
{
    Reason {
        at: word.at,
        why: Why::PrintDoesMore,
    }
}

/// Leaves out what the first command that prints prints.
pub(crate) fn plan_printing<'a>(
    alloc: Global,
    words: &[Word<'a>],
) -> Result<NextStep<'a>, AllocError>
    ensures { IfOk result (λ plan. IfSome (why_of_plan plan) (Hinder words.now)) }
{
    for at in 0..words.len() {
        let is_print = prints(words, at);
        if !is_print && !prints_more(words, at) {
            continue;
        }
        let Some(end) = find_outside(words, at, Symbol::Semicolon) else {
            continue;
        };
        if is_print {
            return leave_out(alloc, words[at], at, end);
        }
        return shorten(alloc, words, words[at], at.saturating_add(1), end);
    }
    Ok(NextStep::Done)
}
