//! `case` of addresses, which is written as `if` and `else`, one label after another.

ghost use Rattle.std.specs.Prelude.{◌≡◌, IfOk, IfSome};
ghost use Rattle.bird_import.specs.Reasons.{why_of_plan};
ghost use Rattle.bird_import.specs.Stuck.{Hinder};
ghost use Rattle.bird_import.specs.declared.reason.Why.TheVariants as why;

use crate::case_rules::{Parted, only_else, parts_of, take_apart};
use crate::reason::{Reason, Why};
use crate::step::{NextStep, Rule, enclosed, planned, push_parts};
use crate::word::{Word, WordKind, closing, is_at, is_before, kind_at};
use filter_tokens::Symbol;
use std::alloc::{AllocError, Global};

/// Whether the word at an index is an address.
fn is_address_at(words: &[Word<'_>], at: usize) -> bool {
    matches!(kind_at(words, at), WordKind::Address(_))
}

/// The index of the first brace from an index on.
fn brace_from(words: &[Word<'_>], from: usize) -> Option<usize> {
    for at in from..words.len() {
        if is_at(words, at, Symbol::LeftBrace) {
            return Some(at);
        }
    }
    None
}

/// A `case` of addresses: where it ends, and its parts.
#[derive(Clone, Copy)]
struct Case<'w, 'a> {
    /// The index behind it.
    to: usize,
    /// Its words.
    words: &'w [Word<'a>],
    /// The expression.
    subject: &'w [Word<'a>],
    /// Its parts.
    parts: Parted<'w, 'a>,
}

/// The `case` that begins at an index, if its first label begins with an address.
fn case_at<'w, 'a>(words: &'w [Word<'a>], at: usize) -> Option<Case<'w, 'a>> {
    let open = brace_from(words, at)?;
    let to = closing(words, open.saturating_add(1))?.saturating_add(1);
    let all = words.get(at..to)?;
    let (subject, parts) = parts_of(all)?;
    let parts = take_apart(parts)?;
    if is_address_at(parts.label, 0) {
        Some(Case {
            to,
            words: all,
            subject,
            parts,
        })
    } else {
        None
    }
}

/// Whether the first label of the `case` that begins at an index begins with an address.
fn is_of_addresses(words: &[Word<'_>], at: usize) -> bool {
    match brace_from(words, at) {
        Some(open) => is_address_at(words, open.saturating_add(1)),
        None => false,
    }
}

/// Puts the comparison of an expression with an address behind others.
fn push_compared<'a>(
    words: &mut Vec<Word<'a>>,
    operator: Symbol,
    subject: &[Word<'a>],
    address: Word<'a>,
) -> Result<(), AllocError> {
    words.extend_from_slice(subject)?;
    words.extend_from_slice(&[Word::of_symbol(operator, address.at), address.after(b" ")])
}

/// Puts the test whether an expression is an address, or between two, behind others.
fn push_test<'a>(
    words: &mut Vec<Word<'a>>,
    subject: &[Word<'a>],
    low: Word<'a>,
    high: Option<Word<'a>>,
) -> Result<(), AllocError> {
    let Some(high) = high else {
        return push_compared(words, Symbol::Equal, subject, low);
    };
    words.extend_from_slice(&[Word::of_symbol(Symbol::LeftParen, low.at)])?;
    push_compared(words, Symbol::GreaterEqual, subject, low)?;
    words.extend_from_slice(&[Word::of_symbol(Symbol::And, low.at)])?;
    push_compared(words, Symbol::LessEqual, subject, high)?;
    words.extend_from_slice(&[Word::of_symbol(Symbol::RightParen, low.at)])
}

/// The address or the range at the front of a label, and the words behind it.
fn first_range<'w, 'a>(
    label: &'w [Word<'a>],
) -> Option<(Word<'a>, Option<Word<'a>>, &'w [Word<'a>])> {
    match label {
        [low, dots, high, behind @ ..] if dots.is(Symbol::DotDot) => {
            Some((*low, Some(*high), behind))
        }
        [only, behind @ ..] => Some((*only, None, behind)),
        [] => None,
    }
}

/// Puts the test of a label behind others.
fn push_tests<'a>(
    words: &mut Vec<Word<'a>>,
    subject: &[Word<'a>],
    label: &[Word<'a>],
) -> Result<(), AllocError> {
    let (_, mut rest) = label.split_at(0);
    for _ in 0..label.len() {
        let Some((low, high, behind)) = first_range(rest) else {
            break;
        };
        push_test(words, subject, low, high)?;
        match behind {
            [comma, others @ ..] if comma.is(Symbol::Comma) => {
                words.extend_from_slice(&[Word::of_symbol(Symbol::Or, low.at)])?;
                rest = others;
            }
            _ => break,
        }
    }
    Ok(())
}

/// Puts `else` with the other parts of a `case` behind others.
fn push_otherwise<'a>(
    words: &mut Vec<Word<'a>>,
    case: Case<'_, 'a>,
    head: Word<'a>,
) -> Result<(), AllocError> {
    let (before, after) = (case.parts.before, case.parts.after);
    if before.is_empty() && after.is_empty() {
        return Ok(());
    }
    let begin = Word::of_symbol(Symbol::Else, head.at);
    let open = Word::of_symbol(Symbol::LeftBrace, head.at);
    let close = Word::of_symbol(Symbol::RightBrace, head.at);
    match only_else(before, after) {
        Some(commands) => push_parts(words, &[&[begin, open], commands, &[close]]),
        None => push_parts(
            words,
            &[
                &[begin, head.after(b" ")],
                case.subject,
                &[open],
                before,
                after,
                &[close],
            ],
        ),
    }
}

/// The words of a `case` that is written by its first label.
fn taken<'a>(
    alloc: Global,
    case: Case<'_, 'a>,
    head: Word<'a>,
) -> Result<Vec<Word<'a>>, AllocError> {
    let begin = Word::of_symbol(Symbol::If, head.at).after(head.gap);
    let then = Word::of_symbol(Symbol::Then, head.at);
    let open = Word::of_symbol(Symbol::LeftBrace, head.at);
    let close = Word::of_symbol(Symbol::RightBrace, head.at);
    let mut words = Vec::from_slice(alloc, &[begin])?;
    push_tests(&mut words, case.subject, case.parts.label)?;
    push_parts(&mut words, &[&[then, open], case.parts.commands, &[close]])?;
    push_otherwise(&mut words, case, head)?;
    Ok(words)
}

/// The step that writes the `case` which begins at an index. In a condition it stands in braces first, so that no `else` behind it becomes
/// one of its own.
fn take<'a>(
    alloc: Global,
    words: &[Word<'a>],
    at: usize,
    case: Case<'_, 'a>,
    head: Word<'a>,
) -> Result<NextStep<'a>, AllocError>
    ensures { IfOk result (λ plan. IfSome (why_of_plan plan) (λ reason. reason ≡ why.CaseLabels)) }
{
    let is_braced = is_before(words, at, Symbol::Then) || is_at(words, case.to, Symbol::Else);
    let (rule, written) = if is_braced {
        let (open, close) = (Symbol::LeftBrace, Symbol::RightBrace);
        (
            Rule::CaseBraced,
            enclosed(alloc, open, case.words, close, head.after(b" ")),
        )
    } else {
        (Rule::CaseTaken, taken(alloc, case, head))
    };
    planned(rule, at, case.to, written, wrong_labels(head))
}

/// Why a `case` is not taken.
fn wrong_labels<'a>(head: Word<'a>) -> Reason<'a>
    ensures { result.why ≡ why.CaseLabels }
{
    Reason {
        at: head.at,
        why: Why::CaseLabels,
    }
}

/// Writes the first `case` of addresses by its first label.
pub(crate) fn plan_case<'a>(alloc: Global, words: &[Word<'a>]) -> Result<NextStep<'a>, AllocError>
    ensures { IfOk result (λ plan. IfSome (why_of_plan plan) (Hinder words.now)) }
{
    for at in 0..words.len() {
        if !is_at(words, at, Symbol::Case) {
            continue;
        }
        let head = words[at];
        if let Some(case) = case_at(words, at) {
            return take(alloc, words, at, case, head);
        }
        if is_of_addresses(words, at) {
            return Ok(NextStep::Stuck(wrong_labels(head)));
        }
    }
    Ok(NextStep::Done)
}
