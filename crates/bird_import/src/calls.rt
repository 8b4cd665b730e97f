//! Calls of functions: the function's commands or its value stand where it is called.

ghost use Rattle.std.specs.Prelude.{◌≡◌, ◌↔◌, ◌-◌, ◌<◌, ◌≤◌, ℕ, IfErr, IfOk, IfSome, IsTrue, List, None, codes, length, true};
ghost use Rattle.bird_import.specs.Indices.{IsForeignAt};
ghost use Rattle.bird_import.specs.Reasons.{why_of_call, why_of_plan};
ghost use Rattle.bird_import.specs.Stuck.{Hinder, Hinders, IsCallBy, IsCalled, IsFunctionNamed, IsFunctionOf, IsUsed, StandsBefore};
ghost use Rattle.bird_import.specs.declared.items.Item.{Item as TheItem};
ghost use Rattle.bird_import.specs.declared.word.Word.{Word as TheWord};

use crate::config::Config;
use crate::functions::{Decision, decision_of, function_of, is_between, value_of};
use crate::items::{Item, ItemKind};
use crate::reason::{Reason, Why, unwritten};
use crate::rules::split;
use crate::step::{Call, NextStep, Rule, enclosed, planned, push_parts};
use crate::word::{
    Word, begins_command, closing, find_outside, is_at, is_before, is_foreign_at, is_name_at,
    word_at,
};
use filter_tokens::Symbol;
use std::alloc::{AllocError, Global};

/// The word at an index, if it calls a function.
fn call_word<'a>(words: &[Word<'a>], at: usize) -> Option<Word<'a>>
    requires { at < length words.now }
    ensures { IfSome result (IsCallBy words.now at) }
{
    if is_name_at(words, at)
        && is_at(words, at.saturating_add(1), Symbol::LeftParen)
        && !is_before(words, at, Symbol::Dot)
    {
        word_at(words, at)
    } else {
        None
    }
}

/// The index and the word of the first call. The header of a function looks like one.
pub(crate) fn first_call<'a>(words: &[Word<'a>]) -> Option<(usize, Word<'a>)>
    ensures { IfSome result (λ call. IsCallBy words.now call.0 call.1) }
{
    let from = if is_foreign_at(words, 0, b"function") {
        2
    } else {
        0
    };
    for at in from..words.len() {
        if let Some(word) = call_word(words, at) {
            return Some((at, word));
        }
    }
    None
}

/// Whether an item is the function of a name.
fn is_function_named(item: &Item, name: &[u8]) -> bool
    ensures { IsTrue result ↔ IsFunctionNamed name.now item.now }
{
    item.kind == ItemKind::Function && item.name.as_slice() == name
}

/// The item at an index, if it is the function of a name.
fn function_at<'a>(config: &Config<'a>, at: usize, name: &[u8]) -> Option<&'a Item>
    ensures some { IfSome result (λ one. IsFunctionOf config.now name.now at one.now) }
    ensures none { result ≡ None → (one : TheItem) → IsFunctionOf config.now name.now at one → ⊥ }
{
    let item = config.items.get(at)?;
    if is_function_named(item, name) {
        Some(item)
    } else {
        None
    }
}

/// The first function of a name from an index on, and its index.
fn first_function<'a>(config: &Config<'a>, name: &[u8], from: usize) -> Option<(usize, &'a Item)>
    ensures some { IfSome result (λ found. (from ≤ found.0) × IsFunctionOf config.now name.now found.0 found.1.now) }
    ensures none { result ≡ None → (k : ℕ) → from ≤ k → k < length config.now.items.now → (one : TheItem) → IsFunctionOf config.now name.now k one → ⊥ }
{
    for at in from..config.items.len() {
        if let Some(item) = function_at(config, at, name) {
            return Some((at, item));
        }
    }
    None
}

/// The second function of a name, whose first one has an index.
fn second_function<'a>(config: &Config<'a>, name: &[u8], first: usize) -> Option<(usize, &'a Item)>
    ensures { IfSome result (λ found. (first < found.0) × IsFunctionOf config.now name.now found.0 found.1.now) }
{
    let from = first.checked_add(1)?;
    let (at, item) = first_function(config, name, from)?;
    Some((at, item))
}

/// The function of this name, if there is just one, and it ends before a place.
pub(crate) fn item_of<'a>(config: &Config<'a>, word: Word<'a>) -> Result<&'a Item, Reason<'a>>
    ensures ok { IfOk result (λ one. IsCalled config.now word.entry.bytes.now one.now) }
    ensures err { IfErr result (λ reason. (words : List TheWord) → IsUsed word.entry.bytes.now word.entry words → Hinders config.now words reason.why) }
{
    let Some((at, item)) = first_function(config, word.bytes, 0) else {
        return Err(Reason {
            at: word.at,
            why: Why::UnknownCall(word.bytes),
        });
    };
    if let Some(_second) = second_function(config, word.bytes, at) {
        return Err(Reason {
            at: word.at,
            why: Why::DefinedTwice(word.bytes),
        });
    }
    if ends_before(config, item, word.at) {
        return Ok(item);
    }
    Err(Reason {
        at: word.at,
        why: Why::DefinedLater(word.bytes),
    })
}

/// Whether an item ends before a place.
fn ends_before(config: &Config<'_>, item: &Item, at: usize) -> bool
    ensures { (item.now.is_closed ≡ true) × StandsBefore config.now (item.now.to - 1) at → IsTrue result }
{
    match config.words.get(item.to.saturating_sub(1)) {
        Some(last) => item.is_closed && last.at < at,
        None => false,
    }
}

/// The words of `return` with a value that is one of two, by a condition. The word `return` comes from the words that are left out, and what
/// is put in beside it from a place.
fn decided<'a>(
    alloc: Global,
    made: Decision<'_, 'a>,
    command: Word<'a>,
    at: usize,
) -> Result<Vec<Word<'a>>, AllocError> {
    let (open, close) = (
        Word::of_symbol(Symbol::LeftParen, at),
        Word::of_symbol(Symbol::RightParen, at),
    );
    let stop = Word::of_symbol(Symbol::Semicolon, at).after(b"");
    let (negation, operator) = if made.answer.is(Symbol::True) {
        (None, Symbol::Or)
    } else {
        (Some(Word::of_symbol(Symbol::Not, at)), Symbol::And)
    };
    let middle = [close, Word::of_symbol(operator, at), open];
    let mut words = Vec::from_slice(alloc, &[command])?;
    words.extend_from_slice(negation.as_slice())?;
    push_parts(
        &mut words,
        &[&[open], made.condition, &middle, made.other, &[close, stop]],
    )?;
    Ok(words)
}

/// The index behind the `return` that begins at an index, in braces or not.
fn return_end(words: &[Word<'_>], at: usize) -> Option<usize> {
    let end = if is_at(words, at, Symbol::LeftBrace) {
        closing(words, at.saturating_add(1))?
    } else {
        find_outside(words, at, Symbol::Semicolon)?
    };
    Some(end.saturating_add(1))
}

/// The index behind two commands that return, the first of them on a condition, which begin at an index.
fn decided_end(words: &[Word<'_>], at: usize) -> Option<usize> {
    let then = find_outside(words, at, Symbol::Then)?;
    let mut last = return_end(words, then.saturating_add(1))?;
    for _ in last..words.len() {
        if !(is_at(words, last, Symbol::Semicolon) || is_at(words, last, Symbol::Else)) {
            break;
        }
        last = last.saturating_add(1);
    }
    return_end(words, last)
}

/// The index of the first word from an index on that is `return`, if there is one.
fn first_return(words: &[Word<'_>], from: usize) -> Option<usize>
    ensures { IfSome result (λ k. (from ≤ k) × IsForeignAt (codes "return") words.now k) }
{
    for at in from..words.len() {
        if is_foreign_at(words, at, b"return") {
            return Some(at);
        }
    }
    None
}

/// Why a function cannot be put in place, if it has a `return` behind another one.
fn early_return<'a>(words: &[Word<'a>]) -> Option<Reason<'a>>
    ensures { IfSome result (λ reason. Hinder words.now reason.why) }
{
    let first = first_return(words, 0)?;
    first_return(words, first.checked_add(1)?)?;
    Some(Reason {
        at: word_at(words, first)?.at,
        why: Why::EarlyReturn,
    })
}

/// What decides between the two commands of a function that begin at an index, if they return, and the index behind them.
fn decision_at<'w, 'a>(words: &'w [Word<'a>], at: usize) -> Option<(Decision<'w, 'a>, usize)> {
    let to = decided_end(words, at)?;
    let made = decision_of(words.get(at..to)?)?;
    let (front, _) = split(words, at)?;
    let is_answer = made.answer.is(Symbol::True) || made.answer.is(Symbol::False);
    if is_answer && is_between(front, made.middle) {
        Some((made, to))
    } else {
        None
    }
}

/// The step that writes two commands of a function, which begin at an index, as one.
fn decide<'a>(
    alloc: Global,
    words: &[Word<'a>],
    made: Decision<'_, 'a>,
    at: usize,
    to: usize,
) -> Result<NextStep<'a>, AllocError>
    ensures { IfOk result (λ plan. IfSome (why_of_plan plan) (Hinder words.now)) }
{
    let Some(index) = first_return(words, at) else {
        return Ok(NextStep::Done);
    };
    let (Some(head), Some(command)) = (word_at(words, at), word_at(words, index)) else {
        return Ok(NextStep::Done);
    };
    let written = decided(alloc, made, command, head.at);
    planned(Rule::Returned, at, to, written, unwritten(command.at))
}

/// Writes the first two commands of a function as one that return one value or another by a condition.
pub(crate) fn plan_return<'a>(alloc: Global, words: &[Word<'a>]) -> Result<NextStep<'a>, AllocError>
    ensures { IfOk result (λ plan. IfSome (why_of_plan plan) (Hinder words.now)) }
{
    if !is_foreign_at(words, 0, b"function") {
        return Ok(NextStep::Done);
    }
    for at in 0..words.len() {
        if is_at(words, at, Symbol::If) {
            if let Some((made, to)) = decision_at(words, at) {
                return decide(alloc, words, made, at, to);
            }
        }
    }
    match early_return(words) {
        Some(reason) => Ok(NextStep::Stuck(reason)),
        None => Ok(NextStep::Done),
    }
}

/// What stands for a call.
#[derive(Clone, Copy)]
struct Placed<'w, 'a> {
    /// The commands of the function, or what it returns.
    inner: &'w [Word<'a>],
    /// The symbol before that: a brace before commands, and a parenthesis before a value.
    open: Symbol,
    /// The symbol behind it.
    close: Symbol,
    /// The index behind the call.
    to: usize,
}

/// What stands for the call at an index of the function of a name: as a command the function's commands, in braces, and as a value what it
/// returns, in parentheses.
fn placed_at<'w, 'a>(
    words: &[Word<'a>],
    at: usize,
    name: &[u8],
    function: &'w [Word<'a>],
) -> Option<Placed<'w, 'a>> {
    let body = function_of(name, function)?.body;
    let to = at.saturating_add(3);
    if begins_command(words, at) && is_at(words, to, Symbol::Semicolon) {
        return Some(Placed {
            inner: body,
            open: Symbol::LeftBrace,
            close: Symbol::RightBrace,
            to: to.saturating_add(1),
        });
    }
    Some(Placed {
        inner: value_of(body)?,
        open: Symbol::LeftParen,
        close: Symbol::RightParen,
        to,
    })
}

/// Why nothing stands for the call at an index.
fn stuck_at<'a>(words: &[Word<'a>], at: usize, call: Word<'a>) -> Reason<'a>
    requires { IsCallBy words.now at call }
    ensures { Hinder words.now result.why }
{
    if is_at(words, at.saturating_add(2), Symbol::RightParen) {
        Reason {
            at: call.at,
            why: Why::FunctionShape(call.bytes),
        }
    } else {
        Reason {
            at: call.at,
            why: Why::FunctionArguments(call.bytes),
        }
    }
}

/// What stands for the call at an index of a function whose words have become others, or why there is nothing.
pub(crate) fn call_at<'a>(
    alloc: Global,
    words: &[Word<'a>],
    at: usize,
    call: Word<'a>,
    function: &[Word<'a>],
) -> Result<Result<Call<'a>, Reason<'a>>, AllocError>
    requires { IsCallBy words.now at call }
    ensures { IfOk result (λ made. Hinder words.now (why_of_call made)) }
{
    let stuck = stuck_at(words, at, call);
    match placed_at(words, at, call.bytes, function) {
        Some(made) if matches!(stuck.why, Why::FunctionShape(_)) => Ok(Ok(Call {
            from: at,
            to: made.to,
            words: enclosed(alloc, made.open, made.inner, made.close, call)?,
            stuck,
        })),
        _ => Ok(Err(stuck)),
    }
}
