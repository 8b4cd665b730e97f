//! Declarations: they stand before the body, and a value that they have is assigned where they stood.

ghost use Rattle.std.specs.Prelude.{◌≡◌, ◌↔◌, ◌<◌, ℕ, IfOk, IfSome, IsTrue, None, length, true};
ghost use Rattle.bird_import.specs.Indices.{IsNameAt, bytes_at, kind_at};
ghost use Rattle.bird_import.specs.Reasons.{HaveNoValue, HaveValues, IsNameBehind, LacksValue, why_of_plan};
ghost use Rattle.bird_import.specs.Rules as rule;
ghost use Rattle.bird_import.specs.Stuck.{HasValue, Hinder};
ghost use Rattle.bird_import.specs.declared.reason.Why.TheVariants as why;

use crate::outline::first_block;
use crate::reason::{Reason, Why, unwritten};
use crate::rules::is_kind;
use crate::step::{NextStep, Rule, joined, planned};
use crate::word::{Word, is_at, is_foreign_at, is_name_at, kind_at, word_at};
use filter_tokens::Symbol;
use std::alloc::{AllocError, Global};

/// Whether a kind stands at an index, and the name of a variable at another.
fn declares(words: &[Word<'_>], at: usize, name: usize) -> bool
    ensures { IsTrue result ↔ (rule.is_kind (kind_at words.now at) ≡ true) × IsNameAt words.now name }
{
    is_kind(kind_at(words, at)) && is_name_at(words, name)
}

/// The index of the name of a variable whose kind stands at an index: before it may be `set`.
fn name_behind(words: &[Word<'_>], at: usize) -> usize
    requires { at < length words.now }
    ensures { IsNameBehind words.now at result }
{
    let is_set = is_foreign_at(words, at.saturating_add(1), b"set");
    at.saturating_add(if is_set { 2 } else { 1 })
}

/// The first variable that a body declares without a value: BIRD 2.0.12 ends each run there.
#[tactic(auto, using(crate::proofs::Judged::values_given))]
pub(crate) fn first_without_value<'a>(words: &[Word<'a>]) -> Option<Reason<'a>>
    ensures some { IfSome result (λ reason. HaveNoValue words.now reason.why) }
    ensures none { result ≡ None → HaveValues words.now }
{
    let open = first_block(words, 0)?;
    for at in open..words.len() {
        if let Some(name) = without_value(words, at) {
            return Some(Reason {
                at: name.at,
                why: Why::NoValue(name.bytes),
            });
        }
    }
    None
}

/// The name of the variable whose kind stands at an index, if it is declared there without a value.
fn without_value<'a>(words: &[Word<'a>], at: usize) -> Option<Word<'a>>
    requires { at < length words.now }
    ensures some { IfSome result (λ name. (n : ℕ) × LacksValue words.now at n × (bytes_at words.now n ≡ name.bytes.now)) }
    ensures none { result ≡ None → (n : ℕ) → LacksValue words.now at n → ⊥ }
{
    let name = name_behind(words, at);
    if declares(words, at, name) && is_at(words, name.saturating_add(1), Symbol::Semicolon) {
        word_at(words, name)
    } else {
        None
    }
}

/// The index of the first declaration with a value in a body that begins behind a brace.
fn first_valued(words: &[Word<'_>], open: usize) -> Option<usize>
    ensures { IfSome result (λ at. HasValue words.now at) }
{
    for at in open..words.len() {
        if declares(words, at, at.saturating_add(1))
            && is_at(words, at.saturating_add(2), Symbol::Equal)
        {
            return Some(at);
        }
    }
    None
}

/// The step that moves the declaration at an index before the brace at another. What is left where it stood is the assignment of its value.
fn hoist<'a>(
    alloc: Global,
    words: &[Word<'a>],
    open: usize,
    at: usize,
) -> Result<NextStep<'a>, AllocError>
    ensures { IfOk result (λ plan. IfSome (why_of_plan plan) (λ reason. reason ≡ why.Unwritten)) }
{
    let to = at.saturating_add(3);
    let (Some([kind, name, equal]), Some(before)) = (words.get(at..to), words.get(open..at)) else {
        return Ok(NextStep::Done);
    };
    let stop = Word::of_symbol(Symbol::Semicolon, name.at).after(b"");
    let declared = [kind.after(b" "), *name, stop];
    let written = joined(alloc, &declared, before, &[name.after(kind.gap), *equal]);
    planned(Rule::Declared, open, to, written, unwritten(kind.at))
}

/// Moves the first declaration that has a value.
pub(crate) fn plan_declaration<'a>(
    alloc: Global,
    words: &[Word<'a>],
) -> Result<NextStep<'a>, AllocError>
    ensures { IfOk result (λ plan. IfSome (why_of_plan plan) (Hinder words.now)) }
{
    let Some(open) = first_block(words, 0) else {
        return Ok(NextStep::Done);
    };
    match first_valued(words, open) {
        Some(at) => hoist(alloc, words, open, at),
        None => Ok(NextStep::Done),
    }
}
