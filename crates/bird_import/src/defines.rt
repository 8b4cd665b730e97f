//! Defined names: the definition stands where the name is used.
//!
//! **A definition stands before what it is used for by the places of the text.** The name that is replaced may itself come from a definition, and
//! has its own place there. So places go down with each replacement, a definition in a circle needs no rule of its own, and what is defined too
//! late is so at any depth.
//!
//! **A definition is put in as its words, and not computed.** BIRD computes `define FAR = 2 + 3;` where it stands, and takes `FAR` wherever a
//! constant may be. Here `( 2 + 3 )` is put in, which is the same in an expression. In a set, a label or a mask nothing is computed, so a filter
//! that has such a name there is left out.
ghost use Rattle.std.specs.Prelude.{◌≡◌, ◌≢◌, ◌↔◌, ◌*◌, ◌<◌, ℕ, [], ◌∷◌, List, IfErr, IfOk, IfSome, IsTrue, None, OnOk, Some, length, slice_get};
ghost use Rattle.bird_import.specs.Indices.{IsNameAt};
ghost use Rattle.bird_import.specs.Names.{KnowsAll};
ghost use Rattle.bird_import.specs.Reasons.{IsVariable, IsVariableAt, why_of_plan};
ghost use Rattle.bird_import.specs.Rules.{IsDefined, IsPlaced};
ghost use Rattle.bird_import.specs.Steps.{Becomes};
ghost use Rattle.bird_import.specs.Conversions.{IsDefinedHere};
ghost use Rattle.bird_import.specs.Stuck.{AreApart, Hinders, IsDefinedName, IsDefinition, IsUsed, StandsBefore};

use crate::config::Config;
use crate::items::Definition;
use crate::names::{Names, look_up};
use crate::reason::{Reason, Why};
use crate::rules::{is_defined, is_kind, is_one_operand};
use crate::step::{NextStep, RewriteStep, Rule, enclosed, joined};
use crate::word::{
    Word, WordKind, is_at, is_before, is_foreign_at, is_name_at, is_named_at, kind_at, word_at,
};
use filter_tokens::Symbol;
use std::alloc::{AllocError, Global};

/// The most words of a filter: each has a byte.
pub const WORD_LIMIT: usize = 65_536;

/// The most words that the steps of a filter go through: their number times that of the words that are there.
const WORK_LIMIT: u64 = 33_554_432;

/// Whether so many steps that go through so many words are too much.
pub(crate) fn is_much(made: usize, words: usize) -> bool
    ensures { IsTrue result → 33554432 < made * words }
{
    (made as u64).saturating_mul(words as u64) > WORK_LIMIT
}

/// Whether a name is declared at an index.
pub(crate) fn declares(words: &[Word<'_>], at: usize, name: &[u8]) -> bool
    ensures { IsTrue result ↔ IsVariableAt name.now words.now at }
{
    at > 0
        && is_named_at(words, at, name)
        && (is_kind(kind_at(words, at - 1)) || is_foreign_at(words, at - 1, b"set"))
}

/// Whether a name is declared among some words.
pub(crate) fn is_declared(words: &[Word<'_>], name: &[u8]) -> bool
    ensures { IsTrue result ↔ IsVariable name.now words.now }
{
    for at in 0..words.len() {
        if declares(words, at, name) {
            return true;
        }
    }
    false
}

/// Whether a name is defined.
#[tactic(auto, using(crate::proofs::Noted::never_defined, crate::proofs::Noted::once_defined, crate::proofs::Noted::twice_defined))]
fn is_defined_name(config: &Config<'_>, names: &Names, name: &[u8]) -> bool
    requires { KnowsAll config.now names.now }
    ensures { IsTrue result ↔ IsDefinedName config.now name.now }
{
    match look_up(config, names, name) {
        NameDefinition::Never => false,
        NameDefinition::Once(_) => true,
        NameDefinition::Twice => true,
    }
}

/// The word at an index, if a variable is declared there that has the name of a definition.
fn two_meanings_at<'a>(
    config: &Config<'a>,
    names: &Names,
    words: &[Word<'a>],
    at: usize,
) -> Option<Word<'a>>
    requires { KnowsAll config.now names.now }
    ensures some { IfSome result (λ word. IsVariableAt word.bytes.now words.now at × IsDefinedName config.now word.bytes.now) }
    ensures none { result ≡ None → (name : List ℕ) → IsVariableAt name words.now at → IsDefinedName config.now name → ⊥ }
{
    let word = word_at(words, at)?;
    if declares(words, at, word.bytes) && is_defined_name(config, names, word.bytes) {
        Some(word)
    } else {
        None
    }
}

/// The first variable among some words that has the name of a definition: what the name means depends on where it stands.
pub(crate) fn first_of_two_meanings<'a>(
    config: &Config<'a>,
    names: &Names,
    words: &[Word<'a>],
) -> Option<Reason<'a>>
    requires { KnowsAll config.now names.now }
    ensures some { IfSome result (λ reason. Hinders config.now words.now reason.why) }
    ensures none { result ≡ None → AreApart config.now words.now }
{
    for at in 0..words.len() {
        if let Some(word) = two_meanings_at(config, names, words, at) {
            return Some(Reason {
                at: word.at,
                why: Why::TwoMeanings(word.bytes),
            });
        }
    }
    None
}

/// Whether the word at an index is a name that may be a defined one: neither that of the filter, nor one behind a dot or before
/// parentheses.
fn may_be_defined(words: &[Word<'_>], at: usize) -> bool
    ensures { IsTrue result → IsNameAt words.now at }
{
    is_name_at(words, at)
        && !is_before(words, at, Symbol::Dot)
        && !is_before(words, at, Symbol::Filter)
        && !is_at(words, at.saturating_add(1), Symbol::LeftParen)
}

/// What a name is defined as.
#[derive(Clone, Copy)]
pub enum NameDefinition {
    /// By this definition.
    Once(Definition),
    /// By two of them.
    Twice,
    /// By none.
    Never,
}

/// What is found of a name with a further definition of it.
pub(crate) fn found_again(found: NameDefinition, definition: Definition) -> NameDefinition
    ensures first { found ≡ NameDefinition.Never → result ≡ NameDefinition.Once definition }
    ensures second { found ≢ NameDefinition.Never → result ≡ NameDefinition.Twice }
{
    match found {
        NameDefinition::Never => NameDefinition::Once(definition),
        NameDefinition::Once(_) | NameDefinition::Twice => NameDefinition::Twice,
    }
}

/// The words of a value where a word stood.
#[tactic(auto, using(crate::proofs::Placed::as_it_is, crate::proofs::Placed::in_parentheses))]
fn placed<'a>(
    alloc: Global,
    value: &[Word<'a>],
    word: Word<'a>,
) -> Result<Vec<Word<'a>>, AllocError>
    ensures { IfOk result (λ words. IsPlaced value.now words.items) }
{
    match value {
        [first, others @ ..] if is_one_operand(value) => {
            joined(alloc, &[first.after(word.gap)], others, &[])
        }
        _ => enclosed(alloc, Symbol::LeftParen, value, Symbol::RightParen, word),
    }
}

/// How many brackets are open behind a word, where so many are before it.
fn brackets_behind(depth: usize, word: Word<'_>) -> usize {
    if word.is(Symbol::LeftBracket) {
        depth.saturating_add(1)
    } else if word.is(Symbol::RightBracket) {
        depth.saturating_sub(1)
    } else {
        depth
    }
}

/// How many brackets are open before the word at an index.
fn open_brackets(words: &[Word<'_>], at: usize) -> usize {
    let mut depth = 0usize;
    for word in words.iter().take(at) {
        depth = brackets_behind(depth, *word);
    }
    depth
}

/// Whether the word at an index belongs to a label of a `case`: from it on there are constants, which may stand in parentheses, and a `:`.
fn is_in_label(words: &[Word<'_>], at: usize) -> bool {
    for next in at..words.len() {
        match words[next].kind {
            WordKind::Symbol(Symbol::Colon) => return true,
            WordKind::Name
            | WordKind::Number
            | WordKind::Address(_)
            | WordKind::Symbol(Symbol::Comma | Symbol::DotDot | Symbol::RightParen) => {}
            _ => return false,
        }
    }
    false
}

/// Whether the word at an index is the argument of `.mask`.
fn is_masked(words: &[Word<'_>], at: usize) -> bool {
    match (at.checked_sub(2), at.checked_sub(3)) {
        (Some(mask), Some(dot)) => {
            is_before(words, at, Symbol::LeftParen)
                && is_named_at(words, mask, b"mask")
                && is_at(words, dot, Symbol::Dot)
        }
        _ => false,
    }
}

/// Whether only one word can stand at an index: in a set, a label or a mask, where nothing is computed.
fn wants_one_word(words: &[Word<'_>], at: usize, is_in_brackets: bool) -> bool {
    is_in_brackets || is_in_label(words, at) || is_masked(words, at)
}

/// Whether a definition ends before a place.
fn ends_before(config: &Config<'_>, definition: Definition, at: usize) -> bool
    ensures { StandsBefore config.now definition.to at → IsTrue result }
{
    match config.words.get(definition.to) {
        Some(end) => end.at < at,
        None => false,
    }
}

/// The words of a definition that stand in the place of the name at an index, or why they cannot.
fn value_for<'a>(
    config: &Config<'a>,
    words: &[Word<'a>],
    definition: Definition,
    word: Word<'a>,
    at: usize,
    is_in_brackets: bool,
) -> Result<&'a [Word<'a>], Why<'a>>
    requires used { IsUsed word.bytes.now word words.now }
    requires defined { (i : ℕ) × (i < length config.now.definitions.now) × IsDefinition config.now word.bytes.now i definition }
    ensures { IfErr result (Hinders config.now words.now) }
{
    if !ends_before(config, definition, word.at) {
        return Err(Why::DefinedLater(word.bytes));
    }
    match config.words.get(definition.from..definition.to) {
        None | Some([]) => Err(Why::Unknown(word.bytes)),
        Some(value) if is_one_operand(value) || !wants_one_word(words, at, is_in_brackets) => {
            Ok(value)
        }
        Some(_) => Err(Why::OneWord(word.bytes)),
    }
}

/// The step that puts a definition in the place of the name at an index.
fn place<'a>(
    alloc: Global,
    config: &Config<'a>,
    words: &[Word<'a>],
    definition: Definition,
    word: Word<'a>,
    at: usize,
) -> Result<NextStep<'a>, AllocError>
    requires used { IsUsed word.bytes.now word words.now }
    requires defined { (i : ℕ) × (i < length config.now.definitions.now) × IsDefinition config.now word.bytes.now i definition }
    ensures { IfOk result (λ plan. IfSome (why_of_plan plan) (Hinders config.now words.now)) }
{
    let is_in_brackets = open_brackets(words, at) > 0;
    match value_for(config, words, definition, word, at, is_in_brackets) {
        Ok(value) => Ok(NextStep::Step(RewriteStep {
            rule: Rule::Defined,
            origin: definition.name.saturating_sub(1),
            from: at,
            to: at.saturating_add(1),
            words: placed(alloc, value, word)?,
            stuck: Reason {
                at: word.at,
                why: Why::Unknown(word.bytes),
            },
        })),
        Err(why) => Ok(NextStep::Stuck(Reason { at: word.at, why })),
    }
}

/// Puts the definition of the first defined name in its place.
pub(crate) fn plan_definition<'a>(
    alloc: Global,
    config: &Config<'a>,
    names: &Names,
    words: &[Word<'a>],
) -> Result<NextStep<'a>, AllocError>
    requires names { KnowsAll config.now names.now }
    ensures { IfOk result (λ plan. IfSome (why_of_plan plan) (Hinders config.now words.now)) }
{
    for at in 0..words.len() {
        if !may_be_defined(words, at) {
            continue;
        }
        let Some(word) = word_at(words, at) else {
            continue;
        };
        match look_up(config, names, word.bytes) {
            NameDefinition::Never => {}
            NameDefinition::Once(definition) => return place(
                alloc, config, words, definition, word, at,
            ),
            NameDefinition::Twice => return Ok(NextStep::Stuck(Reason {
                at: word.at,
                why: Why::DefinedTwice(word.bytes),
            })),
        }
    }
    Ok(NextStep::Done)
}

/// What a name at an index is defined as, as it stands in its place, if it is defined and that can stand there.
fn value_at<'a>(
    alloc: Global,
    config: &Config<'a>,
    names: &Names,
    words: &[Word<'a>],
    at: usize,
    word: Word<'a>,
    is_in_brackets: bool,
) -> Result<Option<Vec<Word<'a>>>, AllocError>
    requires names { KnowsAll config.now names.now }
    requires there { slice_get words.now at ≡ Some word }
    ensures { IfOk result (λ found. IfSome found (λ value. IsDefined config.now.words.now (word.entry ∷ []) value.items)) }
{
    if !may_be_defined(words, at) {
        return Ok(None);
    }
    let NameDefinition::Once(definition) = look_up(config, names, word.bytes) else {
        return Ok(None);
    };
    let Ok(value) = value_for(config, words, definition, word, at, is_in_brackets) else {
        return Ok(None);
    };
    let origin = definition.name.saturating_sub(1);
    let value = placed(alloc, value, word)?;
    if is_defined(config.words, origin, &[word], value.as_slice()) {
        Ok(Some(value))
    } else {
        Ok(None)
    }
}

/// Puts the word at an index behind others, or what it is defined as. Whether the latter is done.
fn push_defined<'a>(
    alloc: Global,
    config: &Config<'a>,
    names: &Names,
    words: &[Word<'a>],
    at: usize,
    word: Word<'a>,
    is_in_brackets: bool,
    done: &mut Vec<Word<'a>>,
) -> Result<bool, AllocError>
    requires names { KnowsAll config.now names.now }
    requires there { slice_get words.now at ≡ Some word }
    ensures { OnOk result (IsDefinedHere config.now.words.now word.entry done.old.items done.new.items) }
{
    let value = if done.len() > WORD_LIMIT {
        None
    } else {
        value_at(alloc, config, names, words, at, word, is_in_brackets)?
    };
    match value {
        Some(value) => {
            done.extend_from_slice(value.as_slice())?;
            Ok(true)
        }
        None => {
            done.push(word)?;
            Ok(false)
        }
    }
}

/// The words with the definition of each name in its place, of those that stand there, until there are too many words. Whether there is one.
fn define_each<'a>(
    alloc: Global,
    config: &Config<'a>,
    names: &Names,
    words: &[Word<'a>],
) -> Result<(Vec<Word<'a>>, bool), AllocError>
    requires names { KnowsAll config.now names.now }
    ensures { IfOk result (λ found. (depth : ℕ) → Becomes config.now.words.now depth words.now found.0.items) }
{
    let mut done = Vec::new(alloc);
    let mut brackets = 0usize;
    let mut is_any = false;
    for at in 0..words.len() {
        let word = words[at];
        let is_in = brackets > 0;
        let is_defined = push_defined(alloc, config, names, words, at, word, is_in, &mut done)?;
        is_any = is_any || is_defined;
        brackets = brackets_behind(brackets, word);
    }
    Ok((done, is_any))
}

/// The words with all definitions in place that can be, until there are too many of them, or too many were gone through. A definition speaks of
/// those before it alone, so there are no more rounds than definitions.
pub(crate) fn define_all<'a>(
    alloc: Global,
    config: &Config<'a>,
    names: &Names,
    words: Vec<Word<'a>>,
) -> Result<Vec<Word<'a>>, AllocError>
    requires names { KnowsAll config.now names.now }
    ensures { IfOk result (λ after. (depth : ℕ) → Becomes config.now.words.now depth words.entry.items after.items) }
{
    let mut words = words;
    let mut made = 0usize;
    for _ in config.definitions {
        if words.len() > WORD_LIMIT || is_much(made, words.len()) {
            return Ok(words);
        }
        made = made.saturating_add(1);
        let (after, is_any) = define_each(alloc, config, names, words.as_slice())?;
        words = after;
        if !is_any {
            return Ok(words);
        }
    }
    Ok(words)
}
