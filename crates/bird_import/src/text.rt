//! The text of a filter, from its words.
ghost use Rattle.std.specs.Prelude.{◌≡◌, ◌≢◌, ℕ, ◌↔◌, ◌++◌, [], ◌∷◌, IfOk, IsTrue, None, OnOk, length};
ghost use Rattle.filter_tokens.specs.Shapes.{line_feed};
ghost use Rattle.filter_tokens.specs.Tokenization.{AreInOrder};
ghost use Rattle.bird_import.specs.Alike.{AreAlike};
ghost use Rattle.bird_import.specs.Indices.{IsNamedAt};
ghost use Rattle.bird_import.specs.Laying as spec;
ghost use Rattle.bird_import.specs.Spelling.{IsSpelled, LiesIn};
ghost use Rattle.bird_import.specs.Texts.{HasOutcome};

use crate::unset::first_unset;
use crate::word::{Word, WordKind, is_named_at};
use filter_parser::{ParseFault, Unparsed, parse_explained};
use filter_tokens::Token;
use std::alloc::{AllocError, Global};

/// Where a word of a filter's text comes from.
#[derive(Clone, Copy)]
pub struct Origin {
    /// The place of its first byte in the filter's text.
    pub from: usize,
    /// The place that it comes from in the configuration.
    pub at: usize,
}

/// What becomes of a text that was written for some words.
#[derive(Clone, Copy)]
pub enum TextOutcome {
    /// It is a filter, and its tokens are the words that it was written for.
    Taken,
    /// It is no filter.
    Refused(Unparsed),
    /// It is a filter of other words.
    Garbled,
    /// It is a filter that may read a variable before it is assigned, by the word at this index.
    Unset(usize),
}

/// The text of a filter.
#[derive(Drop)]
pub struct FilterText {
    /// The text.
    pub text: Vec<u8>,
    /// Where its words come from, in order.
    pub origins: Vec<Origin>,
    /// What becomes of it.
    pub text_outcome: TextOutcome,
}

/// The space and comments before the first word of a filter, without the space in front.
fn without_front(gap: &[u8]) -> &[u8]
    ensures { result.now ≡ spec.without_front gap.now }
{
    gap.trim_ascii_start()
}

/// Whether a word stands right behind another in the configuration.
fn is_joined(last: Word<'_>, word: Word<'_>) -> bool
    ensures { result ≡ spec.is_joined last.entry word.entry }
{
    last.at.checked_add(last.bytes.len()) == Some(word.at)
}

/// Whether a word needs no space before it.
fn is_tight(word: Word<'_>) -> bool
    ensures { result ≡ spec.is_tight word.entry }
{
    word.bytes == b";".as_slice() || word.bytes == b")".as_slice() || word.bytes == b",".as_slice()
}

/// What stands before a word, behind the last one.
fn gap_before<'a>(last: Option<Word<'_>>, word: Word<'a>) -> &'a [u8]
    ensures { result.now ≡ spec.gap_before last.entry word.entry }
{
    match last {
        Some(last) if word.gap.is_empty() && !is_joined(last, word) && !is_tight(word) => b" ",
        Some(_) => word.gap,
        None => without_front(word.gap),
    }
}

/// Puts words behind the head of a text.
fn push_text(
    alloc: Global,
    text: &mut Vec<u8>,
    words: &[Word<'_>],
) -> Result<Vec<Origin>, AllocError>
    ensures text { OnOk result (text.new.items ≡ text.old.items ++ spec.text_behind None words.now ++ line_feed ∷ []) }
    ensures origins { IfOk result (λ origins. origins.items ≡ spec.origins_behind (length text.old.items) None words.now) }
{
    let mut origins = Vec::new(alloc);
    let mut last = None;
    for word in words {
        text.extend_from_slice(gap_before(last, *word))?;
        let from = text.len();
        origins.push(Origin { from, at: word.at })?;
        text.extend_from_slice(word.bytes)?;
        last = Some(*word);
    }
    text.push(b'\n')?;
    Ok(origins)
}

/// Whether a token of a text is this word.
fn is_word(text: &[u8], token: &Token, word: &Word<'_>) -> bool
    requires { LiesIn (length text.now) token.now }
    ensures { IsTrue result ↔ IsSpelled text.now token.now word.now }
{
    word.kind == WordKind::of(token.word) && word.bytes == &text[token.from..token.to]
}

/// Whether the tokens of a text are these words.
fn are_words(text: &[u8], tokens: &[Token], words: &[Word<'_>]) -> bool
    requires { AreInOrder 0 tokens.now (length text.now) }
    ensures { IsTrue result ↔ AreAlike (IsSpelled text.now) tokens.now words.now }
{
    if tokens.len() != words.len() {
        return false;
    }
    for at in 0..tokens.len() {
        let (token, word) = (tokens[at], words[at]);
        if !is_word(text, &token, &word) {
            return false;
        }
    }
    true
}

/// What becomes of a text that the parser refuses.
fn refused_outcome(why: Unparsed) -> Result<TextOutcome, AllocError>
    ensures { IfOk result (λ text_outcome. (text_outcome ≡ TextOutcome.Refused why) × (why.fault ≢ ParseFault.Memory)) }
{
    match why.fault {
        ParseFault::Memory => Err(AllocError),
        _ => Ok(TextOutcome::Refused(why)),
    }
}

/// Whether a token begins at a byte of the text or before it.
fn begins_by(tokens: &[Token], at: usize, byte: usize) -> bool {
    match tokens.get(at) {
        Some(token) => token.from <= byte,
        None => false,
    }
}

/// The index of a word that is this name: of the one that begins at a byte of the text.
fn index_of_name(tokens: &[Token], words: &[Word<'_>], name: &[u8], byte: usize) -> usize
    requires { (k : ℕ) × IsNamedAt name.now words.now k }
    ensures { IsNamedAt name.now words.now result }
{
    let mut found = None;
    for at in 0..words.len() {
        // The last one up to that byte; only where the tree had a place that is no word's own could it be another one.
        if is_named_at(words, at, name) && (found.is_none() || begins_by(tokens, at, byte)) {
            found = Some(at);
        }
    }
    found.unwrap_or(0)
}

/// What becomes of a text that was written for some words.
fn judge(alloc: Global, text: &[u8], words: &[Word<'_>]) -> Result<TextOutcome, AllocError>
    ensures { IfOk result (HasOutcome words.now text.now) }
{
    let filter = match parse_explained(alloc, text) {
        Ok(filter) => filter,
        Err(why) => return refused_outcome(why),
    };
    if !are_words(text, filter.tokens(), words) {
        return Ok(TextOutcome::Garbled);
    }
    match first_unset(&filter) {
        Some(unset) => {
            let name = filter.decls()[unset.variable].name.as_slice();
            let tokens = filter.tokens();
            Ok(TextOutcome::Unset(index_of_name(tokens, words, name, unset.at)))
        }
        None => Ok(TextOutcome::Taken),
    }
}

/// Writes a filter: a head, which is comments, and its words with the comments that they had.
pub fn write_filter(
    alloc: Global,
    head: &[u8],
    words: &[Word<'_>],
) -> Result<FilterText, AllocError>
    ensures text { IfOk result (λ written. written.text.items ≡ spec.text_of head.now words.now) }
    ensures origins { IfOk result (λ written. written.origins.items ≡ spec.origins_of head.now words.now) }
    ensures text_outcome { IfOk result (λ written. HasOutcome words.now written.text.items written.text_outcome) }
{
    let mut text = Vec::from_slice(alloc, head)?;
    let origins = push_text(alloc, &mut text, words)?;
    let text_outcome = judge(alloc, text.as_slice(), words)?;
    Ok(FilterText {
        text,
        origins,
        text_outcome,
    })
}

/// The place of a configuration from which a byte of a filter's text comes.
pub fn origin_of(origins: &[Origin], byte: usize) -> Option<usize>
    ensures { result ≡ spec.origin_of origins.now byte }
{
    let mut found = None;
    for origin in origins {
        if origin.from <= byte {
            found = Some(origin.at);
        }
    }
    found
}
