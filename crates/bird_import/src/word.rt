//! The words of a configuration.
ghost use Rattle.std.specs.Prelude.{◌≡◌, ◌↔◌, ◌+◌, ◌-◌, ◌^◌, ◌<◌, ◌≤◌, IfSome, IsTrue, length, slice_get};
ghost use Rattle.bird_import.specs.Indices as spec;
ghost use Rattle.bird_import.specs.Items as items;
ghost use Rattle.bird_import.specs.Rules.{closes as spec_closes};
ghost use Rattle.bird_import.specs.Stuck.{BeginsCommandAt};
ghost use Rattle.bird_import.specs.declared.word.WordKind.TheVariants as kind;

use crate::rules::{closes, ends_command, opens};
use filter_tokens::{Symbol, TokenKind};
use prefix_patterns::Ip;

/// What a word of a configuration is.
#[derive(Clone, Copy, PartialEq, Eq)]
pub enum WordKind {
    /// A name of the filter language.
    Name,
    /// A number.
    Number,
    /// An address.
    Address(u32),
    /// A prefix.
    Prefix,
    /// A text in double quotes.
    Text,
    /// A keyword or a punctuator.
    Symbol(Symbol),
    /// A word or a character that only BIRD's configurations have.
    Foreign,
    /// A byte that begins no word at all.
    Strange,
}

impl WordKind {
    ghost use Rattle.bird_import.specs.Spelling.{kind_of};

    /// What a token of the filter language is.
    pub fn of(kind: TokenKind) -> WordKind
        ensures { result ≡ kind_of kind }
    {
        match kind {
            TokenKind::Name => WordKind::Name,
            TokenKind::Number(_) => WordKind::Number,
            TokenKind::Address(Ip(number)) => WordKind::Address(number),
            TokenKind::Prefix { .. } => WordKind::Prefix,
            TokenKind::Text => WordKind::Text,
            TokenKind::Symbol(symbol) => WordKind::Symbol(symbol),
        }
    }
}

/// A word of a configuration, or one that stands for such a word in a filter.
#[derive(Clone, Copy)]
pub struct Word<'a> {
    /// What it is.
    pub kind: WordKind,
    /// Its bytes.
    pub bytes: &'a [u8],
    /// The place of its first byte in the configuration. That of a word which was put in is the place of the word beside it.
    pub at: usize,
    /// The space and the comments before it.
    pub gap: &'a [u8],
}

impl<'a> Word<'a> {
    ghost use Rattle.bird_import.specs.Rules.{IsForeign, IsNamed, IsSame};

    /// A keyword or punctuator that is put in beside a place.
    pub fn of_symbol(symbol: Symbol, at: usize) -> Word<'a>
        ensures { result.kind ≡ kind.Symbol symbol }
    {
        Word {
            kind: WordKind::Symbol(symbol),
            bytes: symbol.text().as_bytes(),
            at,
            gap: b" ",
        }
    }

    /// A name that is put in beside a place.
    pub fn named(name: &'a [u8], at: usize) -> Word<'a>
        ensures { IsNamed name.now result }
    {
        Word {
            kind: WordKind::Name,
            bytes: name,
            at,
            gap: b" ",
        }
    }

    /// The same word with other space before it.
    pub fn after(self, gap: &'a [u8]) -> Word<'a>
        ensures { IsSame self.entry result }
    {
        Word {
            kind: self.kind,
            bytes: self.bytes,
            at: self.at,
            gap,
        }
    }

    /// Whether it is this keyword or punctuator.
    pub fn is(self, symbol: Symbol) -> bool
        ensures { IsTrue result ↔ (self.entry.kind ≡ kind.Symbol symbol) }
    {
        self.kind == WordKind::Symbol(symbol)
    }

    /// Whether it is a byte that begins no word.
    pub fn is_strange(self) -> bool
        ensures { IsTrue result ↔ (self.entry.kind ≡ kind.Strange) }
    {
        self.kind == WordKind::Strange
    }

    /// Whether it is a name.
    pub fn is_name(self) -> bool
        ensures { IsTrue result ↔ (self.entry.kind ≡ kind.Name) }
    {
        self.kind == WordKind::Name
    }

    /// Whether it is this name.
    pub fn is_named(self, name: &[u8]) -> bool
        ensures { IsTrue result ↔ IsNamed name.now self.entry }
    {
        self.is_name() && self.bytes == name
    }

    /// Whether it is this word of BIRD's.
    pub fn is_foreign(self, name: &[u8]) -> bool
        ensures { IsTrue result ↔ IsForeign name.now self.entry }
    {
        self.kind == WordKind::Foreign && self.bytes == name
    }
}

/// The word at an index, if there is one.
pub(crate) fn word_at<'a>(words: &[Word<'a>], at: usize) -> Option<Word<'a>>
    ensures { result ≡ slice_get words.now at }
{
    words.get(at).copied()
}

/// What the word at an index is, and a byte that begins no word where there is none.
pub(crate) fn kind_at(words: &[Word<'_>], at: usize) -> WordKind
    ensures { result ≡ spec.kind_at words.now at }
{
    match words.get(at) {
        Some(word) => word.kind,
        None => WordKind::Strange,
    }
}

/// The bytes of the word at an index, if there is one.
pub(crate) fn bytes_at<'a>(words: &[Word<'a>], at: usize) -> &'a [u8]
    ensures { result.now ≡ spec.bytes_at words.now at }
{
    match words.get(at) {
        Some(word) => word.bytes,
        None => b"",
    }
}

/// Whether the word at an index is this keyword or punctuator.
pub(crate) fn is_at(words: &[Word<'_>], at: usize, symbol: Symbol) -> bool
    ensures { IsTrue result ↔ spec.IsAt symbol words.now at }
{
    kind_at(words, at) == WordKind::Symbol(symbol)
}

/// Whether the word at an index is a name.
pub(crate) fn is_name_at(words: &[Word<'_>], at: usize) -> bool
    ensures { IsTrue result ↔ spec.IsNameAt words.now at }
{
    kind_at(words, at) == WordKind::Name
}

/// Whether the word at an index is this name.
pub(crate) fn is_named_at(words: &[Word<'_>], at: usize, name: &[u8]) -> bool
    ensures { IsTrue result ↔ spec.IsNamedAt name.now words.now at }
{
    is_name_at(words, at) && bytes_at(words, at) == name
}

/// Whether the word at an index is this word of BIRD's.
#[tactic(auto, unfolding(crate::specs::Items::is_foreign_at))]
pub(crate) fn is_foreign_at(words: &[Word<'_>], at: usize, name: &[u8]) -> bool
    ensures is { result ≡ items.is_foreign_at words.now at name.now }
    ensures means { IsTrue result ↔ spec.IsForeignAt name.now words.now at }
{
    matches!(kind_at(words, at), WordKind::Foreign) && bytes_at(words, at) == name
}

/// Whether the word at an index is this one, a name or a word that only BIRD's configurations have.
pub(crate) fn is_word_at(words: &[Word<'_>], at: usize, word: &[u8]) -> bool
    ensures { IsTrue result → items.IsPlainAt word.now words.now at }
{
    bytes_at(words, at) == word
        && (is_name_at(words, at) || kind_at(words, at) == WordKind::Foreign)
}

/// The bytes of the word so many words behind an index, if there is one.
pub(crate) fn bytes_behind<'a>(words: &[Word<'a>], at: usize, more: usize) -> &'a [u8] {
    bytes_at(words, at.saturating_add(more))
}

/// Whether the word before an index is this keyword or punctuator.
pub(crate) fn is_before(words: &[Word<'_>], at: usize, symbol: Symbol) -> bool
    ensures { IsTrue result ↔ spec.IsBehind symbol words.now at }
{
    at > 0 && is_at(words, at - 1, symbol)
}

/// Whether a command may begin at an index: behind a brace, a `;`, a label, `then` or `else`.
pub(crate) fn begins_command(words: &[Word<'_>], at: usize) -> bool
    ensures { IsTrue result ↔ BeginsCommandAt words.now at }
{
    at > 0 && ends_command(kind_at(words, at - 1))
}

/// Whether a word is this keyword or punctuator.
#[tactic(auto, unfolding(crate::specs::Items::is_symbol))]
pub(crate) fn is_symbol(kind: WordKind, symbol: Symbol) -> bool
    ensures { result ≡ items.is_symbol symbol kind }
{
    match kind {
        WordKind::Symbol(found) => found == symbol,
        _ => false,
    }
}

/// How many parentheses, brackets and braces are open behind a word, where so many are before it, unless it closes one that is not open.
#[tactic(auto, unfolding(crate::specs::Items::depth_past))]
pub(crate) fn depth_past(depth: usize, kind: WordKind) -> Option<usize>
    requires { depth < 2 ^ 64 - 1 }
    ensures is { result ≡ items.depth_past depth kind }
    ensures bound { IfSome result (λ after. after ≤ depth + 1) }
{
    if opens(kind) {
        Some(depth + 1)
    } else if !closes(kind) {
        Some(depth)
    } else if depth == 0 {
        None
    } else {
        Some(depth - 1)
    }
}

/// The index of the first of these symbols from an index on, outside parentheses, brackets and braces that are opened there.
#[tactic(auto, using(crate::proofs::Outside::none_outside, crate::proofs::Outside::one_outside), unfolding(crate::specs::Items::outside_from))]
pub(crate) fn find_outside(words: &[Word<'_>], from: usize, symbol: Symbol) -> Option<usize>
    ensures is { result ≡ items.outside_from words.now (items.is_symbol symbol) from }
    ensures within { IfSome result (λ at. at < length words.now) }
{
    let mut depth = 0usize;
    for at in from..words.len() {
        let kind = kind_at(words, at);
        if depth == 0 && is_symbol(kind, symbol) {
            return Some(at);
        }
        depth = depth_past(depth, kind)?;
    }
    None
}

/// The index of what closes the parentheses, brackets or braces that are open before an index.
#[tactic(auto, using(crate::proofs::Outside::none_outside, crate::proofs::Outside::one_outside), unfolding(crate::specs::Items::outside_from))]
pub(crate) fn closing(words: &[Word<'_>], from: usize) -> Option<usize>
    ensures is { result ≡ items.outside_from words.now spec_closes from }
    ensures within { IfSome result (λ at. at < length words.now) }
{
    let mut depth = 0usize;
    for at in from..words.len() {
        let kind = kind_at(words, at);
        if depth == 0 && closes(kind) {
            return Some(at);
        }
        depth = depth_past(depth, kind)?;
    }
    None
}
