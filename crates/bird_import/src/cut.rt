//! How a configuration is cut into words.
ghost use Rattle.std.specs.Prelude.{◌≡◌, ℕ, List, ◌≤◌, ◌<◌, ◌-◌, ◌+◌, ◌^◌, IfOk, IfSome, IfNone, false, length, take, drop};
ghost use Rattle.std.specs.List.{prefix_len};
ghost use Rattle.filter_tokens.specs.Codes.{fault_place};
ghost use Rattle.filter_tokens.specs.Tokenization.{AreInOrder};
ghost use Rattle.bird_import.specs.Cutting as spec;
ghost use Rattle.bird_import.specs.Cutting.{IsOpenedBy, IsCutInto, AddsTokens, opens_text, opens_comment};
ghost use Rattle.bird_import.specs.Cutting.{AreOneCut};
ghost use Rattle.bird_import.specs.declared.cut.Cut.{Cut as TheCut};

use crate::word::{Word, WordKind};
use filter_tokens::{Token, TokenFault, continues_word, lex};
use std::alloc::{AllocError, Global};

/// The words of a configuration from the left, and what ended them if that is not its end.
#[derive(Drop)]
pub struct Cut<'a> {
    /// The words.
    pub words: Vec<Word<'a>>,
    /// A comment or a text in quotes that does not end: nothing behind it is known.
    pub end: Option<TokenFault>,
}

/// Whether a word that is no token goes on with a byte, or a number or an address that is none.
fn goes_on(is_number: bool, byte: u8) -> bool
    ensures { result ≡ spec.goes_on is_number byte }
{
    continues_word(byte) || (is_number && (byte == b'.' || byte == b'/'))
}

/// The number of bytes at the front with which such a word goes on.
fn front_len(text: &[u8], is_number: bool) -> usize
    ensures len { result ≡ prefix_len (spec.goes_on is_number) text.now }
    ensures within { result ≤ length text.now }
{
    for (i, byte) in text.iter().enumerate() {
        if !goes_on(is_number, *byte) {
            return i;
        }
    }
    text.len()
}

/// Whether a name in single quotes may have this byte.
fn is_of_name(byte: u8) -> bool
    ensures { result ≡ spec.is_of_name byte }
{
    !(byte == b'\'' || byte == b'\n')
}

/// The number of bytes at the front that a name in single quotes may have.
fn name_len(text: &[u8]) -> usize
    ensures len { result ≡ prefix_len spec.is_of_name text.now }
    ensures within { result ≤ length text.now }
{
    for (i, byte) in text.iter().enumerate() {
        if !is_of_name(*byte) {
            return i;
        }
    }
    text.len()
}

/// The number of bytes of a name in single quotes, of which these follow the first quote; of that quote alone where it does not end on its
/// line.
fn quoted_len(others: &[u8]) -> usize
    requires { length others.now + 1 < 2 ^ 64 }
    ensures len { result ≡ spec.quoted_len others.now }
    ensures within { (0 < result) × (result ≤ length others.now + 1) }
{
    let len = name_len(others);
    if len < others.len() && others[len] == b'\'' {
        return len + 2;
    }
    1
}

/// The number of bytes of what is at the front of a text and no token of filters.
fn other_len(rest: &[u8]) -> usize
    requires { 0 < length rest.now }
    ensures len { result ≡ spec.other_len rest.now }
    ensures within { (0 < result) × (result ≤ length rest.now) }
{
    match rest {
        [b'\'', others @ ..] => quoted_len(others),
        [first, others @ ..] if continues_word(*first) => {
            1 + front_len(others, first.is_ascii_digit())
        }
        _ => 1,
    }
}

/// What it is to BIRD.
fn other_kind(rest: &[u8]) -> WordKind
    ensures { result ≡ spec.other_kind rest.now }
{
    match rest.first() {
        Some(b'\'' | b'%' | b'?' | b'|' | b'&') => WordKind::Foreign,
        Some(byte) if continues_word(*byte) => WordKind::Foreign,
        _ => WordKind::Strange,
    }
}

/// The fault of a comment or a text that begins at the front, at a place, and is known not to end.
fn unended(rest: &[u8], at: usize) -> Option<TokenFault>
    ensures some { IfSome result (λ fault. (fault_place fault ≡ at) × IsOpenedBy rest.now fault) }
    ensures none { IfNone result ((opens_text rest.now ≡ false) × (opens_comment rest.now ≡ false)) }
{
    match rest {
        [b'"', ..] => Some(TokenFault::UnendedText(at)),
        [b'/', b'*', ..] => Some(TokenFault::UnendedComment(at)),
        _ => None,
    }
}

/// The word `from..to` of a text, which is behind a place.
fn word_between<'a>(
    text: &'a [u8],
    kind: WordKind,
    behind: usize,
    from: usize,
    to: usize,
) -> Word<'a>
    requires order { (behind ≤ from) × (from ≤ to) × (to ≤ length text.now) }
    ensures kind { result.kind ≡ kind }
    ensures at { result.at ≡ from }
    ensures gap { result.gap.now ≡ take (from - behind) (drop behind text.now) }
    ensures bytes { result.bytes.now ≡ take (to - from) (drop from text.now) }
{
    Word {
        kind,
        bytes: &text[from..to],
        at: from,
        gap: &text[behind..from],
    }
}

/// Adds the tokens of the part of a text that begins at a place. Returns the place after the last of them, or that place.
fn push_tokens<'a>(
    words: &mut Vec<Word<'a>>,
    text: &'a [u8],
    tokens: &[Token],
    at: usize,
) -> Result<usize, AllocError>
    requires within { at ≤ length text.now }
    requires order { AreInOrder 0 tokens.now (length text.now - at) }
    ensures { IfOk result (λ behind. AddsTokens text.now tokens.now at words.old.items words.new.items behind) }
{
    let mut behind = at;
    for token in tokens {
        let to = at + token.to;
        words.push(word_between(text, WordKind::of(token.word), behind, at + token.from, to))?;
        behind = to;
    }
    Ok(behind)
}

/// Cuts a configuration into words.
pub fn cut_words<'a>(alloc: Global, text: &'a [u8]) -> Result<Cut<'a>, AllocError>
    ensures { IfOk result (λ cut. IsCutInto text.now cut) }
{
    let mut words = Vec::new(alloc);
    let mut at = 0;
    while at < text.len() {
        let lexed = lex(alloc, &text[at..])?;
        let behind = push_tokens(&mut words, text, lexed.tokens.as_slice(), at)?;
        let Some(fault) = lexed.fault else {
            return Ok(Cut { words, end: None });
        };
        let from = at + fault.at();
        let rest = &text[from..];
        if let Some(end) = unended(rest, from) {
            return Ok(Cut {
                words,
                end: Some(end),
            });
        }
        let to = from + other_len(rest);
        words.push(word_between(text, other_kind(rest), behind, from, to))?;
        at = to;
    }
    Ok(Cut { words, end: None })
}

/// No text is cut into words in two ways.
pub fn one_cut()
    ensures { (text : List ℕ) (one other : TheCut) → IsCutInto text one → IsCutInto text other → AreOneCut one other }
{}
