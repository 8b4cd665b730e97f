//! What stands in a text at the place where it is refused.

use crate::place::begins_character;
use filter_tokens::{Symbol, Token, TokenKind, continues_word};
use std::alloc::{AllocError, Global};

/// The most bytes of a token that is quoted.
const QUOTED_LIMIT: usize = 64;

/// Whether a token is the name of a kind, with which a declaration begins.
pub(crate) fn is_kind(kind: TokenKind) -> bool {
    matches!(
        kind,
        TokenKind::Symbol(Symbol::Int | Symbol::Bool | Symbol::Ip | Symbol::Prefix)
    )
}

/// Whether a token is a name.
pub(crate) fn is_name(token: Option<Token>) -> bool {
    match token {
        Some(token) => token.word == TokenKind::Name,
        None => false,
    }
}

/// Whether a token is a prefix.
pub(crate) fn is_prefix(token: Option<Token>) -> bool {
    match token {
        Some(token) => matches!(token.word, TokenKind::Prefix { .. }),
        None => false,
    }
}

/// Whether a token is a sign of arithmetic.
pub(crate) fn is_sign(kind: TokenKind) -> bool {
    matches!(
        kind,
        TokenKind::Symbol(Symbol::Plus | Symbol::Minus | Symbol::Times | Symbol::Divide)
    )
}

/// Whether a token is a number.
pub(crate) fn is_number(kind: TokenKind) -> bool {
    matches!(kind, TokenKind::Number(_))
}

/// Whether a token is this keyword or punctuator.
pub(crate) fn is_symbol(token: Option<Token>, symbol: Symbol) -> bool {
    match token {
        Some(token) => token.word == TokenKind::Symbol(symbol),
        None => false,
    }
}

/// The bytes of a text from one place to another, if they are a text that is short enough to be quoted.
pub(crate) fn quoted(text: &[u8], from: usize, to: usize) -> Option<&str> {
    let bytes = text.get(from..to)?;
    if bytes.len() > QUOTED_LIMIT {
        return None;
    }
    str::from_utf8(bytes).ok()
}

/// The character that begins at a byte of a text, if it is one of UTF-8.
pub(crate) fn character_at(text: &[u8], at: usize) -> Option<&str> {
    let next = at.checked_add(1)?;
    let rest = text.get(next..)?;
    let more = rest
        .iter()
        .take_while(|byte| !begins_character(**byte))
        .count();
    quoted(text, at, next.saturating_add(more))
}

/// The name that a token of a text is, if it is one.
pub(crate) fn name_of(text: &[u8], token: Option<Token>) -> Option<&str> {
    match token {
        Some(token) if token.word == TokenKind::Name => quoted(text, token.from, token.to),
        _ => None,
    }
}

/// The names that begin at these places of a text.
pub(crate) fn declared<'a>(
    alloc: Global,
    text: &'a [u8],
    places: &[usize],
) -> Result<Vec<&'a str>, AllocError> {
    let mut names = Vec::new(alloc);
    for place in places {
        if let Some(name) = word_at(text, *place) {
            names.push(name)?;
        }
    }
    Ok(names)
}

/// The word that begins at a byte of a text.
pub(crate) fn word_at(text: &[u8], at: usize) -> Option<&str> {
    let rest = text.get(at..)?;
    let len = rest
        .iter()
        .take_while(|byte| continues_word(**byte))
        .count();
    quoted(rest, 0, len)
}

/// Whether a byte may stand in an address of IPv6.
fn is_address_byte(byte: u8) -> bool {
    byte.is_ascii_hexdigit() || byte == b':'
}

/// Whether an address of IPv6 seems to stand round a byte of a text: digits with two colons at least.
pub(crate) fn is_ipv6(text: &[u8], at: usize) -> bool {
    let (before, rest) = text.split_at(at.min(text.len()));
    let front = before
        .iter()
        .rev()
        .take_while(|byte| is_address_byte(**byte));
    let back = rest.iter().take_while(|byte| is_address_byte(**byte));
    let colons_before = front.filter(|byte| **byte == b':').count();
    let colons = back.filter(|byte| **byte == b':').count();
    colons_before >= 2 || colons >= 2 || (colons_before == 1 && colons == 1)
}
