//! Warnings that are allowed, and so not told: by their codes, or by a comment of the line that they are said of.
//!
//! **What is allowed is taken out of the finished list of warnings, by its code and its line.** So no rule works otherwise where something is
//! allowed.
//!
//! **A comment allows what is said of its own line.** One for the next line, or for a part of a file, is soon about another line than was meant.
//!
//! **Words that are no codes behind `# lint: allow` make it allow nothing.** A code that is misspelt is noticed.
ghost use Rattle.std.specs.Prelude.{◌≡◌, IfOk, string_bytes};
ghost use Rattle.std.specs.List.{list_all};
ghost use Rattle.std.specs.Option.{option_map};
ghost use Rattle.std.specs.Str.{bytes_eq};
ghost use Rattle.line_protocol.specs.Words.{words};
ghost use Rattle.filter_lint.specs.Allowing as spec;

use crate::host_bits::HostBits;
use crate::warning::Warning;
use line_protocol::{next_word, strip_carriage_return};
use refusal_words::place_in;
use std::alloc::{AllocError, Global};

/// Whether a word is this one.
fn is_word(known: &[u8], word: &[u8]) -> bool
    ensures { result ≡ bytes_eq known.now word.now }
{
    known == word
}

/// Whether a word is the code of a warning.
#[tactic(auto, unfolding(crate::specs::Allowing::all_codes))]
fn is_code(word: &[u8]) -> bool
    ensures { result ≡ spec.is_among spec.all_codes word.now }
{
    is_word(b"W1", word)
        || is_word(b"W2", word)
        || is_word(b"W3", word)
        || is_word(b"W4", word)
        || is_word(b"W5", word)
        || is_word(b"W6", word)
        || is_word(b"W7", word)
        || is_word(b"W8", word)
        || is_word(b"W9", word)
}

/// Whether the words of a line are codes alone.
fn are_codes(line: &[u8]) -> bool
    ensures { result ≡ list_all (spec.is_among spec.all_codes) (words line.now) }
{
    let mut rest = line;
    while let Some((word, later)) = next_word(rest) {
        if !is_code(word) {
            return false;
        }
        rest = later;
    }
    true
}

/// Whether a word is among those of a line.
fn has_word(line: &[u8], word: &[u8]) -> bool
    ensures { result ≡ spec.is_among (words line.now) word.now }
{
    let mut rest = line;
    while let Some((other, later)) = next_word(rest) {
        if other == word {
            return true;
        }
        rest = later;
    }
    false
}

/// What is left of a line behind a word, if that is the first.
fn behind<'a>(line: &'a [u8], word: &[u8]) -> Option<&'a [u8]>
    ensures { option_map (λ rest. words rest.now) result ≡ spec.behind word.now (words line.now) }
{
    match next_word(line) {
        Some((first, rest)) if first == word => Some(rest),
        _ => None,
    }
}

/// What is left of a line behind `# lint: allow`.
#[tactic(auto, unfolding(crate::specs::Allowing::behind_allow))]
fn behind_allow(line: &[u8]) -> Option<&[u8]>
    ensures { option_map (λ rest. words rest.now) result ≡ spec.behind_allow (words line.now) }
{
    let of_sign = behind(line, b"#")?;
    let of_lint = behind(of_sign, b"lint:")?;
    behind(of_lint, b"allow")
}

/// Whether a line is a comment that allows a code.
fn is_comment(line: &[u8], code: &[u8]) -> bool
    ensures { result ≡ spec.is_comment (words line.now) code.now }
{
    match behind_allow(line) {
        Some(allowed) => are_codes(allowed) && has_word(allowed, code),
        None => false,
    }
}

/// Whether a line ends with such a comment.
fn ends_with_comment(line: &[u8], code: &[u8]) -> bool
    ensures { result ≡ spec.ends_with_comment (words line.now) code.now }
{
    let mut rest = line;
    while let Some((_, later)) = next_word(rest) {
        if is_comment(rest, code) {
            return true;
        }
        rest = later;
    }
    false
}

/// Whether a text is a word.
fn is_spelled(text: &String, word: &[u8]) -> bool
    ensures { result ≡ bytes_eq (string_bytes text.now) word.now }
{
    text.as_bytes() == word
}

/// Whether a code is among those that are allowed.
fn is_named(allowed: &[String], code: &[u8]) -> bool
    ensures { result ≡ spec.is_named allowed.now code.now }
{
    allowed.iter().any(|word| is_spelled(word, code))
}

/// Whether what is said of a byte of a text by the rule of a code is allowed.
fn is_allowed(allowed: &[String], text: &[u8], byte: usize, code: &[u8]) -> bool
    ensures { result ≡ spec.is_allowed allowed.now text.now byte code.now }
{
    let rest = strip_carriage_return(place_in(text, byte).behind);
    is_named(allowed, code) || ends_with_comment(rest, code)
}

/// The warnings of a text that are told, where these codes are allowed, in order.
pub(crate) fn shown_of(
    alloc: Global,
    allowed: &[String],
    text: &[u8],
    warnings: &[Warning],
) -> Result<Vec<Warning>, AllocError>
    ensures { IfOk result (λ shown. shown.items ≡ spec.shown_of allowed.now text.now warnings.now) }
{
    let mut shown = Vec::new(alloc);
    for warning in warnings {
        if !is_allowed(allowed, text, warning.byte, warning.cause.code()) {
            shown.push(*warning)?;
        }
    }
    Ok(shown)
}

/// The prefixes of a text with host bits that are told, likewise.
pub(crate) fn shown_host_bits(
    alloc: Global,
    allowed: &[String],
    text: &[u8],
    all: &[HostBits],
) -> Result<Vec<HostBits>, AllocError>
    ensures { IfOk result (λ shown. shown.items ≡ spec.shown_host_bits allowed.now text.now all.now) }
{
    let mut shown = Vec::new(alloc);
    for found in all {
        if !is_allowed(allowed, text, found.token.from, b"W5") {
            shown.push(*found)?;
        }
    }
    Ok(shown)
}
