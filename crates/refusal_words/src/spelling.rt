//! The words of a line, as they are repeated to people.
ghost use Rattle.std.specs.Prelude.{◌≡◌, ◌↔◌, ◌+◌, ◌≤◌, ◌++◌, ℕ, List, [], drop, length, min};
ghost use Rattle.std.specs.Prelude.{slice_get, string_bytes, unwrap_or, IfOk, IfSome, IsSome};
ghost use Rattle.line_protocol.specs.Words.{without_front_blanks, words};
ghost use Rattle.refusal_words.specs.Spelled.{IsShortText, Spells};

use line_protocol::{next_word, trim_front_blanks};
use std::alloc::{AllocError, Global};
use std::str;

/// A word of more bytes than this is not repeated.
const SPELLED_LIMIT: usize = 64;

/// What is left of a line from its word of this index on; nothing where it has fewer words.
pub fn from_word(line: &[u8], index: usize) -> &[u8]
    ensures words { words result.now ≡ drop index (words line.now) }
    ensures end { (before : List ℕ) × (line.now ≡ before ++ result.now) }
    ensures begins { without_front_blanks result.now ≡ result.now }
{
    let mut rest = line;
    for _ in 0..index {
        match next_word(rest) {
            Some((_, after)) => rest = after,
            None => return b"",
        }
    }
    trim_front_blanks(rest)
}

/// The byte at which the word of this index begins; the line's end where it has fewer words.
pub fn byte_of_word(line: &[u8], index: usize) -> usize
    ensures within { result ≤ length line.now }
    ensures words { words (drop result line.now) ≡ drop index (words line.now) }
    ensures begins { without_front_blanks (drop result line.now) ≡ drop result line.now }
{
    line.len().saturating_sub(from_word(line, index).len())
}

/// The word of this index; nothing where the line has fewer words.
pub fn word_at(line: &[u8], index: usize) -> &[u8]
    ensures { result.now ≡ unwrap_or (slice_get (words line.now) index) [] }
{
    match next_word(from_word(line, index)) {
        Some((word, _)) => word,
        None => b"",
    }
}

/// The number of words of a line, or the number above a limit where it has more than that.
pub fn count_words(line: &[u8], limit: usize) -> usize
    ensures { result ≡ min (length (words line.now)) (limit + 1) }
{
    let mut rest = line;
    for count in 0..=limit {
        match next_word(rest) {
            Some((_, after)) => rest = after,
            None => return count,
        }
    }
    limit.saturating_add(1)
}

/// A word, if it is a text that is short enough to be repeated.
pub fn short_text(word: &[u8]) -> Option<&str>
    ensures text { IfSome result (λ text. text.now ≡ word.now) }
    ensures some { IsSome result ↔ IsShortText word.now }
{
    if word.len() > SPELLED_LIMIT {
        return None;
    }
    str::from_utf8(word).ok()
}

/// A word in backticks, where it can be repeated.
pub fn spelled(alloc: Global, word: &[u8]) -> Result<String, AllocError>
    ensures { IfOk result (λ text. Spells word.now (string_bytes text)) }
{
    match short_text(word) {
        Some(text) => format!(in alloc; "`{text}`"),
        None => String::from_str(alloc, "this word"),
    }
}
