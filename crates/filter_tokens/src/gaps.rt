//! Space and comments.

ghost use Rattle.std.specs.Option.{option_map};
ghost use Rattle.std.specs.Prelude.{◌≡◌, ◌≤◌, ◌+◌, ◌<◌, ◌^◌, IfSome, IsTrue, length};
ghost use Rattle.filter_tokens.specs.Tokenization.{is_space, begins_with};
ghost use Rattle.filter_tokens.specs.Reading as spec;

use crate::byte_class::{ByteClass, continues_word, leading_len};

/// The number of bytes of space or of a comment at the front of a text: 0 where neither begins there.
/// None for a comment that does not end.
#[tactic(auto, unfolding(crate::specs::Reading::gap_len))]
pub(crate) fn gap_len(text: &[u8]) -> Option<usize>
    ensures { spec.gap_len text.now ≡ result }
{
    let Some((first, others)) = text.split_first() else {
        return Some(0);
    };
    // Most parts that are not told by one byte are words and numbers, so this is asked first.
    if continues_word(*first) {
        return Some(0);
    }
    if is_space(*first) {
        return Some(1);
    }
    if *first == b'#' {
        return Some(1 + leading_len(ByteClass::Line, others));
    }
    if *first == b'/' && begins_with(others, b'*') {
        return enclosed_len(&others[1..]);
    }
    Some(0)
}

/// The number of bytes of a comment with the `/*` before these bytes, up to the first `*/`.
fn enclosed_len(inner: &[u8]) -> Option<usize>
    requires { length inner.now + 2 < 2 ^ 64 }
    ensures { option_map (λ len. 2 + len) (spec.closing_len inner.now) ≡ result }
{
    let len = closing_len(inner)?;
    Some(2 + len)
}

/// The number of bytes up to the end of the first `*/`.
#[tactic(auto, unfolding(crate::specs::Reading::closing_len))]
fn closing_len(text: &[u8]) -> Option<usize>
    ensures is { spec.closing_len text.now ≡ result }
    ensures within { IfSome result (λ len. len ≤ length text.now) }
{
    for at in 0..text.len() {
        if closes(&text[at..]) {
            return Some(at + 2);
        }
    }
    None
}

/// Whether a `*/` is at the front.
fn closes(text: &[u8]) -> bool
    ensures is { result ≡ spec.closes text.now }
    ensures within { IsTrue result → 2 ≤ length text.now }
{
    text.starts_with(b"*/")
}

/// Whether the byte is a space, a tab, a CR or an LF.
fn is_space(byte: u8) -> bool
    ensures { result ≡ is_space byte }
{
    byte == b'\t' || byte == b'\n' || byte == b'\r' || byte == b' '
}

/// Whether this is the first byte.
fn begins_with(text: &[u8], wanted: u8) -> bool
    ensures is { result ≡ begins_with wanted text.now }
    ensures some { IsTrue result → 0 < length text.now }
{
    match text.first() {
        Some(byte) => *byte == wanted,
        None => false,
    }
}
