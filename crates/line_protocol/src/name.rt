//! The names that a line can give to something, such as a filter.
ghost use Rattle.std.specs.Prelude.{◌≡◌};
ghost use Rattle.std.specs.List.{list_all};
ghost use Rattle.line_protocol.specs.Names as spec;

use crate::NAME_LIMIT;

/// Whether a word is a name: letters, digits and `_`, no digit first, at most `NAME_LIMIT` bytes.
pub fn is_name(word: &[u8]) -> bool
    ensures { result ≡ spec.is_name word.now }
{
    if word.is_empty() || word[0].is_ascii_digit() || word.len() > NAME_LIMIT {
        return false;
    }
    has_name_bytes(word)
}

/// Whether each byte may stand in a name.
fn has_name_bytes(word: &[u8]) -> bool
    ensures { result ≡ list_all spec.is_name_byte word.now }
{
    for byte in word {
        if !is_name_byte(*byte) {
            return false;
        }
    }
    true
}

/// A byte that may stand in a name.
fn is_name_byte(byte: u8) -> bool
    ensures { result ≡ spec.is_name_byte byte }
{
    byte.is_ascii_alphanumeric() || byte == b'_'
}
