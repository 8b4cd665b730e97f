//! Parts of one byte, which that byte alone tells.

ghost use Rattle.std.specs.Prelude.{◌≡◌, IfSome, Some};
ghost use Rattle.filter_tokens.specs.Reading as spec;

use crate::byte_class::stands_alone;
use crate::part::Part;
use crate::symbol::Symbol;
use crate::token_kind::TokenKind;

/// The part at the front of a text, where the first byte tells it whatever follows, as it does of most parts.
#[inline(always)]
pub(crate) fn leading_byte(text: &[u8]) -> Option<Part>
    ensures part { IfSome result (λ part. spec.part_in text.now ≡ Some part) }
    ensures found { spec.leading_byte text.now ≡ result }
{
    let (first, _others) = text.split_first()?;
    byte_part(*first)
}

/// The part that a byte is whatever follows it: a space, or a punctuator with which neither a longer one nor a comment begins.
#[inline(always)]
fn byte_part(byte: u8) -> Option<Part>
    ensures { spec.byte_part byte ≡ result }
{
    if byte == b' ' {
        return Some(Part::Gap(1));
    }
    if stands_alone(byte) {
        return Some(byte_token(byte_symbol(byte)));
    }
    None
}

/// The punctuator that a byte is whatever follows it. The byte is one.
#[inline(always)]
fn byte_symbol(byte: u8) -> Symbol
    ensures { spec.byte_symbol byte ≡ result }
{
    match byte {
        b'(' => Symbol::LeftParen,
        b')' => Symbol::RightParen,
        b'{' => Symbol::LeftBrace,
        b'}' => Symbol::RightBrace,
        b'[' => Symbol::LeftBracket,
        b']' => Symbol::RightBracket,
        b';' => Symbol::Semicolon,
        b':' => Symbol::Colon,
        b',' => Symbol::Comma,
        b'=' => Symbol::Equal,
        b'~' => Symbol::Match,
        b'+' => Symbol::Plus,
        b'-' => Symbol::Minus,
        _ => Symbol::Times,
    }
}

/// A punctuator of one byte.
fn byte_token(symbol: Symbol) -> Part
    ensures { spec.byte_token symbol ≡ Some result }
{
    Part::Token(TokenKind::Symbol(symbol), 1)
}
