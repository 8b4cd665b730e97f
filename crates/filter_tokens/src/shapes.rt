//! Where the longest shape at the front of a text ends.

ghost use Rattle.std.specs.Option.{option_map};
ghost use Rattle.std.specs.Prelude.{◌≡◌, ◌≤◌, IfSome, find, length};
ghost use Rattle.filter_tokens.specs.Reading as spec;
ghost use Rattle.filter_tokens.specs.Symbols.{symbol_text};

use crate::byte_class::{ByteClass, begins_word, leading_len};
use crate::shape::Shape;
use crate::symbol::Symbol;
use prefix_patterns::after_byte;

/// The longest shape at the front of a text, and what follows it.
#[tactic(auto, unfolding(crate::specs::Reading::longest_shape))]
pub(crate) fn longest_shape(text: &[u8]) -> Option<(Shape, &[u8])>
    ensures { spec.longest_shape text.now ≡ option_map (λ found. (found.0, found.1.now)) result }
{
    let (first, others) = text.split_first()?;
    if begins_word(*first) {
        return Some((Shape::Word, &others[leading_len(ByteClass::Word, others)..]));
    }
    if first.is_ascii_digit() {
        return Some(digits_shape(text));
    }
    if *first == b'"' {
        return quoted_shape(text);
    }
    punctuator_shape(text)
}

/// The longest shape at the front of a text that begins with a digit.
#[tactic(auto, unfolding(crate::specs::Reading::digits_shape, crate::specs::Reading::after_prefix))]
fn digits_shape(text: &[u8]) -> (Shape, &[u8])
    ensures { spec.digits_shape text.now ≡ (result.0, result.1.now) }
{
    if let Some(rest) = after_address(text) {
        return match after_length(rest) {
            Some(end) => (Shape::Prefix, end),
            None => (Shape::Address, rest),
        };
    }
    match after_hexadecimal(text) {
        Some(rest) => (Shape::Hexadecimal, rest),
        None => (
            Shape::Decimal,
            &text[leading_len(ByteClass::Digits, text)..],
        ),
    }
}

/// After a slash and digits.
fn after_length(text: &[u8]) -> Option<&[u8]>
    ensures { spec.after_length text.now ≡ option_map (λ rest. rest.now) result }
{
    let rest = after_byte(text, b'/')?;
    after_digits(rest)
}

/// After four groups of digits and the dots between them.
#[tactic(auto, unfolding(crate::specs::Reading::after_address))]
fn after_address(text: &[u8]) -> Option<&[u8]>
    ensures { spec.after_address text.now ≡ option_map (λ rest. rest.now) result }
{
    let rest = after_digits(text)?;
    let rest = after_byte(rest, b'.')?;
    let rest = after_digits(rest)?;
    let rest = after_byte(rest, b'.')?;
    let rest = after_digits(rest)?;
    let rest = after_byte(rest, b'.')?;
    after_digits(rest)
}

/// After a `0x` and the hexadecimal digits that follow, if any do.
#[tactic(auto, unfolding(crate::specs::Reading::after_hexadecimal))]
fn after_hexadecimal(text: &[u8]) -> Option<&[u8]>
    ensures { spec.after_hexadecimal text.now ≡ option_map (λ rest. rest.now) result }
{
    let rest = after_byte(text, b'0')?;
    let rest = after_byte(rest, b'x')?;
    Some(&rest[leading_len(ByteClass::Hexadecimal, rest)..])
}

/// After one digit at least.
#[tactic(auto, unfolding(crate::specs::Reading::after_digits))]
fn after_digits(text: &[u8]) -> Option<&[u8]>
    ensures { spec.after_digits text.now ≡ option_map (λ rest. rest.now) result }
{
    let len = leading_len(ByteClass::Digits, text);
    if len == 0 {
        return None;
    }
    Some(&text[len..])
}

/// A text in double quotes.
fn quoted_shape(text: &[u8]) -> Option<(Shape, &[u8])>
    ensures { spec.quoted_shape text.now ≡ option_map (λ found. (found.0, found.1.now)) result }
{
    let rest = after_quoted(text)?;
    Some((Shape::Text, rest))
}

/// After a text in double quotes.
#[tactic(auto, unfolding(crate::specs::Reading::after_quoted))]
fn after_quoted(text: &[u8]) -> Option<&[u8]>
    ensures { spec.after_quoted text.now ≡ option_map (λ rest. rest.now) result }
{
    let rest = after_byte(text, b'"')?;
    after_byte(&rest[leading_len(ByteClass::Quoted, rest)..], b'"')
}

/// The longest punctuator.
#[tactic(auto, unfolding(crate::specs::Reading::punctuator_shape))]
fn punctuator_shape(text: &[u8]) -> Option<(Shape, &[u8])>
    ensures { spec.punctuator_shape text.now ≡ option_map (λ found. (found.0, found.1.now)) result }
{
    let punctuator = punctuator(text)?;
    Some((
        Shape::Punctuator(punctuator),
        &text[punctuator.text().len()..],
    ))
}

/// The longest punctuator that the text begins with.
#[tactic(auto, unfolding(crate::specs::Reading::punctuator_in))]
fn punctuator(text: &[u8]) -> Option<Symbol>
    ensures is { spec.punctuator_in text.now ≡ result }
    ensures within { IfSome result (λ punctuator. length (symbol_text punctuator) ≤ length text.now) }
{
    let (first, others) = text.split_first()?;
    match pair(*first, others) {
        Some(punctuator) => Some(punctuator),
        None => single(*first),
    }
}

/// The punctuator of two bytes that begins with this one and goes on as the text does.
fn pair(first: u8, others: &[u8]) -> Option<Symbol>
    ensures { spec.pair first others.now ≡ result }
{
    let second = others.first()?;
    match (first, *second) {
        (b'&', b'&') => Some(Symbol::And),
        (b'|', b'|') => Some(Symbol::Or),
        (b'!', b'=') => Some(Symbol::NotEqual),
        (b'!', b'~') => Some(Symbol::NotMatch),
        (b'<', b'=') => Some(Symbol::LessEqual),
        (b'>', b'=') => Some(Symbol::GreaterEqual),
        (b'.', b'.') => Some(Symbol::DotDot),
        _ => None,
    }
}

/// The punctuator that is this byte.
fn single(byte: u8) -> Option<Symbol>
    ensures { spec.single byte ≡ result }
{
    match byte {
        b'(' => Some(Symbol::LeftParen),
        b')' => Some(Symbol::RightParen),
        b'{' => Some(Symbol::LeftBrace),
        b'}' => Some(Symbol::RightBrace),
        b'[' => Some(Symbol::LeftBracket),
        b']' => Some(Symbol::RightBracket),
        b';' => Some(Symbol::Semicolon),
        b':' => Some(Symbol::Colon),
        b',' => Some(Symbol::Comma),
        b'.' => Some(Symbol::Dot),
        b'=' => Some(Symbol::Equal),
        b'<' => Some(Symbol::Less),
        b'>' => Some(Symbol::Greater),
        b'~' => Some(Symbol::Match),
        b'!' => Some(Symbol::Not),
        b'+' => Some(Symbol::Plus),
        b'-' => Some(Symbol::Minus),
        b'*' => Some(Symbol::Times),
        b'/' => Some(Symbol::Divide),
        _ => None,
    }
}
