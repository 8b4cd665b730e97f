//! Readers of what a text begins with, for texts that are read in one pass. Each reads the usual spelling alone, and gives `None`
//! for others, such as a number of more than three digits.
ghost use Rattle.std.specs.Char.{IsAsciiDigit};
ghost use Rattle.std.specs.Option.{option_map};
ghost use Rattle.std.specs.Prelude.{◌≡◌, ◌-◌, ◌<◌, ◌≤◌, ◌∷◌, List, ℕ, IfSome, IsSome, IsSomeAnd, get_or, length};
ghost use Rattle.prefix_patterns.specs.Leading as spec;
ghost use Rattle.prefix_patterns.specs.Leading.{BeginsWith, BeginsWithDigit, IsUsualNumber, IsUsualPrefix, IsUsualWithin};
ghost use Rattle.prefix_patterns.specs.Number.{IsDigits, IsNumber, decimal_value};
ghost use Rattle.prefix_patterns.specs.Token.{IsPrefix};
ghost use Rattle.prefix_patterns.specs.Written.{IsWrittenPrefix};

use crate::address::{ADDRESS_LENGTH, Ip};
use crate::prefix::Prefix;
use crate::written::WrittenPrefix;

/// The value of the digit at a place.
#[inline(always)]
fn digit_at(text: &[u8], at: usize) -> Option<u32>
    ensures within { IfSome result (λ _. at < length text.now) }
    ensures digit { IfSome result (λ _. IsAsciiDigit (get_or text.now at 0)) }
    ensures value { IfSome result (λ value. value ≡ get_or text.now at 0 - 48) }
    ensures any { at < length text.now → IsAsciiDigit (get_or text.now at 0) → IsSome result }
{
    if at < text.len() && text[at].is_ascii_digit() {
        Some(u32::from(text[at] - b'0'))
    } else {
        None
    }
}

/// The number that a text begins with, in one to three digits, and what follows them.
#[inline(always)]
pub fn leading_number(text: &[u8]) -> Option<(u32, &[u8])>
    ensures found { IfSome result (λ cut. BeginsWith (λ digits. IsDigits digits × (cut.0 ≡ decimal_value digits)) text.now cut.1.now) }
    ensures limit { IfSome result (λ cut. cut.0 ≤ 999) }
    // A number in the usual spelling is read, and all of it.
    ensures usual { (rest : List ℕ) (number : BeginsWith IsUsualNumber text.now rest) → ¬ BeginsWithDigit rest
        → IsSomeAnd result (λ cut. (cut.0 ≡ decimal_value number.token) × (cut.1.now ≡ rest)) }
{
    // Without `?`, which would copy the digit: this is done for each number of each line.
    let Some(first) = digit_at(text, 0) else {
        return None;
    };
    let Some(second) = digit_at(text, 1) else {
        return Some((first, &text[1..]));
    };
    let Some(third) = digit_at(text, 2) else {
        return Some((first * 10 + second, &text[2..]));
    };
    Some((first * 100 + second * 10 + third, &text[3..]))
}

/// What follows a byte that a text begins with.
#[inline(always)]
pub fn after_byte(text: &[u8], byte: u8) -> Option<&[u8]>
    ensures found { IfSome result (λ rest. text.now ≡ byte ∷ rest.now) }
    ensures any { (rest : List ℕ) → text.now ≡ byte ∷ rest → IsSomeAnd result (λ cut. cut.now ≡ rest) }
    // The same as a function, for readers of several bytes.
    ensures after { spec.after_byte byte text.now ≡ option_map (λ rest. rest.now) result }
{
    if text.is_empty() || text[0] != byte {
        return None;
    }
    Some(&text[1..])
}

/// The number of at most 255 that a text begins with, and what follows the byte after it.
#[inline(always)]
fn group_before(text: &[u8], byte: u8) -> Option<(u8, &[u8])>
    ensures found { IfSome result (λ cut. BeginsWith (λ digits. IsNumber 255 digits × (cut.0 ≡ decimal_value digits)) text.now
        (byte ∷ cut.1.now)) }
    ensures usual { (rest : List ℕ) → BeginsWith (IsUsualWithin 255) text.now (byte ∷ rest) → ¬ IsAsciiDigit byte
        → IsSomeAnd result (λ cut. cut.1.now ≡ rest) }
{
    let (value, rest) = leading_number(text)?;
    if value > 255 {
        return None;
    }
    Some((value as u8, after_byte(rest, byte)?))
}

/// The prefix that a text begins with, and what follows it. Bits past the length are cleared.
#[inline(always)]
pub fn leading_prefix(text: &[u8]) -> Option<(Prefix, &[u8])>
    ensures found { IfSome result (λ cut. BeginsWith (λ token. IsPrefix token cut.0) text.now cut.1.now) }
    // A prefix in the usual spelling is read, and all of it.
    ensures usual { (rest : List ℕ) → BeginsWith IsUsualPrefix text.now rest → ¬ BeginsWithDigit rest
        → IsSomeAnd result (λ cut. cut.1.now ≡ rest) }
{
    let Some((written, rest)) = leading_written(text) else {
        return None;
    };
    Some((written.prefix, rest))
}

/// The same, and whether the address is written with bits past the length.
#[inline(always)]
pub fn leading_written(text: &[u8]) -> Option<(WrittenPrefix, &[u8])>
    ensures found { IfSome result (λ cut. BeginsWith (λ token. IsWrittenPrefix token cut.0) text.now cut.1.now) }
    ensures usual { (rest : List ℕ) → BeginsWith IsUsualPrefix text.now rest → ¬ BeginsWithDigit rest
        → IsSomeAnd result (λ cut. cut.1.now ≡ rest) }
{
    let (first, rest) = group_before(text, b'.')?;
    let (second, rest) = group_before(rest, b'.')?;
    let (third, rest) = group_before(rest, b'.')?;
    let (fourth, rest) = group_before(rest, b'/')?;
    let (len, rest) = leading_number(rest)?;
    if len > u32::from(ADDRESS_LENGTH) {
        return None;
    }
    let address = Ip(u32::from_be_bytes([first, second, third, fourth]));
    Some((WrittenPrefix::new(address, len as u8), rest))
}
