//! Prefixes and decimal numbers, which most tokens of a long set are: their ends are found once, and no other shape is tried.

ghost use Rattle.std.specs.Prelude.{◌≡◌, false, IfSome, IsSome, List, ℕ, Some};
ghost use Rattle.prefix_patterns.specs.Leading.{BeginsWith, BeginsWithDigit, IsUsualPrefix};
ghost use Rattle.prefix_patterns.specs.Number.{IsDigits, decimal_value};
ghost use Rattle.filter_tokens.specs.Reading.{begins_digit, goes_on, number_ahead, token_in};

use crate::part::Part;
use crate::token_kind::TokenKind;
use prefix_patterns::{leading_number, leading_written};

/// In a text of so many bytes, no byte that is looked at while a prefix in the usual spelling is read can lie behind the end: not in its groups of
/// up to three digits, not in its length, and not after it.
const USUAL_ROOM: usize = 20;

/// The token at the front of a text that begins with a digit, where it is a prefix in the usual spelling or a decimal number.
pub(crate) fn digits_token(text: &[u8]) -> Option<Part>
    ensures token { IfSome result (λ part. token_in text.now ≡ Some part) }
    ensures usual { (rest : List ℕ) → BeginsWith IsUsualPrefix text.now rest → ¬ BeginsWithDigit rest → IsSome result }
    ensures number { IsSome (number_ahead text.now) → IsSome result }
{
    if begins_digit(text) {
        begun_token(text)
    } else {
        None
    }
}

/// The same, where the first byte is known to be a digit. It is read in the same way whether or not there is room, but where room is known to be
/// there, the compiled code does without the tests for the end of the text.
#[inline(always)]
fn begun_token(text: &[u8]) -> Option<Part>
    ensures token { IfSome result (λ part. token_in text.now ≡ Some part) }
    ensures usual { (rest : List ℕ) → BeginsWith IsUsualPrefix text.now rest → ¬ BeginsWithDigit rest → IsSome result }
    ensures number { IsSome (number_ahead text.now) → IsSome result }
{
    if text.len() < USUAL_ROOM {
        last_token(text)
    } else {
        usual_token(text)
    }
}

/// The same near the end of a text.
#[inline(never)]
fn last_token(text: &[u8]) -> Option<Part>
    ensures token { IfSome result (λ part. token_in text.now ≡ Some part) }
    ensures usual { (rest : List ℕ) → BeginsWith IsUsualPrefix text.now rest → ¬ BeginsWithDigit rest → IsSome result }
    ensures number { IsSome (number_ahead text.now) → IsSome result }
{
    usual_token(text)
}

/// A prefix in the usual spelling, or a decimal number.
#[inline(always)]
fn usual_token(text: &[u8]) -> Option<Part>
    ensures token { IfSome result (λ part. token_in text.now ≡ Some part) }
    ensures usual { (rest : List ℕ) → BeginsWith IsUsualPrefix text.now rest → ¬ BeginsWithDigit rest → IsSome result }
    ensures number { IsSome (number_ahead text.now) → IsSome result }
{
    match prefix_token(text) {
        Some(part) => Some(part),
        None => number_token(text),
    }
}

/// The token at the front of a text, where it is a prefix in the usual spelling: in no number of it more than three digits.
#[inline(always)]
fn prefix_token(text: &[u8]) -> Option<Part>
    ensures token { IfSome result (λ part. token_in text.now ≡ Some part) }
    // A prefix in the usual spelling is read in one pass.
    ensures usual { (rest : List ℕ) → BeginsWith IsUsualPrefix text.now rest → ¬ BeginsWithDigit rest → IsSome result }
{
    let Some((written, rest)) = leading_written(text) else {
        return None;
    };
    // A length of more digits is another one, or none.
    if begins_digit(rest) {
        return None;
    }
    let kind = TokenKind::Prefix {
        has_host_bits: written.has_host_bits,
        prefix: written.prefix,
    };
    Some(Part::Token(kind, text.len() - rest.len()))
}

/// The token at the front of a text, where it is a decimal number, and what follows its digits makes no longer token of them.
#[inline(always)]
fn number_token(text: &[u8]) -> Option<Part>
    ensures exact { result ≡ number_ahead text.now }
    ensures token { IfSome result (λ part. token_in text.now ≡ Some part) }
{
    let Some((number, others)) = leading_number(text) else {
        return long_number_token(text);
    };
    if begins_digit(others) {
        return long_number_token(text);
    }
    ended_number_token(text, number, others)
}

/// The same, of any number of digits. Few numbers have more than three.
#[inline(never)]
fn long_number_token(text: &[u8]) -> Option<Part>
    ensures exact { result ≡ number_ahead text.now }
    ensures token { IfSome result (λ part. token_in text.now ≡ Some part) }
{
    if !begins_digit(text) {
        return None;
    }
    let mut number = u32::from(text[0] - b'0');
    for at in 1..text.len() {
        let byte = text[at];
        if !byte.is_ascii_digit() {
            return ended_number_token(text, number, &text[at..]);
        }
        let longer = u64::from(number) * 10 + u64::from(byte - b'0');
        if longer > u64::from(u32::MAX) {
            return None;
        }
        number = longer as u32;
    }
    ended_number_token(text, number, &[])
}

/// The same, where the digits are read: they write the number, and `others` follows them.
#[inline(always)]
fn ended_number_token(text: &[u8], number: u32, others: &[u8]) -> Option<Part>
    requires leads { BeginsWith (λ digits. IsDigits digits × (number ≡ decimal_value digits)) text.now others.now }
    requires ends { begins_digit others.now ≡ false }
    ensures exact { result ≡ number_ahead text.now }
    ensures token { IfSome result (λ part. token_in text.now ≡ Some part) }
{
    if goes_on(others) {
        return None;
    }
    Some(Part::Token(TokenKind::Number(number), text.len() - others.len()))
}

/// Whether digits with this text behind them may begin a longer token: an address, by a dot and a digit, or hexadecimal, by an `x`.
fn goes_on(rest: &[u8]) -> bool
    ensures { result ≡ goes_on rest.now }
{
    match rest.split_first() {
        Some((b'.', others)) => begins_digit(others),
        Some((first, _)) => *first == b'x',
        None => false,
    }
}

/// Whether the first byte is a digit.
fn begins_digit(text: &[u8]) -> bool
    ensures { result ≡ begins_digit text.now }
{
    match text.first() {
        Some(first) => first.is_ascii_digit(),
        None => false,
    }
}
