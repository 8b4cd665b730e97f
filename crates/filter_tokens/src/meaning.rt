//! What the bytes of a token mean.

ghost use Rattle.std.specs.Option.{option_map};
ghost use Rattle.std.specs.List.{list_any};
ghost use Rattle.std.specs.Prelude.{◌≡◌, ◌∷◌, [], IfErr, find};
ghost use Rattle.std.specs.Str.{bytes_eq};
ghost use Rattle.filter_tokens.specs.Codes.{fault_place};
ghost use Rattle.filter_tokens.specs.Reading as spec;
ghost use Rattle.prefix_patterns.specs.Reading.{address_in, written_in};

use crate::fault::TokenFault;
use crate::shape::Shape;
use crate::symbol::Symbol;
use crate::token_kind::TokenKind;
use prefix_patterns::{read_ip, read_number, read_written};

/// The most bytes of a name.
const NAME_LIMIT: usize = 64;

/// The word that bytes of a shape mean. They begin at `at`.
pub(crate) fn meaning(shape: Shape, bytes: &[u8], at: usize) -> Result<TokenKind, TokenFault>
    ensures is { spec.OkWhereSome result (spec.meaning_in shape bytes.now) }
    ensures placed { IfErr result (λ fault. fault_place fault ≡ at) }
{
    match shape {
        Shape::Word => word(bytes, at),
        Shape::Decimal => number(read_number(bytes, u32::MAX), at),
        Shape::Hexadecimal => hexadecimal(bytes, at),
        Shape::Address => address(bytes, at),
        Shape::Prefix => prefix(bytes, at),
        Shape::Text => Ok(TokenKind::Text),
        Shape::Punctuator(punctuator) => Ok(TokenKind::Symbol(punctuator)),
    }
}

/// A name or a keyword.
#[tactic(auto, unfolding(crate::specs::Reading::word_in))]
fn word(bytes: &[u8], at: usize) -> Result<TokenKind, TokenFault>
    ensures is { spec.OkWhereSome result (spec.word_in bytes.now) }
    ensures placed { IfErr result (λ fault. fault_place fault ≡ at) }
{
    if let Some(symbol) = keyword(bytes) {
        return Ok(TokenKind::Symbol(symbol));
    }
    if bytes.len() > NAME_LIMIT {
        return Err(TokenFault::NameTooLong(at));
    }
    if is_left_out(bytes) {
        return Err(TokenFault::WordLeftOut(at));
    }
    Ok(TokenKind::Name)
}

/// The keyword that is written so.
#[tactic(auto, unfolding(crate::specs::Reading::keyword_in))]
fn keyword(bytes: &[u8]) -> Option<Symbol>
    ensures { spec.keyword_in bytes.now ≡ result }
{
    let (first, _) = bytes.split_first()?;
    keyword_with(*first, bytes)
}

/// The keyword that is written so, among those that begin with a byte. Each of them is named where it is compared, so that its length and its
/// bytes are known there.
fn keyword_with(first: u8, bytes: &[u8]) -> Option<Symbol>
    ensures { find (spec.is_spelled bytes.now) (spec.keywords_with first) ≡ result }
{
    match first {
        b'a' => spelled(Symbol::Accept, bytes),
        b'b' => spelled(Symbol::Bool, bytes),
        b'c' => spelled(Symbol::Case, bytes),
        b'd' => spelled(Symbol::Defined, bytes),
        b'e' => spelled(Symbol::Else, bytes),
        b'f' => spelled_either(Symbol::Filter, Symbol::False, bytes),
        b'i' => spelled_any(Symbol::Int, Symbol::Ip, Symbol::If, bytes),
        b'n' => spelled(Symbol::Net, bytes),
        b'p' => spelled(Symbol::Prefix, bytes),
        b'r' => spelled_either(Symbol::Reject, Symbol::RipMetric, bytes),
        b't' => spelled_either(Symbol::Then, Symbol::True, bytes),
        _ => None,
    }
}

/// The symbol, if it is written so.
#[inline(always)]
fn spelled(symbol: Symbol, bytes: &[u8]) -> Option<Symbol>
    ensures { find (spec.is_spelled bytes.now) (symbol ∷ []) ≡ result }
{
    if are_same(symbol.text().as_bytes(), bytes) {
        return Some(symbol);
    }
    None
}

/// The first of two symbols that is written so.
#[inline(always)]
fn spelled_either(first: Symbol, second: Symbol, bytes: &[u8]) -> Option<Symbol>
    ensures { find (spec.is_spelled bytes.now) (first ∷ second ∷ []) ≡ result }
{
    match spelled(first, bytes) {
        Some(symbol) => Some(symbol),
        None => spelled(second, bytes),
    }
}

/// The first of three symbols that is written so.
#[inline(always)]
fn spelled_any(first: Symbol, second: Symbol, third: Symbol, bytes: &[u8]) -> Option<Symbol>
    ensures { find (spec.is_spelled bytes.now) (first ∷ second ∷ third ∷ []) ≡ result }
{
    match spelled(first, bytes) {
        Some(symbol) => Some(symbol),
        None => spelled_either(second, third, bytes),
    }
}

/// Whether the language leaves this word out.
#[tactic(auto, unfolding(crate::specs::Reading::is_left_out))]
fn is_left_out(bytes: &[u8]) -> bool
    ensures { result ≡ spec.is_left_out bytes.now }
{
    match bytes.split_first() {
        Some((first, _)) => is_left_out_with(*first, bytes),
        None => false,
    }
}

/// Whether it is one of the words of BIRD's filters that are neither names nor keywords here, and begin with a byte.
fn is_left_out_with(first: u8, bytes: &[u8]) -> bool
    ensures { result ≡ list_any (λ word. bytes_eq word bytes.now) (spec.left_out_with first) }
{
    match first {
        b'b' => is_word("bgppath", bytes) || is_word("bgpmask", bytes),
        b'c' => is_word("clist", bytes),
        b'd' => is_word("define", bytes),
        b'e' => is_word("ec", bytes) || is_word("eclist", bytes),
        b'f' => is_word("function", bytes) || is_word("from", bytes),
        b'i' => is_word("include", bytes),
        b'l' => is_word("lc", bytes) || is_word("lclist", bytes),
        b'p' => {
            is_word("print", bytes)
                || is_word("printn", bytes)
                || is_word("pair", bytes)
                || is_word("proto", bytes)
                || is_word("preference", bytes)
        }
        b'q' => is_word("quad", bytes),
        b'r' => is_word("return", bytes),
        b's' => is_word("string", bytes) || is_word("set", bytes) || is_word("source", bytes),
        _ => false,
    }
}

/// Whether the word is spelled so.
#[inline(always)]
fn is_word(word: &str, bytes: &[u8]) -> bool
    ensures { result ≡ bytes_eq word.now bytes.now }
{
    are_same(word.as_bytes(), bytes)
}

/// Whether a word is spelled by these bytes. The word is known where this is called and few bytes long, so it is compared byte by byte.
#[inline(always)]
fn are_same(word: &[u8], bytes: &[u8]) -> bool
    ensures { result ≡ bytes_eq word.now bytes.now }
{
    if word.len() != bytes.len() {
        return false;
    }
    for at in 0..word.len() {
        if word[at] != bytes[at] {
            return false;
        }
    }
    true
}

/// A number that was read, or was too large.
fn number(read: Option<u32>, at: usize) -> Result<TokenKind, TokenFault>
    ensures is { spec.OkWhereSome result (option_map TokenKind.Number read) }
    ensures placed { IfErr result (λ fault. fault_place fault ≡ at) }
{
    match read {
        Some(n) => Ok(TokenKind::Number(n)),
        None => Err(TokenFault::NumberTooLarge(at)),
    }
}

/// The number after a `0x`.
#[tactic(auto, unfolding(crate::specs::Reading::hexadecimal_in))]
fn hexadecimal(bytes: &[u8], at: usize) -> Result<TokenKind, TokenFault>
    ensures is { spec.OkWhereSome result (option_map TokenKind.Number (spec.hexadecimal_in bytes.now)) }
    ensures placed { IfErr result (λ fault. fault_place fault ≡ at) }
{
    if bytes.len() < 3 {
        return Err(TokenFault::NoDigit(at));
    }
    number(read_hexadecimal(&bytes[2..]), at)
}

/// Reads a number from a text that is hexadecimal digits and nothing else, unless it is over 4,294,967,295.
#[tactic(auto, unfolding(crate::specs::Reading::hexadecimal_from))]
fn read_hexadecimal(digits: &[u8]) -> Option<u32>
    ensures { spec.hexadecimal_from 0 digits.now ≡ result }
{
    let mut value = 0;
    for byte in digits {
        value = with_digit(value, *byte)?;
    }
    Some(value)
}

/// The number with one more hexadecimal digit at its end, if the byte is one and the number is not too large.
fn with_digit(value: u32, byte: u8) -> Option<u32>
    ensures { spec.with_digit value byte ≡ result }
{
    let digit = char::from(byte).to_digit(16)?;
    let longer = u64::from(value) * 16 + u64::from(digit);
    if longer > u64::from(u32::MAX) {
        return None;
    }
    Some(longer as u32)
}

/// An address, unless a group of it is over 255.
fn address(bytes: &[u8], at: usize) -> Result<TokenKind, TokenFault>
    ensures is { spec.OkWhereSome result (option_map (λ address. TokenKind.Address (record { 0 = address })) (address_in bytes.now)) }
    ensures placed { IfErr result (λ fault. fault_place fault ≡ at) }
{
    match read_ip(bytes) {
        Some(ip) => Ok(TokenKind::Address(ip)),
        None => Err(TokenFault::OutOfRange(at)),
    }
}

/// A prefix, unless a group of its address is over 255 or its length over 32.
fn prefix(bytes: &[u8], at: usize) -> Result<TokenKind, TokenFault>
    ensures is { spec.OkWhereSome result (option_map spec.prefix_kind (written_in bytes.now)) }
    ensures placed { IfErr result (λ fault. fault_place fault ≡ at) }
{
    match read_written(bytes) {
        Some(written) => Ok(TokenKind::Prefix {
            has_host_bits: written.has_host_bits,
            prefix: written.prefix,
        }),
        None => Err(TokenFault::OutOfRange(at)),
    }
}
