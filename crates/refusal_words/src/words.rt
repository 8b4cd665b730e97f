//! What is wrong with a refused source, in words.

use crate::around::{
    character_at, declared, is_ipv6, is_number, is_prefix, is_sign, is_symbol, name_of, quoted,
    word_at,
};
use crate::nearest::nearest_word;
use crate::remedies::{
    IPV6, in_place_of, in_place_of_character, in_place_of_found, in_place_of_lengths,
    in_place_of_name,
};
use filter_parser::{Around, Expected, ParseFault};
use filter_source::{Diagnosis, Refusal};
use filter_tokens::{Symbol, Token, TokenFault, TokenKind, lex};
use filter_types::{ExpectedKind, TypeFault};
use filter_verifier::VerifyFault;
use prefix_patterns::read_ip;
use std::alloc::{AllocError, Global};

/// The words with which a command begins.
const HEADS: [&str; 9] = [
    "accept", "reject", "if", "else", "case", "int", "bool", "ip", "prefix",
];

/// What a name may mean that is no variable's.
const VALUES: [&str; 4] = ["net", "rip_metric", "true", "false"];

/// What some editors write before a text.
const BYTE_ORDER_MARK: &[u8] = b"\xef\xbb\xbf";

/// How the line begins that `check` writes before the digits of a code file.
const CODE_LINE: &[u8] = b"code ";

/// What is wrong with a source.
pub(crate) fn words_of(
    alloc: Global,
    text: &[u8],
    diagnosis: &Diagnosis,
) -> Result<String, AllocError> {
    match diagnosis.refusal {
        Refusal::Parse(fault) => parse_words(alloc, text, fault, &diagnosis.around),
        Refusal::Typing(fault) => kind_words(alloc, text, fault, &diagnosis.around),
        Refusal::Verify(fault) => code_words(alloc, fault, diagnosis.byte.is_some()),
        Refusal::Hexadecimal if text.starts_with(CODE_LINE) => {
            format!(in alloc; "{}: leave out the word `code`", diagnosis.refusal)
        }
        _ => format!(in alloc; "{}", diagnosis.refusal),
    }
}

/// What is wrong with a text that is no filter.
fn parse_words(
    alloc: Global,
    text: &[u8],
    fault: ParseFault,
    around: &Around,
) -> Result<String, AllocError> {
    match fault {
        ParseFault::Token(fault) => token_words(alloc, text, fault),
        ParseFault::Unexpected(at, expected) => unexpected(alloc, text, at, expected, around),
        ParseFault::MissingAssign(at, name) => head_words(alloc, text, at, name, around),
        _ => String::from_str(alloc, plain_words(fault)),
    }
}

/// The words of a fault of a text that says nothing of its place.
fn plain_words(fault: ParseFault) -> &'static str {
    match fault {
        ParseFault::MaskOverLimit(_) => "the argument of `mask` exceeds 32",
        ParseFault::PatternLengths(_) =>
            "the lengths of a pattern must be in order, and at most 32",
        ParseFault::RangeOrder(_) => "the lower number of a range comes first",
        ParseFault::TooDeep(_) => "nesting deeper than 32 levels",
        ParseFault::MixedOperators(_) => "`&&` and `||` are mixed: add parentheses",
        ParseFault::TooLong => "the filter is longer than 65536 bytes",
        ParseFault::EndsEarly(_) => "unexpected end of the text",
        ParseFault::TextElsewhere(_) => "unexpected text: only `accept` and `reject` take one",
        _ => "the text is no filter",
    }
}

/// The digits and dots that stand at a byte of a text, and what follows them.
fn split_address(text: &[u8], at: usize) -> (&[u8], &[u8]) {
    let (_, rest) = text.split_at(at.min(text.len()));
    let len = rest
        .iter()
        .take_while(|byte| byte.is_ascii_digit() || **byte == b'.')
        .count();
    rest.split_at(len.min(rest.len()))
}

/// Whether numbers with dots and a `/` stand at a byte of a text.
fn is_short_prefix(text: &[u8], at: usize) -> bool {
    split_address(text, at).1.starts_with(b"/")
}

/// What is wrong with a byte of which no token is made.
fn token_words(alloc: Global, text: &[u8], fault: TokenFault) -> Result<String, AllocError> {
    match fault {
        TokenFault::BadCharacter(at) => character_words(alloc, text, at),
        TokenFault::WordLeftOut(at) => left_out_words(alloc, word_at(text, at)),
        _ => String::from_str(alloc, plain_token_words(text, fault)),
    }
}

/// The words of such a fault that repeat nothing of the text.
fn plain_token_words(text: &[u8], fault: TokenFault) -> &'static str {
    match fault {
        TokenFault::OutOfRange(at) => range_words(text, at),
        TokenFault::NoDigit(_) => "`0x` without a hexadecimal digit",
        TokenFault::NumberTooLarge(_) => "the number exceeds 4294967295",
        TokenFault::NameTooLong(_) => "the name is longer than 64 bytes",
        TokenFault::UnendedComment(_) => "the comment is never closed by `*/`",
        TokenFault::UnendedText(_) => "the text has no closing double quote on its line",
        TokenFault::QuotedName(_) =>
            "names in single quotes are not supported: write the name without quotes",
        _ => "the text is no filter",
    }
}

/// What is wrong with a character that begins no token.
fn character_words(alloc: Global, text: &[u8], at: usize) -> Result<String, AllocError> {
    if is_ipv6(text, at) {
        return String::from_str(alloc, IPV6);
    }
    let (_, rest) = text.split_at(at.min(text.len()));
    if rest.starts_with(BYTE_ORDER_MARK) {
        return String::from_str(
            alloc,
            "unexpected byte order mark: save the text as UTF-8 without one",
        );
    }
    match (character_at(text, at), in_place_of_character(rest)) {
        (Some(character), Some(remedy)) => {
            format!(in alloc; "unexpected character `{character}`: {remedy}")
        }
        (Some(character), None) => format!(in alloc; "unexpected character `{character}`"),
        _ => String::from_str(alloc, "unexpected character"),
    }
}

/// What is wrong with a word that is left out by name.
fn left_out_words(alloc: Global, word: Option<&str>) -> Result<String, AllocError> {
    match word {
        Some(word) => {
            let remedy = in_place_of(word);
            format!(in alloc; "`{word}` is not supported: {remedy}")
        }
        None => String::from_str(alloc, "the word is not supported"),
    }
}

/// Which number of an address or of a prefix is too large.
fn range_words(text: &[u8], at: usize) -> &'static str {
    if read_ip(split_address(text, at).0).is_some() {
        "the length of the prefix exceeds 32"
    } else {
        "a number of the address exceeds 255"
    }
}

/// What stands in the place of what was expected.
fn found_words(alloc: Global, text: &[u8], found: Option<Token>) -> Result<String, AllocError> {
    let Some(token) = found else {
        return Ok(String::new(alloc));
    };
    match quoted(text, token.from, token.to) {
        Some(spelled) => piece_words(alloc, token.word, spelled),
        None => Ok(String::new(alloc)),
    }
}

/// A token as people read it.
fn piece_words(alloc: Global, kind: TokenKind, text: &str) -> Result<String, AllocError> {
    match kind {
        TokenKind::Text => String::from_str(alloc, ", found a quoted text"),
        _ => format!(in alloc; ", found `{text}`"),
    }
}

/// What to write in place of a name that is none of the variables.
fn foreign(text: &[u8], token: Option<Token>, variables: &[&str]) -> Option<&'static str> {
    let name = name_of(text, token)?;
    if is_among(name, variables) {
        return None;
    }
    in_place_of_name(name)
}

/// Whether a name is one of some.
fn is_among(name: &str, names: &[&str]) -> bool {
    for known in names {
        if *known == name {
            return true;
        }
    }
    false
}

/// What to write in place of a word behind a prefix of a set.
fn lengths_remedy(text: &[u8], expected: Expected, around: &Around) -> Option<&'static str> {
    if expected == Expected::CommaOrBracket && is_prefix(around.last) {
        in_place_of_lengths(name_of(text, around.found)?)
    } else {
        None
    }
}

/// What to write in place of what stands where something else is expected.
fn remedy_for(
    text: &[u8],
    expected: Expected,
    around: &Around,
    variables: &[&str],
) -> Option<&'static str> {
    if let Some(remedy) = lengths_remedy(text, expected, around) {
        return Some(remedy);
    }
    match foreign(text, around.found, variables) {
        Some(remedy) => Some(remedy),
        None => match foreign(text, around.last, variables) {
            Some(remedy) => Some(remedy),
            None => in_place_of_found(expected, *around),
        },
    }
}

/// Whether an address of IPv6 seems to stand where a prefix may, or a colon that was not expected.
fn is_foreign_address(text: &[u8], expected: Expected, found: Option<Token>, at: usize) -> bool {
    match expected {
        Expected::Member | Expected::Prefix => is_ipv6(text, at),
        _ => is_symbol(found, Symbol::Colon) && is_ipv6(text, at),
    }
}

/// Whether a member of a set is an address of fewer than four numbers and a `/`. The lexer takes the first of them for a number.
fn is_short_member(text: &[u8], expected: Expected, last: Option<Token>) -> bool {
    match last {
        Some(token) => {
            expected == Expected::CommaOrBracket
                && is_number(token.word)
                && is_short_prefix(text, token.from)
        }
        None => false,
    }
}

/// What is wrong where a prefix was meant: an address of IPv6, or one of fewer than four numbers in a set.
fn prefix_words(
    text: &[u8],
    expected: Expected,
    found: Option<Token>,
    last: Option<Token>,
    at: usize,
) -> Option<&'static str> {
    if is_foreign_address(text, expected, found, at) {
        return Some(IPV6);
    }
    if is_short_member(text, expected, last) {
        return Some("a prefix has four numbers before its `/`, as 10.0.0.0/8");
    }
    None
}

/// Whether a name that is none of the variables would be a word of the language in lower case.
fn is_in_capitals(alloc: Global, name: &str, variables: &[&str]) -> Result<bool, AllocError> {
    if is_among(name, variables) {
        return Ok(false);
    }
    let lower = name.to_ascii_lowercase(alloc)?;
    let lexed = lex(alloc, lower.as_bytes())?;
    match lexed.tokens.first() {
        Some(token) => Ok(token.word != TokenKind::Name),
        None => Ok(false),
    }
}

/// A sign where the `=` of an assignment is missing, and the name before it, as in `a += 1`.
fn changed_name<'a>(
    text: &'a [u8],
    expected: Expected,
    around: &Around,
) -> Option<(&'a str, &'a str)> {
    let name = around.last?;
    let sign = around.found?;
    if expected != Expected::Assign || !is_sign(sign.word) {
        return None;
    }
    Some((
        quoted(text, name.from, name.to)?,
        quoted(text, sign.from, sign.to)?,
    ))
}

/// What was expected in place of the token at a byte.
fn unexpected(
    alloc: Global,
    text: &[u8],
    at: usize,
    expected: Expected,
    around: &Around,
) -> Result<String, AllocError> {
    if let Some(words) = prefix_words(text, expected, around.found, around.last, at) {
        return String::from_str(alloc, words);
    }
    let found = found_words(alloc, text, around.found)?;
    let variables = declared(alloc, text, around.names.places())?;
    if let Some(name) = name_of(text, around.found) {
        if is_in_capitals(alloc, name, variables.as_slice())? {
            return format!(in alloc; "expected {expected}{found}: write it in lower case");
        }
    }
    if let Some((name, sign)) = changed_name(text, expected, around) {
        return format!(in alloc; "expected {expected}{found}: write `{name} = {name} {sign} ..`");
    }
    match remedy_for(text, expected, around, variables.as_slice()) {
        Some(remedy) => format!(in alloc; "expected {expected}{found}: {remedy}"),
        None => format!(in alloc; "expected {expected}{found}"),
    }
}

/// What is wrong with a command whose `=` is missing at a byte, and whose name is at another one.
fn head_words(
    alloc: Global,
    text: &[u8],
    at: usize,
    name: usize,
    around: &Around,
) -> Result<String, AllocError> {
    let variables = declared(alloc, text, around.names.places())?;
    let plain = unexpected(alloc, text, at, Expected::Assign, around)?;
    match word_at(text, name) {
        Some(name) if !is_among(name, variables.as_slice()) => no_command(
            alloc,
            name,
            plain.as_str(),
        ),
        _ => Ok(plain),
    }
}

/// The known word that somebody may have meant: one that differs in the case of its letters alone, or else the nearest.
fn meant_word<'a>(
    alloc: Global,
    word: &str,
    known: &[&'a str],
) -> Result<Option<&'a str>, AllocError> {
    for other in known {
        if other.eq_ignore_ascii_case(word) {
            return Ok(Some(*other));
        }
    }
    nearest_word(alloc, word, known)
}

/// What is wrong with a command that begins with a name which is no variable's.
fn no_command(alloc: Global, name: &str, plain: &str) -> Result<String, AllocError> {
    if let Some(remedy) = in_place_of_name(name) {
        return format!(in alloc; "`{name}` is no command: {remedy}");
    }
    match meant_word(alloc, name, HEADS.as_slice())? {
        Some(near) => format!(in alloc; "`{name}` is no command; did you mean `{near}`?"),
        None => format!(in alloc; "`{name}` is no command: {plain}"),
    }
}

/// What is wrong with the names and kinds of a filter.
fn kind_words(
    alloc: Global,
    text: &[u8],
    fault: TypeFault,
    around: &Around,
) -> Result<String, AllocError> {
    match fault {
        TypeFault::UnknownName(at) => match word_at(text, at) {
            Some(name) => name_words(alloc, text, name, around),
            None => String::from_str(alloc, "undeclared variable"),
        },
        TypeFault::DeclaredTwice(at) => match word_at(text, at) {
            Some(name) => format!(in alloc; "`{name}` is already declared"),
            None => String::from_str(alloc, "the variable is already declared"),
        },
        TypeFault::WrongKind(_, expected, kind) => {
            let found = ExpectedKind::from(kind);
            format!(in alloc; "expected {expected}, found {found}")
        }
        _ => String::from_str(alloc, plain_kind_words(fault)),
    }
}

/// The words of such a fault that repeat nothing of the text.
fn plain_kind_words(fault: TypeFault) -> &'static str {
    match fault {
        TypeFault::NetAssigned(_) => "`net` cannot be assigned",
        TypeFault::TooManyVariables(_) => "a filter has at most 16 variables",
        TypeFault::SharedLabel(_) =>
            "the label shares a number with an earlier label of its `case`",
        _ => "out of memory",
    }
}

/// Whether a name is in capitals, as those that BIRD's `define` gives mostly are.
fn is_constant(name: &str) -> bool {
    let bytes = name.as_bytes();
    bytes.iter().any(|byte| byte.is_ascii_uppercase())
        && !bytes.iter().any(|byte| byte.is_ascii_lowercase())
}

/// What is wrong with a name that is no variable's.
fn name_words(
    alloc: Global,
    text: &[u8],
    name: &str,
    around: &Around,
) -> Result<String, AllocError> {
    let mut known = declared(alloc, text, around.names.places())?;
    known.extend_from_slice(VALUES.as_slice())?;
    match meant_word(alloc, name, known.as_slice())? {
        Some(near) => {
            format!(in alloc; "`{name}` is no variable and no attribute; did you mean `{near}`?")
        }
        None if is_constant(name) => format!(in alloc;
            "`{name}` is no variable: `ncimport` puts in place what `define` names"
        ),
        None => format!(in alloc;
            "`{name}` is no variable, and a route has only `net` and `rip_metric`"
        ),
    }
}

/// What is wrong with code. Where the place in the text is shown, the instruction is not named.
fn code_words(alloc: Global, fault: VerifyFault, is_placed: bool) -> Result<String, AllocError> {
    match fault {
        VerifyFault::ZeroDivisor(_) if is_placed => {
            String::from_str(alloc, "the divisor may be 0")
        }
        VerifyFault::FullStack(_) if is_placed => String::from_str(
            alloc,
            "the expression needs more than 32 operands at a time",
        ),
        _ => format!(in alloc; "{fault}"),
    }
}
