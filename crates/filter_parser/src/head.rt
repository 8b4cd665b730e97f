//! The name with which a command begins whose `=` is missing: it may be a misspelt command.
ghost use Rattle.std.specs.Prelude.{◌≡◌, None};
ghost use Rattle.filter_parser.specs.Heads.{expected_with_head, missing_at, name_before, named, with_head};

use expression_parser::{Expected, ParseFault};
use filter_tokens::{Token, TokenKind};

/// Where a token begins, if it is a name.
fn named(token: &Token) -> Option<usize>
    ensures { result ≡ named token.now.word token.now }
{
    match token.word {
        TokenKind::Name => Some(token.from),
        _ => None,
    }
}

/// Where the last of the tokens begins that end at a byte or before it, if it is a name.
fn name_before(tokens: &[Token], at: usize) -> Option<usize>
    ensures { result ≡ name_before at None tokens.now }
{
    let mut found = None;
    for token in tokens {
        if token.to <= at {
            found = named(token);
        }
    }
    found
}

/// The fault of a `=` that is missing at a byte, behind this name if there is one.
fn missing_at(at: usize, name: Option<usize>) -> ParseFault
    ensures { result ≡ missing_at at name }
{
    match name {
        Some(name) => ParseFault::MissingAssign(at, name),
        None => ParseFault::Unexpected(at, Expected::Assign),
    }
}

/// The fault at a byte where something else is expected, with the name before it where that is a `=`.
fn expected_with_head(tokens: &[Token], at: usize, expected: Expected) -> ParseFault
    ensures { result ≡ expected_with_head tokens.now at expected }
{
    match expected {
        Expected::Assign => missing_at(at, name_before(tokens, at)),
        _ => ParseFault::Unexpected(at, expected),
    }
}

/// A fault in the text of these tokens, with the name before it where it is a missing `=`.
pub(crate) fn with_head(tokens: &[Token], fault: ParseFault) -> ParseFault
    ensures { result ≡ with_head tokens.now fault }
{
    match fault {
        ParseFault::Unexpected(at, expected) => expected_with_head(tokens, at, expected),
        ParseFault::MissingAssign(at, _) => missing_at(at, name_before(tokens, at)),
        _ => fault,
    }
}
