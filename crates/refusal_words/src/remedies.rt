//! What to write in place of what this language has not.

use crate::around::{is_kind, is_name, is_prefix, is_symbol};
use filter_parser::{Around, Expected};
use filter_tokens::{Symbol, Token, TokenKind};

/// What to write in place of an address of IPv6.
pub const IPV6: &str = "IPv6 is not supported: write prefixes of IPv4, as 10.0.0.0/8";

/// What to write in place of a word of BIRD's that is left out by name.
pub(crate) fn in_place_of(word: &str) -> &'static str {
    match word {
        "define" => "write the value or the set where it is used",
        "function" | "return" => "write the commands where the function is called",
        "print" | "printn" => "leave it out, or write the text after `accept` or `reject`",
        "include" => "write the text of the file in its place",
        "set" => "write the set where it is used",
        "from" | "proto" | "preference" | "source" => "a route has only `net` and `rip_metric`",
        _ => "a variable is an int, a bool, an ip or a prefix",
    }
}

/// What to write in place of a word of other languages.
pub(crate) fn in_place_of_name(name: &str) -> Option<&'static str> {
    match name {
        "not" => Some("write `!`"),
        "and" => Some("write `&&`"),
        "or" => Some("write `||`"),
        "elsif" | "elseif" | "elif" => Some("write `else if`"),
        "permit" => Some("write `accept`"),
        "deny" | "drop" => Some("write `reject`"),
        "for" | "while" => Some("there are no loops"),
        "in" => Some("write `~`"),
        "default" => Some("write `else:`"),
        _ => None,
    }
}

/// What to write in place of a word that says of a prefix in a set which lengths are meant.
pub(crate) fn in_place_of_lengths(name: &str) -> Option<&'static str> {
    match name {
        "le" | "ge" | "eq" | "upto" | "exact" | "longer" | "orlonger" => {
            Some("write the lengths in braces, as `10.0.0.0/8{8,24}`")
        }
        _ => None,
    }
}

/// What to write in place of a character that begins no token.
pub(crate) fn in_place_of_character(rest: &[u8]) -> Option<&'static str> {
    if rest.starts_with(b"&") {
        Some("write `&&`")
    } else if rest.starts_with(b"|") {
        Some("write `||`")
    } else {
        None
    }
}

/// Whether a token is the name of a kind.
fn begins_declaration(token: Option<Token>) -> bool {
    match token {
        Some(token) => is_kind(token.word),
        None => false,
    }
}

/// What to write where the `;` of a command is missing.
fn in_place_of_semicolon(around: Around) -> Option<&'static str> {
    if is_symbol(around.found, Symbol::Equal) && begins_declaration(around.earlier) {
        Some("declare the variable first, and assign to it in a command")
    } else {
        None
    }
}

/// What to write where a value is missing behind a `=`.
fn in_place_of_compared(around: Around) -> Option<&'static str> {
    if is_symbol(around.found, Symbol::Equal) {
        Some("compare by a single `=`")
    } else if is_symbol(around.found, Symbol::Greater) {
        Some("write `>=`")
    } else if is_symbol(around.found, Symbol::Less) {
        Some("write `<=`")
    } else {
        None
    }
}

/// Whether a prefix stands before a `+` or a `-`, as in a pattern.
fn is_pattern(around: Around) -> bool {
    let is_signed = is_symbol(around.last, Symbol::Plus) || is_symbol(around.last, Symbol::Minus);
    is_signed && is_prefix(around.earlier)
}

/// What to write where a value is missing.
fn in_place_of_operand(around: Around) -> Option<&'static str> {
    if is_symbol(around.last, Symbol::Equal) {
        in_place_of_compared(around)
    } else if is_pattern(around) {
        Some("a pattern stands in `[ ]`, as in `net ~ [ 10.0.0.0/8+ ]`")
    } else {
        None
    }
}

/// What to write where a body is missing.
fn in_place_of_body(around: Around) -> Option<&'static str> {
    let is_sign = is_symbol(around.found, Symbol::Minus) || is_symbol(around.found, Symbol::Dot);
    if is_sign && is_name(around.last) {
        Some("a name is letters, digits and `_`")
    } else {
        None
    }
}

/// Whether an `else` stands behind a command that has ended.
fn is_late_else(around: Around) -> bool {
    is_symbol(around.found, Symbol::Else) && is_symbol(around.last, Symbol::Semicolon)
}

/// What to write where the next command, or the end of all, is missing.
fn in_place_of_command(around: Around) -> Option<&'static str> {
    if begins_declaration(around.found) {
        Some("declare variables before the first command")
    } else if is_late_else(around) {
        Some("its `if` has ended: several commands of one stand in braces")
    } else {
        None
    }
}

/// What to write where the `=` of an assignment is missing.
fn in_place_of_assign(around: Around) -> Option<&'static str> {
    if is_symbol(around.found, Symbol::Colon) {
        Some("assign by `=`")
    } else {
        None
    }
}

/// What to write where the text goes on behind the filter.
fn in_place_of_end(around: Around) -> Option<&'static str> {
    if is_symbol(around.found, Symbol::Semicolon) {
        Some("take it out")
    } else if is_symbol(around.found, Symbol::Filter) {
        Some("a text is one filter")
    } else {
        None
    }
}

/// What a set has.
const ONE_KIND: &str = "a set has prefixes or numbers, and not both";

/// What to write in place of a token where the prefix of a pattern is missing.
fn in_place_of_prefix(kind: TokenKind) -> Option<&'static str> {
    match kind {
        TokenKind::Address(_) => Some("write an address as a prefix of length 32"),
        TokenKind::Number(_) => Some(ONE_KIND),
        _ => None,
    }
}

/// What to write in place of a token where the first member of a set is missing.
fn in_place_of_member(kind: TokenKind) -> Option<&'static str> {
    match kind {
        TokenKind::Symbol(Symbol::RightBracket) => Some("a set has one member at least"),
        _ => in_place_of_prefix(kind),
    }
}

/// What to write in place of a token where a number is missing.
fn in_place_of_number(kind: TokenKind) -> Option<&'static str> {
    match kind {
        TokenKind::Prefix { .. } => Some(ONE_KIND),
        _ => None,
    }
}

/// Whether a name stands before a `(`, as where a function is called.
fn is_call(around: Around) -> bool {
    is_name(around.last) && is_symbol(around.found, Symbol::LeftParen)
}

/// What to write where this is expected, if that is no plain slip.
pub(crate) fn in_place_of_found(expected: Expected, around: Around) -> Option<&'static str> {
    if is_call(around) {
        return Some("there are no functions: write the commands in place, as `ncimport` does");
    }
    match expected {
        Expected::Semicolon => in_place_of_semicolon(around),
        Expected::Operand | Expected::OperandOrSet => in_place_of_operand(around),
        Expected::End => in_place_of_end(around),
        Expected::Assign => in_place_of_assign(around),
        Expected::Member => in_place_of_member(around.found?.word),
        Expected::Prefix => in_place_of_prefix(around.found?.word),
        Expected::Number => in_place_of_number(around.found?.word),
        Expected::CommandOrEnd => in_place_of_command(around),
        Expected::Body => in_place_of_body(around),
        Expected::FilterWord => Some("a text is one filter, `filter NAME { .. }`"),
        Expected::Name if is_symbol(around.found, Symbol::LeftBrace) => Some(
            "give the filter a name",
        ),
        _ => None,
    }
}
