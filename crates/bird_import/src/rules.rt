//! Whether words are written as others by the rules that look at few of them.
//!
//! **Long rewrites are made in small steps.** A `case` is written one label at a time, and what a function returns one condition at a time, so that
//! each rule is about a few parts that stand side by side. What stands between two such steps need be a text of neither language: the parser takes
//! the last one only.
ghost use Rattle.bird_import.specs.Alike.{AreAlike};
ghost use Rattle.std.specs.Prelude.{◌≡◌, ◌↔◌, ◌≢◌, ◌∷◌, ◌++◌, ◌<◌, false, length, All, IfSome, IsTrue, Some};
ghost use Rattle.bird_import.specs.Rules as spec;
ghost use Rattle.bird_import.specs.declared.word.WordKind.TheVariants as kind;

use crate::word::{Word, WordKind, bytes_at, is_at, is_name_at};
use filter_tokens::Symbol;

/// Whether two words are the same, wherever they stand.
pub(crate) fn is_same(one: &Word<'_>, other: &Word<'_>) -> bool
    ensures { IsTrue result → spec.IsSame one.now other.now }
{
    one.kind == other.kind && one.bytes == other.bytes
}

/// Whether words are the same, one by one.
pub(crate) fn are_same(words: &[Word<'_>], others: &[Word<'_>]) -> bool
    ensures { IsTrue result → AreAlike spec.IsSame words.now others.now }
{
    if words.len() != others.len() {
        return false;
    }
    for at in 0..words.len() {
        if !is_same(&words[at], &others[at]) {
            return false;
        }
    }
    true
}

/// Whether words are others in parentheses.
pub(crate) fn is_grouped(inner: &[Word<'_>], new: &[Word<'_>]) -> bool
    ensures { IsTrue result → spec.IsGrouped inner.now new.now }
{
    let [open, kept @ .., close] = new else {
        return false;
    };
    open.is(Symbol::LeftParen) && close.is(Symbol::RightParen) && are_same(inner, kept)
}

/// Whether a word opens parentheses, brackets or braces.
pub(crate) fn opens(kind: WordKind) -> bool
    ensures { result ≡ spec.opens kind }
{
    matches!(
        kind,
        WordKind::Symbol(Symbol::LeftParen | Symbol::LeftBracket | Symbol::LeftBrace)
    )
}

/// Whether a word closes them.
pub(crate) fn closes(kind: WordKind) -> bool
    ensures { result ≡ spec.closes kind }
{
    matches!(
        kind,
        WordKind::Symbol(Symbol::RightParen | Symbol::RightBracket | Symbol::RightBrace)
    )
}

/// Whether all that is opened among some words is closed among them, and nothing else.
#[tactic(auto, unfolding(crate::specs::Rules::open_behind))]
pub(crate) fn are_balanced(words: &[Word<'_>]) -> bool
    ensures { IsTrue result ↔ (spec.open_behind 0 words.now ≡ Some 0) }
{
    let mut depth = 0usize;
    for word in words {
        if opens(word.kind) {
            depth = match depth.checked_add(1) {
                Some(deeper) => deeper,
                None => return false,
            };
        } else if closes(word.kind) {
            if depth == 0 {
                return false;
            }
            depth -= 1;
        }
    }
    depth == 0
}

/// Whether words are a set.
#[tactic(auto, using(crate::proofs::Bracketed::set_is, crate::proofs::Bracketed::set_is_long))]
pub(crate) fn is_set(words: &[Word<'_>]) -> bool
    ensures { IsTrue result ↔ spec.IsSet words.now }
{
    let [opening, inner @ .., closing] = words else {
        return false;
    };
    opening.is(Symbol::LeftBracket) && closing.is(Symbol::RightBracket) && are_balanced(inner)
}

/// Whether a value is the same beside any operator: it is one word or a set.
pub(crate) fn is_one_operand(value: &[Word<'_>]) -> bool
    ensures { IsTrue result ↔ spec.IsOneOperand value.now }
{
    value.len() == 1 || is_set(value)
}

/// Whether a value is put in: one word or a set as it is, and any other in parentheses.
fn is_placed(value: &[Word<'_>], new: &[Word<'_>]) -> bool
    ensures { IsTrue result → spec.IsPlaced value.now new.now }
{
    if is_one_operand(value) {
        are_same(value, new)
    } else {
        is_grouped(value, new)
    }
}

/// Whether none of some words is this keyword or punctuator.
fn have_none(symbol: Symbol, words: &[Word<'_>]) -> bool
    ensures { IsTrue result → All (λ word. word.kind ≢ kind.Symbol symbol) words.now }
{
    words.iter().all(|word| !word.is(symbol))
}

/// Words in two parts, the first of them so long.
#[tactic(auto, using(crate::proofs::Splits::side_by_side))]
pub(crate) fn split<'w, 'a>(
    words: &'w [Word<'a>],
    len: usize,
) -> Option<(&'w [Word<'a>], &'w [Word<'a>])>
    ensures { IfSome result (λ parts. words.now ≡ parts.0.now ++ parts.1.now) }
{
    words.split_at_checked(len)
}

/// The words before the first of a keyword or punctuator, that word, and the words behind it.
pub(crate) fn until<'w, 'a>(
    symbol: Symbol,
    words: &'w [Word<'a>],
) -> Option<(&'w [Word<'a>], &'w Word<'a>, &'w [Word<'a>])>
    ensures { IfSome result (λ found. (words.now ≡ found.0.now ++ found.1.now ∷ found.2.now) × spec.Is symbol found.1.now
        × All (λ word. word.kind ≢ kind.Symbol symbol) found.0.now) }
{
    let len = words.iter().position(|word| word.is(symbol))?;
    let (front, rest) = split(words, len)?;
    let (found, behind) = rest.split_first()?;
    if have_none(symbol, front) && found.is(symbol) {
        Some((front, found, behind))
    } else {
        None
    }
}

/// Whether a name is written as the value of the definition that begins some words of the configuration.
fn is_defined_by(words: &[Word<'_>], name: &Word<'_>, new: &[Word<'_>]) -> bool
    ensures { IsTrue result → spec.Defines words.now name.now new.now }
{
    let [begin, defined, equal, rest @ ..] = words else {
        return false;
    };
    let Some((value, end, _)) = until(Symbol::Semicolon, rest) else {
        return false;
    };
    begin.is_foreign(b"define")
        && is_same(defined, name)
        && equal.is(Symbol::Equal)
        && end.at < name.at
        && is_placed(value, new)
}

/// Whether a name is written as the value of the definition that begins at an index of the configuration.
pub(crate) fn is_defined(config: &[Word<'_>], at: usize, old: &[Word<'_>], new: &[Word<'_>]) -> bool
    ensures { IsTrue result → spec.IsDefined config.now old.now new.now }
{
    let (Some((name, none)), Some((_, words))) = (old.split_first(), config.split_at_checked(at))
    else {
        return false;
    };
    none.is_empty() && name.is_name() && is_defined_by(words, name, new)
}

/// Whether a word of BIRD's is an attribute whose name this language leaves out.
fn is_attribute_word(word: &[u8]) -> bool
    ensures { result ≡ spec.is_attribute_word word.now }
{
    word == b"from".as_slice()
        || word == b"proto".as_slice()
        || word == b"source".as_slice()
        || word == b"preference".as_slice()
}

/// Whether a word may be printed.
fn is_harmless(word: &Word<'_>) -> bool
    ensures { result ≡ spec.is_harmless word.now.kind word.now.bytes.now }
{
    match word.kind {
        WordKind::Symbol(symbol) => matches!(
            symbol,
            Symbol::Comma
                | Symbol::Dot
                | Symbol::LeftParen
                | Symbol::RightParen
                | Symbol::Plus
                | Symbol::Minus
                | Symbol::Times
                | Symbol::Net
                | Symbol::RipMetric
                | Symbol::Ip
                | Symbol::True
                | Symbol::False
        ),
        WordKind::Foreign => is_attribute_word(word.bytes),
        WordKind::Strange => false,
        _ => true,
    }
}

/// Whether a function is called at an index: `mask` is none.
fn may_call(words: &[Word<'_>], at: usize) -> bool
    requires { at < length words.now }
    ensures { result ≡ false → spec.CallsNoneAt words.now at }
{
    is_name_at(words, at)
        && is_at(words, at + 1, Symbol::LeftParen)
        && bytes_at(words, at) != b"mask".as_slice()
}

/// Whether no function is called among some words.
fn calls_none(words: &[Word<'_>]) -> bool
    ensures { IsTrue result → spec.CallsNone words.now }
{
    for at in 0..words.len() {
        if may_call(words, at) {
            return false;
        }
    }
    true
}

/// Whether words may be printed.
fn are_harmless(words: &[Word<'_>]) -> bool
    ensures each { IsTrue result → All spec.IsHarmless words.now }
    ensures free { IsTrue result → spec.CallsNone words.now }
{
    words.iter().all(|word| is_harmless(word)) && calls_none(words)
}

/// Whether a command that prints is left out.
pub(crate) fn is_unprinted(old: &[Word<'_>], new: &[Word<'_>]) -> bool
    ensures { IsTrue result → spec.IsUnprinted old.now new.now }
{
    let (Some((print, rest)), [stop]) = (old.split_first(), new) else {
        return false;
    };
    let Some((end, terms)) = rest.split_last() else {
        return false;
    };
    (print.is_foreign(b"print") || print.is_foreign(b"printn"))
        && end.is(Symbol::Semicolon)
        && stop.is(Symbol::Semicolon)
        && are_harmless(terms)
}

/// Whether what is left of some terms is their first text, or nothing.
fn is_first_text(old: &[Word<'_>], new: &[Word<'_>]) -> bool
    ensures { IsTrue result → spec.IsFirstText old.now new.now }
{
    match (old, new) {
        (_, []) => true,
        ([text, _others @ ..], [kept]) => text.kind == WordKind::Text && is_same(text, kept),
        _ => false,
    }
}

/// Whether what is printed behind `accept` or `reject` is cut to its first text.
pub(crate) fn is_shortened(front: &[Word<'_>], old: &[Word<'_>], new: &[Word<'_>]) -> bool
    ensures { IsTrue result → spec.IsShortened front.now old.now new.now }
{
    let Some((command, _)) = front.split_last() else {
        return false;
    };
    (command.is(Symbol::Accept) || command.is(Symbol::Reject))
        && are_harmless(old)
        && is_first_text(old, new)
}

/// Whether a `;` is put in before `else` or a closing brace.
pub(crate) fn is_separated(old: &[Word<'_>], new: &[Word<'_>], back: &[Word<'_>]) -> bool
    ensures { IsTrue result → spec.IsSeparated old.now new.now back.now }
{
    let ([stop], Some((next, _))) = (new, back.split_first()) else {
        return false;
    };
    old.is_empty()
        && stop.is(Symbol::Semicolon)
        && (next.is(Symbol::Else) || next.is(Symbol::RightBrace))
}

/// Whether a word is a number or an address.
pub(crate) fn is_constant(kind: WordKind) -> bool
    ensures { result ≡ spec.is_constant kind }
{
    matches!(kind, WordKind::Number | WordKind::Address(_))
}

/// Whether a member of a set may begin behind a word, or a further label.
fn begins_member(kind: WordKind) -> bool
    ensures { result ≡ spec.begins_member kind }
{
    matches!(
        kind,
        WordKind::Symbol(Symbol::Comma | Symbol::DotDot | Symbol::LeftBracket)
    )
}

/// Whether a label or a member of a set may begin behind a word, and no command with a parenthesis.
pub(crate) fn begins_constant(kind: WordKind) -> bool
    ensures { result ≡ spec.begins_constant kind }
{
    ends_command(kind) || begins_member(kind)
}

/// Whether a label or a set goes on, or ends, with a word.
pub(crate) fn ends_constant(kind: WordKind) -> bool
    ensures { result ≡ spec.ends_constant kind }
{
    matches!(
        kind,
        WordKind::Symbol(Symbol::Comma | Symbol::DotDot | Symbol::Colon | Symbol::RightBracket)
    )
}

/// Whether a constant is taken out of its parentheses.
fn is_bare(old: &[Word<'_>], new: &[Word<'_>]) -> bool
    ensures { IsTrue result → spec.IsBare old.now new.now }
{
    match (old, new) {
        ([opening, constant, closing], [kept]) => {
            opening.is(Symbol::LeftParen)
                && closing.is(Symbol::RightParen)
                && is_constant(constant.kind)
                && is_same(constant, kept)
        }
        _ => false,
    }
}

/// Whether a constant of a label or a set is taken out of its parentheses.
pub(crate) fn is_unwrapped(
    front: &[Word<'_>],
    old: &[Word<'_>],
    new: &[Word<'_>],
    back: &[Word<'_>],
) -> bool
    ensures { IsTrue result → spec.IsUnwrapped front.now old.now new.now back.now }
{
    match (front.split_last(), back.split_first()) {
        (Some((last, _)), Some((next, _))) => {
            begins_constant(last.kind) && ends_constant(next.kind) && is_bare(old, new)
        }
        _ => false,
    }
}

/// Whether a test of the kind of a prefix comes out so.
fn is_test(compare: &Word<'_>, family: &Word<'_>, answer: &Word<'_>) -> bool
    ensures { IsTrue result → spec.IsTest compare.now family.now answer.now }
{
    let (equal, differ) = (compare.is(Symbol::Equal), compare.is(Symbol::NotEqual));
    let (new, old) = (family.is_named(b"NET_IP6"), family.is_named(b"NET_IP4"));
    let (yes, no) = (answer.is(Symbol::True), answer.is(Symbol::False));
    (equal && old && yes) || (differ && old && no) || (equal && new && no) || (differ && new && yes)
}

/// Whether a test of the kind of a prefix is written as its answer.
pub(crate) fn is_type_test(old: &[Word<'_>], new: &[Word<'_>]) -> bool
    ensures { IsTrue result → spec.IsTypeTest old.now new.now }
{
    match (old, new) {
        ([net, dot, property, compare, family], [answer]) => {
            net.is(Symbol::Net)
                && dot.is(Symbol::Dot)
                && property.is_named(b"type")
                && is_test(compare, family, answer)
        }
        _ => false,
    }
}

/// Whether no expression goes on with a word.
fn is_separator(kind: WordKind) -> bool
    ensures { result ≡ spec.is_separator kind }
{
    matches!(
        kind,
        WordKind::Symbol(
            Symbol::Semicolon
                | Symbol::Then
                | Symbol::Else
                | Symbol::Colon
                | Symbol::If
                | Symbol::Case
        )
    )
}

/// Whether none of some words ends an expression.
pub(crate) fn are_of_one(words: &[Word<'_>]) -> bool
    ensures { IsTrue result → All (λ word. spec.is_separator word.kind ≡ false) words.now }
{
    words.iter().all(|word| !is_separator(word.kind))
}

/// Whether a command begins behind a word.
pub(crate) fn ends_command(kind: WordKind) -> bool
    ensures { result ≡ spec.ends_command kind }
{
    matches!(
        kind,
        WordKind::Symbol(
            Symbol::Semicolon
                | Symbol::LeftBrace
                | Symbol::RightBrace
                | Symbol::Then
                | Symbol::Else
                | Symbol::Colon
        )
    )
}

/// Whether an expression begins behind a word.
fn begins_behind(word: &Word<'_>) -> bool
    ensures { IsTrue result → spec.BeginsBehind word.now }
{
    word.is(Symbol::If)
        || word.is(Symbol::Case)
        || word.is(Symbol::LeftParen)
        || word.is_foreign(b"return")
}

/// Whether an expression begins behind some words, as the value of an assignment.
fn is_assigned_behind(front: &[Word<'_>]) -> bool
    ensures { IsTrue result → spec.IsAssignedBehind front.now }
{
    let Some((equal, front)) = front.split_last() else {
        return false;
    };
    let Some((name, front)) = front.split_last() else {
        return false;
    };
    let Some((last, _)) = front.split_last() else {
        return false;
    };
    equal.is(Symbol::Equal)
        && (name.is_name() || name.is(Symbol::RipMetric))
        && ends_command(last.kind)
}

/// Whether an expression begins behind some words.
fn begins_expression(front: &[Word<'_>]) -> bool
    ensures { IsTrue result → spec.BeginsExpression front.now }
{
    match front.split_last() {
        Some((last, _)) => begins_behind(last) || is_assigned_behind(front),
        None => false,
    }
}

/// Whether operands of a chain are put into parentheses.
pub(crate) fn is_chain_grouped(
    front: &[Word<'_>],
    old: &[Word<'_>],
    new: &[Word<'_>],
    back: &[Word<'_>],
) -> bool
    ensures { IsTrue result → spec.IsChainGrouped front.now old.now new.now back.now }
{
    match back.split_first() {
        Some((operator, _)) => (operator.is(Symbol::And) || operator.is(Symbol::Or))
            && begins_expression(front)
            && are_balanced(old)
            && are_of_one(old)
            && is_grouped(old, new),
        None => false,
    }
}

/// Whether a word is the name of a kind.
pub(crate) fn is_kind(kind: WordKind) -> bool
    ensures { result ≡ spec.is_kind kind }
{
    matches!(
        kind,
        WordKind::Symbol(Symbol::Int | Symbol::Bool | Symbol::Ip | Symbol::Prefix)
    )
}

/// Whether a declaration with a value is written as one without.
fn is_declared_as(declaration: &[Word<'_>], declared: &[Word<'_>]) -> bool
    ensures { IsTrue result → spec.IsDeclaredAs declaration.now declared.now }
{
    match (declaration, declared) {
        ([kind, name, equal], [first, second, stop]) => {
            is_kind(kind.kind)
                && name.is_name()
                && equal.is(Symbol::Equal)
                && is_same(kind, first)
                && is_same(name, second)
                && stop.is(Symbol::Semicolon)
        }
        _ => false,
    }
}

/// Whether what is left of a declaration is the assignment of its value.
fn is_assigned_as(declaration: &[Word<'_>], left: &[Word<'_>]) -> bool
    ensures { IsTrue result → spec.IsAssignedAs declaration.now left.now }
{
    match (declaration, left) {
        ([kind, name, last], [again, equal]) => {
            is_kind(kind.kind)
                && last.is(Symbol::Equal)
                && is_same(name, again)
                && equal.is(Symbol::Equal)
        }
        _ => false,
    }
}

/// Whether a declaration is moved before a brace: the words from that on, and the declaration behind them.
fn is_moved(front: &[Word<'_>], declaration: &[Word<'_>], new: &[Word<'_>]) -> bool
    ensures { IsTrue result → spec.IsMoved front.now declaration.now new.now }
{
    let Some((declared, rest)) = split(new, 3) else {
        return false;
    };
    let Some((kept, left)) = split(rest, front.len()) else {
        return false;
    };
    is_declared_as(declaration, declared)
        && are_same(front, kept)
        && is_assigned_as(declaration, left)
}

/// Whether a declaration is moved before the brace of its body.
pub(crate) fn is_hoisted(old: &[Word<'_>], new: &[Word<'_>]) -> bool
    ensures { IsTrue result → spec.IsHoisted old.now new.now }
{
    let Some((front, declaration)) = split(old, old.len().saturating_sub(3)) else {
        return false;
    };
    match front.split_first() {
        Some((brace, _)) => brace.is(Symbol::LeftBrace) && is_moved(front, declaration, new),
        None => false,
    }
}
