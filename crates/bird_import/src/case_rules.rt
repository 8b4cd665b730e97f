//! `case` of addresses: whether what is written for one means the same.
//!
//! **`case` of addresses computes its argument once for each address.** It has no operators, so that changes nothing; a variable in its place could
//! be over the limit of 16. Behind `then`, and before an `else`, the tests stand in braces, so that this `else` stays that of the condition.
ghost use Rattle.std.specs.Prelude.{◌≡◌, ◌⊎◌, ◌↔◌, ◌<◌, ◌≤◌, ℕ, All, IfSome, IsTrue, length, true};
ghost use Rattle.bird_import.specs.Cases as spec;
ghost use Rattle.bird_import.specs.Indices.{kind_at};
ghost use Rattle.bird_import.specs.declared.word.WordKind.TheVariants as kind;

use crate::blocks::{are_commands, depth_behind};
use crate::functions::is_block;
use crate::rules::{are_balanced, are_same, is_same, split, until};
use crate::word::{Word, WordKind, depth_past, is_at, kind_at};
use filter_tokens::Symbol;

/// Whether an expression of such words may be computed for each label again.
fn is_simple(kind: WordKind) -> bool
    ensures { result ≡ spec.is_simple kind }
{
    matches!(
        kind,
        WordKind::Name
            | WordKind::Number
            | WordKind::Address(_)
            | WordKind::Symbol(
                Symbol::Net | Symbol::Dot | Symbol::Ip | Symbol::LeftParen | Symbol::RightParen
            )
    )
}

/// Whether a word may stand in a label.
fn is_of_label(kind: WordKind) -> bool
    ensures { result ≡ spec.is_of_label kind }
{
    matches!(
        kind,
        WordKind::Address(_) | WordKind::Symbol(Symbol::Comma | Symbol::DotDot | Symbol::Else)
    )
}

/// Whether an expression may be computed for each label again.
fn are_simple(words: &[Word<'_>]) -> bool
    ensures { IsTrue result → All (λ word. spec.is_simple word.kind ≡ true) words.now }
{
    words.iter().all(|word| is_simple(word.kind))
}

/// Whether a word is an address.
fn is_address(kind: WordKind) -> bool
    ensures { result ≡ spec.is_address kind }
{
    matches!(kind, WordKind::Address(_))
}

/// The addresses of a label between two, both among them.
#[derive(Clone, Copy)]
struct AddressRange {
    /// The first one.
    low: u32,
    /// The last one.
    high: u32,
}

/// The address at an index, if there is one.
fn address_at(words: &[Word<'_>], at: usize) -> Option<u32>
    ensures { (address : ℕ) → kind_at words.now at ≡ kind.Address address → result ≡ Some address }
{
    match kind_at(words, at) {
        WordKind::Address(number) => Some(number),
        _ => None,
    }
}

/// Whether a label's address or range ends before an index.
fn ends_range(words: &[Word<'_>], at: usize) -> bool
    ensures { IsTrue result ↔ spec.EndsRange words.now at }
{
    at >= words.len() || is_at(words, at, Symbol::Comma) || is_at(words, at, Symbol::Colon)
}

/// The address of a label, or the range of them, that stands at an index.
fn range_at(words: &[Word<'_>], at: usize) -> Option<AddressRange>
    requires { at < length words.now }
    ensures { (low : ℕ) (high : ℕ) → spec.IsRangeAt words.now at low high → result ≡ Some (record { low = low; high = high }) }
{
    let low = address_at(words, at)?;
    if is_at(words, at + 1, Symbol::DotDot) {
        let high = address_at(words, at + 2)?;
        Some(AddressRange { low, high })
    } else if ends_range(words, at + 1) {
        Some(AddressRange { low, high: low })
    } else {
        None
    }
}

/// Whether no address is in both of two ranges, since one ends before the other begins.
fn are_apart(one: AddressRange, other: AddressRange) -> bool
    ensures { IsTrue result ↔ ((one.high < other.low) ⊎ (other.high < one.low)) }
{
    one.high < other.low || other.high < one.low
}

/// Whether a range has no address of the label's one that stands at an index.
fn is_free_at(range: AddressRange, words: &[Word<'_>], at: usize) -> bool
    requires { at < length words.now }
    ensures { IsTrue result → spec.IsFreeAt range.low range.high words.now at }
{
    match range_at(words, at) {
        Some(other) => are_apart(range, other),
        None => true,
    }
}

/// The same at an index before which so many parentheses, brackets and braces are open: within them no label is.
fn is_free_behind(range: AddressRange, words: &[Word<'_>], at: usize, depth: usize) -> bool
    requires { at < length words.now }
    ensures { IsTrue result → depth ≡ 0 → spec.IsFreeAt range.low range.high words.now at }
{
    depth > 0 || is_free_at(range, words, at)
}

/// Whether no label of some parts of a `case` has an address of a range.
fn is_free(range: AddressRange, parts: &[Word<'_>]) -> bool
    ensures { IsTrue result → (address : ℕ) → range.low ≤ address → address ≤ range.high → spec.IsInLabel address parts.now → ⊥ }
{
    let mut depth = 0usize;
    for at in 0..parts.len() {
        if !is_free_behind(range, parts, at, depth) {
            return false;
        }
        depth = match depth_past(depth, kind_at(parts, at)) {
            Some(after) => after,
            None => return false,
        };
    }
    true
}

/// Whether no address of the label's range at an index is in a label of other parts.
fn is_distinct_at(label: &[Word<'_>], at: usize, parts: &[Word<'_>]) -> bool
    requires { at < length label.now }
    ensures { IsTrue result → spec.IsDistinctAt label.now parts.now at }
{
    match range_at(label, at) {
        Some(range) => is_free(range, parts),
        None => true,
    }
}

/// Whether no address of a label is in a label of other parts.
fn are_distinct(label: &[Word<'_>], parts: &[Word<'_>]) -> bool
    ensures { IsTrue result → spec.AreDistinct label.now parts.now }
{
    for at in 0..label.len() {
        if !is_distinct_at(label, at, parts) {
            return false;
        }
    }
    true
}

/// Whether words compare an expression with a bound.
fn is_compared(operator: Symbol, subject: &[Word<'_>], bound: &Word<'_>, words: &[Word<'_>]) -> bool
    ensures { IsTrue result → spec.IsCompared operator subject.now bound.now words.now }
{
    let Some((kept, rest)) = split(words, subject.len()) else {
        return false;
    };
    match rest {
        [word, again] => word.is(operator) && is_same(bound, again) && are_same(subject, kept),
        _ => false,
    }
}

/// Whether a label of one address is tested.
fn is_equal_test(subject: &[Word<'_>], label: &[Word<'_>], test: &[Word<'_>]) -> bool
    ensures { IsTrue result → spec.IsEqualTest subject.now label.now test.now }
{
    match label {
        [address] => {
            is_address(address.kind) && is_compared(Symbol::Equal, subject, address, test)
        }
        _ => false,
    }
}

/// Whether a range of addresses is tested by two comparisons in parentheses.
fn is_between(subject: &[Word<'_>], low: &Word<'_>, high: &Word<'_>, test: &[Word<'_>]) -> bool
    ensures { IsTrue result → spec.IsBetweenTest subject.now low.now high.now test.now }
{
    let Some((opening, rest)) = test.split_first() else {
        return false;
    };
    let Some((lower, rest)) = split(rest, subject.len().saturating_add(2)) else {
        return false;
    };
    let Some((operator, rest)) = rest.split_first() else {
        return false;
    };
    let Some((closing, upper)) = rest.split_last() else {
        return false;
    };
    opening.is(Symbol::LeftParen)
        && closing.is(Symbol::RightParen)
        && operator.is(Symbol::And)
        && is_compared(Symbol::GreaterEqual, subject, low, lower)
        && is_compared(Symbol::LessEqual, subject, high, upper)
}

/// Whether a label of one range is tested.
fn is_range_test(subject: &[Word<'_>], label: &[Word<'_>], test: &[Word<'_>]) -> bool
    ensures { IsTrue result → spec.IsRangeTest subject.now label.now test.now }
{
    match label {
        [low, dots, high] => {
            is_address(low.kind)
                && dots.is(Symbol::DotDot)
                && is_address(high.kind)
                && is_between(subject, low, high, test)
        }
        _ => false,
    }
}

/// Whether a label of one address or range is tested.
fn is_one_test(subject: &[Word<'_>], label: &[Word<'_>], test: &[Word<'_>]) -> bool
    ensures { IsTrue result → spec.IsOneTest subject.now label.now test.now }
{
    is_equal_test(subject, label, test) || is_range_test(subject, label, test)
}

/// The label and the test behind the first address or range, if that is tested.
fn without_first<'w, 'a>(
    subject: &[Word<'_>],
    label: &'w [Word<'a>],
    test: &'w [Word<'a>],
) -> Option<(&'w [Word<'a>], &'w [Word<'a>])>
    ensures { IfSome result (λ left. spec.IsFirstTest subject.now label.now test.now left.0.now left.1.now) }
{
    let (one, _, others) = until(Symbol::Comma, label)?;
    let (first, _, left) = until(Symbol::Or, test)?;
    if is_one_test(subject, one, first) {
        Some((others, left))
    } else {
        None
    }
}

/// Whether a label is tested.
fn are_tests<'w, 'a>(subject: &[Word<'_>], label: &'w [Word<'a>], test: &'w [Word<'a>]) -> bool
    ensures { IsTrue result → spec.AreSomeTests subject.now label.now test.now }
{
    let (_, mut labels) = label.split_at(0);
    let (_, mut tests) = test.split_at(0);
    for _ in 0..label.len() {
        if is_one_test(subject, labels, tests) {
            return true;
        }
        let Some((others, left)) = without_first(subject, labels, tests) else {
            return false;
        };
        labels = others;
        tests = left;
    }
    false
}

/// The commands of the part of a `case` for all other values.
fn commands_of_else<'w, 'a>(words: &'w [Word<'a>]) -> Option<&'w [Word<'a>]>
    ensures { IfSome result (λ commands. spec.IsElsePart words.now commands.now) }
{
    match words {
        [begin, colon, commands @ ..]
            if begin.is(Symbol::Else) && colon.is(Symbol::Colon) && are_commands(commands) => {
            Some(commands)
        }
        _ => None,
    }
}

/// Whether a label is at the front of some words.
fn begins_with_label(words: &[Word<'_>]) -> bool
    ensures { IsTrue result → spec.BeginsWithLabel words.now }
{
    match until(Symbol::Colon, words) {
        Some((label, _, _)) => are_of_label(label),
        None => false,
    }
}

/// Whether words may stand in a label.
fn are_of_label(words: &[Word<'_>]) -> bool
    ensures { IsTrue result → All (λ word. spec.is_of_label word.kind ≡ true) words.now }
{
    words.iter().all(|word| is_of_label(word.kind))
}

/// The expression and the parts of a `case`.
pub(crate) fn parts_of<'w, 'a>(words: &'w [Word<'a>]) -> Option<(&'w [Word<'a>], &'w [Word<'a>])>
    ensures { IfSome result (λ found. spec.IsCase words.now found.0.now found.1.now) }
{
    let (begin, rest) = words.split_first()?;
    let (subject, _, rest) = until(Symbol::LeftBrace, rest)?;
    let (closing, parts) = rest.split_last()?;
    if begin.is(Symbol::Case) && closing.is(Symbol::RightBrace) && are_simple(subject) {
        Some((subject, parts))
    } else {
        None
    }
}

/// The parts of a `case`, of which the first one that is not for all other values is taken out.
#[derive(Clone, Copy)]
pub struct Parted<'w, 'a> {
    /// The part before it: that for all other values, or none.
    pub before: &'w [Word<'a>],
    /// Its label.
    pub label: &'w [Word<'a>],
    /// Its commands.
    pub commands: &'w [Word<'a>],
    /// The parts behind it.
    pub after: &'w [Word<'a>],
}

/// The number of words of the commands at the front of some words of a `case`, up to the next label or the end.
fn commands_len(words: &[Word<'_>]) -> usize {
    let (mut depth, mut len) = (0usize, 0usize);
    for at in 0..words.len() {
        let word = words[at];
        if depth == 0 && word.is(Symbol::Colon) {
            return len;
        }
        depth = depth_behind(depth, word.kind).unwrap_or(0);
        if depth == 0 && (word.is(Symbol::Semicolon) || word.is(Symbol::RightBrace)) {
            len = at.saturating_add(1);
        }
    }
    words.len()
}

/// The number of words of the part for all other values, if that is the first one.
fn else_len(parts: &[Word<'_>]) -> usize {
    match parts {
        [begin, colon, commands @ ..] if begin.is(Symbol::Else) && colon.is(Symbol::Colon) => {
            commands_len(commands).saturating_add(2)
        }
        _ => 0,
    }
}

/// Whether there is no part, or one for all other values.
fn is_else_or_none(words: &[Word<'_>]) -> bool
    ensures { IsTrue result → spec.IsElseOrNone words.now }
{
    words.is_empty() || commands_of_else(words).is_some()
}

/// Whether words are further parts of a `case`, or none.
fn are_parts(words: &[Word<'_>]) -> bool
    ensures { IsTrue result → spec.AreParts words.now }
{
    are_balanced(words) && (words.is_empty() || begins_with_label(words))
}

/// The label and the commands of the first part, and the parts behind it.
fn first_part<'w, 'a>(
    words: &'w [Word<'a>],
) -> Option<(&'w [Word<'a>], &'w [Word<'a>], &'w [Word<'a>])>
    ensures { IfSome result (λ found. spec.IsFirstPart words.now found.0.now found.1.now found.2.now) }
{
    let (label, _, rest) = until(Symbol::Colon, words)?;
    let (commands, after) = split(rest, commands_len(rest))?;
    if are_commands(commands) && are_parts(after) {
        Some((label, commands, after))
    } else {
        None
    }
}

/// Takes the parts of a `case` apart.
pub(crate) fn take_apart<'w, 'a>(parts: &'w [Word<'a>]) -> Option<Parted<'w, 'a>>
    ensures { IfSome result (λ made. spec.IsParted parts.now made.before.now made.label.now made.commands.now made.after.now) }
{
    let (before, rest) = split(parts, else_len(parts))?;
    let (label, commands, after) = first_part(rest)?;
    if is_else_or_none(before) {
        Some(Parted {
            before,
            label,
            commands,
            after,
        })
    } else {
        None
    }
}

/// Whether no `else` is at the front of some words.
fn has_no_else(back: &[Word<'_>]) -> bool
    ensures { IsTrue result → spec.HasNoElse back.now }
{
    match back.split_first() {
        Some((word, _)) => !word.is(Symbol::Else),
        None => true,
    }
}

/// The commands for all other values, if no other part is left.
pub(crate) fn only_else<'w, 'a>(
    before: &'w [Word<'a>],
    after: &'w [Word<'a>],
) -> Option<&'w [Word<'a>]>
    ensures { IfSome result (λ commands. spec.IsOnlyElse before.now after.now commands.now) }
{
    if after.is_empty() {
        commands_of_else(before)
    } else if before.is_empty() {
        commands_of_else(after)
    } else {
        None
    }
}

/// Whether words are `else` and commands in braces.
fn is_else(commands: &[Word<'_>], words: &[Word<'_>]) -> bool
    ensures { IsTrue result → spec.IsElse commands.now words.now }
{
    match words.split_first() {
        Some((begin, block)) => begin.is(Symbol::Else) && is_block(commands, block),
        None => false,
    }
}

/// Whether words are two lists of words in braces.
fn is_block_of(before: &[Word<'_>], after: &[Word<'_>], words: &[Word<'_>]) -> bool
    ensures { IsTrue result → spec.IsBlockOf before.now after.now words.now }
{
    let Some((opening, rest)) = words.split_first() else {
        return false;
    };
    let Some((closing, rest)) = rest.split_last() else {
        return false;
    };
    let Some((first, second)) = split(rest, before.len()) else {
        return false;
    };
    opening.is(Symbol::LeftBrace)
        && closing.is(Symbol::RightBrace)
        && are_same(before, first)
        && are_same(after, second)
}

/// Whether words are `else` and a `case` of the other parts.
fn is_else_case(
    subject: &[Word<'_>],
    before: &[Word<'_>],
    after: &[Word<'_>],
    words: &[Word<'_>],
) -> bool
    ensures { IsTrue result → spec.IsElseCase subject.now before.now after.now words.now }
{
    let Some((begin, rest)) = words.split_first() else {
        return false;
    };
    let Some((again, rest)) = rest.split_first() else {
        return false;
    };
    let Some((kept, block)) = split(rest, subject.len()) else {
        return false;
    };
    begin.is(Symbol::Else)
        && again.is(Symbol::Case)
        && are_same(subject, kept)
        && is_block_of(before, after, block)
}

/// Whether words are what is done where a label does not hold.
fn is_otherwise(
    subject: &[Word<'_>],
    before: &[Word<'_>],
    after: &[Word<'_>],
    words: &[Word<'_>],
    back: &[Word<'_>],
) -> bool
    ensures { IsTrue result → spec.IsOtherwise subject.now before.now after.now words.now back.now }
{
    if words.is_empty() {
        return before.is_empty() && after.is_empty() && has_no_else(back);
    }
    match only_else(before, after) {
        Some(commands) => is_else(commands, words),
        None => is_else_case(subject, before, after, words),
    }
}

/// The test, the block and the rest of `if TEST then BLOCK REST`, by the number of words of the commands in the block.
fn tested<'w, 'a>(
    words: &'w [Word<'a>],
    commands: usize,
) -> Option<(&'w [Word<'a>], &'w [Word<'a>], &'w [Word<'a>])>
    ensures { IfSome result (λ found. spec.IsTested words.now found.0.now found.1.now found.2.now) }
{
    let (begin, rest) = words.split_first()?;
    let (test, _, rest) = until(Symbol::Then, rest)?;
    let (block, rest) = split(rest, commands.saturating_add(2))?;
    if begin.is(Symbol::If) {
        Some((test, block, rest))
    } else {
        None
    }
}

/// Whether a `case` is written by its first label.
pub(crate) fn is_case_taken<'w, 'a>(
    old: &'w [Word<'a>],
    new: &'w [Word<'a>],
    back: &[Word<'_>],
) -> bool
    ensures { IsTrue result → spec.IsCaseTaken old.now new.now back.now }
{
    let Some((subject, parts)) = parts_of(old) else {
        return false;
    };
    let Some(made) = take_apart(parts) else {
        return false;
    };
    let Some((test, block, rest)) = tested(new, made.commands.len()) else {
        return false;
    };
    if !are_tests(subject, made.label, test) || !are_distinct(made.label, made.after) {
        return false;
    }
    is_block(made.commands, block) && is_otherwise(subject, made.before, made.after, rest, back)
}

/// Whether a `case` is put in braces.
pub(crate) fn is_case_braced(old: &[Word<'_>], new: &[Word<'_>]) -> bool
    ensures { IsTrue result → spec.IsCaseBraced old.now new.now }
{
    match parts_of(old) {
        Some((_, parts)) => are_balanced(parts) && is_block(old, new),
        None => false,
    }
}
