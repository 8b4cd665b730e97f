//! Parentheses and semicolons that this language wants, and tests of the kind of a prefix.

ghost use Rattle.std.specs.Prelude.{◌≡◌, ◌≢◌, ◌⊎◌, ◌+◌, ◌<◌, IfOk, IfSome, IsTrue, None, codes, length};
ghost use Rattle.filter_tokens.specs.declared.symbol.Symbol.TheVariants as symbol;
ghost use Rattle.bird_import.specs.Indices.{IsAt, IsNamedAt};
ghost use Rattle.bird_import.specs.Reasons.{why_of_plan};
ghost use Rattle.bird_import.specs.Stuck.{Hinder, IsWrapped, WantsSemicolon};

use crate::reason::unwritten;
use crate::rules::{begins_constant, ends_command, ends_constant, is_constant};
use crate::step::{NextStep, Rule, joined, planned};
use crate::word::{
    Word, WordKind, begins_command, is_at, is_before, is_named_at, kind_at, word_at,
};
use filter_tokens::Symbol;
use std::alloc::{AllocError, Global};

/// A chain of operands of `&&` and `||` that is being read.
#[derive(Clone, Copy)]
struct OperandChain {
    /// The index of its first word.
    start: usize,
    /// The first of its operators.
    operator: Option<Symbol>,
    /// It is the condition of an `if`, or in parentheses, and no assignment.
    is_condition: bool,
}

impl OperandChain {
    /// A chain that begins at an index.
    fn at(start: usize, is_condition: bool) -> OperandChain {
        OperandChain {
            start,
            operator: None,
            is_condition,
        }
    }
}

/// The operator that the word at an index is, if it is `&&` or `||`.
fn operator_at(words: &[Word<'_>], at: usize) -> Option<Symbol>
    ensures { result ≢ None → IsAt symbol.And words.now at ⊎ IsAt symbol.Or words.now at }
{
    if is_at(words, at, Symbol::And) {
        Some(Symbol::And)
    } else if is_at(words, at, Symbol::Or) {
        Some(Symbol::Or)
    } else {
        None
    }
}

/// The chain that is being read behind the word at an index, which opens or closes neither parentheses nor brackets.
fn chain_behind(
    chain: OperandChain,
    word: Word<'_>,
    operator: Option<Symbol>,
    at: usize,
) -> OperandChain {
    let next = at.saturating_add(1);
    if word.is(Symbol::If) || word.is(Symbol::Case) || word.is_foreign(b"return") {
        OperandChain::at(next, true)
    } else if ends_command(word.kind) {
        OperandChain::at(next, false)
    } else if word.is(Symbol::Equal) && !chain.is_condition && at == chain.start.saturating_add(1) {
        OperandChain::at(next, true)
    } else if chain.operator.is_none() {
        OperandChain {
            start: chain.start,
            operator,
            is_condition: chain.is_condition,
        }
    } else {
        chain
    }
}

/// The first operator of a chain that has another one before it: the chain's start, and the operator's index.
fn first_mixed(alloc: Global, words: &[Word<'_>]) -> Result<Option<(usize, usize)>, AllocError>
    ensures { IfOk result (λ found. IfSome found (λ mixed. IsAt symbol.And words.now mixed.1 ⊎ IsAt symbol.Or words.now mixed.1)) }
{
    let mut outer: Vec<OperandChain> = Vec::new(alloc);
    let mut chain = OperandChain::at(0, false);
    for at in 0..words.len() {
        let word = words[at];
        if word.is(Symbol::LeftParen) || word.is(Symbol::LeftBracket) {
            // The braces of a pattern in brackets are none of a block.
            outer.push(chain)?;
            chain = OperandChain::at(at.saturating_add(1), true);
        } else if word.is(Symbol::RightParen) || word.is(Symbol::RightBracket) {
            chain = outer
                .pop()
                .unwrap_or(OperandChain::at(at.saturating_add(1), false));
        } else {
            let found = operator_at(words, at);
            if found.is_some() && chain.operator.is_some() && found != chain.operator {
                return Ok(Some((chain.start, at)));
            }
            chain = chain_behind(chain, word, found, at);
        }
    }
    Ok(None)
}

/// Puts parentheses round the operands before the first operator of another kind: BIRD's operators of these two kinds have one
/// level, and group to the left.
pub(crate) fn plan_grouping<'a>(
    alloc: Global,
    words: &[Word<'a>],
) -> Result<NextStep<'a>, AllocError>
    ensures { IfOk result (λ plan. IfSome (why_of_plan plan) (Hinder words.now)) }
{
    let Some((start, at)) = first_mixed(alloc, words)? else {
        return Ok(NextStep::Done);
    };
    let (Some(first), Some(operands)) = (word_at(words, start), words.get(start..at)) else {
        return Ok(NextStep::Done);
    };
    let open = Word::of_symbol(Symbol::LeftParen, first.at);
    let close = Word::of_symbol(Symbol::RightParen, first.at).after(b"");
    let written = joined(alloc, &[open], operands, &[close]);
    planned(Rule::Grouped, start, at, written, unwritten(first.at))
}

/// Whether the brace at an index closes the lengths of a pattern: numbers stand before it, behind a brace and a prefix.
fn closes_pattern(words: &[Word<'_>], at: usize) -> bool {
    match at.checked_sub(5) {
        Some(prefix) => kind_at(words, prefix) == WordKind::Prefix
            && is_at(words, prefix.saturating_add(1), Symbol::LeftBrace),
        None => false,
    }
}

/// Whether a `;` is missing before the word at an index.
fn wants_semicolon(words: &[Word<'_>], at: usize) -> bool
    ensures { IsTrue result → WantsSemicolon words.now at }
{
    let ends = is_at(words, at, Symbol::Else)
        || (is_at(words, at, Symbol::RightBrace) && !closes_pattern(words, at));
    ends && at > 0 && !begins_command(words, at)
}

/// Puts the first `;` that is missing before `else` or a closing brace.
pub(crate) fn plan_semicolon<'a>(
    alloc: Global,
    words: &[Word<'a>],
) -> Result<NextStep<'a>, AllocError>
    ensures { IfOk result (λ plan. IfSome (why_of_plan plan) (Hinder words.now)) }
{
    for at in 0..words.len() {
        if wants_semicolon(words, at) {
            let stop = Word::of_symbol(Symbol::Semicolon, words[at].at).after(b"");
            let written = Vec::from_slice(alloc, &[stop]);
            return planned(Rule::Separated, at, at, written, unwritten(stop.at));
        }
    }
    Ok(NextStep::Done)
}

/// Whether a number or an address stands in parentheses at an index.
fn is_wrapped(words: &[Word<'_>], at: usize) -> bool
    requires { at < length words.now }
    ensures { IsTrue result → IsWrapped words.now at }
{
    is_at(words, at, Symbol::LeftParen)
        && is_constant(kind_at(words, at + 1))
        && is_at(words, at.saturating_add(2), Symbol::RightParen)
}

/// Whether it is a label of a `case`, or a member of a set, or an end of a range of these.
fn is_member(words: &[Word<'_>], at: usize) -> bool {
    match at.checked_sub(1) {
        Some(last) => begins_constant(kind_at(words, last))
            && ends_constant(kind_at(words, at.saturating_add(3))),
        None => false,
    }
}

/// Takes the first constant of a label or of a set out of its parentheses: BIRD takes a defined name as a label in these alone.
pub(crate) fn plan_unwrapping<'a>(
    alloc: Global,
    words: &[Word<'a>],
) -> Result<NextStep<'a>, AllocError>
    ensures { IfOk result (λ plan. IfSome (why_of_plan plan) (Hinder words.now)) }
{
    for at in 0..words.len() {
        if is_member(words, at) && is_wrapped(words, at) {
            let opening = words[at];
            let constant = word_at(words, at.saturating_add(1)).unwrap_or(opening);
            let written = Vec::from_slice(alloc, &[constant.after(opening.gap)]);
            let to = at.saturating_add(3);
            return planned(Rule::Unwrapped, at, to, written, unwritten(opening.at));
        }
    }
    Ok(NextStep::Done)
}

/// What a test of the kind of a prefix at an index comes to: `net.type = NET_IP4` is true, and the same with NET_IP6 false.
fn type_test(words: &[Word<'_>], at: usize) -> Option<Symbol>
    requires { at < length words.now }
    ensures { result ≢ None → IsNamedAt (codes "type") words.now (at + 2) }
{
    let [net, dot, _, compare, family] = words.get(at..at.checked_add(5)?)? else {
        return None;
    };
    let (is_equal, is_ipv4) = (compare.is(Symbol::Equal), family.is_named(b"NET_IP4"));
    if net.is(Symbol::Net)
        && dot.is(Symbol::Dot)
        && is_named_at(words, at.saturating_add(2), b"type")
        && (is_equal || compare.is(Symbol::NotEqual))
        && (is_ipv4 || family.is_named(b"NET_IP6"))
        && !is_before(words, at, Symbol::Not)
    {
        Some(if is_equal == is_ipv4 {
            Symbol::True
        } else {
            Symbol::False
        })
    } else {
        None
    }
}

/// Puts what the first test of the kind of a prefix comes to in its place.
pub(crate) fn plan_type_test<'a>(
    alloc: Global,
    words: &[Word<'a>],
) -> Result<NextStep<'a>, AllocError>
    ensures { IfOk result (λ plan. IfSome (why_of_plan plan) (Hinder words.now)) }
{
    for at in 0..words.len() {
        if let Some(symbol) = type_test(words, at) {
            let answer = Word::of_symbol(symbol, words[at].at).after(words[at].gap);
            let written = Vec::from_slice(alloc, &[answer]);
            return planned(
                Rule::Ipv4Only,
                at,
                at.saturating_add(5),
                written,
                unwritten(answer.at),
            );
        }
    }
    Ok(NextStep::Done)
}
