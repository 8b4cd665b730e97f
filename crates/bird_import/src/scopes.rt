//! Where variables are known: from their declaration on, up to the end of its block, or of its part of a `case`.
//!
//! **A parenthesis or a bracket is told as not closed where a `;` comes before what closes it.** No expression has a `;`, so of several that are
//! open this finds the innermost. What ends such a filter is unknown, so nothing behind it is read.

ghost use Rattle.std.specs.Prelude.{◌≡◌, ◌↔◌, ◌<◌, ℕ, List, IfSome, IsTrue, None, length};
ghost use Rattle.bird_import.specs.Reasons.{IsVariableAt};
ghost use Rattle.bird_import.specs.Items.{outside_from};
ghost use Rattle.bird_import.specs.Scopes.{AreInScope, IsUse, LiesOutside, end_of_block, ends_block};
ghost use Rattle.bird_import.specs.Stuck.{Hinder};

use crate::defines::declares;
use crate::reason::{Reason, Why};
use crate::rules::closes;
use crate::word::{
    Word, WordKind, bytes_at, depth_past, is_before, is_named_at, is_symbol, kind_at,
};
use filter_tokens::Symbol;

/// Whether a name stands at an index, and is neither that of the filter nor behind a dot.
fn is_use(words: &[Word<'_>], name: &[u8], at: usize) -> bool
    ensures { IsTrue result ↔ IsUse name.now words.now at }
{
    is_named_at(words, at, name)
        && !is_before(words, at, Symbol::Dot)
        && !is_before(words, at, Symbol::Filter)
}

/// Whether an index is before a declaration, or behind the end of its block.
fn lies_outside(declared: usize, end: Option<usize>, at: usize) -> bool
    ensures { IsTrue result ↔ LiesOutside declared end at }
{
    match end {
        Some(close) => at < declared || close < at,
        None => at < declared,
    }
}

/// Whether a block ends with a word, or a part of a `case`, or what is in parentheses.
#[tactic(auto, unfolding(crate::specs::Scopes::ends_block))]
fn ends_block(kind: WordKind) -> bool
    ensures { result ≡ ends_block kind }
{
    closes(kind) || is_symbol(kind, Symbol::Colon)
}

/// The index of the first such word from an index on, outside parentheses, brackets and braces that are opened there.
#[tactic(auto, using(crate::proofs::Outside::none_outside, crate::proofs::Outside::one_outside), unfolding(crate::specs::Items::outside_from))]
fn first_end(words: &[Word<'_>], from: usize) -> Option<usize>
    ensures is { result ≡ outside_from words.now ends_block from }
    ensures within { IfSome result (λ at. at < length words.now) }
{
    let mut depth = 0usize;
    for at in from..words.len() {
        let kind = kind_at(words, at);
        if depth == 0 && ends_block(kind) {
            return Some(at);
        }
        depth = depth_past(depth, kind)?;
    }
    None
}

/// The index of the brace that closes the block in which a word stands, or of the `:` behind its part of a `case`, if one does: parentheses
/// are no block.
fn end_behind(words: &[Word<'_>], at: usize) -> Option<usize>
    requires { at < length words.now }
    ensures { result ≡ end_of_block words.now at }
{
    let end = first_end(words, at.saturating_add(1))?;
    let kind = kind_at(words, end);
    if is_symbol(kind, Symbol::RightBrace) || is_symbol(kind, Symbol::Colon) {
        Some(end)
    } else {
        None
    }
}

/// Whether a name that is declared at an index is used at another, before that or behind the end of its block.
fn is_outside(
    words: &[Word<'_>],
    name: &[u8],
    declared: usize,
    end: Option<usize>,
    at: usize,
) -> bool
    ensures { IsTrue result ↔ (IsUse name.now words.now at × LiesOutside declared end at) }
{
    is_use(words, name, at) && lies_outside(declared, end, at)
}

/// The index of the first use of a name that is declared at another index, before that or behind the end of its block.
fn use_outside(words: &[Word<'_>], name: &[u8], declared: usize) -> Option<usize>
    requires { declared < length words.now }
    ensures some { IfSome result (λ at. (at < length words.now) × IsUse name.now words.now at × LiesOutside declared (end_of_block words.now declared) at) }
    ensures none { result ≡ None → (k : ℕ) → k < length words.now → IsUse name.now words.now k
        → LiesOutside declared (end_of_block words.now declared) k → ⊥ }
{
    let end = end_behind(words, declared);
    for at in 0..words.len() {
        if is_outside(words, name, declared, end, at) {
            return Some(at);
        }
    }
    None
}

/// Why the variable that is declared at an index is used where it is not known, if it is.
fn stray_of<'a>(words: &[Word<'a>], declared: usize) -> Option<Reason<'a>>
    requires { declared < length words.now }
    ensures some { IfSome result (λ reason. Hinder words.now reason.why) }
    ensures none { result ≡ None → (name : List ℕ) (k : ℕ) → IsVariableAt name words.now declared → k < length words.now → IsUse name words.now k
        → LiesOutside declared (end_of_block words.now declared) k → ⊥ }
{
    let name = bytes_at(words, declared);
    if !declares(words, declared, name) {
        return None;
    }
    match use_outside(words, name, declared) {
        Some(at) => Some(Reason {
            at: words[at].at,
            why: Why::OutOfScope(name),
        }),
        None => None,
    }
}

/// Why the first variable that is used where it is not known is, if there is one.
pub(crate) fn first_stray<'a>(words: &[Word<'a>]) -> Option<Reason<'a>>
    ensures some { IfSome result (λ reason. Hinder words.now reason.why) }
    ensures none { result ≡ None → AreInScope words.now }
{
    for at in 0..words.len() {
        if let Some(reason) = stray_of(words, at) {
            return Some(reason);
        }
    }
    None
}
