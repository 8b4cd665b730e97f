//! Whether words are whole commands.
//!
//! **A `;` that is missing before `else` or a closing brace is put in.** BIRD refuses such a text, but it has only one reading.
ghost use Rattle.std.specs.Prelude.{◌≡◌, IfSome, IsTrue, true};
ghost use Rattle.bird_import.specs.Blocks as spec;

use crate::rules::{are_balanced, closes, opens};
use crate::word::{Word, WordKind};
use filter_tokens::Symbol;

/// How many parentheses, brackets and braces are open behind a word, where so many are before it.
pub(crate) fn depth_behind(depth: usize, kind: WordKind) -> Option<usize>
    ensures { IfSome result (λ after. after ≡ spec.depth_behind depth kind) }
{
    if opens(kind) {
        depth.checked_add(1)
    } else if closes(kind) {
        Some(depth.saturating_sub(1))
    } else {
        Some(depth)
    }
}

/// Whether a word is `:`.
fn is_colon(kind: WordKind) -> bool
    ensures { result ≡ spec.is_colon kind }
{
    matches!(kind, WordKind::Symbol(Symbol::Colon))
}

/// Whether the words have no label outside a `case` that begins in them.
#[tactic(auto, unfolding(crate::specs::Blocks::has_no_label))]
fn has_no_label(words: &[Word<'_>]) -> bool
    ensures { IsTrue result → (spec.has_no_label 0 words.now ≡ true) }
{
    let mut depth = 0usize;
    for word in words {
        if depth == 0 && is_colon(word.kind) {
            return false;
        }
        depth = match depth_behind(depth, word.kind) {
            Some(after) => after,
            None => return false,
        };
    }
    true
}

/// Whether a command is complete behind some words.
fn ends_commands(words: &[Word<'_>]) -> bool
    ensures { IsTrue result → spec.EndsCommands words.now }
{
    match words.split_last() {
        Some((last, _)) => last.is(Symbol::Semicolon) || last.is(Symbol::RightBrace),
        None => true,
    }
}

/// Whether words are commands, each of them whole.
pub(crate) fn are_commands(words: &[Word<'_>]) -> bool
    ensures { IsTrue result → spec.AreCommands words.now }
{
    are_balanced(words) && has_no_label(words) && ends_commands(words)
}
