//! Words that a filter cannot keep.

ghost use Rattle.std.specs.Prelude.{◌≡◌, ◌↔◌, ◌<◌, IfSome, IsTrue, None, length};
ghost use Rattle.bird_import.specs.Indices.{kind_at};
ghost use Rattle.bird_import.specs.Reasons.{AreKnown, HaveUnknown, IsKnown, IsProperty, IsUnknown};

use crate::defines::is_declared;
use crate::reason::{Reason, Why};
use crate::word::{Word, WordKind, is_before, word_at};
use filter_tokens::Symbol;

/// Whether a name behind a dot is a part of a prefix or of an address that this language has.
fn is_property(name: &[u8]) -> bool
    ensures { IsTrue result ↔ IsProperty name.now }
{
    matches!(name, b"len" | b"mask")
}

/// Why the word at an index cannot be kept, if it cannot.
fn why_at<'a>(words: &[Word<'a>], at: usize) -> Option<Why<'a>>
    ensures some { IfSome result (IsUnknown words.now at) }
    ensures none { at < length words.now → result ≡ None → IsKnown (kind_at words.now at) words.now at }
{
    let word = word_at(words, at)?;
    match word.kind {
        WordKind::Strange => Some(Why::Strange),
        WordKind::Foreign => Some(Why::Foreign(word.bytes)),
        WordKind::Name if is_before(words, at, Symbol::Filter) => None,
        WordKind::Name if is_before(words, at, Symbol::Dot) => {
            if is_property(word.bytes) {
                None
            } else {
                Some(Why::Property(word.bytes))
            }
        }
        WordKind::Name if is_declared(words, word.bytes) => None,
        WordKind::Name => Some(Why::Unknown(word.bytes)),
        _ => None,
    }
}

/// Why some words are no filter of this language, if one of them cannot be kept.
pub(crate) fn first_unknown<'a>(words: &[Word<'a>]) -> Option<Reason<'a>>
    ensures some { IfSome result (λ reason. HaveUnknown words.now reason.why) }
    ensures none { result ≡ None → AreKnown words.now }
{
    for at in 0..words.len() {
        if let Some(why) = why_at(words, at) {
            return Some(Reason {
                at: words[at].at,
                why,
            });
        }
    }
    None
}
