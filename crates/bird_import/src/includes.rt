//! Files that a configuration includes.
ghost use Rattle.std.specs.Option.{option_map};
ghost use Rattle.std.specs.Prelude.{◌≡◌, ◌∷◌, IfOk, drop, map};
ghost use Rattle.bird_import.specs.Including as spec;

use crate::word::{Word, WordKind};
use filter_tokens::Symbol;
use std::alloc::{AllocError, Global};

/// A file that a configuration includes: `include "NAME";`, the bytes `from..to` of its text.
#[derive(Clone, Copy)]
pub struct Include<'a> {
    /// The place of the word `include`.
    pub from: usize,
    /// The place behind the `;`, or behind the name where there is none.
    pub to: usize,
    /// The name.
    pub name: &'a [u8],
}

/// What stands between the quotes of a text.
fn between_quotes(bytes: &[u8]) -> &[u8]
    ensures { result.now ≡ spec.between_quotes bytes.now }
{
    match bytes {
        [b'"', inner @ .., b'"'] => inner,
        _ => bytes,
    }
}

/// The file that is included by a word, with the one behind it and the words behind that.
fn included<'a>(word: Word<'a>, text: Word<'a>, rest: &[Word<'a>]) -> Option<Include<'a>>
    ensures { option_map spec.view_of result ≡ spec.include_ahead (word.entry ∷ text.entry ∷ rest.now) }
{
    if !word.is_foreign(b"include") || text.kind != WordKind::Text {
        return None;
    }
    let last = match rest {
        [stop, ..] if stop.is(Symbol::Semicolon) => *stop,
        _ => text,
    };
    Some(Include {
        from: word.at,
        to: last.at.saturating_add(last.bytes.len()),
        name: between_quotes(text.bytes),
    })
}

/// The file that is included by the word at an index.
#[tactic(auto, using(crate::proofs::Including::too_few))]
fn include_at<'a>(words: &[Word<'a>], at: usize) -> Option<Include<'a>>
    ensures { option_map spec.view_of result ≡ spec.include_ahead (drop at words.now) }
{
    match words.get(at..)? {
        [word, text, rest @ ..] => included(*word, *text, rest),
        _ => None,
    }
}

/// The files that a configuration includes, in order.
pub fn find_includes<'a>(alloc: Global, words: &[Word<'a>]) -> Result<Vec<Include<'a>>, AllocError>
    ensures { IfOk result (λ found. map spec.view_of found.items ≡ spec.includes_in words.now) }
{
    let mut found = Vec::new(alloc);
    for at in 0..words.len() {
        if let Some(include) = include_at(words, at) {
            found.push(include)?;
        }
    }
    Ok(found)
}
