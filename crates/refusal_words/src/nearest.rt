//! The known word that somebody may have meant.
//!
//! **A word is near a known one if at most a third of its letters are edited**, by `strsim`, where two letters that changed places are one edit. Of
//! a name that is no variable's the variables, `net`, `rip_metric` and the truth values are known; at the head of a command the words with which
//! one begins.
ghost use Rattle.std.specs.Prelude.{◌≡◌, ◌↔◌, ◌<◌, All, true, map, IfOk, IfSome, MatchOption};
ghost use Rattle.refusal_words.specs.Spelled.{IsFar, IsNearest};

use std::alloc::{AllocError, Global};
use strsim::osa_distance;

/// A known word, and the number of edits that lead to it.
#[derive(Clone, Copy)]
struct Near<'a> {
    word: &'a str,
    distance: usize,
}

/// The known word to which the fewest edits lead, if they are at most a third of the word's bytes. Two letters that changed places are
/// one edit.
pub fn nearest_word<'a>(
    alloc: Global,
    word: &str,
    known: &[&'a str],
) -> Result<Option<&'a str>, AllocError>
    ensures { IfOk result (λ best. MatchOption best (All (IsFar word.now) (map (λ other. other.now) known.now))
        (λ near. IsNearest word.now (map (λ other. other.now) known.now) near.now)) }
{
    let mut best: Option<Near> = None;
    for candidate in known {
        let near = Near {
            word: *candidate,
            distance: osa_distance(alloc, word, *candidate)?,
        };
        if near.distance <= word.len() / 3 && is_nearer(near, best) {
            best = Some(near);
        }
    }
    match best {
        Some(near) => Ok(Some(near.word)),
        None => Ok(None),
    }
}

/// Whether fewer edits lead to a word than to the best one so far.
fn is_nearer(near: Near, best: Option<Near>) -> bool
    ensures { (result ≡ true) ↔ IfSome best.entry (λ other. near.entry.distance < other.distance) }
{
    match best {
        Some(best) => near.distance < best.distance,
        None => true,
    }
}
