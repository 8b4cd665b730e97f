//! The words of a line of a router's file.
//!
//! **A word that begins with `#` begins a comment, wherever it stands**, so a line may say behind an option what it is for, as in a configuration
//! of BIRD.
ghost use Rattle.std.specs.Prelude.{◌≡◌, true, false, IfOk, MatchOption, map};
ghost use Rattle.std.specs.List.{list_all};
ghost use Rattle.std.specs.Str.{is_utf8};
ghost use Rattle.router_files.specs.Words as spec;

use line_protocol::next_word;
use std::alloc::{AllocError, Global};
use std::str;

/// A comment begins with this word.
fn begins_comment(word: &[u8]) -> bool
    ensures { result ≡ spec.begins_comment word.now }
{
    match word {
        [b'#', ..] => true,
        _ => false,
    }
}

/// A word as text, if it is UTF-8.
#[tactic(auto, using(crate::proofs::Texts::is_text, crate::proofs::Texts::is_no_text))]
fn text_of(word: &[u8]) -> Option<&str>
    ensures { MatchOption result (is_utf8 word.now ≡ false) (λ text. (is_utf8 word.now ≡ true) × (text.now ≡ word.now)) }
{
    str::from_utf8(word).ok()
}

/// The words of a line that are no comment; none where one of them is not UTF-8.
pub(crate) fn words_of(alloc: Global, line: &[u8]) -> Result<Option<Vec<&str>>, AllocError>
    ensures { IfOk result (λ found. MatchOption found (list_all is_utf8 (spec.words_in line.now) ≡ false)
        (λ words. (list_all is_utf8 (spec.words_in line.now) ≡ true) × (map (λ word. word.now) words.items ≡ spec.words_in line.now))) }
{
    let mut words = Vec::new(alloc);
    let mut rest = line;
    while let Some((word, behind)) = next_word(rest) {
        if begins_comment(word) {
            return Ok(Some(words));
        }
        let Some(text) = text_of(word) else {
            return Ok(None);
        };
        words.push(text)?;
        rest = behind;
    }
    Ok(Some(words))
}
