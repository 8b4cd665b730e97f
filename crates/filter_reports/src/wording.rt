//! What people are told of a source that is refused.
//!
//! **Whether a refusal is told in words is decided here alone.** What a program reads stands on standard output and is the same with words and without
//! them.
ghost use Rattle.std.specs.Prelude.{◌≡◌, IfOk};
ghost use Rattle.filter_reports.specs.Notices.{IsNotice, IsNoticeIf, named, named_refusal, words_if, words_or_line};

use crate::named_text::NamedText;
use crate::refusal::refusal_line;
use filter_source::{Diagnosis, Refusal};
use refusal_words::{explain, push_shown};
use std::alloc::{AllocError, Global};

/// How people are told on standard error why a source is refused.
#[derive(Clone, Copy)]
pub enum Wording {
    /// They are not.
    Nothing,
    /// By the line that refuses it, behind its name.
    Line,
    /// In words, with its place and the line that it is about.
    Words,
}

impl Wording {
    /// Words where these are wanted, and otherwise nothing.
    pub fn words_if(is_explained: bool) -> Wording
        ensures { result ≡ words_if is_explained }
    {
        if is_explained {
            Wording::Words
        } else {
            Wording::Nothing
        }
    }

    /// Words where these are wanted, and otherwise the line that refuses the source.
    pub fn words_or_line(is_explained: bool) -> Wording
        ensures { result ≡ words_or_line is_explained }
    {
        if is_explained {
            Wording::Words
        } else {
            Wording::Line
        }
    }
}

/// The name of a source as it is shown, and the line that refuses it.
fn named_refusal(alloc: Global, name: &[u8], why: Refusal) -> Result<Vec<u8>, AllocError>
    ensures { IfOk result (λ text. text.items ≡ named_refusal name.now why) }
{
    let line = refusal_line(alloc, why)?;
    let mut text = Vec::new(alloc);
    push_shown(alloc, &mut text, name)?;
    text.extend_from_slice(b": ")?;
    text.extend_from_slice(line.as_slice())?;
    Ok(text)
}

/// What people are told of a source that is refused.
pub fn refusal_notice(
    alloc: Global,
    wording: Wording,
    source: &NamedText<'_>,
    why: &Diagnosis,
) -> Result<Vec<u8>, AllocError>
    ensures { IfOk result (λ text. IsNotice wording (named source.now) why.now text.items) }
{
    match wording {
        Wording::Nothing => Ok(Vec::new(alloc)),
        Wording::Line => named_refusal(alloc, source.name, why.refusal),
        Wording::Words => explain(alloc, source.name, source.text, why),
    }
}

/// What people are told of a source that was looked at: nothing where it is not refused.
pub fn notice_if(
    alloc: Global,
    wording: Wording,
    source: &NamedText<'_>,
    why: &Option<Diagnosis>,
) -> Result<Vec<u8>, AllocError>
    ensures { IfOk result (λ text. IsNoticeIf wording (named source.now) why.now text.items) }
{
    match why {
        Some(why) => refusal_notice(alloc, wording, source, why),
        None => Ok(Vec::new(alloc)),
    }
}
