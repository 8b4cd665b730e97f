//! The lines on a source that is checked, each of which begins with the source's name, or of which only refusals are written.
ghost use Rattle.std.specs.Prelude.{◌≡◌, ◌++◌, IfOk, OnOk};
ghost use Rattle.filter_reports.specs.Marking.{kept_lines, mark_behind, marked, name_mark, written_lines};

use crate::refusal::refusal_line;
use filter_source::Diagnosis;
use refusal_words::push_shown;
use report_formats::CheckOptions;
use std::alloc::{AllocError, Global};

/// What stands before each line: the name of the source as it is shown.
fn name_mark(alloc: Global, has_names: bool, name: &[u8]) -> Result<Vec<u8>, AllocError>
    ensures { IfOk result (λ mark. mark.items ≡ name_mark has_names name.now) }
{
    let mut mark = Vec::new(alloc);
    if has_names {
        push_shown(alloc, &mut mark, name)?;
        mark.extend_from_slice(b": ")?;
    }
    Ok(mark)
}

/// Adds a mark where a byte begins a line, by the byte before it.
fn push_mark(out: &mut Vec<u8>, mark: &[u8], before: u8) -> Result<(), AllocError>
    ensures { OnOk result (out.new.items ≡ out.old.items ++ mark_behind mark.now before) }
{
    if before == b'\n' {
        out.extend_from_slice(mark)
    } else {
        Ok(())
    }
}

/// Adds a text with a mark at the head of each line.
fn push_marked(out: &mut Vec<u8>, mark: &[u8], text: &[u8]) -> Result<(), AllocError>
    ensures { OnOk result (out.new.items ≡ out.old.items ++ marked mark.now text.now) }
{
    let mut before = b'\n';
    for byte in text {
        push_mark(out, mark, before)?;
        out.push(*byte)?;
        before = *byte;
    }
    Ok(())
}

/// The lines of a report that are written: all of them, or only the one that refuses.
fn kept_lines(
    alloc: Global,
    is_quiet: bool,
    lines: Vec<u8>,
    why: &Option<Diagnosis>,
) -> Result<Vec<u8>, AllocError>
    ensures { IfOk result (λ kept. kept.items ≡ kept_lines is_quiet lines.items why.now) }
{
    match why {
        _ if !is_quiet => Ok(lines),
        Some(why) => refusal_line(alloc, why.refusal),
        None => Ok(Vec::new(alloc)),
    }
}

/// What is written of the lines on a source that is checked: with the name of the source before each, or only the one that refuses it, where
/// `how` says so.
pub fn written_lines(
    alloc: Global,
    how: CheckOptions,
    name: &[u8],
    lines: Vec<u8>,
    why: &Option<Diagnosis>,
) -> Result<Vec<u8>, AllocError>
    ensures { IfOk result (λ text. text.items ≡ written_lines how name.now lines.items why.now) }
{
    let mark = name_mark(alloc, how.has_names, name)?;
    let kept = kept_lines(alloc, how.is_quiet, lines, why)?;
    let mut text = Vec::new(alloc);
    push_marked(&mut text, mark.as_slice(), kept.as_slice())?;
    Ok(text)
}
