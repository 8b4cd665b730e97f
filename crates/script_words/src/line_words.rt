//! What is wrong with a refused line that gives no refused filter.

use crate::cause::RefusalCause;
use crate::command_words::command_words;
use crate::event_words::{event_words, full_words};
use crate::finding::{ScriptFinding, found_at};
use crate::forms::ScriptKind;
use crate::number_words::{digit_words, number_words, prefix_words};
use crate::state_words::{domain_words, early_words, late_words, unknown_words};
use line_protocol::LINE_LIMIT;
use operator_cmds::RefusedLine;
use std::alloc::{AllocError, Global};

/// What is wrong with a line that is refused for this cause, and where; `at` is the place that its answer names.
pub(crate) fn line_words(
    alloc: Global,
    kind: ScriptKind,
    cause: RefusalCause,
    at: &[u8],
    refused: &RefusedLine<'_>,
) -> Result<ScriptFinding, AllocError> {
    let line = refused.line;
    match cause {
        RefusalCause::Words => command_words(alloc, kind, line),
        RefusalCause::Number => number_words(alloc, kind, line, refused.size),
        RefusalCause::Hexadecimal => digit_words(alloc, line),
        RefusalCause::Early => Ok(found_at(line, 0, early_words(alloc, kind)?)),
        RefusalCause::Late => Ok(found_at(line, 0, late_words(alloc, kind, refused)?)),
        RefusalCause::UnknownFilter => unknown_words(alloc, kind, refused),
        RefusalCause::Long => length_words(alloc, line),
        RefusalCause::Prefix => prefix_words(alloc, line),
        RefusalCause::Full => full_words(alloc, at, line),
        RefusalCause::BadNode
        | RefusalCause::Linked
        | RefusalCause::Apart
        | RefusalCause::Unplayable => { domain_words(alloc, cause, refused) }
        _ => event_words(alloc, cause, at, refused),
    }
}

/// That a line is too long. It is not shown.
fn length_words(alloc: Global, line: &[u8]) -> Result<ScriptFinding, AllocError> {
    let count = line.len();
    Ok(ScriptFinding {
        words: format!(in alloc; "the line has {count} bytes, and at most {LINE_LIMIT} are read")?,
        byte: None,
    })
}
