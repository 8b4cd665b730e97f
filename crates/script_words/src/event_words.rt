//! What is wrong with an event that a router refuses, or its history: the N codes and J1.

use crate::cause::RefusalCause;
use crate::finding::{ScriptFinding, found_at};
use crate::spelling::{no_such_node, number_at, short_text, word_at};
use operator_cmds::RefusedLine;
use std::alloc::{AllocError, Global};

/// What is wrong with an event, without its place in the history: the index of the word that is wrong, and words.
fn event_fault(
    alloc: Global,
    cause: RefusalCause,
    line: &[u8],
    size: u16,
) -> Result<(usize, String), AllocError> {
    let node = number_at(line, 1);
    match cause {
        RefusalCause::NoNode if node < size => Ok((
            1,
            format!(in alloc; "node {node} is this router itself")?,
        )),
        RefusalCause::NoNode => Ok((1, no_such_node(alloc, node, size)?)),
        RefusalCause::AlreadyUp => Ok((1, format!(in alloc; "node {node} is up already")?)),
        RefusalCause::NotUp => Ok((1, format!(in alloc; "node {node} is not up")?)),
        RefusalCause::NoDestination => {
            let index = dest_index(line);
            Ok((index, no_such_node(alloc, number_at(line, index), size)?))
        }
        RefusalCause::FarDistance => {
            let dist = number_at(line, 3);
            Ok((
                3,
                format!(in alloc;
                    "distance {dist} is above {size}, the distance that means unreachable"
                )?,
            ))
        }
        RefusalCause::OtherSize => Ok((
            2,
            String::from_str(alloc, "the filter was verified for domains of another size")?,
        )),
        _ => Ok((0, String::from_str(alloc, "no session number is left")?)),
    }
}

/// The index of the word that names the destination.
fn dest_index(line: &[u8]) -> usize {
    if word_at(line, 0) == b"recv".as_slice() {
        2
    } else {
        1
    }
}

/// What is wrong with an event that a router refuses, and its place in the history.
pub(crate) fn event_words(
    alloc: Global,
    cause: RefusalCause,
    at: &[u8],
    refused: &RefusedLine<'_>,
) -> Result<ScriptFinding, AllocError> {
    let size = refused.size.unwrap_or(0);
    let (index, fault) = event_fault(alloc, cause, refused.line, size)?;
    let place = short_text(at).unwrap_or("?");
    let words = format!(in alloc; "{fault}; entry {place} of the history")?;
    Ok(found_at(refused.line, index, words))
}

/// That the history is full.
pub(crate) fn full_words(
    alloc: Global,
    at: &[u8],
    line: &[u8],
) -> Result<ScriptFinding, AllocError> {
    let limit = short_text(at).unwrap_or("?");
    let words = format!(in alloc;
        "the history is full, at its limit of {limit}: no event is carried out any more"
    )?;
    Ok(found_at(line, 0, words))
}
