//! What is wrong with a command that a script refuses as it stands: O4, O5, O6 and the D codes.

use crate::cause::RefusalCause;
use crate::finding::{ScriptFinding, found_at};
use crate::forms::ScriptKind;
use crate::spelling::{no_such_node, number_at, spelled, word_at};
use operator_cmds::{NamedFilters, RefusedLine};
use refusal_words::nearest_word;
use std::alloc::{AllocError, Global};
use std::str;

/// At most so many names are looked at for one that was meant.
const NAMES_LIMIT: usize = 256;

/// That nothing is set up yet.
pub(crate) fn early_words(alloc: Global, kind: ScriptKind) -> Result<String, AllocError> {
    String::from_str(
        alloc,
        match kind {
            ScriptKind::Router => "there is no network yet: begin with `network N ME`",
            ScriptKind::Domain => "there is no domain yet: begin with `domain N`",
        },
    )
}

/// That it is too late for a command.
pub(crate) fn late_words(
    alloc: Global,
    kind: ScriptKind,
    refused: &RefusedLine<'_>,
) -> Result<String, AllocError> {
    let (what, size) = (kind.set_up(), refused.size.unwrap_or(0));
    if word_at(refused.line, 0) == what.as_bytes() {
        return format!(in alloc; "there is a {what} already, of {size} nodes");
    }
    String::from_str(
        alloc,
        match kind {
            ScriptKind::Router => "it is too late: write `prefix` before the first event",
            ScriptKind::Domain =>
                "it is too late: write `prefix` before the first `link`, `cut`, filter or question",
        },
    )
}

/// The name of a filter that somebody may have meant by a word.
fn meant_name<'a>(
    alloc: Global,
    word: &[u8],
    filters: &'a NamedFilters,
) -> Result<Option<&'a str>, AllocError> {
    let mut names = Vec::new(alloc);
    for name in filters.keys().take(NAMES_LIMIT) {
        if let Ok(name) = str::from_utf8(name.as_slice()) {
            names.push(name)?;
        }
    }
    match str::from_utf8(word) {
        Ok(word) => nearest_word(alloc, word, names.as_slice()),
        Err(_) => Ok(None),
    }
}

/// That no filter has the name which is the word of this index.
pub(crate) fn unknown_words(
    alloc: Global,
    kind: ScriptKind,
    refused: &RefusedLine<'_>,
) -> Result<ScriptFinding, AllocError> {
    let index = match kind {
        ScriptKind::Router => 2,
        ScriptKind::Domain => 3,
    };
    let word = word_at(refused.line, index);
    let name = spelled(alloc, word)?;
    let near = match refused.filters {
        Some(filters) => meant_name(alloc, word, filters)?,
        None => None,
    };
    let words = match near {
        Some(near) => format!(in alloc; "no filter has the name {name}; did you mean `{near}`?")?,
        None => format!(in alloc; "no filter has the name {name}: `load` and `code` give names")?,
    };
    Ok(found_at(refused.line, index, words))
}

/// What a domain refuses a pair of nodes for.
pub(crate) fn domain_words(
    alloc: Global,
    cause: RefusalCause,
    refused: &RefusedLine<'_>,
) -> Result<ScriptFinding, AllocError> {
    let line = refused.line;
    let (u, w) = (number_at(line, 1), number_at(line, 2));
    match cause {
        RefusalCause::BadNode => node_words(alloc, line, u, w, refused.size.unwrap_or(0)),
        RefusalCause::Linked => {
            let words = format!(in alloc; "nodes {u} and {w} are neighbours already")?;
            Ok(found_at(line, 1, words))
        }
        RefusalCause::Apart => {
            let words = format!(in alloc; "nodes {u} and {w} are not neighbours")?;
            Ok(found_at(line, 1, words))
        }
        _ => {
            let words = String::from_str(
                alloc,
                "the routers cannot run any further: one of their counts is at its maximum",
            )?;
            Ok(found_at(line, 0, words))
        }
    }
}

/// Which node is not in a domain of this size, or is to be its own neighbour.
fn node_words(
    alloc: Global,
    line: &[u8],
    u: u16,
    w: u16,
    size: u16,
) -> Result<ScriptFinding, AllocError> {
    if u >= size {
        return Ok(found_at(line, 1, no_such_node(alloc, u, size)?));
    }
    if w >= size {
        return Ok(found_at(line, 2, no_such_node(alloc, w, size)?));
    }
    let words = format!(in alloc; "node {w} is no neighbour of itself")?;
    Ok(found_at(line, 2, words))
}
