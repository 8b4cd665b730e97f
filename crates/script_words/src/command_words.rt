//! What is wrong with a line that is no command: O1.

use crate::finding::{ScriptFinding, found_at};
use crate::forms::{Form, ScriptKind};
use crate::spelling::{byte_of_word, count_words, short_text, spelled, word_at};
use refusal_words::nearest_word;
use std::alloc::{AllocError, Global};

/// What is wrong with a line that is no command.
pub(crate) fn command_words(
    alloc: Global,
    kind: ScriptKind,
    line: &[u8],
) -> Result<ScriptFinding, AllocError> {
    let verb = word_at(line, 0);
    match kind.form_of(verb) {
        Some(form) => form_words(alloc, line, form),
        None => Ok(found_at(line, 0, verb_words(alloc, kind, verb)?)),
    }
}

/// What is wrong with a first word that no command has.
fn verb_words(alloc: Global, kind: ScriptKind, verb: &[u8]) -> Result<String, AllocError> {
    if verb.is_empty() {
        return String::from_str(alloc, "there is no command on this line");
    }
    let (word, program) = (spelled(alloc, verb)?, kind.program());
    let other = kind.other();
    if other.form_of(verb).is_some() {
        let place = other.program();
        return format!(in alloc; "{word} is a command of `{place}`, and not of `{program}`");
    }
    let near = match short_text(verb) {
        Some(text) => nearest_word(alloc, text, kind.verbs())?,
        None => None,
    };
    match near {
        Some(near) => format!(in alloc; "{word} is no command; did you mean `{near}`?"),
        None => format!(in alloc; "{word} is no command; `{program} --help` lists them"),
    }
}

/// What is wrong with the words after the first one of a command: their number, or else the name among them, or the last one.
fn form_words(alloc: Global, line: &[u8], form: Form) -> Result<ScriptFinding, AllocError> {
    let count = count_words(line, form.most.saturating_add(1)).saturating_sub(1);
    if count > form.most {
        let words = written_words(alloc, "too many", line, form)?;
        return Ok(found_at(line, form.most.saturating_add(1), words));
    }
    if count < form.least {
        let words = written_words(alloc, "too few", line, form)?;
        let byte = Some(line.len());
        return Ok(ScriptFinding { words, byte });
    }
    match form.name {
        Some(index) => name_words(alloc, line, index),
        None => {
            let words = written_words(alloc, "unknown", line, form)?;
            Ok(found_at(line, count, words))
        }
    }
}

/// How the command of a line is written, which has too few words, too many, or one that is unknown.
fn written_words(
    alloc: Global,
    count: &str,
    line: &[u8],
    form: Form,
) -> Result<String, AllocError> {
    let (verb, words) = (short_text(word_at(line, 0)).unwrap_or(""), form.words);
    if words.is_empty() {
        return format!(in alloc; "{count} words: write `{verb}` alone");
    }
    format!(in alloc; "{count} words: write `{verb} {words}`")
}

/// What is wrong with the name of a filter, which is the word of this index.
fn name_words(alloc: Global, line: &[u8], index: usize) -> Result<ScriptFinding, AllocError> {
    let word = spelled(alloc, word_at(line, index))?;
    let words = format!(in alloc;
        "{word} is no name: a name is letters, digits and `_`, does not begin with a digit, and has at most 64 bytes"
    )?;
    Ok(found_at(line, index, words))
}
