//! What is wrong with the numbers, the digits and the prefix of a command: O2, O3 and O8.

use crate::finding::{ScriptFinding, found_at};
use crate::forms::ScriptKind;
use crate::spelling::{byte_of_word, no_such_node, number_at, spelled, word_at};
use line_protocol::NUMBER_LIMIT;
use operator_cmds::{read_long, read_small};
use route_history::LARGEST_LIMIT;
use std::alloc::{AllocError, Global};

/// The most that the number of this index may be in a command.
fn limit_of(verb: &[u8], index: usize) -> u64 {
    match verb {
        b"history" => u64::MAX,
        b"network" if index == 3 => u64::from(LARGEST_LIMIT),
        _ => u64::from(NUMBER_LIMIT),
    }
}

/// What is wrong with a word that is no number of at most this.
fn digits_words(alloc: Global, word: &[u8], limit: u64) -> Result<String, AllocError> {
    let shown = spelled(alloc, word)?;
    if word.iter().all(|byte| byte.is_ascii_digit()) {
        return format!(in alloc; "{shown} is more than {limit}");
    }
    format!(in alloc; "{shown} is no number: write decimal digits")
}

/// What is wrong with a number of a command.
pub(crate) fn number_words(
    alloc: Global,
    kind: ScriptKind,
    line: &[u8],
    size: Option<u16>,
) -> Result<ScriptFinding, AllocError> {
    let verb = word_at(line, 0);
    let numbers = match kind.form_of(verb) {
        Some(form) => form.numbers,
        None => 0,
    };
    for index in 1..=numbers {
        let (word, limit) = (word_at(line, index), limit_of(verb, index));
        if !word.is_empty() && read_long(word, limit).is_none() {
            return Ok(found_at(line, index, digits_words(alloc, word, limit)?));
        }
    }
    range_words(alloc, verb, line, size)
}

/// What is wrong with numbers that are out of the range of their command.
fn range_words(
    alloc: Global,
    verb: &[u8],
    line: &[u8],
    size: Option<u16>,
) -> Result<ScriptFinding, AllocError> {
    let first = number_at(line, 1);
    match verb {
        b"network" => network_words(alloc, line),
        b"domain" => Ok(found_at(line, 1, size_words(alloc, first)?)),
        b"told" => {
            let words = format!(in alloc;
                "node {first} is not up; `neighbours` lists the nodes that are"
            )?;
            Ok(found_at(line, 1, words))
        }
        _ => {
            let words = no_such_node(alloc, first, size.unwrap_or(0))?;
            Ok(found_at(line, 1, words))
        }
    }
}

/// That no domain has so many nodes.
fn size_words(alloc: Global, size: u16) -> Result<String, AllocError> {
    format!(in alloc; "a domain has 2 to 250 nodes, and not {size}")
}

/// What is wrong with the numbers of `network`.
fn network_words(alloc: Global, line: &[u8]) -> Result<ScriptFinding, AllocError> {
    let (size, me) = (number_at(line, 1), number_at(line, 2));
    if size < 2 || size > 250 {
        return Ok(found_at(line, 1, size_words(alloc, size)?));
    }
    if me >= size {
        return Ok(found_at(line, 2, no_such_node(alloc, me, size)?));
    }
    let words = String::from_str(alloc, "a history has 1 to 1000000 entries, and not 0")?;
    Ok(found_at(line, 3, words))
}

/// What is wrong with the digits of a code file.
pub(crate) fn digit_words(alloc: Global, line: &[u8]) -> Result<ScriptFinding, AllocError> {
    let digits = word_at(line, 2);
    let right = digits
        .iter()
        .take_while(|byte| byte.is_ascii_hexdigit())
        .count();
    let start = byte_of_word(line, 2);
    let count = digits.len();
    let words = if right < count {
        String::from_str(alloc, "this is no hexadecimal digit")?
    } else {
        format!(in alloc; "a byte is two hexadecimal digits, and there are {count} digits")?
    };
    Ok(ScriptFinding {
        words,
        byte: Some(start.saturating_add(right)),
    })
}

/// What is wrong with the prefix of a command.
pub(crate) fn prefix_words(alloc: Global, line: &[u8]) -> Result<ScriptFinding, AllocError> {
    let word = spelled(alloc, word_at(line, 2))?;
    let words = format!(in alloc; "{word} is no prefix: write one as 10.0.0.0/8")?;
    Ok(found_at(line, 2, words))
}
