//! A refusal in words for people, at its line and column where it has one.
//!
//! **`--explain` is `auto`, `always` or `never`, and `auto` unless it is given.** `auto` tells a refusal in words where standard error is a
//! terminal, so people see words and programs see codes, and of a file that is named. The routes of `filter` and of `eval` come from standard
//! input, so `auto` tells of a refused line on a terminal alone, whatever file the filter is in. Where standard input is a terminal and is read, a
//! line on standard error says so. Standard output and the exit status are the same on a terminal and elsewhere.
//!
//! **The words of an explanation are made for the line that is shown with them**, so they name what stands there and no byte; a fault's `Display`,
//! which names its byte, is for callers of the libraries. No contract says what the words are. So `explain` says that there are some words between
//! name, place and code, as characters that can be shown, and tests show them. All else in an explanation is defined, the range of an int that is
//! refused too.
//!
//! **For a misspelt command, the explanation points at the word.** `acept;` is refused at its `;`, since `acept` could be a variable: that place is
//! what standard output says. People are shown the last name before it, which the fault carries.
//!
//! **What is told of a refusal is made once, by the step that refuses**: a `Diagnosis` has the byte of the text, the range of the int, the tokens
//! round that byte, and where the names begin that the text declares; whoever tells people has it handed on. Nothing is cut into tokens, parsed,
//! compiled or verified again to explain a refusal, of a script's line neither. Which known word is nearest to a misspelt one is found where words
//! are made: it takes memory, and programs do not read it.
ghost use Rattle.std.specs.Prelude.{◌≡◌, ◌++◌, None, Some, IfOk, OnOk, unwrap_or};
ghost use Rattle.std.specs.Option.{option_map};
ghost use Rattle.refusal_words.specs.Explanations.{AreRefusalWords, IsExplanation, IsLineExplanation, blanks_for};
ghost use Rattle.refusal_words.specs.Explanations.{byte_of_line, dots_for, excerpt, excerpt_of, explained_at};
ghost use Rattle.refusal_words.specs.Explanations.{coded, end_within, explanation, first_of, front_within};
ghost use Rattle.refusal_words.specs.Explanations.{is_long, last_of, message, number_text, position};

use crate::diagnosis_words::diagnosis_words;
use crate::place::place_in;
use crate::shown::{columns_of, push_characters, push_indent, push_shown, shown_characters};
use filter_source::{Diagnosis, Refusal};
use line_protocol::push_decimal;
use std::alloc::{AllocError, Global};

/// Of a long line at most so many columns are shown at each side of the place.
const SIDE: usize = 100;

/// So many of them where dots stand for the others.
const KEPT: usize = 97;

/// Puts a line and a column at the end of `out`, each behind a colon.
pub fn push_position(out: &mut Vec<u8>, line: usize, column: usize) -> Result<(), AllocError>
    ensures { OnOk result (out.new.items ≡ out.old.items ++ position line column) }
{
    out.push(b':')?;
    push_decimal(out, line as u64)?;
    out.push(b':')?;
    push_decimal(out, column as u64)
}

/// The longest front of some characters that takes at most so many columns.
fn front_within(characters: &[char], most: usize) -> &[char]
    ensures { result.now ≡ front_within most characters.now }
{
    let mut room = most;
    for (i, character) in characters.iter().enumerate() {
        let columns = columns_of(*character);
        if columns > room {
            return &characters[..i];
        }
        room -= columns;
    }
    characters
}

/// The longest end of some characters that takes at most so many columns.
fn end_within(characters: &[char], most: usize) -> &[char]
    ensures { result.now ≡ end_within most characters.now }
{
    let mut room = most;
    let mut start = characters.len();
    while start > 0 {
        let columns = columns_of(characters[start - 1]);
        if columns > room {
            return &characters[start..];
        }
        room -= columns;
        start -= 1;
    }
    characters
}

/// Whether the characters of one side are not all shown.
fn is_long(characters: &[char]) -> bool
    ensures { result ≡ is_long characters.now }
{
    front_within(characters, SIDE).len() < characters.len()
}

/// What stands in place of the characters of one side that are not shown.
fn dots_for(characters: &[char]) -> &'static [u8]
    ensures { result.now ≡ dots_for characters.now }
{
    if is_long(characters) { b"..." } else { b"" }
}

/// What stands below the dots.
fn blanks_for(characters: &[char]) -> &'static [u8]
    ensures { result.now ≡ blanks_for characters.now }
{
    if is_long(characters) { b"   " } else { b"" }
}

/// The last characters before the place.
fn last_of(characters: &[char]) -> &[char]
    ensures { result.now ≡ last_of characters.now }
{
    if is_long(characters) {
        end_within(characters, KEPT)
    } else {
        characters
    }
}

/// The first characters from the place on.
fn first_of(characters: &[char]) -> &[char]
    ensures { result.now ≡ first_of characters.now }
{
    if is_long(characters) {
        front_within(characters, KEPT)
    } else {
        characters
    }
}

/// Puts a line of two parts, and a caret under the first character of the second, at the end of `out`.
fn push_excerpt_of(
    alloc: Global,
    out: &mut Vec<u8>,
    before: &[char],
    behind: &[char],
) -> Result<(), AllocError>
    ensures { OnOk result (out.new.items ≡ out.old.items ++ excerpt_of before.now behind.now) }
{
    let last = last_of(before);
    out.extend_from_slice(dots_for(before))?;
    push_characters(alloc, out, last)?;
    push_characters(alloc, out, first_of(behind))?;
    out.extend_from_slice(dots_for(behind))?;
    out.push(b'\n')?;
    out.extend_from_slice(blanks_for(before))?;
    push_indent(out, last)?;
    out.extend_from_slice(b"^\n")
}

/// Puts a line of two parts, as they are shown, and a caret under the first character of the second, at the end of `out`.
fn push_excerpt(
    alloc: Global,
    out: &mut Vec<u8>,
    before: &[u8],
    behind: &[u8],
) -> Result<(), AllocError>
    ensures { OnOk result (out.new.items ≡ out.old.items ++ excerpt before.now behind.now) }
{
    let before = shown_characters(alloc, before)?;
    let behind = shown_characters(alloc, behind)?;
    push_excerpt_of(alloc, out, before.as_slice(), behind.as_slice())
}

/// Puts words, and a code behind them, at the end of `out`.
fn push_coded(out: &mut Vec<u8>, words: &[u8], code: &str) -> Result<(), AllocError>
    ensures { OnOk result (out.new.items ≡ out.old.items ++ coded words.now code.now) }
{
    out.extend_from_slice(words)?;
    out.extend_from_slice(b" (")?;
    out.extend_from_slice(code.as_bytes())?;
    out.extend_from_slice(b")")
}

/// Puts words and a code at the end of `out`, to the end of the line.
fn push_message(out: &mut Vec<u8>, words: &[u8], code: &str) -> Result<(), AllocError>
    ensures { OnOk result (out.new.items ≡ out.old.items ++ message words.now code.now) }
{
    out.extend_from_slice(b": ")?;
    push_coded(out, words, code)?;
    out.extend_from_slice(b"\n")
}

/// Puts the number of a line at the end of `out`, if it is known.
fn push_number(out: &mut Vec<u8>, number: Option<u32>) -> Result<(), AllocError>
    ensures { OnOk result (out.new.items ≡ out.old.items ++ number_text number) }
{
    match number {
        Some(number) => {
            out.push(b':')?;
            push_decimal(out, u64::from(number))
        }
        None => Ok(()),
    }
}

/// What is said in these words under a code, for people: `NAME:NUMBER: WORDS (CODE)`, or without the number where it is not known. Where
/// it stands at a byte of the text, the line and the column are behind the name, and the line with a caret under the place follows. The
/// number is that of a script's line, if it is known. The name and the text are shown, and the words and the code are taken as they are.
pub fn tell_at(
    alloc: Global,
    name: &[u8],
    number: Option<u32>,
    text: &[u8],
    words: &[u8],
    code: &str,
    byte: Option<usize>,
) -> Result<Vec<u8>, AllocError>
    ensures { IfOk result (λ out. out.items ≡ explained_at name.now number text.now words.now code.now byte) }
{
    let mut out = Vec::new(alloc);
    push_shown(alloc, &mut out, name)?;
    match byte {
        None => {
            push_number(&mut out, number)?;
            push_message(&mut out, words, code)?;
        }
        Some(at) => {
            let place = place_in(text, at);
            push_position(&mut out, line_in(number, place.line), place.column)?;
            push_message(&mut out, words, code)?;
            push_excerpt(alloc, &mut out, place.before, place.behind)?;
        }
    }
    Ok(out)
}

/// What is said of a refusal in these words, where it stands at this byte.
fn explain_in(
    alloc: Global,
    name: &[u8],
    number: Option<u32>,
    text: &[u8],
    words: &[u8],
    why: Refusal,
    byte: Option<usize>,
) -> Result<Vec<u8>, AllocError>
    ensures { IfOk result (λ out. out.items ≡ explanation name.now number text.now words.now why byte) }
{
    tell_at(alloc, name, number, text, words, why.code(), byte)
}

/// The number of a line, where it is known, or another one.
fn line_in(number: Option<u32>, line: usize) -> usize
    ensures { result ≡ unwrap_or number line }
{
    match number {
        Some(number) => number as usize,
        None => line,
    }
}

/// Why a source is refused, for people, where its place is told elsewhere: `WORDS (CODE)`.
pub fn refusal_words(
    alloc: Global,
    text: &[u8],
    diagnosis: &Diagnosis,
) -> Result<Vec<u8>, AllocError>
    ensures { IfOk result (λ out. AreRefusalWords diagnosis.now out.items) }
{
    let words = diagnosis_words(alloc, text, diagnosis)?;
    let mut out = Vec::new(alloc);
    push_coded(&mut out, words.as_slice(), diagnosis.refusal.code())?;
    Ok(out)
}

/// Why a source of this name is refused, for people: `NAME: WORDS (CODE)`. Where the refusal has a place in a filter's text, its line
/// and column stand behind the name, and the line with a caret under the place follows.
pub fn explain(
    alloc: Global,
    name: &[u8],
    text: &[u8],
    diagnosis: &Diagnosis,
) -> Result<Vec<u8>, AllocError>
    ensures { IfOk result (λ out. IsExplanation name.now text.now diagnosis.now out.items) }
{
    let words = diagnosis_words(alloc, text, diagnosis)?;
    explain_in(
        alloc,
        name,
        None,
        text,
        words.as_slice(),
        diagnosis.refusal,
        diagnosis.byte,
    )
}

/// The byte of a line that is this byte of the source with which the line ends.
fn byte_of_line(line: &[u8], source: &[u8], byte: Option<usize>) -> Option<usize>
    ensures { result ≡ option_map (byte_of_line line.now source.now) byte }
{
    match byte {
        Some(at) => Some(line.len().saturating_sub(source.len()) + at.min(source.len())),
        None => None,
    }
}

/// Why the source with which the line of a number ends is refused, for people: `NAME:NUMBER: WORDS (CODE)`. Where the refusal has a
/// place in a filter's text, its column in the line stands behind the number, and the line with a caret under the place follows.
pub fn explain_line(
    alloc: Global,
    name: &[u8],
    number: u32,
    line: &[u8],
    source: &[u8],
    diagnosis: &Diagnosis,
) -> Result<Vec<u8>, AllocError>
    ensures { IfOk result (λ out. IsLineExplanation name.now number line.now source.now diagnosis.now out.items) }
{
    let words = diagnosis_words(alloc, source, diagnosis)?;
    let byte = byte_of_line(line, source, diagnosis.byte);
    explain_in(
        alloc,
        name,
        Some(number),
        line,
        words.as_slice(),
        diagnosis.refusal,
        byte,
    )
}
