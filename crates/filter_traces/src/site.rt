//! Where in a filter's text an instruction comes from, and the word that stands there.
//!
//! **A comparison and the NOT of its own operator are told as one**: `a > b` is compiled as `a <= b` and a NOT at the same `>`. The line has the
//! sign that stands in the text, and whether that is so. A `!` stands elsewhere, and is not told.
ghost use Rattle.std.specs.Prelude.{◌≡◌, ◌++◌, OnOk, length, take_while};
ghost use Rattle.filter_traces.specs.Sites.{is_joining_byte, is_word_byte, site_text, word_at, word_length, word_of};

use line_protocol::push_decimal;
use std::alloc::AllocError;

/// Where an instruction comes from.
#[derive(Clone, Copy)]
pub(crate) struct InstructionSite {
    /// The byte of the text.
    pub(crate) byte: usize,
    /// The number of its line, counted from 1.
    pub(crate) line: usize,
    /// Its number among the characters of its line, counted from 1.
    pub(crate) column: usize,
}

/// Whether a byte may stand in a name, a keyword or a number.
fn is_word_byte(byte: u8) -> bool
    ensures { result ≡ is_word_byte byte }
{
    (b'a' <= byte && byte <= b'z')
        || (b'A' <= byte && byte <= b'Z')
        || (b'0' <= byte && byte <= b'9')
        || byte == b'_'
}

/// Whether a byte stands in `&&` or `||`.
fn is_joining_byte(byte: u8) -> bool
    ensures { result ≡ is_joining_byte byte }
{
    byte == b'&' || byte == b'|'
}

/// How many of the first bytes may stand in a name, a keyword or a number.
fn count_word_bytes(bytes: &[u8]) -> usize
    ensures { result ≡ length (take_while is_word_byte bytes.now) }
{
    bytes.iter().take_while(|byte| is_word_byte(**byte)).count()
}

/// How many of the first bytes stand in `&&` or `||`.
fn count_joining_bytes(bytes: &[u8]) -> usize
    ensures { result ≡ length (take_while is_joining_byte bytes.now) }
{
    bytes
        .iter()
        .take_while(|byte| is_joining_byte(**byte))
        .count()
}

/// The length of the word with which some bytes begin.
fn word_length(bytes: &[u8]) -> usize
    ensures { result ≡ word_length bytes.now }
{
    count_word_bytes(bytes)
        .max(count_joining_bytes(bytes))
        .max(1)
}

/// The word that stands at a byte of a text.
fn word_at(text: &[u8], byte: usize) -> &[u8]
    ensures { result.now ≡ word_at text.now byte }
{
    let (_, behind) = text.split_at(byte.min(text.len()));
    let (word, _) = behind.split_at(word_length(behind).min(behind.len()));
    word
}

/// The word at a site, if there is one.
pub(crate) fn word_of(text: &[u8], site: Option<InstructionSite>) -> &[u8]
    ensures { result.now ≡ word_of text.now site }
{
    match site {
        Some(site) => word_at(text, site.byte),
        None => &[],
    }
}

/// Puts the line and the column of a site at the end of `out`.
pub(crate) fn push_site(out: &mut Vec<u8>, site: Option<InstructionSite>) -> Result<(), AllocError>
    ensures { OnOk result (out.new.items ≡ out.old.items ++ site_text site) }
{
    match site {
        Some(site) => {
            push_decimal(out, site.line as u64)?;
            out.push(b':')?;
            push_decimal(out, site.column as u64)
        }
        None => Ok(()),
    }
}
