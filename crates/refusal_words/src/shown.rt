//! Text as it is shown on a terminal, which it must not be able to steer.
//!
//! **What is shown has no control sequences for a terminal**, whatever the bytes of the file and of its name are. `bstr` reads the characters, and
//! `unicode_width` says how wide one is. A line is cut by columns of the terminal, so that one of wide characters or of tabs takes no more room
//! than others. How many columns a tab takes depends on where it stands; eight are counted, the most that it takes.
//!
//! **Under a tab the caret's line has a tab**, so that the caret is in its place however wide tabs are shown.
ghost use Rattle.std.specs.Prelude.{◌≡◌, ◌++◌, IfOk, OnOk, encode_utf8_all, flat_map};
ghost use Rattle.prefix_patterns.specs.Spelling.{prefix_text};
ghost use Rattle.refusal_words.specs.Shown.{columns_of, indent_of, is_hidden, shown_character, shown_characters, width_of};

use bstr::ByteSlice;
use prefix_patterns::Prefix;
use std::alloc::{AllocError, Global};
use unicode_width::UnicodeWidthChar;

/// Whether a character is not shown: a control character other than the tab, or one that turns the direction of the text or ends a
/// line.
fn is_hidden(c: char) -> bool
    ensures { result ≡ is_hidden c }
{
    let code = c as u32;
    (code < 32 && code != 9)
        || (127 <= code && code < 160)
        || code == 0x61c
        || code == 0x200e
        || code == 0x200f
        || (0x2028 <= code && code <= 0x202e)
        || (0x2066 <= code && code <= 0x2069)
}

/// A character as it is shown: a control character of ASCII is shown as a space, and any other that is not shown as U+FFFD.
fn shown_character(c: char) -> char
    ensures { result ≡ shown_character c }
{
    if !is_hidden(c) {
        c
    } else if (c as u32) < 128 {
        ' '
    } else {
        '\u{fffd}'
    }
}

/// The characters of some bytes as they are shown. What is not UTF-8 is shown as U+FFFD.
pub(crate) fn shown_characters(alloc: Global, bytes: &[u8]) -> Result<Vec<char>, AllocError>
    ensures { IfOk result (λ shown. shown.items ≡ shown_characters bytes.now) }
{
    bytes.chars().map(|c| shown_character(c)).collect(alloc)
}

/// Puts characters at the end of `out`.
pub(crate) fn push_characters(
    alloc: Global,
    out: &mut Vec<u8>,
    characters: &[char],
) -> Result<(), AllocError>
    ensures { OnOk result (out.new.items ≡ out.old.items ++ encode_utf8_all characters.now) }
{
    let text: String = characters.iter().map(|c| *c).collect(alloc)?;
    out.extend_from_slice(text.as_bytes())
}

/// Puts bytes as they are shown at the end of `out`.
pub fn push_shown(alloc: Global, out: &mut Vec<u8>, bytes: &[u8]) -> Result<(), AllocError>
    ensures { OnOk result (out.new.items ≡ out.old.items ++ encode_utf8_all (shown_characters bytes.now)) }
{
    let shown = shown_characters(alloc, bytes)?;
    push_characters(alloc, out, shown.as_slice())
}

/// Puts a prefix at the end of `out`.
pub fn push_prefix(alloc: Global, out: &mut Vec<u8>, prefix: Prefix) -> Result<(), AllocError>
    ensures { OnOk result (out.new.items ≡ out.old.items ++ prefix_text prefix) }
{
    let text = format!(in alloc; "{prefix}")?;
    out.extend_from_slice(text.as_bytes())
}

/// The columns of a character on a terminal, three at most, where it is no tab.
fn width_of(c: char) -> usize
    ensures { result ≡ width_of c }
{
    c.width().unwrap_or(0).min(3)
}

/// Puts what stands under a character at the end of `out`, so that a caret behind it is in its column: a tab under a tab, and
/// otherwise as many spaces as the character is wide.
fn push_indent_of(out: &mut Vec<u8>, c: char) -> Result<(), AllocError>
    ensures { OnOk result (out.new.items ≡ out.old.items ++ indent_of c) }
{
    if c == '\t' {
        out.push(b'\t')?;
        return Ok(());
    }
    out.extend_from_slice(&b"   "[..width_of(c)])
}

/// The columns that a character takes at most: a tab ends at the next multiple of 8.
pub(crate) fn columns_of(c: char) -> usize
    ensures { result ≡ columns_of c }
{
    if c == '\t' { 8 } else { width_of(c) }
}

/// Puts what stands under some characters at the end of `out`.
pub(crate) fn push_indent(out: &mut Vec<u8>, characters: &[char]) -> Result<(), AllocError>
    ensures { OnOk result (out.new.items ≡ out.old.items ++ flat_map indent_of characters.now) }
{
    for character in characters {
        push_indent_of(out, *character)?;
    }
    Ok(())
}
