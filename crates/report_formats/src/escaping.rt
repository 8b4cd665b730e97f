//! Text within quotes of XML.
ghost use Rattle.std.specs.Prelude.{◌≡◌, ◌++◌, IfOk, OnOk, flat_map, option_map, string_bytes};
ghost use Rattle.bstr.specs.Utf8.{lossy_chars};
ghost use Rattle.report_formats.specs.Escaping as spec;

use bstr::ByteSlice;
use std::alloc::{AllocError, Global};

/// What stands for a character that has a meaning of its own.
fn entity_of(c: char) -> Option<&'static str>
    ensures { option_map (λ text. text.now) result ≡ spec.entity_of c }
{
    if c == '"' {
        Some("&quot;")
    } else if c == '&' {
        Some("&amp;")
    } else if c == '<' {
        Some("&lt;")
    } else if c == '>' {
        Some("&gt;")
    } else {
        None
    }
}

/// Whether a character is one that no document has, or a control character.
fn is_left_out(c: char) -> bool
    ensures { result ≡ spec.is_left_out c }
{
    let code = c as u32;
    code < 32 || (127 <= code && code < 160) || code == 0xfffe || code == 0xffff
}

/// A character that stands for itself, or U+FFFD where it is left out.
fn kept_character(c: char) -> char
    ensures { result ≡ spec.kept_character c }
{
    if is_left_out(c) { '\u{fffd}' } else { c }
}

/// Puts a character at the end of `out`, as it stands within quotes.
fn push_escaped(out: &mut String, c: char) -> Result<(), AllocError>
    ensures { OnOk result (string_bytes out.new ≡ string_bytes out.old ++ spec.escaped c) }
{
    match entity_of(c) {
        Some(entity) => out.push_str(entity),
        None => out.push(kept_character(c)),
    }
}

/// Puts characters at the end of `out`, as they stand within quotes.
fn push_characters(out: &mut String, characters: &[char]) -> Result<(), AllocError>
    ensures { OnOk result (string_bytes out.new ≡ string_bytes out.old ++ flat_map spec.escaped characters.now) }
{
    for character in characters {
        push_escaped(out, *character)?;
    }
    Ok(())
}

/// The characters of some bytes. What is not UTF-8 is U+FFFD.
fn characters_of(alloc: Global, bytes: &[u8]) -> Result<Vec<char>, AllocError>
    ensures { IfOk result (λ all. all.items ≡ lossy_chars bytes.now) }
{
    bytes.chars().collect(alloc)
}

/// Some bytes as they stand within quotes.
fn attribute_of(alloc: Global, bytes: &[u8]) -> Result<String, AllocError>
    ensures { IfOk result (λ text. string_bytes text ≡ spec.attribute bytes.now) }
{
    let characters = characters_of(alloc, bytes)?;
    let mut text = String::new(alloc);
    push_characters(&mut text, characters.as_slice())?;
    Ok(text)
}

/// Puts some bytes at the end of `out`, as they stand within quotes.
pub(crate) fn push_attribute(
    alloc: Global,
    out: &mut Vec<u8>,
    bytes: &[u8],
) -> Result<(), AllocError>
    ensures { OnOk result (out.new.items ≡ out.old.items ++ spec.attribute bytes.now) }
{
    let text = attribute_of(alloc, bytes)?;
    out.extend_from_slice(text.as_bytes())
}
