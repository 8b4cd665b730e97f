//! The text that tells the plan of a domain, line by line.
ghost use Rattle.std.specs.Prelude.{◌≡◌, ◌++◌, OnOk};
ghost use Rattle.domain_files.specs.PlanTexts as spec;

use code_file::write_code;
use filter_verifier::Verified;
use line_protocol::push_decimal;
use operator_cmds::Direction;
use prefix_patterns::Prefix;
use std::alloc::{AllocError, Global};

/// Adds a word, and a number behind it.
fn push_numbered(out: &mut Vec<u8>, word: &[u8], number: u16) -> Result<(), AllocError>
    ensures { OnOk result (out.new.items ≡ out.old.items ++ spec.numbered word.now number) }
{
    out.extend_from_slice(word)?;
    out.push(b' ')?;
    push_decimal(out, u64::from(number))
}

/// Adds the line that tells the size.
pub(crate) fn push_size(out: &mut Vec<u8>, size: u16) -> Result<(), AllocError>
    ensures { OnOk result (out.new.items ≡ out.old.items ++ spec.size_line size) }
{
    push_numbered(out, b"domain", size)?;
    out.push(b'\n')?;
    Ok(())
}

/// Adds the line that tells the prefix of a node.
pub(crate) fn push_prefix(
    alloc: Global,
    out: &mut Vec<u8>,
    v: u16,
    prefix: Prefix,
) -> Result<(), AllocError>
    ensures { OnOk result (out.new.items ≡ out.old.items ++ spec.prefix_line v prefix) }
{
    let text = format!(in alloc; "{prefix}")?;
    push_numbered(out, b"prefix", v)?;
    out.push(b' ')?;
    out.extend_from_slice(text.as_bytes())?;
    out.push(b'\n')?;
    Ok(())
}

/// Adds a word and two nodes.
fn push_pair(out: &mut Vec<u8>, word: &[u8], u: u16, w: u16) -> Result<(), AllocError>
    ensures { OnOk result (out.new.items ≡ out.old.items ++ spec.pair word.now u w) }
{
    push_numbered(out, word, u)?;
    out.push(b' ')?;
    push_decimal(out, u64::from(w))
}

/// Adds the line that tells a link.
pub(crate) fn push_link(out: &mut Vec<u8>, u: u16, w: u16) -> Result<(), AllocError>
    ensures { OnOk result (out.new.items ≡ out.old.items ++ spec.link_line u w) }
{
    push_pair(out, b"link", u, w)?;
    out.push(b'\n')?;
    Ok(())
}

/// The word of a direction.
fn direction_word(direction: Direction) -> &'static [u8]
    ensures { result.now ≡ spec.direction_word direction }
{
    match direction {
        Direction::Import => b"import",
        Direction::Export => b"export",
    }
}

/// Adds the line that tells a filter between two nodes, by its code.
pub(crate) fn push_filter(
    alloc: Global,
    out: &mut Vec<u8>,
    direction: Direction,
    u: u16,
    w: u16,
    filter: &Verified,
) -> Result<(), AllocError>
    ensures { OnOk result (out.new.items ≡ out.old.items ++ spec.filter_line direction u w filter.now) }
{
    let Ok(bytes) = write_code(alloc, filter.code()) else {
        return Err(AllocError);
    };
    let digits = hex::encode(alloc, bytes)?;
    push_pair(out, direction_word(direction), u, w)?;
    out.push(b' ')?;
    out.extend_from_slice(digits.as_bytes())?;
    out.push(b'\n')?;
    Ok(())
}
