//! Two numbers with a space between them.
ghost use Rattle.std.specs.Prelude.{◌≡◌, ◌++◌, OnErr, OnOk};
ghost use Rattle.std.specs.Io.{StartsWith};
ghost use Rattle.message_streams.specs.Lines.{pair_text};
ghost use Rattle.message_streams.specs.Reading as spec;

use itoa::Buffer;
use line_protocol::push_decimal;
use prefix_patterns::{cut_at, read_number};
use std::alloc::AllocError;

/// Adds two numbers with a space between them.
pub(crate) fn push_pair(out: &mut Vec<u8>, first: u16, second: u16) -> Result<(), AllocError>
    ensures ok { OnOk result (out.new.items ≡ out.old.items ++ pair_text first second) }
    ensures err { OnErr result (StartsWith out.new.items out.old.items) }
{
    push_decimal(out, u64::from(first))?;
    out.push(b' ')?;
    push_decimal(out, u64::from(second))
}

/// A number as it is written, with no zero before it.
#[tactic(auto, unfolding(crate::specs::Reading::exact_number))]
fn read_exact_number(word: &[u8]) -> Option<u16>
    ensures { result ≡ spec.exact_number word.now }
{
    let number = read_number(word, u32::from(u16::MAX))?;
    let mut digits = Buffer::new();
    if digits.format(number).as_bytes() != word {
        return None;
    }
    Some(number as u16)
}

/// Two numbers with a space between them and nothing else.
#[tactic(auto, unfolding(crate::specs::Reading::pair_in))]
pub(crate) fn read_pair(text: &[u8]) -> Option<(u16, u16)>
    ensures { result ≡ spec.pair_in text.now }
{
    let (first, second) = cut_at(text, b' ')?;
    let first = read_exact_number(first)?;
    let second = read_exact_number(second)?;
    Some((first, second))
}
