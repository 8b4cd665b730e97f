//! Where the words of a line stand.
ghost use Rattle.std.specs.Prelude.{◌≡◌};
ghost use Rattle.router_files.specs.Places as spec;

use line_protocol::{next_word, trim_front_blanks};

/// What follows the first word of a line.
fn behind_first(line: &[u8]) -> &[u8]
    ensures { result.now ≡ spec.behind_first line.now }
{
    match next_word(line) {
        Some((_, behind)) => behind,
        None => b"",
    }
}

/// How many bytes of a line stand before the first word of its end.
fn byte_in(line: &[u8], end: &[u8]) -> usize
    ensures { result ≡ spec.byte_in line.now end.now }
{
    line.len().saturating_sub(trim_front_blanks(end).len())
}

/// Where the first word of a line begins; its end where it has none.
pub fn first_byte(line: &[u8]) -> usize
    ensures { result ≡ spec.first_byte line.now }
{
    byte_in(line, line)
}

/// Where its second word begins; its end where it has none.
pub fn second_byte(line: &[u8]) -> usize
    ensures { result ≡ spec.second_byte line.now }
{
    byte_in(line, behind_first(line))
}

/// Where its third word begins; its end where it has none.
pub fn third_byte(line: &[u8]) -> usize
    ensures { result ≡ spec.third_byte line.now }
{
    byte_in(line, behind_first(behind_first(line)))
}
