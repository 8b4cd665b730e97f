//! A line that includes the file of a filter.
ghost use Rattle.std.specs.Prelude.{◌≡◌};
ghost use Rattle.std.specs.Option.{option_map};
ghost use Rattle.domain_files.specs.Including as spec;

use line_protocol::is_name;
use operator_cmds::{cut_word, two_words};

/// What a line `include NAME FILE` says.
#[derive(Clone, Copy)]
pub struct Include<'a> {
    /// The name that the filter gets.
    pub name: &'a [u8],
    /// The file of its text.
    pub file: &'a [u8],
}

/// What a line includes, if it includes something. A line of another form is left to whoever reads commands, and refused there.
pub fn include_in(line: &[u8]) -> Option<Include<'_>>
    ensures { option_map spec.include_of result ≡ spec.include_in line.now }
{
    let (word, rest) = cut_word(line)?;
    if word != b"include".as_slice() {
        return None;
    }
    match two_words(rest) {
        Some((name, file)) if is_name(name) => Some(Include { name, file }),
        _ => None,
    }
}
