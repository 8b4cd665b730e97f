//! The words after the first of a command, and the text of a filter.
ghost use Rattle.std.specs.Prelude.{◌≡◌, [], ◌∷◌, IfNone, IfSome};
ghost use Rattle.std.specs.Option.{option_map};
ghost use Rattle.line_protocol.specs.Words.{words};
ghost use Rattle.operator_cmds.specs.Commands.{text_in};
ghost use Rattle.operator_cmds.specs.WordLists as spec;

use line_protocol::{next_word, trim_front_blanks};

/// The first word of a line, and the bytes after it.
pub fn cut_word(line: &[u8]) -> Option<(&[u8], &[u8])>
    ensures none { IfNone result (words line.now ≡ []) }
    ensures found { IfSome result (λ cut. words line.now ≡ cut.0.now ∷ words cut.1.now) }
    ensures after { IfSome result (λ cut. spec.after_word line.now ≡ cut.1.now) }
{
    next_word(line)
}

/// The bytes after the first word of a line.
fn after_word(line: &[u8]) -> &[u8]
    ensures { result.now ≡ spec.after_word line.now }
{
    match next_word(line) {
        Some((_, rest)) => rest,
        None => trim_front_blanks(line),
    }
}

/// The text of a filter in a line that gives one: what follows the second word, from its first byte that is no blank.
pub fn text_in(line: &[u8]) -> &[u8]
    ensures { result.now ≡ text_in line.now }
{
    trim_front_blanks(after_word(after_word(line)))
}

/// The word of a line of just one.
pub fn one_word(line: &[u8]) -> Option<&[u8]>
    ensures { spec.one_of (words line.now) ≡ option_map (λ a. a.now) result }
{
    let (first, rest) = next_word(line)?;
    match next_word(rest) {
        None => Some(first),
        Some(_) => None,
    }
}

/// The words of a line of just two.
pub fn two_words(line: &[u8]) -> Option<(&[u8], &[u8])>
    ensures { spec.two_of (words line.now) ≡ option_map (λ all. (all.0.now, all.1.now)) result }
{
    let (first, rest) = next_word(line)?;
    Some((first, one_word(rest)?))
}

/// The words of a line of just three.
pub fn three_words(line: &[u8]) -> Option<(&[u8], &[u8], &[u8])>
    ensures { spec.three_of (words line.now) ≡ option_map (λ all. (all.0.now, all.1.now, all.2.now)) result }
{
    let (first, rest) = next_word(line)?;
    let (second, third) = two_words(rest)?;
    Some((first, second, third))
}
