//! The lines of a text that count: empty ones and comments are skipped.
ghost use Rattle.std.specs.Prelude.{◌≡◌, ◌+◌, ◌<◌, ◌≤◌, ◌^◌, ◌∷◌, [], ◌==◌, IfNone, IfSome, length, position};
ghost use Rattle.std.specs.Str.Lines.{lines};
ghost use Rattle.line_protocol.specs.Lines.{answerable_from};

use line_protocol::{is_skipped, strip_carriage_return};

/// The place of the first line feed.
fn find_line_feed(text: &[u8]) -> Option<usize>
    ensures at { result ≡ position (λ byte. byte == 10) text.now }
    ensures within { IfSome result (λ at. at < length text.now) }
{
    text.iter().position(|byte| *byte == b'\n')
}

/// The first line of a text, and what follows it.
fn cut_line(text: &[u8]) -> Option<(&[u8], &[u8])>
    ensures none { IfNone result (lines text.now ≡ []) }
    ensures found { IfSome result (λ cut. lines text.now ≡ cut.0.now ∷ lines cut.1.now) }
    ensures shorter { IfSome result (λ cut. length cut.1.now < length text.now) }
{
    if text.is_empty() {
        return None;
    }
    match find_line_feed(text) {
        Some(feed) => Some((strip_carriage_return(&text[..feed]), &text[feed + 1..])),
        None => Some((text, &text[text.len()..])),
    }
}

/// The first line that counts, with its number, and what follows it. The lines are numbered from `first`.
pub(crate) fn next_line(text: &[u8], first: usize) -> Option<(usize, &[u8], &[u8])>
    requires { first + length text.now < 2 ^ 64 }
    ensures none { IfNone result (answerable_from first (lines text.now) ≡ []) }
    ensures found { IfSome result (λ cut.
        answerable_from first (lines text.now) ≡ (cut.0, cut.1.now) ∷ answerable_from (cut.0 + 1) (lines cut.2.now)) }
    ensures shorter { IfSome result (λ cut. cut.0 + 1 + length cut.2.now ≤ first + length text.now) }
    ensures ends { IfSome result (λ cut. length cut.2.now < length text.now) }
{
    let mut rest = text;
    let mut number = first;
    while let Some((line, later)) = cut_line(rest) {
        if !is_skipped(line) {
            return Some((number, line, later));
        }
        rest = later;
        number += 1;
    }
    None
}
