//! The lines of a text.
ghost use Rattle.std.specs.Prelude.{◌≡◌, ◌<◌, ◌∷◌, [], ◌==◌, IfNone, IfSome, length, position};
ghost use Rattle.std.specs.Str.Lines.{lines};

use line_protocol::strip_carriage_return;

/// The place of the first line feed.
fn find_line_feed(text: &[u8]) -> Option<usize>
    ensures at { result ≡ position (λ byte. byte == 10) text.now }
    ensures within { IfSome result (λ at. at < length text.now) }
{
    text.iter().position(|byte| *byte == b'\n')
}

/// The first line of a text, and what follows it.
pub fn cut_line(text: &[u8]) -> Option<(&[u8], &[u8])>
    ensures none { IfNone result (lines text.now ≡ []) }
    ensures found { IfSome result (λ cut. lines text.now ≡ cut.0.now ∷ lines cut.1.now) }
    ensures shorter { IfSome result (λ cut. length cut.1.now < length text.now) }
{
    if text.is_empty() {
        return None;
    }
    match find_line_feed(text) {
        Some(feed) => Some((strip_carriage_return(&text[..feed]), &text[feed + 1..])),
        None => Some((text, &text[text.len()..])),
    }
}
