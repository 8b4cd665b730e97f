//! Where a byte of a text is, as an editor shows it.
ghost use Rattle.std.specs.Prelude.{◌≡◌, ◌+◌, ◌==◌, ◌≤◌, count_by, drop, length, take};
ghost use Rattle.std.specs.List.{prefix_len};
ghost use Rattle.line_protocol.specs.Lines.{is_line_feed};
ghost use Rattle.refusal_words.specs.Places.{begins_character, behind_last_feed, before_first_feed, column_at, is_inside, line_at};

/// A place in a text, and the line that it is in.
#[derive(Clone, Copy)]
pub struct TextPlace<'a> {
    /// The number of its line, counted from 1.
    pub line: usize,
    /// Its number among the characters of its line, counted from 1. A tab is one character.
    pub column: usize,
    /// The part of the line before the place.
    pub before: &'a [u8],
    /// The part of the line from the place on, without the line feed.
    pub behind: &'a [u8],
}

/// Whether a byte is the first of a character in UTF-8: it is no continuation byte.
pub(crate) fn begins_character(byte: u8) -> bool
    ensures { result ≡ begins_character byte }
{
    byte < 0x80 || byte >= 0xc0
}

/// What follows the last line feed of a text; all of it where it has none.
fn behind_last_feed(text: &[u8]) -> &[u8]
    ensures { result.now ≡ behind_last_feed text.now }
{
    let mut start = text.len();
    while start > 0 && text[start - 1] != b'\n' {
        start -= 1;
    }
    &text[start..]
}

/// The number of bytes before the first line feed of a text; of all of them where it has none.
fn line_len(text: &[u8]) -> usize
    ensures len { result ≡ prefix_len is_inside text.now }
    ensures within { result ≤ length text.now }
{
    for (i, byte) in text.iter().enumerate() {
        if *byte == b'\n' {
            return i;
        }
    }
    text.len()
}

/// The number of line feeds of a text.
fn count_feeds(text: &[u8]) -> usize
    ensures count { result ≡ count_by is_line_feed text.now }
    ensures few { result ≤ length text.now }
{
    text.iter().filter(|byte| **byte == b'\n').count()
}

/// The number of characters of a text.
fn count_characters(text: &[u8]) -> usize
    ensures count { result ≡ count_by begins_character text.now }
    ensures few { result ≤ length text.now }
{
    text.iter().filter(|byte| begins_character(**byte)).count()
}

/// The place of a byte of a text. A place behind the end is taken for the end.
pub fn place_in(text: &[u8], at: usize) -> TextPlace<'_>
    ensures line { result.line ≡ line_at text.now at }
    ensures column { result.column ≡ column_at text.now at }
    ensures before { result.before.now ≡ behind_last_feed (take at text.now) }
    ensures behind { result.behind.now ≡ before_first_feed (drop at text.now) }
{
    let (front, back) = text.split_at(at.min(text.len()));
    let before = behind_last_feed(front);
    TextPlace {
        line: count_feeds(front) + 1,
        column: count_characters(before) + 1,
        before,
        behind: &back[..line_len(back)],
    }
}
