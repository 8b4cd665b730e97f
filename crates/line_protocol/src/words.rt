//! Words of a line.
ghost use Rattle.std.specs.Prelude.{◌≡◌, ◌≤◌, [], ◌∷◌, ◌++◌, length, not, IfNone, IfSome};
ghost use Rattle.std.specs.List.{prefix_len};
ghost use Rattle.line_protocol.specs.Words.{is_blank, words, without_front_blanks, without_end_blanks, trimmed};

/// The bytes between words.
fn is_blank(byte: u8) -> bool
    ensures { result ≡ is_blank byte }
{
    byte == b' ' || byte == b'\t'
}

/// The number of blanks at the front.
fn count_front_blanks(line: &[u8]) -> usize
    ensures len { result ≡ prefix_len is_blank line.now }
    ensures within { result ≤ length line.now }
{
    for (i, byte) in line.iter().enumerate() {
        if !is_blank(*byte) {
            return i;
        }
    }
    line.len()
}

/// The line without the spaces and tabs at its front.
pub fn trim_front_blanks(line: &[u8]) -> &[u8]
    ensures { result.now ≡ without_front_blanks line.now }
{
    &line[count_front_blanks(line)..]
}

/// The number of bytes before the first blank.
fn word_len(line: &[u8]) -> usize
    ensures len { result ≡ prefix_len (λ byte. not (is_blank byte)) line.now }
    ensures within { result ≤ length line.now }
{
    for (i, byte) in line.iter().enumerate() {
        if is_blank(*byte) {
            return i;
        }
    }
    line.len()
}

/// The line without the blanks at its end.
fn trim_end_blanks(line: &[u8]) -> &[u8]
    ensures { result.now ≡ without_end_blanks line.now }
{
    let mut end = line.len();
    while end > 0 && is_blank(line[end - 1]) {
        end -= 1;
    }
    &line[..end]
}

/// The first word of a line and what follows it, or `None` if the line has no word.
/// Spaces and tabs separate words.
pub fn next_word(line: &[u8]) -> Option<(&[u8], &[u8])>
    ensures none { IfNone result (words line.now ≡ []) }
    ensures found { IfSome result (λ cut. words line.now ≡ cut.0.now ∷ words cut.1.now) }
    ensures rest { IfSome result (λ cut. without_front_blanks line.now ≡ cut.0.now ++ cut.1.now) }
{
    let line = trim_front_blanks(line);
    if line.is_empty() {
        return None;
    }
    Some(line.split_at(word_len(line)))
}

/// The line without the spaces and tabs at both ends.
pub fn trim_blanks(line: &[u8]) -> &[u8]
    ensures { result.now ≡ trimmed line.now }
{
    trim_end_blanks(trim_front_blanks(line))
}
