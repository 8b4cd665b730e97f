//! What is told of a refused line.

use crate::spelling::byte_of_word;

/// What is wrong with a refused line, and where.
#[derive(Drop)]
pub(crate) struct ScriptFinding {
    /// In words. What they repeat of the line stands in them as it is.
    pub words: String,
    /// The byte of the line at which it is, if the line is to be shown.
    pub byte: Option<usize>,
}

/// Words about the word of this index of a line, or about the line's end where it has fewer words.
pub(crate) fn found_at(line: &[u8], index: usize, words: String) -> ScriptFinding {
    ScriptFinding {
        words,
        byte: Some(byte_of_word(line, index)),
    }
}
