//! The words of a line, as they are repeated to people.

use operator_cmds::read_small;
pub(crate) use refusal_words::{
    byte_of_word, count_words, from_word, short_text, spelled, word_at,
};
use std::alloc::{AllocError, Global};

/// The number that the word of this index is; 0 where it is none.
pub(crate) fn number_at(line: &[u8], index: usize) -> u16 {
    read_small(word_at(line, index)).unwrap_or(0)
}

/// That a node is not among those of a domain of this size.
pub(crate) fn no_such_node(alloc: Global, node: u16, size: u16) -> Result<String, AllocError> {
    let last = size.saturating_sub(1);
    format!(in alloc; "node {node} is not in the domain, whose nodes are 0 to {last}")
}
