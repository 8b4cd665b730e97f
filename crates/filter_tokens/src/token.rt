use crate::token_kind::TokenKind;

/// A token: what it is, and the bytes `from..to` of the text that it covers.
#[derive(Clone, Copy, PartialEq, Eq)]
pub struct Token {
    /// What it is.
    pub word: TokenKind,
    /// The place of its first byte.
    pub from: usize,
    /// The place after its last byte.
    pub to: usize,
}
