use crate::token_kind::TokenKind;

/// One of the parts, side by side, that make up a text.
#[derive(Clone, Copy)]
pub enum Part {
    /// This many bytes of space, or of a comment.
    Gap(usize),
    /// A token of this many bytes.
    Token(TokenKind, usize),
}
