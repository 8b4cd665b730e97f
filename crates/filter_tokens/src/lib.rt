//! The tokens of a filter's text.
//!
//! **The lexer is a crate of its own.** It shares one definition with the parser, how a text is cut into tokens, and each is large enough for one
//! crate.
#![tactic(auto)]

mod byte_class;
mod bytes;
mod fault;
mod gaps;
mod leading;
mod meaning;
mod part;
mod parts;
mod shape;
mod shapes;
mod symbol;
mod text;
mod token;
mod token_kind;

pub use byte_class::continues_word;
pub use fault::TokenFault;
pub use symbol::Symbol;
pub use text::{Lexed, lex};
pub use token::Token;
pub use token_kind::TokenKind;
