use crate::symbol::Symbol;
use prefix_patterns::{Ip, Prefix};

/// What a token is.
#[derive(Clone, Copy, PartialEq, Eq)]
pub enum TokenKind {
    /// A name, which the token's bytes spell.
    Name,
    /// A number, decimal or hexadecimal.
    Number(u32),
    /// An address.
    Address(Ip),
    /// A prefix.
    Prefix {
        /// Whether it is written with host bits: bits of the address past the length.
        has_host_bits: bool,
        /// The prefix, the bits past its length cleared.
        prefix: Prefix,
    },
    /// A text in double quotes.
    Text,
    /// A keyword or a punctuator.
    Symbol(Symbol),
}
