//! W5: prefixes that are written with host bits: bits of the address past the length, which are not kept.
//!
//! **W5 is found in the tokens**: the tree of a filter keeps no bits past the length of a prefix. So what it says is no warning of the code, and
//! stands behind those.
//!
//! **The tokens outlive the tree**: a token of a prefix keeps whether it was written with host bits, which the lexer sees as it clears them, and
//! `compile_text_mapped` answers the tokens beside the code. So no text is cut a second time, and where W5 is not asked for it costs nothing but
//! the memory of the tokens, 32 bytes each, until the source is answered.
ghost use Rattle.std.specs.Prelude.{◌≡◌, ℕ, List, IfOk};
ghost use Rattle.filter_tokens.specs.Lexemes.{covered};
ghost use Rattle.filter_tokens.specs.Tokenization.{IsTokenization};
ghost use Rattle.filter_lint.specs.HostBits as spec;

use filter_tokens::{Token, TokenKind};
use prefix_patterns::Prefix;
use std::alloc::{AllocError, Global};

/// A prefix of a text that is written with host bits: its token, and the prefix that it is read as.
#[derive(Clone, Copy)]
pub(crate) struct HostBits {
    /// The token.
    pub(crate) token: Token,
    /// The prefix, without the bits past its length.
    pub(crate) prefix: Prefix,
}

/// The bytes that a token covers.
pub(crate) fn bytes_of<'a>(text: &'a [u8], token: &Token) -> &'a [u8]
    ensures { result.now ≡ covered text.now token.now }
{
    let start = token.from.min(text.len());
    let end = token.to.min(text.len()).max(start);
    &text[start..end]
}

/// What a token says of a prefix with host bits, if it is one.
fn host_bits_of(token: &Token) -> Option<HostBits>
    ensures { result ≡ spec.host_bits_of token.now }
{
    match token.word {
        TokenKind::Prefix {
            has_host_bits: true,
            prefix,
        } => Some(HostBits {
            token: *token,
            prefix,
        }),
        _ => None,
    }
}

/// The prefixes with host bits among some tokens, in order.
pub(crate) fn host_bits_among(alloc: Global, tokens: &[Token]) -> Result<Vec<HostBits>, AllocError>
    ensures found { IfOk result (λ found. found.items ≡ spec.among tokens.now) }
    // They are all of a text that these tokens cut.
    ensures all { (text : List ℕ) → IsTokenization tokens.now 0 text → IfOk result (λ found. spec.AreHostBits text found.items) }
{
    let mut found = Vec::new(alloc);
    for token in tokens {
        if let Some(host_bits) = host_bits_of(token) {
            found.push(host_bits)?;
        }
    }
    Ok(found)
}
