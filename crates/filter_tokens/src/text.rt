ghost use Rattle.std.specs.Prelude.{◌≡◌, List, None, IfOk, IfSome, length};
ghost use Rattle.filter_tokens.specs.declared.token.Token.{Token as TheToken};
ghost use Rattle.filter_tokens.specs.Codes.{fault_place};
ghost use Rattle.filter_tokens.specs.Tokenization.{IsTokenization, AreInOrder, StopsAt};

use crate::fault::TokenFault;
use crate::part::Part;
use crate::parts::next_part;
use crate::token::Token;
use std::alloc::{AllocError, Global};

/// A text's tokens from the left, and the fault that ended them if there was one.
#[derive(Drop)]
pub struct Lexed {
    /// The tokens before the fault, or all.
    pub tokens: Vec<Token>,
    /// Why there are no more, where the text goes on.
    pub fault: Option<TokenFault>,
}

/// How many bytes of a text a token has at least, with the space after it, in most texts. A list with room for so many tokens seldom has to
/// move them.
const USUAL_BYTES: usize = 4;

/// So many tokens have room at first, and no more: as many as the longest text of a filter has in most cases. A configuration is longer, and is
/// cut from many places of it.
const MOST_AT_FIRST: usize = 65_536 / USUAL_BYTES;

/// Cuts a text into tokens, from the left up to the first byte that no token has.
///
/// An error is refused memory: a text that no tokens cut is answered with its fault.
pub fn lex(alloc: Global, text: &[u8]) -> Result<Lexed, AllocError>
    // The tokens lie in the text, in order, each with a byte at least.
    ensures spans { IfOk result (λ c. AreInOrder 0 c.tokens.items (length text.now)) }
    // Where there is no fault, the tokens cut the text.
    ensures found { IfOk result (λ c. c.fault ≡ None → IsTokenization c.tokens.items 0 text.now) }
    // Whatever cuts the text are these tokens, and then there is no fault.
    ensures only { IfOk result (λ c. (tokens : List TheToken) → IsTokenization tokens 0 text.now
        → (c.fault ≡ None) × (c.tokens.items ≡ tokens)) }
    // No text is cut in two ways.
    ensures one { (tokens others : List TheToken) → IsTokenization tokens 0 text.now → IsTokenization others 0 text.now → tokens ≡ others }
    // Where there is a fault, the tokens cut the text up to its place, and the text goes on with no space, comment or token there.
    ensures stopped { IfOk result (λ c. IfSome c.fault (λ fault. StopsAt c.tokens.items (fault_place fault) text.now)) }
{
    let mut tokens = Vec::with_capacity(alloc, (text.len() / USUAL_BYTES).min(MOST_AT_FIRST))?;
    let mut at = 0;
    while at < text.len() {
        match next_part(&text[at..], at) {
            Ok(Part::Gap(len)) => at += len,
            Ok(Part::Token(word, len)) => {
                tokens.push(Token {
                    word,
                    from: at,
                    to: at + len,
                })?;
                at += len;
            }
            Err(fault) => return Ok(Lexed {
                tokens,
                fault: Some(fault),
            }),
        }
    }
    Ok(Lexed {
        tokens,
        fault: None,
    })
}
