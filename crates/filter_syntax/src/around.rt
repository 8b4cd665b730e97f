//! What stands round a place of a text: what is told of a refusal besides its fault.
//!
//! **What stands round a fault is found there too**, by the same look: the tokens at its place and before it, and where the names begin that the
//! text declares, so that the words for people need no second look. The names are an array of 16 places, as many as a filter may have: no refusal
//! takes memory, and what is told of one can be copied.
ghost use Rattle.std.specs.Prelude.{◌≡◌};
ghost use Rattle.filter_syntax.specs.Surroundings as spec;

use crate::names::{Names, names_in};
use filter_tokens::Token;

/// The tokens round a place of a text, and the names that the text declares.
#[derive(Clone, Copy)]
pub struct Around {
    /// The token that begins at the place.
    pub found: Option<Token>,
    /// The last token that ends at the place or before it.
    pub last: Option<Token>,
    /// The one before that.
    pub earlier: Option<Token>,
    /// The names that the text declares.
    pub names: Names,
}

impl Around {
    /// What stands round a place of a text that these tokens cut.
    pub fn of(tokens: &[Token], at: usize) -> Around
        ensures { result ≡ spec.around_of tokens.now at }
    {
        let before = count_before(tokens, at);
        Around {
            found: begun_at(at, tokens.get(before).copied()),
            last: token_back(tokens, before, 1),
            earlier: token_back(tokens, before, 2),
            names: names_in(tokens),
        }
    }

    /// Nothing, where no text was cut into tokens.
    pub fn nothing() -> Around
        ensures { result ≡ spec.nothing }
    {
        Around {
            found: None,
            last: None,
            earlier: None,
            names: Names::none(),
        }
    }
}

/// How many tokens end at a place or before it.
fn count_before(tokens: &[Token], at: usize) -> usize
    ensures { result ≡ spec.count_before tokens.now at }
{
    tokens.iter().take_while(|token| token.to <= at).count()
}

/// A token, if it begins at a place.
fn begun_at(at: usize, token: Option<Token>) -> Option<Token>
    ensures { result ≡ spec.begun_at at token }
{
    match token {
        Some(token) if token.from == at => Some(token),
        _ => None,
    }
}

/// The token so many before the one of an index, if there is one.
fn token_back(tokens: &[Token], index: usize, steps: usize) -> Option<Token>
    ensures { result ≡ spec.token_back tokens.now index steps }
{
    if steps <= index {
        tokens.get(index - steps).copied()
    } else {
        None
    }
}
