//! The names that a text declares.
ghost use Rattle.std.specs.Prelude.{◌≡◌};
ghost use Rattle.filter_syntax.specs.Surroundings as spec;

use filter_tokens::{Symbol, Token, TokenKind};

/// How many variables a filter may have.
pub const VARIABLE_LIMIT: usize = 16;

/// Where the names begin that a text declares: the first 16, as many as a filter may have.
#[derive(Clone, Copy)]
pub struct Names {
    count: usize,
    places: [usize; VARIABLE_LIMIT],
}

impl Names {
    ghost use Rattle.filter_syntax.specs.Surroundings.{places_of};

    /// None.
    pub fn none() -> Names
        ensures { result ≡ spec.no_names }
    {
        Names {
            count: 0,
            places: [0; VARIABLE_LIMIT],
        }
    }

    /// Their places, in order.
    pub fn places(&self) -> &[usize]
        ensures { result.now ≡ places_of self.now }
    {
        &self.places[..self.count.min(VARIABLE_LIMIT)]
    }

    /// Adds the place of one, while there is room.
    fn push(&mut self, place: usize)
        ensures { self.new ≡ spec.with_name self.old place }
    {
        if self.count < VARIABLE_LIMIT {
            self.places[self.count] = place;
            self.count += 1;
        }
    }
}

/// Whether a token is the name of a kind, with which a declaration begins.
fn is_kind(kind: TokenKind) -> bool
    ensures { result ≡ spec.is_kind kind }
{
    matches!(
        kind,
        TokenKind::Symbol(Symbol::Int | Symbol::Bool | Symbol::Ip | Symbol::Prefix)
    )
}

/// Whether a token is a name.
fn is_name(kind: TokenKind) -> bool
    ensures { result ≡ spec.is_name kind }
{
    matches!(kind, TokenKind::Name)
}

/// The names that tokens declare, each behind the name of its kind.
pub(crate) fn names_in(tokens: &[Token]) -> Names
    ensures { result ≡ spec.names_in tokens.now }
{
    let mut names = Names::none();
    let mut is_declared = false;
    for token in tokens {
        if is_declared && is_name(token.word) {
            names.push(token.from);
        }
        is_declared = is_kind(token.word);
    }
    names
}
