ghost use Rattle.std.specs.Prelude.{◌≡◌, ◌≢◌, ◌∷◌, ◌<◌, ℕ, List, [], Some, None, IfErr, IfOk, IfSome, MatchOption, length};
ghost use Rattle.std.specs.Cmp.Lexicographic.{pointwise};
ghost use Rattle.filter_tokens.specs.Lexemes as lexemes;
ghost use Rattle.expression_parser.specs.Readers as readers;
ghost use Rattle.expression_parser.specs.Steps as spec;
ghost use Rattle.expression_parser.specs.declared.fault.ParseFault.TheVariants.{Memory};

use crate::expected::Expected;
use crate::fault::ParseFault;
use filter_syntax::Name;
use filter_tokens::{Symbol, Token, TokenFault, TokenKind};
use prefix_patterns::Prefix;
use std::alloc::{AllocError, Global};

/// What the tokens were cut from, and what ended them.
#[derive(Clone, Copy)]
pub struct LexedText<'a> {
    /// The whole text.
    pub text: &'a [u8],
    /// Why there are no more tokens, where that is not the end of the text.
    pub end: Option<TokenFault>,
}

/// What is left to read: the tokens of a text, and where they are from.
#[derive(Clone, Copy)]
pub struct Input<'a> {
    /// Where the tokens are from.
    pub source: &'a LexedText<'a>,
    /// The tokens that are left.
    pub tokens: &'a [Token],
}

/// Whether a token is a symbol.
fn is_symbol(token: &Token, text: &[u8], symbol: Symbol) -> bool
    ensures { result ≡ readers.is_symbol symbol (lexemes.lexeme text.now token.now) }
{
    match &token.word {
        TokenKind::Symbol(found) => symbol == *found,
        _ => false,
    }
}

impl<'a> Input<'a> {
    ghost use Rattle.expression_parser.specs.Steps.{FailsWithin, Finds, Follows, LeavesWithin, ReadsAs, Spans, StaysWithin, first_place, remaining};

    /// The first token, and what is left after it.
    pub fn next(self) -> Option<(&'a Token, Input<'a>)>
        ensures is { let w = remaining self.entry in
            MatchOption result (w ≡ []) (λ x. w ≡ lexemes.lexeme self.entry.source.now.text.now x.0.now ∷ remaining x.1) }
        ensures first { IfSome result (λ x. x.0.now.from ≡ first_place self.entry) }
        ensures placed { IfSome result (λ x. Spans (Some x.0.now.from ∷ []) self.entry x.1) }
        ensures within { IfSome result (λ x. Follows self.entry x.1) }
    {
        let (first, tokens) = self.tokens.split_first()?;
        Some((
            first,
            Input {
                source: self.source,
                tokens,
            },
        ))
    }

    /// The place of the first token, and that of the text's end where there is none.
    pub fn at(self) -> usize
        ensures { result ≡ first_place self.entry }
    {
        match self.tokens.first() {
            None => self.source.text.len(),
            Some(token) => token.from,
        }
    }

    /// Why there are no more tokens.
    fn end_fault(self) -> ParseFault
        ensures is { result ≡ spec.end_fault_of (length self.entry.source.now.text.now) self.entry.source.now.end }
        ensures not_memory { result ≢ Memory }
        ensures within { FailsWithin self.entry result }
    {
        match self.source.end {
            None => ParseFault::EndsEarly(self.source.text.len()),
            Some(fault) => ParseFault::Token(fault),
        }
    }

    /// What is wrong at the first token, where something else is expected.
    pub fn unexpected(self, expected: Expected) -> ParseFault
        ensures is { result ≡ spec.unexpected self.entry expected }
        ensures not_memory { result ≢ Memory }
        ensures within { FailsWithin self.entry result }
    {
        match self.tokens.first() {
            None => self.end_fault(),
            Some(token) => match &token.word {
                TokenKind::Text => ParseFault::TextElsewhere(token.from),
                _ => ParseFault::Unexpected(token.from, expected),
            },
        }
    }

    /// What is left after a symbol, if that comes first.
    pub fn eat(self, symbol: Symbol) -> Option<Input<'a>>
        ensures found { Finds remaining result (readers.symbol symbol (remaining self.entry)) }
        ensures placed { IfSome result (λ rest. Spans (Some (first_place self.entry) ∷ []) self.entry rest) }
        ensures within { IfSome result (Follows self.entry) }
        ensures shorter { IfSome result (λ rest. length (remaining rest) < length (remaining self.entry)) }
    {
        let (first, rest) = self.next()?;
        if is_symbol(first, self.source.text, symbol) {
            Some(rest)
        } else {
            None
        }
    }

    /// What is left after a symbol that has to come first.
    pub fn expect(self, symbol: Symbol, expected: Expected) -> Result<Input<'a>, ParseFault>
        ensures reads { ReadsAs remaining result (readers.symbol symbol (remaining self.entry)) }
        ensures shorter { IfOk result (λ rest. length (remaining rest) < length (remaining self.entry)) }
        ensures placed { IfOk result (λ rest. Spans (Some (first_place self.entry) ∷ []) self.entry rest) }
        ensures refusal { IfErr result (λ why. why ≡ spec.unexpected self.entry expected) }
        ensures within { LeavesWithin (λ rest. rest) self.entry result }
    {
        match self.eat(symbol) {
            Some(rest) => Ok(rest),
            None => Err(self.unexpected(expected)),
        }
    }

    /// What is left after a text in quotes, if that comes first.
    pub fn eat_text(self) -> Option<Input<'a>>
        ensures found { Finds remaining result (readers.quote (remaining self.entry)) }
        ensures shorter { IfSome result (λ rest. length (remaining rest) < length (remaining self.entry)) }
        ensures placed { IfSome result (λ rest. Spans (Some (first_place self.entry) ∷ []) self.entry rest) }
        ensures within { IfSome result (Follows self.entry) }
    {
        let (first, rest) = self.next()?;
        match &first.word {
            TokenKind::Text => Some(rest),
            _ => None,
        }
    }

    /// What is left after a name that is this word, if that comes first.
    pub(crate) fn eat_name(self, word: &[u8]) -> Option<Input<'a>>
        ensures found { Finds remaining result (readers.word word.now (remaining self.entry)) }
        ensures shorter { IfSome result (λ rest. length (remaining rest) < length (remaining self.entry)) }
        ensures placed { IfSome result (λ rest. Spans (Some (first_place self.entry) ∷ []) self.entry rest) }
        ensures within { IfSome result (Follows self.entry) }
    {
        let (first, rest) = self.next()?;
        match &first.word {
            TokenKind::Name => if self.covered(first) == word {
                Some(rest)
            } else {
                None
            },
            _ => None,
        }
    }

    /// A number, if one comes first, and what is left after it.
    pub fn eat_number(self) -> Option<(u32, Input<'a>)>
        ensures found { Finds (λ x. (x.0, remaining x.1)) result (readers.a_number (remaining self.entry)) }
        ensures shorter { IfSome result (λ x. length (remaining x.1) < length (remaining self.entry)) }
        ensures placed { IfSome result (λ x. Spans (Some (first_place self.entry) ∷ []) self.entry x.1) }
        ensures within { IfSome result (λ x. Follows self.entry x.1) }
    {
        let (first, rest) = self.next()?;
        match &first.word {
            TokenKind::Number(n) => Some((*n, rest)),
            _ => None,
        }
    }

    /// A number that has to come first, and what is left after it.
    pub(crate) fn expect_number(self) -> Result<(u32, Input<'a>), ParseFault>
        ensures reads { ReadsAs (λ x. (x.0, remaining x.1)) result (readers.a_number (remaining self.entry)) }
        ensures shorter { IfOk result (λ x. length (remaining x.1) < length (remaining self.entry)) }
        ensures placed { IfOk result (λ x. Spans (Some (first_place self.entry) ∷ []) self.entry x.1) }
        ensures refusal { IfErr result (λ why. why ≡ spec.unexpected self.entry Expected.Number) }
        ensures within { StaysWithin self.entry result }
    {
        let Some((first, rest)) = self.next() else {
            return Err(self.unexpected(Expected::Number));
        };
        match &first.word {
            TokenKind::Number(n) => Ok((*n, rest)),
            _ => Err(self.unexpected(Expected::Number)),
        }
    }

    /// A prefix that has to come first, and what is left after it.
    pub(crate) fn expect_prefix(self) -> Result<(Prefix, Input<'a>), ParseFault>
        ensures reads { ReadsAs (λ x. (x.0, remaining x.1)) result (readers.a_prefix (remaining self.entry)) }
        ensures shorter { IfOk result (λ x. length (remaining x.1) < length (remaining self.entry)) }
        ensures placed { IfOk result (λ x. Spans (Some (first_place self.entry) ∷ []) self.entry x.1) }
        ensures refusal { IfErr result (λ why. why ≡ spec.unexpected self.entry Expected.Prefix) }
        ensures not_memory { IfErr result (λ why. why ≢ Memory) }
        ensures within { StaysWithin self.entry result }
    {
        let Some((first, rest)) = self.next() else {
            return Err(self.unexpected(Expected::Prefix));
        };
        match &first.word {
            TokenKind::Prefix { prefix, .. } => Ok((*prefix, rest)),
            _ => Err(self.unexpected(Expected::Prefix)),
        }
    }

    /// The bytes that a token covers.
    fn covered(self, token: &Token) -> &'a [u8]
        ensures { result.now ≡ lexemes.covered self.entry.source.now.text.now token.now }
    {
        let start = token.from.min(self.source.text.len());
        let end = token.to.min(self.source.text.len()).max(start);
        &self.source.text[start..end]
    }

    /// A copy of the bytes that a token covers.
    pub fn bytes(self, alloc: Global, token: &Token) -> Result<Vec<u8>, AllocError>
        ensures { IfOk result (λ v. v.items ≡ lexemes.covered self.entry.source.now.text.now token.now) }
    {
        Vec::from_slice(alloc, self.covered(token))
    }

    /// The name that a token covers.
    pub fn name(self, alloc: Global, token: &Token) -> Result<Name, AllocError>
        ensures { IfOk result (λ name. name ≡ lexemes.covered self.entry.source.now.text.now token.now) }
    {
        Name::from_slice(alloc, self.covered(token))
    }
}
