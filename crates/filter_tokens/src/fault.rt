ghost use Rattle.std.specs.Prelude.{◌≡◌};
ghost use Rattle.filter_tokens.specs.Codes.{fault_code, fault_place};

use thiserror::Error;

/// Why a text cannot be cut into tokens any further, with the place of the first byte that no token has.
#[derive(Clone, Copy, Debug, PartialEq, Eq, Error)]
pub enum TokenFault {
    /// P1: no token begins with this byte.
    #[error("unexpected character at byte {0}")]
    BadCharacter(usize),
    /// P1: no hexadecimal digit follows a `0x`.
    #[error("`0x` without a hexadecimal digit at byte {0}")]
    NoDigit(usize),
    /// P3: a number over 4,294,967,295.
    #[error("the number at byte {0} exceeds 4294967295")]
    NumberTooLarge(usize),
    /// P4: a group of an address over 255, or a length of a prefix over 32.
    #[error("the address or prefix at byte {0} has a group over 255 or a length over 32")]
    OutOfRange(usize),
    /// P8: a name of more than 64 bytes.
    #[error("the name at byte {0} is longer than 64 bytes")]
    NameTooLong(usize),
    /// P9: a comment with no `*/`.
    #[error("the comment at byte {0} is never closed by `*/`")]
    UnendedComment(usize),
    /// P9: a text with no `"` after it on its line.
    #[error("the text at byte {0} has no closing double quote on its line")]
    UnendedText(usize),
    /// P10: a word of BIRD's filters that this language leaves out.
    #[error("the word at byte {0} belongs to a part of BIRD's language that is not supported")]
    WordLeftOut(usize),
    /// P10: a name in single quotes.
    #[error("names in single quotes, as at byte {0}, are not supported")]
    QuotedName(usize),
}

impl TokenFault {
    /// The code and the place, of which `code` and `at` are the halves.
    fn code_and_place(&self) -> (&'static str, usize)
        ensures code { result.0.now ≡ fault_code self.now }
        ensures place { result.1 ≡ fault_place self.now }
    {
        match *self {
            TokenFault::BadCharacter(at) | TokenFault::NoDigit(at) => ("P1", at),
            TokenFault::NumberTooLarge(at) => ("P3", at),
            TokenFault::OutOfRange(at) => ("P4", at),
            TokenFault::NameTooLong(at) => ("P8", at),
            TokenFault::UnendedComment(at) | TokenFault::UnendedText(at) => ("P9", at),
            TokenFault::WordLeftOut(at) | TokenFault::QuotedName(at) => ("P10", at),
        }
    }

    /// The code that a program answers for this fault, such as `P1`.
    pub fn code(&self) -> &'static str
        ensures { result.now ≡ fault_code self.now }
    {
        self.code_and_place().0
    }

    /// The place of the first byte that no token has.
    pub fn at(&self) -> usize
        ensures { result ≡ fault_place self.now }
    {
        self.code_and_place().1
    }
}
