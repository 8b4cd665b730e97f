ghost use Rattle.std.specs.Prelude.{◌≡◌};
ghost use Rattle.expression_parser.specs.declared.fault.ParseFault.TheVariants.{Memory};

use crate::expected::Expected;
use filter_tokens::TokenFault;
use std::alloc::{AllocError, AllocFailed};
use thiserror::Error;

/// The bytes of the longest text that is read.
pub const TEXT_LIMIT: usize = 65_536;

/// Why a text is no filter: its first fault, from the left.
///
/// A place is the number of bytes before it.
#[derive(Clone, Copy, Debug, PartialEq, Eq, Error)]
pub enum ParseFault {
    /// P1, P3, P4, P8, P9 or P10: no token of the language begins at this place.
    #[error(transparent)]
    Token(TokenFault),
    /// P2: the token at this place cannot follow what comes before it.
    #[error("expected {1} at byte {0}")]
    Unexpected(usize, Expected),
    /// P2: the token at the first place is not the `=` of an assignment to the name at the second one, with which the command begins.
    #[error("expected `=` at byte {0}")]
    MissingAssign(usize, usize),
    /// P4: the argument of `mask` at this place is over 32.
    #[error("the mask length at byte {0} exceeds 32")]
    MaskOverLimit(usize),
    /// P4: the lengths of a pattern, whose `{` is at this place, are not `low <= high <= 32`.
    #[error("the lengths at byte {0} are not low <= high <= 32")]
    PatternLengths(usize),
    /// P4: the range at this place has its greater int first.
    #[error("the range at byte {0} is not low..high with low <= high")]
    RangeOrder(usize),
    /// P5: what opens at this place would be nested in 32 others.
    #[error("nesting deeper than 32 levels at byte {0}")]
    TooDeep(usize),
    /// P6: the `&&` or `||` at this place follows the other one without parentheses.
    #[error("`&&` and `||` are mixed at byte {0}: add parentheses")]
    MixedOperators(usize),
    /// P7: the text is over 65,536 bytes.
    #[error("the filter is longer than 65536 bytes")]
    TooLong,
    /// P9: the text ends, at this place, before the filter does.
    #[error("unexpected end of the text at byte {0}")]
    EndsEarly(usize),
    /// P10: the text in quotes at this place does not follow `accept` or `reject`.
    #[error("unexpected text at byte {0}: only `accept` and `reject` take one")]
    TextElsewhere(usize),
    /// P11: memory was refused.
    #[error("out of memory")]
    Memory,
}

impl ParseFault {
    ghost use Rattle.expression_parser.specs.Codes.{fault_code, fault_place, shown_place};

    /// The code and the place, of which `code` and `at` are the halves.
    fn code_and_place(self) -> (&'static str, usize)
        ensures code { result.0.now ≡ fault_code self }
        ensures place { result.1 ≡ fault_place self }
    {
        match self {
            ParseFault::Token(fault) => (fault.code(), fault.at()),
            ParseFault::Unexpected(at, _) | ParseFault::MissingAssign(at, _) => ("P2", at),
            ParseFault::MaskOverLimit(at)
            | ParseFault::PatternLengths(at)
            | ParseFault::RangeOrder(at) => ("P4", at),
            ParseFault::TooDeep(at) => ("P5", at),
            ParseFault::MixedOperators(at) => ("P6", at),
            ParseFault::TooLong => ("P7", TEXT_LIMIT),
            ParseFault::EndsEarly(at) => ("P9", at),
            ParseFault::TextElsewhere(at) => ("P10", at),
            ParseFault::Memory => ("P11", 0),
        }
    }

    /// The fault's code, `P1` to `P11`.
    pub fn code(self) -> &'static str
        ensures { result.now ≡ fault_code self }
    {
        self.code_and_place().0
    }

    /// The fault's place, and 0 for refused memory, which has none.
    pub fn at(self) -> usize
        ensures { result ≡ fault_place self }
    {
        self.code_and_place().1
    }

    /// The place at which people are shown the fault: where the `=` of an assignment is missing, the name before it, which may be a
    /// misspelt command, and otherwise the fault's place.
    pub fn shown_at(self) -> usize
        ensures { result ≡ shown_place self }
    {
        match self {
            ParseFault::MissingAssign(_, name) => name,
            _ => self.at(),
        }
    }
}

impl From<AllocError> for ParseFault {
    ghost from_gives = { λ _ e. e ≡ Memory };

    fn from(_e: AllocError) -> ParseFault {
        ParseFault::Memory
    }
}

impl<T: Drop> From<AllocFailed<T>> for ParseFault {
    ghost from_gives = { λ _ e. e ≡ Memory };

    fn from(_e: AllocFailed<T>) -> ParseFault {
        ParseFault::Memory
    }
}
