//! What is told of a text that is no filter.
ghost use Rattle.std.specs.Prelude.{◌≡◌};
ghost use Rattle.expression_parser.specs.Codes.{fault_place};
ghost use Rattle.expression_parser.specs.declared.fault.ParseFault.TheVariants.{Memory};
ghost use Rattle.filter_syntax.specs.Surroundings.{around_of, nothing};

use expression_parser::ParseFault;
use filter_syntax::Around;
use filter_tokens::Token;
use std::alloc::AllocError;
use std::fmt;

/// Why a text is no filter, and what stands round the place.
#[derive(Clone, Copy)]
pub struct Unparsed {
    /// The first fault of the text.
    pub fault: ParseFault,
    /// What stands round the place of the fault.
    pub around: Around,
}

impl Unparsed {
    /// A fault of a text that these tokens cut.
    pub(crate) fn at(tokens: &[Token], fault: ParseFault) -> Unparsed
        ensures { result ≡ record { fault = fault; around = around_of tokens.now (fault_place fault) } }
    {
        Unparsed {
            fault,
            around: Around::of(tokens, fault.at()),
        }
    }

    /// A fault of a text that was not cut into tokens.
    pub(crate) fn uncut(fault: ParseFault) -> Unparsed
        ensures { result ≡ record { fault = fault; around = nothing } }
    {
        Unparsed {
            fault,
            around: Around::nothing(),
        }
    }
}

/// The words of the fault.
impl fmt::Debug for Unparsed {
    fn fmt<W: fmt::Write>(&self, f: &mut fmt::Formatter<W>) -> fmt::Result {
        write!(f, "{}", self.fault)
    }
}

impl From<AllocError> for Unparsed {
    ghost from_gives = { λ _ e. e ≡ record { fault = Memory; around = nothing } };

    fn from(_error: AllocError) -> Unparsed {
        Unparsed::uncut(ParseFault::Memory)
    }
}
