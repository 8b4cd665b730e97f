//! Why a filter's names and kinds do not fit.
//!
//! **Which faults a filter has is a relation, by rules** (`specs/Faults.antt`): a part of the tree has a fault of its own, or one of a part in it.
//! So the clause of a refusal does not repeat the order in which `check` walks the tree, and says of each code what is wrong where. That the first
//! fault in the order of the text is answered would be that walk once more; rows test it.

ghost use Rattle.std.specs.Prelude.{◌≡◌};
ghost use Rattle.filter_types.specs.Codes.{expected_of};
ghost use Rattle.filter_types.specs.declared.fault.TypeFault.TheVariants.{Memory};

use filter_syntax::Kind;
use std::alloc::{AllocError, AllocFailed};
use std::fmt::{self, Display, Formatter, Write};
use thiserror::Error;

/// What a place in a filter takes.
#[derive(Clone, Copy, Debug)]
pub enum ExpectedKind {
    /// An int.
    Int,
    /// A bool.
    Bool,
    /// An ip.
    Ip,
    /// A prefix.
    Prefix,
    /// An int or an ip.
    IntOrIp,
    /// An ip or a prefix.
    IpOrPrefix,
}

impl Display for ExpectedKind {
    fn fmt<W: Write>(&self, f: &mut Formatter<W>) -> fmt::Result {
        f.write_str(match self {
            ExpectedKind::Int => "an int",
            ExpectedKind::Bool => "a bool",
            ExpectedKind::Ip => "an ip",
            ExpectedKind::Prefix => "a prefix",
            ExpectedKind::IntOrIp => "an int or an ip",
            ExpectedKind::IpOrPrefix => "an ip or a prefix",
        })
    }
}

impl From<Kind> for ExpectedKind {
    ghost from_gives = { λ kind expected. expected ≡ expected_of kind };

    fn from(kind: Kind) -> ExpectedKind {
        match kind {
            Kind::Int => ExpectedKind::Int,
            Kind::Bool => ExpectedKind::Bool,
            Kind::Ip => ExpectedKind::Ip,
            Kind::Prefix => ExpectedKind::Prefix,
        }
    }
}

/// The first fault of a filter's names and kinds, in the order of its text, operands before their operator.
///
/// A place is the number of bytes before it.
#[derive(Clone, Copy, Debug, Error)]
pub enum TypeFault {
    /// Y1: the name at this place is no variable's.
    #[error("undeclared variable at byte {0}")]
    UnknownName(usize),
    /// Y2: the variable at this place has the name of an earlier one.
    #[error("the variable at byte {0} is already declared")]
    DeclaredTwice(usize),
    /// Y3: the operand at this place has another kind than its place takes.
    #[error("expected {1} at byte {0}, found {found}", found = ExpectedKind::from(*.2))]
    WrongKind(usize, ExpectedKind, Kind),
    /// Y4: `net` is assigned at this place.
    #[error("`net` cannot be assigned, as at byte {0}")]
    NetAssigned(usize),
    /// Y5: the variable at this place is one more than a filter may have.
    #[error("more than 16 variables: one too many at byte {0}")]
    TooManyVariables(usize),
    /// Y6: memory was refused.
    #[error("out of memory")]
    Memory,
    /// Y7: the label at this place shares a number with an earlier label of its `case`.
    #[error("the label at byte {0} shares a number with an earlier label of its `case`")]
    SharedLabel(usize),
}

impl TypeFault {
    ghost use Rattle.filter_types.specs.Codes.{fault_code, fault_place};

    /// The code and the place, of which `code` and `at` are the halves.
    fn code_and_place(self) -> (&'static str, usize)
        ensures code { result.0.now ≡ fault_code self }
        ensures place { result.1 ≡ fault_place self }
    {
        match self {
            TypeFault::UnknownName(at) => ("Y1", at),
            TypeFault::DeclaredTwice(at) => ("Y2", at),
            TypeFault::WrongKind(at, _, _) => ("Y3", at),
            TypeFault::NetAssigned(at) => ("Y4", at),
            TypeFault::TooManyVariables(at) => ("Y5", at),
            TypeFault::Memory => ("Y6", 0),
            TypeFault::SharedLabel(at) => ("Y7", at),
        }
    }

    /// The fault's code, `Y1` to `Y7`.
    pub fn code(self) -> &'static str
        ensures { result.now ≡ fault_code self }
    {
        self.code_and_place().0
    }

    /// The fault's place, and 0 for refused memory, which has none.
    pub fn at(self) -> usize
        ensures { result ≡ fault_place self }
    {
        self.code_and_place().1
    }
}

impl From<AllocError> for TypeFault {
    ghost from_gives = { λ _ e. e ≡ Memory };

    fn from(_e: AllocError) -> TypeFault {
        TypeFault::Memory
    }
}

impl<T: Drop> From<AllocFailed<T>> for TypeFault {
    ghost from_gives = { λ _ e. e ≡ Memory };

    fn from(_e: AllocFailed<T>) -> TypeFault {
        TypeFault::Memory
    }
}
