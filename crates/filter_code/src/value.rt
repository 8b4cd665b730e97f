ghost use Rattle.std.specs.Prelude.{◌≡◌};
ghost use Rattle.filter_code.specs.Values.{kind_of};

use prefix_patterns::{Ip, Prefix};

/// The kind of a value.
#[derive(Clone, Copy, PartialEq, Eq)]
pub enum Kind {
    Int,
    Bool,
    Ip,
    Prefix,
}

/// A value of the machine.
#[derive(Clone, Copy)]
pub enum Value {
    /// An int: a number below 2^32.
    Int(u32),
    /// A bool.
    Bool(bool),
    /// An ip: an address.
    Addr(Ip),
    /// A prefix, whichever it is: the route's own is what `Instr::Net` gives.
    Net(Prefix),
}

impl Value {
    /// The kind of the value.
    pub fn kind(self) -> Kind
        ensures { result ≡ kind_of self }
    {
        match self {
            Value::Int(_) => Kind::Int,
            Value::Bool(_) => Kind::Bool,
            Value::Addr(_) => Kind::Ip,
            Value::Net(_) => Kind::Prefix,
        }
    }
}
