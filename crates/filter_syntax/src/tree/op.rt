use crate::tree::mask_length::MaskLength;

/// An operator between two operands.
#[derive(Clone, Copy, PartialEq, Eq)]
pub enum Op {
    /// `+`
    Add,
    /// `-`
    Sub,
    /// `*`
    Mul,
    /// `/`
    Div,
    /// `=`
    Equal,
    /// `!=`
    NotEqual,
    /// `<`
    Less,
    /// `>`
    Greater,
    /// `<=`
    LessEqual,
    /// `>=`
    GreaterEqual,
    /// `~` between two operands, as `net ~ 10.0.0.0/8`
    Match,
    /// `!~` between two operands
    NotMatch,
    /// `&&`
    And,
    /// `||`
    Or,
}

/// An operator between an operand and a set.
#[derive(Clone, Copy, PartialEq, Eq)]
pub enum Membership {
    /// `~`
    In,
    /// `!~`
    NotIn,
}

/// What may follow an operand, after a dot.
#[derive(Clone, Copy)]
pub enum Suffix {
    /// `.ip`
    Ip,
    /// `.len`
    Len,
    /// `.mask(n)`
    Mask(MaskLength),
}
