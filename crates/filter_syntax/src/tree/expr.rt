ghost use Rattle.std.specs.Prelude.{◌≡◌};
ghost use Rattle.filter_syntax.specs.Places.{expr_place};

use crate::tree::name::Name;
use crate::tree::op::{Membership, Op, Suffix};
use crate::tree::set::Set;
use prefix_patterns::{Ip, Prefix};

/// What every route has, and a filter can name.
#[derive(Clone, Copy, PartialEq, Eq)]
pub enum Attribute {
    /// `net`, the route's prefix
    Net,
    /// `rip_metric`, the route's metric
    RipMetric,
}

/// An expression. A number in front is the expression's place; a chain and an operand with suffixes begin where their first
/// part does.
///
/// Chains of operators and of suffixes are lists, so that the depth of a tree is bounded by the limit of nesting, and not by
/// the length of the text.
#[derive(Drop)]
pub enum Expr {
    /// A number, as `12` or `0x1f`.
    Number(usize, u32),
    /// An address, as `10.20.30.40`.
    Address(usize, Ip),
    /// A prefix, as `10.0.0.0/8`, the bits past its length cleared.
    Prefix(usize, Prefix),
    /// `true` or `false`.
    Truth(usize, bool),
    /// A variable.
    Name(usize, Name),
    /// `net` or `rip_metric`.
    Attribute(usize, Attribute),
    /// `defined(net)` or `defined(rip_metric)`.
    Defined(usize, Attribute),
    /// An attribute with one suffix, as `net.len`.
    AttributePart(usize, Attribute, Suffix),
    /// Two operands and the one operator between them, in parentheses. The place in front is that of the `(`.
    GroupedBinary(usize, Box<(Expr, usize, Op, Expr)>),
    /// Any other expression in parentheses. The place is that of its `(`.
    Group(usize, Box<Expr>),
    /// `!` and its operand. The place is that of its `!`.
    Not(usize, Box<Expr>),
    /// Two operands and the one operator between them, with its place: a sum or product, a comparison, `&&` or `||`.
    Binary(Box<(Expr, usize, Op, Expr)>),
    /// A first operand, and more than one operator, each with its place and the operand at its right: a sum or product, or a
    /// chain of all `&&` or all `||`. It groups to the left: `a - b - c` is `(a - b) - c`.
    Chain(Box<Expr>, Vec<(usize, Op, Expr)>),
    /// Whether an operand matches a set.
    Member(Membership, Box<Expr>, Set),
    /// Any other operand with one or more suffixes, as `net.ip.mask(8)`.
    Suffixed(Box<Expr>, Vec<Suffix>),
}

impl Expr {
    /// The place of the expression's first byte.
    pub fn at(&self) -> usize
        ensures { result ≡ expr_place self.now }
    {
        let mut first = self;
        loop {
            match first {
                Expr::Number(at, _) => return *at,
                Expr::Address(at, _) => return *at,
                Expr::Prefix(at, _) => return *at,
                Expr::Truth(at, _) => return *at,
                Expr::Name(at, _) => return *at,
                Expr::Attribute(at, _) => return *at,
                Expr::Defined(at, _) => return *at,
                Expr::AttributePart(at, _, _) => return *at,
                Expr::Group(at, _) => return *at,
                Expr::GroupedBinary(at, _) => return *at,
                Expr::Not(at, _) => return *at,
                Expr::Binary(parts) => first = &parts.0,
                Expr::Chain(left, _) => first = left,
                Expr::Member(_, left, _) => first = left,
                Expr::Suffixed(inner, _) => first = inner,
            }
        }
    }
}
