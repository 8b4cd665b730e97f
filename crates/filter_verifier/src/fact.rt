//! What is known of a value.

ghost use Rattle.std.specs.Prelude.{◌≡◌, Some};
ghost use Rattle.filter_verifier.specs.PairwiseJoin.{join_two_at, join_two_facts};
ghost use Rattle.filter_verifier.specs.Surveys.{int_at};

use crate::range::Range;

/// What is known of a value: its kind, and the range of an int.
#[derive(Clone, Copy)]
pub enum Fact {
    Int(Range),
    Bool,
    Ip,
    Prefix,
}

impl Default for Fact {
    ghost use Rattle.std.specs.Prelude.{◌≡◌};
    ghost use Rattle.filter_verifier.specs.declared.fact.Fact.TheVariants as fact;

    ghost is_default = { λ f. f ≡ fact.Bool };

    /// A bool, which fills the unused places of a `Stack`.
    fn default() -> Fact {
        Fact::Bool
    }
}

impl Fact {
    /// The range of an int.
    pub fn range(self) -> Option<Range>
        ensures { result ≡ int_at (Some self) }
    {
        match self {
            Fact::Int(range) => Some(range),
            Fact::Bool | Fact::Ip | Fact::Prefix => None,
        }
    }

    /// The join of two facts: what holds of a value if one or the other does. None if their kinds differ.
    pub fn join(&self, other: &Fact) -> Option<Fact>
        ensures { result ≡ join_two_facts self.now other.now }
    {
        match (self, other) {
            (Fact::Int(a), Fact::Int(b)) => Some(Fact::Int(Range::join(*a, *b))),
            (Fact::Bool, Fact::Bool) => Some(Fact::Bool),
            (Fact::Ip, Fact::Ip) => Some(Fact::Ip),
            (Fact::Prefix, Fact::Prefix) => Some(Fact::Prefix),
            _ => None,
        }
    }
}

/// The join of what is known at a place on two paths. None if it is not known on one of them, or if the kinds differ.
pub(crate) fn join_two_at(a: &Option<Fact>, b: &Option<Fact>) -> Option<Fact>
    ensures { result ≡ join_two_at a.now b.now }
{
    match (a, b) {
        (Some(a), Some(b)) => a.join(b),
        _ => None,
    }
}
