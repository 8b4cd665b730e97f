use prefix_patterns::{Ip, Prefix};

/// A value of a run on each route of a class: one that is the same for all, or one by its rule.
#[derive(Clone, Copy)]
pub(crate) enum SymbolicValue {
    /// An int.
    Int(u32),
    /// A bool.
    Bool(bool),
    /// An ip.
    Ip(Ip),
    /// A prefix.
    Net(Prefix),
    /// The first address of the route's prefix, of which so many bits are kept, the others cleared.
    OwnIp(u8),
    /// The route's prefix.
    OwnNet,
}

impl Default for SymbolicValue {
    ghost use Rattle.std.specs.Prelude.{◌≡◌, false};
    ghost use Rattle.filter_diff.specs.declared.symbol.SymbolicValue.TheVariants as symbol;

    ghost is_default = { λ s. s ≡ symbol.Bool false };

    /// A bool, which fills the unused places of a `Stack`.
    fn default() -> SymbolicValue {
        SymbolicValue::Bool(false)
    }
}
