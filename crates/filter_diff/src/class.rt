ghost use Rattle.std.specs.Prelude.{◌≡◌, IfSome};
ghost use Rattle.prefix_patterns.specs.Matching.{matches, matches_any};
ghost use Rattle.filter_diff.specs.Classes.{Always};
ghost use Rattle.filter_code.specs.declared.value.Value.TheVariants as value;
ghost use Rattle.filter_diff.specs.Symbols.{kept_address, value_at};

use crate::symbol::SymbolicValue;
use prefix_patterns::{Pattern, PatternSet, Prefix};

/// A class of routes, and what is known of them: the first bits of the prefix, its length, the metric received or nothing of
/// it, and the size.
#[derive(Clone, Copy)]
pub(crate) struct Class {
    pub(crate) known: Prefix,
    pub(crate) len: u8,
    pub(crate) metric: Option<u32>,
    pub(crate) size: u32,
}

impl Class {
    /// Whether the prefixes match a pattern, if they all do or none does.
    pub(crate) fn matches(&self, pattern: &Pattern) -> Option<bool>
        ensures { IfSome result (λ r. Always self.now (λ route. matches route.net pattern.now ≡ r)) }
    {
        if self.len < pattern.low() || pattern.high() < self.len {
            return Some(false);
        }
        let prefix = pattern.prefix();
        if !self.known.has_same_bits(&prefix) {
            return Some(false);
        }
        if prefix.len() <= self.known.len() {
            return Some(true);
        }
        None
    }

    /// Whether the prefixes match one of the patterns of a set, if they all do or none does.
    pub(crate) fn matches_any(&self, set: &PatternSet) -> Option<bool>
        ensures { IfSome result (λ r. Always self.now (λ route. matches_any route.net set.now ≡ r)) }
    {
        let mut none = true;
        for pattern in set.patterns() {
            match self.matches(pattern) {
                Some(true) => return Some(true),
                Some(false) => {}
                None => none = false,
            }
        }
        if none { Some(false) } else { None }
    }

    /// The address of the route's prefix with so many of its bits, and the others cleared: one address if these bits are known.
    pub(crate) fn kept(&self, bits: u8) -> SymbolicValue
        ensures { Always self.now (λ route. value_at route result ≡ kept_address bits route) }
    {
        if bits <= self.known.len() {
            let first = Prefix::new(self.known.address(), bits).unwrap();
            SymbolicValue::Ip(first.address())
        } else {
            SymbolicValue::OwnIp(bits)
        }
    }

    /// The route's prefix: one prefix if all of its bits are known.
    pub(crate) fn own_net(&self) -> SymbolicValue
        ensures { Always self.now (λ route. value_at route result ≡ value.Net route.net) }
    {
        if self.known.len() == self.len {
            SymbolicValue::Net(self.known)
        } else {
            SymbolicValue::OwnNet
        }
    }
}
