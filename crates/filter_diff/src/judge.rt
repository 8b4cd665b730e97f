//! Tests of addresses and prefixes, on all routes of a class.

ghost use Rattle.std.specs.Prelude.{◌≡◌, ◌≤◌, IfSome, length};
ghost use Rattle.prefix_patterns.specs.Bits.{address_length, address_of};
ghost use Rattle.prefix_patterns.specs.Matching.{matches};
ghost use Rattle.filter_code.specs.RouteView.{RouteView};
ghost use Rattle.filter_diff.specs.declared.symbol.SymbolicValue.TheVariants as symbol;
ghost use Rattle.filter_diff.specs.Classes.{Always};
ghost use Rattle.filter_diff.specs.Judging.{IsBetween, IsEqual, IsLess, IsWithin, last_address};

use crate::class::Class;
use crate::symbol::SymbolicValue;
use prefix_patterns::{ADDRESS_LENGTH, Ip, Pattern, Prefix};

/// The first and the last address of a prefix.
fn ends_of(prefix: Prefix) -> (u64, u64)
    ensures first { result.0 ≡ address_of prefix }
    ensures last { result.1 ≡ last_address prefix }
    ensures fits { length prefix ≤ address_length }
{
    let first = u64::from(prefix.address().0);
    let bits = prefix.len();
    (first, first + ((1 << (ADDRESS_LENGTH - bits)) - 1))
}

/// Numbers between which the addresses lie that a symbol stands for. None if it may be no address.
pub(crate) fn bounds(symbol: SymbolicValue, class: &Class) -> Option<(u64, u64)>
    ensures { IfSome result (λ ends. Always class.now (λ route. IsBetween ends.0 ends.1 route symbol)) }
{
    match symbol {
        SymbolicValue::Ip(ip) => Some((u64::from(ip.0), u64::from(ip.0))),
        SymbolicValue::OwnIp(kept) => {
            let bits = class.known.len();
            if kept < bits || class.len < kept || ADDRESS_LENGTH < class.len {
                return None;
            }
            Some(ends_of(class.known))
        }
        _ => None,
    }
}

/// Whether the prefixes match the pattern of a prefix and the lengths from `low` to `high`, if there is one, and all do or none does.
fn pattern_of(prefix: Prefix, low: u8, high: u8, class: &Class) -> Option<bool>
    ensures { IfSome result (λ r. Always class.now (λ route. matches route.net (record { bits = prefix; low = low; high = high }) ≡ r)) }
{
    match Pattern::new(prefix, low, high) {
        Some(pattern) => class.matches(&pattern),
        None => None,
    }
}

/// Whether two ips are equal, if all are or none is.
fn equal_ips(a: SymbolicValue, b: SymbolicValue, class: &Class) -> Option<bool>
    ensures { IfSome result (λ r. Always class.now (λ route. IsEqual route a b r)) }
{
    let (least, most) = bounds(a, class)?;
    let (from, to) = bounds(b, class)?;
    if most < from || to < least {
        return Some(false);
    }
    if least == most && from == to {
        return Some(true);
    }
    None
}

/// Whether an address of the route is equal to another value, if all are or none is.
fn equal_own(a: SymbolicValue, b: SymbolicValue, class: &Class, kept: u8) -> Option<bool>
    requires { a ≡ symbol.OwnIp kept }
    ensures { IfSome result (λ r. Always class.now (λ route. IsEqual route a b r)) }
{
    match b {
        SymbolicValue::OwnIp(other) => {
            if other == kept {
                Some(true)
            } else {
                equal_ips(a, b, class)
            }
        }
        _ => equal_ips(a, b, class),
    }
}

/// Whether a prefix is equal to another value, if all are or none is.
fn equal_prefix(a: Prefix, b: SymbolicValue, class: &Class) -> Option<bool>
    ensures { IfSome result (λ r. Always class.now (λ route. IsEqual route (symbol.Net a) b r)) }
{
    match b {
        SymbolicValue::Net(b) => Some(a == b),
        SymbolicValue::OwnNet => pattern_of(a, a.len(), a.len(), class),
        _ => None,
    }
}

/// Whether the route's prefix is equal to another value, if all are or none is.
fn equal_net(b: SymbolicValue, class: &Class) -> Option<bool>
    ensures { IfSome result (λ r. Always class.now (λ route. IsEqual route symbol.OwnNet b r)) }
{
    match b {
        SymbolicValue::Net(b) => pattern_of(b, b.len(), b.len(), class),
        SymbolicValue::OwnNet => Some(true),
        _ => None,
    }
}

/// Whether two ints are equal, if they are ints.
fn equal_ints(a: u32, b: SymbolicValue) -> Option<bool>
    ensures { IfSome result (λ r. (route : RouteView) → IsEqual route (symbol.Int a) b r) }
{
    match b {
        SymbolicValue::Int(b) => Some(a == b),
        _ => None,
    }
}

/// Whether two bools are equal, if they are bools.
fn equal_bools(a: bool, b: SymbolicValue) -> Option<bool>
    ensures { IfSome result (λ r. (route : RouteView) → IsEqual route (symbol.Bool a) b r) }
{
    match b {
        SymbolicValue::Bool(b) => Some(a == b),
        _ => None,
    }
}

/// Whether two values of one kind are equal, if all are or none is.
pub(crate) fn equal(a: SymbolicValue, b: SymbolicValue, class: &Class) -> Option<bool>
    ensures { IfSome result (λ r. Always class.now (λ route. IsEqual route a b r)) }
{
    match a {
        SymbolicValue::Int(a) => equal_ints(a, b),
        SymbolicValue::Bool(a) => equal_bools(a, b),
        SymbolicValue::Ip(_) => equal_ips(a, b, class),
        SymbolicValue::Net(a) => equal_prefix(a, b, class),
        SymbolicValue::OwnIp(kept) => equal_own(a, b, class, kept),
        SymbolicValue::OwnNet => equal_net(b, class),
    }
}

/// Whether the first of two ips is less, if all are or none is.
fn less_ips(a: SymbolicValue, b: SymbolicValue, class: &Class) -> Option<bool>
    ensures { IfSome result (λ r. Always class.now (λ route. IsLess route a b r)) }
{
    let (least, most) = bounds(a, class)?;
    let (from, to) = bounds(b, class)?;
    if most < from {
        return Some(true);
    }
    if to <= least {
        return Some(false);
    }
    None
}

/// Whether the first of two ints or ips is less, if all are or none is.
pub(crate) fn less(a: SymbolicValue, b: SymbolicValue, class: &Class) -> Option<bool>
    ensures { IfSome result (λ r. Always class.now (λ route. IsLess route a b r)) }
{
    match a {
        SymbolicValue::Int(a) => match b {
            SymbolicValue::Int(b) => Some(a < b),
            _ => None,
        },
        _ => less_ips(a, b, class),
    }
}

/// Whether an address of the route lies within a prefix, if it does for all or for none: where all addresses that it may be lie between
/// the first and the last one of the prefix, or all lie before or behind these.
fn own_ip_within_prefix(a: SymbolicValue, outer: Prefix, class: &Class, kept: u8) -> Option<bool>
    requires { a ≡ symbol.OwnIp kept }
    ensures { IfSome result (λ r. Always class.now (λ route. IsWithin route a (symbol.Net outer) r)) }
{
    let Some((least, most)) = bounds(a, class) else {
        return None;
    };
    let (first, last) = ends_of(outer);
    if most < first {
        return Some(false);
    }
    if last < least {
        return Some(false);
    }
    if first <= least && most <= last {
        return Some(true);
    }
    None
}

/// Whether the first lies within a prefix, if all do or none does.
fn within_prefix(a: SymbolicValue, outer: Prefix, class: &Class) -> Option<bool>
    ensures { IfSome result (λ r. Always class.now (λ route. IsWithin route a (symbol.Net outer) r)) }
{
    match a {
        SymbolicValue::Ip(ip) => Some(outer.contains(ip)),
        SymbolicValue::Net(inner) => Some(inner.within(&outer)),
        SymbolicValue::OwnNet => pattern_of(outer, outer.len(), ADDRESS_LENGTH, class),
        SymbolicValue::OwnIp(kept) => own_ip_within_prefix(a, outer, class, kept),
        _ => None,
    }
}

/// Whether an address lies within the route's prefix, if it does for all or for none.
fn ip_within_net(ip: Ip, class: &Class) -> Option<bool>
    ensures { IfSome result (λ r. Always class.now (λ route. IsWithin route (symbol.Ip ip) symbol.OwnNet r)) }
{
    match Prefix::new(ip, ADDRESS_LENGTH) {
        Some(whole) => pattern_of(whole, 0, ADDRESS_LENGTH, class),
        None => None,
    }
}

/// Whether the first lies within the route's prefix, if all do or none does.
fn within_net(a: SymbolicValue, class: &Class) -> Option<bool>
    ensures { IfSome result (λ r. Always class.now (λ route. IsWithin route a symbol.OwnNet r)) }
{
    match a {
        SymbolicValue::Ip(ip) => ip_within_net(ip, class),
        SymbolicValue::Net(inner) => pattern_of(inner, 0, inner.len(), class),
        SymbolicValue::OwnIp(kept) if kept == class.len => Some(true),
        SymbolicValue::OwnNet => Some(true),
        _ => None,
    }
}

/// Whether the first lies within the second, if all do or none does.
pub(crate) fn within(a: SymbolicValue, b: SymbolicValue, class: &Class) -> Option<bool>
    ensures { IfSome result (λ r. Always class.now (λ route. IsWithin route a b r)) }
{
    match b {
        SymbolicValue::Net(outer) => within_prefix(a, outer, class),
        SymbolicValue::OwnNet => within_net(a, class),
        _ => None,
    }
}
