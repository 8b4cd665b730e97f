//! The values of a run, each in 64 bits.
//!
//! The upper half says the kind: 0 an int, 1 a bool, 2 an ip, 4 and more a prefix with so many bits more than 4. The lower
//! half is the number, the truth value (0 or 1) or the address. A run tests a kind by a shift and a comparison, and copies
//! a value in one move, where it would copy the parts of a `Value` one by one.
//!
//! **A run keeps each value in 64 bits** (`Tagged`, which contracts see as a `Value`): the upper half says the kind, and of a prefix its length,
//! the lower half is the number or the address. The operands are an array, and their number is a variable of its own. So no proof above speaks of
//! words.

ghost use Rattle.std.specs.Prelude.{◌≡◌, ◌&&◌, true, false, Some, MatchOption};
ghost use Rattle.filter_code.specs.declared.value.Value.TheVariants as value;
ghost use Rattle.filter_code.specs.Table.{are_alike, are_ordered, is_bool, is_int, is_ip, is_prefix};
ghost use Rattle.filter_code.specs.Values.{is_same, kind_of, number_of};

use crate::value::Value;
use prefix_patterns::{Ip, Prefix};
use std::marker::Model;

/// The numbers of a half.
const HALF: u64 = 4_294_967_296;

/// The upper halves of the kinds, of a prefix without bits, and of a local variable that is empty.
const INT: u64 = 0;

const BOOL: u64 = 1;

const IP: u64 = 2;

const EMPTY: u64 = 3;

const PREFIX: u64 = 4;

/// A value in 64 bits.
///
/// A contract sees a tagged value as the `Value` that it is.
#[derive(Clone, Copy)]
pub(crate) struct Tagged(u64);

impl Model for Tagged {
    ghost use Rattle.filter_code.specs.declared.value.Value.{Value as Operand};
    ghost use Rattle.filter_code.specs.Tagged.{IsTagged, tagged, value_tagged};

    ghost Value = { Operand };

    ghost view = { λ t. value_tagged t.0 };

    ghost invariant = { λ t. IsTagged t.0 };

    ghost inverse = { λ v. record { 0 = tagged v } };

    ghost use Rattle.std.proofs.Common.{ap};

    ghost inverse_ok = { λ t h. ap (λ w. record { 0 = w }) h.back };
}

impl Tagged {
    /// An int.
    #[inline(always)]
    pub(crate) fn int(number: u32) -> Tagged
        ensures { result ≡ value.Int number }
    {
        Tagged(u64::from(number))
    }

    /// A bool.
    #[inline(always)]
    pub(crate) fn bool(truth: bool) -> Tagged
        ensures { result ≡ value.Bool truth }
    {
        Tagged(BOOL * HALF + u64::from(truth))
    }

    /// An ip.
    #[inline(always)]
    pub(crate) fn ip(ip: Ip) -> Tagged
        ensures { result ≡ value.Addr ip }
    {
        Tagged(IP * HALF + u64::from(ip.0))
    }

    /// A prefix.
    #[inline(always)]
    pub(crate) fn prefix(prefix: Prefix) -> Tagged
        ensures { result ≡ value.Net prefix }
    {
        Tagged((PREFIX + u64::from(prefix.len())) * HALF + u64::from(prefix.address().0))
    }

    /// The number of an int, or `None` for a value of another kind.
    #[inline(always)]
    pub(crate) fn as_int(self) -> Option<u32>
        ensures { MatchOption result (is_int (kind_of self) ≡ false) (λ number. self ≡ value.Int number) }
    {
        if self.0 / HALF == INT {
            Some((self.0 % HALF) as u32)
        } else {
            None
        }
    }

    /// The numbers of two ints. None if and only if they are not two ints.
    #[inline(always)]
    pub(crate) fn as_ints(self, other: Tagged) -> Option<(u32, u32)>
        ensures { MatchOption result ((is_int (kind_of self) && is_int (kind_of other)) ≡ false)
            (λ p. (self ≡ value.Int p.0) × (other ≡ value.Int p.1)) }
    {
        if self.0 / HALF == INT && other.0 / HALF == INT {
            Some(((self.0 % HALF) as u32, (other.0 % HALF) as u32))
        } else {
            None
        }
    }

    /// The truth value of a bool, or `None` for a value of another kind.
    #[inline(always)]
    pub(crate) fn as_bool(self) -> Option<bool>
        ensures { MatchOption result (is_bool (kind_of self) ≡ false) (λ truth. self ≡ value.Bool truth) }
    {
        if self.0 / HALF == BOOL {
            Some(self.0 % HALF == 1)
        } else {
            None
        }
    }

    /// The address of an ip, or `None` for a value of another kind.
    #[inline(always)]
    pub(crate) fn as_ip(self) -> Option<Ip>
        ensures { MatchOption result (is_ip (kind_of self) ≡ false) (λ ip. self ≡ value.Addr ip) }
    {
        if self.0 / HALF == IP {
            Some(Ip((self.0 % HALF) as u32))
        } else {
            None
        }
    }

    /// A prefix itself, or `None` for a value of another kind.
    #[inline(always)]
    pub(crate) fn as_prefix(self) -> Option<Prefix>
        ensures { MatchOption result (is_prefix (kind_of self) ≡ false) (λ prefix. self ≡ value.Net prefix) }
    {
        if self.0 / HALF >= PREFIX {
            Some(Prefix::new(Ip((self.0 % HALF) as u32), (self.0 / HALF - PREFIX) as u8).unwrap())
        } else {
            None
        }
    }

    /// The value that it is.
    pub(crate) fn value(self) -> Value
        ensures { result ≡ self }
    {
        if let Some(number) = self.as_int() {
            return Value::Int(number);
        }
        if let Some(truth) = self.as_bool() {
            return Value::Bool(truth);
        }
        if let Some(ip) = self.as_ip() {
            return Value::Addr(ip);
        }
        Value::Net(self.as_prefix().unwrap())
    }

    /// Whether it is equal to another of its kind. None if and only if they have two kinds.
    #[inline(always)]
    pub(crate) fn equals(self, other: Tagged) -> Option<bool>
        ensures { MatchOption result (are_alike (kind_of self) (kind_of other) ≡ false)
            (λ same. (are_alike (kind_of self) (kind_of other) ≡ true) × (same ≡ is_same self other)) }
    {
        if self.0 / HALF == other.0 / HALF {
            Some(self.0 == other.0)
        } else if self.0 / HALF >= PREFIX && other.0 / HALF >= PREFIX {
            Some(false)
        } else {
            None
        }
    }

    /// The numbers by which two ints or two ips are ordered. None if and only if they are neither.
    #[inline(always)]
    pub(crate) fn numbers(self, other: Tagged) -> Option<(u32, u32)>
        ensures { MatchOption result (are_ordered (kind_of self) (kind_of other) ≡ false)
            (λ p. (are_ordered (kind_of self) (kind_of other) ≡ true) × (number_of self ≡ Some p.0) × (number_of other ≡ Some p.1)) }
    {
        let kind = self.0 / HALF;
        if kind == other.0 / HALF && (kind == INT || kind == IP) {
            Some(((self.0 % HALF) as u32, (other.0 % HALF) as u32))
        } else {
            None
        }
    }
}

/// A local variable in 64 bits.
///
/// A contract sees it as the `Value` that it holds, if it holds one.
#[derive(Clone, Copy)]
pub(crate) struct Slot(u64);

impl Model for Slot {
    ghost use Rattle.std.specs.Prelude.{Option};
    ghost use Rattle.filter_code.specs.declared.value.Value.{Value as Local};
    ghost use Rattle.filter_code.specs.Tagged.{IsSlot, local_in, slot};

    ghost Value = { Option Local };

    ghost view = { λ s. local_in s.0 };

    ghost invariant = { λ s. IsSlot s.0 };

    ghost inverse = { λ v. record { 0 = slot v } };

    ghost use Rattle.std.proofs.Common.{ap};

    ghost inverse_ok = { λ s h. ap (λ w. record { 0 = w }) h.back };
}

impl Slot {
    ghost use Rattle.std.specs.Prelude.{None};

    /// An empty variable.
    #[inline(always)]
    pub(crate) fn empty() -> Slot
        ensures { result ≡ None }
    {
        Slot(EMPTY * HALF)
    }

    /// A variable that holds a value.
    #[inline(always)]
    pub(crate) fn holding(value: Tagged) -> Slot
        ensures { result ≡ Some value }
    {
        Slot(value.0)
    }

    /// What it holds.
    #[inline(always)]
    pub(crate) fn held(self) -> Option<Tagged>
        ensures { result ≡ self }
    {
        if self.0 == EMPTY * HALF {
            None
        } else {
            Some(Tagged(self.0))
        }
    }
}
