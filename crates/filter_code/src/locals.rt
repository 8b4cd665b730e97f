ghost use Rattle.std.specs.Prelude.{◌≡◌, ◌<◌, ◌≤◌, None, Some, length, replicate, slice_get, slice_set, MatchOption, MatchResult};
ghost use Rattle.filter_code.specs.declared.outcome.FaultKind.TheVariants as fault;
ghost use Rattle.filter_code.specs.Limits.{local_limit};

use crate::limits::LOCAL_LIMIT;
use crate::outcome::FaultKind;
use crate::tagged::{Slot, Tagged};
use std::marker::Model;

/// The local variables of a run, each empty until it is set. They are held in place: nothing is allocated.
///
/// A contract sees them as a list, in the order of their numbers.
#[derive(Drop)]
pub(crate) struct Locals {
    values: [Slot; LOCAL_LIMIT],
    count: usize,
}

impl Model for Locals {
    ghost use Rattle.std.specs.Prelude.{◌≡◌, ◌≤◌, List, Option, length, take};
    ghost use Rattle.filter_code.specs.Limits.{local_limit};
    ghost use Rattle.filter_code.specs.declared.value.Value.{Value as Local};

    ghost Value = { List (Option Local) };

    ghost view = { λ l. take l.count l.values };

    ghost invariant = { λ l. (l.count ≤ local_limit) × (length l.values ≡ local_limit) };
}

impl Locals {
    /// So many local variables, all empty.
    pub(crate) fn new(count: u8) -> Locals
        requires { count ≤ local_limit }
        ensures { result ≡ replicate count None }
    {
        Locals {
            values: [Slot::empty(); LOCAL_LIMIT],
            count: usize::from(count),
        }
    }

    /// Checks that there is a local variable with this number. A fault if and only if there is none.
    #[inline(always)]
    pub(crate) fn check(&self, local: u8) -> Result<(), FaultKind>
        ensures { MatchResult result (λ _. local < length self.now) (λ why. (why ≡ fault.UnknownName) × (length self.now ≤ local)) }
    {
        if usize::from(local) < self.count {
            Ok(())
        } else {
            Err(FaultKind::UnknownName)
        }
    }

    /// The value of a local variable. A fault if and only if there is none with this number, or it is empty.
    #[inline(always)]
    pub(crate) fn get(&self, local: u8) -> Result<Tagged, FaultKind>
        ensures { MatchResult result
            (λ v. slice_get self.now local ≡ Some (Some v))
            (λ why. MatchOption (slice_get self.now local) (why ≡ fault.UnknownName) (λ held. (held ≡ None) × (why ≡ fault.WrongKind))) }
    {
        self.check(local)?;
        match self.values[usize::from(local)].held() {
            Some(value) => Ok(value),
            None => Err(FaultKind::WrongKind),
        }
    }

    /// Sets a local variable.
    #[inline(always)]
    pub(crate) fn set(&mut self, local: u8, value: Tagged)
        requires { local < length self.old }
        ensures { self.new ≡ slice_set self.old local (Some value) }
    {
        self.values[usize::from(local)] = Slot::holding(value);
    }
}
