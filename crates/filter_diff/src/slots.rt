ghost use Rattle.std.specs.Prelude.{◌≡◌, ◌<◌, ◌≤◌, None, Some, length, replicate, slice_get, slice_set, IfSome};
ghost use Rattle.filter_code.specs.Limits.{local_limit};

use crate::symbol::SymbolicValue;
use filter_code::LOCAL_LIMIT;
use std::marker::Model;

/// The local variables of a run on a class of routes, each empty until it is set.
///
/// A contract sees them as a list, in the order of their numbers.
#[derive(Drop)]
pub(crate) struct Slots {
    values: [Option<SymbolicValue>; LOCAL_LIMIT],
    count: usize,
}

impl Model for Slots {
    ghost use Rattle.std.specs.Prelude.{◌≡◌, ◌≤◌, List, Option, length, take};
    ghost use Rattle.filter_code.specs.Limits.{local_limit};
    ghost use Rattle.filter_diff.specs.declared.symbol.SymbolicValue.{SymbolicValue as Local};

    ghost Value = { List (Option Local) };

    ghost view = { λ l. take l.count l.values };

    ghost invariant = { λ l. (l.count ≤ local_limit) × (length l.values ≡ local_limit) };
}

impl Slots {
    /// So many local variables, all empty.
    pub(crate) fn new(count: u8) -> Slots
        requires { count ≤ local_limit }
        ensures { result ≡ replicate count None }
    {
        Slots {
            values: [None; LOCAL_LIMIT],
            count: usize::from(count),
        }
    }

    /// The value of a local variable, if there is one with this number, and it is not empty.
    pub(crate) fn get(&self, local: u8) -> Option<SymbolicValue>
        ensures { IfSome result (λ v. slice_get self.now local ≡ Some (Some v)) }
    {
        if usize::from(local) < self.count {
            self.values[usize::from(local)]
        } else {
            None
        }
    }

    /// The number of local variables.
    pub(crate) fn count(&self) -> usize
        ensures { result ≡ length self.now }
    {
        self.count
    }

    /// Sets a local variable.
    pub(crate) fn set(&mut self, local: u8, value: SymbolicValue)
        requires { local < length self.old }
        ensures { self.new ≡ slice_set self.old local (Some value) }
    {
        self.values[usize::from(local)] = Some(value);
    }
}
