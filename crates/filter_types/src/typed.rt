//! Filters whose names and kinds fit.

ghost use Rattle.std.specs.Prelude.{◌≡◌, ◌≢◌, IfOk, IfErr, OnOk};
ghost use Rattle.filter_syntax.specs.Surroundings.{around_of};
ghost use Rattle.filter_syntax.specs.SyntaxText.{view_filter};
ghost use Rattle.filter_types.specs.declared.fault.TypeFault.TheVariants as fault;
ghost use Rattle.filter_types.specs.Codes.{fault_place};
ghost use Rattle.filter_types.specs.Faults.{IsFaultOf, KeepsPlace};
ghost use Rattle.filter_types.specs.Kinds.{IsTyped, number_of};

use crate::commands::check_commands;
use crate::fault::TypeFault;
use crate::variables::{check_variables, number_of};
use filter_syntax::{Around, Filter};
use std::alloc::Global;
use std::fmt;
use std::marker::Model;

/// Why the names and kinds of a filter do not fit, and what stands round the place.
#[derive(Clone, Copy)]
pub struct Untyped {
    /// The first fault of the filter.
    pub fault: TypeFault,
    /// What stands round the place of the fault.
    pub around: Around,
}

/// The words of the fault.
impl fmt::Debug for Untyped {
    fn fmt<W: fmt::Write>(&self, f: &mut fmt::Formatter<W>) -> fmt::Result {
        write!(f, "{}", self.fault)
    }
}

/// A filter whose names and kinds fit.
///
/// A contract sees it as the filter.
#[derive(Drop)]
pub struct Typed {
    filter: Filter,
}

impl Model for Typed {
    ghost use Rattle.filter_syntax.specs.declared.tree.filter.Filter.{Filter as TheFilter};
    ghost use Rattle.filter_syntax.specs.SyntaxText.{view_filter};
    ghost use Rattle.filter_syntax.specs.contracts.tree.filter.Filter as tree_filter;
    ghost use Rattle.filter_types.specs.Kinds.{IsTyped};

    ghost Value = { TheFilter };

    ghost coded = { tree_filter.the_row.coded };

    ghost view = { λ t. t.filter };

    ghost invariant = { λ t. IsTyped (view_filter t.filter) };
}

impl Typed {
    /// The filter.
    pub fn filter(&self) -> &Filter
        ensures value { result.now ≡ self.now }
        ensures typed { IsTyped (view_filter self.now) }
    {
        &self.filter
    }

    /// The same, where nothing asks any more whether its names and kinds fit.
    pub fn into_filter(self) -> Filter
        ensures { result ≡ self }
    {
        self.filter
    }

    /// The number of the variable of a name. Variables are numbered from 0 in the order of their declarations; a name that
    /// none has gets their count.
    pub fn number_of(&self, name: &[u8]) -> u8
        ensures { result ≡ number_of (view_filter self.now).decls name.now }
    {
        number_of(self.filter.decls(), name) as u8
    }
}

/// Judges the names and kinds of a filter.
fn judge(alloc: Global, filter: &Filter) -> Result<(), TypeFault>
    ensures typed { OnOk result (IsTyped (view_filter filter.now)) }
    ensures refused { IfErr result (λ why. why ≢ fault.Memory → IsTyped (view_filter filter.now) → ⊥) }
    ensures fault { IfErr result (λ why. why ≢ fault.Memory → IsFaultOf filter.now why) }
    ensures placed { IfErr result (λ why. why ≢ fault.Memory → KeepsPlace filter.now (fault_place why)) }
{
    check_variables(filter.decls())?;
    check_commands(alloc, filter.body(), filter.decls())?;
    Ok(())
}

/// A filter, if its names and kinds fit, or its first fault and what stands round the place: what [`check`] answers, with more to tell people.
pub fn check_explained(alloc: Global, filter: Filter) -> Result<Typed, Untyped>
    ensures same { IfOk result (λ typed. typed ≡ filter) }
    ensures typed { IfOk result (λ _. IsTyped (view_filter filter)) }
    ensures refused { IfErr result (λ why. why.fault ≢ fault.Memory → IsTyped (view_filter filter) → ⊥) }
    // A fault is one that a part of the filter has, at the place that is said.
    ensures fault { IfErr result (λ why. why.fault ≢ fault.Memory → IsFaultOf filter why.fault) }
    ensures placed { IfErr result (λ why. why.fault ≢ fault.Memory → KeepsPlace filter (fault_place why.fault)) }
    // What stands round the place of a fault is told with it.
    ensures around { IfErr result (λ why. why.around ≡ around_of (view_filter filter).tokens (fault_place why.fault)) }
{
    match judge(alloc, &filter) {
        Ok(()) => Ok(Typed { filter }),
        Err(fault) => Err(Untyped {
            fault,
            around: Around::of(filter.tokens(), fault.at()),
        }),
    }
}

/// A filter, if its names and kinds fit. A refused filter is dropped.
///
/// A fault is the first one in the order of the text, operands before their operator.
pub fn check(alloc: Global, filter: Filter) -> Result<Typed, TypeFault>
    ensures same { IfOk result (λ typed. typed ≡ filter) }
    ensures typed { IfOk result (λ _. IsTyped (view_filter filter)) }
    ensures refused { IfErr result (λ why. why ≢ fault.Memory → IsTyped (view_filter filter) → ⊥) }
    // A fault is one that a part of the filter has, at the place that is said.
    ensures fault { IfErr result (λ why. why ≢ fault.Memory → IsFaultOf filter why) }
    ensures placed { IfErr result (λ why. why ≢ fault.Memory → KeepsPlace filter (fault_place why)) }
{
    match check_explained(alloc, filter) {
        Ok(typed) => Ok(typed),
        Err(untyped) => Err(untyped.fault),
    }
}
