//! The parts of a `case`: the first of them whose label shares a number with an earlier one.

ghost use Rattle.std.specs.Prelude.{◌≡◌, ◌+◌, ◌<◌, ◌≤◌, ◌++◌, All, IfOk, OnOk, length, map, take};
ghost use Rattle.filter_syntax.specs.SyntaxCommands.{view_label};
ghost use Rattle.filter_types.specs.Labels.{AreAllApart, label_ranges};
ghost use Rattle.filter_types.specs.Refusals.{label_place};
ghost use Rattle.filter_types.specs.Sweep.{IsOrdered, labelled_range, part_ranges, written_range};
ghost use Rattle.filter_types.specs.declared.fault.TypeFault.TheVariants as fault;

use crate::fault::TypeFault;
use crate::labels::{Labelled, first_shared};
use filter_syntax::{Command, Label, SetRange};
use int_sets::IntRange;
use std::alloc::{AllocError, Global};

/// The fault of a label that shares a number with an earlier one.
pub(crate) fn shared_label(label: &Label) -> TypeFault
    ensures { result ≡ fault.SharedLabel (label_place label.now) }
{
    match label {
        Label::Ranges(ranges) => match ranges.first() {
            Some(range) => TypeFault::SharedLabel(range.at()),
            None => TypeFault::SharedLabel(0),
        },
        Label::Else(at) => TypeFault::SharedLabel(*at),
    }
}

/// A range with the number of its label.
fn labelled_range(label: usize, range: IntRange) -> Labelled
    ensures is { result ≡ labelled_range label range }
    ensures ordered { IsOrdered result }
{
    let low = range.low();
    prove!(low <= range.high());
    Labelled { label, range }
}

/// Adds the ranges of the label with this number.
fn gather(
    gathered: &mut Vec<Labelled>,
    number: usize,
    ranges: &[SetRange],
) -> Result<(), AllocError>
    requires ordered { All IsOrdered gathered.old.items }
    ensures added { OnOk result (gathered.new.items ≡ gathered.old.items ++ map (labelled_range number) (map written_range ranges.now)) }
    ensures ordered { OnOk result (All IsOrdered gathered.new.items) }
{
    for range in ranges {
        gathered.push(labelled_range(number, range.range()))?;
    }
    Ok(())
}

/// Adds the ranges of a label, if it has any.
fn gather_label(
    gathered: &mut Vec<Labelled>,
    number: usize,
    label: &Label,
) -> Result<(), AllocError>
    requires ordered { All IsOrdered gathered.old.items }
    ensures added { OnOk result (gathered.new.items ≡ gathered.old.items
        ++ map (labelled_range number) (label_ranges (view_label label.now))) }
    ensures ordered { OnOk result (All IsOrdered gathered.new.items) }
{
    match label {
        Label::Ranges(ranges) => gather(gathered, number, ranges),
        Label::Else(_) => Ok(()),
    }
}

/// The number of the first part whose label shares a number with an earlier one, and the count of the parts where none does.
pub(crate) fn first_shared_label(
    alloc: Global,
    parts: &[(Label, Vec<Command>)],
) -> Result<usize, AllocError>
    ensures limit { IfOk result (λ n. n ≤ length parts.now) }
    ensures apart { IfOk result (λ n. AreAllApart (take n (map part_ranges parts.now))) }
    ensures most { IfOk result (λ n. n < length parts.now → AreAllApart (take (n + 1) (map part_ranges parts.now)) → ⊥) }
{
    let mut gathered = Vec::new(alloc);
    for (number, (label, _)) in parts.iter().enumerate() {
        gather_label(&mut gathered, number, label)?;
    }
    Ok(first_shared(gathered, parts.len()))
}
