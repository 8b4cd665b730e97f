//! W1: conditions that come out the same way on every route that comes to them.
//!
//! **W8 is said at the MAX of an assignment**, which takes the greater of the value and the metric received. The search marks that the upper int
//! was greater on some route. It is asked of those MAX alone of which the verifier does not know that the value is at least the metric received: a
//! search for a route that there is not tries all classes, and `rip_metric + 2` would make the search through a long list a hundred times as long
//! and more.
ghost use Rattle.std.specs.Prelude.{◌≡◌, IfOk};
ghost use Rattle.filter_lint.specs.Conditions as spec;

use crate::finding::found_below;
use crate::site::{Site, site_at};
use crate::surveyed_filter::SurveyedFilter;
use crate::warning::{Warning, WarningCause};
use filter_code::Instr;
use filter_diff::Mark;
use std::alloc::{AllocError, Global};

/// How a condition comes out on every route that comes to it, if it is always the same and some route comes.
fn constant_of(mark: &Mark) -> Option<bool>
    ensures { result ≡ spec.constant_of mark.now }
{
    if mark.is_true && !mark.is_false {
        Some(true)
    } else if mark.is_false && !mark.is_true {
        Some(false)
    } else {
        None
    }
}

/// Whether a condition is worth a word: one that stands in the text.
fn is_asked(site: Site) -> bool
    ensures { result ≡ spec.is_asked site }
{
    match site {
        Site::Case => false,
        _ => true,
    }
}

/// What is said of a condition that stands at a byte of the text, where its instruction has this index and this mark.
fn constant(text: &[u8], at: usize, byte: usize, mark: &Mark) -> Option<Warning>
    ensures { result ≡ spec.constant text.now at byte mark.now }
{
    let site = site_at(text, byte)?;
    let value = constant_of(mark)?;
    if !is_asked(site) {
        return None;
    }
    Some(Warning {
        instruction: at,
        byte,
        cause: WarningCause::Constant(site, value),
    })
}

/// The same of an instruction, if it jumps by a condition.
fn constant_by(text: &[u8], at: usize, instr: Instr, byte: usize, mark: &Mark) -> Option<Warning>
    ensures { result ≡ spec.constant_by text.now at instr byte mark.now }
{
    match instr {
        Instr::JumpIfNot(_) => constant(text, at, byte, mark),
        _ => None,
    }
}

/// The same of the instruction of an index.
fn constant_at(source: &SurveyedFilter, marks: &[Mark], at: usize) -> Option<Warning>
    ensures { result ≡ spec.constant_at source.now marks.now at }
{
    let instr = source.instr(at)?;
    let byte = source.place(at)?;
    match marks.get(at) {
        Some(mark) => constant_by(source.text(), at, instr, byte, mark),
        None => None,
    }
}

/// What is said of all conditions, in the order of the code.
pub(crate) fn constant_conditions(
    alloc: Global,
    source: &SurveyedFilter,
    marks: &[Mark],
) -> Result<Vec<Warning>, AllocError>
    ensures { IfOk result (λ found. found.items ≡ spec.constant_conditions source.now marks.now) }
{
    found_below(
        alloc,
        source.instrs().len(),
        |at| constant_at(source, marks, at),
    )
}
