//! W4: members of a set that overlap: patterns that another pattern of the set covers, and ranges of ints.
//!
//! **W4 compares patterns two by two**, at the code's set, whose patterns are those of the text in its order, so no tree is walked again.
ghost use Rattle.std.specs.Prelude.{◌≡◌, IfOk, IsTrue, List, Bool, position, slice_get};
ghost use Rattle.prefix_patterns.specs.Matching.{Matches};
ghost use Rattle.filter_lint.specs.Overlaps as ints;
ghost use Rattle.filter_lint.specs.Sets as spec;

use crate::finding::found_below;
use crate::overlaps::overlaps_in;
use crate::surveyed_filter::SurveyedFilter;
use crate::warning::{Warning, WarningCause};
use filter_code::{Code, Instr};
use prefix_patterns::Pattern;
use std::alloc::{AllocError, Global};

/// An instruction that asks for a set.
#[derive(Clone, Copy)]
pub(crate) struct Asked {
    /// Its index.
    pub(crate) instruction: usize,
    /// The byte of the text that it comes from.
    pub(crate) byte: usize,
    /// The number of the set.
    pub(crate) set: u8,
    /// Whether it is a set of ints, and not one of patterns.
    pub(crate) is_of_ints: bool,
}

/// Whether a pattern covers another: it allows all of its lengths, and its prefix has no other bits.
fn covers(outer: &Pattern, inner: &Pattern) -> bool
    ensures exact { result ≡ spec.covers outer.now inner.now }
    ensures law { IsTrue result → (prefix : List Bool) → Matches prefix inner.now → Matches prefix outer.now }
{
    outer.low() <= inner.low()
        && inner.high() <= outer.high()
        && inner.prefix().within(&outer.prefix())
}

/// The index of the first of some patterns that covers another.
fn first_covering(patterns: &[Pattern], inner: &Pattern) -> Option<usize>
    ensures { result ≡ position (λ outer. spec.covers outer inner.now) patterns.now }
{
    patterns.iter().position(|outer| covers(outer, inner))
}

/// Whether a pattern covers another that does not cover it.
fn is_wider(outer: &Pattern, inner: &Pattern) -> bool
    ensures { result ≡ spec.is_wider outer.now inner.now }
{
    covers(outer, inner) && !covers(inner, outer)
}

/// The index of the first of some patterns that covers another which does not cover it.
fn first_wider(patterns: &[Pattern], inner: &Pattern) -> Option<usize>
    ensures { result ≡ position (λ outer. spec.is_wider outer inner.now) patterns.now }
{
    patterns.iter().position(|outer| is_wider(outer, inner))
}

/// The index of a pattern of the set that covers the one of an index: of one before it, or of one that it does not cover.
fn covering(patterns: &[Pattern], at: usize, inner: &Pattern) -> Option<usize>
    ensures { result ≡ spec.covering patterns.now at inner.now }
{
    let (before, _) = patterns.split_at(at.min(patterns.len()));
    match first_covering(before, inner) {
        Some(outer) => Some(outer),
        None => first_wider(patterns, inner),
    }
}

/// What is said of the pattern of an index, in the set that an instruction asks for.
fn covered_at(patterns: &[Pattern], asked: &Asked, at: usize) -> Option<Warning>
    ensures { result ≡ spec.covered_at patterns.now asked.now at }
{
    match patterns.get(at) {
        Some(inner) => {
            let outer = covering(patterns, at, inner)?;
            Some(Warning {
                instruction: asked.instruction,
                byte: asked.byte,
                cause: WarningCause::Covered(asked.set, at, outer),
            })
        }
        None => None,
    }
}

/// What is said of all patterns of a set.
fn covered_in(
    alloc: Global,
    patterns: &[Pattern],
    asked: &Asked,
) -> Result<Vec<Warning>, AllocError>
    ensures { IfOk result (λ found. found.items ≡ spec.covered_in patterns.now asked.now) }
{
    found_below(alloc, patterns.len(), |at| covered_at(patterns, asked, at))
}

/// The number of the set that an instruction asks for.
fn asked_by(instr: Instr) -> Option<u8>
    ensures { result ≡ spec.asked_by instr }
{
    match instr {
        Instr::Member(number) | Instr::InSet(number) => Some(number),
        _ => None,
    }
}

/// Whether an instruction asks for a set of ints.
fn asks_ints(instr: &Instr) -> bool
    ensures { result ≡ spec.asks_ints instr.now }
{
    match instr {
        Instr::InSet(_) => true,
        _ => false,
    }
}

/// What the instruction of an index asks.
fn asked_at(source: &SurveyedFilter, at: usize) -> Option<Asked>
    ensures { result ≡ spec.asked_at source.now at }
{
    let instr = source.instr(at)?;
    let byte = source.place(at)?;
    let is_of_ints = asks_ints(&instr);
    let set = asked_by(instr)?;
    Some(Asked {
        instruction: at,
        byte,
        set,
        is_of_ints,
    })
}

/// What is said of the set of patterns that an instruction asks for.
fn covered_of(alloc: Global, code: &Code, asked: &Asked) -> Result<Vec<Warning>, AllocError>
    ensures { IfOk result (λ found. found.items ≡ spec.covered_of (slice_get code.now.sets asked.now.set) asked.now) }
{
    match code.sets().get(usize::from(asked.set)) {
        Some(set) => covered_in(alloc, set.patterns(), asked),
        None => Ok(Vec::new(alloc)),
    }
}

/// What is said of the set of ints that an instruction asks for.
fn overlaps_of(alloc: Global, code: &Code, asked: &Asked) -> Result<Vec<Warning>, AllocError>
    ensures { IfOk result (λ found. found.items ≡ ints.overlaps_of (slice_get code.now.int_sets asked.now.set) asked.now) }
{
    match code.int_sets().get(usize::from(asked.set)) {
        Some(set) => overlaps_in(alloc, set.ranges(), asked),
        None => Ok(Vec::new(alloc)),
    }
}

/// What is said of the set that the instruction of an index asks for.
fn overlaps_by(
    alloc: Global,
    source: &SurveyedFilter,
    at: usize,
) -> Result<Vec<Warning>, AllocError>
    ensures { IfOk result (λ found. found.items ≡ spec.overlaps_by source.now at) }
{
    match asked_at(source, at) {
        Some(asked) if asked.is_of_ints => overlaps_of(alloc, source.code(), &asked),
        Some(asked) => covered_of(alloc, source.code(), &asked),
        None => Ok(Vec::new(alloc)),
    }
}

/// What is said of all sets, in the order of the code.
pub(crate) fn overlapping_members(
    alloc: Global,
    source: &SurveyedFilter,
) -> Result<Vec<Warning>, AllocError>
    ensures { IfOk result (λ found. found.items ≡ spec.overlapping_members source.now) }
{
    let mut found = Vec::new(alloc);
    for at in 0..source.instrs().len() {
        let more = overlaps_by(alloc, source, at)?;
        found.extend_from_slice(more.as_slice())?;
    }
    Ok(found)
}
