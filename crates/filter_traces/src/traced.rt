//! A verified filter, and where in its text each instruction comes from.
ghost use Rattle.std.specs.Prelude.{◌≡◌, ◌≤◌, ℕ, map, slice_get, IfOk, IfSome};
ghost use Rattle.filter_code.specs.Limits.{instruction_limit};
ghost use Rattle.filter_syntax.specs.SyntaxText.{FilterView};
ghost use Rattle.filter_reports.specs.Opening.{IsPlacedOf};
ghost use Rattle.filter_traces.specs.Whys.{IsTraceOf, site_in};

use crate::site::InstructionSite;
use filter_code::{Code, Instr};
use filter_reports::PlacedCode;
use filter_verifier::Verified;
use refusal_words::Positions;
use std::alloc::{AllocError, Global};
use std::marker::Model;

/// A verified filter whose runs are traced.
///
/// A contract sees it as a `TracedView`.
#[derive(Drop)]
pub(crate) struct Traced<'a> {
    verified: Verified,
    text: &'a [u8],
    sites: Vec<InstructionSite>,
}

impl<'a> Model for Traced<'a> {
    ghost use Rattle.filter_traces.specs.TracedView.{TracedView};

    ghost Value = { TracedView };

    ghost view = { λ t. record {
      program = t.verified.program;
      size = t.verified.size;
      text = t.text.now;
      sites = t.sites.items;
    } };
}

/// The instruction at a place, if there is one.
fn instr_at(instrs: &[Instr], at: usize) -> Option<Instr>
    ensures { result ≡ slice_get instrs.now at }
{
    instrs.get(at).copied()
}

impl<'a> Traced<'a> {
    /// The filter of verified code, of a text and of where in it each instruction comes from.
    pub(crate) fn new(verified: Verified, text: &'a [u8], sites: Vec<InstructionSite>) -> Traced<'a>
        ensures { result ≡ record { program = verified.program; size = verified.size; text = text.now; sites = sites.items } }
    {
        Traced {
            verified,
            text,
            sites,
        }
    }

    /// The code.
    pub(crate) fn code(&self) -> &Code
        ensures { result.now ≡ self.now.program }
    {
        self.verified.code()
    }

    /// The size of the domains that it was verified for.
    pub(crate) fn size(&self) -> u32
        ensures { result ≡ self.now.size }
    {
        self.verified.size()
    }

    /// The text.
    pub(crate) fn text(&self) -> &[u8]
        ensures { result.now ≡ self.now.text }
    {
        self.text
    }

    /// The instruction at a place, if there is one.
    pub(crate) fn instr(&self, at: usize) -> Option<Instr>
        ensures value { result ≡ slice_get self.now.program.instrs at }
        ensures within { IfSome result (λ _. at ≤ instruction_limit) }
    {
        instr_at(self.code().instrs(), at)
    }

    /// Where the instruction at a place comes from.
    pub(crate) fn site(&self, at: usize) -> Option<InstructionSite>
        ensures { result ≡ slice_get self.now.sites at }
    {
        self.sites.get(at).copied()
    }
}

/// The sites of some bytes of a text.
fn sites_in(
    alloc: Global,
    text: &[u8],
    places: &[usize],
) -> Result<Vec<InstructionSite>, AllocError>
    ensures { IfOk result (λ sites. sites.items ≡ map (site_in text.now) places.now) }
{
    let positions = Positions::new(alloc, text)?;
    let mut sites = Vec::with_capacity(alloc, places.len())?;
    for place in places {
        let position = positions.of(*place);
        sites.push(InstructionSite {
            byte: *place,
            line: position.line,
            column: position.column,
        })?;
    }
    Ok(sites)
}

/// The filter that a text spells, by its verified code, and where in the text each of its instructions comes from.
pub(crate) fn trace_filter<'a>(
    alloc: Global,
    text: &'a [u8],
    placed: PlacedCode,
) -> Result<Traced<'a>, AllocError>
    ensures { (size : ℕ) → IsPlacedOf size text.now placed → IfOk result (λ traced. (filter : FilterView) × IsTraceOf text.now size filter traced) }
{
    let PlacedCode {
        verified,
        places,
        ..
    } = placed;
    let sites = sites_in(alloc, text, places.as_slice())?;
    Ok(Traced::new(verified, text, sites))
}
