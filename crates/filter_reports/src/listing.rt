//! `ncroute list`: code as a listing, with what the verifier knows before each instruction.
//!
//! **A listing keeps the line and the column of each 16th byte of its text**, and counts those of an instruction from the mark before it. The bytes
//! that the instructions come from are in no order: an operator comes behind its operands, and each label of a `case` has its argument again. So a
//! listing takes time in proportion to its text and its instructions, whatever their order, and whether the text has lines or is one long line.
//!
//! **A listing is defined by the verifier's own facts**, those of `verify`'s contract. `survey_code` keeps them as its sweep comes by, and says of
//! the code what `verify` says, so `list` has one sweep; `verify` keeps none, and does not pay for them.
ghost use Rattle.std.specs.Prelude.{◌≡◌, ◌≤◌, ◌<◌, ◌++◌, ℕ, Some, IfOk, IfSome, OnOk, length};
ghost use Rattle.filter_code.specs.Limits.{instruction_limit};
ghost use Rattle.filter_source.specs.Diagnoses.{TellsOfCode};
ghost use Rattle.filter_source.specs.Sources.{IsUnsafe};
ghost use Rattle.filter_verifier.specs.InStateView.{Known};
ghost use Rattle.filter_verifier.specs.InStates.{in_state};
ghost use Rattle.filter_verifier.specs.Sweep.{in_state_view, state_at};
ghost use Rattle.filter_reports.specs.Listing.{IsListReport, IsListed, IsListing, Lists};
ghost use Rattle.filter_reports.specs.Listing.{fact_text, instruction_line, known_before, mark};
ghost use Rattle.filter_reports.specs.Listing.{IsDiagnosisOfCode, IsDiagnosisOfListing, refusal_in};
ghost use Rattle.filter_reports.specs.Notices.{named};
ghost use Rattle.filter_reports.specs.Reports.{report_of};
ghost use Rattle.filter_reports.specs.Listing.{nothing_known, origin_in, place_text, places_text, state_text, target_text};

use crate::check::code_of;
use crate::lines::{Lines, end_lines};
use crate::named_text::NamedText;
use crate::refusal::refusal_line;
use crate::report::Report;
use crate::status::status_of_found;
use crate::wording::{Wording, notice_if};
use filter_code::{Code, Instr};
use filter_source::{CompiledSource, Failure, place_at};
use filter_verifier::{AbstractFrame, Fact, InState, Range, survey_code};
use line_protocol::push_decimal;
use refusal_words::Positions;
use std::alloc::{AllocError, Global};

/// The text that a code was compiled from, and for each instruction the byte that it comes from. A code file has no such bytes.
#[derive(Drop)]
struct Origins<'a> {
    source: Positions<'a>,
    places: &'a [usize],
}

/// Puts the range of an int, and its mark, at the end of `out`.
fn push_range(out: &mut Vec<u8>, range: Range) -> Result<(), AllocError>
    ensures { OnOk result (out.new.items ≡ out.old.items ++ fact_text (Fact.Int range)) }
{
    push_decimal(out, u64::from(range.low()))?;
    out.extend_from_slice(b"..")?;
    push_decimal(out, u64::from(range.high()))?;
    if range.is_at_least_received() {
        out.extend_from_slice(b">=received")?;
    }
    Ok(())
}

/// Puts what is known at a place at the end of `out`.
fn push_place(out: &mut Vec<u8>, place: &Option<Fact>) -> Result<(), AllocError>
    ensures { OnOk result (out.new.items ≡ out.old.items ++ place_text place.now) }
{
    match place {
        None => out.extend_from_slice(b"?"),
        Some(Fact::Int(range)) => push_range(out, *range),
        Some(Fact::Bool) => out.extend_from_slice(b"bool"),
        Some(Fact::Ip) => out.extend_from_slice(b"ip"),
        Some(Fact::Prefix) => out.extend_from_slice(b"prefix"),
    }
}

/// Puts what is known at each of some places, each behind a space, at the end of `out`.
fn push_places(out: &mut Vec<u8>, places: &[Option<Fact>]) -> Result<(), AllocError>
    ensures { OnOk result (out.new.items ≡ out.old.items ++ places_text places.now) }
{
    for place in places {
        out.push(b' ')?;
        push_place(out, place)?;
    }
    Ok(())
}

/// Puts what is known of a stack and of the variables at the end of `out`.
fn push_frame(out: &mut Vec<u8>, frame: &AbstractFrame) -> Result<(), AllocError>
    ensures { OnOk result (out.new.items ≡ out.old.items ++ state_text (Known frame.now)) }
{
    out.extend_from_slice(b"  stack:")?;
    push_places(out, frame.stack())?;
    out.extend_from_slice(b"; variables:")?;
    push_places(out, frame.locals())?;
    out.push(b'\n')?;
    Ok(())
}

/// Puts what is known before an instruction at the end of `out`.
fn push_state(out: &mut Vec<u8>, state: &InState) -> Result<(), AllocError>
    ensures { OnOk result (out.new.items ≡ out.old.items ++ state_text (in_state_view state.now)) }
{
    match state {
        InState::Unreached => out.extend_from_slice(b"  no path leads here\n"),
        InState::UnlikeDepths => out.extend_from_slice(
            b"  paths meet here whose stacks differ in depth\n",
        ),
        InState::Known(frame) => push_frame(out, frame),
    }
}

/// Puts where the instruction at an index jumps to at the end of `out`.
fn push_target(out: &mut Vec<u8>, at: usize, instr: Instr) -> Result<(), AllocError>
    requires { at ≤ instruction_limit }
    ensures { OnOk result (out.new.items ≡ out.old.items ++ target_text at instr) }
{
    match instr {
        Instr::Jump(skipped) | Instr::JumpIfNot(skipped) => {
            out.extend_from_slice(b" to ")?;
            push_decimal(out, (at + 1 + usize::from(skipped)) as u64)
        }
        _ => Ok(()),
    }
}

/// Puts where the instruction at an index comes from at the end of `out`.
fn push_origin(out: &mut Vec<u8>, origins: &Origins, at: usize) -> Result<(), AllocError>
    ensures { OnOk result (out.new.items ≡ out.old.items ++ origin_in origins.now.source origins.now.places.now at) }
{
    match place_at(origins.places, at) {
        Some(byte) => {
            let position = origins.source.of(byte);
            out.extend_from_slice(b" ; ")?;
            push_decimal(out, position.line as u64)?;
            out.push(b':')?;
            push_decimal(out, position.column as u64)
        }
        None => Ok(()),
    }
}

/// Puts the line of the instruction at an index at the end of `out`.
fn push_instruction(
    alloc: Global,
    out: &mut Vec<u8>,
    origins: &Origins,
    at: usize,
    instr: Instr,
) -> Result<(), AllocError>
    requires { at ≤ instruction_limit }
    ensures { OnOk result (out.new.items
        ≡ out.old.items ++ instruction_line at instr (origin_in origins.now.source origins.now.places.now at)) }
{
    let text = format!(in alloc; "{instr}")?;
    push_decimal(out, at as u64)?;
    out.push(b' ')?;
    out.extend_from_slice(text.as_bytes())?;
    push_target(out, at, instr)?;
    push_origin(out, origins, at)?;
    out.push(b'\n')?;
    Ok(())
}

/// The lines of all instructions.
fn list_instructions(alloc: Global, code: &Code, origins: &Origins) -> Result<Vec<u8>, AllocError>
    ensures { IfOk result (λ text. Lists code.now.instrs nothing_known (origin_in origins.now.source origins.now.places.now) (length code.now.instrs) text.items) }
{
    let mut out = Vec::new(alloc);
    for (at, instr) in code.instrs().iter().enumerate() {
        push_instruction(alloc, &mut out, origins, at, *instr)?;
    }
    Ok(out)
}

/// The lines of the first instructions of a code, each behind what the verifier knows there in domains of a size.
fn list_visited(
    alloc: Global,
    code: &Code,
    origins: &Origins,
    size: u32,
    in_states: &[InState],
) -> Result<Vec<u8>, AllocError>
    requires known { (k : ℕ) → k < length in_states.now → state_at in_states.now k ≡ in_state code.now size k }
    requires within { length in_states.now ≤ length code.now.instrs }
    ensures { IfOk result (λ text. Lists code.now.instrs (known_before code.now size) (origin_in origins.now.source origins.now.places.now)
        (length in_states.now) text.items) }
{
    let instrs = code.instrs();
    let mut out = Vec::new(alloc);
    for (at, state) in in_states.iter().enumerate() {
        push_state(&mut out, state)?;
        push_instruction(alloc, &mut out, origins, at, instrs[at])?;
    }
    Ok(out)
}

/// The listing of code for domains of a size: it ends with the bounds of the code, or with why it is refused.
fn list_verified(
    alloc: Global,
    code: &Code,
    origins: &Origins,
    size: u32,
) -> Result<Lines, AllocError>
    ensures listing { IfOk result (λ listing. IsListing (Some size) code.now (origin_in origins.now.source origins.now.places.now) listing.text.items (refusal_in listing.diagnosis)) }
    ensures diagnosis { IfOk result (λ listing. IfSome listing.diagnosis (λ diagnosis. IsUnsafe code.now size diagnosis.refusal × TellsOfCode code.now origins.now.places.now size diagnosis)) }
{
    let survey = survey_code(alloc, code, size)?;
    let text = list_visited(alloc, code, origins, size, survey.in_states.as_slice())?;
    end_lines(text, origins.places, survey.verdict)
}

/// The listing of code.
fn list(
    alloc: Global,
    code: &Code,
    origins: &Origins,
    size: Option<u32>,
) -> Result<Lines, AllocError>
    ensures listing { IfOk result (λ listing. IsListing size code.now (origin_in origins.now.source origins.now.places.now) listing.text.items (refusal_in listing.diagnosis)) }
    ensures diagnosis { IfOk result (λ listing. IfSome listing.diagnosis (IsDiagnosisOfCode size code.now origins.now.places.now)) }
{
    match size {
        Some(size) => list_verified(alloc, code, origins, size),
        None => Ok(Lines {
            text: list_instructions(alloc, code, origins)?,
            diagnosis: None,
        }),
    }
}

/// The listing of a filter's code, with the line and the column that each instruction comes from, or of a code file in
/// hexadecimal where `is_code` says so. For domains of a size what the
/// verifier knows stands before each instruction, and the listing ends at the instruction that it refuses, or with the bounds of the
/// code. A source that gives no code has the line that refuses it.
pub fn list_text(
    alloc: Global,
    source: &[u8],
    size: Option<u32>,
    is_code: bool,
) -> Result<Lines, AllocError>
    ensures listing { IfOk result (λ listing. IsListed size is_code source.now listing.text.items (refusal_in listing.diagnosis)) }
    ensures diagnosis { IfOk result (λ listing. IfSome listing.diagnosis (IsDiagnosisOfListing size is_code source.now)) }
{
    match code_of(alloc, source, is_code) {
        Ok(CompiledSource { code, places, .. }) => {
            let origins = Origins {
                source: Positions::new(alloc, source)?,
                places: places.as_slice(),
            };
            list(alloc, &code, &origins, size)
        }
        Err(Failure::Refused(diagnosis)) => Ok(Lines {
            text: refusal_line(alloc, diagnosis.refusal)?,
            diagnosis: Some(diagnosis),
        }),
        Err(Failure::Memory) => Err(AllocError),
    }
}

/// The report of `list` on a source: its listing. People are told why the source or its code is refused, as `wording` says.
pub fn list_report(
    alloc: Global,
    source: &NamedText<'_>,
    size: Option<u32>,
    is_code: bool,
    wording: Wording,
) -> Result<Report, AllocError>
    ensures { IfOk result (λ report. IsListReport size is_code wording (named source.now) (report_of report)) }
{
    let Lines { text, diagnosis } = list_text(alloc, source.text, size, is_code)?;
    let err = notice_if(alloc, wording, source, &diagnosis)?;
    Ok(Report {
        out: text,
        err,
        status: status_of_found(diagnosis.is_some()),
    })
}
