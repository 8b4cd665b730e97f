//! `ncroute rewrite`: the file of a code in the newer form, or in the older one.
ghost use Rattle.std.specs.Prelude.{◌≡◌, IfErr, IfOk};
ghost use Rattle.filter_source.specs.Failures.{OnRefusal};
ghost use Rattle.filter_reports.specs.Reports.{report_of};
ghost use Rattle.filter_reports.specs.Rewriting.{IsRewriteReport, IsRewritten, IsUnspelled, SpellsAs, file_lines};
ghost use Rattle.filter_reports.specs.Steps.{lines_of};

use crate::check::code_of;
use crate::lines::{Lines, refusal_lines};
use crate::report::Report;
use crate::status::status_of;
use filter_source::{Failure, write_file};
use std::alloc::{AllocError, Global};

/// The file of the code of a code file in hexadecimal.
fn file_of(alloc: Global, input: &[u8], is_old: bool) -> Result<Vec<u8>, Failure>
    ensures written { IfOk result (λ bytes. SpellsAs is_old input.now bytes.items) }
    ensures refused { IfErr result (OnRefusal (IsUnspelled is_old input.now)) }
{
    let compiled = code_of(alloc, input, true)?;
    write_file(alloc, &compiled.code, is_old)
}

/// The line of a file: its hexadecimal.
fn line_of(alloc: Global, bytes: &[u8]) -> Result<Lines, AllocError>
    ensures { IfOk result (λ lines. lines_of lines ≡ file_lines bytes.now) }
{
    let digits = hex::encode(alloc, bytes)?;
    let mut text = Vec::new(alloc);
    text.extend_from_slice(digits.as_bytes())?;
    text.push(b'\n')?;
    Ok(Lines {
        text,
        diagnosis: None,
    })
}

/// The line of the file in the other form, or the line that refuses the input.
fn rewritten(alloc: Global, input: &[u8], is_old: bool) -> Result<Lines, AllocError>
    ensures { IfOk result (λ lines. IsRewritten is_old input.now (lines_of lines)) }
{
    match file_of(alloc, input, is_old) {
        Ok(bytes) => line_of(alloc, bytes.as_slice()),
        Err(Failure::Refused(diagnosis)) => refusal_lines(alloc, diagnosis),
        Err(Failure::Memory) => Err(AllocError),
    }
}

/// The report of `rewrite` on a code file in hexadecimal: the file of the same code in the newer form, or in the older one where `is_old`
/// says so, in hexadecimal on a line of its own; or a line that refuses it.
pub fn rewrite_report(alloc: Global, input: &[u8], is_old: bool) -> Result<Report, AllocError>
    ensures { IfOk result (λ report. IsRewriteReport is_old input.now (report_of report)) }
{
    let lines = rewritten(alloc, input, is_old)?;
    let refused = u32::from(lines.diagnosis.is_some());
    Ok(Report {
        out: lines.text,
        err: Vec::new(alloc),
        status: status_of(refused),
    })
}
