//! The line of a finding.
ghost use Rattle.std.specs.Prelude.{◌≡◌, ◌++◌, IfOk, OnOk};
ghost use Rattle.serde_json.specs.Data.{string};
ghost use Rattle.serde_json.specs.View.{view};
ghost use Rattle.report_formats.specs.Findings as spec;

use crate::object::ObjectBuilder;
use crate::text::{number_or_null, push_value, text_or_null, text_value};
use serde_json::Value;
use std::alloc::{AllocError, Global};

/// What a finding says of what it is about.
#[derive(Clone, Copy)]
pub enum Severity {
    /// That it is right.
    Ok,
    /// That it is hardly meant so.
    Warning,
    /// That it is wrong.
    Error,
    /// That it is not known.
    Undecided,
}

/// What was found of a place of a file.
#[derive(Clone, Copy)]
pub struct Finding<'a> {
    /// What is said of it.
    pub severity: Severity,
    /// The code under which it is said.
    pub code: Option<&'a [u8]>,
    /// The name of the file.
    pub file: &'a [u8],
    /// The number of the line, counted from 1.
    pub line: Option<usize>,
    /// The number of the character in its line, counted from 1.
    pub column: Option<usize>,
    /// What is said in words.
    pub words: &'a [u8],
}

/// The word for a severity.
fn severity_word(severity: Severity) -> &'static str
    ensures { result.now ≡ spec.severity_word severity }
{
    match severity {
        Severity::Ok => "ok",
        Severity::Warning => "warning",
        Severity::Error => "error",
        Severity::Undecided => "undecided",
    }
}

/// The word for a severity as a text.
pub(crate) fn severity_value(alloc: Global, severity: Severity) -> Result<Value, AllocError>
    ensures { IfOk result (λ value. view value ≡ string (spec.severity_word severity)) }
{
    Value::try_from_str(alloc, severity_word(severity))
}

/// A finding as an object.
fn value_of(alloc: Global, finding: &Finding<'_>) -> Result<Value, AllocError>
    ensures { IfOk result (λ value. view value ≡ spec.finding_data (spec.finding_view finding.now)) }
{
    ObjectBuilder::new(alloc)
        .try_member("code", text_or_null(alloc, finding.code))
        .member("column", number_or_null(finding.column))
        .try_member("file", text_value(alloc, finding.file))
        .member("line", number_or_null(finding.line))
        .try_member("severity", severity_value(alloc, finding.severity))
        .try_member("words", text_value(alloc, finding.words))
        .finish()
}

/// Puts the line of a finding at the end of `out`.
pub fn push_finding(
    alloc: Global,
    out: &mut Vec<u8>,
    finding: &Finding<'_>,
) -> Result<(), AllocError>
    ensures { OnOk result (out.new.items ≡ out.old.items ++ spec.finding_line (spec.finding_view finding.now)) }
{
    let value = value_of(alloc, finding)?;
    push_value(alloc, out, &value)
}
