//! `ncroute check`: the lines on a source, why it is refused, and its warnings.
ghost use Rattle.std.specs.Prelude.{◌≡◌, [], IfOk, false};
ghost use Rattle.filter_reports.specs.Checking.{IsVerifiedSource};
ghost use Rattle.filter_reports.specs.Notices.{named};
ghost use Rattle.filter_reports.specs.Reports.{report_of};
ghost use Rattle.filter_lint.specs.Checking as spec;

use crate::linting::{host_bits_lines, warn};
use filter_reports::{
    Checked, NamedText, Report, SurveyedSource, Wording, check_finding, check_source, notice_if,
    status_of_found, written_lines,
};
use filter_source::Diagnosis;
use report_formats::{CheckOptions, Format, LintOptions};
use std::alloc::{AllocError, Global};

/// How people are told why a source is refused.
fn wording_of(how: CheckOptions) -> Wording
    ensures { result ≡ spec.wording_of how }
{
    if how.tells_people {
        Wording::words_or_line(how.is_explained)
    } else {
        Wording::Nothing
    }
}

/// The report on a source that is checked, but for its warnings: its lines, or a line of JSON.
fn plain_report(
    alloc: Global,
    how: CheckOptions,
    source: &NamedText<'_>,
    lines: Vec<u8>,
    why: &Option<Diagnosis>,
) -> Result<Report, AllocError>
    ensures { IfOk result (λ report. spec.IsPlainReport how (named source.now) lines.items why.now (report_of report)) }
{
    let status = status_of_found(why.is_some());
    match how.format {
        Format::Text => Ok(Report {
            out: written_lines(alloc, how, source.name, lines, why)?,
            err: notice_if(alloc, wording_of(how), source, why)?,
            status,
        }),
        Format::Json => Ok(Report {
            out: check_finding(alloc, how.is_quiet, source, why)?,
            err: Vec::new(alloc),
            status,
        }),
    }
}

/// The lines of all warnings of a filter that is verified.
fn all_warnings(
    alloc: Global,
    how: CheckOptions,
    limit: u64,
    source: &NamedText<'_>,
    surveyed: &SurveyedSource,
) -> Result<Vec<u8>, AllocError>
    requires { IsVerifiedSource how.size false source.now.text.now surveyed.now }
    ensures { IfOk result (λ lines. spec.AreAllWarnings how limit (named source.now) lines.items) }
{
    let options = LintOptions {
        size: how.size,
        limit,
        allowed: Vec::new(alloc),
        asks_order: false,
        format: how.format,
        is_explained: how.is_explained,
    };
    let report = warn(alloc, &options, source, surveyed)?;
    Ok(report.lines)
}

/// The lines of those warnings of a filter that are wanted: all, where they are asked for; otherwise, where words are told, those of its prefixes
/// that are written with host bits.
fn filter_warnings(
    alloc: Global,
    how: CheckOptions,
    source: &NamedText<'_>,
    surveyed: &SurveyedSource,
) -> Result<Vec<u8>, AllocError>
    requires { IsVerifiedSource how.size false source.now.text.now surveyed.now }
    ensures { IfOk result (λ lines. spec.AreFilterWarnings how.warning_limit how (named source.now) lines.items) }
{
    match how.warning_limit {
        Some(limit) => all_warnings(alloc, how, limit, source, surveyed),
        None if how.is_explained => {
            host_bits_lines(alloc, how.format, source, surveyed.tokens.as_slice())
        }
        None => Ok(Vec::new(alloc)),
    }
}

/// The lines of those warnings of a verified source that are wanted. A code file has none.
fn source_warnings(
    alloc: Global,
    how: CheckOptions,
    source: &NamedText<'_>,
    surveyed: &SurveyedSource,
) -> Result<Vec<u8>, AllocError>
    requires { IsVerifiedSource how.size how.is_code source.now.text.now surveyed.now }
    ensures { IfOk result (λ lines. spec.AreWarnings how.is_code how (named source.now) lines.items) }
{
    if how.is_code {
        Ok(Vec::new(alloc))
    } else {
        filter_warnings(alloc, how, source, surveyed)
    }
}

/// The report that says warnings behind another one: people are told them, or lines of JSON say them.
fn warning_report(alloc: Global, format: Format, lines: Vec<u8>) -> Report
    ensures { report_of result ≡ spec.warning_report format lines.items }
{
    match format {
        Format::Text => Report {
            out: Vec::new(alloc),
            err: lines,
            status: 0,
        },
        Format::Json => Report {
            out: lines,
            err: Vec::new(alloc),
            status: 0,
        },
    }
}

/// The report on a source that is verified.
fn verified_report(
    alloc: Global,
    how: CheckOptions,
    source: &NamedText<'_>,
    lines: Vec<u8>,
    surveyed: &SurveyedSource,
) -> Result<Report, AllocError>
    requires { IsVerifiedSource how.size how.is_code source.now.text.now surveyed.now }
    ensures { IfOk result (λ report. spec.SaysVerified how (named source.now) lines.items (report_of report)) }
{
    let plain = plain_report(alloc, how, source, lines, &None)?;
    let warnings = source_warnings(alloc, how, source, surveyed)?;
    plain.followed_by(&warning_report(alloc, how.format, warnings))
}

/// The report of `check` on a source, a filter's text or a code file in hexadecimal: its code and whether that is verified, in lines or in a line of
/// JSON. People are told why it is refused, and of those of its warnings that are wanted, as `how` says.
pub fn check_report(
    alloc: Global,
    how: CheckOptions,
    source: &NamedText<'_>,
) -> Result<Report, AllocError>
    ensures { IfOk result (λ report. spec.IsCheckReport how (named source.now) (report_of report)) }
{
    let Checked { lines, verdict } = check_source(alloc, source.text, how.size, how.is_code)?;
    match verdict {
        Ok(surveyed) => verified_report(alloc, how, source, lines, &surveyed),
        Err(why) => plain_report(alloc, how, source, lines, &Some(why)),
    }
}
