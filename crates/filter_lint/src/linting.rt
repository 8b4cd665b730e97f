//! `ncroute lint`: what is plainly wrong with a filter that is verified.
//!
//! **`lint` ends with 0 only where nothing is said and all routes were tried.** A warning or a refusal of any file is 1. Where neither is there, a
//! filter of which not all routes were tried, or a file that was not read, is 3: a build that asks for clean filters learns that this one was not
//! looked through.
ghost use Rattle.std.specs.Prelude.{◌≡◌, ◌&&◌, ◌+◌, All, IfOk, false, length, true};
ghost use Rattle.filter_diff.specs.Parts.{IsEnough};
ghost use Rattle.filter_reports.specs.Checking.{IsVerifiedSource};
ghost use Rattle.filter_reports.specs.Notices.{named};
ghost use Rattle.filter_reports.specs.Reports.{report_of};
ghost use Rattle.filter_tokens.specs.Tokenization.{IsTokenization};
ghost use Rattle.filter_lint.specs.Linting as spec;
ghost use Rattle.filter_lint.specs.Rules.{AreFound};
ghost use Rattle.filter_lint.specs.Truths.{IsTrueOf};
ghost use Rattle.filter_lint.specs.WarningLines.{warnings_text as warnings_text_of};

use crate::allowing::{shown_host_bits, shown_of};
use crate::host_bits::{HostBits, host_bits_among};
use crate::rules::{Warnings, find_warnings};
use crate::surveyed_filter::SurveyedFilter;
use crate::warning::Warning;
use crate::warning_lines::{host_bits_text, warnings_text};
use filter_reports::{
    Checked, FAILED, FAULT, NamedText, Report, SurveyedSource, Wording, check_source,
    refusal_report,
};
use filter_tokens::Token;
use prefix_patterns::PatternSet;
use report_formats::{Format, LintOptions};
use std::alloc::{AllocError, Global};

/// The lines of the warnings of a filter, and the exit status by them.
#[derive(Drop)]
pub(crate) struct WarningReport {
    /// The lines.
    pub(crate) lines: Vec<u8>,
    /// The exit status.
    pub(crate) status: u8,
}

/// The exit status by how many warnings are said, and by whether all was looked for.
fn status_of_warnings(count: usize, is_decided: bool) -> u8
    ensures { result ≡ spec.status_of_warnings count is_decided }
{
    if count > 0 {
        FAILED
    } else if is_decided {
        0
    } else {
        FAULT
    }
}

/// The warnings of the code of a text, which is verified.
fn warnings_of(
    alloc: Global,
    how: &LintOptions,
    text: &[u8],
    surveyed: &SurveyedSource,
) -> Result<Warnings, AllocError>
    requires { IsVerifiedSource how.now.size false text.now surveyed.now }
    ensures found { IfOk result (AreFound surveyed.now.code text.now surveyed.now.places.items how.now.size how.now.asks_order) }
    ensures sound { IfOk result (λ all. All (IsTrueOf surveyed.now.code how.now.size surveyed.now.places.items) all.found.items) }
    ensures decided { IsEnough how.now.size how.now.limit → IfOk result (λ all. all.is_complete ≡ true) }
    ensures ordered { IsEnough how.now.size how.now.limit → IfOk result (λ all. all.is_ordered ≡ true) }
{
    let places = surveyed.places.as_slice();
    let filter = SurveyedFilter::new(text, &surveyed.code, places, how.size, &surveyed.survey);
    find_warnings(alloc, &filter, how.limit, how.asks_order)
}

/// The lines of those warnings of a code that are told, and the exit status.
fn report_on(
    alloc: Global,
    format: Format,
    sets: &[PatternSet],
    source: &NamedText<'_>,
    all: &Warnings,
    shown: &[Warning],
    host_bits: &[HostBits],
) -> Result<WarningReport, AllocError>
    ensures lines { IfOk result (λ report. report.lines.items
        ≡ warnings_text_of format source.now.name.now source.now.text.now sets.now shown.now host_bits.now all.now.is_complete all.now.is_ordered) }
    ensures status { IfOk result (λ report. report.status
        ≡ spec.status_of_warnings (length shown.now + length host_bits.now) (all.now.is_complete && all.now.is_ordered)) }
{
    let lines = warnings_text(
        alloc,
        format,
        source.name,
        source.text,
        sets,
        shown,
        host_bits,
        all.is_complete,
        all.is_ordered,
    )?;
    let is_decided = all.is_complete && all.is_ordered;
    Ok(WarningReport {
        lines,
        status: status_of_warnings(shown.len() + host_bits.len(), is_decided),
    })
}

/// The warnings of a verified filter and of its text, in lines, but for those of these codes and those that a comment allows.
pub(crate) fn warn(
    alloc: Global,
    how: &LintOptions,
    source: &NamedText<'_>,
    surveyed: &SurveyedSource,
) -> Result<WarningReport, AllocError>
    requires { IsVerifiedSource how.now.size false source.now.text.now surveyed.now }
    ensures { IfOk result (λ report. spec.WarnsOf how.now.format how.now.size how.now.limit how.now.allowed.items how.now.asks_order
        surveyed.now.code surveyed.now.places.items (named source.now) report.lines.items report.status) }
{
    let all = warnings_of(alloc, how, source.text, surveyed)?;
    let host_bits = host_bits_among(alloc, surveyed.tokens.as_slice())?;
    let allowed = how.allowed.as_slice();
    let shown = shown_of(alloc, allowed, source.text, all.found.as_slice())?;
    let shown_bits = shown_host_bits(alloc, allowed, source.text, host_bits.as_slice())?;
    report_on(
        alloc,
        how.format,
        surveyed.code.sets(),
        source,
        &all,
        shown.as_slice(),
        shown_bits.as_slice(),
    )
}

/// The report on a filter that is verified: its warnings.
fn lint_verified(
    alloc: Global,
    how: &LintOptions,
    source: &NamedText<'_>,
    surveyed: &SurveyedSource,
) -> Result<Report, AllocError>
    requires { IsVerifiedSource how.now.size false source.now.text.now surveyed.now }
    ensures { IfOk result (λ report. spec.LintsFilter how.now (named source.now) (report_of report)) }
{
    let WarningReport { lines, status } = warn(alloc, how, source, surveyed)?;
    Ok(Report {
        out: lines,
        err: Vec::new(alloc),
        status,
    })
}

/// The report of `lint` on the filter that a text spells: a line for each warning, but for those whose codes are
/// allowed and those that a comment of their line allows. Whether the order of metrics is kept is looked for where `how` asks for it. At most
/// so many classes of routes as it says are tried in each search; where these are not all, a line says so. Of a text that is refused people are told
/// why, under its name, or a line of JSON says it.
pub fn lint_report(
    alloc: Global,
    how: &LintOptions,
    source: &NamedText<'_>,
) -> Result<Report, AllocError>
    ensures { IfOk result (λ report. spec.IsLintReport how.now (named source.now) (report_of report)) }
{
    let Checked { verdict, .. } = check_source(alloc, source.text, how.size, false)?;
    match verdict {
        Ok(surveyed) => lint_verified(alloc, how, source, &surveyed),
        Err(why) => {
            let wording = Wording::words_or_line(how.is_explained);
            refusal_report(alloc, how.format, wording, source, &why, FAILED)
        }
    }
}

/// The lines of the prefixes of a text that are written with host bits, as they are among those of its warnings, by the tokens that cut the text. No
/// route is tried.
pub(crate) fn host_bits_lines(
    alloc: Global,
    format: Format,
    source: &NamedText<'_>,
    tokens: &[Token],
) -> Result<Vec<u8>, AllocError>
    requires { IsTokenization tokens.now 0 source.now.text.now }
    ensures { IfOk result (λ lines. spec.AreHostBitsLines format (named source.now) lines.items) }
{
    let host_bits = host_bits_among(alloc, tokens)?;
    let shown = shown_host_bits(alloc, &[], source.text, host_bits.as_slice())?;
    let lines = host_bits_text(alloc, format, source.name, source.text, shown.as_slice())?;
    Ok(lines)
}
