//! `ncroute diff`: on which routes two filters differ.
//!
//! **`diff` ends with 0 only where two filters do the same on all routes, and with 1 only where they differ.** What keeps it from knowing is 3,
//! also a filter that is refused: after a 1 a script may count on a difference, as after a 1 of `cmp`.
ghost use Rattle.std.specs.Prelude.{◌≡◌, ◌≤◌, false, IfOk, MatchResult};
ghost use Rattle.filter_code.specs.Limits.{largest_size};
ghost use Rattle.filter_reports.specs.Checking.{IsDiagnosis};
ghost use Rattle.filter_reports.specs.VerifiedFilters.{IsVerifiedOf};
ghost use Rattle.filter_reports.specs.Notices.{named};
ghost use Rattle.filter_reports.specs.Reports.{report_of};
ghost use Rattle.filter_checks.specs.Comparing as spec;

use crate::part_reports::parts_in;
use filter_code::Code;
use filter_diff::{Comparison, answer_of};
use filter_differences::find_parts;
use filter_reports::{FAILED, FAULT, NamedText, Report, Wording, refusal_report, verified_filter};
use filter_source::{Diagnosis, Failure};
use filter_verifier::Verified;
use report_formats::DiffOptions;
use std::alloc::{AllocError, Global};

/// The verified code of a text for domains of a size, or what is told of why it is refused.
fn judge(alloc: Global, text: &[u8], size: u32) -> Result<Result<Verified, Diagnosis>, AllocError>
    ensures { IfOk result (λ judged. MatchResult judged (IsVerifiedOf size text.now) (IsDiagnosis size false text.now)) }
{
    match verified_filter(alloc, text, size) {
        Ok(verified) => Ok(Ok(verified)),
        Err(Failure::Refused(diagnosis)) => Ok(Err(diagnosis)),
        Err(Failure::Memory) => Err(AllocError),
    }
}

/// The exit status by what the comparison comes to: 0 where two filters do the same with every route.
fn status_of_comparison(found: Comparison) -> u8
    ensures { result ≡ spec.status_of_comparison found }
{
    match found {
        Comparison::Same => 0,
        Comparison::Differ => FAILED,
        Comparison::Undecided => FAULT,
    }
}

/// The report on two codes that are compared on all routes of domains of `size` nodes: the lines of the parts.
fn parts_report(
    alloc: Global,
    how: DiffOptions,
    name: &[u8],
    old: &Code,
    new: &Code,
    size: u32,
) -> Result<Report, AllocError>
    requires { size ≤ largest_size }
    ensures { IfOk result (λ report. spec.IsPartsReport how name.now old.now new.now size (report_of report)) }
{
    let parts = find_parts(alloc, old, new, size, how.limit)?;
    let text = parts_in(alloc, how.format, name, size, parts.as_slice())?;
    Ok(Report {
        out: text,
        err: Vec::new(alloc),
        status: status_of_comparison(answer_of(parts.as_slice())),
    })
}

/// The report on two verified codes, which are compared on all routes of domains of the size that they were verified for.
fn comparison_report(
    alloc: Global,
    how: DiffOptions,
    name: &[u8],
    old: &Verified,
    new: &Verified,
) -> Result<Report, AllocError>
    ensures { IfOk result (λ report. spec.IsPartsReport how name.now old.now.program new.now.program old.now.size (report_of report)) }
{
    parts_report(alloc, how, name, old.code(), new.code(), old.size())
}

/// The report on a source that is refused, if it is: nothing is compared, so nothing is known.
fn refusal_report_if(
    alloc: Global,
    how: DiffOptions,
    source: &NamedText<'_>,
    why: &Option<Diagnosis>,
) -> Result<Report, AllocError>
    ensures said { IfOk result (λ report. spec.IsRefusalIf how (named source.now) why.now (report_of report)) }
    ensures status { IfOk result (λ report. report.status ≡ 3) }
{
    match why {
        Some(why) => {
            let wording = Wording::words_or_line(how.is_explained);
            refusal_report(alloc, how.format, wording, source, why, FAULT)
        }
        None => Ok(Report {
            out: Vec::new(alloc),
            err: Vec::new(alloc),
            status: FAULT,
        }),
    }
}

/// The report on two texts, of which one is refused or both are.
fn refusals_report(
    alloc: Global,
    how: DiffOptions,
    old: &NamedText<'_>,
    new: &NamedText<'_>,
    before: Option<Diagnosis>,
    after: Option<Diagnosis>,
) -> Result<Report, AllocError>
    ensures { IfOk result (λ report. spec.RefusesBoth how (named old.now) (named new.now) before after (report_of report)) }
{
    let first = refusal_report_if(alloc, how, old, &before)?;
    let second = refusal_report_if(alloc, how, new, &after)?;
    first.followed_by(&second)
}

/// The report of `diff` on the filters that two texts spell, on all routes of a domain: a line for each part of the routes on which they differ
/// or on which it is not decided, then one line on all other routes. At most so many classes of routes are tried as `how` says, and
/// all are decided where these are all. Of a text that is refused people are told why, under its name, or a line of JSON says it, and nothing is
/// compared.
pub fn diff_report(
    alloc: Global,
    how: DiffOptions,
    old: &NamedText<'_>,
    new: &NamedText<'_>,
) -> Result<Report, AllocError>
    ensures { IfOk result (λ report. spec.IsDiffReport how (named old.now) (named new.now) (report_of report)) }
{
    let before = judge(alloc, old.text, how.size)?;
    let after = judge(alloc, new.text, how.size)?;
    match before {
        Ok(old_code) => match after {
            Ok(new_code) => comparison_report(alloc, how, new.name, &old_code, &new_code),
            Err(diagnosis) => refusals_report(alloc, how, old, new, None, Some(diagnosis)),
        },
        Err(diagnosis) => refusals_report(alloc, how, old, new, Some(diagnosis), after.err()),
    }
}
