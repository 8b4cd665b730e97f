//! Parts of the routes as they are written: in lines for people, or in lines of JSON.
ghost use Rattle.std.specs.Prelude.{◌≡◌, ◌++◌, IfOk, OnOk, flat_map, option_map};
ghost use Rattle.prefix_patterns.specs.Spelling.{prefix_text};
ghost use Rattle.report_formats.specs.Findings.{finding_line};
ghost use Rattle.filter_differences.specs.PartLines.{ending_text, part_words};
ghost use Rattle.filter_checks.specs.PartReports as spec;

use filter_diff::{Comparison, PartFinding, RoutePart, RunEnding, answer_of, count_undecided};
use filter_differences::{
    hidden_count, parts_text, push_ending, push_hidden_words, push_last_words, push_part_words,
    shown_parts,
};
use prefix_patterns::Prefix;
use refusal_words::push_prefix;
use report_formats::{Finding, Format, PartReport, Severity, push_finding, push_part};
use std::alloc::{AllocError, Global};

/// How much is wrong with a part.
fn severity_of(found: PartFinding) -> Severity
    ensures { result ≡ spec.severity_of found }
{
    match found {
        PartFinding::Undecided => Severity::Undecided,
        PartFinding::Differ(_, _) => Severity::Error,
    }
}

/// How much is wrong with a comparison.
fn severity_of_answer(found: Comparison) -> Severity
    ensures { result ≡ spec.severity_of_answer found }
{
    match found {
        Comparison::Same => Severity::Ok,
        Comparison::Differ => Severity::Error,
        Comparison::Undecided => Severity::Undecided,
    }
}

/// What a filter does with the routes of a part.
fn ending_of(alloc: Global, end: RunEnding) -> Result<Vec<u8>, AllocError>
    ensures { IfOk result (λ text. text.items ≡ ending_text end) }
{
    let mut text = Vec::new(alloc);
    push_ending(&mut text, end)?;
    Ok(text)
}

/// The words of a part.
fn words_of(alloc: Global, part: &RoutePart) -> Result<Vec<u8>, AllocError>
    ensures { IfOk result (λ words. words.items ≡ part_words part.now) }
{
    let mut words = Vec::new(alloc);
    push_part_words(alloc, &mut words, part)?;
    Ok(words)
}

/// The prefix of a part.
fn prefix_of(alloc: Global, prefix: Prefix) -> Result<Vec<u8>, AllocError>
    ensures { IfOk result (λ text. text.items ≡ prefix_text prefix) }
{
    let mut text = Vec::new(alloc);
    push_prefix(alloc, &mut text, prefix)?;
    Ok(text)
}

/// Puts the report on a part at the end of `out`, with which the filters do this.
fn push_report_on(
    alloc: Global,
    out: &mut Vec<u8>,
    part: &RoutePart,
    before: Option<&[u8]>,
    after: Option<&[u8]>,
) -> Result<(), AllocError>
    ensures { OnOk result (out.new.items ≡ out.old.items ++ spec.report_with part.now
        (option_map (λ text. text.now) before.entry) (option_map (λ text. text.now) after.entry)) }
{
    let prefix = prefix_of(alloc, part.prefix)?;
    let words = words_of(alloc, part)?;
    push_part(
        alloc,
        out,
        &PartReport {
            severity: severity_of(part.finding),
            prefix: prefix.as_slice(),
            shortest: u64::from(part.shortest),
            longest: u64::from(part.longest),
            least: u64::from(part.least),
            greatest: u64::from(part.greatest),
            before,
            after,
            words: words.as_slice(),
        },
    )
}

/// Puts the report on a part on which the filters differ at the end of `out`.
fn push_difference(
    alloc: Global,
    out: &mut Vec<u8>,
    part: &RoutePart,
    before: RunEnding,
    after: RunEnding,
) -> Result<(), AllocError>
    ensures { OnOk result (out.new.items ≡ out.old.items ++ spec.difference part.now before after) }
{
    let old = ending_of(alloc, before)?;
    let new = ending_of(alloc, after)?;
    push_report_on(alloc, out, part, Some(old.as_slice()), Some(new.as_slice()))
}

/// Puts the report on a part at the end of `out`.
fn push_part_report(alloc: Global, out: &mut Vec<u8>, part: &RoutePart) -> Result<(), AllocError>
    ensures { OnOk result (out.new.items ≡ out.old.items ++ spec.part_report part.now) }
{
    match part.finding {
        PartFinding::Undecided => push_report_on(alloc, out, part, None, None),
        PartFinding::Differ(before, after) => push_difference(alloc, out, part, before, after),
    }
}

/// Puts the reports on parts at the end of `out`.
fn push_part_reports(
    alloc: Global,
    out: &mut Vec<u8>,
    parts: &[RoutePart],
) -> Result<(), AllocError>
    ensures { OnOk result (out.new.items ≡ out.old.items ++ flat_map spec.part_report parts.now) }
{
    for part in parts {
        push_part_report(alloc, out, part)?;
    }
    Ok(())
}

/// Puts a report on the whole comparison at the end of `out`, under the name of the newer filter.
fn push_whole<'a>(
    alloc: Global,
    out: &mut Vec<u8>,
    name: &'a [u8],
    found: Comparison,
    words: &'a [u8],
) -> Result<(), AllocError>
    ensures { OnOk result (out.new.items ≡ out.old.items ++ finding_line (spec.whole_view name.now found words.now)) }
{
    push_finding(
        alloc,
        out,
        &Finding {
            severity: severity_of_answer(found),
            code: None,
            file: name,
            line: None,
            column: None,
            words,
        },
    )
}

/// Puts how many parts have no report at the end of `out`, if there are some.
fn push_hidden_report(
    alloc: Global,
    out: &mut Vec<u8>,
    name: &[u8],
    found: Comparison,
    count: usize,
) -> Result<(), AllocError>
    ensures { OnOk result (out.new.items ≡ out.old.items ++ spec.hidden_report name.now found count) }
{
    if count == 0 {
        return Ok(());
    }
    let mut words = Vec::new(alloc);
    push_hidden_words(&mut words, count)?;
    push_whole(alloc, out, name, found, words.as_slice())
}

/// Puts what is said of all other routes at the end of `out`.
fn push_last_report(
    alloc: Global,
    out: &mut Vec<u8>,
    name: &[u8],
    size: u32,
    parts: &[RoutePart],
) -> Result<(), AllocError>
    ensures { OnOk result (out.new.items ≡ out.old.items ++ spec.last_report name.now size parts.now) }
{
    let mut words = Vec::new(alloc);
    push_last_words(&mut words, size, parts, count_undecided(parts))?;
    push_whole(alloc, out, name, answer_of(parts), words.as_slice())
}

/// The reports on parts of the routes, as many as are shown, and those on the whole comparison.
fn parts_reports(
    alloc: Global,
    name: &[u8],
    size: u32,
    parts: &[RoutePart],
) -> Result<Vec<u8>, AllocError>
    ensures { IfOk result (λ text. text.items ≡ spec.parts_reports name.now size parts.now) }
{
    let mut out = Vec::new(alloc);
    push_part_reports(alloc, &mut out, shown_parts(parts))?;
    push_hidden_report(alloc, &mut out, name, answer_of(parts), hidden_count(parts))?;
    push_last_report(alloc, &mut out, name, size, parts)?;
    Ok(out)
}

/// What is written of parts of the routes of domains of `size` nodes, where the newer filter has this name.
pub(crate) fn parts_in(
    alloc: Global,
    format: Format,
    name: &[u8],
    size: u32,
    parts: &[RoutePart],
) -> Result<Vec<u8>, AllocError>
    ensures { IfOk result (λ text. text.items ≡ spec.parts_in format name.now size parts.now) }
{
    match format {
        Format::Text => parts_text(alloc, size, parts),
        Format::Json => parts_reports(alloc, name, size, parts),
    }
}
