//! Warnings as they are written: in lines for people, or in lines of JSON.
ghost use Rattle.std.specs.Prelude.{◌≡◌, ◌++◌, IfOk, OnOk};
ghost use Rattle.report_formats.specs.Findings.{finding_line};
ghost use Rattle.filter_lint.specs.WarningLines as spec;

use crate::host_bits::HostBits;
use crate::warning::{Warning, WarningCause};
use crate::warning_lines::{
    push_host_bits, push_host_bits_words, push_undecided, push_unordered, push_warning, push_words,
};
use prefix_patterns::PatternSet;
use refusal_words::place_in;
use report_formats::{Finding, Format, Severity, push_finding};
use std::alloc::{AllocError, Global};

/// What is said of a cause.
fn words_of(alloc: Global, sets: &[PatternSet], cause: WarningCause) -> Result<Vec<u8>, AllocError>
    ensures { IfOk result (λ words. words.items ≡ spec.words sets.now cause) }
{
    let mut words = Vec::new(alloc);
    push_words(alloc, &mut words, sets, cause)?;
    Ok(words)
}

/// Puts the report on what was found at a byte of a text, under a code, at the end of `out`.
fn push_found_at<'a>(
    alloc: Global,
    out: &mut Vec<u8>,
    name: &'a [u8],
    text: &[u8],
    byte: usize,
    code: &'a [u8],
    words: &'a [u8],
) -> Result<(), AllocError>
    ensures { OnOk result (out.new.items ≡ out.old.items ++ finding_line (spec.found_view name.now text.now byte code.now words.now)) }
{
    let place = place_in(text, byte);
    push_finding(
        alloc,
        out,
        &Finding {
            severity: Severity::Warning,
            code: Some(code),
            file: name,
            line: Some(place.line),
            column: Some(place.column),
            words,
        },
    )
}

/// Puts the report on a warning at the end of `out`.
fn push_warning_report(
    alloc: Global,
    out: &mut Vec<u8>,
    name: &[u8],
    text: &[u8],
    sets: &[PatternSet],
    warning: &Warning,
) -> Result<(), AllocError>
    ensures { OnOk result (out.new.items ≡ out.old.items ++ finding_line (spec.warning_view name.now text.now sets.now warning.now)) }
{
    let words = words_of(alloc, sets, warning.cause)?;
    let (byte, code) = (warning.byte, warning.cause.code());
    push_found_at(alloc, out, name, text, byte, code, words.as_slice())
}

/// Puts a warning at the end of `out`.
pub(crate) fn push_found(
    alloc: Global,
    out: &mut Vec<u8>,
    format: Format,
    name: &[u8],
    text: &[u8],
    sets: &[PatternSet],
    warning: &Warning,
) -> Result<(), AllocError>
    ensures { OnOk result (out.new.items ≡ out.old.items ++ spec.warning_in format name.now text.now sets.now warning.now) }
{
    match format {
        Format::Text => push_warning(alloc, out, name, text, sets, warning),
        Format::Json => push_warning_report(alloc, out, name, text, sets, warning),
    }
}

/// What is said of a prefix with host bits.
fn host_bits_words_of(alloc: Global, text: &[u8], found: &HostBits) -> Result<Vec<u8>, AllocError>
    ensures { IfOk result (λ words. words.items ≡ spec.host_bits_words text.now found.now) }
{
    let mut words = Vec::new(alloc);
    push_host_bits_words(alloc, &mut words, text, found)?;
    Ok(words)
}

/// Puts the report on a prefix with host bits at the end of `out`.
fn push_host_bits_report(
    alloc: Global,
    out: &mut Vec<u8>,
    name: &[u8],
    text: &[u8],
    found: &HostBits,
) -> Result<(), AllocError>
    ensures { OnOk result (out.new.items ≡ out.old.items ++ finding_line (spec.host_bits_view name.now text.now found.now)) }
{
    let words = host_bits_words_of(alloc, text, found)?;
    let byte = found.token.from;
    push_found_at(alloc, out, name, text, byte, b"W5", words.as_slice())
}

/// Puts a prefix with host bits at the end of `out`.
pub(crate) fn push_found_host_bits(
    alloc: Global,
    out: &mut Vec<u8>,
    format: Format,
    name: &[u8],
    text: &[u8],
    found: &HostBits,
) -> Result<(), AllocError>
    ensures { OnOk result (out.new.items ≡ out.old.items ++ spec.host_bits_in format name.now text.now found.now) }
{
    match format {
        Format::Text => push_host_bits(alloc, out, name, text, found),
        Format::Json => push_host_bits_report(alloc, out, name, text, found),
    }
}

/// What is said of a file of which not all routes were tried.
#[tactic(auto, unfolding(crate::specs::WarningLines::not_tried_words))]
fn not_tried_words() -> &'static [u8]
    ensures { result.now ≡ spec.not_tried_words }
{
    b"not all routes were tried, so W1, W2 and W8 were not looked for"
}

/// What is said of a file of which not all metrics were tried.
#[tactic(auto, unfolding(crate::specs::WarningLines::not_ordered_words))]
fn not_ordered_words() -> &'static [u8]
    ensures { result.now ≡ spec.not_ordered_words }
{
    b"not all metrics of all routes were tried, so W9 was not looked for"
}

/// Puts the report that says so in these words at the end of `out`, where not all were.
fn push_undecided_report<'a>(
    alloc: Global,
    out: &mut Vec<u8>,
    name: &'a [u8],
    is_complete: bool,
    words: &'a [u8],
) -> Result<(), AllocError>
    ensures { OnOk result (out.new.items ≡ out.old.items ++ spec.undecided_report name.now is_complete words.now) }
{
    if is_complete {
        return Ok(());
    }
    push_finding(
        alloc,
        out,
        &Finding {
            severity: Severity::Undecided,
            code: None,
            file: name,
            line: None,
            column: None,
            words,
        },
    )
}

/// Puts what says that not all routes were tried at the end of `out`, where not all were.
pub(crate) fn push_found_undecided(
    alloc: Global,
    out: &mut Vec<u8>,
    format: Format,
    name: &[u8],
    is_complete: bool,
) -> Result<(), AllocError>
    ensures { OnOk result (out.new.items ≡ out.old.items ++ spec.undecided_in format name.now is_complete) }
{
    match format {
        Format::Text => push_undecided(alloc, out, name, is_complete),
        Format::Json => { push_undecided_report(alloc, out, name, is_complete, not_tried_words()) }
    }
}

/// Puts what says that not all metrics were tried at the end of `out`, where not all were.
pub(crate) fn push_found_unordered(
    alloc: Global,
    out: &mut Vec<u8>,
    format: Format,
    name: &[u8],
    is_ordered: bool,
) -> Result<(), AllocError>
    ensures { OnOk result (out.new.items ≡ out.old.items ++ spec.unordered_in format name.now is_ordered) }
{
    match format {
        Format::Text => push_unordered(alloc, out, name, is_ordered),
        Format::Json => { push_undecided_report(alloc, out, name, is_ordered, not_ordered_words()) }
    }
}
