//! What comes of tests, as it is written: in the lines of the Test Anything Protocol, in lines of JSON, or in JUnit's XML.
//!
//! **JUnit's document has no counts at its head.** They are known at its end, and build servers count the tests themselves.
ghost use Rattle.std.specs.Prelude.{◌≡◌, ◌+◌, ◌<◌, ◌^◌, ◌++◌, IfOk, OnOk, flat_map, length};
ghost use Rattle.report_formats.specs.Cases.{broken_case};
ghost use Rattle.report_formats.specs.Findings.{finding_line};
ghost use Rattle.filter_checks.specs.Results as spec;

use crate::tap::{all_lines, plan_line, push_found, skipped_line};
use crate::testing::RanTest;
use filter_diff::{Counterexample, ExpectationResult};
use refusal_words::place_in;
use report_formats::{
    Finding, Severity, TestFormat, document_end, document_head, push_broken, push_failed,
    push_finding, push_passed,
};
use std::alloc::{AllocError, Global};

/// How much is wrong with a test.
fn severity_of(checked: &ExpectationResult) -> Severity
    ensures { result ≡ spec.severity_of checked.now }
{
    match checked {
        ExpectationResult::Holds => Severity::Ok,
        ExpectationResult::Fails(_) => Severity::Error,
        ExpectationResult::Undecided => Severity::Undecided,
    }
}

/// What is said of a test that does not hold.
fn failure_words(alloc: Global, found: &Counterexample) -> Result<Vec<u8>, AllocError>
    ensures { IfOk result (λ words. words.items ≡ spec.failure_words found.now) }
{
    let mut words = Vec::new(alloc);
    words.extend_from_slice(b"does not hold: ")?;
    push_found(alloc, &mut words, found)?;
    Ok(words)
}

/// Puts what is said of a test behind its line at the end of `out`.
fn push_said(
    alloc: Global,
    out: &mut Vec<u8>,
    checked: &ExpectationResult,
) -> Result<(), AllocError>
    ensures { OnOk result (out.new.items ≡ out.old.items ++ spec.said checked.now) }
{
    match checked {
        ExpectationResult::Holds => Ok(()),
        ExpectationResult::Fails(found) => {
            let words = failure_words(alloc, found)?;
            out.extend_from_slice(b": ")?;
            out.extend_from_slice(words.as_slice())
        }
        ExpectationResult::Undecided => out.extend_from_slice(b": undecided"),
    }
}

/// The line of a test, and what is said of it.
fn words_of(alloc: Global, ran: &RanTest) -> Result<Vec<u8>, AllocError>
    ensures { IfOk result (λ words. words.items ≡ spec.result_words ran.now) }
{
    let mut words = Vec::new(alloc);
    words.extend_from_slice(ran.line.as_slice())?;
    push_said(alloc, &mut words, &ran.checked)?;
    Ok(words)
}

/// Puts a report on a line of a file at the end of `out`.
fn push_report_on_line<'a>(
    alloc: Global,
    out: &mut Vec<u8>,
    name: &'a [u8],
    severity: Severity,
    line: usize,
    words: &'a [u8],
) -> Result<(), AllocError>
    ensures { OnOk result (out.new.items ≡ out.old.items ++ finding_line (spec.view_on_line severity name.now line words.now)) }
{
    push_finding(
        alloc,
        out,
        &Finding {
            severity,
            code: None,
            file: name,
            line: Some(line),
            column: None,
            words,
        },
    )
}

/// Puts the report on a test at the end of `out`.
fn push_test_report(
    alloc: Global,
    out: &mut Vec<u8>,
    name: &[u8],
    ran: &RanTest,
) -> Result<(), AllocError>
    ensures { OnOk result (out.new.items ≡ out.old.items ++ spec.test_report name.now ran.now) }
{
    let words = words_of(alloc, ran)?;
    let severity = severity_of(&ran.checked);
    push_report_on_line(alloc, out, name, severity, ran.number, words.as_slice())
}

/// Puts the reports on tests at the end of `out`.
fn push_reports(
    alloc: Global,
    out: &mut Vec<u8>,
    name: &[u8],
    all: &[RanTest],
) -> Result<(), AllocError>
    ensures { OnOk result (out.new.items ≡ out.old.items ++ flat_map (spec.test_report name.now) all.now) }
{
    for ran in all {
        push_test_report(alloc, out, name, ran)?;
    }
    Ok(())
}

/// Puts the element of a test that does not hold at the end of `out`.
fn push_failure(
    alloc: Global,
    out: &mut Vec<u8>,
    name: &[u8],
    line: &[u8],
    found: &Counterexample,
) -> Result<(), AllocError>
    ensures { OnOk result (out.new.items ≡ out.old.items ++ spec.failure_case name.now line.now found.now) }
{
    let words = failure_words(alloc, found)?;
    push_failed(alloc, out, name, line, words.as_slice())
}

/// Puts the element of a test at the end of `out`.
fn push_case(alloc: Global, out: &mut Vec<u8>, name: &[u8], ran: &RanTest) -> Result<(), AllocError>
    ensures { OnOk result (out.new.items ≡ out.old.items ++ spec.case_of name.now ran.now) }
{
    let line = ran.line.as_slice();
    match &ran.checked {
        ExpectationResult::Holds => push_passed(alloc, out, name, line),
        ExpectationResult::Fails(found) => push_failure(alloc, out, name, line, found),
        ExpectationResult::Undecided => push_broken(alloc, out, name, line, b"undecided"),
    }
}

/// Puts the elements of tests at the end of `out`.
fn push_cases(
    alloc: Global,
    out: &mut Vec<u8>,
    name: &[u8],
    all: &[RanTest],
) -> Result<(), AllocError>
    ensures { OnOk result (out.new.items ≡ out.old.items ++ flat_map (spec.case_of name.now) all.now) }
{
    for ran in all {
        push_case(alloc, out, name, ran)?;
    }
    Ok(())
}

/// What is written of the tests of a file of this name, before which the stream has so many others.
pub(crate) fn results_in(
    alloc: Global,
    format: TestFormat,
    name: &[u8],
    before: u64,
    all: &[RanTest],
) -> Result<Vec<u8>, AllocError>
    requires { before + length all.now < 2 ^ 64 }
    ensures { IfOk result (λ out. out.items ≡ spec.results_in format name.now before all.now) }
{
    let mut out = Vec::new(alloc);
    match format {
        TestFormat::Tap => return all_lines(alloc, before, all),
        TestFormat::Json => push_reports(alloc, &mut out, name, all)?,
        TestFormat::Junit => push_cases(alloc, &mut out, name, all)?,
    }
    Ok(out)
}

/// What is said of a file whose tests were not run, by what people are told of it: the first line of that.
fn not_run_words(alloc: Global, diagnosis: &[u8]) -> Result<Vec<u8>, AllocError>
    ensures { IfOk result (λ words. words.items ≡ spec.not_run_words diagnosis.now) }
{
    let mut words = Vec::new(alloc);
    words.extend_from_slice(b"not run: ")?;
    words.extend_from_slice(place_in(diagnosis, 0).behind)?;
    Ok(words)
}

/// The report on a file of this name whose tests were not run.
fn skipped_report<'a>(alloc: Global, name: &'a [u8], words: &'a [u8]) -> Result<Vec<u8>, AllocError>
    ensures { IfOk result (λ out. out.items ≡ finding_line (spec.skipped_view name.now words.now)) }
{
    let mut out = Vec::new(alloc);
    push_finding(
        alloc,
        &mut out,
        &Finding {
            severity: Severity::Undecided,
            code: None,
            file: name,
            line: None,
            column: None,
            words,
        },
    )?;
    Ok(out)
}

/// Its element.
fn skipped_case(alloc: Global, name: &[u8], words: &[u8]) -> Result<Vec<u8>, AllocError>
    ensures { IfOk result (λ out. out.items ≡ broken_case name.now name.now words.now) }
{
    let mut out = Vec::new(alloc);
    push_broken(alloc, &mut out, name, name, words)?;
    Ok(out)
}

/// What is written in place of the tests of a file of this name that were not run, by its number in the stream and by what people are told of the
/// reason.
pub(crate) fn skipped_in(
    alloc: Global,
    format: TestFormat,
    number: u64,
    name: &[u8],
    diagnosis: &[u8],
) -> Result<Vec<u8>, AllocError>
    ensures { IfOk result (λ out. out.items ≡ spec.skipped_in format number name.now diagnosis.now) }
{
    let words = not_run_words(alloc, diagnosis)?;
    match format {
        TestFormat::Tap => skipped_line(alloc, number, name, words.as_slice()),
        TestFormat::Json => skipped_report(alloc, name, words.as_slice()),
        TestFormat::Junit => skipped_case(alloc, name, words.as_slice()),
    }
}

/// The first line of the Test Anything Protocol.
#[tactic(auto, unfolding(crate::specs::Results::version_line))]
fn version_line() -> &'static [u8]
    ensures { result.now ≡ spec.version_line }
{
    b"TAP version 13\n"
}

/// What is written before all tests.
pub fn head_in(format: TestFormat) -> &'static [u8]
    ensures { result.now ≡ spec.head_in format }
{
    match format {
        TestFormat::Tap => version_line(),
        TestFormat::Json => b"",
        TestFormat::Junit => document_head(),
    }
}

/// What is written behind all tests, by their number.
pub fn end_in(alloc: Global, format: TestFormat, count: u64) -> Result<Vec<u8>, AllocError>
    ensures { IfOk result (λ out. out.items ≡ spec.end_in format count) }
{
    match format {
        TestFormat::Tap => plan_line(alloc, count),
        TestFormat::Json => Ok(Vec::new(alloc)),
        TestFormat::Junit => Vec::from_slice(alloc, document_end()),
    }
}
