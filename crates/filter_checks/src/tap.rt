//! The lines that tell whether tests hold.
//!
//! **The output is that of the Test Anything Protocol**, which harnesses read. The plan comes last, since the tests of all files are numbered on,
//! and how many there are is known at the end.
//!
//! **In what is said of a file whose tests were not run a `#` stands behind a backslash.** The words may have what stands in a file. Behind a bare
//! `#` a harness takes `TODO` for leave to fail.
ghost use Rattle.std.specs.Prelude.{◌≡◌, ◌+◌, ◌<◌, ◌^◌, ◌++◌, IfOk, OnOk, count_by, length};
ghost use Rattle.prefix_patterns.specs.Spelling.{prefix_text};
ghost use Rattle.filter_checks.specs.Tap as spec;

use crate::testing::RanTest;
use filter_diff::{Counterexample, ExpectationResult};
use filter_differences::push_outcome;
use line_protocol::push_decimal;
use refusal_words::{push_prefix, push_shown};
use std::alloc::{AllocError, Global};

/// How the line of a test begins.
fn result_word(checked: &ExpectationResult) -> &'static [u8]
    ensures { result.now ≡ spec.result_word checked.now }
{
    match checked {
        ExpectationResult::Holds => b"ok ",
        ExpectationResult::Fails(_) | ExpectationResult::Undecided => b"not ok ",
    }
}

/// Puts a route and its verdict at the end of `out`.
pub(crate) fn push_found(
    alloc: Global,
    out: &mut Vec<u8>,
    found: &Counterexample,
) -> Result<(), AllocError>
    ensures { OnOk result (out.new.items ≡ out.old.items ++ spec.found_text found.now) }
{
    push_prefix(alloc, out, found.prefix)?;
    out.extend_from_slice(b" ")?;
    push_decimal(out, u64::from(found.metric))?;
    out.extend_from_slice(b" -> ")?;
    push_outcome(out, found.outcome)
}

/// Puts the comment behind the line of a test at the end of `out`, if the test does not hold.
fn push_note(
    alloc: Global,
    out: &mut Vec<u8>,
    checked: &ExpectationResult,
) -> Result<(), AllocError>
    ensures { OnOk result (out.new.items ≡ out.old.items ++ spec.note checked.now) }
{
    match checked {
        ExpectationResult::Holds => Ok(()),
        ExpectationResult::Fails(found) => {
            out.extend_from_slice(b"# ")?;
            push_found(alloc, out, found)?;
            out.push(b'\n')?;
            Ok(())
        }
        ExpectationResult::Undecided => out.extend_from_slice(b"# undecided\n"),
    }
}

/// Puts the lines of a test at the end of `out`, by its number in the stream.
fn push_test(alloc: Global, out: &mut Vec<u8>, number: u64, ran: &RanTest) -> Result<(), AllocError>
    ensures { OnOk result (out.new.items ≡ out.old.items ++ spec.test_lines number ran.now) }
{
    out.extend_from_slice(result_word(&ran.checked))?;
    push_decimal(out, number)?;
    out.extend_from_slice(b" - ")?;
    out.extend_from_slice(ran.line.as_slice())?;
    out.push(b'\n')?;
    push_note(alloc, out, &ran.checked)
}

/// The lines of tests, before which the stream has so many others.
pub(crate) fn all_lines(alloc: Global, before: u64, all: &[RanTest]) -> Result<Vec<u8>, AllocError>
    requires { before + length all.now < 2 ^ 64 }
    ensures { IfOk result (λ out. out.items ≡ spec.all_lines before all.now) }
{
    let mut out = Vec::new(alloc);
    let mut number = before;
    for ran in all {
        number += 1;
        push_test(alloc, &mut out, number, ran)?;
    }
    Ok(out)
}

/// Puts where a test stands at the end of `out`.
fn push_place(alloc: Global, out: &mut Vec<u8>, name: &[u8], line: usize) -> Result<(), AllocError>
    ensures { OnOk result (out.new.items ≡ out.old.items ++ spec.place_text name.now line) }
{
    push_shown(alloc, out, name)?;
    out.extend_from_slice(b":")?;
    push_decimal(out, line as u64)?;
    out.extend_from_slice(b": ")
}

/// Puts what people are told of a test at the end of `out`, if it does not hold.
fn push_failure(
    alloc: Global,
    out: &mut Vec<u8>,
    name: &[u8],
    ran: &RanTest,
) -> Result<(), AllocError>
    ensures { OnOk result (out.new.items ≡ out.old.items ++ spec.failure_of name.now ran.now) }
{
    match &ran.checked {
        ExpectationResult::Holds => Ok(()),
        ExpectationResult::Fails(found) => {
            push_place(alloc, out, name, ran.number)?;
            out.extend_from_slice(b"does not hold: ")?;
            push_found(alloc, out, found)?;
            out.push(b'\n')?;
            Ok(())
        }
        ExpectationResult::Undecided => {
            push_place(alloc, out, name, ran.number)?;
            out.extend_from_slice(b"undecided\n")
        }
    }
}

/// What people are told of tests, where words are wanted.
pub(crate) fn failures_of(
    alloc: Global,
    is_explained: bool,
    name: &[u8],
    all: &[RanTest],
) -> Result<Vec<u8>, AllocError>
    ensures { IfOk result (λ out. out.items ≡ spec.failures_of is_explained name.now all.now) }
{
    let mut out = Vec::new(alloc);
    if !is_explained {
        return Ok(out);
    }
    for ran in all {
        push_failure(alloc, &mut out, name, ran)?;
    }
    Ok(out)
}

/// Whether a test does not hold.
fn is_wrong(ran: &RanTest) -> bool
    ensures { result ≡ spec.is_wrong ran.now }
{
    matches!(ran.checked, ExpectationResult::Fails(_))
}

/// Whether it is not decided that a test holds.
fn is_undecided(ran: &RanTest) -> bool
    ensures { result ≡ spec.is_undecided ran.now }
{
    matches!(ran.checked, ExpectationResult::Undecided)
}

/// How many tests do not hold.
pub(crate) fn count_wrong(all: &[RanTest]) -> usize
    ensures { result ≡ count_by spec.is_wrong all.now }
{
    all.iter().filter(|ran| is_wrong(ran)).count()
}

/// Of how many it is not decided.
pub(crate) fn count_undecided(all: &[RanTest]) -> usize
    ensures { result ≡ count_by spec.is_undecided all.now }
{
    all.iter().filter(|ran| is_undecided(ran)).count()
}

/// Whether a byte means something else in a description than itself.
fn is_special(byte: u8) -> bool
    ensures { result ≡ spec.is_special byte }
{
    byte == b'#' || byte == b'\\'
}

/// Puts a byte at the end of `out`, as it stands in a description.
fn push_escaped_byte(out: &mut Vec<u8>, byte: u8) -> Result<(), AllocError>
    ensures { OnOk result (out.new.items ≡ out.old.items ++ spec.escaped_byte byte) }
{
    if is_special(byte) {
        return out.extend_from_slice(&[b'\\', byte]);
    }
    out.push(byte)?;
    Ok(())
}

/// Puts a text at the end of `out`, as it stands in a description.
fn push_escaped(out: &mut Vec<u8>, text: &[u8]) -> Result<(), AllocError>
    ensures { OnOk result (out.new.items ≡ out.old.items ++ spec.escaped text.now) }
{
    for byte in text {
        push_escaped_byte(out, *byte)?;
    }
    Ok(())
}

/// The name of a file as it is shown, and what is said of it.
fn said_of(alloc: Global, name: &[u8], words: &[u8]) -> Result<Vec<u8>, AllocError>
    ensures { IfOk result (λ said. said.items ≡ spec.said_of name.now words.now) }
{
    let mut said = Vec::new(alloc);
    push_shown(alloc, &mut said, name)?;
    said.extend_from_slice(b": ")?;
    said.extend_from_slice(words)?;
    Ok(said)
}

/// The line in place of the tests of a file of this name that were not run, by its number in the stream and by what is said of the file.
pub(crate) fn skipped_line(
    alloc: Global,
    number: u64,
    name: &[u8],
    words: &[u8],
) -> Result<Vec<u8>, AllocError>
    ensures { IfOk result (λ out. out.items ≡ spec.skipped number name.now words.now) }
{
    let said = said_of(alloc, name, words)?;
    let mut out = Vec::new(alloc);
    out.extend_from_slice(b"not ok ")?;
    push_decimal(&mut out, number)?;
    out.extend_from_slice(b" - ")?;
    push_escaped(&mut out, said.as_slice())?;
    out.push(b'\n')?;
    Ok(out)
}

/// The last line of the stream, by the number of its tests.
pub(crate) fn plan_line(alloc: Global, count: u64) -> Result<Vec<u8>, AllocError>
    ensures { IfOk result (λ out. out.items ≡ spec.plan count) }
{
    let mut out = Vec::new(alloc);
    out.extend_from_slice(b"1..")?;
    push_decimal(&mut out, count)?;
    out.push(b'\n')?;
    Ok(out)
}
