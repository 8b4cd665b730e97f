//! The elements of JUnit's XML.
ghost use Rattle.std.specs.Prelude.{◌≡◌, ◌++◌, OnOk};
ghost use Rattle.report_formats.specs.Cases as spec;

use crate::escaping::push_attribute;
use std::alloc::{AllocError, Global};

/// What stands before all elements.
#[tactic(auto, unfolding(crate::specs::Cases::document_head))]
pub fn document_head() -> &'static [u8]
    ensures { result.now ≡ spec.document_head }
{
    b"<?xml version=\"1.0\" encoding=\"UTF-8\"?>\n<testsuites>\n<testsuite name=\"ncroute test\">\n"
}

/// What stands behind all elements.
#[tactic(auto, unfolding(crate::specs::Cases::document_end))]
pub fn document_end() -> &'static [u8]
    ensures { result.now ≡ spec.document_end }
{
    b"</testsuite>\n</testsuites>\n"
}

/// What stands before the file of a test.
#[tactic(auto, unfolding(crate::specs::Cases::before_file))]
fn before_file() -> &'static [u8]
    ensures { result.now ≡ spec.before_file }
{
    b"<testcase classname=\""
}

/// What stands between the file of a test and its name.
#[tactic(auto, unfolding(crate::specs::Cases::before_name))]
fn before_name() -> &'static [u8]
    ensures { result.now ≡ spec.before_name }
{
    b"\" name=\""
}

/// What stands behind the name of a test that holds.
#[tactic(auto, unfolding(crate::specs::Cases::passed_end))]
fn passed_end() -> &'static [u8]
    ensures { result.now ≡ spec.passed_end }
{
    b"\"/>\n"
}

/// What stands between the name of a test that does not hold and what was found.
#[tactic(auto, unfolding(crate::specs::Cases::before_failure))]
fn before_failure() -> &'static [u8]
    ensures { result.now ≡ spec.before_failure }
{
    b"\"><failure message=\""
}

/// What stands between the name of a test of which nothing is known and why.
#[tactic(auto, unfolding(crate::specs::Cases::before_error))]
fn before_error() -> &'static [u8]
    ensures { result.now ≡ spec.before_error }
{
    b"\"><error message=\""
}

/// What stands behind either.
#[tactic(auto, unfolding(crate::specs::Cases::case_end))]
fn case_end() -> &'static [u8]
    ensures { result.now ≡ spec.case_end }
{
    b"\"/></testcase>\n"
}

/// Puts the beginning of a test's element at the end of `out`.
fn push_named(alloc: Global, out: &mut Vec<u8>, file: &[u8], name: &[u8]) -> Result<(), AllocError>
    ensures { OnOk result (out.new.items ≡ out.old.items ++ spec.named_case file.now name.now) }
{
    out.extend_from_slice(before_file())?;
    push_attribute(alloc, out, file)?;
    out.extend_from_slice(before_name())?;
    push_attribute(alloc, out, name)
}

/// Puts the element of a test that holds at the end of `out`.
pub fn push_passed(
    alloc: Global,
    out: &mut Vec<u8>,
    file: &[u8],
    name: &[u8],
) -> Result<(), AllocError>
    ensures { OnOk result (out.new.items ≡ out.old.items ++ spec.passed_case file.now name.now) }
{
    push_named(alloc, out, file, name)?;
    out.extend_from_slice(passed_end())
}

/// Puts the element of a test that does not hold at the end of `out`, with what was found.
pub fn push_failed(
    alloc: Global,
    out: &mut Vec<u8>,
    file: &[u8],
    name: &[u8],
    found: &[u8],
) -> Result<(), AllocError>
    ensures { OnOk result (out.new.items ≡ out.old.items ++ spec.failed_case file.now name.now found.now) }
{
    push_named(alloc, out, file, name)?;
    out.extend_from_slice(before_failure())?;
    push_attribute(alloc, out, found)?;
    out.extend_from_slice(case_end())
}

/// Puts the element of a test of which nothing is known at the end of `out`, with the reason.
pub fn push_broken(
    alloc: Global,
    out: &mut Vec<u8>,
    file: &[u8],
    name: &[u8],
    why: &[u8],
) -> Result<(), AllocError>
    ensures { OnOk result (out.new.items ≡ out.old.items ++ spec.broken_case file.now name.now why.now) }
{
    push_named(alloc, out, file, name)?;
    out.extend_from_slice(before_error())?;
    push_attribute(alloc, out, why)?;
    out.extend_from_slice(case_end())
}
