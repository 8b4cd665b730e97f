//! `ncroute test`: whether a filter says of routes what the tests of a file say.
//!
//! **A test that is undecided is `not ok` in the stream, as one that does not hold.** A build is to go on only with what is known. The exit status
//! tells the two apart.
//!
//! **The tests of a file are all run before their lines are written**, so that a refused allocation leaves nothing written of them.
//!
//! **A test file that is refused or not read, or whose filter is, stands in the stream as one test that does not hold.** It has its name and the
//! reason, and the files behind it are run: a harness takes the stream for failed, and one bad file hides no other. Its status is 3, too. The reason
//! is in words, whatever `--explain` says: that is about standard error, and the stream is for people.
ghost use Rattle.std.specs.Prelude.{◌≡◌, ◌+◌, ◌<◌, ◌≤◌, ◌^◌, IfOk, length, map, true, vec_len};
ghost use Rattle.filter_code.specs.Limits.{largest_size};
ghost use Rattle.filter_reports.specs.Notices.{named};
ghost use Rattle.filter_reports.specs.Reports.{report_of};
ghost use Rattle.filter_checks.specs.Faults.{fault_text as fault_words};
ghost use Rattle.filter_checks.specs.Files.{file_view, test_view};
ghost use Rattle.filter_checks.specs.Testing as spec;

use crate::faults::fault_text;
use crate::results::{results_in, skipped_in};
use crate::tap::{count_undecided, count_wrong, failures_of};
use crate::test_file::{Test, TestFile, TestFileFault};
use filter_code::Code;
use filter_diff::{ExpectationResult, check_expectation};
use filter_reports::{FAILED, FAULT, NamedText, Report, Wording, refusal_notice, verified_filter};
use filter_source::{Diagnosis, Failure};
use filter_verifier::Verified;
use report_formats::TestOptions;
use std::alloc::{AllocError, Global};

/// A test that was run.
#[derive(Drop)]
pub struct RanTest {
    /// The number of its line, counted from 1.
    pub number: usize,
    /// Its line.
    pub line: Vec<u8>,
    /// What was found.
    pub checked: ExpectationResult,
}

/// The report of `test` on a file, which is one part of the stream of all files.
#[derive(Drop)]
pub struct TestReport {
    /// What is written and told of its tests. The exit status is 1 where one of them does not hold, and otherwise 3 where one is not decided.
    pub report: Report,
    /// How many tests the stream has then.
    pub count: u64,
}

/// Runs a test.
fn run_test(
    alloc: Global,
    code: &Code,
    size: u32,
    limit: u64,
    test: &Test,
) -> Result<RanTest, AllocError>
    requires { size ≤ largest_size }
    ensures { IfOk result (λ ran. spec.IsRun code.now size limit (test_view test.now) ran) }
{
    let checked = check_expectation(alloc, code, &test.expected, size, limit)?;
    Ok(RanTest {
        number: test.number,
        line: Vec::from_slice(alloc, test.line.as_slice())?,
        checked,
    })
}

/// Runs tests, in order.
fn run_all(
    alloc: Global,
    code: &Code,
    size: u32,
    limit: u64,
    tests: &[Test],
) -> Result<Vec<RanTest>, AllocError>
    requires { size ≤ largest_size }
    ensures run { IfOk result (λ all. spec.AreRun code.now size limit (map test_view tests.now) all.items) }
    ensures count { IfOk result (λ all. vec_len all ≡ length tests.now) }
{
    let mut all = Vec::new(alloc);
    for test in tests {
        let ran = run_test(alloc, code, size, limit, test)?;
        all.push(ran)?;
    }
    Ok(all)
}

/// The exit status by how many tests do not hold, and of how many it is not decided.
fn status_of_tests(wrong: usize, undecided: usize) -> u8
    ensures { result ≡ spec.status_of_tests wrong undecided }
{
    if wrong > 0 {
        FAILED
    } else if undecided > 0 {
        FAULT
    } else {
        0
    }
}

/// The report on tests that were run, before which the stream has so many others.
fn report_on(
    alloc: Global,
    how: TestOptions,
    before: u64,
    name: &[u8],
    all: &[RanTest],
) -> Result<Report, AllocError>
    requires { before + length all.now < 2 ^ 64 }
    ensures { IfOk result (λ report. report_of report ≡ spec.report_on how before name.now all.now) }
{
    let out = results_in(alloc, how.format, name, before, all)?;
    let err = failures_of(alloc, how.is_explained, name, all)?;
    Ok(Report {
        out,
        err,
        status: status_of_tests(count_wrong(all), count_undecided(all)),
    })
}

/// Runs the tests of a file by the code of its filter, and reports what is found.
fn run_tests(
    alloc: Global,
    how: TestOptions,
    before: u64,
    code: &Verified,
    name: &[u8],
    file: &TestFile,
) -> Result<TestReport, AllocError>
    requires size { code.now.size ≡ file.now.size }
    requires fits { before + length file.now.tests.items < 2 ^ 64 }
    ensures { IfOk result (λ made. spec.RunsTests how before code.now.program name.now (file_view file.now) (report_of made.report) made.count) }
{
    let tests = file.tests.as_slice();
    let all = run_all(alloc, code.code(), code.size(), how.limit, tests)?;
    Ok(TestReport {
        report: report_on(alloc, how, before, name, all.as_slice())?,
        count: before + tests.len() as u64,
    })
}

/// The report on a file of this name whose tests were not run, which people are told in `told`. The first line of `why` says the reason. In the
/// stream that is one test, and it is not decided.
pub fn skipped_tests(
    alloc: Global,
    how: TestOptions,
    before: u64,
    name: &[u8],
    told: &[u8],
    why: &[u8],
) -> Result<TestReport, AllocError>
    requires { before + 1 < 2 ^ 64 }
    ensures { IfOk result (λ made. spec.SkipsTests how before name.now told.now why.now (report_of made.report) made.count) }
{
    let count = before + 1;
    let out = skipped_in(alloc, how.format, count, name, why)?;
    Ok(TestReport {
        report: Report {
            out,
            err: Vec::from_slice(alloc, told)?,
            status: FAULT,
        },
        count,
    })
}

/// The report on a text of this name that is no test file.
pub fn faulty_tests(
    alloc: Global,
    how: TestOptions,
    before: u64,
    name: &[u8],
    why: TestFileFault,
) -> Result<TestReport, AllocError>
    requires { before + 1 < 2 ^ 64 }
    ensures { IfOk result (λ made. spec.SkipsTests how before name.now (fault_words how.is_explained name.now why) (fault_words true name.now why)
        (report_of made.report) made.count) }
{
    let told = fault_text(alloc, how.is_explained, name, why)?;
    let words = fault_text(alloc, true, name, why)?;
    skipped_tests(alloc, how, before, name, told.as_slice(), words.as_slice())
}

/// The report on a file whose filter is refused.
fn refused_tests(
    alloc: Global,
    how: TestOptions,
    before: u64,
    name: &[u8],
    filter: &NamedText<'_>,
    why: &Diagnosis,
) -> Result<TestReport, AllocError>
    requires { before + 1 < 2 ^ 64 }
    ensures { IfOk result (λ made. spec.RefusesTests how before name.now (named filter.now) why.now (report_of made.report) made.count) }
{
    let told = refusal_notice(alloc, Wording::words_or_line(how.is_explained), filter, why)?;
    let words = refusal_notice(alloc, Wording::Words, filter, why)?;
    skipped_tests(alloc, how, before, name, told.as_slice(), words.as_slice())
}

/// The report of `test` on a file whose filter a text spells, before which the stream has `before` other tests: the lines of each test. People are
/// told of a test that does not hold, under the name of the test file, in words where `how` says so; and of a filter that is refused, under its own
/// name, and then no test is run. Each test tries at most so many classes of routes as `how` says.
pub fn test_report(
    alloc: Global,
    how: TestOptions,
    before: u64,
    name: &[u8],
    file: &TestFile,
    filter: &NamedText<'_>,
) -> Result<TestReport, AllocError>
    requires one { before + 1 < 2 ^ 64 }
    requires fits { before + length file.now.tests.items < 2 ^ 64 }
    ensures { IfOk result (λ made. spec.IsTestReport how before name.now (file_view file.now) (named filter.now) (report_of made.report) made.count) }
{
    match verified_filter(alloc, filter.text, file.size) {
        Ok(code) => run_tests(alloc, how, before, &code, name, file),
        Err(Failure::Refused(why)) => refused_tests(alloc, how, before, name, filter, &why),
        Err(Failure::Memory) => Err(AllocError),
    }
}
