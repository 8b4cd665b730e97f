//! A test file is read: a filter, the size of a domain, and tests.
//!
//! **A test file names its filter and the size**, so that it can stand beside the filter and be run without further words. The filter's name is
//! taken from the folder of the test file, so that a build may run it from anywhere.
//!
//! **A test of one route is a test of a pattern** that matches one prefix, with one metric. So there is one search and one promise for both, and a
//! route that shows why a test does not hold is printed in the form of a test.
ghost use Rattle.std.specs.Prelude.{◌≡◌, ◌+◌, ◌<◌, ◌≤◌, ◌^◌, ◌++◌, ◌∷◌, [], Ok, OnOk, MatchResult, length, map};
ghost use Rattle.std.specs.Option.{option_map};
ghost use Rattle.std.specs.Str.Lines.{lines};
ghost use Rattle.filter_code.specs.Limits.{largest_size};
ghost use Rattle.line_protocol.specs.Lines.{answerable_from};
ghost use Rattle.line_protocol.specs.Words.{words};
ghost use Rattle.filter_checks.specs.Files as spec;

use crate::keyword::TestKeyword;
use crate::lines::next_line;
use crate::reading::{first_keyword, first_number, first_word, no_more, test_in};
use filter_code::{LARGEST_SIZE, SMALLEST_SIZE};
use filter_diff::Expectation;
use filter_source::SOURCE_LIMIT;
use std::alloc::{AllocError, Global};

/// A test, and its line in the file.
#[derive(Drop)]
pub struct Test {
    /// The number of its line, counted from 1.
    pub number: usize,
    /// Its line.
    pub line: Vec<u8>,
    /// What it says.
    pub expected: Expectation,
}

/// A test file.
#[derive(Drop)]
pub struct TestFile {
    /// The name of the file that has the filter.
    pub filter: Vec<u8>,
    /// The number of nodes of the domain.
    pub size: u32,
    /// The tests, in order.
    pub tests: Vec<Test>,
}

/// Why a text is no test file.
#[derive(Clone, Copy)]
pub enum TestFileFault {
    /// The line of this number is none that may stand there.
    Line(usize),
    /// The text ends before its filter and its size are said.
    Ended,
    /// It has no test.
    NoTest,
    /// The name of the filter's file is not UTF-8.
    Name,
    /// It is longer than its limit.
    TooLong,
    /// Memory was refused.
    Memory,
}

impl From<AllocError> for TestFileFault {
    ghost use Rattle.filter_checks.specs.declared.test_file.TestFileFault.TheVariants.{Memory};

    ghost from_gives = { λ _ e. e ≡ Memory };

    fn from(_error: AllocError) -> TestFileFault {
        TestFileFault::Memory
    }
}

/// A word alone.
#[tactic(auto, unfolding(crate::specs::Files::only_word))]
fn only_word(line: &[u8]) -> Option<&[u8]>
    ensures { spec.only_word (words line.now) ≡ option_map (λ word. word.now) result }
{
    let (word, rest) = first_word(line)?;
    no_more(rest)?;
    Some(word)
}

/// The name that a line gives to the filter's file.
#[tactic(auto, unfolding(crate::specs::Files::filter_in))]
fn filter_in(line: &[u8]) -> Option<&[u8]>
    ensures { spec.filter_in (words line.now) ≡ option_map (λ name. name.now) result }
{
    let (keyword, rest) = first_keyword(line)?;
    match keyword {
        TestKeyword::Filter => only_word(rest),
        _ => None,
    }
}

/// The size of a domain alone.
#[tactic(auto, unfolding(crate::specs::Files::only_size))]
fn only_size(line: &[u8]) -> Option<u32>
    ensures { spec.only_size (words line.now) ≡ result }
{
    let (size, rest) = first_number(line, LARGEST_SIZE)?;
    no_more(rest)?;
    if SMALLEST_SIZE <= size {
        Some(size)
    } else {
        None
    }
}

/// The size that a line gives.
#[tactic(auto, unfolding(crate::specs::Files::size_in))]
fn size_in(line: &[u8]) -> Option<u32>
    ensures { spec.size_in (words line.now) ≡ result }
{
    let (keyword, rest) = first_keyword(line)?;
    match keyword {
        TestKeyword::Size => only_size(rest),
        _ => None,
    }
}

/// Adds a test to others.
fn add(
    alloc: Global,
    tests: &mut Vec<Test>,
    number: usize,
    line: &[u8],
    expected: Expectation,
) -> Result<(), AllocError>
    ensures { OnOk result (map spec.test_view tests.new.items
        ≡ map spec.test_view tests.old.items ++ record { number = number; line = line.now; expected = expected } ∷ []) }
{
    let line = Vec::from_slice(alloc, line)?;
    tests.push(Test {
        number,
        line,
        expected,
    })?;
    Ok(())
}

/// The tests of a text whose lines are numbered from `first`.
fn read_all(alloc: Global, size: u32, text: &[u8], first: usize) -> Result<Vec<Test>, TestFileFault>
    requires { first + length text.now < 2 ^ 64 }
    ensures { MatchResult result
        (λ tests. spec.tests_in size (answerable_from first (lines text.now)) ≡ Ok (map spec.test_view tests.items))
        (spec.IsFault (spec.tests_in size (answerable_from first (lines text.now)))) }
{
    let mut tests = Vec::new(alloc);
    let mut rest = text;
    let mut number = first;
    while let Some((at, line, later)) = next_line(rest, number) {
        let Some(expected) = test_in(line, size) else {
            return Err(TestFileFault::Line(at));
        };
        add(alloc, &mut tests, at, line, expected)?;
        rest = later;
        number = at + 1;
    }
    Ok(tests)
}

/// The test file with these tests, if there are any.
fn with_tests(
    alloc: Global,
    filter: &[u8],
    size: u32,
    tests: Vec<Test>,
) -> Result<TestFile, TestFileFault>
    ensures { MatchResult result
        (λ file. spec.with_tests filter.now size (Ok (map spec.test_view tests.items)) ≡ Ok (spec.file_view file))
        (spec.IsFault (spec.with_tests filter.now size (Ok (map spec.test_view tests.items)))) }
{
    if tests.is_empty() {
        return Err(TestFileFault::NoTest);
    }
    let filter = Vec::from_slice(alloc, filter)?;
    Ok(TestFile {
        filter,
        size,
        tests,
    })
}

/// The test file with this filter, whose size and tests, at least one, follow in a text whose lines are numbered from `first`.
fn read_named(
    alloc: Global,
    filter: &[u8],
    text: &[u8],
    first: usize,
) -> Result<TestFile, TestFileFault>
    requires { first + length text.now < 2 ^ 64 }
    ensures { MatchResult result
        (λ file. spec.rest_of filter.now (answerable_from first (lines text.now)) ≡ Ok (spec.file_view file))
        (spec.IsFault (spec.rest_of filter.now (answerable_from first (lines text.now)))) }
{
    let Some((at, line, later)) = next_line(text, first) else {
        return Err(TestFileFault::Ended);
    };
    let Some(size) = size_in(line) else {
        return Err(TestFileFault::Line(at));
    };
    let tests = read_all(alloc, size, later, at + 1)?;
    with_tests(alloc, filter, size, tests)
}

/// Reads a test file.
pub fn read_tests(alloc: Global, text: &[u8]) -> Result<TestFile, TestFileFault>
    ensures { MatchResult result (λ file. spec.file_in text.now ≡ Ok (spec.file_view file)) (spec.IsFault (spec.file_in text.now)) }
{
    if text.len() > SOURCE_LIMIT {
        return Err(TestFileFault::TooLong);
    }
    let Some((at, line, later)) = next_line(text, 1) else {
        return Err(TestFileFault::Ended);
    };
    let Some(filter) = filter_in(line) else {
        return Err(TestFileFault::Line(at));
    };
    read_named(alloc, filter, later, at + 1)
}
