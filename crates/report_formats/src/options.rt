//! What is asked of a report: of which domains it is, what it says, and how it is written.

use crate::format::{Format, TestFormat};

/// How sources are checked.
#[derive(Clone, Copy)]
pub struct CheckOptions {
    /// The number of nodes of the domains that the code is for.
    pub size: u32,
    /// A source is a code file in hexadecimal, and not a filter's text.
    pub is_code: bool,
    /// A refusal is told on standard error, by the name of its source or in words.
    pub tells_people: bool,
    /// It is told in words.
    pub is_explained: bool,
    /// The name of its source stands before each line of a report.
    pub has_names: bool,
    /// Of a report only the line that refuses its source is written.
    pub is_quiet: bool,
    /// The warnings of a filter that is verified are told too, for which so many classes of routes are tried.
    pub warning_limit: Option<u64>,
    /// How all that is said is written.
    pub format: Format,
}

/// How two filters are compared.
#[derive(Clone, Copy)]
pub struct DiffOptions {
    /// The number of nodes of the domain on whose routes they are compared.
    pub size: u32,
    /// The largest number of classes of routes that are tried.
    pub limit: u64,
    /// How what is found is written.
    pub format: Format,
    /// A refusal is told in words too.
    pub is_explained: bool,
}

/// How filters are looked through for what is plainly wrong.
#[derive(Drop)]
pub struct LintOptions {
    /// The number of nodes of the domain whose routes are meant.
    pub size: u32,
    /// The largest number of classes of routes that are tried for a filter.
    pub limit: u64,
    /// The codes of warnings that are not told.
    pub allowed: Vec<String>,
    /// Whether the order of metrics is kept is looked for too.
    pub asks_order: bool,
    /// How what is found is written.
    pub format: Format,
    /// A refusal is told in words too.
    pub is_explained: bool,
}

/// How test files are run.
#[derive(Clone, Copy)]
pub struct TestOptions {
    /// The largest number of classes of routes that a test tries.
    pub limit: u64,
    /// How what comes of the tests is written.
    pub format: TestFormat,
    /// What does not hold, and a refusal, is told in words too.
    pub is_explained: bool,
}
