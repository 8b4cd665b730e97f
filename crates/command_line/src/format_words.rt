//! The words of `--format`.
ghost use Rattle.std.specs.Prelude.{◌≡◌};
ghost use Rattle.program_words.specs.Given.{given_in};
ghost use Rattle.command_line.specs.Meaning.{format_of, test_format_of};

use clap::ArgMatches;
use program_words::word_given;
use report_formats::{Format, TestFormat};

/// How reports are written.
pub(crate) fn format_in(matches: &ArgMatches<'_>) -> Format
    ensures { result ≡ format_of (given_in matches.now) }
{
    match word_given(matches, "format") {
        Some("json") => Format::Json,
        _ => Format::Text,
    }
}

/// How what comes of tests is written.
pub(crate) fn test_format_in(matches: &ArgMatches<'_>) -> TestFormat
    ensures { result ≡ test_format_of (given_in matches.now) }
{
    match word_given(matches, "format") {
        Some("json") => TestFormat::Json,
        Some("junit") => TestFormat::Junit,
        _ => TestFormat::Tap,
    }
}
