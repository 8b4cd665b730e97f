//! Whether a refusal is told in words.
ghost use Rattle.std.specs.Prelude.{◌≡◌};
ghost use Rattle.program_words.specs.Given.{given_in};
ghost use Rattle.command_line.specs.Meaning.{telling_of};
ghost use Rattle.command_line.specs.Parameters.{AreChoices};
ghost use Rattle.command_line.specs.Telling.{is_explained};

use crate::options::Choices;
use clap::ArgMatches;
use program_words::word_given;

/// What the option `--explain` says.
#[derive(Clone, Copy)]
pub enum Telling {
    /// Where people read: on a terminal, and of files that are named.
    Auto,
    /// Always.
    Always,
    /// Never.
    Never,
}

impl Telling {
    /// What the words of a command say.
    pub fn read(matches: &ArgMatches<'_>) -> Telling
        ensures { result ≡ telling_of (given_in matches.now) }
    {
        match word_given(matches, "explain") {
            Some("always") => Telling::Always,
            Some("never") => Telling::Never,
            _ => Telling::Auto,
        }
    }
}

/// The words of `--explain`.
static TELLINGS: [&str; 3] = ["auto", "always", "never"];

/// The words of `--allow`.
static CODES: [&str; 9] = ["W1", "W2", "W3", "W4", "W5", "W6", "W7", "W8", "W9"];

/// The words of `--format`.
static FORMATS: [&str; 2] = ["text", "json"];

/// Those of `test`.
static TEST_FORMATS: [&str; 3] = ["text", "json", "junit"];

/// The words of these options, of which a caller is not to know more than what they are.
pub(crate) fn choices() -> Choices<'static>
    ensures { AreChoices result }
{
    Choices {
        words: &TELLINGS,
        codes: &CODES,
        formats: &FORMATS,
        test_formats: &TEST_FORMATS,
    }
}

/// Whether a refusal is told in words, where standard error is a terminal or not, and sources are files that were named or not.
pub fn is_explained(how: Telling, is_terminal: bool, has_files: bool) -> bool
    ensures { result ≡ is_explained how is_terminal has_files }
{
    match how {
        Telling::Auto => is_terminal || has_files,
        Telling::Always => true,
        Telling::Never => false,
    }
}
