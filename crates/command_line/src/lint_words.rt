//! The words of `lint`.
ghost use Rattle.std.specs.Prelude.{IfOk};
ghost use Rattle.program_words.specs.Given.{given_in};
ghost use Rattle.command_line.specs.Meaning.{AskFor, SaysSize};
ghost use Rattle.command_line.specs.declared.command_names.CommandName.TheVariants as command;

use crate::diff_words::USUAL_LIMIT;
use crate::format_words::format_in;
use crate::requests::{Request, files_in, has_files, tells_in, values_of};
use crate::terminals::Terminals;
use clap::ArgMatches;
use program_words::{count_given, is_given};
use report_formats::LintOptions;
use std::alloc::{AllocError, Global};

/// What the words of `lint` ask for, with the size that they say.
pub(crate) fn lint_in(
    alloc: Global,
    matches: &ArgMatches<'_>,
    size: u32,
    terminals: Terminals,
) -> Result<Request, AllocError>
    requires { SaysSize (given_in matches.now) size }
    ensures { IfOk result (AskFor command.Lint (given_in matches.now) terminals) }
{
    let sources = files_in(alloc, matches)?;
    let has_files = has_files(sources.as_slice());
    let how = LintOptions {
        size,
        limit: count_given(matches, "limit").unwrap_or(USUAL_LIMIT),
        allowed: values_of(alloc, matches, "allow")?,
        asks_order: is_given(matches, "order"),
        format: format_in(matches),
        is_explained: tells_in(matches, terminals, has_files),
    };
    Ok(Request::Lint { how, sources })
}
