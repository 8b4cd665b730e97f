//! The words of `test`.
ghost use Rattle.std.specs.Prelude.{IfOk};
ghost use Rattle.program_words.specs.Given.{given_in};
ghost use Rattle.command_line.specs.Meaning.{AskFor};
ghost use Rattle.command_line.specs.declared.command_names.CommandName.TheVariants as command;

use crate::diff_words::USUAL_LIMIT;
use crate::format_words::test_format_in;
use crate::requests::{Request, files_in, has_files, tells_in};
use crate::terminals::Terminals;
use clap::ArgMatches;
use program_words::count_given;
use report_formats::TestOptions;
use std::alloc::{AllocError, Global};

/// What the words of `test` ask for.
pub(crate) fn test_in(
    alloc: Global,
    matches: &ArgMatches<'_>,
    terminals: Terminals,
) -> Result<Request, AllocError>
    ensures { IfOk result (AskFor command.Test (given_in matches.now) terminals) }
{
    let sources = files_in(alloc, matches)?;
    let has_files = has_files(sources.as_slice());
    let how = TestOptions {
        limit: count_given(matches, "limit").unwrap_or(USUAL_LIMIT),
        format: test_format_in(matches),
        is_explained: tells_in(matches, terminals, has_files),
    };
    Ok(Request::Test { how, sources })
}
