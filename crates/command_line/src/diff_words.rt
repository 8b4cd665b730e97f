//! The words of `diff`.
ghost use Rattle.std.specs.Prelude.{◌≡◌, IfOk};
ghost use Rattle.program_words.specs.Given.{given_in};
ghost use Rattle.command_line.specs.Meaning.{AskFor, SaysSize, comparing_of};
ghost use Rattle.command_line.specs.declared.command_names.CommandName.TheVariants as command;

use crate::format_words::format_in;
use crate::requests::{Request, tells_in};
use crate::terminals::Terminals;
use clap::ArgMatches;
use program_words::{count_given, one_source};
use report_formats::DiffOptions;
use std::alloc::{AllocError, Global};

/// The largest number of classes of routes that are tried where none is said.
pub(crate) const USUAL_LIMIT: u64 = 1_000_000;

/// How the words of `diff` have two filters compared on the routes of a domain of this size, of which one is in a file.
fn comparing_in(matches: &ArgMatches<'_>, size: u32, terminals: Terminals) -> DiffOptions
    ensures { result ≡ comparing_of (given_in matches.now) terminals size }
{
    DiffOptions {
        size,
        limit: count_given(matches, "limit").unwrap_or(USUAL_LIMIT),
        format: format_in(matches),
        is_explained: tells_in(matches, terminals, true),
    }
}

/// What the words of `diff` ask for, with the size that they say.
pub(crate) fn diff_in(
    alloc: Global,
    matches: &ArgMatches<'_>,
    size: u32,
    terminals: Terminals,
) -> Result<Request, AllocError>
    requires { SaysSize (given_in matches.now) size }
    ensures { IfOk result (AskFor command.Diff (given_in matches.now) terminals) }
{
    Ok(Request::Diff {
        how: comparing_in(matches, size, terminals),
        old: one_source(alloc, matches, "old")?,
        new: one_source(alloc, matches, "new")?,
    })
}
