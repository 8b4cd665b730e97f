//! The words of `run`.
ghost use Rattle.std.specs.Prelude.{◌≡◌, IfErr, IfOk, codes};
ghost use Rattle.command_line.specs.Filters.{HasWrong};
ghost use Rattle.program_words.specs.Given.{given_in, words_of};
ghost use Rattle.command_line.specs.Meaning as spec;
ghost use Rattle.command_line.specs.declared.command_names.CommandName.TheVariants as command;

use crate::filter_words::{NamedFile, WrongFilter, filters_given};
use crate::requests::{Request, RunOptions, files_in, has_files, tells_in};
use crate::terminals::Terminals;
use clap::ArgMatches;
use program_words::{is_given, text_given};
use std::alloc::{AllocError, Global};

/// How the words of `run` have a script carried out that is started with these filters, and of which some is in files or none is.
fn running_in(
    alloc: Global,
    matches: &ArgMatches<'_>,
    terminals: Terminals,
    has_files: bool,
    filters: Vec<NamedFile>,
) -> Result<RunOptions, AllocError>
    requires { spec.AreFilters (given_in matches.now) filters.items }
    ensures sets { IfOk result (spec.IsRunning (given_in matches.now) terminals has_files) }
    ensures filters { IfOk result (λ how. how.filters.items ≡ filters.items) }
{
    Ok(RunOptions {
        is_explained: tells_in(matches, terminals, has_files),
        stops: is_given(matches, "stop"),
        save: text_given(alloc, matches, "save")?,
        filters,
    })
}

/// What the words of `run` ask for, which name these filters.
fn script_in(
    alloc: Global,
    matches: &ArgMatches<'_>,
    terminals: Terminals,
    filters: Vec<NamedFile>,
) -> Result<Request, AllocError>
    requires { spec.AreFilters (given_in matches.now) filters.items }
    ensures { IfOk result (spec.AskFor command.Run (given_in matches.now) terminals) }
{
    let sources = files_in(alloc, matches)?;
    let has_files = has_files(sources.as_slice());
    let how = running_in(alloc, matches, terminals, has_files, filters)?;
    Ok(Request::Run { how, sources })
}

/// What the words of `run` ask for; or what is wrong with the filters that they name.
pub(crate) fn run_in<'a>(
    alloc: Global,
    matches: &ArgMatches<'a>,
    terminals: Terminals,
) -> Result<Result<Request, WrongFilter<'a>>, AllocError>
    ensures asks { IfOk result (λ read. IfOk read (spec.AskFor command.Run (given_in matches.now) terminals)) }
    ensures wrong { IfOk result (λ read. IfErr read (HasWrong (words_of (codes "filter") (given_in matches.now)))) }
{
    match filters_given(alloc, matches)? {
        Ok(filters) => Ok(Ok(script_in(alloc, matches, terminals, filters)?)),
        Err(wrong) => Ok(Err(wrong)),
    }
}
