//! The words of `filter`.
ghost use Rattle.std.specs.Prelude.{◌≡◌, ◌⊎◌, IfOk, MatchOption, None, codes, false};
ghost use Rattle.program_words.specs.Given.{given_in, number_of};
ghost use Rattle.command_line.specs.Meaning as spec;
ghost use Rattle.command_line.specs.declared.command_names.CommandName.TheVariants as command;

use crate::requests::{Request, RouteReport, Trying, tells_in};
use crate::terminals::Terminals;
use clap::ArgMatches;
use program_words::{is_given, number_given, source_of, word_given};
use std::alloc::{AllocError, Global};

/// Whether the words of `filter` ask for two things that do not go together.
pub(crate) fn asks_twice(matches: &ArgMatches<'_>) -> bool
    ensures { result ≡ spec.asks_twice (given_in matches.now) }
{
    is_given(matches, "why") && is_given(matches, "coverage")
}

/// What is to be written of routes.
fn report_in(matches: &ArgMatches<'_>) -> RouteReport
    ensures { result ≡ spec.report_of (given_in matches.now) }
{
    if is_given(matches, "why") {
        RouteReport::Reasons
    } else if is_given(matches, "coverage") {
        RouteReport::Coverage
    } else {
        RouteReport::Verdicts
    }
}

/// What the words of `filter` ask for. None where they name no file.
pub(crate) fn filter_in(
    alloc: Global,
    matches: &ArgMatches<'_>,
    terminals: Terminals,
) -> Result<Option<Request>, AllocError>
    requires { spec.asks_twice (given_in matches.now) ≡ false }
    ensures { IfOk result (λ asked. MatchOption asked
        ((number_of 32 (codes "size") (given_in matches.now) ≡ None) ⊎ (spec.names_file (given_in matches.now) ≡ false))
        (spec.AskFor command.Filter (given_in matches.now) terminals)) }
{
    let (Some(size), Some(file)) = (number_given(matches, "size"), word_given(matches, "file"))
    else {
        return Ok(None);
    };
    if file == "-" {
        return Ok(None);
    }
    let how = Trying {
        size,
        report: report_in(matches),
        is_explained: tells_in(matches, terminals, true),
        tells_routes: tells_in(matches, terminals, false),
    };
    Ok(Some(Request::Filter {
        how,
        source: source_of(alloc, file)?,
    }))
}
