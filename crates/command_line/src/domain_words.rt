//! The words of `domain`.
ghost use Rattle.std.specs.Prelude.{◌≡◌, IfOk, None, codes, false};
ghost use Rattle.program_words.specs.Given.{given_in, word_of};
ghost use Rattle.command_line.specs.Meaning as spec;
ghost use Rattle.command_line.specs.declared.command_names.CommandName.TheVariants as command;

use crate::format_words::format_in;
use crate::requests::{Request, explained_source, tells_in};
use crate::terminals::Terminals;
use clap::ArgMatches;
use program_words::{one_source, source_of, text_given, word_given};
use std::alloc::{AllocError, Global};

/// Whether the words of `domain` ask for a page and for a comparison, of which there is none on a page.
pub(crate) fn pages_a_comparison(matches: &ArgMatches<'_>) -> bool
    ensures { result ≡ spec.pages_a_comparison (given_in matches.now) }
{
    word_given(matches, "page").is_some() && word_given(matches, "compare").is_some()
}

/// Whether the words of `domain` say how a comparison is written, and ask for none.
pub(crate) fn formats_no_comparison(matches: &ArgMatches<'_>) -> bool
    ensures { result ≡ spec.formats_no_comparison (given_in matches.now) }
{
    word_given(matches, "format").is_some() && word_given(matches, "compare").is_none()
}

/// What the words of `domain` ask for that ask for no comparison.
fn script_in(
    alloc: Global,
    matches: &ArgMatches<'_>,
    terminals: Terminals,
) -> Result<Request, AllocError>
    requires compare { word_of (codes "compare") (given_in matches.now) ≡ None }
    requires format { word_of (codes "format") (given_in matches.now) ≡ None }
    ensures { IfOk result (spec.AskFor command.Domain (given_in matches.now) terminals) }
{
    let (source, is_explained) = explained_source(alloc, matches, terminals)?;
    match text_given(alloc, matches, "page")? {
        Some(page) => Ok(Request::Page {
            source,
            is_explained,
            page,
        }),
        None => Ok(Request::Domain {
            source,
            is_explained,
        }),
    }
}

/// What the words of `domain` ask for.
pub(crate) fn domain_in(
    alloc: Global,
    matches: &ArgMatches<'_>,
    terminals: Terminals,
) -> Result<Request, AllocError>
    requires pages { spec.pages_a_comparison (given_in matches.now) ≡ false }
    requires formats { spec.formats_no_comparison (given_in matches.now) ≡ false }
    ensures { IfOk result (spec.AskFor command.Domain (given_in matches.now) terminals) }
{
    match word_given(matches, "compare") {
        Some(name) => Ok(Request::Compare {
            format: format_in(matches),
            old: source_of(alloc, name)?,
            new: one_source(alloc, matches, "file")?,
            is_explained: tells_in(matches, terminals, true),
        }),
        None => script_in(alloc, matches, terminals),
    }
}
