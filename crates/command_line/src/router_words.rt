//! The words of `router`.
ghost use Rattle.std.specs.Prelude.{IfErr, IfOk, codes};
ghost use Rattle.command_line.specs.Filters.{HasWrong};
ghost use Rattle.program_words.specs.Given.{given_in, words_of};
ghost use Rattle.command_line.specs.Meaning.{AreFilters, AskForRouter, IsRouting};

use crate::filter_words::{NamedFile, WrongFilter, filters_given};
use crate::requests::values_of;
use clap::ArgMatches;
use program_words::{is_given, number_given, text_given};
use std::alloc::{AllocError, Global};

/// What the words of `router` say. Whether they go together is judged later.
#[derive(Drop)]
pub struct RouterWords {
    /// The file that says options too.
    pub config: Option<String>,
    /// The options are looked at, and nothing is started.
    pub checks: bool,
    /// The file of the whole domain.
    pub domain: Option<String>,
    /// A neighbour's domain may have been set up by another file.
    pub allows_other: bool,
    /// The number of nodes of the domain.
    pub size: Option<u32>,
    /// The node that the router is.
    pub node: Option<u32>,
    /// How many entries of its history there is room for in memory.
    pub limit: Option<u32>,
    /// The most messages that may wait for a neighbour.
    pub queue: Option<u32>,
    /// How long a closed link waits before it is opened again, in seconds.
    pub retry: Option<u32>,
    /// How many seconds the router may be silent before its neighbours hold it for dead.
    pub hold: Option<u32>,
    /// The folder in which the history is saved.
    pub save: Option<String>,
    /// How many segments of it are kept there.
    pub segments: Option<u32>,
    /// Where the routes are told.
    pub routes: Option<String>,
    /// How many seconds the first table waits at most.
    pub settle: Option<u32>,
    /// The file of the log.
    pub log: Option<String>,
    /// The router goes on where its standard input ends.
    pub stays: bool,
    /// The prefixes of nodes, `V=PREFIX`.
    pub prefixes: Vec<String>,
    /// The filters, by name.
    pub filters: Vec<NamedFile>,
    /// The import filters, `W=NAME`.
    pub imports: Vec<String>,
    /// The export filters, `W=NAME`.
    pub exports: Vec<String>,
    /// The links, `W=IN,OUT`.
    pub links: Vec<String>,
    /// Where operators are served, `IN,OUT` or `IN,OUT,look`.
    pub controls: Vec<String>,
}

/// What the words of `router` say, which name these filters.
fn routing_in(
    alloc: Global,
    matches: &ArgMatches<'_>,
    filters: Vec<NamedFile>,
) -> Result<RouterWords, AllocError>
    requires { AreFilters (given_in matches.now) filters.items }
    ensures sets { IfOk result (IsRouting (given_in matches.now)) }
{
    Ok(RouterWords {
        config: text_given(alloc, matches, "config")?,
        checks: is_given(matches, "check"),
        domain: text_given(alloc, matches, "domain")?,
        allows_other: is_given(matches, "allow-other-domain"),
        size: number_given(matches, "size"),
        node: number_given(matches, "node"),
        limit: number_given(matches, "limit"),
        queue: number_given(matches, "queue"),
        retry: number_given(matches, "retry"),
        hold: number_given(matches, "hold"),
        save: text_given(alloc, matches, "save")?,
        segments: number_given(matches, "segments"),
        routes: text_given(alloc, matches, "routes")?,
        settle: number_given(matches, "settle"),
        log: text_given(alloc, matches, "log")?,
        stays: is_given(matches, "stay"),
        prefixes: values_of(alloc, matches, "prefix")?,
        filters,
        imports: values_of(alloc, matches, "import")?,
        exports: values_of(alloc, matches, "export")?,
        links: values_of(alloc, matches, "link")?,
        controls: values_of(alloc, matches, "control")?,
    })
}

/// What the words of `router` say; or what is wrong with the filters that they name.
pub(crate) fn router_in<'a>(
    alloc: Global,
    matches: &ArgMatches<'a>,
) -> Result<Result<RouterWords, WrongFilter<'a>>, AllocError>
    ensures asks { IfOk result (λ read. IfOk read (AskForRouter (given_in matches.now))) }
    ensures wrong { IfOk result (λ read. IfErr read (HasWrong (words_of (codes "filter") (given_in matches.now)))) }
{
    match filters_given(alloc, matches)? {
        Ok(filters) => Ok(Ok(routing_in(alloc, matches, filters)?)),
        Err(wrong) => Ok(Err(wrong)),
    }
}
