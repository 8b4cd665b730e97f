//! What the program is asked to do, and the words that ask for it. Those of `diff`, `filter`, `lint`, `router`, `run` and `test` stand apart.
ghost use Rattle.std.specs.Prelude.{◌≡◌, ◌||◌, [], ◌∷◌, IfOk, Some, None, codes, if◌then◌else◌, is_some, map, string_bytes};
ghost use Rattle.std.specs.List.{list_any};
ghost use Rattle.program_words.specs.Given.{given_in, is_set, words_of};
ghost use Rattle.command_line.specs.Meaning.{AskFor, IsChecking, SaysSize, tells, usual_limit};
ghost use Rattle.command_line.specs.Reads.{file, or_input};
ghost use Rattle.command_line.specs.Sources.{AreNamed, AreSources};
ghost use Rattle.program_words.specs.Sources.{IsNamed, is_file, one_name};
ghost use Rattle.command_line.specs.declared.command_names.CommandName.TheVariants as command;

use crate::diff_words::USUAL_LIMIT;
use crate::filter_words::NamedFile;
use crate::format_words::format_in;
use crate::telling::{Telling, is_explained};
use crate::terminals::Terminals;
use clap::ArgMatches;
use program_words::{Source, is_given, number_given, one_source, source_of, words_given};
use report_formats::{CheckOptions, DiffOptions, Format, LintOptions, TestOptions};
use std::alloc::{AllocError, Global};

/// What is written of routes that are taken through a filter.
#[derive(Clone, Copy)]
pub enum RouteReport {
    /// The verdict on each.
    Verdicts,
    /// The verdict on each, with the place that decided it and what happened on the way.
    Reasons,
    /// Behind all of them, how many came to each command.
    Coverage,
}

/// How the routes of standard input are taken through a filter.
#[derive(Clone, Copy)]
pub struct Trying {
    /// The number of nodes of the domain.
    pub size: u32,
    /// What is written of the routes.
    pub report: RouteReport,
    /// A refusal of the filter is told in words too.
    pub is_explained: bool,
    /// So is that of a line, where verdicts are written.
    pub tells_routes: bool,
}

/// How a router's script is carried out.
#[derive(Drop)]
pub struct RunOptions {
    /// A refusal is told in words too.
    pub is_explained: bool,
    /// The script ends at its first refused line.
    pub stops: bool,
    /// The name of a new file, where the router's history is kept.
    pub save: Option<String>,
    /// The filters that the script is started with.
    pub filters: Vec<NamedFile>,
}

/// What the program is asked to do.
#[derive(Drop)]
pub enum Request {
    /// Compile filters, or read their code files, and verify the code.
    Check {
        /// How they are checked.
        how: CheckOptions,
        /// The sources, in order.
        sources: Vec<Source>,
    },
    /// Say what the change of one domain to another does.
    Compare {
        /// How it is written.
        format: Format,
        /// Where the script of the domain before the change is.
        old: Source,
        /// Where that of the domain after it is.
        new: Source,
        /// Why a line is refused is told in words too.
        is_explained: bool,
    },
    /// Compare two filters on all routes.
    Diff {
        /// How they are compared.
        how: DiffOptions,
        /// Where the text of the filter as it was is.
        old: Source,
        /// Where the text of the filter as it will be is.
        new: Source,
    },
    /// Carry out the script of a domain.
    Domain {
        /// Where its commands are.
        source: Source,
        /// Why a line is refused is told in words too.
        is_explained: bool,
    },
    /// Take the routes of standard input through the code in its first line.
    Eval {
        /// Why a line is refused is told in words too.
        tells_people: bool,
    },
    /// Say what a code means.
    Explain {
        /// What is said of it.
        page: String,
    },
    /// List the code of a source.
    List {
        /// The number of nodes of the domains for which it is verified, if it is.
        size: Option<u32>,
        /// The source is a code file in hexadecimal, and not a filter's text.
        is_code: bool,
        /// The source.
        source: Source,
        /// A refusal is told in words too.
        is_explained: bool,
    },
    /// Take the routes of standard input through the filter of a file.
    Filter {
        /// How.
        how: Trying,
        /// Where its text is.
        source: Source,
    },
    /// Warn of what is plainly wrong in filters.
    Lint {
        /// How they are looked through.
        how: LintOptions,
        /// The filters, in order.
        sources: Vec<Source>,
    },
    /// Carry out the script of a domain, and write its page behind the last line.
    Page {
        /// Where its commands are.
        source: Source,
        /// Why a line is refused is told in words too.
        is_explained: bool,
        /// The name of the new file of the page.
        page: String,
    },
    /// Replay the history that sources are the text of.
    Replay {
        /// The history, or its segments in order.
        sources: Vec<Source>,
    },
    /// Write the code file of standard input in the newer form.
    Rewrite {
        /// It is written in the older form.
        is_old: bool,
    },
    /// Carry out the script of a router that sources are, one after another.
    Run {
        /// How it is carried out.
        how: RunOptions,
        /// Where its commands are, in order.
        sources: Vec<Source>,
    },
    /// Run test files.
    Test {
        /// How they are run.
        how: TestOptions,
        /// The files, in order.
        sources: Vec<Source>,
    },
}

/// The source of each of these names.
fn named_in(alloc: Global, names: &[&str]) -> Result<Vec<Source>, AllocError>
    ensures { IfOk result (λ sources. AreNamed (map (λ name. name.now) names.now) sources.items) }
{
    let mut sources = Vec::with_capacity(alloc, names.len())?;
    for name in names {
        sources.push(source_of(alloc, name)?)?;
    }
    Ok(sources)
}

/// Standard input alone.
fn input_alone(alloc: Global) -> Result<Vec<Source>, AllocError>
    ensures { IfOk result (λ sources. sources.items ≡ Source.Input ∷ []) }
{
    let mut sources = Vec::new(alloc);
    sources.push(Source::Input)?;
    Ok(sources)
}

/// The sources of these names: standard input where there are none, and for `-`.
fn sources_in(alloc: Global, names: &[&str]) -> Result<Vec<Source>, AllocError>
    ensures { IfOk result (λ sources. AreSources (map (λ name. name.now) names.now) sources.items) }
{
    if names.is_empty() {
        input_alone(alloc)
    } else {
        named_in(alloc, names)
    }
}

/// Whether one of these sources is a file.
pub(crate) fn has_files(sources: &[Source]) -> bool
    ensures { result ≡ list_any is_file sources.now }
{
    sources.iter().any(|source| !source.is_input())
}

/// The sources that the words of a command name, which takes any number of them.
pub(crate) fn files_in(alloc: Global, matches: &ArgMatches<'_>) -> Result<Vec<Source>, AllocError>
    ensures { IfOk result (λ sources. AreNamed (or_input (words_of file (given_in matches.now))) sources.items) }
{
    sources_in(alloc, words_given(matches, "file"))
}

/// Whether a refusal is told in words, where sources are files that were named or not.
pub(crate) fn tells_in(matches: &ArgMatches<'_>, terminals: Terminals, has_files: bool) -> bool
    ensures { result ≡ tells (given_in matches.now) terminals has_files }
{
    is_explained(Telling::read(matches), terminals.errors, has_files)
}

/// The source that the words of a command name, which takes one, and whether its refusal is told in words.
pub(crate) fn explained_source(
    alloc: Global,
    matches: &ArgMatches<'_>,
    terminals: Terminals,
) -> Result<(Source, bool), AllocError>
    ensures source { IfOk result (λ told. IsNamed (one_name file (given_in matches.now)) told.0) }
    ensures tells { IfOk result (λ told. told.1 ≡ tells (given_in matches.now) terminals (is_file told.0)) }
{
    let source = one_source(alloc, matches, "file")?;
    let is_file = !source.is_input();
    Ok((source, tells_in(matches, terminals, is_file)))
}

/// How many classes of routes are tried for the warnings of `check`, where they are asked for.
fn warning_limit_in(matches: &ArgMatches<'_>) -> Option<u64>
    ensures { result ≡ (if is_set (codes "warn") (given_in matches.now) then Some usual_limit else None) }
{
    if is_given(matches, "warn") {
        Some(USUAL_LIMIT)
    } else {
        None
    }
}

/// How the words of `check` have sources checked, of which some are files or none is.
fn checking_in(
    matches: &ArgMatches<'_>,
    size: u32,
    terminals: Terminals,
    has_files: bool,
) -> CheckOptions
    ensures size { result.size ≡ size }
    ensures sets { IsChecking (given_in matches.now) terminals has_files result }
{
    telling_if_asked(CheckOptions {
        size,
        is_code: is_given(matches, "code"),
        tells_people: has_files,
        is_explained: tells_in(matches, terminals, has_files),
        has_names: is_given(matches, "names"),
        is_quiet: is_given(matches, "quiet"),
        warning_limit: warning_limit_in(matches),
        format: format_in(matches),
    })
}

/// Where only the report on standard input is asked for, as by a program, its refusal is not told on standard error as well.
fn telling_if_asked(how: CheckOptions) -> CheckOptions
    ensures { result ≡ record how {
      tells_people = how.tells_people || (how.is_explained || (how.has_names || (how.is_quiet || is_some how.warning_limit)));
    } }
{
    let asks_for_more = how.is_explained
        || how.has_names
        || how.is_quiet
        || how.warning_limit.is_some();
    CheckOptions {
        tells_people: how.tells_people || asks_for_more,
        ..how
    }
}

/// What the words of `check` ask for, with the size that they say.
pub(crate) fn check_in(
    alloc: Global,
    matches: &ArgMatches<'_>,
    size: u32,
    terminals: Terminals,
) -> Result<Request, AllocError>
    requires { SaysSize (given_in matches.now) size }
    ensures { IfOk result (AskFor command.Check (given_in matches.now) terminals) }
{
    let sources = files_in(alloc, matches)?;
    let how = checking_in(matches, size, terminals, has_files(sources.as_slice()));
    Ok(Request::Check { how, sources })
}

/// What the words of `eval` ask for.
pub(crate) fn eval_in(matches: &ArgMatches<'_>, terminals: Terminals) -> Request
    ensures { AskFor command.Eval (given_in matches.now) terminals result }
{
    Request::Eval {
        tells_people: tells_in(matches, terminals, false),
    }
}

/// What the words of `rewrite` ask for.
pub(crate) fn rewrite_in(matches: &ArgMatches<'_>, terminals: Terminals) -> Request
    ensures { AskFor command.Rewrite (given_in matches.now) terminals result }
{
    Request::Rewrite {
        is_old: is_given(matches, "old"),
    }
}

/// A copy of each of some texts, in order.
fn copies_of(alloc: Global, texts: &[&str]) -> Result<Vec<String>, AllocError>
    ensures { IfOk result (λ copies. map (λ copy. string_bytes copy) copies.items ≡ map (λ text. text.now) texts.now) }
{
    let mut copies = Vec::with_capacity(alloc, texts.len())?;
    for text in texts {
        copies.push(String::from_str(alloc, text)?)?;
    }
    Ok(copies)
}

/// The values of an option, in order.
pub(crate) fn values_of(
    alloc: Global,
    matches: &ArgMatches<'_>,
    name: &str,
) -> Result<Vec<String>, AllocError>
    ensures { IfOk result (λ values. map (λ copy. string_bytes copy) values.items ≡ words_of name.now (given_in matches.now)) }
{
    copies_of(alloc, words_given(matches, name))
}

/// What the words of `list` ask for.
pub(crate) fn list_in(
    alloc: Global,
    matches: &ArgMatches<'_>,
    terminals: Terminals,
) -> Result<Request, AllocError>
    ensures { IfOk result (AskFor command.List (given_in matches.now) terminals) }
{
    let (source, is_explained) = explained_source(alloc, matches, terminals)?;
    Ok(Request::List {
        size: number_given(matches, "size"),
        is_code: is_given(matches, "code"),
        source,
        is_explained,
    })
}

/// What the words of `replay` ask for.
pub(crate) fn replay_in(
    alloc: Global,
    matches: &ArgMatches<'_>,
    terminals: Terminals,
) -> Result<Request, AllocError>
    ensures { IfOk result (AskFor command.Replay (given_in matches.now) terminals) }
{
    Ok(Request::Replay {
        sources: files_in(alloc, matches)?,
    })
}
