//! The words of the command line.
ghost use Rattle.std.specs.Prelude.{◌≡◌, ◌≤◌, ◌⊎◌, ℕ, List, IfErr, IfOk, map};
ghost use Rattle.clap.specs.Words.{kind_of, subcommand_rows_of};
ghost use Rattle.program_words.specs.Given.{given_in};
ghost use Rattle.command_line.specs.Meaning.{ComesTo, FailsBy, IsMeant, Meets, MetComesTo, Shows, asks_for_import, once};
ghost use Rattle.command_line.specs.Readings.{readings};
ghost use Rattle.command_line.specs.declared.command_names.CommandName.TheVariants as command;

use crate::classes::page_of;
use crate::command_names::{CommandName, command_named};
use crate::commands::{NUMBERED, program};
use crate::diff_words::diff_in;
use crate::domain_words::{domain_in, formats_no_comparison, pages_a_comparison};
use crate::environment::with_size;
use crate::filter_words::WrongFilter;
use crate::lint_words::lint_in;
use crate::requests::{Request, check_in, eval_in, list_in, replay_in, rewrite_in};
use crate::router_words::{RouterWords, router_in};
use crate::run_words::run_in;
use crate::telling::choices;
use crate::terminals::{Terminals, reads_input_again};
use crate::test_words::test_in;
use crate::trying_words::{asks_twice, filter_in};
use clap::error::ErrorKind;
use clap::{ArgMatches, Error};
use line_protocol::StreamFault;
use program_words::{WRONG_WORDS, arguments_of, number_given, show_wrong, word_given};
use std::alloc::{AllocError, Global};
use std::convert::AsStr;
use std::rt::Env;

/// What the words of the command line come to.
#[derive(Drop)]
pub enum Invocation {
    /// They ask for this.
    Asked(Request),
    /// They ask for the network of routers.
    Network,
    /// They ask for a router that talks to its neighbours.
    Router(RouterWords),
    /// Help, or what is wrong with them, was shown. The program ends with this status.
    Shown(u8),
}

/// Reads the words that the program was started with, and where they need a size and say none, that of the environment. Help goes to standard output, and what is wrong with the words to
/// standard error.
pub fn read<R: Env + AllocGlobal + Print + Eprint>(
    rt: &R,
    terminals: Terminals,
) -> Result<Invocation, StreamFault>
    ensures once { IfOk result (λ asked. readings asked ≤ 1) }
    ensures meant { IfOk result (λ asked. (line : List (List ℕ)) × IsMeant line terminals asked) }
    ensures fails { IfErr result (λ fault. (line : List (List ℕ)) × FailsBy line fault) }
{
    let alloc = rt.alloc();
    let words = arguments_of(rt, alloc).map_err(|_| StreamFault::Memory)?;
    let words = with_size(rt, alloc, words).map_err(|_| StreamFault::Memory)?;
    request_of(rt, alloc, words.as_slice(), terminals)
}

/// What the words ask for, the program's name being the first of them.
pub fn request_of<R: Print + Eprint, S: AsStr>(
    rt: &R,
    alloc: Global,
    words: &[S],
    terminals: Terminals,
) -> Result<Invocation, StreamFault>
    ensures once { IfOk result (λ asked. readings asked ≤ 1) }
    ensures meant { IfOk result (IsMeant (map S.text words.now) terminals) }
    ensures fails { IfErr result (FailsBy (map S.text words.now)) }
{
    if asks_for_import(words) {
        return Ok(show_moved(rt));
    }
    match matches_of(alloc, words) {
        Ok(matches) => match words_in(rt, alloc, &matches, terminals) {
            Ok(words) => Ok(reading_once(rt, words)),
            Err(_) => Err(StreamFault::Memory),
        },
        Err(error) => match show_wrong(rt, words, &NUMBERED, &error) {
            Ok(status) => Ok(Invocation::Shown(status)),
            Err(fault) => Err(fault),
        },
    }
}

/// Whether the words ask for `import`, which is a program of its own.
fn asks_for_import<S: AsStr>(words: &[S]) -> bool
    ensures { result ≡ asks_for_import (map S.text words.now) }
{
    match words.get(1) {
        Some(word) => word.as_str() == "import",
        None => false,
    }
}

/// Says where `import` is.
fn show_moved<R: Eprint>(rt: &R) -> Invocation
    ensures { result ≡ Invocation.Shown 2 }
{
    let _ = eprintln!(rt;
        "error: `import` is a program of its own: write `ncimport` in place of `ncroute import`"
    );
    Invocation::Shown(WRONG_WORDS)
}

/// What the parser of words makes of these.
fn matches_of<'a, S: AsStr>(alloc: Global, words: &'a [S]) -> Result<ArgMatches<'a>, Error>
    ensures ok { IfOk result (λ matches. Meets (map S.text words.entry.now) (subcommand_rows_of matches)) }
    ensures err { IfErr result (λ error. (kind_of error ≡ ErrorKind.OutOfMemory) ⊎ Shows (map S.text words.entry.now) (kind_of error)) }
{
    program(alloc, choices())?.try_get_matches_from(words)
}

/// These words, unless they ask for standard input more than once.
fn reading_once<R: Eprint>(rt: &R, words: Invocation) -> Invocation
    ensures once { readings result ≤ 1 }
    ensures kept { result ≡ once words }
{
    if !reads_input_again(&words) {
        return words;
    }
    let _ = eprintln!(rt;
        "error: standard input can be read only once, and these words ask for it more than once: as `-`, or by naming no FILE"
    );
    Invocation::Shown(WRONG_WORDS)
}

/// What the words come to, where the parser of words accepted them.
fn words_in<R: Eprint>(
    rt: &R,
    alloc: Global,
    matches: &ArgMatches<'_>,
    terminals: Terminals,
) -> Result<Invocation, AllocError>
    ensures { IfOk result (MetComesTo (subcommand_rows_of matches.now) terminals) }
{
    // The parser accepts no words without a command, and no other command.
    let Some((name, words)) = matches.subcommand() else {
        return Ok(Invocation::Shown(WRONG_WORDS));
    };
    match command_named(name) {
        Some(command) => command_words(rt, alloc, command, words, terminals),
        None => Ok(Invocation::Shown(WRONG_WORDS)),
    }
}

/// What the words of a command come to.
fn command_words<R: Eprint>(
    rt: &R,
    alloc: Global,
    command: CommandName,
    words: &ArgMatches<'_>,
    terminals: Terminals,
) -> Result<Invocation, AllocError>
    ensures { IfOk result (ComesTo command (given_in words.now) terminals) }
{
    match command {
        CommandName::Check => check_words(alloc, words, terminals),
        CommandName::Diff => diff_words(alloc, words, terminals),
        CommandName::Domain => domain_words(rt, alloc, words, terminals),
        CommandName::Eval => Ok(Invocation::Asked(eval_in(words, terminals))),
        CommandName::Explain => explained_in(rt, alloc, words, terminals),
        CommandName::Filter => filter_words(rt, alloc, words, terminals),
        CommandName::Lint => lint_words(alloc, words, terminals),
        CommandName::List => asked(list_in(alloc, words, terminals)),
        CommandName::Net => Ok(Invocation::Network),
        CommandName::Replay => asked(replay_in(alloc, words, terminals)),
        CommandName::Rewrite => Ok(Invocation::Asked(rewrite_in(words, terminals))),
        CommandName::Router => router_words(rt, alloc, words, terminals),
        CommandName::Run => run_words(rt, alloc, words, terminals),
        CommandName::Test => asked(test_in(alloc, words, terminals)),
    }
}

/// The words that ask for this.
fn asked(request: Result<Request, AllocError>) -> Result<Invocation, AllocError>
    ensures { IfOk result (λ words. (made : _) × (request ≡ Ok made) × (words ≡ Invocation.Asked made)) }
{
    match request {
        Ok(request) => Ok(Invocation::Asked(request)),
        Err(error) => Err(error),
    }
}

/// What the words of `domain` come to.
fn domain_words<R: Eprint>(
    rt: &R,
    alloc: Global,
    domain: &ArgMatches<'_>,
    terminals: Terminals,
) -> Result<Invocation, AllocError>
    ensures { IfOk result (ComesTo command.Domain (given_in domain.now) terminals) }
{
    if pages_a_comparison(domain) {
        let _ = eprintln!(rt; "error: --page and --compare cannot be given together");
        return Ok(Invocation::Shown(WRONG_WORDS));
    }
    if formats_no_comparison(domain) {
        let _ = eprintln!(rt;
            "error: --format says how a comparison is written: it goes with --compare"
        );
        return Ok(Invocation::Shown(WRONG_WORDS));
    }
    asked(domain_in(alloc, domain, terminals))
}

/// What the words of `filter` come to. Standard input has the routes, so the filter is in a file.
fn filter_words<R: Eprint>(
    rt: &R,
    alloc: Global,
    filter: &ArgMatches<'_>,
    terminals: Terminals,
) -> Result<Invocation, AllocError>
    ensures { IfOk result (ComesTo command.Filter (given_in filter.now) terminals) }
{
    if asks_twice(filter) {
        let _ = eprintln!(rt; "error: --why and --coverage cannot be given together");
        return Ok(Invocation::Shown(WRONG_WORDS));
    }
    if let Some(request) = filter_in(alloc, filter, terminals)? {
        return Ok(Invocation::Asked(request));
    }
    let _ = eprintln!(rt;
        "error: the routes come from standard input, so the filter has to be in a file"
    );
    Ok(Invocation::Shown(WRONG_WORDS))
}

/// What the words of `router` come to.
fn router_words<R: Eprint>(
    rt: &R,
    alloc: Global,
    router: &ArgMatches<'_>,
    terminals: Terminals,
) -> Result<Invocation, AllocError>
    ensures { IfOk result (ComesTo command.Router (given_in router.now) terminals) }
{
    match router_in(alloc, router)? {
        Ok(words) => Ok(Invocation::Router(words)),
        Err(wrong) => Ok(show_wrong_filter(rt, wrong)),
    }
}

/// What the words of `check` come to.
fn check_words(
    alloc: Global,
    check: &ArgMatches<'_>,
    terminals: Terminals,
) -> Result<Invocation, AllocError>
    ensures { IfOk result (ComesTo command.Check (given_in check.now) terminals) }
{
    // The parser accepts no words without a size.
    let Some(size) = number_given(check, "size") else {
        return Ok(Invocation::Shown(WRONG_WORDS));
    };
    Ok(Invocation::Asked(check_in(alloc, check, size, terminals)?))
}

/// What the words of `diff` come to.
fn diff_words(
    alloc: Global,
    diff: &ArgMatches<'_>,
    terminals: Terminals,
) -> Result<Invocation, AllocError>
    ensures { IfOk result (ComesTo command.Diff (given_in diff.now) terminals) }
{
    // The parser accepts no words without a size.
    let Some(size) = number_given(diff, "size") else {
        return Ok(Invocation::Shown(WRONG_WORDS));
    };
    Ok(Invocation::Asked(diff_in(alloc, diff, size, terminals)?))
}

/// What the words of `lint` come to.
fn lint_words(
    alloc: Global,
    lint: &ArgMatches<'_>,
    terminals: Terminals,
) -> Result<Invocation, AllocError>
    ensures { IfOk result (ComesTo command.Lint (given_in lint.now) terminals) }
{
    // The parser accepts no words without a size.
    let Some(size) = number_given(lint, "size") else {
        return Ok(Invocation::Shown(WRONG_WORDS));
    };
    Ok(Invocation::Asked(lint_in(alloc, lint, size, terminals)?))
}

/// What the words of `run` come to.
fn run_words<R: Eprint>(
    rt: &R,
    alloc: Global,
    run: &ArgMatches<'_>,
    terminals: Terminals,
) -> Result<Invocation, AllocError>
    ensures { IfOk result (ComesTo command.Run (given_in run.now) terminals) }
{
    match run_in(alloc, run, terminals)? {
        Ok(request) => Ok(Invocation::Asked(request)),
        Err(wrong) => Ok(show_wrong_filter(rt, wrong)),
    }
}

/// Says what is wrong with a word that was to name a filter.
fn show_wrong_filter<R: Eprint>(rt: &R, wrong: WrongFilter<'_>) -> Invocation
    ensures { result ≡ Invocation.Shown 2 }
{
    let _ = match wrong {
        WrongFilter::Word(word) => eprintln!(rt;
            "error: '--filter {word}' is not '--filter NAME=FILE', where NAME is letters, digits and _, does not begin with a digit, and has at most 64 bytes"
        ),
        WrongFilter::Twice(word) => eprintln!(rt;
            "error: '--filter {word}' gives a name that an earlier --filter gives"
        ),
    };
    Invocation::Shown(WRONG_WORDS)
}

/// What `explain` asks for: the page of a code, the codes of a class, or the classes.
fn explained_in<R: Eprint>(
    rt: &R,
    alloc: Global,
    explain: &ArgMatches<'_>,
    terminals: Terminals,
) -> Result<Invocation, AllocError>
    ensures { IfOk result (ComesTo command.Explain (given_in explain.now) terminals) }
{
    let code = word_given(explain, "code").unwrap_or("");
    if let Some(page) = page_of(alloc, code)? {
        return Ok(Invocation::Asked(Request::Explain { page }));
    }
    let _ = eprintln!(rt;
        "error: there is no code '{code}': a code is a letter and a number, as P2; `ncroute explain` lists the letters"
    );
    Ok(Invocation::Shown(WRONG_WORDS))
}
