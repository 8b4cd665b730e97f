//! Which of the standard streams are terminals.
//!
//! **The words of `--explain` are passed to the functions that make the commands**, since clap keeps a reference to them in what a contract sees of
//! a command: so the definition of the program takes them too, whichever place in memory they have.
ghost use Rattle.std.specs.Prelude.{◌≡◌, ◌-◌, ◌^◌, ◌&&◌, [], ◌∷◌, min, nat_lt};
ghost use Rattle.command_line.specs.Readings as spec;
ghost use Rattle.command_line.specs.Reads.{filter_sources};

use crate::filter_words::NamedFile;
use crate::requests::Request;
use crate::router_words::RouterWords;
use crate::words::Invocation;
use program_words::Source;

/// Which of the standard streams that people type into or read are terminals.
#[derive(Clone, Copy)]
pub struct Terminals {
    /// Standard input is one.
    pub input: bool,
    /// Standard error is one.
    pub errors: bool,
}

/// How many of these sources are standard input.
fn inputs_among(sources: &[Source]) -> usize
    ensures { result ≡ spec.inputs_among sources.now }
{
    sources.iter().filter(|source| source.is_input()).count()
}

/// How many of these filters are on standard input.
fn filters_among(filters: &[NamedFile]) -> usize
    ensures { result ≡ spec.inputs_among (filter_sources filters.now) }
{
    filters
        .iter()
        .filter(|named| named.source.is_input())
        .count()
}

/// How often a router reads standard input to its end: what its filters leave of it, if anything is left, unless it is not started.
fn readings_by_router(words: &RouterWords) -> usize
    ensures { result ≡ spec.readings_by_router words.now }
{
    let filters = filters_among(words.filters.as_slice());
    if words.checks {
        filters
    } else {
        filters.max(1)
    }
}

/// How often what is asked for reads standard input to its end.
fn count_readings(words: &Invocation) -> usize
    ensures { result ≡ min (spec.readings words.now) (2 ^ 64 - 1) }
{
    match words {
        Invocation::Router(words) => readings_by_router(words),
        Invocation::Asked(request) => count_of(request),
        Invocation::Network | Invocation::Shown(_) => 0,
    }
}

/// How often a request reads standard input.
fn count_of(request: &Request) -> usize
    ensures { result ≡ min (spec.readings_of request.now) (2 ^ 64 - 1) }
{
    match request {
        Request::Check { sources, .. }
        | Request::Lint { sources, .. }
        | Request::Replay { sources }
        | Request::Test { sources, .. } => inputs_among(sources.as_slice()),
        Request::Compare { old, new, .. } | Request::Diff { old, new, .. } => {
            input_in(old).saturating_add(input_in(new))
        }
        Request::Run { how, sources } => {
            filters_among(how.filters.as_slice()).saturating_add(inputs_among(sources.as_slice()))
        }
        Request::Domain { source, .. }
        | Request::List { source, .. }
        | Request::Page { source, .. } => input_in(source),
        Request::Filter { source, .. } => input_in(source).saturating_add(1),
        Request::Eval { .. } | Request::Rewrite { .. } => 1,
        Request::Explain { .. } => 0,
    }
}

/// How often one source is standard input.
fn input_in(source: &Source) -> usize
    ensures { result ≡ spec.inputs_among (source.now ∷ []) }
{
    usize::from(source.is_input())
}

/// Whether what is asked for reads standard input more than once, and would find nothing there the second time.
pub(crate) fn reads_input_again(words: &Invocation) -> bool
    ensures { result ≡ nat_lt 1 (spec.readings words.now) }
{
    count_readings(words) > 1
}

/// Whether people are waited for: standard input is read, and they type it.
pub fn waits_for_people(words: &Invocation, terminals: Terminals) -> bool
    ensures { result ≡ terminals.input && nat_lt 0 (spec.readings words.now) }
{
    terminals.input && count_readings(words) > 0
}
