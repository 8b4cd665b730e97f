//! The words of the command line.
ghost use Rattle.std.specs.Prelude.{◌≡◌, ◌⊎◌, [], ℕ, List, IfErr, IfOk, map};
ghost use Rattle.clap.specs.Words.{IsAmong, fault_of, kind_of, matches_of};
ghost use Rattle.import_words.specs.Meaning.{ComesTo, FailsBy, IsMeant, reads_input};
ghost use Rattle.import_words.specs.Program.{program};
ghost use Rattle.program_words.specs.Given.{given_in};

use crate::program::{NUMBERED, program};
use clap::error::ErrorKind;
use clap::{ArgMatches, Error};
use line_protocol::StreamFault;
use program_words::{
    Source, WRONG_WORDS, arguments_of, number_given, one_source, show_wrong, text_given,
    with_size_at,
};
use std::alloc::{AllocError, Global};
use std::convert::AsStr;
use std::rt::Env;

/// How the filters of a configuration are imported.
#[derive(Drop)]
pub struct Importing {
    /// The number of nodes of the domains that they are verified for.
    pub size: u32,
    /// The folder of the files that they are written to, if they are.
    pub folder: Option<String>,
}

/// What the words of the command line come to.
#[derive(Drop)]
pub enum Invocation {
    /// They ask for the import of a configuration.
    Asked {
        /// How its filters are imported.
        how: Importing,
        /// Where it is.
        source: Source,
    },
    /// Help, or what is wrong with them, was shown. The program ends with this status.
    Shown(u8),
}

impl Invocation {
    /// Whether standard input is read.
    pub fn reads_input(&self) -> bool
        ensures { result ≡ reads_input self.now }
    {
        match self {
            Invocation::Asked { source, .. } => source.is_input(),
            Invocation::Shown(_) => false,
        }
    }
}

/// Reads the words that the program was started with, and where they say no size, that of the environment. Help goes to standard output, and what is
/// wrong with the words to standard error.
pub fn read<R: Env + AllocGlobal + Print + Eprint>(rt: &R) -> Result<Invocation, StreamFault>
    ensures meant { IfOk result (λ words. (line : List (List ℕ)) × IsMeant line words) }
    ensures fails { IfErr result (λ fault. (line : List (List ℕ)) × FailsBy line fault) }
{
    let alloc = rt.alloc();
    let words = arguments_of(rt, alloc).map_err(|_| StreamFault::Memory)?;
    let words = with_size_at(rt, alloc, words, 1).map_err(|_| StreamFault::Memory)?;
    request_of(rt, alloc, words.as_slice())
}

/// What the words ask for, the program's name being the first of them.
pub fn request_of<R: Print + Eprint, S: AsStr>(
    rt: &R,
    alloc: Global,
    words: &[S],
) -> Result<Invocation, StreamFault>
    ensures meant { IfOk result (IsMeant (map S.text words.now)) }
    ensures fails { IfErr result (FailsBy (map S.text words.now)) }
{
    match matches_of(alloc, words) {
        Ok(matches) => match asked_in(alloc, &matches) {
            Ok(asked) => Ok(asked),
            Err(_) => Err(StreamFault::Memory),
        },
        Err(error) => match show_wrong(rt, words, &NUMBERED, &error) {
            Ok(status) => Ok(Invocation::Shown(status)),
            Err(fault) => Err(fault),
        },
    }
}

/// What the parser of words makes of these.
fn matches_of<'a, S: AsStr>(alloc: Global, words: &'a [S]) -> Result<ArgMatches<'a>, Error>
    ensures accepted { IfOk result (λ matches. fault_of program (map S.text words.entry.now) ≡ []) }
    ensures matches { IfOk result (λ matches. given_in matches ≡ matches_of program (map S.text words.entry.now)) }
    ensures refused { IfErr result (λ error. (kind_of error ≡ ErrorKind.OutOfMemory)
        ⊎ IsAmong (kind_of error) (fault_of program (map S.text words.entry.now))) }
{
    program(alloc)?.try_get_matches_from(words)
}

/// What the words come to, where the parser of words accepted them.
fn asked_in(alloc: Global, matches: &ArgMatches<'_>) -> Result<Invocation, AllocError>
    ensures { IfOk result (ComesTo (given_in matches.now)) }
{
    // The parser accepts no words without a size.
    let Some(size) = number_given(matches, "size") else {
        return Ok(Invocation::Shown(WRONG_WORDS));
    };
    let how = Importing {
        size,
        folder: text_given(alloc, matches, "out")?,
    };
    Ok(Invocation::Asked {
        how,
        source: one_source(alloc, matches, "file")?,
    })
}
