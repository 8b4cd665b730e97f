//! Where the texts are that a program reads.
ghost use Rattle.std.specs.Prelude.{◌≡◌, IfOk};
ghost use Rattle.program_words.specs.Given.{given_in};
ghost use Rattle.program_words.specs.Sources as spec;

use crate::given::word_given;
use clap::ArgMatches;
use std::alloc::{AllocError, Global};

/// Where a source comes from.
#[derive(Drop)]
pub enum Source {
    /// Standard input.
    Input,
    /// The file of this name.
    File(String),
}

impl Source {
    /// Whether it is standard input.
    pub fn is_input(&self) -> bool
        ensures { result ≡ spec.is_input self.now }
    {
        matches!(self, Source::Input)
    }
}

/// The source of a name: standard input for `-`.
pub fn source_of(alloc: Global, name: &str) -> Result<Source, AllocError>
    ensures { IfOk result (spec.IsNamed name.now) }
{
    if name == "-" {
        Ok(Source::Input)
    } else {
        Ok(Source::File(String::from_str(alloc, name)?))
    }
}

/// The source that an argument names, which takes one: standard input where it is not given.
pub fn one_source(
    alloc: Global,
    matches: &ArgMatches<'_>,
    argument: &str,
) -> Result<Source, AllocError>
    ensures { IfOk result (spec.IsNamed (spec.one_name argument.now (given_in matches.now))) }
{
    source_of(alloc, word_given(matches, argument).unwrap_or("-"))
}
