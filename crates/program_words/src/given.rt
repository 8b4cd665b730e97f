//! What the words behind a command gave, by the name of each option and argument.
ghost use Rattle.std.specs.Prelude.{◌≡◌, IfOk, map, option_map, string_bytes};
ghost use Rattle.program_words.specs.Given as spec;

use clap::ArgMatches;
use std::alloc::{AllocError, Global};

/// The values of an option or an argument, in order.
pub fn words_given<'m, 'a: 'm>(matches: &'m ArgMatches<'a>, name: &str) -> &'m [&'a str]
    ensures { map (λ word. word.now) result.now ≡ spec.words_of name.now (spec.given_in matches.now) }
{
    matches.get_strs(name).unwrap_or_default()
}

/// The value of an option or an argument that takes one.
pub fn word_given<'a>(matches: &ArgMatches<'a>, name: &str) -> Option<&'a str>
    ensures { option_map (λ word. word.now) result ≡ spec.word_of name.now (spec.given_in matches.now) }
{
    matches.get_str(name)
}

/// Whether a flag stands among the words.
pub fn is_given(matches: &ArgMatches<'_>, name: &str) -> bool
    ensures { result ≡ spec.is_set name.now (spec.given_in matches.now) }
{
    matches.get_one::<bool>(name).unwrap_or(false)
}

/// The number of at most 32 bits that an option says.
pub fn number_given(matches: &ArgMatches<'_>, name: &str) -> Option<u32>
    ensures { result ≡ spec.number_of 32 name.now (spec.given_in matches.now) }
{
    matches.get_one::<u32>(name)
}

/// The number of at most 64 bits that an option says.
pub fn count_given(matches: &ArgMatches<'_>, name: &str) -> Option<u64>
    ensures { result ≡ spec.number_of 64 name.now (spec.given_in matches.now) }
{
    matches.get_one::<u64>(name)
}

/// A copy of the text that an option says, if it is given.
pub fn text_given(
    alloc: Global,
    matches: &ArgMatches<'_>,
    name: &str,
) -> Result<Option<String>, AllocError>
    ensures { IfOk result (λ text. option_map (λ copy. string_bytes copy) text ≡ spec.word_of name.now (spec.given_in matches.now)) }
{
    match word_given(matches, name) {
        Some(text) => Ok(Some(String::from_str(alloc, text)?)),
        None => Ok(None),
    }
}
