//! The filters that the words `--filter NAME=FILE` name.
ghost use Rattle.std.specs.Prelude.{◌≡◌, false, true, IfErr, IfOk, MatchOption, codes, length, map, string_bytes};
ghost use Rattle.command_line.specs.Filters as spec;
ghost use Rattle.program_words.specs.Given.{given_in, words_of};
ghost use Rattle.command_line.specs.Meaning.{AreFilters};

use clap::ArgMatches;
use line_protocol::is_name;
use program_words::{Source, source_of, words_given};
use std::alloc::{AllocError, Global};

/// A filter that a script is started with.
#[derive(Drop)]
pub struct NamedFile {
    /// Its name.
    pub name: String,
    /// Where its text is.
    pub source: Source,
}

/// What is wrong with a word of `--filter`.
#[derive(Clone, Copy)]
pub enum WrongFilter<'a> {
    /// It is not `NAME=FILE`, with a name as scripts have them.
    Word(&'a str),
    /// Its name is that of an earlier word.
    Twice(&'a str),
}

/// The filter that a word names, if it names one.
fn filter_of(alloc: Global, word: &str) -> Result<Option<NamedFile>, AllocError>
    ensures { IfOk result (λ named. MatchOption named (spec.names_filter word.now ≡ false) (spec.IsFilterWord word.now)) }
{
    match word.split_once('=') {
        Some((name, file)) if is_name(name.as_bytes()) => Ok(Some(NamedFile {
            name: String::from_str(alloc, name)?,
            source: source_of(alloc, file)?,
        })),
        _ => Ok(None),
    }
}

/// Whether one of these filters has this name.
fn has_name(filters: &[NamedFile], name: &str) -> bool
    ensures { result ≡ spec.has_name filters.now name.now }
{
    for named in filters {
        if named.name.as_str() == name {
            return true;
        }
    }
    false
}

/// The filters that these words name, in order, or the first word that is wrong.
pub fn filters_in<'a>(
    alloc: Global,
    words: &[&'a str],
) -> Result<Result<Vec<NamedFile>, WrongFilter<'a>>, AllocError>
    ensures filters { IfOk result (λ read. IfOk read (λ filters.
        spec.NameFirst (map (λ word. word.now) words.now) (length words.now) filters.items)) }
    ensures wrong { IfOk result (λ read. IfErr read (spec.HasWrong (map (λ word. word.now) words.now))) }
{
    let mut filters = Vec::new(alloc);
    for word in words {
        match filter_of(alloc, word)? {
            None => return Ok(Err(WrongFilter::Word(word))),
            Some(named) => {
                if has_name(filters.as_slice(), named.name.as_str()) {
                    return Ok(Err(WrongFilter::Twice(word)));
                }
                filters.push(named)?;
            }
        }
    }
    Ok(Ok(filters))
}

/// The filters that the words of a command name, in order, or the first word of `--filter` that is wrong.
pub(crate) fn filters_given<'a>(
    alloc: Global,
    matches: &ArgMatches<'a>,
) -> Result<Result<Vec<NamedFile>, WrongFilter<'a>>, AllocError>
    ensures filters { IfOk result (λ read. IfOk read (λ filters. AreFilters (given_in matches.now) filters.items)) }
    ensures wrong { IfOk result (λ read. IfErr read (spec.HasWrong (words_of (codes "filter") (given_in matches.now)))) }
{
    filters_in(alloc, words_given(matches, "filter"))
}
