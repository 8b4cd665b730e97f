//! The options of a router that the command line says, with those that its file says.
//!
//! **What may be said once is said in one place.** A value of the command line does not replace that of the file: a router runs as its file says,
//! and nobody has to look for the words with which it was started. What is said of several neighbours adds up.
ghost use Rattle.std.specs.Prelude.{◌≡◌, ◌++◌, ◌||◌, IfOk, MatchOption, OnOk, is_some, map, string_bytes};
ghost use Rattle.std.specs.Option.{option_map};
ghost use Rattle.std.specs.List.{flat_map};
ghost use Rattle.program_words.specs.Sources.{path_of};
ghost use Rattle.router_files.specs.Files.{statement_of};
ghost use Rattle.router_words.specs.Gathering as spec;
ghost use Rattle.router_words.specs.Stated.{nth_stated};

use crate::stated::{is_of, nth_stated};
use command_line::{NamedFile, RouterWords};
use line_protocol::is_name;
use program_words::Source;
use router_files::{RouterOption, Said, Statement, find_again};
use std::alloc::{AllocError, Global};

/// Why a line of a router's file does not go together with the command line, or with the names that filters have.
#[derive(Clone, Copy)]
pub enum StatementFault {
    /// The name that it gives to a filter is none.
    Name,
    /// The command line says so too.
    Beside,
}

/// A line of a router's file that is not to be there.
#[derive(Clone, Copy)]
pub enum Clash<'a> {
    /// It says again what an earlier one says.
    Again {
        /// It.
        later: &'a Statement,
        /// The earlier one.
        earlier: &'a Statement,
    },
    /// It is refused by itself.
    Wrong {
        /// It.
        statement: &'a Statement,
        /// Why.
        why: StatementFault,
    },
}

/// Whether the command line says an option that may be said once.
fn says(words: &RouterWords, option: RouterOption) -> bool
    ensures { result ≡ spec.says words.now option }
{
    match option {
        RouterOption::Size => words.size.is_some(),
        RouterOption::Node => words.node.is_some(),
        RouterOption::Limit => words.limit.is_some(),
        RouterOption::Queue => words.queue.is_some(),
        RouterOption::Retry => words.retry.is_some(),
        RouterOption::Hold => words.hold.is_some(),
        RouterOption::Segments => words.segments.is_some(),
        RouterOption::Settle => words.settle.is_some(),
        RouterOption::Save => words.save.is_some(),
        RouterOption::Routes => words.routes.is_some(),
        RouterOption::Log => words.log.is_some(),
        RouterOption::Stay => words.stays,
        RouterOption::Domain => words.domain.is_some(),
        RouterOption::AllowOtherDomain => words.allows_other,
        RouterOption::Prefix
        | RouterOption::Filter
        | RouterOption::Import
        | RouterOption::Export
        | RouterOption::Link
        | RouterOption::Control => false,
    }
}

/// Whether the command line gives this name to a filter.
fn gives_name(words: &RouterWords, name: &str) -> bool
    ensures { result ≡ spec.gives_name words.now name.now }
{
    words
        .filters
        .as_slice()
        .iter()
        .any(|named| named.name.as_str() == name)
}

/// Why a filter does not get this name.
fn fault_of_name(words: &RouterWords, name: &str) -> Option<StatementFault>
    ensures { result ≡ spec.fault_of_name words.now name.now }
{
    if !is_name(name.as_bytes()) {
        return Some(StatementFault::Name);
    }
    if gives_name(words, name) {
        return Some(StatementFault::Beside);
    }
    None
}

/// Why a line is not to be there beside the command line.
fn fault_of(words: &RouterWords, statement: &Statement) -> Option<StatementFault>
    ensures { result ≡ spec.fault_of words.now (statement_of statement.now) }
{
    if let Said::Named { name, .. } = &statement.said {
        return fault_of_name(words, name.as_str());
    }
    if says(words, statement.option) {
        return Some(StatementFault::Beside);
    }
    None
}

/// The first line that is refused by itself.
fn first_wrong<'a>(words: &RouterWords, statements: &'a [Statement]) -> Option<Clash<'a>>
    ensures { MatchOption result (spec.NoneWrong words.now (map statement_of statements.now))
        (spec.IsFirstWrong words.now (map statement_of statements.now)) }
{
    for statement in statements {
        if let Some(why) = fault_of(words, statement) {
            return Some(Clash::Wrong { statement, why });
        }
    }
    None
}

/// The first line that is not to be there: one that says again what an earlier one says, or one that is refused by itself.
pub fn find_clash<'a>(words: &RouterWords, statements: &'a [Statement]) -> Option<Clash<'a>>
    ensures { MatchOption result (spec.Fit words.now (map statement_of statements.now))
        (spec.IsClash words.now (map statement_of statements.now)) }
{
    match find_again(statements) {
        Some(again) => Some(Clash::Again {
            later: again.later,
            earlier: again.earlier,
        }),
        None => first_wrong(words, statements),
    }
}

/// The number that a line says.
fn number_in(statement: &Statement) -> Option<u32>
    ensures { result ≡ spec.number_in (statement_of statement.now) }
{
    match &statement.said {
        Said::Number(number) => Some(*number),
        _ => None,
    }
}

/// The text that a line says.
fn text_in(statement: &Statement) -> Option<&str>
    ensures { option_map (λ text. text.now) result ≡ spec.text_in (statement_of statement.now) }
{
    match &statement.said {
        Said::Text(text) => Some(text.as_str()),
        _ => None,
    }
}

/// The number of an option: that of the command line, or else that of the file.
fn number_of(given: Option<u32>, statements: &[Statement], option: RouterOption) -> Option<u32>
    ensures { result ≡ spec.number_of given option (map statement_of statements.now) }
{
    if given.is_some() {
        return given;
    }
    match nth_stated(statements, option, 0) {
        Some(statement) => number_in(statement),
        None => None,
    }
}

/// A copy of a text, if there is one.
fn copy_of(alloc: Global, text: Option<&str>) -> Result<Option<String>, AllocError>
    ensures { IfOk result (λ copy. option_map (λ text. string_bytes text) copy ≡ option_map (λ text. text.now) text.entry) }
{
    match text {
        Some(text) => Ok(Some(String::from_str(alloc, text)?)),
        None => Ok(None),
    }
}

/// The text that the file says of an option.
fn stated_text(statements: &[Statement], option: RouterOption) -> Option<&str>
    ensures { option_map (λ text. text.now) result ≡ spec.stated_text option (map statement_of statements.now) }
{
    match nth_stated(statements, option, 0) {
        Some(statement) => text_in(statement),
        None => None,
    }
}

/// The text of an option: that of the command line, or else that of the file.
fn text_of(
    alloc: Global,
    given: &Option<String>,
    statements: &[Statement],
    option: RouterOption,
) -> Result<Option<String>, AllocError>
    ensures { IfOk result (λ text. option_map (λ text. string_bytes text) text
        ≡ spec.text_of (option_map (λ text. string_bytes text) given.now) option (map statement_of statements.now)) }
{
    match given {
        Some(text) => copy_of(alloc, Some(text.as_str())),
        None => copy_of(alloc, stated_text(statements, option)),
    }
}

/// Adds what a line says of an option, if it does.
fn add_stated(
    alloc: Global,
    texts: &mut Vec<String>,
    statement: &Statement,
    option: RouterOption,
) -> Result<(), AllocError>
    ensures { OnOk result (map (λ text. string_bytes text) texts.new.items
        ≡ map (λ text. string_bytes text) texts.old.items ++ spec.texts_in option (statement_of statement.now)) }
{
    if !is_of(statement, option) {
        return Ok(());
    }
    match text_in(statement) {
        Some(text) => {
            let copy = String::from_str(alloc, text)?;
            texts.push(copy)?;
            Ok(())
        }
        None => Ok(()),
    }
}

/// What the file says of an option, line by line.
fn stated_texts(
    alloc: Global,
    statements: &[Statement],
    option: RouterOption,
) -> Result<Vec<String>, AllocError>
    ensures { IfOk result (λ texts. map (λ text. string_bytes text) texts.items ≡ flat_map (spec.texts_in option) (map statement_of statements.now)) }
{
    let mut texts = Vec::new(alloc);
    for statement in statements {
        add_stated(alloc, &mut texts, statement, option)?;
    }
    Ok(texts)
}

/// What the file says of an option, and then what the command line says.
fn texts_of(
    alloc: Global,
    statements: &[Statement],
    option: RouterOption,
    given: &[String],
) -> Result<Vec<String>, AllocError>
    ensures { IfOk result (λ texts. map (λ text. string_bytes text) texts.items
        ≡ spec.texts_of option (map statement_of statements.now) (map (λ text. string_bytes text) given.now)) }
{
    let mut texts = stated_texts(alloc, statements, option)?;
    for text in given {
        let copy = String::from_str(alloc, text.as_str())?;
        texts.push(copy)?;
    }
    Ok(texts)
}

/// Adds the filter that a line names, if it names one.
fn add_named(
    alloc: Global,
    filters: &mut Vec<NamedFile>,
    statement: &Statement,
) -> Result<(), AllocError>
    ensures { OnOk result (map spec.filter_of filters.new.items ≡ map spec.filter_of filters.old.items ++ spec.filters_in (statement_of statement.now)) }
{
    match &statement.said {
        Said::Named { name, file } => {
            let name = String::from_str(alloc, name.as_str())?;
            let source = Source::File(String::from_str(alloc, file.as_str())?);
            filters.push(NamedFile { name, source })?;
            Ok(())
        }
        _ => Ok(()),
    }
}

/// The filters that the file names, line by line.
fn stated_filters(alloc: Global, statements: &[Statement]) -> Result<Vec<NamedFile>, AllocError>
    ensures { IfOk result (λ filters. map spec.filter_of filters.items ≡ flat_map spec.filters_in (map statement_of statements.now)) }
{
    let mut filters = Vec::new(alloc);
    for statement in statements {
        add_named(alloc, &mut filters, statement)?;
    }
    Ok(filters)
}

/// A copy of a source.
fn copy_of_source(alloc: Global, source: &Source) -> Result<Source, AllocError>
    ensures { IfOk result (λ copy. path_of copy ≡ path_of source.now) }
{
    match source {
        Source::Input => Ok(Source::Input),
        Source::File(name) => Ok(Source::File(String::from_str(alloc, name.as_str())?)),
    }
}

/// The filters that the file names, and then those that the command line names.
fn filters_of(
    alloc: Global,
    statements: &[Statement],
    given: &[NamedFile],
) -> Result<Vec<NamedFile>, AllocError>
    ensures { IfOk result (λ filters. map spec.filter_of filters.items
        ≡ flat_map spec.filters_in (map statement_of statements.now) ++ map spec.filter_of given.now) }
{
    let mut filters = stated_filters(alloc, statements)?;
    for named in given {
        let name = String::from_str(alloc, named.name.as_str())?;
        let source = copy_of_source(alloc, &named.source)?;
        filters.push(NamedFile { name, source })?;
    }
    Ok(filters)
}

/// Whether an option without a value is said: by the command line, or by the file.
fn is_stated(given: bool, statements: &[Statement], option: RouterOption) -> bool
    ensures { result ≡ (given || is_some (nth_stated option 0 (map statement_of statements.now))) }
{
    given || nth_stated(statements, option, 0).is_some()
}

/// What the command line and the file say together.
pub fn gather(
    alloc: Global,
    words: &RouterWords,
    statements: &[Statement],
) -> Result<RouterWords, AllocError>
    ensures { IfOk result (spec.Gathers words.now (map statement_of statements.now)) }
{
    Ok(RouterWords {
        config: None,
        checks: words.checks,
        domain: text_of(alloc, &words.domain, statements, RouterOption::Domain)?,
        allows_other: is_stated(
            words.allows_other,
            statements,
            RouterOption::AllowOtherDomain,
        ),
        size: number_of(words.size, statements, RouterOption::Size),
        node: number_of(words.node, statements, RouterOption::Node),
        limit: number_of(words.limit, statements, RouterOption::Limit),
        queue: number_of(words.queue, statements, RouterOption::Queue),
        retry: number_of(words.retry, statements, RouterOption::Retry),
        hold: number_of(words.hold, statements, RouterOption::Hold),
        save: text_of(alloc, &words.save, statements, RouterOption::Save)?,
        segments: number_of(words.segments, statements, RouterOption::Segments),
        routes: text_of(alloc, &words.routes, statements, RouterOption::Routes)?,
        settle: number_of(words.settle, statements, RouterOption::Settle),
        log: text_of(alloc, &words.log, statements, RouterOption::Log)?,
        stays: is_stated(words.stays, statements, RouterOption::Stay),
        prefixes: texts_of(
            alloc,
            statements,
            RouterOption::Prefix,
            words.prefixes.as_slice(),
        )?,
        filters: filters_of(alloc, statements, words.filters.as_slice())?,
        imports: texts_of(
            alloc,
            statements,
            RouterOption::Import,
            words.imports.as_slice(),
        )?,
        exports: texts_of(
            alloc,
            statements,
            RouterOption::Export,
            words.exports.as_slice(),
        )?,
        links: texts_of(
            alloc,
            statements,
            RouterOption::Link,
            words.links.as_slice(),
        )?,
        controls: texts_of(
            alloc,
            statements,
            RouterOption::Control,
            words.controls.as_slice(),
        )?,
    })
}
