//! From a configuration of BIRD to verified filters, in files of their own.
ghost use Rattle.std.specs.Option.{option_map};
ghost use Rattle.std.specs.Prelude.{◌≡◌, ◌≤◌, ℕ, false, [], ◌++◌, IfOk, Ok, OnOk, Some, is_some, string_bytes};
ghost use Rattle.program_console.specs.Following.{DoesAll, FindsNext};
ghost use Rattle.ncimport.specs.Importing.{AreWordsFor, ImportsConfig, ImportsCut, ImportsConversion, ImportsResult};
ghost use Rattle.ncimport.specs.Importing.{ImportsParts, ImportsRead, ImportsSource, ImportsText, ImportsWords, IsFilterResult};
ghost use Rattle.ncimport.specs.Importing.{IsResultOfText, IsResultOfWords, IsNoted, IsNotedText, IsRefusedText, IsLeftOutFor};
ghost use Rattle.ncimport.specs.Importing.{LacksFolder, SavesFilter, SavesText, TellsEnd, TellsStrange, TellsWord, byte_line};
ghost use Rattle.ncimport.specs.Importing.{end_words, ends_in_slash, result_words, file_name, file_path, head_for, head_of, inner_path};
ghost use Rattle.ncimport.specs.Importing.{is_outside, result_line, origin_line, origins_for, outside_line, path_words};
ghost use Rattle.ncimport.specs.Importing.{slash_behind, strange_words, text_for, text_in};
ghost use Rattle.ncimport.specs.Noting.{place_from};
ghost use Rattle.ncimport.specs.Places.{config_of};
ghost use Rattle.program_console.specs.Streaming.{Tells, Writes};
ghost use Rattle.filter_reports.specs.Check.{IsRefused};
ghost use Rattle.filter_parser.specs.Telling.{TellsRound};
ghost use Rattle.filter_parser.specs.Unspelled.{IsUnspelled};
ghost use Rattle.filter_source.specs.Diagnoses.{TellsOfText};
ghost use Rattle.filter_source.specs.VerifiedLine.{verified_line};
ghost use Rattle.refusal_words.specs.Explanations.{AreRefusalWords};

use crate::including::{Whole, push_texts, read_whole};
use crate::placed::{PlacedConfig, notes_of, place_from};
use bird_import::{
    Config, Conversion, ConversionOutcome, Cut, FilterText, TextOutcome, Why, Word, WordKind,
    cut_words, find_definitions, find_items, make_conversions, reason_words, write_filter,
};
use filter_parser::{Around, Unparsed};
use filter_reports::{FAILED, ProgramFault, placed_code, status_of_found};
use filter_source::{Diagnosis, Failure, Refusal, SOURCE_LIMIT, push_verified};
use filter_tokens::TokenFault;
use filter_verifier::Verified;
use import_words::Importing;
use line_protocol::write_text;
use program_console::{Console, Folder, is_any, tell_uncreated, tell_unwritten};
use program_words::Source;
use refusal_words::{push_shown, refusal_words};
use std::alloc::{AllocError, Global};
use std::io::{ErrorKind, Read, Write};

/// The most bytes of the head of a filter's text that has more than one line.
const HEAD_LIMIT: usize = 8_192;

/// What is written of a filter, and what is told of it.
#[derive(Drop)]
struct FilterResult {
    /// Its text, where it is verified.
    text: Option<Vec<u8>>,
    /// What is told: the place, and what comes of the filter.
    at: usize,
    /// `verified BUDGET DEPTH` with a line feed, or why it is left out.
    words: Vec<u8>,
    /// The lines of what else is said of it. None of one that is left out.
    notes: Vec<u8>,
}

/// The words of a reason, as they are shown.
fn shown_reason(alloc: Global, why: Why<'_>) -> Result<Vec<u8>, AllocError>
    ensures { IfOk result (λ words. AreWordsFor why.entry words.items) }
{
    let plain = reason_words(alloc, why)?;
    let mut words = Vec::new(alloc);
    push_shown(alloc, &mut words, plain.as_slice())?;
    Ok(words)
}

/// What is told of a filter that is left out.
fn left_out(alloc: Global, at: usize, why: Why<'_>) -> Result<FilterResult, AllocError>
    ensures text { IfOk result (λ filter_result. text_in filter_result ≡ None) }
    ensures told { IfOk result (IsLeftOutFor at why.entry) }
    ensures notes { IfOk result (λ filter_result. filter_result.notes.items ≡ []) }
{
    Ok(FilterResult {
        text: None,
        at,
        words: shown_reason(alloc, why)?,
        notes: Vec::new(alloc),
    })
}

/// The line of a filter that is verified.
fn verified_line(alloc: Global, verified: &Verified) -> Result<Vec<u8>, AllocError>
    ensures { IfOk result (λ line. line.items ≡ verified_line verified.now.program) }
{
    let mut line = Vec::new(alloc);
    push_verified(&mut line, verified)?;
    Ok(line)
}

/// Whether a place is outside of a filter that begins at one place and ends at another.
fn is_outside(from: usize, to: usize, at: usize) -> bool
    ensures { result ≡ is_outside from to at }
{
    at < from || at > to
}

/// Adds a comment that tells the place of a word outside of the filter, where the word before it is inside.
fn push_outside(
    alloc: Global,
    head: &mut Vec<u8>,
    placed: &PlacedConfig<'_>,
    conversion: &Conversion<'_>,
    last: usize,
    at: usize,
) -> Result<(), AllocError>
    ensures { OnOk result (head.new.items
        ≡ head.old.items ++ outside_line placed.now conversion.now.at conversion.now.end last at) }
{
    if is_outside(conversion.at, conversion.end, at)
        && !is_outside(conversion.at, conversion.end, last)
    {
        push_origin(alloc, head, placed, b"# and ", at)
    } else {
        Ok(())
    }
}

/// Where the words of a filter come from, as comments at the head of its text.
fn head_of(
    alloc: Global,
    placed: &PlacedConfig<'_>,
    conversion: &Conversion<'_>,
    words: &[Word<'_>],
) -> Result<Vec<u8>, AllocError>
    ensures { IfOk result (λ head. head.items ≡ head_of placed.now conversion.now.at conversion.now.end words.now) }
{
    let mut head = Vec::new(alloc);
    push_origin(alloc, &mut head, placed, b"# From ", conversion.at)?;
    let mut last = conversion.at;
    for word in words {
        push_outside(alloc, &mut head, placed, conversion, last, word.at)?;
        last = word.at;
    }
    Ok(head)
}

/// The head of a filter's text. Where it would be long it has the place of the filter alone, so that no filter is too long for its head.
fn head_for(
    alloc: Global,
    placed: &PlacedConfig<'_>,
    conversion: &Conversion<'_>,
    words: &[Word<'_>],
) -> Result<Vec<u8>, AllocError>
    ensures { IfOk result (λ head. head.items ≡ head_for placed.now conversion.now.at conversion.now.end words.now) }
{
    let whole = head_of(alloc, placed, conversion, words)?;
    if whole.len() <= HEAD_LIMIT {
        return Ok(whole);
    }
    let mut head = Vec::new(alloc);
    push_origin(alloc, &mut head, placed, b"# From ", conversion.at)?;
    Ok(head)
}

/// Adds a comment that tells a place of a configuration.
fn push_origin(
    alloc: Global,
    head: &mut Vec<u8>,
    placed: &PlacedConfig<'_>,
    words: &[u8],
    at: usize,
) -> Result<(), AllocError>
    ensures { OnOk result (head.new.items ≡ head.old.items ++ origin_line words.now placed.now at) }
{
    head.extend_from_slice(words)?;
    placed.push_place(alloc, head, at)?;
    head.push(b'\n')?;
    Ok(())
}

/// Writes the text of a filter, and verifies it.
fn make_filter(
    alloc: Global,
    placed: &PlacedConfig<'_>,
    size: u32,
    conversion: &Conversion<'_>,
    words: &[Word<'_>],
) -> Result<FilterResult, AllocError>
    ensures filter_result { IfOk result (IsResultOfWords size conversion.now.at words.now (text_for placed.now conversion.now.at conversion.now.end words.now)
        (origins_for placed.now conversion.now.at conversion.now.end words.now)) }
    ensures noted { IfOk result (IsNotedText placed.now conversion.now.name.now size conversion.now.at
        (text_for placed.now conversion.now.at conversion.now.end words.now) (origins_for placed.now conversion.now.at conversion.now.end words.now)) }
{
    let head = head_for(alloc, placed, conversion, words)?;
    let written = write_filter(alloc, head.as_slice(), words)?;
    let text_outcome = written.text_outcome;
    match text_outcome {
        TextOutcome::Taken => verify_filter(alloc, placed, size, conversion, written),
        TextOutcome::Refused(why) => refuse_text(alloc, conversion.at, &written, why),
        TextOutcome::Garbled => left_out(alloc, conversion.at, Why::Unwritten),
        TextOutcome::Unset(index) => {
            let word = words[index];
            left_out(alloc, word.at, Why::Unset(word.bytes))
        }
    }
}

/// What is told of a filter whose text is refused, which begins at a place.
fn refused(
    alloc: Global,
    at: usize,
    written: &FilterText,
    diagnosis: &Diagnosis,
) -> Result<FilterResult, AllocError>
    ensures text { IfOk result (λ filter_result. text_in filter_result ≡ None) }
    ensures words { IfOk result (λ filter_result. AreRefusalWords diagnosis.now filter_result.words.items) }
    ensures place { IfOk result (λ filter_result. filter_result.at ≡ place_from written.now.origins.items at diagnosis.now.byte) }
    ensures notes { IfOk result (λ filter_result. filter_result.notes.items ≡ []) }
{
    Ok(FilterResult {
        text: None,
        at: place_from(written.origins.as_slice(), diagnosis.byte, at),
        words: refusal_words(alloc, written.text.as_slice(), diagnosis)?,
        notes: Vec::new(alloc),
    })
}

/// What is told of a text that the parser refuses, as of a source: its length comes first.
fn source_diagnosis(text: &[u8], why: Unparsed) -> Diagnosis
    ensures { IsUnspelled text.now why.fault → TellsRound text.now why.fault why.around
        → IsRefused false text.now result.refusal × TellsOfText text.now result }
{
    if text.len() > SOURCE_LIMIT {
        Diagnosis::of_source(Refusal::TooLong, Around::nothing())
    } else {
        Diagnosis::of_source(Refusal::Parse(why.fault), why.around)
    }
}

/// What is told of a filter, which begins at a place, whose text the parser refuses.
fn refuse_text(
    alloc: Global,
    at: usize,
    written: &FilterText,
    why: Unparsed,
) -> Result<FilterResult, AllocError>
    requires unspelled { IsUnspelled written.now.text.items why.fault }
    requires round { TellsRound written.now.text.items why.fault why.around }
    ensures text { IfOk result (λ filter_result. text_in filter_result ≡ None) }
    ensures told { IfOk result (λ filter_result. (size : ℕ) → IsRefusedText size at written.now.text.items written.now.origins.items filter_result) }
    ensures notes { IfOk result (λ filter_result. filter_result.notes.items ≡ []) }
{
    let diagnosis = source_diagnosis(written.text.as_slice(), why);
    refused(alloc, at, written, &diagnosis)
}

/// Verifies the text of a filter for domains of a size.
fn verify_filter(
    alloc: Global,
    placed: &PlacedConfig<'_>,
    size: u32,
    conversion: &Conversion<'_>,
    written: FilterText,
) -> Result<FilterResult, AllocError>
    ensures filter_result { IfOk result (IsResultOfText size conversion.now.at written.text.items written.origins.items) }
    ensures noted { IfOk result (IsNotedText placed.now conversion.now.name.now size conversion.now.at written.text.items written.origins.items) }
{
    match placed_code(alloc, written.text.as_slice(), size) {
        Ok(code) => {
            let words = verified_line(alloc, &code.verified)?;
            let (text, origins) = (written.text.as_slice(), written.origins.as_slice());
            let notes = notes_of(alloc, placed, conversion, text, origins, &code)?;
            Ok(FilterResult {
                text: Some(written.text),
                at: conversion.at,
                words,
                notes,
            })
        }
        Err(Failure::Refused(diagnosis)) => refused(alloc, conversion.at, &written, &diagnosis),
        Err(Failure::Memory) => Err(AllocError),
    }
}

/// What comes of a filter.
fn make(
    alloc: Global,
    placed: &PlacedConfig<'_>,
    size: u32,
    conversion: &Conversion<'_>,
) -> Result<FilterResult, AllocError>
    ensures filter_result { IfOk result (IsFilterResult placed.now size conversion.now) }
    ensures noted { IfOk result (IsNoted placed.now size conversion.now) }
{
    match &conversion.outcome {
        ConversionOutcome::LeftOut(reason) => left_out(alloc, reason.at, reason.why),
        ConversionOutcome::Converted(words) => make_filter(
            alloc,
            placed,
            size,
            conversion,
            words.as_slice(),
        ),
    }
}

/// Whether the last byte of a text is a slash.
fn ends_in_slash(text: &[u8]) -> bool
    ensures { result ≡ ends_in_slash text.now }
{
    match text.last() {
        Some(byte) => *byte == b'/',
        None => false,
    }
}

/// What stands between the path of a folder and a name in it.
fn slash_behind(folder: &str) -> &'static str
    ensures { result.now ≡ slash_behind folder.now }
{
    if ends_in_slash(folder.as_bytes()) {
        ""
    } else {
        "/"
    }
}

/// A name that can be that of a file: nothing of one that is not UTF-8.
#[tactic(auto, using(crate::proofs::FileNames::utf8_name, crate::proofs::FileNames::no_name))]
fn file_name(name: &[u8]) -> &str
    ensures { result.now ≡ file_name name.now }
{
    match str::from_utf8(name) {
        Ok(name) => name,
        Err(_) => "",
    }
}

/// The path of the file of a filter in a folder.
fn file_path(alloc: Global, folder: &str, name: &[u8]) -> Result<String, AllocError>
    ensures { IfOk result (λ path. string_bytes path ≡ file_path folder.now name.now) }
{
    let mut path = String::from_str(alloc, folder)?;
    path.push_str(slash_behind(folder))?;
    path.push_str(file_name(name))?;
    path.push_str(".filter")?;
    Ok(path)
}

/// Writes a text into a file that was made. Returns whether all of it was written; people are told where it was not.
fn save_in<F: Folder, R: Read, W: Write, E: Write>(
    files: &F,
    alloc: Global,
    path: &str,
    file: F::New,
    text: &[u8],
    console: &mut Console<R, W, E>,
) -> Result<bool, ProgramFault>
    requires { F.creates files.now path.now (Ok (F.New.contents file)) }
    ensures { IfOk result (SavesText (F.creates files.now) (F.leaves files.now) path.now text.now console.old console.new) }
{
    let mut file = file;
    if write_text(&mut file, text).is_err() {
        tell_unwritten(alloc, &mut console.errors, path)?;
        return Ok(false);
    }
    files.close(path, file);
    Ok(true)
}

/// Writes a text into a new file. Returns whether that was done; people are told where no file was made, or where it did not get all.
fn save<F: Folder, R: Read, W: Write, E: Write>(
    files: &F,
    alloc: Global,
    path: &str,
    text: &[u8],
    console: &mut Console<R, W, E>,
) -> Result<bool, ProgramFault>
    ensures { IfOk result (SavesText (F.creates files.now) (F.leaves files.now) path.now text.now console.old console.new) }
{
    match files.create(path) {
        Ok(file) => save_in(files, alloc, path, file, text, console),
        Err(error) => {
            tell_uncreated(alloc, &mut console.errors, path, &error)?;
            Ok(false)
        }
    }
}

/// The line that tells what comes of a filter, and those of what else is said of it. `path` is the name of its file, where it has one.
fn result_line(
    alloc: Global,
    placed: &PlacedConfig<'_>,
    name: &[u8],
    filter_result: &FilterResult,
    path: Option<&str>,
) -> Result<Vec<u8>, AllocError>
    ensures { IfOk result (λ line. line.items ≡ result_line placed.now name.now filter_result.now (option_map (λ path. path.now) path.entry)) }
{
    let mut line = Vec::new(alloc);
    placed.push_place(alloc, &mut line, filter_result.at)?;
    line.extend_from_slice(b" filter ")?;
    push_shown(alloc, &mut line, name)?;
    push_path(alloc, &mut line, path)?;
    push_result(&mut line, filter_result)?;
    line.extend_from_slice(filter_result.notes.as_slice())?;
    Ok(line)
}

/// Adds the name of the file of a filter, where it has one.
fn push_path(alloc: Global, line: &mut Vec<u8>, path: Option<&str>) -> Result<(), AllocError>
    ensures { OnOk result (line.new.items ≡ line.old.items ++ path_words (option_map (λ path. path.now) path.entry)) }
{
    match path {
        Some(path) => {
            line.extend_from_slice(b" -> ")?;
            push_shown(alloc, line, path.as_bytes())
        }
        None => Ok(()),
    }
}

/// Adds what comes of a filter, to the end of the line.
fn push_result(line: &mut Vec<u8>, filter_result: &FilterResult) -> Result<(), AllocError>
    ensures { OnOk result (line.new.items ≡ line.old.items ++ result_words (is_some (text_in filter_result.now)) filter_result.now.words.items) }
{
    let words = filter_result.words.as_slice();
    match filter_result.text {
        Some(_) => push_texts(line, &[b" ", words]),
        None => push_texts(line, &[b": ", words, b": this filter was left out\n"]),
    }
}

/// Tells what comes of a filter. `path` is the name of its file, where it has one.
fn tell_result<R: Read, W: Write, E: Write>(
    alloc: Global,
    placed: &PlacedConfig<'_>,
    name: &[u8],
    filter_result: &FilterResult,
    path: Option<&str>,
    console: &mut Console<R, W, E>,
) -> Result<(), ProgramFault>
    ensures { OnOk result (Writes (result_line placed.now name.now filter_result.now (option_map (λ path. path.now) path.entry))
        console.old console.new) }
{
    let line = result_line(alloc, placed, name, filter_result, path)?;
    console.write(line.as_slice())
}

/// Writes the text of a filter into a new file, and tells what came of it. Returns whether the filter is left out.
fn save_result<F: Folder, R: Read, W: Write, E: Write>(
    files: &F,
    alloc: Global,
    placed: &PlacedConfig<'_>,
    name: &[u8],
    filter_result: &FilterResult,
    text: &[u8],
    path: &str,
    console: &mut Console<R, W, E>,
) -> Result<bool, ProgramFault>
    ensures { IfOk result (SavesFilter (F.creates files.now) (F.leaves files.now) placed.now name.now filter_result.now text.now path.now console.old console.new) }
{
    if !save(files, alloc, path, text, console)? {
        return Ok(true);
    }
    tell_result(alloc, placed, name, filter_result, Some(path), console)?;
    Ok(false)
}

/// Writes a filter into its file, if there is a folder for it and it is verified, and tells what came of it. Returns whether it is left out.
fn import_result<F: Folder, R: Read, W: Write, E: Write>(
    files: &F,
    alloc: Global,
    how: &Importing,
    placed: &PlacedConfig<'_>,
    name: &[u8],
    filter_result: &FilterResult,
    console: &mut Console<R, W, E>,
) -> Result<bool, ProgramFault>
    ensures { IfOk result (ImportsResult (F.creates files.now) (F.leaves files.now) how.now.folder (text_in filter_result.now) placed.now name.now filter_result.now
        console.old console.new) }
{
    match (&how.folder, &filter_result.text) {
        (Some(folder), Some(text)) => {
            let path = file_path(alloc, folder.as_str(), name)?;
            let (text, path) = (text.as_slice(), path.as_str());
            save_result(
                files,
                alloc,
                placed,
                name,
                filter_result,
                text,
                path,
                console,
            )
        }
        (_, text) => {
            tell_result(alloc, placed, name, filter_result, None, console)?;
            Ok(text.is_none())
        }
    }
}

/// Makes a filter of a conversion, and imports it. Returns whether it is left out.
fn import_one<F: Folder, R: Read, W: Write, E: Write>(
    files: &F,
    alloc: Global,
    how: &Importing,
    placed: &PlacedConfig<'_>,
    conversion: &Conversion<'_>,
    console: &mut Console<R, W, E>,
) -> Result<bool, ProgramFault>
    ensures { IfOk result (ImportsConversion (F.creates files.now) (F.leaves files.now) how.now placed.now conversion.now console.old console.new) }
{
    let filter_result = make(alloc, placed, how.size, conversion)?;
    import_result(
        files,
        alloc,
        how,
        placed,
        conversion.name,
        &filter_result,
        console,
    )
}

/// The line that tells of a byte of a configuration.
fn byte_line(
    alloc: Global,
    placed: &PlacedConfig<'_>,
    at: usize,
    words: &str,
) -> Result<Vec<u8>, AllocError>
    ensures { IfOk result (λ line. line.items ≡ byte_line placed.now at words.now) }
{
    let mut line = Vec::new(alloc);
    placed.push_place(alloc, &mut line, at)?;
    push_texts(&mut line, &[b" ", words.as_bytes(), b"\n"])?;
    Ok(line)
}

/// Tells of a byte of a configuration that begins no word, or behind which nothing is known.
fn tell_byte<R: Read, W: Write, E: Write>(
    alloc: Global,
    placed: &PlacedConfig<'_>,
    at: usize,
    words: &str,
    console: &mut Console<R, W, E>,
) -> Result<(), ProgramFault>
    ensures { OnOk result (Writes (byte_line placed.now at words.now) console.old console.new) }
{
    let line = byte_line(alloc, placed, at, words)?;
    console.write(line.as_slice())
}

/// Imports the filters that conversions are of. Returns whether one of them is left out.
fn import_conversions<F: Folder, R: Read, W: Write, E: Write>(
    files: &F,
    alloc: Global,
    how: &Importing,
    placed: &PlacedConfig<'_>,
    conversions: &[Conversion<'_>],
    console: &mut Console<R, W, E>,
) -> Result<bool, ProgramFault>
    ensures { IfOk result (DoesAll false (FindsNext (ImportsConversion (F.creates files.now) (F.leaves files.now) how.now placed.now)) conversions.now
        console.old console.new) }
{
    let mut is_left = false;
    for conversion in conversions {
        let one = import_one(files, alloc, how, placed, conversion, console)?;
        is_left = is_any(is_left, one);
    }
    Ok(is_left)
}

/// Imports the filters of a configuration whose parts are found. Returns whether one of them is left out.
fn import_parts<F: Folder, R: Read, W: Write, E: Write>(
    files: &F,
    alloc: Global,
    how: &Importing,
    placed: &PlacedConfig<'_>,
    config: &Config<'_>,
    console: &mut Console<R, W, E>,
) -> Result<bool, ProgramFault>
    ensures { IfOk result (ImportsParts (F.creates files.now) (F.leaves files.now) how.now placed.now config.now console.old console.new) }
{
    let conversions = make_conversions(alloc, config)?;
    import_conversions(files, alloc, how, placed, conversions.as_slice(), console)
}

/// Imports the filters among words. Returns whether one of them is left out.
fn import_words<F: Folder, R: Read, W: Write, E: Write>(
    files: &F,
    alloc: Global,
    how: &Importing,
    placed: &PlacedConfig<'_>,
    words: &[Word<'_>],
    console: &mut Console<R, W, E>,
) -> Result<bool, ProgramFault>
    ensures { IfOk result (ImportsWords (F.creates files.now) (F.leaves files.now) how.now placed.now words.now console.old console.new) }
{
    let definitions = find_definitions(alloc, words)?;
    let items = find_items(alloc, words)?;
    let config = Config {
        words,
        definitions: definitions.as_slice(),
        items: items.as_slice(),
    };
    import_parts(files, alloc, how, placed, &config, console)
}

/// What is said of a byte that begins no word.
#[tactic(auto, unfolding(crate::specs::Importing::strange_words))]
fn strange_words() -> &'static str
    ensures { result.now ≡ strange_words }
{
    "no word begins with this byte"
}

/// What is said of a byte behind which nothing is known.
#[tactic(auto, unfolding(crate::specs::Importing::end_words))]
fn end_words() -> &'static str
    ensures { result.now ≡ end_words }
{
    "a comment or a text begins here that is not closed: nothing behind it was read"
}

/// Tells of a word if it is a byte that begins none. Returns whether it is.
fn tell_word<R: Read, W: Write, E: Write>(
    alloc: Global,
    placed: &PlacedConfig<'_>,
    word: &Word<'_>,
    console: &mut Console<R, W, E>,
) -> Result<bool, ProgramFault>
    ensures { IfOk result (TellsWord placed.now word.now console.old console.new) }
{
    match word.kind {
        WordKind::Strange => {
            tell_byte(alloc, placed, word.at, strange_words(), console)?;
            Ok(true)
        }
        _ => Ok(false),
    }
}

/// Tells of each byte with which no word begins. Returns whether there is one.
fn tell_strange<R: Read, W: Write, E: Write>(
    alloc: Global,
    placed: &PlacedConfig<'_>,
    words: &[Word<'_>],
    console: &mut Console<R, W, E>,
) -> Result<bool, ProgramFault>
    ensures { IfOk result (TellsStrange placed.now words.now console.old console.new) }
{
    let mut has_any = false;
    for word in words {
        let one = tell_word(alloc, placed, word, console)?;
        has_any = is_any(has_any, one);
    }
    Ok(has_any)
}

/// Tells where the words of a configuration end before its end, if they do. Returns whether they do.
fn tell_end<R: Read, W: Write, E: Write>(
    alloc: Global,
    placed: &PlacedConfig<'_>,
    end: Option<TokenFault>,
    console: &mut Console<R, W, E>,
) -> Result<bool, ProgramFault>
    ensures { IfOk result (TellsEnd placed.now end console.old console.new) }
{
    match end {
        Some(fault) => {
            tell_byte(alloc, placed, fault.at(), end_words(), console)?;
            Ok(true)
        }
        None => Ok(false),
    }
}

/// Imports the filters among the words of a configuration. Returns whether something of it is left out.
fn import_cut<F: Folder, R: Read, W: Write, E: Write>(
    files: &F,
    alloc: Global,
    how: &Importing,
    placed: &PlacedConfig<'_>,
    cut: &Cut<'_>,
    console: &mut Console<R, W, E>,
) -> Result<bool, ProgramFault>
    ensures { IfOk result (ImportsCut (F.creates files.now) (F.leaves files.now) how.now placed.now cut.now.words.items cut.now.end console.old console.new) }
{
    let words = cut.words.as_slice();
    let is_filter_left = import_words(files, alloc, how, placed, words, console)?;
    let is_strange = tell_strange(alloc, placed, words, console)?;
    let is_cut = tell_end(alloc, placed, cut.end, console)?;
    Ok(is_filter_left || is_strange || is_cut)
}

/// Imports the filters of a configuration. Returns whether something of it is left out.
fn import_whole<F: Folder, R: Read, W: Write, E: Write>(
    files: &F,
    alloc: Global,
    how: &Importing,
    whole: &Whole,
    console: &mut Console<R, W, E>,
) -> Result<bool, ProgramFault>
    ensures { IfOk result (ImportsConfig (F.creates files.now) (F.leaves files.now) how.now (config_of whole.now) console.old console.new) }
{
    let cut = cut_words(alloc, whole.text.as_slice())?;
    let placed = PlacedConfig::new(alloc, whole)?;
    import_cut(files, alloc, how, &placed, &cut, console)
}

/// The exit status of an import, where something of a configuration that was read is left out or nothing.
fn import_read<F: Folder, R: Read, W: Write, E: Write>(
    files: &F,
    alloc: Global,
    how: &Importing,
    whole: &Whole,
    console: &mut Console<R, W, E>,
) -> Result<u8, ProgramFault>
    ensures { IfOk result (ImportsRead (F.creates files.now) (F.leaves files.now) how.now (config_of whole.now) console.old console.new) }
{
    let is_left = import_whole(files, alloc, how, whole, console)?;
    Ok(status_of_found(is_any(whole.is_partial, is_left)))
}

/// The path of a folder as one of the things that it holds. A file has no such path, and neither has a FIFO, so that nothing waits to open it.
fn inner_path(alloc: Global, folder: &str) -> Result<String, AllocError>
    ensures { IfOk result (λ path. string_bytes path ≡ inner_path folder.now) }
{
    let mut path = String::from_str(alloc, folder)?;
    path.push_str("/.")?;
    Ok(path)
}

/// Tells that there is no folder of a path, if there is none. Returns whether there is none.
fn lacks_path<F: Folder, R: Read, W: Write, E: Write>(
    files: &F,
    alloc: Global,
    folder: &String,
    console: &mut Console<R, W, E>,
) -> Result<bool, ProgramFault>
    ensures { IfOk result (LacksFolder (F.opens files.now) (Some folder.now) console.old console.new) }
{
    let path = inner_path(alloc, folder.as_str())?;
    let Err(error) = files.open(path.as_str()) else {
        return Ok(false);
    };
    if !matches!(error.kind(), ErrorKind::NotFound) {
        return Ok(false);
    }
    tell_uncreated(alloc, &mut console.errors, folder.as_str(), &error)?;
    Ok(true)
}

/// Tells that there is no folder for the filters, if one is named that is not there. Returns whether that is so.
fn lacks_folder<F: Folder, R: Read, W: Write, E: Write>(
    files: &F,
    alloc: Global,
    how: &Importing,
    console: &mut Console<R, W, E>,
) -> Result<bool, ProgramFault>
    ensures { IfOk result (LacksFolder (F.opens files.now) how.now.folder console.old console.new) }
{
    match &how.folder {
        Some(folder) => lacks_path(files, alloc, folder, console),
        None => Ok(false),
    }
}

/// Imports the filters of the configuration that a source is, where there is a folder for them, and returns the exit status: 0, or 1 where
/// something was left out.
#[tactic(auto, unfolding(crate::specs::Importing::ImportsText))]
fn import_text<F: Folder, R: Read, W: Write, E: Write>(
    files: &F,
    alloc: Global,
    how: &Importing,
    source: &Source,
    console: &mut Console<R, W, E>,
) -> Result<u8, ProgramFault>
    ensures status { IfOk result (λ status. status ≤ 1) }
    ensures finished { IfOk result (ImportsText (F.creates files.now) (F.leaves files.now) (F.opens files.now) how.now source.now console.old console.new) }
{
    match read_whole(files, alloc, source, console)? {
        Some(whole) => import_read(files, alloc, how, &whole, console),
        None => Ok(FAILED),
    }
}

/// Imports the filters of the configuration that a source is, and returns the exit status: 0, or 1 where something was left out, or the folder
/// for the filters is not there.
#[tactic(auto, unfolding(crate::specs::Importing::ImportsSource))]
pub(crate) fn import_source<F: Folder, R: Read, W: Write, E: Write>(
    files: &F,
    alloc: Global,
    how: &Importing,
    source: &Source,
    console: &mut Console<R, W, E>,
) -> Result<u8, ProgramFault>
    ensures status { IfOk result (λ status. status ≤ 1) }
    ensures finished { IfOk result (ImportsSource (F.creates files.now) (F.leaves files.now) (F.opens files.now) how.now source.now console.old console.new) }
{
    if lacks_folder(files, alloc, how, console)? {
        return Ok(FAILED);
    }
    import_text(files, alloc, how, source, console)
}
