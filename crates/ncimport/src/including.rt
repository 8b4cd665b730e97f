//! A configuration of BIRD, with the files that it includes in their places.
ghost use Rattle.std.specs.List.{flat_map, list_any};
ghost use Rattle.std.specs.Option.{option_map};
ghost use Rattle.std.specs.Prelude.{◌≡◌, ◌++◌, IfOk, OnOk, length, map, slice_get};
ghost use Rattle.bird_import.specs.Including.{Includes, view_of as view_of_include};
ghost use Rattle.ncimport.specs.Including.{IsConfig, LeavesOut, PutsFile, PutsIncluded, bytes_between};
ghost use Rattle.ncimport.specs.Including.{closed, include_depth, left_behind, left_line, left_words};
ghost use Rattle.ncimport.specs.Including.{nothing, opened, why_words, with_part};
ghost use Rattle.ncimport.specs.Inclusions.{IsInclusion, has_path, is_open, is_path, is_pattern_sign, last_file};
ghost use Rattle.ncimport.specs.Places.{IsAlike, config_of, file_of, place_in, stretch_of, view_of};
ghost use Rattle.program_words.specs.Sources.{path_of};

use bird_import::{Include, cut_words, find_includes};
use filter_reports::ProgramFault;
use program_console::{Console, Folder, included_path, name_of, read_config};
use program_words::Source;
use refusal_words::{place_in, push_position, push_shown};
use std::alloc::{AllocError, Global};
use std::io::{Read, Write};

/// How deep files include files at most, as in BIRD.
const INCLUDE_DEPTH: u8 = 8;

/// A file of a configuration.
#[derive(Drop)]
pub struct ConfigFile {
    /// Where it is.
    pub source: Source,
    /// Its text.
    pub text: Vec<u8>,
}

/// A stretch of a configuration that comes from one file.
#[derive(Clone, Copy)]
pub struct Stretch {
    /// The place of its first byte in the configuration.
    pub from: usize,
    /// The index of its file.
    pub file: usize,
    /// The place of its first byte in the file.
    pub at: usize,
}

/// A configuration with the files that it includes in their places.
#[derive(Drop)]
pub struct Whole {
    /// Its text.
    pub text: Vec<u8>,
    /// Where the text comes from, in order.
    pub stretches: Vec<Stretch>,
    /// The files.
    pub files: Vec<ConfigFile>,
    /// The indexes of the files that are being read, each of which includes the next one.
    open: Vec<usize>,
    /// Something of it was not read.
    pub is_partial: bool,
}

/// Puts texts at the end of `out`, one behind another.
pub(crate) fn push_texts(out: &mut Vec<u8>, texts: &[&[u8]]) -> Result<(), AllocError>
    ensures { OnOk result (out.new.items ≡ out.old.items ++ flat_map (λ text. text.now) texts.now) }
{
    for text in texts {
        out.extend_from_slice(text)?;
    }
    Ok(())
}

/// The stretch that a byte of a configuration is in.
pub(crate) fn stretch_of(whole: &Whole, byte: usize) -> Option<Stretch>
    ensures { result ≡ stretch_of whole.now.stretches.items byte }
{
    let mut found = None;
    for stretch in whole.stretches.as_slice() {
        if stretch.from <= byte {
            found = Some(*stretch);
        }
    }
    found
}

/// Puts the name of a file, and the line and the column of a byte of it, at the end of `out`, if there is a file.
fn push_file_place(
    alloc: Global,
    out: &mut Vec<u8>,
    file: Option<&ConfigFile>,
    at: usize,
) -> Result<(), AllocError>
    ensures { OnOk result (out.new.items ≡ out.old.items ++ place_in (option_map (λ file. file_of file.now) file.entry) at) }
{
    match file {
        Some(file) => {
            let place = place_in(file.text.as_slice(), at);
            push_shown(alloc, out, name_of(&file.source))?;
            push_position(out, place.line, place.column)
        }
        None => Ok(()),
    }
}

/// The bytes of a text from a place to another; none where the text has no such places.
fn bytes_between(text: &[u8], from: usize, to: usize) -> &[u8]
    ensures { result.now ≡ bytes_between text.now from to }
{
    if from <= to && to <= text.len() {
        &text[from..to]
    } else {
        b""
    }
}

/// Adds bytes of a file to a configuration.
fn push_stretch(
    whole: &mut Whole,
    file: usize,
    text: &[u8],
    from: usize,
    to: usize,
) -> Result<(), AllocError>
    ensures { OnOk result (config_of whole.new ≡ with_part (config_of whole.old) file text.now from to) }
{
    let bytes = bytes_between(text, from, to);
    whole.stretches.push(Stretch {
        from: whole.text.len(),
        file,
        at: from,
    })?;
    whole.text.extend_from_slice(bytes)
}

/// Whether a byte is a sign of a pattern of names.
fn is_pattern_sign(byte: u8) -> bool
    ensures { result ≡ is_pattern_sign byte }
{
    byte == b'*' || byte == b'?' || byte == b'['
}

/// Whether a name has a sign of a pattern of names.
fn has_pattern_sign(name: &[u8]) -> bool
    ensures { result ≡ list_any is_pattern_sign name.now }
{
    name.iter().any(|byte| is_pattern_sign(*byte))
}

/// Whether the file of an index was opened by this path.
fn has_path(files: &[ConfigFile], index: usize, path: &str) -> bool
    ensures { result ≡ has_path path.now (slice_get (map file_of files.now) index) }
{
    match files.get(index) {
        Some(file) => is_path(&file.source, path),
        None => false,
    }
}

/// Whether a source is opened by this path.
fn is_path(source: &Source, path: &str) -> bool
    ensures { result ≡ is_path path.now (path_of source.now) }
{
    match source {
        Source::File(file) => file.as_str().as_bytes() == path.as_bytes(),
        Source::Input => false,
    }
}

/// Whether a file that is being read was opened by this path.
fn is_open(whole: &Whole, path: &str) -> bool
    ensures { result ≡ is_open (config_of whole.now) path.now }
{
    let files = whole.files.as_slice();
    whole
        .open
        .as_slice()
        .iter()
        .any(|index| has_path(files, *index, path))
}

/// The files that a text includes.
fn included_in<'a>(alloc: Global, text: &'a [u8]) -> Result<Vec<Include<'a>>, AllocError>
    ensures { IfOk result (λ found. Includes text.now (map view_of_include found.items)) }
{
    let cut = cut_words(alloc, text)?;
    find_includes(alloc, cut.words.as_slice())
}

/// Why a file is not included, or its name.
enum Inclusion {
    /// It is read.
    Read(Source),
    /// It is not, for this reason.
    Left(&'static str),
}

/// What becomes of a file that is included by the last of those that are being read.
fn inclusion_of(alloc: Global, whole: &Whole, name: &[u8]) -> Result<Inclusion, AllocError>
    ensures { IfOk result (IsInclusion (config_of whole.now) name.now) }
{
    let Ok(name) = str::from_utf8(name) else {
        return Ok(Inclusion::Left("its name is not UTF-8"));
    };
    if has_pattern_sign(name.as_bytes()) {
        return Ok(Inclusion::Left("include each file by its own name"));
    }
    let Some(by) = last_file(whole) else {
        return Ok(Inclusion::Left("it was not read"));
    };
    let path = included_path(alloc, &by.source, name)?;
    if is_open(whole, path.as_str()) {
        return Ok(Inclusion::Left("the file includes itself"));
    }
    Ok(Inclusion::Read(Source::File(path)))
}

/// The last of the files that are being read.
fn last_file(whole: &Whole) -> Option<&ConfigFile>
    ensures { option_map (λ file. file_of file.now) result ≡ last_file (config_of whole.now) }
{
    match whole.open.last() {
        Some(index) => whole.files.get(*index),
        None => None,
    }
}

/// What ends the line of a file that is left out.
#[tactic(auto, unfolding(crate::specs::Including::left_behind))]
fn left_behind() -> &'static str
    ensures { result.now ≡ left_behind }
{
    ": this file was left out\n"
}

/// Adds why a file is left out, to the end of the line.
fn push_why(line: &mut Vec<u8>, why: &str) -> Result<(), AllocError>
    ensures { OnOk result (line.new.items ≡ line.old.items ++ why_words why.now) }
{
    line.extend_from_slice(b": ")?;
    line.extend_from_slice(why.as_bytes())?;
    line.extend_from_slice(left_behind().as_bytes())
}

/// Adds that a file of a name is left out, and why, to the end of the line.
fn push_left(alloc: Global, line: &mut Vec<u8>, name: &[u8], why: &str) -> Result<(), AllocError>
    ensures { OnOk result (line.new.items ≡ line.old.items ++ left_words name.now why.now) }
{
    line.extend_from_slice(b" include ")?;
    push_shown(alloc, line, name)?;
    push_why(line, why)
}

/// The line that tells that a file was not included at a place of another one, and why.
fn left_line(
    alloc: Global,
    whole: &Whole,
    included: &Include<'_>,
    why: &str,
) -> Result<Vec<u8>, AllocError>
    ensures { IfOk result (λ line. line.items ≡ left_line (config_of whole.now) included.now why.now) }
{
    let mut line = Vec::new(alloc);
    push_file_place(alloc, &mut line, last_file(whole), included.from)?;
    push_left(alloc, &mut line, included.name, why)?;
    Ok(line)
}

/// Leaves out a file that is included at a place of another one, and tells why.
fn leave_out<R: Read, W: Write, E: Write>(
    alloc: Global,
    whole: &mut Whole,
    included: &Include<'_>,
    why: &str,
    console: &mut Console<R, W, E>,
) -> Result<(), ProgramFault>
    ensures { OnOk result (LeavesOut included.now why.now (config_of whole.old) (config_of whole.new) console.old console.new) }
{
    let line = left_line(alloc, whole, included, why)?;
    whole.is_partial = true;
    console.write(line.as_slice())
}

/// Begins to read a file: its index.
fn open_file(
    alloc: Global,
    whole: &mut Whole,
    source: Source,
    text: &[u8],
) -> Result<usize, AllocError>
    ensures index { IfOk result (λ index. index ≡ length (config_of whole.old).files) }
    ensures opened { OnOk result (config_of whole.new ≡ opened (config_of whole.old) (view_of source text.now)) }
{
    let index = whole.files.len();
    let text = Vec::from_slice(alloc, text)?;
    whole.files.push(ConfigFile { source, text })?;
    whole.open.push(index)?;
    Ok(index)
}

/// Adds what stands behind the last file that a file includes, and ends the file.
fn close_file(whole: &mut Whole, file: usize, text: &[u8], done: usize) -> Result<(), AllocError>
    ensures { OnOk result (config_of whole.new ≡ closed (config_of whole.old) file text.now done) }
{
    push_stretch(whole, file, text, done, text.len())?;
    whole.text.push(b'\n')?;
    let _ = whole.open.pop();
    Ok(())
}

/// Puts the text of a source behind a configuration, with the files that it includes.
#[cycle(including)]
fn push_source<F: Folder, R: Read, W: Write, E: Write>(
    files: &F,
    alloc: Global,
    whole: &mut Whole,
    source: Source,
    text: &[u8],
    depth: u8,
    console: &mut Console<R, W, E>,
) -> Result<(), ProgramFault>
    ensures { OnOk result (PutsFile (PutsIncluded (F.opens files.now) depth) (view_of source text.now) (config_of whole.old) (config_of whole.new)
        console.old console.new) }
{
    let file = open_file(alloc, whole, source, text)?;
    let included = included_in(alloc, text)?;
    let mut done = 0;
    for one in included.as_slice() {
        push_stretch(whole, file, text, done, one.from)?;
        push_included(files, alloc, whole, one, depth, console)?;
        done = one.to;
    }
    close_file(whole, file, text, done)?;
    Ok(())
}

/// Puts a file that is included behind a configuration, or tells why it is left out.
#[cycle(including)]
fn push_included<F: Folder, R: Read, W: Write, E: Write>(
    files: &F,
    alloc: Global,
    whole: &mut Whole,
    included: &Include<'_>,
    depth: u8,
    console: &mut Console<R, W, E>,
) -> Result<(), ProgramFault>
    ensures { OnOk result (PutsIncluded (F.opens files.now) depth included.now (config_of whole.old) (config_of whole.new)
        console.old console.new) }
{
    let Some(depth) = depth.checked_sub(1) else {
        let why = "files are included at most 8 deep";
        return leave_out(alloc, whole, included, why, console);
    };
    match inclusion_of(alloc, whole, included.name)? {
        Inclusion::Left(why) => leave_out(alloc, whole, included, why, console),
        Inclusion::Read(source) => match read_config(files, alloc, &source, console)? {
            Some(text) => {
                let text = text.as_slice();
                push_source(files, alloc, whole, source, text, depth, console)
            }
            None => {
                let why = "it cannot be read";
                leave_out(alloc, whole, included, why, console)
            }
        },
    }
}

/// A copy of a source.
fn copy_of(alloc: Global, source: &Source) -> Result<Source, AllocError>
    ensures { IfOk result (IsAlike source.now) }
{
    match source {
        Source::Input => Ok(Source::Input),
        Source::File(name) => Ok(Source::File(String::from_str(alloc, name.as_str())?)),
    }
}

/// A configuration of which nothing is read.
fn nothing(alloc: Global) -> Whole
    ensures { config_of result ≡ nothing }
{
    Whole {
        text: Vec::new(alloc),
        stretches: Vec::new(alloc),
        files: Vec::new(alloc),
        open: Vec::new(alloc),
        is_partial: false,
    }
}

/// The configuration that the text of a source is, with the files that it includes.
fn read_includes<F: Folder, R: Read, W: Write, E: Write>(
    files: &F,
    alloc: Global,
    source: &Source,
    text: &[u8],
    console: &mut Console<R, W, E>,
) -> Result<Whole, ProgramFault>
    ensures { IfOk result (λ whole. PutsFile (PutsIncluded (F.opens files.now) include_depth) (view_of source.now text.now) nothing
        (config_of whole) console.old console.new) }
{
    let mut whole = nothing(alloc);
    let copy = copy_of(alloc, source)?;
    push_source(files, alloc, &mut whole, copy, text, INCLUDE_DEPTH, console)?;
    Ok(whole)
}

/// Reads the configuration that a source is, with the files that it includes. What is not read is told of; None if the source itself is
/// not.
pub(crate) fn read_whole<F: Folder, R: Read, W: Write, E: Write>(
    files: &F,
    alloc: Global,
    source: &Source,
    console: &mut Console<R, W, E>,
) -> Result<Option<Whole>, ProgramFault>
    ensures { IfOk result (λ found. IsConfig (F.opens files.now) source.now (option_map config_of found) console.old console.new) }
{
    match read_config(files, alloc, source, console)? {
        Some(text) => match read_includes(files, alloc, source, text.as_slice(), console) {
            Ok(whole) => Ok(Some(whole)),
            Err(fault) => Err(fault),
        },
        None => Ok(None),
    }
}
