//! The filters that a script is started with: they are read before its first line is answered, and people are told if one is refused.
ghost use Rattle.std.specs.Option.{option_map};
ghost use Rattle.std.specs.Prelude.{◌≡◌, [], ◌∷◌, ◌++◌, IfErr, IfOk, OnOk, slice_get};
ghost use Rattle.filter_reports.specs.Faults.{stream_fault};
ghost use Rattle.router_script.specs.declared.filter_naming.NamedFilter.{NamedFilter as TheFilter};
ghost use Rattle.ncroute.specs.Filters.{AreLoaded, Explains, IsCutExplanation, IsCutFilter, IsCutUnfit, LeavesFilter, ReadsFilter};
ghost use Rattle.ncroute.specs.Filters.{ReadsFilters, StopsAtFilter, TellsOfFilter, TellsUnfit};

use command_line::NamedFile;
use filter_reports::ProgramFault;
use filter_source::{Diagnosis, SOURCE_LIMIT};
use program_console::{Console, Folder, Unread, name_of, read_source, tell_unread, write_line};
use program_words::Source;
use refusal_words::explain;
use router_script::{NamedFilter, Unfit};
use std::alloc::Global;
use std::io::{Read, Write};

/// The source of a filter that was not read, and why.
#[derive(Drop)]
pub struct UnreadFilter<'a> {
    /// The source.
    pub source: &'a Source,
    /// Why it was not read.
    pub why: Unread,
}

/// What came of reading the filters that a script is started with.
#[derive(Drop)]
pub enum LoadedFilters {
    /// All of them.
    All(Vec<NamedFilter>),
    /// One cannot be read, which people were told.
    Skipped,
    /// This fault kept one from being read or told of.
    Stopped(ProgramFault),
}

/// A copy of bytes.
fn copy(alloc: Global, bytes: &[u8]) -> Result<Vec<u8>, Unread>
    ensures ok { IfOk result (λ copy. copy.items ≡ bytes.now) }
    ensures err { IfErr result (λ why. why ≡ Unread.Memory) }
{
    match Vec::from_slice(alloc, bytes) {
        Ok(copy) => Ok(copy),
        Err(_) => Err(Unread::Memory),
    }
}

/// Reads a filter.
fn read_filter<F: Folder, R: Read>(
    files: &F,
    alloc: Global,
    file: &NamedFile,
    reader: &mut R,
) -> Result<NamedFilter, Unread>
    ensures read { IfOk result (λ filter. ReadsFilter (F.opens files.now) file.now filter (R.remaining reader.old) (R.remaining reader.new)) }
    ensures unread { IfErr result (λ why. LeavesFilter (F.opens files.now) file.now why (R.remaining reader.old) (R.remaining reader.new)) }
{
    let name = copy(alloc, file.name.as_str().as_bytes())?;
    let origin = copy(alloc, name_of(&file.source))?;
    let text = read_source(files, alloc, &file.source, SOURCE_LIMIT, reader)?;
    if text.len() > SOURCE_LIMIT {
        return Err(Unread::TooLong);
    }
    Ok(NamedFilter { name, origin, text })
}

/// Adds a filter to others.
fn add(filters: &mut Vec<NamedFilter>, filter: NamedFilter) -> Result<(), Unread>
    ensures ok { OnOk result (filters.new.items ≡ filters.old.items ++ filter ∷ []) }
    ensures err { IfErr result (λ why. why ≡ Unread.Memory) }
{
    match filters.push(filter) {
        Ok(()) => Ok(()),
        Err(_) => Err(Unread::Memory),
    }
}

/// Reads a filter, and adds it to others.
fn read_next<F: Folder, R: Read>(
    files: &F,
    alloc: Global,
    file: &NamedFile,
    reader: &mut R,
    filters: &mut Vec<NamedFilter>,
) -> Result<(), Unread>
    ensures read { OnOk result ((filter : TheFilter)
        × ReadsFilter (F.opens files.now) file.now filter (R.remaining reader.old) (R.remaining reader.new)
        × (filters.new.items ≡ filters.old.items ++ filter ∷ [])) }
    ensures unread { IfErr result (λ why. LeavesFilter (F.opens files.now) file.now why (R.remaining reader.old) (R.remaining reader.new)) }
{
    let filter = read_filter(files, alloc, file, reader)?;
    add(filters, filter)
}

/// Reads the filters of these files, in order, up to the first that is not read.
pub(crate) fn read_filters<'a, F: Folder, R: Read>(
    files: &F,
    alloc: Global,
    named: &'a [NamedFile],
    reader: &mut R,
) -> Result<Vec<NamedFilter>, UnreadFilter<'a>>
    ensures read { IfOk result (λ filters. ReadsFilters (F.opens files.now) named.now filters.items
        (R.remaining reader.old) (R.remaining reader.new)) }
    ensures unread { IfErr result (λ unread. StopsAtFilter (F.opens files.now) named.now unread.source.now unread.why
        (R.remaining reader.old) (R.remaining reader.new)) }
{
    let mut filters = Vec::new(alloc);
    for file in named {
        match read_next(files, alloc, file, reader, &mut filters) {
            Ok(()) => {}
            Err(why) => {
                return Err(UnreadFilter {
                    source: &file.source,
                    why,
                });
            }
        }
    }
    Ok(filters)
}

/// Reads the filters of these files, in order. One that cannot be read is told of.
pub(crate) fn read_given<F: Folder, R: Read, W: Write, E: Write>(
    files: &F,
    alloc: Global,
    named: &[NamedFile],
    console: &mut Console<R, W, E>,
) -> LoadedFilters
    ensures { AreLoaded (F.opens files.now) named.now result console.old console.new }
{
    match read_filters(files, alloc, named, &mut console.reader) {
        Ok(filters) => LoadedFilters::All(filters),
        Err(unread) => match tell_unread(alloc, &mut console.errors, unread.source, unread.why) {
            Ok(()) => LoadedFilters::Skipped,
            Err(fault) => LoadedFilters::Stopped(fault),
        },
    }
}

/// The filter at a place, if there is one.
#[tactic(auto, using(std::proofs::lemmas::Option::gets))]
fn filter_at(filters: &[NamedFilter], index: usize) -> Option<&NamedFilter>
    ensures { slice_get filters.now index ≡ option_map (λ filter. filter.now) result }
{
    if index < filters.len() {
        Some(&filters[index])
    } else {
        None
    }
}

/// Tells why the filter of a text is refused, at its place in its source.
pub(crate) fn explain_refusal<E: Write>(
    alloc: Global,
    errors: &mut E,
    name: &[u8],
    text: &[u8],
    diagnosis: &Diagnosis,
) -> Result<(), ProgramFault>
    ensures ok { OnOk result (Explains name.now text.now diagnosis.now (E.contents errors.old) (E.contents errors.new)) }
    ensures err { IfErr result (λ fault. IsCutExplanation (stream_fault fault) name.now text.now diagnosis.now
        (E.contents errors.old) (E.contents errors.new)) }
{
    match explain(alloc, name, text, diagnosis) {
        Ok(words) => write_line(errors, words.as_slice()),
        Err(_) => Err(ProgramFault::MEMORY),
    }
}

/// Tells why this filter is refused.
fn tell_filter<E: Write>(
    alloc: Global,
    errors: &mut E,
    filter: Option<&NamedFilter>,
    diagnosis: &Diagnosis,
) -> Result<(), ProgramFault>
    ensures ok { OnOk result (TellsOfFilter (option_map (λ filter. filter.now) filter.entry) diagnosis.now
        (E.contents errors.old) (E.contents errors.new)) }
    ensures err { IfErr result (λ fault. IsCutFilter (stream_fault fault) (option_map (λ filter. filter.now) filter.entry) diagnosis.now
        (E.contents errors.old) (E.contents errors.new)) }
{
    match filter {
        Some(filter) => {
            let (origin, text) = (filter.origin.as_slice(), filter.text.as_slice());
            explain_refusal(alloc, errors, origin, text, diagnosis)
        }
        None => Ok(()),
    }
}

/// Tells why a filter is refused, if one of these is.
pub(crate) fn tell_unfit<E: Write>(
    alloc: Global,
    errors: &mut E,
    filters: &[NamedFilter],
    unfit: &Option<Unfit>,
) -> Result<(), ProgramFault>
    ensures ok { OnOk result (TellsUnfit filters.now unfit.now (E.contents errors.old) (E.contents errors.new)) }
    ensures err { IfErr result (λ fault. IsCutUnfit (stream_fault fault) filters.now unfit.now (E.contents errors.old) (E.contents errors.new)) }
{
    match unfit {
        None => Ok(()),
        Some(unfit) => {
            let filter = filter_at(filters, unfit.index);
            tell_filter(alloc, errors, filter, &unfit.diagnosis)
        }
    }
}
