//! The filters of a router are read and verified, before any of its links is opened.
//!
//! **Files are opened through a trait of the program's own, `Folder`**, whose ghost member says what may come of opening a name. No clause of the
//! system's files says what they hold; a proof over any `Folder` still cannot read another file than the one that is named, leave one out, or read
//! it in part. A file that was made is handed back to the `Folder`, which closes it under its name: so the file that holds the text is the one that
//! was made.
ghost use Rattle.std.specs.Prelude.{◌≡◌, IfErr, IfOk, MatchOption, MatchResult};
ghost use Rattle.filter_reports.specs.Faults.{stream_fault};
ghost use Rattle.ncroute.specs.Loading as spec;

use crate::filters::{read_filters, tell_unfit};
use command_line::NamedFile;
use filter_reports::ProgramFault;
use program_console::{Folder, tell_unread};
use router_daemon::VerifiedFilters;
use router_script::{NamedFilter, Script, Unfit, name_filters};
use std::alloc::{AllocError, Global};
use std::io::{Read, Write};

/// The filters of these texts, by name, each of them verified; or the first that is refused for domains of this size.
fn verify_filters(
    alloc: Global,
    given: &[NamedFilter],
    size: u16,
) -> Result<Result<VerifiedFilters, Unfit>, AllocError>
    ensures { IfOk result (λ verified. MatchResult verified (λ filters. spec.AreLoaded size given.now filters.entries)
        (spec.AreUnfit size given.now)) }
{
    let mut script = Script::new(alloc);
    match name_filters(alloc, &mut script, given, size)? {
        None => Ok(Ok(script.into_filters())),
        Some(unfit) => Ok(Err(unfit)),
    }
}

/// The filters of these texts; none where one of them is refused, which people are told.
fn verify_given<E: Write>(
    alloc: Global,
    given: &[NamedFilter],
    size: u16,
    errors: &mut E,
) -> Result<Option<VerifiedFilters>, ProgramFault>
    ensures finished { IfOk result (λ filters. MatchOption filters
        (spec.TellsOfUnfit size given.now (E.contents errors.old) (E.contents errors.new))
        (λ filters. spec.AreLoaded size given.now filters.entries × (E.contents errors.new ≡ E.contents errors.old))) }
    ensures stopped { IfErr result (λ fault. spec.StopsVerifying (stream_fault fault) size given.now
        (E.contents errors.old) (E.contents errors.new)) }
{
    match verify_filters(alloc, given, size) {
        Ok(Ok(filters)) => Ok(Some(filters)),
        Ok(Err(unfit)) => match tell_unfit(alloc, errors, given, &Some(unfit)) {
            Ok(()) => Ok(None),
            Err(fault) => Err(fault),
        },
        Err(_) => Err(ProgramFault::MEMORY),
    }
}

/// Reads the filters of these files, and verifies them for domains of a size. There are none where one of them is not read or is
/// refused, which people are told.
pub(crate) fn load_filters<F: Folder, R: Read, E: Write>(
    files: &F,
    alloc: Global,
    named: &[NamedFile],
    size: u16,
    reader: &mut R,
    errors: &mut E,
) -> Result<Option<VerifiedFilters>, ProgramFault>
    ensures finished { IfOk result (λ filters. MatchOption filters
        (spec.LacksFilters (F.opens files.now) named.now size (R.remaining reader.old) (R.remaining reader.new)
        (E.contents errors.old) (E.contents errors.new))
        (λ filters. spec.LoadsFilters (F.opens files.now) named.now size filters.entries (R.remaining reader.old) (R.remaining reader.new)
        × (E.contents errors.new ≡ E.contents errors.old))) }
    ensures stopped { IfErr result (λ fault. spec.StopsLoading (F.opens files.now) (stream_fault fault) named.now size
        (R.remaining reader.old) (R.remaining reader.new) (E.contents errors.old) (E.contents errors.new)) }
{
    match read_filters(files, alloc, named, reader) {
        Ok(given) => match verify_given(alloc, given.as_slice(), size, errors) {
            Ok(Some(filters)) => Ok(Some(filters)),
            Ok(None) => Ok(None),
            Err(fault) => Err(fault),
        },
        Err(unread) => match tell_unread(alloc, errors, unread.source, unread.why) {
            Ok(()) => Ok(None),
            Err(fault) => Err(fault),
        },
    }
}
