//! How the filters of two sources are compared.
//!
//! **OLD is read before NEW**, and where OLD cannot be read, NEW is not.
ghost use Rattle.std.specs.Prelude.{IfErr, IfOk};
ghost use Rattle.filter_reports.specs.Faults.{stream_fault};
ghost use Rattle.filter_reports.specs.Reports.{report_of};
ghost use Rattle.ncroute.specs.Comparing.{ComparesSources, DiffsSources, StopsComparing, StopsDiff};

use crate::commands::DiffCommand;
use filter_reports::{FAULT, NamedText, ProgramFault, Report};
use filter_source::SOURCE_LIMIT;
use program_console::{Console, Folder, SourceText, load, name_of, report_source, unread_report};
use program_words::Source;
use report_formats::DiffOptions;
use std::alloc::Global;
use std::io::{Read, Write};

/// The report on the filters of two sources. Where one cannot be read, it says so.
fn diff_sources<F: Folder, R: Read>(
    files: &F,
    alloc: Global,
    how: DiffOptions,
    old: &Source,
    new: &Source,
    reader: &mut R,
) -> Result<Report, ProgramFault>
    ensures made { IfOk result (λ report. DiffsSources (F.opens files.now) how old.now new.now (report_of report)
        (R.remaining reader.old) (R.remaining reader.new)) }
    ensures stopped { IfErr result (λ fault. StopsDiff (F.opens files.now) (stream_fault fault) how old.now new.now
        (R.remaining reader.old) (R.remaining reader.new)) }
{
    match load(files, alloc, old, SOURCE_LIMIT, reader) {
        Ok(SourceText::Text(text)) => {
            let old = NamedText {
                name: name_of(old),
                text: text.as_slice(),
            };
            report_source(files, alloc, &DiffCommand { how, old }, FAULT, new, reader)
        }
        Ok(SourceText::Unread(line)) => Ok(unread_report(alloc, FAULT, line)),
        Err(fault) => Err(fault),
    }
}

/// Compares the filters of two sources, and returns the exit status.
pub(crate) fn compare_sources<F: Folder, R: Read, W: Write, E: Write>(
    files: &F,
    alloc: Global,
    how: DiffOptions,
    old: &Source,
    new: &Source,
    console: &mut Console<R, W, E>,
) -> Result<u8, ProgramFault>
    ensures finished { IfOk result (ComparesSources (F.opens files.now) how old.now new.now console.old console.new) }
    ensures stopped { IfErr result (λ fault. StopsComparing (F.opens files.now) (stream_fault fault) how old.now new.now console.old console.new) }
{
    match diff_sources(files, alloc, how, old, new, &mut console.reader) {
        Ok(report) => console.put(&report),
        Err(fault) => Err(fault),
    }
}
