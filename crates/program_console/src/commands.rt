//! Commands on whole texts, which are read from sources that are opened by their names.
//!
//! **A command is a function from a text to a report**, and these read its text and write its report. A source that cannot be read is told of by its name
//! and the system's reason, and the command goes on with the next one: in a build one wants to know of each file. Standard input has no name to look
//! for, so its fault ends the run, as E1.
ghost use Rattle.std.specs.Prelude.{◌≡◌, ℕ, IfErr, IfOk};
ghost use Rattle.filter_reports.specs.Faults.{stream_fault};
ghost use Rattle.filter_reports.specs.Notices.{Named, named};
ghost use Rattle.filter_reports.specs.Reports.{ReportView, report_of};
ghost use Rattle.program_console.specs.Commands as spec;

use crate::console::Console;
use crate::ending::worst_status;
use crate::folder::Folder;
use crate::sources::{SourceText, load, name_of};
use filter_reports::{NamedText, ProgramFault, Report};
use filter_source::SOURCE_LIMIT;
use line_protocol::StreamFault;
use program_words::Source;
use std::alloc::{AllocError, Global};
use std::io::{Read, Write};

/// A command on whole texts.
pub trait TextCommand {
    // The command makes this report on a text.
    ghost reports: { Self → Named → ReportView → Type 0 };

    /// The report on a text.
    fn report(&self, alloc: Global, source: &NamedText<'_>) -> Result<Report, AllocError>
        ensures { IfOk result (λ report. reports self.now (named source.now) (report_of report)) };
}

/// The report on a source that was not read, with this exit status: the line that tells why.
pub fn unread_report(alloc: Global, status: u8, line: Vec<u8>) -> Report
    ensures { report_of result ≡ spec.unread_report status line.items }
{
    Report {
        out: Vec::new(alloc),
        err: line,
        status,
    }
}

/// The report of a command on a text.
fn report_text<C: TextCommand>(
    alloc: Global,
    command: &C,
    source: &NamedText<'_>,
) -> Result<Report, ProgramFault>
    ensures made { IfOk result (λ report. C.reports command.now (named source.now) (report_of report)) }
    ensures memory { IfErr result (λ fault. stream_fault fault ≡ StreamFault.Memory) }
{
    match command.report(alloc, source) {
        Ok(report) => Ok(report),
        Err(_) => Err(ProgramFault::MEMORY),
    }
}

/// The report of a command on a source. Where that cannot be read, it says so, with the exit status `unread`.
pub fn report_source<F: Folder, C: TextCommand, R: Read>(
    files: &F,
    alloc: Global,
    command: &C,
    unread: u8,
    source: &Source,
    reader: &mut R,
) -> Result<Report, ProgramFault>
    ensures made { IfOk result (λ report. spec.ReportsSource (F.opens files.now) (C.reports command.now) unread source.now (report_of report)
        (R.remaining reader.old) (R.remaining reader.new)) }
    ensures stopped { IfErr result (λ fault. spec.StopsSource (F.opens files.now) (C.reports command.now) unread (stream_fault fault) source.now
        (R.remaining reader.old) (R.remaining reader.new)) }
{
    match load(files, alloc, source, SOURCE_LIMIT, reader) {
        Ok(SourceText::Text(text)) => {
            let (name, text) = (name_of(source), text.as_slice());
            report_text(alloc, command, &NamedText { name, text })
        }
        Ok(SourceText::Unread(line)) => Ok(unread_report(alloc, unread, line)),
        Err(fault) => Err(fault),
    }
}

/// Writes the report of a command on a source, and returns its exit status.
pub fn run_on<F: Folder, C: TextCommand, R: Read, W: Write, E: Write>(
    files: &F,
    alloc: Global,
    command: &C,
    unread: u8,
    source: &Source,
    console: &mut Console<R, W, E>,
) -> Result<u8, ProgramFault>
    ensures finished { IfOk result (spec.RunsOn (F.opens files.now) (C.reports command.now) unread source.now console.old console.new) }
    ensures stopped { IfErr result (λ fault. spec.CutsOn (F.opens files.now) (C.reports command.now) unread (stream_fault fault) source.now
        console.old console.new) }
{
    match report_source(files, alloc, command, unread, source, &mut console.reader) {
        Ok(report) => console.put(&report),
        Err(fault) => Err(fault),
    }
}

/// Writes the report of a command on each of some sources, in order, and returns the exit status: 1 where one of them has it, and otherwise 3 where
/// one has.
pub fn run_on_all<F: Folder, C: TextCommand, R: Read, W: Write, E: Write>(
    files: &F,
    alloc: Global,
    command: &C,
    unread: u8,
    sources: &[Source],
    console: &mut Console<R, W, E>,
) -> Result<u8, ProgramFault>
    ensures finished { IfOk result (spec.RunsOnAll (F.opens files.now) (C.reports command.now) unread sources.now console.old console.new) }
    ensures stopped { IfErr result (λ fault. spec.CutsOnAll (F.opens files.now) (C.reports command.now) unread (stream_fault fault) sources.now
        console.old console.new) }
{
    let mut status = 0;
    for source in sources {
        let one = run_on(files, alloc, command, unread, source, console)?;
        status = worst_status(status, one);
    }
    Ok(status)
}
