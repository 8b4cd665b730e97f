//! The streams of the program.
//!
//! **A report is written here alone.** What a command says of whole texts is made in memory, and `put` writes it: `out`, and then `err`. So how a fault
//! may cut it is one definition for all of them.
//!
//! **The streams are one value, the `Console`.** A contract sees it as what is left to read, what was written and what was told, so a clause names
//! two of these and not six streams. It owns them: of a structure that borrows them each function would have to say that it still holds the same
//! ones. So the lines of a script that was read from a file do not come in a second `Console`: `Lines` says whether they come from standard input
//! or from a text, and `answer_lines` alone hands the engine the one reader or the other. Of a text a clause says that standard input is left as it
//! was.
ghost use Rattle.std.specs.Prelude.{◌≡◌, ◌<◌, ◌^◌, IfErr, IfOk, OnOk};
ghost use Rattle.filter_reports.specs.Faults.{stream_fault};
ghost use Rattle.program_console.specs.Ending.{fault_line};
ghost use Rattle.filter_reports.specs.Reports.{report_of};
ghost use Rattle.program_console.specs.Putting.{CutsReport, TakesReport};
ghost use Rattle.program_console.specs.Reading.{IsLoaded, IsWithin};
ghost use Rattle.program_console.specs.Streaming.{CutsTelling, CutsWriting, Tells, TellsFront, Writes};

use crate::ending::{Program, report_fault};
use crate::folder::Folder;
use crate::notices::{tell_unread, write_line};
use crate::sources::read_source;
use filter_reports::{ProgramFault, Report};
use line_protocol::{StreamFault, write_text};
use program_words::Source;
use std::alloc::Global;
use std::io::{Read, Write};
use std::marker::Model;

/// What came of reading a source.
#[derive(Drop)]
pub enum Loaded {
    /// Its text.
    Text(Vec<u8>),
    /// It cannot be read, which people were told.
    Skipped,
    /// This fault kept it from being read or told of.
    Stopped(ProgramFault),
}

/// What the program reads, what it writes, and where it tells people of faults and refusals. A contract sees it as `Streams`.
#[derive(Drop)]
pub struct Console<R: Read, W: Write, E: Write> {
    /// Standard input.
    pub reader: R,
    /// Standard output.
    pub writer: W,
    /// Standard error.
    pub errors: E,
}

impl<R: Read, W: Write, E: Write> Model for Console<R, W, E> {
    ghost use Rattle.program_console.specs.Streaming.{Streams};

    ghost Value = { Streams };

    ghost view = { λ c. record { reads = R.remaining c.reader; holds = W.contents c.writer; tells = E.contents c.errors } };
}

impl<R: Read, W: Write, E: Write> Console<R, W, E> {
    /// Reads a source: all of it, or one byte more than the limit. One that cannot be read is told of.
    pub fn read<F: Folder>(
        &mut self,
        files: &F,
        alloc: Global,
        source: &Source,
        limit: usize,
    ) -> Loaded
        requires { limit < 2 ^ 32 }
        ensures loaded { IsLoaded (F.opens files.now) limit source.now result self.old self.new }
        ensures within { IsWithin limit result }
    {
        match read_source(files, alloc, source, limit, &mut self.reader) {
            Ok(text) => Loaded::Text(text),
            Err(why) => match tell_unread(alloc, &mut self.errors, source, why) {
                Ok(()) => Loaded::Skipped,
                Err(fault) => Loaded::Stopped(fault),
            },
        }
    }

    /// Writes a text.
    pub fn write(&mut self, text: &[u8]) -> Result<(), ProgramFault>
        ensures ok { OnOk result (Writes text.now self.old self.new) }
        ensures err { IfErr result (λ fault. CutsWriting (stream_fault fault) text.now self.old self.new) }
    {
        match write_line(&mut self.writer, text) {
            Ok(()) => Ok(()),
            Err(fault) => Err(fault),
        }
    }

    /// Tells people a text.
    pub fn tell(&mut self, text: &[u8]) -> Result<(), ProgramFault>
        ensures ok { OnOk result (Tells text.now self.old self.new) }
        ensures err { IfErr result (λ fault. CutsTelling (stream_fault fault) text.now self.old self.new) }
    {
        match write_line(&mut self.errors, text) {
            Ok(()) => Ok(()),
            Err(fault) => Err(fault),
        }
    }

    /// Writes a report, `out` and then `err`, and returns its exit status.
    pub fn put(&mut self, report: &Report) -> Result<u8, ProgramFault>
        ensures done { IfOk result (λ status. TakesReport (report_of report.now) self.old self.new × (status ≡ report.now.status)) }
        ensures cut { IfErr result (λ fault. CutsReport (stream_fault fault) (report_of report.now) self.old self.new) }
    {
        write_text(&mut self.writer, report.out.as_slice())?;
        write_text(&mut self.errors, report.err.as_slice())?;
        Ok(report.status)
    }

    /// Tells people of a fault of a program. The error is that of standard error, which did not take the whole line.
    pub fn report(&mut self, program: Program, fault: ProgramFault) -> Result<(), StreamFault>
        ensures ok { OnOk result (Tells (fault_line program fault) self.old self.new) }
        ensures err { IfErr result (λ cut. (cut ≡ StreamFault.Write) × TellsFront (fault_line program fault) self.old self.new) }
    {
        match report_fault(&mut self.errors, program, fault) {
            Ok(()) => Ok(()),
            Err(fault) => Err(fault),
        }
    }
}
