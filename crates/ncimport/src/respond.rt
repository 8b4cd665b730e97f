//! From the words of the command line to the exit status.
ghost use Rattle.ncimport.specs.Responding.{EndsByFault, Imports, Responds};

use crate::importing::import_source;
use filter_reports::ProgramFault;
use import_words::{Importing, Invocation};
use line_protocol::StreamFault;
use program_console::{Console, Folder, Program, end_by_fault};
use program_words::Source;
use std::alloc::Global;
use std::io::{Read, Write};

/// Ends the run by a fault, which is told as far as standard error takes the line: the exit status.
fn end_run<R: Read, W: Write, E: Write>(console: &mut Console<R, W, E>, fault: ProgramFault) -> u8
    ensures { EndsByFault fault console.old console.new result }
{
    end_by_fault(&mut console.errors, Program::Ncimport, fault)
}

/// Imports the filters of a configuration, and returns the exit status.
fn import<F: Folder, R: Read, W: Write, E: Write>(
    files: &F,
    alloc: Global,
    how: &Importing,
    source: &Source,
    console: &mut Console<R, W, E>,
) -> u8
    ensures { Imports (F.creates files.now) (F.leaves files.now) (F.opens files.now) how.now source.now console.old console.new result }
{
    match import_source(files, alloc, how, source, console) {
        Ok(status) => status,
        Err(fault) => end_run(console, fault),
    }
}

/// Does what the words of the command line ask for, and returns the exit status.
pub(crate) fn respond<F: Folder, R: Read, W: Write, E: Write>(
    files: &F,
    alloc: Global,
    words: Result<Invocation, StreamFault>,
    console: &mut Console<R, W, E>,
) -> u8
    ensures { Responds (F.creates files.now) (F.leaves files.now) (F.opens files.now) words console.old console.new result }
{
    match words {
        Ok(Invocation::Asked { how, source }) => import(files, alloc, &how, &source, console),
        Ok(Invocation::Shown(status)) => status,
        Err(fault) => end_run(console, ProgramFault::Stream(fault)),
    }
}
