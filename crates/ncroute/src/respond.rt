//! From the words of the command line to the exit status.
ghost use Rattle.std.specs.Prelude.{◌≡◌, ◌⊎◌};
ghost use Rattle.filter_reports.specs.declared.fault.ProgramFault.TheVariants.{Stream};
ghost use Rattle.program_console.specs.Ending.{fault_line};
ghost use Rattle.program_console.specs.declared.ending.Program.TheVariants.{Ncroute};
ghost use Rattle.ncroute.specs.Networking.{FailsToReportNetwork, ServesNetwork};
ghost use Rattle.ncroute.specs.Requests.{FailsToReport, Serves, fault_status};
ghost use Rattle.ncroute.specs.Responding.{Responds};
ghost use Rattle.ncroute.specs.Configured.{CutsConfigured, ServesConfigured};
ghost use Rattle.program_console.specs.Streaming.{TellsFront};

use crate::configured::serve_router;
use crate::folders::HistoryFolders;
use crate::network::serve_network;
use crate::requests::{fault_status, serve};
use crate::routing::Outlets;
use command_line::{Invocation, Request, RouterWords};
use filter_reports::{FAILED, ProgramFault};
use line_protocol::StreamFault;
use program_console::{Console, Folder, Program, end_by_fault};
use router_daemon::LinkFolder;
use std::alloc::Global;
use std::io::{Read, Write};
use std::random::RandomSource;
use std::rt::Clock;
use std::sync::Wait;
use std::thread::Threads;

/// Serves what is asked for: the exit status. It is that of a fault where standard error did not take the whole line.
fn status_of_request<F: Folder, R: Read, W: Write, E: Write>(
    files: &F,
    alloc: Global,
    request: &Request,
    console: &mut Console<R, W, E>,
) -> u8
    ensures { Serves (F.opens files.now) (F.creates files.now) (F.leaves files.now) request.now console.old console.new result
        ⊎ (FailsToReport (F.opens files.now) (F.creates files.now) (F.leaves files.now) request.now console.old console.new × (result ≡ fault_status request.now)) }
{
    match serve(files, alloc, request, console) {
        Ok(status) => status,
        Err(_) => fault_status(request),
    }
}

/// Serves `net`, likewise.
fn status_of_network<R: Threads + Wait + Clock + Sync, I: Read, W: Write, E: Write>(
    rt: &R,
    alloc: Global,
    console: &mut Console<I, W, E>,
) -> u8
    ensures { ServesNetwork console.old console.new result ⊎ (FailsToReportNetwork console.old console.new × (result ≡ FAILED)) }
{
    match serve_network(rt, alloc, console) {
        Ok(status) => status,
        Err(_) => FAILED,
    }
}

/// Serves `router`, likewise. Where its last line was not told whole, the exit status is the same.
fn status_of_router<
    R: Threads
        + Wait
        + Clock
        + RandomSource
        + Folder
        + HistoryFolders
        + LinkFolder<FI, FO>
        + Copy
        + Send
        + Sync
        + Drop
        + 'static,
    FI: Read + Send + Drop + 'static,
    FO: Write + Send + Drop + 'static,
    T: Write + Send + Drop + 'static,
    I: Read,
    W: Write,
    E: Write,
>(
    rt: &R,
    alloc: Global,
    words: &RouterWords,
    console: &mut Console<I, W, E>,
    outlets: Outlets<T>,
) -> u8
where
    R::Segments: Send + 'static,
    R::File: Send,
    R::New: Send,
    ensures { ServesConfigured (R.opens rt.now) (R.makes rt.now) (R.keeps rt.now) words.now console.old console.new result
        ⊎ ((cut : StreamFault) × CutsConfigured (R.opens rt.now) (R.makes rt.now) (R.keeps rt.now) cut words.now console.old console.new result) }
{
    match serve_router::<R, FI, FO, T, I, W, E>(rt, alloc, words, console, outlets) {
        Ok(status) => status,
        Err(unreported) => unreported.status,
    }
}

/// Tells of a fault that kept the words from being read: the exit status.
fn status_of_fault<R: Read, W: Write, E: Write>(
    console: &mut Console<R, W, E>,
    fault: StreamFault,
) -> u8
    ensures status { result ≡ FAILED }
    ensures told { TellsFront (fault_line Ncroute (Stream fault)) console.old console.new }
{
    end_by_fault(
        &mut console.errors,
        Program::Ncroute,
        ProgramFault::Stream(fault),
    )
}

/// Does what the words of the command line ask for, and returns the exit status. `outlets` is what a router has besides the console.
pub(crate) fn respond<
    R: Threads
        + Wait
        + Clock
        + RandomSource
        + Folder
        + HistoryFolders
        + LinkFolder<FI, FO>
        + Copy
        + Send
        + Sync
        + Drop
        + 'static,
    FI: Read + Send + Drop + 'static,
    FO: Write + Send + Drop + 'static,
    T: Write + Send + Drop + 'static,
    I: Read,
    W: Write,
    E: Write,
>(
    rt: &R,
    alloc: Global,
    words: Result<Invocation, StreamFault>,
    console: &mut Console<I, W, E>,
    outlets: Outlets<T>,
) -> u8
where
    R::Segments: Send + 'static,
    R::File: Send,
    R::New: Send,
    ensures { Responds (R.opens rt.now) (R.creates rt.now) (R.leaves rt.now) (R.makes rt.now) (R.keeps rt.now) words console.old console.new result }
{
    match words {
        Ok(Invocation::Asked(request)) => status_of_request(rt, alloc, &request, console),
        Ok(Invocation::Router(words)) => {
            status_of_router::<R, FI, FO, T, I, W, E>(rt, alloc, &words, console, outlets)
        }
        Ok(Invocation::Network) => status_of_network(rt, alloc, console),
        Ok(Invocation::Shown(status)) => status,
        Err(fault) => status_of_fault(console, fault),
    }
}
