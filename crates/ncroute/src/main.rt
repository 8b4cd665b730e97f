//! `ncroute`: checks route filters, takes routes through their code, runs a router or a network of routers, and computes the
//! routes of a whole domain.
//!
//! **`serve` does all that can be promised without streams of the system.** Its `Console` is generic over input, output and standard error, so its
//! contract says what the program writes and how it ends. It answers a `Result`, so that a fault that could not be reported is seen; `main` then
//! ends with the status alone.
#![tactic(auto)]

mod commands;
mod comparing;
mod configured;
mod domain_lines;
mod domain_loading;
mod domain_router;
mod domain_words;
mod domains;
mod filters;
mod folders;
mod joined;
mod loading;
mod network;
mod origins;
mod paging;
mod planning;
mod relinking;
mod reloading;
mod replaying;
mod requests;
mod respond;
mod routing;
mod running;
mod script;
mod testing;
mod trying;
mod watcher;
mod wrong_lines;
mod wrong_words;

use command_line::{Invocation, Terminals, waits_for_people};
use filter_reports::ProgramFault;
use origins::Origins;
use program_console::{Console, Program, end_by_fault};
use program_words::tell_that_input_is_read;
use respond::respond;
use router_daemon::{InputPipe, StandardInput};
use routing::Outlets;
use std::fs;
use std::io::{self, IsTerminal};
use std::process::ExitCode;
use std::sync::Arc;

/// What stands for a standard stream with which the program was not started: a folder, which can be opened, and neither read nor written.
const NO_STREAM: &str = "/";

fn main(rt: HostRuntime) -> ExitCode {
    // A file that is opened gets the least number that is free. If the program was started without its standard streams, that would be
    // theirs: what the file says would count as the operator's, and answers would go into it. So these come first, and stay open.
    let _held = [
        fs::open(&rt, NO_STREAM),
        fs::open(&rt, NO_STREAM),
        fs::open(&rt, NO_STREAM),
    ];
    let Ok(pipe) = Arc::new(rt.alloc(), InputPipe::new()) else {
        return ExitCode::from(end_by_fault(
            &mut rt.stderr(),
            Program::Ncroute,
            ProgramFault::MEMORY,
        ));
    };
    let Ok(shared) = Arc::try_clone(&pipe) else {
        return ExitCode::from(end_by_fault(
            &mut rt.stderr(),
            Program::Ncroute,
            ProgramFault::MEMORY,
        ));
    };
    let mut console = Console {
        reader: StandardInput::new(rt, rt.stdin(), shared),
        writer: io::writer(&rt),
        errors: rt.stderr(),
    };
    let terminals = Terminals {
        input: rt.stdin().is_terminal(),
        errors: rt.stderr().is_terminal(),
    };
    let words = command_line::read(&rt, terminals);
    if let Ok(Invocation::Router(_)) = &words {
        console.reader.share();
    }
    if words
        .as_ref()
        .is_ok_and(|words| waits_for_people(words, terminals))
    {
        tell_that_input_is_read(&rt, "ncroute");
    }
    let outlets = Outlets {
        voice: rt.stderr(),
        pipe,
        origins: Origins::none(),
    };
    let status = respond(&rt, rt.alloc(), words, &mut console, outlets);
    ExitCode::from(status)
}
