//! `ncimport`: takes a configuration of BIRD apart, writes each filter of it as a filter of `ncroute`, and verifies it.
//!
//! **`respond` does all that can be promised without streams of the system.** Its `Console` is generic over input, output and standard error, so its
//! contract says what the program writes and how it ends; `main` ends with the status.
#![tactic(auto)]

mod importing;
mod including;
mod placed;
mod respond;

use program_console::Console;
use program_words::tell_that_input_is_read;
use respond::respond;
use std::fs;
use std::io::{self, IsTerminal};
use std::process::ExitCode;

/// What stands for a standard stream with which the program was not started: a folder, which can be opened, and neither read nor written.
const NO_STREAM: &str = "/";

fn main(rt: HostRuntime) -> ExitCode {
    // A file that is opened gets the least number that is free. If the program was started without its standard streams, that would be
    // theirs: what the file says would count as the operator's, and answers would go into it. So these come first, and stay open.
    let _held = [
        fs::open(&rt, NO_STREAM),
        fs::open(&rt, NO_STREAM),
        fs::open(&rt, NO_STREAM),
    ];
    let mut console = Console {
        reader: rt.stdin(),
        writer: io::writer(&rt),
        errors: rt.stderr(),
    };
    let words = import_words::read(&rt);
    if rt.stdin().is_terminal() && words.as_ref().is_ok_and(|words| words.reads_input()) {
        tell_that_input_is_read(&rt, "ncimport");
    }
    let status = respond(&rt, rt.alloc(), words, &mut console);
    ExitCode::from(status)
}
