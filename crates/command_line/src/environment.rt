//! The commands that take the size of the domain from the environment.

use program_words::with_size_at;
use std::alloc::{AllocError, Global};
use std::rt::Env;

/// The commands that take it from there: those that look at filters, and need a size. `test` has it from the test file.
static SIZED_COMMANDS: [&str; 4] = ["check", "diff", "filter", "lint"];

/// Whether a command takes its size from the environment.
fn is_sized(command: &str) -> bool {
    for name in &SIZED_COMMANDS {
        if *name == command {
            return true;
        }
    }
    false
}

/// The words that a program was started with, of which its name is the first. Where those behind a command say no size, and the environment
/// has one, `--size` stands behind the command.
pub(crate) fn with_size<R: Env>(
    env: &R,
    alloc: Global,
    words: Vec<String>,
) -> Result<Vec<String>, AllocError> {
    if words.len() < 2 || !is_sized(words[1].as_str()) {
        return Ok(words);
    }
    with_size_at(env, alloc, words, 2)
}
