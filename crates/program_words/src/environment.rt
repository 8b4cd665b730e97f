//! The size of the domain that the environment has.
//!
//! **No program has a size that is meant where none is said.** Filters that do the same in a domain of 16 nodes may differ in one of 64, so an
//! answer that rests on a size that nobody named fails open. Those that look at filters take it from the environment too, where a build says it
//! once for all of them.

use crate::arguments::Readable;
use std::alloc::{AllocError, Global};
use std::env::{self, VarError};
use std::rt::Env;

/// The variable that has it.
const SIZE_VARIABLE: &str = "NCROUTE_SIZE";

/// Whether words say a size.
fn says_size(words: &[String]) -> bool {
    for word in words {
        let word = word.as_str();
        if word == "--" {
            return false;
        }
        if word == "--size" || word.starts_with("--size=") {
            return true;
        }
    }
    false
}

/// The words that a program was started with. Where those from an index on say no size, and the environment has one, `--size` stands there.
pub fn with_size_at<R: Env>(
    env: &R,
    alloc: Global,
    words: Vec<String>,
    at: usize,
) -> Result<Vec<String>, AllocError> {
    if words.len() < at || says_size(&words[at..]) {
        return Ok(words);
    }
    match env::var(&(Readable { env }, alloc), SIZE_VARIABLE) {
        Ok(size) => {
            let mut words = words;
            words.insert(at, format!(in alloc; "--size={size}")?)?;
            Ok(words)
        }
        Err(VarError::OutOfMemory) => Err(AllocError),
        Err(_) => Ok(words),
    }
}
