//! The words that a program was started with, as text.

use std::alloc::{AllocError, Global};
use std::env::{self, FillError};
use std::rt::Env;
use std::str;

/// An environment whose words are text. In one that is not UTF-8 there is NUL, which no name of a file has: so a file of such a name is
/// one that cannot be opened, and the words around it count.
#[derive(Drop)]
pub(crate) struct Readable<'a, R> {
    /// Where the words come from.
    pub(crate) env: &'a R,
}

/// Makes UTF-8 of bytes that are not: those that are not of ASCII become NUL.
fn make_text(bytes: &mut [u8]) {
    if str::from_utf8(bytes).is_err() {
        for byte in bytes.iter_mut() {
            if !byte.is_ascii() {
                *byte = 0;
            }
        }
    }
}

impl<'a, R: Env> Env for Readable<'a, R> {
    fn arg(&self, i: usize, buf: &mut [u8]) -> Result<usize, FillError> {
        let len = self.env.arg(i, buf)?;
        make_text(&mut buf[..len]);
        Ok(len)
    }

    fn var(&self, name: &str, buf: &mut [u8]) -> Result<usize, FillError> {
        self.env.var(name, buf)
    }

    fn var_at(&self, i: usize, buf: &mut [u8]) -> Result<usize, FillError> {
        self.env.var_at(i, buf)
    }
}

/// The words that the program was started with, of which its name is the first.
pub fn arguments_of<R: Env>(env: &R, alloc: Global) -> Result<Vec<String>, AllocError> {
    // All words are text here, so that want of memory alone keeps them from being read.
    let words = env::args(&(Readable { env }, alloc)).map_err(|_| AllocError)?;
    let words: Vec<String> = words.collect(alloc).map_err(|_| AllocError)?;
    Ok(words)
}
