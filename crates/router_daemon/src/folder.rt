//! Where the files of links, and the file that the routes are told to, are opened.

use std::fs::{self, File, OpenOptions};
use std::io::{self, Read, Write};
use std::rt::Files;

/// Where the files of links, and the file that the routes are told to, are opened by their names. To open a FIFO waits until its other end is opened.
///
/// A contract sees what a folder says of its answers. A folder that says nothing may give any.
pub trait LinkFolder<I: Read, O: Write> {
    ghost use Rattle.std.specs.Prelude.{ℕ, Bool, List, true, false, ⊤, IfErr, IfOk};

    // What it may answer where the file of a name is to be read: whether it is opened.
    ghost may_read: { Self → List ℕ → Bool → Type 0 } = { λ _ _ _. ⊤ };

    // And where it is to be written.
    ghost may_write: { Self → List ℕ → Bool → Type 0 } = { λ _ _ _. ⊤ };

    /// Opens the file that a neighbour's lines come from.
    fn open_input(&self, name: &str) -> io::Result<I>
        ensures opened { IfOk result (λ _. may_read self.now name.now true) }
        ensures unopened { IfErr result (λ _. may_read self.now name.now false) };

    /// Opens the file that the router's lines go to.
    fn open_output(&self, name: &str) -> io::Result<O>
        ensures opened { IfOk result (λ _. may_write self.now name.now true) }
        ensures unopened { IfErr result (λ _. may_write self.now name.now false) };

    /// Opens the file that the routes are told to. What a file that keeps what is written had is gone.
    fn open_feed(&self, name: &str) -> io::Result<O>;

    /// Opens the file of the log, to add to it. It is made where there is none.
    fn open_log(&self, name: &str) -> io::Result<O>;

    /// Whether a file keeps what is written to it, as a FIFO does not.
    fn is_kept(&self, name: &str) -> bool;
}

impl<R: Files<File = File>> LinkFolder<File, File> for R {
    fn open_input(&self, name: &str) -> io::Result<File> {
        fs::open(self, name)
    }

    fn open_output(&self, name: &str) -> io::Result<File> {
        OpenOptions::new().write(true).open(self, name)
    }

    fn open_feed(&self, name: &str) -> io::Result<File> {
        OpenOptions::new()
            .write(true)
            .truncate(true)
            .open(self, name)
    }

    fn open_log(&self, name: &str) -> io::Result<File> {
        OpenOptions::new()
            .append(true)
            .create(true)
            .open(self, name)
    }

    fn is_kept(&self, name: &str) -> bool {
        match fs::metadata(self, name) {
            Ok(metadata) => metadata.is_file(),
            Err(_) => false,
        }
    }
}
