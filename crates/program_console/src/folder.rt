//! Where files are opened and made by their names.
ghost use Rattle.std.specs.Prelude.{ℕ, List, Option, Result, Ok, Err, MatchResult, ⊤};
ghost use Rattle.std.specs.declared.io.Error.{Error as TheError};

use std::fs;
use std::io::{self, Read, Write};
use std::rt::Files;

/// Where files are opened by their names.
pub trait Folder {
    /// An open file.
    type File: Read + Drop;

    /// A file that is written.
    type New: Write + Drop;

    // Opening a name may give this: a file that has so much to read, or the reason why there is none.
    ghost opens: { Self → List ℕ → Result (Option (List ℕ)) TheError → Type 0 };

    // Making a file of a name may give this: a file that holds so much at first, or the reason why there is none.
    ghost creates: { Self → List ℕ → Result (Option (List ℕ)) TheError → Type 0 };

    // A new file of a name was closed when it held so much.
    ghost leaves: { Self → List ℕ → Option (List ℕ) → Type 0 };

    /// Opens the file of this name.
    fn open(&self, name: &str) -> io::Result<Self::File>
        ensures { MatchResult result (λ file. opens self.now name.now (Ok (Self.File.remaining file)))
            (λ error. opens self.now name.now (Err error)) };

    /// Makes a file of this name, which no file may have yet.
    fn create(&self, name: &str) -> io::Result<Self::New>
        ensures { MatchResult result (λ file. creates self.now name.now (Ok (Self.New.contents file)))
            (λ error. creates self.now name.now (Err error)) };

    /// Closes a new file of this name, which is to stay as it is.
    fn close(&self, name: &str, file: Self::New)
        ensures { leaves self.now name.now (Self.New.contents file) };

    /// Looks whether there is a file of this name, and does not open it.
    fn find(&self, name: &str) -> io::Result<()>;
}

impl<F: Files> Folder for F {
    type File = F::File;

    // Of the files of a system nothing is known.
    ghost opens = { λ _ _ _. ⊤ };

    type New = F::File;

    ghost creates = { λ _ _ _. ⊤ };

    ghost leaves = { λ _ _ _. ⊤ };

    fn open(&self, name: &str) -> io::Result<F::File> {
        fs::open(self, name)
    }

    fn create(&self, name: &str) -> io::Result<F::File> {
        fs::File::create_new(self, name)
    }

    fn close(&self, _name: &str, _file: F::File) {}

    fn find(&self, name: &str) -> io::Result<()> {
        match fs::metadata(self, name) {
            Ok(_) => Ok(()),
            Err(why) => Err(why),
        }
    }
}
