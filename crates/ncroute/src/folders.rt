//! Where folders are made in which histories are saved.
ghost use Rattle.std.specs.Prelude.{◌≡◌, ℕ, [], List, Option, Result, Ok, Err, IfOk, IfSome, MatchResult, ⊤};
ghost use Rattle.std.specs.declared.io.Error.{Error as TheError};
ghost use Rattle.history_saver.specs.Folders.{FolderView};

use history_saver::{SegmentFiles, SegmentFolder};
use std::alloc::Global;
use std::io;
use std::rt::Files;

/// Where folders for the segments of histories are made by their names.
pub trait HistoryFolders {
    /// A folder of segments.
    type Segments: SegmentFolder + Drop;

    // Making a folder of a name may give this: what one holds at first, where that is known, or the reason why there is none.
    ghost makes: { Self → List ℕ → Result (Option FolderView) TheError → Type 0 };

    // A folder of a name was left when it held so much, where that is known.
    ghost keeps: { Self → List ℕ → Option FolderView → Type 0 };

    /// Makes a folder of this name, which nothing may have yet. It has no segments.
    fn make(&self, alloc: Global, name: &str) -> io::Result<Self::Segments>
        ensures made { MatchResult result (λ folder. makes self.now name.now (Ok (Self.Segments.holds folder)))
            (λ error. makes self.now name.now (Err error)) }
        ensures empty { IfOk result (λ folder. IfSome (Self.Segments.holds folder) (λ v. v.segments ≡ [])) };

    /// Leaves a folder of this name, which is to stay as it is.
    fn leave(&self, name: &str, folder: Self::Segments)
        ensures { keeps self.now name.now (Self.Segments.holds folder) };
}

impl<F: Files + Copy + Drop> HistoryFolders for F {
    type Segments = SegmentFiles<F>;

    // Of the files of a system nothing is known.
    ghost makes = { λ _ _ _. ⊤ };

    ghost keeps = { λ _ _ _. ⊤ };

    fn make(&self, alloc: Global, name: &str) -> io::Result<SegmentFiles<F>> {
        SegmentFiles::create(*self, alloc, name)
    }

    fn leave(&self, _name: &str, _folder: SegmentFiles<F>) {}
}
