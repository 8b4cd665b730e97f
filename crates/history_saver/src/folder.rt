//! The folder of a history's segments.

use std::io;

/// How much a folder holds.
#[derive(Clone, Copy, PartialEq, Eq)]
pub struct FolderSize {
    /// How many segments have their names.
    pub segments: u64,
    /// How many bytes they have.
    pub bytes: u64,
}

/// A folder in which the segments of a history are made, one after another. It has one that is made under a temporary name, and those
/// that have their names, of which the newest grows. It is used by who makes them, and by nobody else.
///
/// A contract sees what a folder says that it holds. Of the files of a system nothing is known.
pub trait SegmentFolder {
    ghost use Rattle.std.specs.Prelude.{◌≡◌, ◌≤◌, ℕ, List, Option, ⊤, IfOk, IfSome, OnErr, OnOk, length, take};
    ghost use Rattle.std.specs.Option.{option_map};
    ghost use Rattle.history_saver.specs.Folders.{FolderView, size_of, with_named, with_newest, with_next, with_written};

    // What it holds, where that is known.
    ghost holds: { Self → Option FolderView };

    // What is made under a temporary name would be there after a loss of power.
    ghost is_durable: { Self → Type 0 } = { λ _. ⊤ };

    /// Makes a segment under the temporary name, with this text. What had this name is gone.
    fn make(&mut self, text: &[u8]) -> io::Result<()>
        ensures made { OnOk result (holds self.new ≡ option_map (with_next text.now) (holds self.old)) }
        ensures uncreated { OnErr result ((bytes : List ℕ) × (holds self.new ≡ option_map (with_next bytes) (holds self.old))) };

    /// Makes durable what has the temporary name, and what has been written to the newest segment.
    fn sync(&mut self) -> io::Result<()>
        ensures same { holds self.new ≡ holds self.old }
        ensures durable { OnOk result (is_durable self.new) };

    /// Gives what has the temporary name its own, which says how many entries come before it. It is then the newest.
    fn name(&mut self, at: u64) -> io::Result<()>
        requires { is_durable self.old }
        ensures named { OnOk result (holds self.new ≡ option_map (with_named at) (holds self.old)) }
        ensures unnamed { OnErr result (holds self.new ≡ holds self.old) };

    /// Writes bytes behind the newest segment: how many it took. After an error it took none.
    fn write(&mut self, text: &[u8]) -> io::Result<usize>
        ensures within { IfOk result (λ n. n ≤ length text.now) }
        ensures written { IfOk result (λ n. holds self.new ≡ option_map (with_written (take n text.now)) (holds self.old)) }
        ensures unwritten { OnErr result (holds self.new ≡ holds self.old) };

    /// Removes the oldest segments but so many. After an error more may be left.
    fn keep(&mut self, count: usize) -> io::Result<()>
        requires { 1 ≤ count }
        ensures kept { OnOk result (holds self.new ≡ option_map (with_newest count) (holds self.old)) }
        ensures left { OnErr result ((n : ℕ) × (count ≤ n) × (holds self.new ≡ option_map (with_newest n) (holds self.old))) };

    /// How much it holds, by what was written here: nobody looks at the files. Numbers count as far as 64 bits go.
    fn size(&self) -> FolderSize
        ensures { IfSome (holds self.now) (λ v. result ≡ size_of v) };
}
