//! A folder of segments in a file system.

use crate::folder::{FolderSize, SegmentFolder};
use std::alloc::Global;
use std::collections::VecDeque;
use std::fs::{self, File, OpenFile};
use std::io::{self, Error, ErrorKind, Write};
use std::rt::Files;

/// A segment that has its name: where it begins, and how many bytes it has.
#[derive(Clone, Copy)]
struct NamedSegment {
    at: u64,
    bytes: u64,
}

/// A folder of a file system for the segments of one history. The name of a segment is the number of entries that come before it, with 20
/// digits, and `.history`. While it is made it has the name `.next.history`.
#[derive(Drop)]
pub struct SegmentFiles<R: Files + Drop> {
    files: R,
    alloc: Global,
    // The folder's name.
    folder: String,
    // The file that is being made, and the one that grows.
    next: Option<R::File>,
    newest: Option<R::File>,
    // The segments that have their names, the oldest first.
    named: VecDeque<NamedSegment>,
    // How many bytes these have, and the one that is being made.
    bytes: u64,
    next_bytes: u64,
}

impl<R: Files + Drop> SegmentFiles<R> {
    /// Makes a folder of this name, which must not be there yet.
    pub fn create(files: R, alloc: Global, folder: &str) -> io::Result<SegmentFiles<R>> {
        let name = format!(in alloc; "{folder}")?;
        fs::create_dir(&files, folder)?;
        Ok(SegmentFiles {
            files,
            alloc,
            folder: name,
            next: None,
            newest: None,
            named: VecDeque::new(alloc),
            bytes: 0,
            next_bytes: 0,
        })
    }

    /// The path of the segment that is being made.
    fn next_path(&self) -> io::Result<String> {
        let folder = self.folder.as_str();
        Ok(format!(in self.alloc; "{folder}/.next.history")?)
    }

    /// The path of a segment by its name.
    fn path(&self, at: u64) -> io::Result<String> {
        let folder = self.folder.as_str();
        Ok(format!(in self.alloc; "{folder}/{at:020}.history")?)
    }

    /// Makes the names in the folder durable.
    fn sync_names(&self) -> io::Result<()> {
        fs::open(&self.files, self.folder.as_str())?.sync_all()
    }

    /// Gives the segment that is being made its name. One that is not durable is taken back: should that fail, too, then a segment without entries
    /// stays there, which is not one of the history.
    fn give_name(&self, at: u64) -> io::Result<()> {
        let (from, to) = (self.next_path()?, self.path(at)?);
        fs::rename(&self.files, from.as_str(), to.as_str())?;
        match self.sync_names() {
            Ok(()) => Ok(()),
            Err(error) => {
                fs::rename(&self.files, to.as_str(), from.as_str())?;
                Err(error)
            }
        }
    }

    /// Removes the oldest segment. One that somebody else has removed is no matter.
    fn remove_oldest(&mut self, oldest: NamedSegment) -> io::Result<()> {
        match fs::remove_file(&self.files, self.path(oldest.at)?.as_str()) {
            Ok(()) => {}
            Err(error) if error.kind() == ErrorKind::NotFound => {}
            Err(error) => return Err(error),
        }
        self.named.pop_front();
        self.bytes = self.bytes.saturating_sub(oldest.bytes);
        Ok(())
    }

    /// Notes that so many bytes were written behind the newest segment.
    fn note_written(&mut self, count: u64) {
        if let Some(newest) = self.named.back_mut() {
            newest.bytes = newest.bytes.saturating_add(count);
        }
        self.bytes = self.bytes.saturating_add(count);
    }
}

impl<R: Files + Drop> SegmentFolder for SegmentFiles<R> {
    ghost use Rattle.std.specs.Prelude.{None};

    // Of the files of a system nothing is known.
    ghost holds = { λ _. None };

    fn make(&mut self, text: &[u8]) -> io::Result<()> {
        self.next = None;
        let path = self.next_path()?;
        let mut file = File::create(&self.files, path.as_str())?;
        file.write_all(text)?;
        self.next = Some(file);
        self.next_bytes = text.len() as u64;
        Ok(())
    }

    fn sync(&mut self) -> io::Result<()> {
        if let Some(file) = &self.newest {
            file.sync_all()?;
        }
        match &self.next {
            Some(file) => file.sync_all(),
            None => Err(Error::from(ErrorKind::NotFound)),
        }
    }

    fn name(&mut self, at: u64) -> io::Result<()> {
        self.named.reserve(1)?;
        self.give_name(at)?;
        let bytes = self.next_bytes;
        self.named.push_back_reserved(NamedSegment { at, bytes });
        self.bytes = self.bytes.saturating_add(bytes);
        self.newest = self.next.take();
        Ok(())
    }

    fn write(&mut self, text: &[u8]) -> io::Result<usize> {
        let Some(file) = &mut self.newest else {
            return Err(Error::from(ErrorKind::NotFound));
        };
        let count = file.write(text)?;
        self.note_written(count as u64);
        Ok(count)
    }

    fn keep(&mut self, count: usize) -> io::Result<()> {
        let most = self.named.len();
        for _ in count..most {
            let oldest = match self.named.front() {
                Some(oldest) => *oldest,
                None => return Ok(()),
            };
            self.remove_oldest(oldest)?;
        }
        Ok(())
    }

    fn size(&self) -> FolderSize {
        FolderSize {
            segments: self.named.len() as u64,
            bytes: self.bytes,
        }
    }
}
