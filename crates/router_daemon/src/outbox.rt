//! What people are to be told waits here until they are.
//!
//! **Nobody waits for standard error but one thread, which writes there and does nothing else.** A pipe that nobody reads, and a terminal that is
//! stopped, take nothing for as long as they like; meanwhile neighbours fall silent, and the history has to be saved. What there is no room for is
//! left out, and people are told how many lines that were, once they are told again.
ghost use Rattle.std.specs.Prelude.{◌≡◌, ◌≤◌, ◌++◌, length, take};
ghost use Rattle.line_protocol.specs.Runs.{AppendsFront};
ghost use Rattle.rtrb.specs.Ring.{received};
ghost use Rattle.router_daemon.specs.Notices.{event_line};
ghost use Rattle.router_daemon.specs.declared.telling.Event.TheVariants.{Unwritten};

use crate::telling::{Event, tell_event};
use line_protocol::write_text;
use rtrb::{Consumer, Producer, RingBuffer};
use std::alloc::{AllocError, Global};
use std::io::{self, ErrorKind, Write};
use std::rt::Clock;
use std::sync::atomic::{AtomicU64, Ordering};
use std::sync::{Arc, Wait};
use std::thread;
use std::thread::Parker;
use std::time::Duration;

/// How many bytes wait at most.
const ROOM: usize = 65_536;

/// How many of them are written at once.
pub(crate) const PIECE: usize = 4_096;

/// Milliseconds for which who closes a router waits at most until people are told all.
const LAST: u32 = 1_000;

/// What who puts lines there and who writes them know together.
#[derive(Drop)]
pub(crate) struct Counts {
    /// How many bytes were put there.
    put: AtomicU64,
    /// How many of them were taken, and written if they could be.
    written: AtomicU64,
    /// How many lines there was no room for, of which people were not told yet.
    unwritten: AtomicU64,
    /// Who writes sleeps on it.
    pub(crate) condvar: Parker,
}

impl Counts {
    /// Nothing was put there.
    fn new() -> Counts {
        Counts {
            put: AtomicU64::new(0),
            written: AtomicU64::new(0),
            unwritten: AtomicU64::new(0),
            condvar: Parker::new(),
        }
    }

    /// So many bytes were put there.
    fn note_put(&self, count: usize) {
        self.put.fetch_add(count as u64, Ordering::SeqCst);
        self.condvar.unpark();
    }

    /// So many of them were taken, and written if they could be.
    pub(crate) fn note_written(&self, count: usize) {
        self.written.fetch_add(count as u64, Ordering::SeqCst);
    }

    /// There was no room for a line.
    fn note_unwritten(&self) {
        self.unwritten.fetch_add(1, Ordering::SeqCst);
        self.condvar.unpark();
    }

    /// How many lines there was no room for, of which people were not told yet.
    pub(crate) fn unwritten(&self) -> u64 {
        self.unwritten.load(Ordering::SeqCst)
    }

    /// People were told of so many lines that there was no room for.
    pub(crate) fn note_reported(&self, count: u64) {
        self.unwritten.fetch_sub(count, Ordering::SeqCst);
    }

    /// Whether people were told all.
    fn are_written(&self) -> bool {
        let written = self.written.load(Ordering::SeqCst);
        written == self.put.load(Ordering::SeqCst) && self.unwritten() == 0
    }

    /// Waits until people were told all, for a second at most.
    pub(crate) fn await_written<R: Clock>(&self, rt: &R) {
        for _ in 0..LAST {
            if self.are_written() {
                return;
            }
            thread::sleep(rt, Duration::from_millis(1));
        }
    }
}

/// Where lines are put, each by one write. To write there waits for nothing.
#[derive(Drop)]
pub(crate) struct Outbox {
    lines: Producer<u8>,
    counts: Arc<Counts>,
}

impl Write for Outbox {
    ghost use Rattle.std.specs.Prelude.{Some};
    ghost use Rattle.rtrb.specs.Ring.{sent};

    ghost contents = { λ o. Some (sent o.lines) };

    fn write(&mut self, line: &[u8]) -> io::Result<usize> {
        match self.lines.push_entire_slice(line) {
            Ok(()) => {
                self.counts.note_put(line.len());
                Ok(line.len())
            }
            Err(_) => {
                self.counts.note_unwritten();
                Err(io::Error::from(ErrorKind::WouldBlock))
            }
        }
    }

    fn flush(&mut self) -> io::Result<()> {
        Ok(())
    }
}

/// Where who tells people finds what was put there.
#[derive(Drop)]
pub(crate) struct Inbox {
    lines: Consumer<u8>,
    pub(crate) counts: Arc<Counts>,
}

impl Inbox {
    /// Takes what waits, as far as there is place for it in a piece: how many bytes that is.
    pub(crate) fn take(&mut self, piece: &mut [u8]) -> usize
        ensures taken { received self.new.lines ≡ received self.old.lines ++ take result piece.new }
        ensures within { result ≤ length piece.new }
    {
        self.lines.pop_partial_slice(piece)
    }
}

/// Both ends, where nothing waits.
pub(crate) fn open_outbox(alloc: Global) -> Result<(Outbox, Inbox), AllocError> {
    let (put, taken) = RingBuffer::new(alloc, ROOM)?;
    let counts = Arc::new(alloc, Counts::new())?;
    let shared = Arc::try_clone(&counts)?;
    let outbox = Outbox { lines: put, counts };
    let inbox = Inbox {
        lines: taken,
        counts: shared,
    };
    Ok((outbox, inbox))
}

/// Tells people what waits, as far as there is place for it in a piece: how many bytes that is.
fn tell_piece<E: Write>(errors: &mut E, inbox: &mut Inbox, piece: &mut [u8]) -> usize
    ensures taken { received inbox.new.lines ≡ received inbox.old.lines ++ take result piece.new }
    ensures written { AppendsFront (E.contents errors.old) (E.contents errors.new) (take result piece.new) }
{
    let count = inbox.take(piece);
    // Where standard error takes no text, people are not told.
    let _ = write_text(errors, &piece[..count]);
    inbox.counts.note_written(count);
    count
}

/// Tells people how many lines there was no room for, if there were any.
fn tell_if_unwritten<E: Write>(alloc: Global, errors: &mut E, unwritten: u64)
    ensures { AppendsFront (E.contents errors.old) (E.contents errors.new) (event_line (Unwritten unwritten)) }
{
    if unwritten > 0 {
        tell_event(alloc, errors, Event::Unwritten(unwritten));
    }
}

/// Tells people what is put there, for as long as the process is there.
pub(crate) fn tell_people<R: Wait + Drop, E: Write + Drop>(
    rt: R,
    alloc: Global,
    mut errors: E,
    mut inbox: Inbox,
) {
    let mut piece = [0; PIECE];
    for _ in rt.forever() {
        if tell_piece(&mut errors, &mut inbox, &mut piece) == 0 {
            let unwritten = inbox.counts.unwritten();
            tell_if_unwritten(alloc, &mut errors, unwritten);
            inbox.counts.note_reported(unwritten);
            inbox.counts.condvar.park(&rt);
        }
    }
}
