//! The log of a router.
//!
//! **Nobody waits for a log that is not read.** Its lines wait where those for people wait, in room of their own, and one thread writes them, which does
//! nothing else. It opens the file for each line that it writes, or for several that wait, and closes it behind them: so a file that was renamed is left
//! as it is, and a new one begins.

use crate::folder::LinkFolder;
use crate::outbox::{Counts, Inbox, Outbox, PIECE, open_outbox};
use crate::shared::Shared;
use crate::telling::{Event, OpenFault, log_event, shown_of, tell_event};
use line_protocol::write_text;
use router_operator::Naming;
use std::alloc::{AllocError, Global};
use std::io::{self, Read, Write};
use std::rt::Clock;
use std::sync::{Arc, Mutex, Wait};
use std::thread::{self, Threads};

/// Where the lines of a log are put. To put one there waits for nothing.
#[derive(Drop)]
pub(crate) struct Log {
    alloc: Global,
    lines: Mutex<Outbox>,
}

impl Log {
    /// Puts an event there, with the time.
    pub(crate) fn put<R: Wait + Clock>(&self, rt: &R, event: Event<'_>) {
        let mut lines = self.lines.lock(rt);
        log_event(rt, self.alloc, &mut *lines, event);
    }
}

/// The other end of a log: who writes it finds there its file's name and its lines.
#[derive(Drop)]
pub(crate) struct LogWriter {
    name: String,
    inbox: Inbox,
}

/// Both ends of a log, and what is known of its lines; nothing where no file is named.
pub(crate) type OpenLog = (Option<Log>, Option<LogWriter>, Option<Arc<Counts>>);

/// Both ends of a log in a file of this name, if one is named.
pub(crate) fn open_log(alloc: Global, name: Option<&str>) -> Result<OpenLog, AllocError> {
    let Some(name) = name else {
        return Ok((None, None, None));
    };
    let (outbox, inbox) = open_outbox(alloc)?;
    let counts = Arc::try_clone(&inbox.counts)?;
    let log = Log {
        alloc,
        lines: Mutex::new(outbox),
    };
    let name = String::from_str(alloc, name)?;
    Ok((Some(log), Some(LogWriter { name, inbox }), Some(counts)))
}

/// Tells people, but not the log, that its file was not opened, unless they were told.
fn tell_unlogged<R: Wait, J: Naming, E: Write>(
    rt: &R,
    alloc: Global,
    shared: &Shared<J, E>,
    name: &str,
    why: &io::Error,
    is_reported: &mut bool,
) {
    if *is_reported {
        return;
    }
    *is_reported = true;
    if let Ok(shown) = shown_of(alloc, why) {
        let shown = shown.as_str();
        let mut errors = shared.errors.lock(rt);
        tell_event(
            alloc,
            &mut *errors,
            Event::Unlogged(OpenFault { name, shown }),
        );
    }
}

/// The file of a log, open behind a line that is not whole.
#[derive(Drop)]
struct LogFile<O: Write> {
    stream: Option<O>,
    is_reported: bool,
}

/// Writes a text to a log. What the file does not take is lost.
fn write_log<R: Wait, I: Read, O: Write + Drop, D: LinkFolder<I, O>, J: Naming, E: Write>(
    rt: &R,
    alloc: Global,
    folder: &D,
    shared: &Shared<J, E>,
    name: &str,
    file: &mut LogFile<O>,
    text: &[u8],
) {
    if file.stream.is_none() {
        match folder.open_log(name) {
            Ok(stream) => {
                file.is_reported = false;
                file.stream = Some(stream);
            }
            Err(why) => tell_unlogged(rt, alloc, shared, name, &why, &mut file.is_reported),
        }
    }
    let is_done = match &mut file.stream {
        Some(stream) => write_text(stream, text).is_err() || text.ends_with(b"\n"),
        None => false,
    };
    if is_done {
        file.stream = None;
    }
}

/// Writes a line that says how many lines there was no room for, if there were any.
fn write_unlisted<
    R: Wait + Clock,
    I: Read,
    O: Write + Drop,
    D: LinkFolder<I, O>,
    J: Naming,
    E: Write,
>(
    rt: &R,
    alloc: Global,
    folder: &D,
    shared: &Shared<J, E>,
    log_writer: &LogWriter,
    file: &mut LogFile<O>,
) {
    let count = log_writer.inbox.counts.unwritten();
    if count > 0 {
        let mut line: Vec<u8> = Vec::new(alloc);
        log_event(rt, alloc, &mut line, Event::Unlisted(count));
        let name = log_writer.name.as_str();
        write_log::<R, I, O, D, J, E>(rt, alloc, folder, shared, name, file, line.as_slice());
    }
    log_writer.inbox.counts.note_reported(count);
}

/// Keeps a log, for as long as the process is there.
fn write_lines_of_log<
    R: Wait + Clock + Drop,
    I: Read + Drop,
    O: Write + Drop,
    D: LinkFolder<I, O> + Drop,
    J: Naming,
    E: Write + Drop,
>(rt: R, alloc: Global, folder: Arc<D>, shared: Arc<Shared<J, E>>, mut log_writer: LogWriter) {
    let mut piece = [0; PIECE];
    let mut file = LogFile {
        stream: None,
        is_reported: false,
    };
    for _ in rt.forever() {
        let count = log_writer.inbox.take(&mut piece);
        if count > 0 {
            let name = log_writer.name.as_str();
            let text = &piece[..count];
            write_log::<R, I, O, D, J, E>(&rt, alloc, &folder, &shared, name, &mut file, text);
            log_writer.inbox.counts.note_written(count);
        } else {
            write_unlisted::<R, I, O, D, J, E>(
                &rt,
                alloc,
                &folder,
                &shared,
                &log_writer,
                &mut file,
            );
            log_writer.inbox.counts.condvar.park(&rt);
        }
    }
}

/// Starts the thread that keeps a log, if there is one. Where it is not started, people are told.
pub(crate) fn start_log<
    R: Threads + Wait + Clock + Copy + Send + Drop + 'static,
    I: Read + Send + Drop + 'static,
    O: Write + Send + Drop + 'static,
    D: LinkFolder<I, O> + Send + Sync + Drop + 'static,
    J: Naming + Send + Sync + 'static,
    E: Write + Send + Drop + 'static,
>(
    rt: &R,
    alloc: Global,
    folder: &Arc<D>,
    shared: &Arc<Shared<J, E>>,
    log_writer: Option<LogWriter>,
) -> Result<(), AllocError> {
    let Some(log_writer) = log_writer else {
        return Ok(());
    };
    let handle = *rt;
    let folder = Arc::try_clone(folder)?;
    let shared_with = Arc::try_clone(shared)?;
    let started = thread::spawn(rt, move || {
        write_lines_of_log::<R, I, O, D, J, E>(handle, alloc, folder, shared_with, log_writer)
    });
    if started.is_err() {
        let mut errors = shared.errors.lock(rt);
        tell_event(alloc, &mut *errors, Event::NoLog);
    }
    Ok(())
}
