//! Standard input, which another thread may end.
//!
//! **A thread that reads a file cannot be woken.** So the standard input of a router, which an operator at another place may end, is read by a thread
//! that does nothing else, and who answers its lines waits for that thread, or for the end. It reads nothing ahead of what is wanted.
//!
//! **Its end is as that of any input**: a last line without a line feed counts.
ghost use Rattle.std.specs.Prelude.{◌≤◌, IfOk, length};

use std::io::{self, ErrorKind, Read};
use std::sync::{Arc, Condvar, Mutex, Wait};
use std::thread::{self, Threads};

/// How many bytes are read at once.
const PIECE: usize = 4_096;

/// What a pipe holds.
#[derive(Drop)]
struct PipeState {
    /// Somebody waits for more bytes.
    is_wanted: bool,
    /// The bytes that were read last, and which of them are not taken yet.
    piece: [u8; PIECE],
    from: usize,
    to: usize,
    /// Nothing more is read: the input ended, or could not be read.
    is_over: bool,
    has_failed: bool,
    /// Nothing more is to be taken.
    is_closed: bool,
}

/// The pipe from the thread that reads standard input to the one that answers its lines. Any thread may close it.
#[derive(Drop)]
pub struct InputPipe {
    state: Mutex<PipeState>,
    condvar: Condvar,
}

impl InputPipe {
    /// An empty pipe.
    pub fn new() -> InputPipe {
        InputPipe {
            state: Mutex::new(PipeState {
                is_wanted: false,
                piece: [0; PIECE],
                from: 0,
                to: 0,
                is_over: false,
                has_failed: false,
                is_closed: false,
            }),
            condvar: Condvar::new(),
        }
    }

    /// Nothing more is taken: who waits is told that standard input ended.
    pub(crate) fn close<R: Wait>(&self, rt: &R) {
        self.state.lock(rt).is_closed = true;
        self.condvar.notify_all();
    }

    /// Waits until somebody waits for more bytes. False, where nothing more is taken.
    fn await_wanted<R: Wait>(&self, rt: &R) -> bool {
        let mut state = self.state.lock(rt);
        for _ in rt.forever() {
            if state.is_closed {
                return false;
            }
            if state.is_wanted {
                return true;
            }
            state = self.condvar.wait(rt, state);
        }
        unreachable!()
    }

    /// Puts some bytes there, once those before are taken. False, where nothing more is.
    fn put<R: Wait>(&self, rt: &R, piece: &[u8; PIECE], count: usize) -> bool {
        let mut state = self.state.lock(rt);
        for _ in rt.forever() {
            if state.is_closed {
                return false;
            }
            if state.from >= state.to {
                state.piece = *piece;
                state.from = 0;
                state.to = count.min(PIECE);
                state.is_wanted = false;
                drop(state);
                self.condvar.notify_all();
                return true;
            }
            state = self.condvar.wait(rt, state);
        }
        unreachable!()
    }

    /// Nothing more is read.
    fn end<R: Wait>(&self, rt: &R, has_failed: bool) {
        let mut state = self.state.lock(rt);
        state.is_over = true;
        state.has_failed = has_failed;
        drop(state);
        self.condvar.notify_all();
    }

    /// Takes what was read, once something was.
    fn take<R: Wait>(&self, rt: &R, buf: &mut [u8]) -> io::Result<usize>
        ensures { IfOk result (λ count. count ≤ length buf.new) }
    {
        let mut state = self.state.lock(rt);
        for _ in rt.forever() {
            if state.is_closed {
                return Ok(0);
            }
            if state.from < state.to && state.to <= PIECE {
                let count = buf.len().min(state.to - state.from);
                let from = state.from;
                buf[..count].copy_from_slice(&state.piece[from..from + count]);
                state.from = from + count;
                drop(state);
                self.condvar.notify_all();
                return Ok(count);
            }
            if state.is_over {
                if state.has_failed {
                    return Err(io::Error::from(ErrorKind::Other));
                }
                return Ok(0);
            }
            state.is_wanted = true;
            self.condvar.notify_all();
            state = self.condvar.wait(rt, state);
        }
        unreachable!()
    }
}

/// Reads an input, a piece each time that more is wanted, until it ends or nothing more is taken.
fn fill<R: Wait + Drop, I: Read + Drop>(rt: R, mut input: I, pipe: Arc<InputPipe>) {
    let mut piece = [0; PIECE];
    for _ in rt.forever() {
        if !pipe.await_wanted(&rt) {
            return;
        }
        match input.read(&mut piece) {
            Ok(0) => {
                pipe.end(&rt, false);
                return;
            }
            Ok(count) => {
                if !pipe.put(&rt, &piece, count) {
                    return;
                }
            }
            Err(why) if why.kind() == ErrorKind::Interrupted => {}
            Err(_) => {
                pipe.end(&rt, true);
                return;
            }
        }
    }
}

/// Standard input, which another thread may end.
#[derive(Drop)]
pub struct StandardInput<R, I: Read> {
    rt: R,
    /// The input, unless a thread of its own reads it.
    input: Option<I>,
    pipe: Arc<InputPipe>,
}

impl<R, I: Read> StandardInput<R, I> {
    /// An input that may be ended there.
    pub fn new(rt: R, input: I, pipe: Arc<InputPipe>) -> StandardInput<R, I> {
        StandardInput {
            rt,
            input: Some(input),
            pipe,
        }
    }
}

impl<
    R: Threads + Wait + Copy + Send + Drop + 'static,
    I: Read + Send + Drop + 'static,
> StandardInput<R, I> {
    /// Has a thread of its own read it from now on, so that it can be ended. Where there is no thread for it, it cannot be read.
    pub fn share(&mut self) {
        let Ok(pipe) = Arc::try_clone(&self.pipe) else {
            return;
        };
        let Some(input) = self.input.take() else {
            return;
        };
        let handle = self.rt;
        let started = thread::spawn(&self.rt, move || fill::<R, I>(handle, input, pipe));
        if started.is_err() {
            self.pipe.end(&self.rt, true);
        }
    }
}

impl<R: Wait, I: Read> Read for StandardInput<R, I> {
    fn read(&mut self, buf: &mut [u8]) -> io::Result<usize> {
        match &mut self.input {
            Some(input) => input.read(buf),
            None => self.pipe.take(&self.rt, buf),
        }
    }
}
