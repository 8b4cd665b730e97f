//! How the thread that reads a link and the one that writes to it hand things to each other.
ghost use Rattle.std.specs.Prelude.{◌≡◌};

use crate::router_passes::{FreshPass, RouterPass};
use message_streams::MessageWriter;
use router_operator::Naming;
use std::io::Write;
use std::sync::{Condvar, Mutex, Wait};

/// A session that the writer is to begin with: its number, and a pass by which nobody has called the router yet.
#[derive(Drop)]
pub(crate) struct WriterTask<J: Naming> {
    pub(crate) session: u32,
    pub(crate) router_pass: FreshPass<J>,
}

/// What the two threads have left for each other.
#[derive(Drop)]
pub(crate) struct Contents<O: Write, J: Naming> {
    /// The stream that the writer is to write to.
    output: Option<MessageWriter<O>>,
    task: Option<WriterTask<J>>,
    /// The writer's pass, which it gives back when it is done with a session.
    done: Option<RouterPass<J>>,
    /// The writer is to close the stream.
    closes: bool,
}

/// Where the thread that reads a link leaves work for the one that writes to it. The reader hands over the stream and the task to write a session,
/// waits until the writer is done, and has it close the stream.
#[derive(Drop)]
pub(crate) struct Mailbox<O: Write, J: Naming> {
    contents: Mutex<Contents<O, J>>,
    changed: Condvar,
}

impl<O: Write + Drop, J: Naming> Mailbox<O, J> {
    /// A mailbox with nothing in it.
    pub(crate) fn new() -> Mailbox<O, J> {
        Mailbox {
            contents: Mutex::new(Contents {
                output: None,
                task: None,
                done: None,
                closes: false,
            }),
            changed: Condvar::new(),
        }
    }

    /// Hands over the stream that the writer is to write to.
    pub(crate) fn put_output<R: Wait>(&self, rt: &R, output: MessageWriter<O>) {
        let mut contents = self.contents.lock(rt);
        contents.output = Some(output);
        drop(contents);
        self.changed.notify_all();
    }

    /// Waits for the stream to write to.
    pub(crate) fn await_output<R: Wait>(&self, rt: &R) -> MessageWriter<O> {
        let mut contents = self.contents.lock(rt);
        for _ in rt.forever() {
            if let Some(output) = contents.output.take() {
                return output;
            }
            contents = self.changed.wait(rt, contents);
        }
        unreachable!()
    }

    /// Leaves the task to write a session. The caller has to wake the writer.
    pub(crate) fn put_task<R: Wait>(&self, rt: &R, task: WriterTask<J>) {
        self.contents.lock(rt).task = Some(task);
    }

    /// Takes the task, if there is one.
    pub(crate) fn take_task<R: Wait>(&self, rt: &R) -> Option<WriterTask<J>> {
        self.contents.lock(rt).task.take()
    }

    /// Says that the writer is done with a session, and gives back its pass.
    pub(crate) fn put_done<R: Wait>(&self, rt: &R, router_pass: RouterPass<J>) {
        let mut contents = self.contents.lock(rt);
        contents.done = Some(router_pass);
        drop(contents);
        self.changed.notify_all();
    }

    /// Waits until the writer is done with the session of the task, and takes its pass.
    pub(crate) fn await_done<R: Wait>(&self, rt: &R) -> RouterPass<J> {
        let mut contents = self.contents.lock(rt);
        for _ in rt.forever() {
            if let Some(router_pass) = contents.done.take() {
                return router_pass;
            }
            contents = self.changed.wait(rt, contents);
        }
        unreachable!()
    }

    /// Has the writer close the stream. The caller has to wake the writer.
    pub(crate) fn close<R: Wait>(&self, rt: &R) {
        self.contents.lock(rt).closes = true;
    }

    /// Whether the writer is to close the stream.
    pub(crate) fn closes<R: Wait>(&self, rt: &R) -> bool {
        self.contents.lock(rt).closes
    }

    /// Says that the writer has closed the stream.
    pub(crate) fn put_closed<R: Wait>(&self, rt: &R) {
        let mut contents = self.contents.lock(rt);
        contents.closes = false;
        drop(contents);
        self.changed.notify_all();
    }

    /// Waits until the writer has closed the stream.
    pub(crate) fn await_closed<R: Wait>(&self, rt: &R) {
        let mut contents = self.contents.lock(rt);
        for _ in rt.forever() {
            if !contents.closes {
                return;
            }
            contents = self.changed.wait(rt, contents);
        }
    }
}
