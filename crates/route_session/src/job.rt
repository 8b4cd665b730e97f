//! Jobs: sessions that run at the same time.

ghost use Rattle.std.specs.Prelude.{◌≡◌};
ghost use Rattle.route_session.specs.Jobs.{IsFinished};
ghost use Rattle.slot_lock.specs.Passes.{IsPassOf};

use crate::ends::{ReadEnd, WriteEnd};
use crate::gate::Gate;
use crate::link::Link;
use crate::reader::read_session;
use crate::writer::write_session;
use slot_lock::{Pass, Router};
use std::alloc::Global;
use std::rt::Clock;
use std::sync::Wait;

/// Which way a session goes.
#[derive(Clone, Copy, PartialEq, Eq)]
pub enum Role {
    /// From the link into the router.
    Reader,
    /// From the router to the link.
    Writer,
}

/// A session to be run: its direction, its number at the router, its link, and a pass for its calls.
#[derive(Drop)]
pub struct Job<L> {
    /// Whether it reads or writes the link.
    pub role: Role,
    /// The session's number.
    pub session: u32,
    /// The link.
    pub link: L,
    /// The pass, which is one of the router that the job is run with.
    pub pass: Pass,
}

/// How a session ended.
#[derive(Drop)]
pub enum Ending {
    /// A reader ended so.
    Read(ReadEnd),
    /// A writer ended so.
    Write(WriteEnd),
}

/// A job that was done.
#[derive(Drop)]
pub struct Finished<L> {
    /// Its pass.
    pub pass: Pass,
    /// How it ended.
    pub ending: Ending,
    /// Its link, which is closed.
    pub link: L,
}

/// Does a job, and closes its link.
pub(crate) fn run_job<R: Wait + Clock, L: Link, G: Gate>(
    rt: &R,
    alloc: Global,
    router: &Router,
    job: Job<L>,
    gate: &G,
    number: u32,
    turns: u32,
) -> Finished<L>
    requires { IsPassOf router.now job.pass }
    ensures { IsFinished L.trace (G.may_answer gate.now number) turns router.now job result }
{
    let Job {
        role,
        session,
        mut link,
        mut pass,
    } = job;
    let ending = match role {
        Role::Reader => Ending::Read(read_session(
            rt, router, &mut pass, session, &mut link, gate, number, turns,
        )),
        Role::Writer => Ending::Write(write_session(
            rt, alloc, router, &mut pass, session, &mut link, gate, number, turns,
        )),
    };
    link.close();
    Finished { pass, ending, link }
}
