//! The writer of a link.
ghost use Rattle.link_handshake.specs.Lines.{greeting_line};
ghost use Rattle.neighbour_session.specs.Ending.{Ends};
ghost use Rattle.neighbour_session.specs.Writing.{Serves};
ghost use Rattle.std.specs.Io.KnownBytes.{Appends};
ghost use Rattle.std.specs.Prelude.{IsTrue, true, ⊤};

use crate::guards::{EndedLinkGuard, LinkGuard};
use crate::mailbox::{Mailbox, WriterTask};
use crate::owed_downs::enter_owed_down;
use crate::router_passes::RouterPass;
use crate::shared::Shared;
use crate::supervisor::{close_unmet, tell_unless_closed};
use crate::telling::Event;
use link_handshake::{Greeting, push_greeting};
use message_streams::MessageWriter;
use neighbour_session::{SessionEnd, end_session, serve_writer};
use router_operator::Naming;
use std::alloc::Global;
use std::io::Write;
use std::rt::Clock;
use std::sync::{Arc, Wait};

/// A session that was written: why it is over, how many messages were left out, what is left of who wrote it, and the writer's pass.
#[derive(Drop)]
struct WrittenSession<'a, J: Naming> {
    why: SessionEnd,
    left_out: u64,
    ended_guard: EndedLinkGuard<'a>,
    router_pass: RouterPass<J>,
}

/// Writes one session, until it is over, and hands its stream back.
fn write_session<'a, R: Wait + Clock, O: Write + Drop, J: Naming, E: Write>(
    rt: &R,
    alloc: Global,
    shared: &Shared<J, E>,
    guard: LinkGuard<'a>,
    task: WriterTask<J>,
    output: MessageWriter<O>,
) -> (WrittenSession<'a, J>, MessageWriter<O>)
    ensures { Serves true (λ _. ⊤) (λ _. ⊤) J.router task.session task.router_pass output result.0.why result.0.router_pass.pass result.1
        result.0.left_out }
{
    let WriterTask {
        session,
        router_pass,
    } = task;
    let mut pass = router_pass.pass();
    let (why, written, ended_guard, left_out) = serve_writer(
        rt,
        alloc,
        &shared.router,
        &mut pass,
        session,
        output,
        guard,
        true,
    );
    let router_pass = RouterPass::new(pass);
    let done = WrittenSession {
        why,
        left_out,
        ended_guard,
        router_pass,
    };
    (done, written)
}

/// Ends a session that cannot be written any more.
fn end_unwritten<'a, R: Wait + Clock, J: Naming, E: Write>(
    rt: &R,
    shared: &Shared<J, E>,
    guard: LinkGuard<'a>,
    task: WriterTask<J>,
) -> WrittenSession<'a, J>
    ensures { Ends (λ _. ⊤) J.router task.session SessionEnd.Unwritten task.router_pass result.why result.router_pass.pass }
{
    let WriterTask {
        session,
        router_pass,
    } = task;
    let mut pass = router_pass.pass();
    let why = SessionEnd::Unwritten;
    let (why, ended_guard) = end_session(rt, &shared.router, &mut pass, session, guard, why);
    let router_pass = RouterPass::new(pass);
    WrittenSession {
        why,
        left_out: 0,
        ended_guard,
        router_pass,
    }
}

/// The line of a greeting is written. Whether it was.
fn write_greeting<O: Write>(
    alloc: Global,
    output: &mut MessageWriter<O>,
    greeting: Greeting,
) -> bool
    ensures { IsTrue result → Appends output.old.held output.new.held (greeting_line greeting) }
{
    let mut line = Vec::new(alloc);
    let Ok(()) = push_greeting(&mut line, greeting) else {
        return false;
    };
    match output.write_text(line.as_slice()) {
        Ok(()) => true,
        Err(_) => false,
    }
}

/// What who writes to a link is to do next.
#[derive(Drop)]
enum Work<J: Naming> {
    /// Write a greeting.
    Greet(Greeting),
    /// Write a session.
    Serve(WriterTask<J>),
    /// Let the stream go, since the link is closed.
    LetGo,
    /// Close the stream.
    Close,
}

/// Waits until there is something to do for who writes to a link, and has a stream or has let it go. What is to be greeted is greeted first.
fn await_work<R: Wait, O: Write + Drop, J: Naming, E: Write>(
    rt: &R,
    shared: &Shared<J, E>,
    mailbox: &Mailbox<O, J>,
    link: usize,
    has_stream: bool,
) -> Work<J> {
    let signals = &shared.signals;
    let Some(condvar) = signals.condvars.get(link) else {
        return Work::Close;
    };
    let mut states = signals.states.lock(rt);
    for _ in rt.forever() {
        if let Some(greeting) = signals.stations.take_greeting(rt, link) {
            return Work::Greet(greeting);
        }
        if let Some(task) = mailbox.take_task(rt) {
            return Work::Serve(task);
        }
        if mailbox.closes(rt) {
            return Work::Close;
        }
        if has_stream && !signals.stations.is_open(rt, link) {
            return Work::LetGo;
        }
        states = condvar.wait(rt, states);
    }
    unreachable!()
}

/// Tells people how many messages of a session were left out, if there were any.
fn tell_if_left_out<R: Wait + Clock, J: Naming, E: Write>(
    rt: &R,
    alloc: Global,
    shared: &Shared<J, E>,
    node: u16,
    count: u64,
) {
    if count > 0 {
        shared.tell(rt, alloc, Event::LeftOut { node, count });
    }
}

/// Writes a session, if its stream is there. The stream, if it can be written to still; it is closed at once where it cannot.
fn serve_task<R: Wait + Clock, O: Write + Drop, J: Naming, E: Write>(
    rt: &R,
    alloc: Global,
    shared: &Shared<J, E>,
    mailbox: &Mailbox<O, J>,
    link: usize,
    node: u16,
    task: WriterTask<J>,
    output: Option<MessageWriter<O>>,
) -> Option<MessageWriter<O>> {
    let guard = LinkGuard::new(&shared.signals, link, task.session);
    let (done, mut output) = match output {
        Some(output) => {
            let (done, output) = write_session(rt, alloc, shared, guard, task, output);
            (done, Some(output))
        }
        None => (end_unwritten(rt, shared, guard, task), None),
    };
    let WrittenSession {
        why,
        left_out,
        ended_guard,
        router_pass,
    } = done;
    ended_guard.note_owed(rt);
    if why == SessionEnd::Unwritten {
        shared.signals.stations.close(rt, link);
        output = None;
    }
    if ended_guard.ended_it() {
        tell_unless_closed(rt, alloc, shared, node, why);
    }
    tell_if_left_out(rt, alloc, shared, node, left_out);
    let mut pass = router_pass.pass();
    enter_owed_down(rt, shared, &mut pass, link);
    mailbox.put_done(rt, RouterPass::new(pass));
    output
}

/// Writes to a stream of a link, until it is to be closed: greetings, as they are owed, and the sessions that are ordered.
fn write_stream<R: Wait + Clock, O: Write + Drop, J: Naming, E: Write>(
    rt: &R,
    alloc: Global,
    shared: &Shared<J, E>,
    mailbox: &Mailbox<O, J>,
    link: usize,
    node: u16,
    output: MessageWriter<O>,
) {
    let mut output = Some(output);
    for _ in rt.forever() {
        match await_work(rt, shared, mailbox, link, output.is_some()) {
            Work::Greet(greeting) => {
                if let Some(mut stream) = output.take() {
                    if write_greeting(alloc, &mut stream, greeting) {
                        output = Some(stream);
                    } else {
                        close_unmet(rt, alloc, shared, link, node, SessionEnd::Unwritten);
                    }
                }
            }
            Work::Serve(task) => {
                output = serve_task(rt, alloc, shared, mailbox, link, node, task, output.take());
            }
            Work::LetGo => output = None,
            Work::Close => return,
        }
    }
}

/// Writes to the streams of a link to a node, one after another, as they are handed over.
pub(crate) fn write_link<R: Wait + Clock + Drop, O: Write + Drop, J: Naming, E: Write + Drop>(
    rt: R,
    alloc: Global,
    shared: Arc<Shared<J, E>>,
    mailbox: Arc<Mailbox<O, J>>,
    link: usize,
    node: u16,
) {
    for _ in rt.forever() {
        let output = mailbox.await_output(&rt);
        write_stream(&rt, alloc, &shared, &mailbox, link, node, output);
        mailbox.put_closed(&rt);
    }
}
