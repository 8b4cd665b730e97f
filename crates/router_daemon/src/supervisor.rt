//! Who keeps a link.
//!
//! **The next session is had over the same streams**, wherever these go on, without `--retry` too: a line that outlives its ends has no other end.
ghost use Rattle.std.specs.Prelude.{◌≡◌, ◌<◌, ⊤, false, true, IfErr, IfNone, IfOk};
ghost use Rattle.slot_lock.specs.Passes.{IsPassOf};
ghost use Rattle.router_daemon.specs.Links.{AreFresh, IsUnopened, IsUnreadable, KeepsOnce, KeepsTurn, StaysClosed};
ghost use Rattle.router_daemon.specs.Sessions.{IsOver, IsSince, OpensLater, OpensNever, Serves, ServesLast, ServesNeighbour};
ghost use Rattle.neighbour_session.specs.Ending.{GoesDown};
ghost use Rattle.message_streams.specs.Views.{ReaderView};
ghost use Rattle.neighbour_session.specs.Reading.{Hears};

use crate::closing::stay;
use crate::folder::LinkFolder;
use crate::guards::{LinkEars, LinkGuard};
use crate::mailbox::{Mailbox, WriterTask};
use crate::owed_downs::{enter_owed_down, passes};
use crate::retrying::{reopening, wait_before, was_long};
use crate::router_passes::{FreshPass, RouterPass};
use crate::shared::Shared;
use crate::starting::Links;
use crate::telling::{CloseReason, Event, OpenFault, shown_of};
use crate::wanted::{TurnEnd, WantedLink};
use link_handshake::{Said, Speaker};
use message_streams::{MessageReader, MessageWriter};
use neighbour_session::{Domain, SessionEnd, enter_down, enter_up, meet, pause, serve_reader};
use router_operator::Naming;
use router_options::LinkFiles;
use slot_lock::{Answer, Pass};
use std::alloc::Global;
use std::io::{self, BufReader, Read, Write};
use std::random::RandomSource;
use std::rt::Clock;
use std::sync::{Arc, Wait};
use std::time::Instant;

/// A link that is kept.
#[derive(Drop)]
pub(crate) struct RouterLink {
    /// Its number.
    pub(crate) index: usize,
    /// The neighbour, and the files.
    pub(crate) files: LinkFiles,
    /// The turn of the link.
    pub(crate) turn: u32,
    /// The router's place in its domain, as it was at the start.
    pub(crate) domain: Domain,
    /// How long it is closed before it is opened again, in seconds.
    pub(crate) retry: Option<u32>,
    /// How many seconds this router may be silent before it is dead; 0 for any time.
    pub(crate) hold: u16,
}

/// The streams of a link that is open.
#[derive(Drop)]
struct Streams<I: Read + Drop, O: Write> {
    input: MessageReader<BufReader<I>>,
    output: MessageWriter<O>,
}

/// Which file of a link was not opened, and why.
#[derive(Drop)]
struct Unopened<'a> {
    name: &'a str,
    why: io::Error,
}

/// Opens the file that a neighbour's lines come from.
fn open_input<'a, I: Read + Drop, O: Write, D: LinkFolder<I, O>>(
    folder: &D,
    alloc: Global,
    name: &'a str,
) -> Result<BufReader<I>, Unopened<'a>>
    ensures { IfErr result (λ _. IsUnreadable (D.may_read folder.now) name.now) }
{
    match folder.open_input(name) {
        Ok(input) => BufReader::new(alloc, input).map_err(|why| Unopened { name, why }),
        Err(why) => Err(Unopened { name, why }),
    }
}

/// Opens the file that the router's lines go to.
fn open_output<'a, I: Read, O: Write, D: LinkFolder<I, O>>(
    folder: &D,
    name: &'a str,
) -> Result<O, Unopened<'a>>
    ensures { IfErr result (λ _. D.may_write folder.now name.now false) }
{
    match folder.open_output(name) {
        Ok(output) => Ok(output),
        Err(why) => Err(Unopened { name, why }),
    }
}

/// The streams over two files that were opened, of which nothing is used.
fn streams_of<I: Read + Drop, O: Write + Drop>(
    alloc: Global,
    input: BufReader<I>,
    output: O,
) -> Streams<I, O>
    ensures { AreFresh result.input result.output }
{
    Streams {
        input: MessageReader::new(input),
        output: MessageWriter::new(alloc, output),
    }
}

/// Opens both files of a link: of two neighbours the one with the lower number opens its output first, so that FIFOs meet.
fn open_streams<'a, I: Read + Drop, O: Write + Drop, D: LinkFolder<I, O>>(
    folder: &D,
    alloc: Global,
    link: &'a RouterLink,
) -> Result<Streams<I, O>, Unopened<'a>>
    ensures opened { IfOk result (λ streams. AreFresh streams.input streams.output) }
    ensures unopened { IfErr result (λ _. IsUnopened (D.may_read folder.now) (D.may_write folder.now) link.now.files) }
{
    let (from, to) = (link.files.input.as_str(), link.files.output.as_str());
    if link.domain.me < link.files.node {
        let output = open_output::<I, O, D>(folder, to)?;
        let input = open_input::<I, O, D>(folder, alloc, from)?;
        Ok(streams_of(alloc, input, output))
    } else {
        let input = open_input::<I, O, D>(folder, alloc, from)?;
        let output = open_output::<I, O, D>(folder, to)?;
        Ok(streams_of(alloc, input, output))
    }
}

/// Tells people why a session is over, unless another thread tells it or the router is being closed.
pub(crate) fn tell_unless_closed<R: Wait + Clock, J: Naming, E: Write>(
    rt: &R,
    alloc: Global,
    shared: &Shared<J, E>,
    node: u16,
    why: SessionEnd,
) {
    if why == SessionEnd::Closed || shared.signals.is_closing(rt) {
        return;
    }
    let why = CloseReason::Ended(why);
    shared.tell(rt, alloc, Event::Closed { node, why });
}

/// Closes a link whose ends did not meet, and tells people why, unless another thread closed it.
pub(crate) fn close_unmet<R: Wait + Clock, J: Naming, E: Write>(
    rt: &R,
    alloc: Global,
    shared: &Shared<J, E>,
    link: usize,
    node: u16,
    why: SessionEnd,
) {
    if shared.signals.stations.close(rt, link) {
        tell_unless_closed(rt, alloc, shared, node, why);
    }
}

/// Tells people that a file of a link was not opened.
fn tell_of_file<R: Wait + Clock, J: Naming, E: Write>(
    rt: &R,
    alloc: Global,
    shared: &Shared<J, E>,
    node: u16,
    unopened: &Unopened<'_>,
) {
    if let Ok(shown) = shown_of(alloc, &unopened.why) {
        let why = CloseReason::Unopened(OpenFault {
            name: unopened.name,
            shown: shown.as_str(),
        });
        shared.tell(rt, alloc, Event::Closed { node, why });
    }
}

/// A stream of a session that is over, if it goes on; otherwise it is closed.
fn going_on<I: Read + Drop>(why: SessionEnd, input: MessageReader<I>) -> Option<MessageReader<I>> {
    if why.goes_on() { Some(input) } else { None }
}

/// Serves a session of a link that began: orders that it is written, enters what the neighbour says, and waits until the writer is done with
/// it. Where this one ended it, tells people why it is over. Answers that, the stream that was read, if it goes on, and the pass of the writer. One
/// that does not is closed before people are told.
fn serve_begun<R: Wait + Clock, I: Read + Drop, O: Write + Drop, J: Naming, E: Write>(
    rt: &R,
    alloc: Global,
    shared: &Shared<J, E>,
    mailbox: &Mailbox<O, J>,
    link: &RouterLink,
    input: MessageReader<I>,
    task: WriterTask<J>,
    pass: &mut Pass,
) -> (SessionEnd, Option<MessageReader<I>>, RouterPass<J>)
    requires { IsPassOf J.router pass.old }
    ensures of { IsPassOf J.router pass.new }
    ensures shares { pass.new.fragment.shares ≡ pass.old.fragment.shares }
    ensures hears { (left : ReaderView) × Hears true (λ _. ⊤) (λ _. ⊤) J.router task.session pass.old input result.0 pass.new left }
{
    let (node, session) = (link.files.node, task.session);
    mailbox.put_task(rt, task);
    shared.signals.notify(rt, link.index);
    let guard = LinkGuard::reader(&shared.signals, link.index, session);
    let (why, input, ended_guard) = serve_reader(
        rt,
        &shared.router,
        pass,
        session,
        input,
        guard,
        true,
    );
    ended_guard.note_owed(rt);
    let input = going_on(why, input);
    if ended_guard.ended_it() {
        tell_unless_closed(rt, alloc, shared, node, why);
    }
    (why, input, mailbox.await_done(rt))
}

/// Enters the Down of a session that nobody serves, and notes it. Why it is over. Where the Down is refused, it is owed.
fn abandon<R: Wait, J: Naming, E: Write>(
    rt: &R,
    shared: &Shared<J, E>,
    pass: &mut Pass,
    link: usize,
    session: u32,
) -> SessionEnd
    requires { IsPassOf J.router pass.old }
    ensures of { IsPassOf J.router pass.new }
    ensures shares { pass.new.fragment.shares ≡ pass.old.fragment.shares }
    ensures down { GoesDown J.router session SessionEnd.NotStarted pass.old result pass.new }
{
    match enter_down(rt, &shared.router, pass, session) {
        Ok(answer) => {
            shared.signals.note(rt, &answer);
            SessionEnd::NotStarted
        }
        Err(why) => {
            shared.signals.owe(rt, link, session);
            why
        }
    }
}

/// Serves a session whose Up has this answer, until it is over. Where the link has a session already, or the router is being closed, its Down
/// is entered at once. Why it is over, the stream that was read, if it goes on, and the pass of who was to write.
fn serve_opened<R: Wait + Clock, I: Read + Drop, O: Write + Drop, J: Naming, E: Write>(
    rt: &R,
    alloc: Global,
    shared: &Shared<J, E>,
    mailbox: &Mailbox<O, J>,
    link: &RouterLink,
    input: MessageReader<I>,
    task: WriterTask<J>,
    answer: &Answer,
    pass: &mut Pass,
) -> (SessionEnd, Option<MessageReader<I>>, RouterPass<J>)
    requires { IsPassOf J.router pass.old }
    ensures of { IsPassOf J.router pass.new }
    ensures shares { pass.new.fragment.shares ≡ pass.old.fragment.shares }
    ensures over { IsOver J.router task.session input pass.old result.0 pass.new }
{
    if shared
        .signals
        .begin(rt, link.index, link.turn, task.session, answer)
    {
        return serve_begun(rt, alloc, shared, mailbox, link, input, task, pass);
    }
    let WriterTask {
        session,
        router_pass,
    } = task;
    let why = abandon(rt, shared, pass, link.index, session);
    shared.signals.end_change(rt, link.index);
    (why, None, RouterPass::new(router_pass.pass()))
}

/// Enters the Up of a link's neighbour: the session, and the answer. Where the history is full, it is tried again every few milliseconds, until
/// there is room. Where the router is being closed this never returns, and its thread ends with the process.
fn open_session<R: Wait + Clock, J: Naming, E: Write>(
    rt: &R,
    shared: &Shared<J, E>,
    link: &RouterLink,
    pass: &mut Pass,
) -> Result<(u32, Answer), SessionEnd>
    requires { IsPassOf J.router pass.old }
    ensures of { IsPassOf J.router pass.new }
    ensures shares { pass.new.fragment.shares ≡ pass.old.fragment.shares }
    ensures opened { IfOk result (λ r. OpensLater J.router link.now.files.node pass.old r.0 r.1 pass.new) }
    ensures refused { IfErr result (λ why. OpensNever J.router link.now.files.node pass.old why pass.new) }
{
    for _ in rt.forever() {
        if !shared.signals.open(rt, link.index) {
            stay(rt, shared);
        }
        let why = match enter_up(rt, &shared.router, pass, link.files.node) {
            Ok(opened) => return Ok(opened),
            Err(why) => why,
        };
        shared.signals.end_change(rt, link.index);
        if !passes(why) {
            return Err(why);
        }
        pause(rt);
    }
    unreachable!()
}

/// Serves a neighbour whose greeting answered this router's: enters its Up, has the session written, enters what it says, and enters Down when
/// it is over. Says why it is, hands back the stream that was read, if it goes on, and notes when it began. Where the router is being closed this never
/// returns, and its thread ends with the process.
fn serve_neighbour<R: Wait + Clock, I: Read + Drop, O: Write + Drop, J: Naming, E: Write>(
    rt: &R,
    alloc: Global,
    shared: &Shared<J, E>,
    mailbox: &Mailbox<O, J>,
    link: &RouterLink,
    input: MessageReader<I>,
    pass: &mut Pass,
    begun: &mut Option<Instant>,
) -> (SessionEnd, Option<MessageReader<I>>)
    requires of { IsPassOf J.router pass.old }
    requires shares { 1 < pass.old.fragment.shares }
    ensures of { IsPassOf J.router pass.new }
    ensures served { ServesNeighbour J.router link.now.files.node input pass.old result.0 pass.new }
{
    let (session, answer) = match open_session(rt, shared, link, pass) {
        Ok(opened) => opened,
        Err(why) => {
            drop(input);
            tell_unless_closed(rt, alloc, shared, link.files.node, why);
            return (why, None);
        }
    };
    *begun = Instant::now(rt).ok();
    let writing = shared.router.split(pass, 1);
    let task = WriterTask {
        session,
        router_pass: FreshPass::new(writing),
    };
    let (why, input, router_pass) = serve_opened(
        rt, alloc, shared, mailbox, link, input, task, &answer, pass,
    );
    shared.router.join(pass, router_pass.pass());
    (why, input)
}

/// The end of a link that was opened now begins, unless its turn is over.
fn open_station<R: Wait + Clock + RandomSource, J: Naming, E: Write>(
    rt: &R,
    shared: &Shared<J, E>,
    link: &RouterLink,
) {
    let speaker = Speaker {
        size: link.domain.size,
        node: link.domain.me,
        hold: link.hold,
        digest: shared.signals.wanted.digest(rt),
    };
    shared
        .signals
        .open_station(rt, link.index, link.turn, speaker);
}

/// The router's place in its domain, which has this digest now. A neighbour may have any other one still, if it might have at the start.
fn domain_now(domain: Domain, digest: Option<[u8; 8]>) -> Domain
    ensures { IsSince domain result }
{
    let wanted = match domain.digest {
        Some(first) => Some(digest.unwrap_or(first)),
        None => None,
    };
    Domain {
        size: domain.size,
        me: domain.me,
        digest: wanted,
    }
}

/// Serves one session over the streams of a link, until it is over: waits first until the neighbour answers this router's greeting. A line that
/// ended the session before may be the first that is heard. Says why it is over, and hands back the stream that was read, if it goes on. Notes when it
/// began.
fn serve_link<R: Wait + Clock + RandomSource, I: Read + Drop, O: Write + Drop, J: Naming, E: Write>(
    rt: &R,
    alloc: Global,
    shared: &Shared<J, E>,
    mailbox: &Mailbox<O, J>,
    link: &RouterLink,
    mut input: MessageReader<I>,
    first: Option<Said>,
    pass: &mut Pass,
    begun: &mut Option<Instant>,
) -> (SessionEnd, Option<MessageReader<I>>)
    requires { IsPassOf J.router pass.old }
    ensures of { IsPassOf J.router pass.new }
    ensures serves { Serves J.router link.now.domain link.now.files.node input first pass.old result.0 pass.new }
{
    if pass.shares() < 2 {
        return (SessionEnd::NotStarted, None);
    }
    let ears = LinkEars::new(&shared.signals, link.index);
    ears.listen(rt, first.is_some());
    let node = link.files.node;
    let domain = domain_now(link.domain, shared.signals.wanted.digest(rt));
    match meet(rt, &mut input, &ears, domain, node, first) {
        Ok(_) => serve_neighbour(rt, alloc, shared, mailbox, link, input, pass, begun),
        Err(why) => {
            let input = going_on(why, input);
            if input.is_some() {
                tell_unless_closed(rt, alloc, shared, node, why);
            } else {
                close_unmet(rt, alloc, shared, link.index, node, why);
            }
            (why, input)
        }
    }
}

/// Serves one session after another over the streams of a link, as long as these go on: why the last one is over. After each it waits until its
/// Down is no more owed. Notes when the last one began.
fn serve_streams<
    R: Wait + Clock + RandomSource,
    I: Read + Drop,
    O: Write + Drop,
    J: Naming,
    E: Write,
>(
    rt: &R,
    alloc: Global,
    shared: &Shared<J, E>,
    mailbox: &Mailbox<O, J>,
    link: &RouterLink,
    input: MessageReader<I>,
    pass: &mut Pass,
    begun: &mut Option<Instant>,
) -> SessionEnd
    requires { IsPassOf J.router pass.old }
    ensures of { IsPassOf J.router pass.new }
    ensures last { ServesLast J.router link.now.domain link.now.files.node result }
{
    let mut input = input;
    let mut first = None;
    for _ in rt.forever() {
        let (why, read) = serve_link(rt, alloc, shared, mailbox, link, input, first, pass, begun);
        enter_owed_down(rt, shared, pass, link.index);
        let is_open = shared.signals.stations.is_open(rt, link.index);
        match read {
            Some(read) if is_open && !shared.signals.is_closing(rt) => input = read,
            _ => return why,
        }
        first = why.last_line();
    }
    unreachable!()
}

/// Opens a link, and serves sessions over its streams, as long as these go on. Says whether it can be opened again, and notes when the last
/// session began.
fn keep_once<
    R: Wait + Clock + RandomSource,
    I: Read + Drop,
    O: Write + Drop,
    D: LinkFolder<I, O>,
    J: Naming,
    E: Write,
>(
    rt: &R,
    alloc: Global,
    folder: &D,
    shared: &Shared<J, E>,
    mailbox: &Mailbox<O, J>,
    link: &RouterLink,
    pass: &mut Pass,
    begun: &mut Option<Instant>,
) -> bool
    requires { IsPassOf J.router pass.old }
    ensures of { IsPassOf J.router pass.new }
    ensures keeps { KeepsOnce (D.may_read folder.now) (D.may_write folder.now) J.router link.now.domain link.now.files pass.old result pass.new }
{
    match open_streams::<I, O, D>(folder, alloc, link) {
        Ok(Streams { input, output }) => {
            open_station(rt, shared, link);
            mailbox.put_output(rt, output);
            let why = serve_streams(rt, alloc, shared, mailbox, link, input, pass, begun);
            shared.signals.stations.close(rt, link.index);
            mailbox.close(rt);
            shared.signals.notify(rt, link.index);
            mailbox.await_closed(rt);
            why.can_be_opened_again(true)
        }
        Err(unopened) => {
            tell_of_file(rt, alloc, shared, link.files.node, &unopened);
            true
        }
    }
}

/// Opens a link, and serves sessions over its streams. After how many seconds it is to be opened again, where it
/// waited so long before; None where it stays closed.
fn keep_turn<
    R: Wait + Clock + RandomSource,
    I: Read + Drop,
    O: Write + Drop,
    D: LinkFolder<I, O>,
    J: Naming,
    E: Write,
>(
    rt: &R,
    alloc: Global,
    folder: &D,
    shared: &Shared<J, E>,
    mailbox: &Mailbox<O, J>,
    link: &RouterLink,
    before: Option<u32>,
    pass: &mut Pass,
) -> Option<u32>
    requires { IsPassOf J.router pass.old }
    ensures of { IsPassOf J.router pass.new }
    ensures keeps { KeepsTurn (D.may_read folder.now) (D.may_write folder.now) J.router link.now.domain link.now.files link.now.retry before
        pass.old result }
{
    let mut begun = None;
    let again = keep_once::<R, I, O, D, J, E>(
        rt, alloc, folder, shared, mailbox, link, pass, &mut begun,
    );
    // A link that is not opened again does not come up any more.
    if link.retry.is_none() {
        shared.signals.news.note_there(rt, link.index);
    }
    let before = wait_before(was_long(rt, begun), before);
    reopening(link.retry, again, before)
}

/// Keeps a link: serves one session after another, until it stays closed (None), or its turn is over.
fn keep_link<
    R: Wait + Clock + RandomSource,
    I: Read + Drop,
    O: Write + Drop,
    D: LinkFolder<I, O>,
    J: Naming,
    E: Write,
>(
    rt: &R,
    alloc: Global,
    folder: &D,
    shared: &Shared<J, E>,
    mailbox: &Mailbox<O, J>,
    link: &RouterLink,
    pass: &mut Pass,
) -> Option<TurnEnd>
    requires { IsPassOf J.router pass.old }
    ensures of { IsPassOf J.router pass.new }
    ensures closed { IfNone result (StaysClosed (D.may_read folder.now) (D.may_write folder.now) J.router link.now.domain link.now.files
        link.now.retry) }
{
    let mut before = None;
    for _ in rt.forever() {
        let wait = keep_turn::<R, I, O, D, J, E>(
            rt, alloc, folder, shared, mailbox, link, before, pass,
        )?;
        if let Some(end) = shared.signals.wanted.rest(rt, link.index, link.turn, wait) {
            return Some(end);
        }
        before = Some(wait);
    }
    unreachable!()
}

/// The place of a node that has a link, or may get one.
#[derive(Clone, Copy)]
pub(crate) struct LinkPost {
    /// Its number.
    pub(crate) index: usize,
    /// The node.
    pub(crate) node: u16,
    /// What all links have in common.
    pub(crate) common: Links,
}

impl LinkPost {
    /// The link that is wanted there.
    fn link(self, wanted: WantedLink) -> RouterLink {
        let WantedLink { files, turn } = wanted;
        RouterLink {
            index: self.index,
            files,
            turn,
            domain: self.common.domain,
            retry: self.common.retry,
            hold: self.common.hold,
        }
    }
}

/// Keeps the links of a node, one after another, until the router is being closed.
pub(crate) fn keep_links<
    R: Wait + Clock + RandomSource + Drop,
    I: Read + Drop,
    O: Write + Drop,
    D: LinkFolder<I, O> + Drop,
    J: Naming,
    E: Write + Drop,
>(
    rt: R,
    alloc: Global,
    folder: Arc<D>,
    shared: Arc<Shared<J, E>>,
    mailbox: Arc<Mailbox<O, J>>,
    post: LinkPost,
    router_pass: RouterPass<J>,
) {
    let mut pass = router_pass.pass();
    for _ in rt.forever() {
        let Some(wanted) = shared.signals.wanted.await_link(&rt, post.index) else {
            return;
        };
        let link = post.link(wanted);
        let _ = keep_link::<R, I, O, D, J, E>(
            &rt, alloc, &folder, &shared, &mailbox, &link, &mut pass,
        );
    }
}
