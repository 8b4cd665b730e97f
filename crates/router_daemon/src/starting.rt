//! The threads of a router are started.
ghost use Rattle.std.specs.Prelude.{◌≡◌, ◌≤◌, IfErr, IfOk};
ghost use Rattle.router_daemon.specs.Passes.{IsLegalPass};
ghost use Rattle.router_daemon.specs.Running.{IsEarly};

use crate::bounding::{MostInMemory, bound_memory};
use crate::fault::DaemonFault;
use crate::folder::LinkFolder;
use crate::forgetting::{AsBegun, Forgetter};
use crate::mailbox::Mailbox;
use crate::outbox::{Counts, Outbox, open_outbox, tell_people};
use crate::router_passes::{LegalPass, RouterPass};
use crate::shared::Shared;
use crate::supervisor::{LinkPost, keep_links};
use crate::telling::{CloseReason, Event};
use crate::watching::watch_links;
use crate::writer::write_link;
use history_saver::SegmentFolder;
use neighbour_session::Domain;
use router_operator::Naming;
use router_options::LinkFiles;
use slot_lock::Pass;
use std::alloc::{AllocError, Global};
use std::io::{Read, Write};
use std::random::RandomSource;
use std::rt::Clock;
use std::snapshot::Snapshot;
use std::sync::{Arc, Wait};
use std::thread;
use std::thread::{PromisedHandle, Threads};

/// The thread that bounds the memory of a router.
pub(crate) type Bounding<S, J> = PromisedHandle<Forgetter<S, J>, AsBegun<S, J>>;

/// The shares of a link's pass. It gives one of them to its writer, for a session.
const SHARES: u32 = 100;

/// The shares of who starts the threads of links that are new: enough for 249 of them.
const SPARE_SHARES: u32 = 25_000;

/// What all links of a router have in common.
#[derive(Clone, Copy)]
pub(crate) struct Links {
    /// The router's place in its domain, as it was at the start.
    pub(crate) domain: Domain,
    /// How long a closed link waits before it is opened again, in seconds.
    pub(crate) retry: Option<u32>,
    /// How many seconds the router may be silent before it is dead; 0 for any time.
    pub(crate) hold: u16,
}

/// Starts the thread of a link's writer. Whether it was started.
fn start_writer<
    R: Threads + Wait + Clock + RandomSource + Copy + Send + Drop + 'static,
    O: Write + Send + Drop + 'static,
    J: Naming + Send + Sync + 'static,
    E: Write + Send + Drop + 'static,
>(
    rt: &R,
    alloc: Global,
    shared: &Arc<Shared<J, E>>,
    mailbox: &Arc<Mailbox<O, J>>,
    link: usize,
    node: u16,
) -> Result<bool, AllocError> {
    let handle = *rt;
    let shared = Arc::try_clone(shared)?;
    let mailbox = Arc::try_clone(mailbox)?;
    let started = thread::spawn(rt, move || {
        write_link::<R, O, J, E>(handle, alloc, shared, mailbox, link, node)
    });
    Ok(started.is_ok())
}

/// Starts the thread of who keeps the links of a node. Whether it was started.
fn start_supervisor<
    R: Threads + Wait + Clock + RandomSource + Copy + Send + Drop + 'static,
    I: Read + Send + Drop + 'static,
    O: Write + Send + Drop + 'static,
    D: LinkFolder<I, O> + Send + Sync + Drop + 'static,
    J: Naming + Send + Sync + 'static,
    E: Write + Send + Drop + 'static,
>(
    rt: &R,
    alloc: Global,
    folder: &Arc<D>,
    shared: &Arc<Shared<J, E>>,
    mailbox: Arc<Mailbox<O, J>>,
    post: LinkPost,
    router_pass: RouterPass<J>,
) -> Result<bool, AllocError> {
    let handle = *rt;
    let folder = Arc::try_clone(folder)?;
    let shared = Arc::try_clone(shared)?;
    let started = thread::spawn(rt, move || {
        keep_links::<R, I, O, D, J, E>(handle, alloc, folder, shared, mailbox, post, router_pass)
    });
    Ok(started.is_ok())
}

/// Starts the threads of the links of a node. Whether they were started.
fn start_link<
    R: Threads + Wait + Clock + RandomSource + Copy + Send + Drop + 'static,
    I: Read + Send + Drop + 'static,
    O: Write + Send + Drop + 'static,
    D: LinkFolder<I, O> + Send + Sync + Drop + 'static,
    J: Naming + Send + Sync + 'static,
    E: Write + Send + Drop + 'static,
>(
    rt: &R,
    alloc: Global,
    folder: &Arc<D>,
    shared: &Arc<Shared<J, E>>,
    post: LinkPost,
    router_pass: RouterPass<J>,
) -> Result<bool, AllocError> {
    let mailbox: Arc<Mailbox<O, J>> = Arc::new(alloc, Mailbox::new())?;
    if !start_writer::<R, O, J, E>(rt, alloc, shared, &mailbox, post.index, post.node)? {
        return Ok(false);
    }
    start_supervisor::<R, I, O, D, J, E>(rt, alloc, folder, shared, mailbox, post, router_pass)
}

/// Takes a part of a pass, with so many shares.
pub(crate) fn take_part<J: Naming, E: Write>(
    shared: &Shared<J, E>,
    pass: &mut Pass,
    shares: u32,
) -> Result<RouterPass<J>, AllocError>
    requires legal { IsLegalPass J.router pass.old }
    requires some { 1 ≤ shares }
    ensures legal { IsLegalPass J.router pass.new }
    ensures same { (pass.new.fragment.seen ≡ pass.old.fragment.seen) × (pass.new.fragment.mine ≡ pass.old.fragment.mine) }
{
    // Never so: a router is opened with 65,536 shares, enough for 249 links and the other threads. No clause says that here.
    if pass.shares() <= shares {
        return Err(AllocError);
    }
    Ok(RouterPass::new(shared.router.split(pass, shares)))
}

/// Starts the thread that looks at the clock for all links. Whether it was started.
fn start_watcher<
    R: Threads + Wait + Clock + RandomSource + Copy + Send + Drop + 'static,
    J: Naming + Send + Sync + 'static,
    E: Write + Send + Drop + 'static,
>(
    rt: &R,
    alloc: Global,
    shared: &Arc<Shared<J, E>>,
    router_pass: RouterPass<J>,
) -> Result<bool, AllocError> {
    let handle = *rt;
    let shared = Arc::try_clone(shared)?;
    let started = thread::spawn(rt, move || {
        watch_links::<R, J, E>(handle, alloc, shared, router_pass)
    });
    Ok(started.is_ok())
}

/// Starts the threads of a link, with shares of a pass. Where they are not started, people are told, and the link stays down.
fn start_post<
    R: Threads + Wait + Clock + RandomSource + Copy + Send + Drop + 'static,
    I: Read + Send + Drop + 'static,
    O: Write + Send + Drop + 'static,
    D: LinkFolder<I, O> + Send + Sync + Drop + 'static,
    J: Naming + Send + Sync + 'static,
    E: Write + Send + Drop + 'static,
>(
    rt: &R,
    alloc: Global,
    folder: &Arc<D>,
    shared: &Arc<Shared<J, E>>,
    pass: &mut Pass,
    post: LinkPost,
) -> Result<(), AllocError>
    requires { IsLegalPass J.router pass.old }
    ensures { IsLegalPass J.router pass.new }
{
    let node = post.node;
    let router_pass = take_part(shared, pass, SHARES)?;
    if !start_link::<R, I, O, D, J, E>(rt, alloc, folder, shared, post, router_pass)? {
        let why = CloseReason::Unstarted;
        shared.tell(rt, alloc, Event::Closed { node, why });
    }
    Ok(())
}

/// Starts the threads of the link of a place, which is new.
fn start_place<
    R: Threads + Wait + Clock + RandomSource + Copy + Send + Drop + 'static,
    I: Read + Send + Drop + 'static,
    O: Write + Send + Drop + 'static,
    D: LinkFolder<I, O> + Send + Sync + Drop + 'static,
    J: Naming + Send + Sync + 'static,
    E: Write + Send + Drop + 'static,
>(
    rt: &R,
    alloc: Global,
    folder: &Arc<D>,
    shared: &Arc<Shared<J, E>>,
    pass: &mut Pass,
    index: usize,
    common: Links,
)
    requires { IsLegalPass J.router pass.old }
    ensures { IsLegalPass J.router pass.new }
{
    let Some(node) = shared.nodes.get(index) else {
        return;
    };
    let node = *node;
    let post = LinkPost {
        index,
        node,
        common,
    };
    let started = start_post::<R, I, O, D, J, E>(rt, alloc, folder, shared, pass, post);
    if started.is_err() {
        let why = CloseReason::Unstarted;
        shared.tell(rt, alloc, Event::Closed { node, why });
    }
}

/// Starts the threads of links that are new, until the router is being closed.
fn open_links<
    R: Threads + Wait + Clock + RandomSource + Copy + Send + Drop + 'static,
    I: Read + Send + Drop + 'static,
    O: Write + Send + Drop + 'static,
    D: LinkFolder<I, O> + Send + Sync + Drop + 'static,
    J: Naming + Send + Sync + 'static,
    E: Write + Send + Drop + 'static,
>(
    rt: R,
    alloc: Global,
    folder: Arc<D>,
    shared: Arc<Shared<J, E>>,
    common: Links,
    legal_pass: LegalPass<J>,
) {
    let mut pass = legal_pass.pass();
    for _ in rt.forever() {
        let Some(index) = shared.signals.wanted.await_unkept(&rt) else {
            return;
        };
        start_place::<R, I, O, D, J, E>(&rt, alloc, &folder, &shared, &mut pass, index, common);
    }
}

/// Starts the thread that starts those of links that are new, where a node besides those of so many links may get one. Without it they stay down.
fn start_opening<
    R: Threads + Wait + Clock + RandomSource + Copy + Send + Drop + 'static,
    I: Read + Send + Drop + 'static,
    O: Write + Send + Drop + 'static,
    D: LinkFolder<I, O> + Send + Sync + Drop + 'static,
    J: Naming + Send + Sync + 'static,
    E: Write + Send + Drop + 'static,
>(
    rt: &R,
    alloc: Global,
    folder: &Arc<D>,
    shared: &Arc<Shared<J, E>>,
    pass: &mut Pass,
    links: usize,
    common: Links,
) -> Result<(), AllocError>
    requires { IsLegalPass J.router pass.old }
    ensures { IsLegalPass J.router pass.new }
{
    if shared.nodes.len() <= links {
        return Ok(());
    }
    // Never so: half of the shares that a router is opened with is more than 249 links need.
    if pass.shares() <= SPARE_SHARES {
        return Err(AllocError);
    }
    let legal_pass = LegalPass::new(shared.router.split(pass, SPARE_SHARES));
    let handle = *rt;
    let folder = Arc::try_clone(folder)?;
    let shared = Arc::try_clone(shared)?;
    let _ = thread::spawn(rt, move || {
        open_links::<R, I, O, D, J, E>(handle, alloc, folder, shared, common, legal_pass)
    });
    Ok(())
}

/// Starts the threads of all links, the one that looks at the clock for them, and the one that starts those of links that are new. Where a link's is
/// not started, people are told, and the link stays down.
pub(crate) fn start_links<
    R: Threads + Wait + Clock + RandomSource + Copy + Send + Drop + 'static,
    I: Read + Send + Drop + 'static,
    O: Write + Send + Drop + 'static,
    D: LinkFolder<I, O> + Send + Sync + Drop + 'static,
    J: Naming + Send + Sync + 'static,
    E: Write + Send + Drop + 'static,
>(
    rt: &R,
    alloc: Global,
    folder: &Arc<D>,
    shared: &Arc<Shared<J, E>>,
    pass: &mut Pass,
    links: Vec<LinkFiles>,
    common: Links,
) -> Result<(), AllocError>
    requires { IsLegalPass J.router pass.old }
    ensures { IsLegalPass J.router pass.new }
{
    let router_pass = take_part(shared, pass, 1)?;
    // Without it no line is written again and no neighbour is found silent, as with a HOLD of 0.
    let is_watched = start_watcher::<R, J, E>(rt, alloc, shared, router_pass)?;
    let hold = if is_watched { common.hold } else { 0 };
    let common = Links {
        domain: common.domain,
        retry: common.retry,
        hold,
    };
    start_opening::<R, I, O, D, J, E>(rt, alloc, folder, shared, pass, links.len(), common)?;
    for (index, files) in links.into_iter().enumerate() {
        let post = LinkPost {
            index,
            node: files.node,
            common,
        };
        start_post::<R, I, O, D, J, E>(rt, alloc, folder, shared, pass, post)?;
    }
    Ok(())
}

/// Starts the thread that tells people: where lines for them are put, and what is known of those.
pub(crate) fn start_telling<
    R: Threads + Wait + Clock + RandomSource + Copy + Send + Drop + 'static,
    E: Write + Send + Drop + 'static,
>(rt: &R, alloc: Global, errors: E) -> Result<(Outbox, Arc<Counts>), DaemonFault>
    ensures { IfErr result IsEarly }
{
    let (outbox, inbox) = open_outbox(alloc)?;
    let counts = Arc::try_clone(&inbox.counts)?;
    let handle = *rt;
    let started = thread::spawn(rt, move || {
        tell_people::<R, E>(handle, alloc, errors, inbox)
    });
    match started {
        Ok(_) => Ok((outbox, counts)),
        Err(_) => Err(DaemonFault::NotStarted),
    }
}

/// Starts the thread that bounds the memory of a router.
pub(crate) fn start_bounding<
    R: Threads + Wait + Clock + RandomSource + Copy + Send + Drop + 'static,
    S: SegmentFolder + Send + Drop + 'static,
    J: Naming + Send + Sync + 'static,
    E: Write + Send + Drop + 'static,
>(
    rt: &R,
    alloc: Global,
    shared: &Arc<Shared<J, E>>,
    forgetter: Forgetter<S, J>,
    router_pass: RouterPass<J>,
    most: MostInMemory,
) -> Result<Bounding<S, J>, DaemonFault>
    ensures begun { IfOk result (λ bounding. bounding.promise.0.value ≡ forgetter) }
    ensures early { IfErr result IsEarly }
{
    let handle = *rt;
    let shared = Arc::try_clone(shared)?;
    let promise = AsBegun(Snapshot::of(&forgetter));
    let started = thread::spawn_with(rt, promise, move || {
        bound_memory::<R, S, J, E>(handle, alloc, shared, forgetter, router_pass, most)
    });
    match started {
        Ok(bounding) => Ok(bounding),
        Err(_) => Err(DaemonFault::NotStarted),
    }
}
