//! Who tells where packets go.
ghost use Rattle.std.specs.Prelude.{◌≡◌};
ghost use Rattle.slot_lock.specs.Passes.{IsPassOf};
ghost use Rattle.router_daemon.specs.Passes.{IsLegalPass};

use crate::folder::LinkFolder;
use crate::resting::await_rest;
use crate::router_passes::RouterPass;
use crate::shared::Shared;
use crate::signals::Closing;
use crate::starting::take_part;
use crate::telling::{Event, OpenFault, shown_of};
use neighbour_session::pause;
use netchange_core::Opening;
use route_feed::{Feed, FeedFault};
use router_operator::Naming;
use slot_lock::Pass;
use std::alloc::{AllocError, Global};
use std::io::{self, Read, Write};
use std::marker::{Model, PhantomData};
use std::rt::Clock;
use std::sync::{Arc, Wait};
use std::thread::{self, Threads};
use std::time::{Duration, Instant};

/// Where the routes are to be told.
#[derive(Clone, Copy)]
pub struct FeedFile<'a> {
    /// The name of a FIFO or a file.
    pub name: &'a str,
    /// How many seconds the first table waits at most.
    pub settle: u32,
}

/// Where the routes of the router are told. A contract sees it as what the router was opened with.
#[derive(Drop)]
pub(crate) struct Feeding<J: Naming> {
    name: String,
    settle: u32,
    opening: Opening,
    of: PhantomData<J>,
}

impl<J: Naming> Model for Feeding<J> {
    ghost use Rattle.std.specs.Prelude.{◌≡◌};
    ghost use Rattle.netchange_core.specs.OpeningView.{OpeningView};

    ghost Value = { OpeningView };

    ghost view = { λ f. f.opening };

    ghost invariant = { λ f. f.opening ≡ J.router.opening };
}

impl<J: Naming> Feeding<J> {
    /// The routes of the router are told there, if they are to be told.
    pub(crate) fn new(
        alloc: Global,
        file: Option<FeedFile<'_>>,
        opening: &Opening,
    ) -> Result<Option<Feeding<J>>, AllocError>
        requires { opening.now ≡ J.router.opening }
    {
        match file {
            None => Ok(None),
            Some(FeedFile { name, settle }) => Ok(Some(Feeding {
                name: String::from_str(alloc, name)?,
                settle,
                opening: opening.copy(alloc)?,
                of: PhantomData,
            })),
        }
    }
}

/// Tells that the routes are not told, since a file could not be opened.
fn tell_unfed<R: Wait + Clock, J: Naming, E: Write>(
    rt: &R,
    alloc: Global,
    shared: &Shared<J, E>,
    name: &str,
    why: &io::Error,
) {
    if let Ok(shown) = shown_of(alloc, why) {
        let shown = shown.as_str();
        shared.tell(rt, alloc, Event::Unfed(OpenFault { name, shown }));
    }
}

/// For how many milliseconds a name rests that could not be opened, or whose stream ended.
const PAUSE: u64 = 200;

/// For how many milliseconds a stream is told nothing. Then it is told that nothing is new: a FIFO that nobody has open any more takes no more of it,
/// and whoever opens it next is told the whole table.
const SILENCE: u64 = 1000;

/// Whether a stream that was told something unasked then is to be told something again. Where the clock cannot be read, it is.
fn is_silent<R: Clock>(rt: &R, last_notice: Option<Instant>) -> bool {
    let Some(last_notice) = last_notice else {
        return true;
    };
    match last_notice.elapsed(rt) {
        Ok(lasted) => lasted >= Duration::from_millis(SILENCE),
        Err(_) => true,
    }
}

/// Whether the stream is to be told something now, although nothing may be new. It notes that it was.
fn speaks_now<R: Clock>(rt: &R, is_kept: bool, last_notice: &mut Option<Instant>) -> bool {
    if is_kept || !is_silent(rt, *last_notice) {
        return false;
    }
    *last_notice = Instant::now(rt).ok();
    true
}

/// Tells a stream where packets go, until it takes no more (None) or the router is being closed. A file that keeps what it is told is told only
/// what is new.
fn tell_stream<R: Wait + Clock, O: Write + Drop, J: Naming, E: Write>(
    rt: &R,
    alloc: Global,
    shared: &Shared<J, E>,
    opening: &Opening,
    stream: O,
    is_kept: bool,
    pass: &mut Pass,
) -> Option<Closing>
    requires of { IsPassOf J.router pass.old }
    requires opening { opening.now ≡ J.router.opening }
    ensures { IsPassOf J.router pass.new }
{
    let Ok(mut feed) = Feed::new(alloc, stream, opening) else {
        return None;
    };
    let mut last_notice = Instant::now(rt).ok();
    for _ in rt.forever() {
        let speaks = speaks_now(rt, is_kept, &mut last_notice);
        match feed.tell(rt, alloc, &shared.router, pass, speaks) {
            Ok(end) => {
                let longest = Duration::from_millis(SILENCE);
                if let Some(closing) = shared.signals.await_news(rt, end, longest) {
                    return Some(closing);
                }
            }
            Err(FeedFault::Write) => return None,
            Err(FeedFault::Memory) => {}
        }
        // What belongs together comes together.
        pause(rt);
    }
    unreachable!()
}

/// Opens the file that the routes are told to. Where it cannot be opened, people are told, unless they were.
fn open_feed<R: Wait + Clock, I: Read, O: Write, D: LinkFolder<I, O>, J: Naming, E: Write>(
    rt: &R,
    alloc: Global,
    folder: &D,
    shared: &Shared<J, E>,
    name: &str,
    is_reported: &mut bool,
) -> Option<O> {
    match folder.open_feed(name) {
        Ok(stream) => {
            *is_reported = false;
            Some(stream)
        }
        Err(why) => {
            if !*is_reported {
                tell_unfed(rt, alloc, shared, name, &why);
            }
            *is_reported = true;
            None
        }
    }
}

/// Tells where packets go, from the first rest of the router on, until it is closed: whoever reads the file. A reader that comes later, or again, is
/// told the whole table first.
fn feed_routes<
    R: Wait + Clock + Drop,
    I: Read + Drop,
    O: Write + Drop,
    D: LinkFolder<I, O> + Drop,
    J: Naming,
    E: Write + Drop,
>(
    rt: R,
    alloc: Global,
    folder: Arc<D>,
    shared: Arc<Shared<J, E>>,
    feeding: Feeding<J>,
    router_pass: RouterPass<J>,
) -> Closing {
    let mut pass = router_pass.pass();
    if let Some(closing) = await_rest(&rt, &shared, feeding.settle) {
        return closing;
    }
    let name = feeding.name.as_str();
    let mut is_reported = false;
    for _ in rt.forever() {
        let is_kept = folder.is_kept(name);
        if let Some(stream) = open_feed::<R, I, O, D, J, E>(
            &rt,
            alloc,
            &folder,
            &shared,
            name,
            &mut is_reported,
        ) {
            if let Some(closing) = tell_stream::<R, O, J, E>(
                &rt,
                alloc,
                &shared,
                &feeding.opening,
                stream,
                is_kept,
                &mut pass,
            ) {
                return closing;
            }
        }
        if let Some(closing) = shared.signals.closing(&rt) {
            return closing;
        }
        thread::sleep(&rt, Duration::from_millis(PAUSE));
    }
    unreachable!()
}

/// Starts the thread that tells the routes, if they are to be told. Where it is not started, people are told.
pub(crate) fn start_feeding<
    R: Threads + Wait + Clock + Copy + Send + Drop + 'static,
    I: Read + Send + Drop + 'static,
    O: Write + Send + Drop + 'static,
    D: LinkFolder<I, O> + Send + Sync + Drop + 'static,
    J: Naming + Send + Sync + 'static,
    E: Write + Send + Drop + 'static,
>(
    rt: &R,
    alloc: Global,
    folder: &Arc<D>,
    shared: &Arc<Shared<J, E>>,
    pass: &mut Pass,
    feeding: Option<Feeding<J>>,
) -> Result<(), AllocError>
    requires { IsLegalPass J.router pass.old }
    ensures { IsLegalPass J.router pass.new }
{
    let Some(feeding) = feeding else {
        return Ok(());
    };
    let router_pass = take_part(shared, pass, 1)?;
    let handle = *rt;
    let folder = Arc::try_clone(folder)?;
    let shared_with = Arc::try_clone(shared)?;
    let started = thread::spawn(rt, move || {
        feed_routes::<R, I, O, D, J, E>(handle, alloc, folder, shared_with, feeding, router_pass)
    });
    if started.is_err() {
        shared.tell(rt, alloc, Event::NoFeed);
    }
    Ok(())
}
