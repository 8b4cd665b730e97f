//! One node of a ring.
//!
//! **Each node opens, runs and closes its router on its own thread.** So no fact about a router or a pass has to cross threads: links go in, and a
//! journal with its node's opening comes out.

ghost use Rattle.std.specs.Prelude.{◌≡◌, ◌+◌, ◌<◌, false, IfOk, vec_len};
ghost use Rattle.ring_network.specs.Ring.{IsJournalOf, node_prefix, ring_opening};
ghost use Rattle.route_session.specs.Jobs.{AreFor};
ghost use Rattle.slot_lock.specs.Passes.{IsPassOf, all_shares};

use crate::fault::NetworkFault;
use netchange_core::{Event, Opening, Reply};
use prefix_patterns::{Ip, Prefix};
use route_history::{CallFault, Journal, LARGEST_LIMIT};
use route_session::{
    Cause, ChannelLink, Ending, Finished, Gate, Job, Role, RunFault, merge_passes, run_sessions,
};
use slot_lock::{Pass, Router};
use std::alloc::Global;
use std::rt::Clock;
use std::sync::Wait;
use std::thread;
use std::thread::Threads;
use std::time::Duration;

/// The number of nodes.
const SIZE: u16 = 3;

/// The shares of each job's pass.
const SHARES: u32 = 100;

/// The turns of each job.
const TURNS: u32 = 200;

/// A neighbour of a node, and the links to it.
#[derive(Drop)]
pub(crate) struct Side {
    neighbour: u16,
    incoming: ChannelLink,
    outgoing: ChannelLink,
}

impl Side {
    /// The neighbour of a number, a link that brings its messages, and one that takes them there.
    pub(crate) fn to(neighbour: u16, incoming: ChannelLink, outgoing: ChannelLink) -> Side {
        Side {
            neighbour,
            incoming,
            outgoing,
        }
    }
}

/// A node and its two neighbours, the one of the lower number first.
#[derive(Drop)]
pub(crate) struct RingNode {
    pub(crate) me: u16,
    pub(crate) low: Side,
    pub(crate) high: Side,
    ghost is_node: { me < 3 },
}

/// A gate that lets all turns go, a writer's after a millisecond. A node's writers are its jobs of odd number.
#[derive(Drop)]
struct PacingGate;

impl Gate for PacingGate {
    fn may_go<R: Wait + Clock>(&self, rt: &R, job: u32, _turn: u32) -> bool {
        if job % 2 == 1 {
            thread::sleep(rt, Duration::from_millis(1));
        }
        true
    }
}

/// The prefix of a node: 10.V.0.0/16.
fn prefix_of(node: u32) -> Prefix
    requires { node < 3 }
    ensures { result ≡ node_prefix node }
{
    match Prefix::new(Ip(0x0a00_0000 + 0x1_0000 * node), 16) {
        Some(prefix) => prefix,
        None => unreachable!(),
    }
}

/// Opens the router of a node.
fn open(alloc: Global, me: u16) -> Result<(Router, Pass), NetworkFault>
    requires { me < 3 }
    ensures router { IfOk result (λ r. (r.0.opening ≡ ring_opening me) × (r.0.limit ≡ 1000000)) }
    ensures whole { IfOk result (λ r. r.0.endless ≡ false) }
    ensures pass { IfOk result (λ r. IsPassOf r.0 r.1 × (r.1.fragment.shares ≡ all_shares)) }
{
    let prefixes = vec![in alloc; prefix_of(0), prefix_of(1), prefix_of(2)]?;
    let Some(opening) = Opening::new(SIZE, me, prefixes) else {
        unreachable!()
    };
    let journal = Journal::open(alloc, opening, LARGEST_LIMIT)?;
    match Router::open(alloc, journal) {
        Ok(opened) => Ok(opened),
        Err(fault) => Err(NetworkFault::Lock(fault)),
    }
}

/// Brings a neighbour up: a job that reads its link, and one that writes it.
fn bring_up<R: Wait>(
    rt: &R,
    router: &Router,
    pass: &mut Pass,
    side: Side,
) -> Result<(Job<ChannelLink>, Job<ChannelLink>), NetworkFault>
    requires of { IsPassOf router.now pass.old }
    requires shares { SHARES + SHARES < pass.old.fragment.shares }
    ensures pass { IsPassOf router.now pass.new }
    ensures shares { IfOk result (λ j. pass.new.fragment.shares + (SHARES + SHARES) ≡ pass.old.fragment.shares) }
    ensures jobs { IfOk result (λ j. IsPassOf router.now j.0.pass × IsPassOf router.now j.1.pass) }
{
    let reply = match router.call(rt, pass, Event::Up(side.neighbour)) {
        Ok(answer) => answer.reply,
        Err(fault) => return Err(NetworkFault::Call(fault)),
    };
    // The neighbours of a new router are down, so an Up of theirs opens a session; but a pass with some of the shares does not know that
    // nobody else entered something.
    let Reply::Opened(session) = reply else {
        return Err(NetworkFault::Run(RunFault::NotStarted));
    };
    let reading = router.split(pass, SHARES);
    let writing = router.split(pass, SHARES);
    let Side {
        neighbour: _,
        incoming,
        outgoing,
    } = side;
    let reader = Job {
        role: Role::Reader,
        session,
        link: incoming,
        pass: reading,
    };
    let writer = Job {
        role: Role::Writer,
        session,
        link: outgoing,
        pass: writing,
    };
    Ok((reader, writer))
}

/// The fault of a call that ended a session, if one did.
fn refused_call(ending: &Ending) -> Result<(), CallFault> {
    let cause = match ending {
        Ending::Read(end) => end.cause,
        Ending::Write(end) => end.cause,
    };
    match cause {
        Cause::Full => Err(CallFault::Full),
        Cause::Memory => Err(CallFault::Memory),
        _ => Ok(()),
    }
}

/// The fault of the first call that ended one of these sessions, if one did.
fn refused_calls(finished: &[Finished<ChannelLink>]) -> Result<(), CallFault> {
    for job in finished {
        refused_call(&job.ending)?;
    }
    Ok(())
}

/// Brings both neighbours up: a reader and a writer for each, the one of the lower number first.
fn start_jobs<R: Wait>(
    rt: &R,
    alloc: Global,
    router: &Router,
    pass: &mut Pass,
    low: Side,
    high: Side,
) -> Result<Vec<Job<ChannelLink>>, NetworkFault>
    requires of { IsPassOf router.now pass.old }
    requires shares { pass.old.fragment.shares ≡ all_shares }
    ensures pass { IsPassOf router.now pass.new }
    ensures jobs { IfOk result (λ v. AreFor router.now v.items × (vec_len v ≡ 4)) }
{
    let (first, second) = bring_up(rt, router, pass, low)?;
    let (third, fourth) = bring_up(rt, router, pass, high)?;
    let mut jobs = Vec::with_capacity(alloc, 4)?;
    jobs.push_reserved(first);
    jobs.push_reserved(second);
    jobs.push_reserved(third);
    jobs.push_reserved(fourth);
    Ok(jobs)
}

/// Runs a node: brings its neighbours up, runs a reader and a writer for each, merges their passes and closes the journal.
pub(crate) fn run_node<R: Threads + Wait + Clock + Sync>(
    rt: &R,
    alloc: Global,
    node: RingNode,
) -> Result<Journal, NetworkFault>
    ensures { IfOk result (IsJournalOf node.me) }
{
    let RingNode { me, low, high } = node;
    let (router, mut pass) = open(alloc, me)?;
    let jobs = start_jobs(rt, alloc, &router, &mut pass, low, high)?;
    let finished = run_sessions(rt, alloc, &router, jobs, &PacingGate, TURNS)?;
    refused_calls(finished.as_slice())?;
    merge_passes(&router, &mut pass, finished);
    match router.close(pass) {
        Ok(journal) => Ok(journal),
        Err(fault) => Err(NetworkFault::Lock(fault)),
    }
}
