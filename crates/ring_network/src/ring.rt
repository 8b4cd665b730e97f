//! Three nodes in a ring, and the channels between them.
//!
//! **A neighbour whose Up is refused would end the network as a thread that is not started does (X2).** It cannot happen, since both neighbours of
//! a new router are down; but a pass without all shares does not know that nobody else entered something.

ghost use Rattle.std.specs.Prelude.{◌≡◌, IfErr, IfOk, IfSome, Ok};
ghost use Rattle.ring_network.specs.Ring.{IsFirstFault, IsJournalOf};

use crate::fault::NetworkFault;
use crate::node::{RingNode, Side, run_node};
use route_history::Journal;
use route_session::{ChannelLink, RunFault};
use std::alloc::{AllocError, Global};
use std::rt::Clock;
use std::sync::Wait;
use std::thread;
use std::thread::{Promise, PromisedHandle, Threads};

/// The closed journals of three nodes in a ring.
#[derive(Drop)]
pub struct Ring {
    /// That of node 0.
    pub zero: Journal,
    /// That of node 1.
    pub one: Journal,
    /// That of node 2.
    pub two: Journal,
}

impl Ring {
    /// The ring of three nodes that came to this. Of several faults that of the first node.
    pub fn of(
        zero: Result<Journal, NetworkFault>,
        one: Result<Journal, NetworkFault>,
        two: Result<Journal, NetworkFault>,
    ) -> Result<Ring, NetworkFault>
        ensures ok { IfOk result (λ r. (zero ≡ Ok r.zero) × (one ≡ Ok r.one) × (two ≡ Ok r.two)) }
        ensures first { IfErr result (IsFirstFault zero one two) }
    {
        Ok(Ring {
            zero: zero?,
            one: one?,
            two: two?,
        })
    }
}

/// What a thread promises: the journal of the node of this number.
#[derive(Drop)]
struct RunsNode {
    me: u16,
}

impl Promise<Result<Journal, NetworkFault>> for RunsNode {
    ghost use Rattle.std.specs.Prelude.{IfOk};
    ghost use Rattle.ring_network.specs.Ring.{IsJournalOf};

    ghost kept_by = { λ p r. IfOk r (IsJournalOf p.me) };
}

/// Two nodes, the one of the lower number first, as neighbours of one another, with a channel from each to the other.
fn neighbours(alloc: Global, low: u16, high: u16) -> Result<(Side, Side), AllocError> {
    let (low_to_high, at_high) = ChannelLink::pair(alloc)?;
    let (high_to_low, at_low) = ChannelLink::pair(alloc)?;
    Ok((
        Side::to(low, at_high, high_to_low),
        Side::to(high, at_low, low_to_high),
    ))
}

/// The three nodes, with a channel from each to each other one.
fn nodes(alloc: Global) -> Result<(RingNode, RingNode, RingNode), AllocError>
    ensures { IfOk result (λ n. (n.0.me ≡ 0) × (n.1.me ≡ 1) × (n.2.me ≡ 2)) }
{
    let (zero_of_one, one_of_zero) = neighbours(alloc, 0, 1)?;
    let (zero_of_two, two_of_zero) = neighbours(alloc, 0, 2)?;
    let (one_of_two, two_of_one) = neighbours(alloc, 1, 2)?;
    let zero = RingNode {
        me: 0,
        low: one_of_zero,
        high: two_of_zero,
    };
    let one = RingNode {
        me: 1,
        low: zero_of_one,
        high: two_of_one,
    };
    let two = RingNode {
        me: 2,
        low: zero_of_two,
        high: one_of_two,
    };
    Ok((zero, one, two))
}

/// What became of a node, whose thread may not have been started.
fn end_of<R: Threads>(
    rt: &R,
    me: u16,
    child: Option<PromisedHandle<Result<Journal, NetworkFault>, RunsNode>>,
) -> Result<Journal, NetworkFault>
    requires { IfSome child (λ h. h.promise.me ≡ me) }
    ensures { IfOk result (IsJournalOf me) }
{
    match child {
        Some(child) => child.join(rt),
        None => Err(NetworkFault::Run(RunFault::NotStarted)),
    }
}

/// Runs three routers in a ring, each in threads of its own, until all their sessions have ended: their journals, by `Ring::of`.
///
/// Each node brings its two neighbours up, and has a reader and a writer for each, of 200 turns.
pub fn run_ring<R: Threads + Wait + Clock + Sync>(
    rt: &R,
    alloc: Global,
) -> Result<Ring, NetworkFault>
    ensures { IfOk result (λ r. IsJournalOf 0 r.zero × IsJournalOf 1 r.one × IsJournalOf 2 r.two) }
{
    let (zero, one, two) = nodes(alloc)?;
    thread::scope(
        thread::scope_env(),
        rt,
        move |scope| -> Result<Ring, NetworkFault>
            requires { (zero.me ≡ 0) × (one.me ≡ 1) × (two.me ≡ 2) }
            ensures { IfOk result (λ r. IsJournalOf 0 r.zero × IsJournalOf 1 r.one × IsJournalOf 2 r.two) }
        {
            // A node whose thread is not started is dropped here with its links, so that the others end.
            let zero = scope
                .spawn_with(
                    RunsNode { me: 0 },
                    move || -> Result<Journal, NetworkFault>
                        requires { zero.me ≡ 0 }
                        ensures { IfOk result (IsJournalOf 0) }
                    { run_node(rt, alloc, zero) },
                )
                .ok();
            let one = scope
                .spawn_with(
                    RunsNode { me: 1 },
                    move || -> Result<Journal, NetworkFault>
                        requires { one.me ≡ 1 }
                        ensures { IfOk result (IsJournalOf 1) }
                    { run_node(rt, alloc, one) },
                )
                .ok();
            let two = scope
                .spawn_with(
                    RunsNode { me: 2 },
                    move || -> Result<Journal, NetworkFault>
                        requires { two.me ≡ 2 }
                        ensures { IfOk result (IsJournalOf 2) }
                    { run_node(rt, alloc, two) },
                )
                .ok();
            let zero = end_of(rt, 0, zero);
            let one = end_of(rt, 1, one);
            let two = end_of(rt, 2, two);
            Ring::of(zero, one, two)
        },
    )
}
