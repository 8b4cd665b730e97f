//! Who reads slower than it is told is not waited for: where more messages wait for a neighbour than may, its session is ended.
//!
//! **A link whose neighbour reads too slowly is closed, and its queue is not shortened.** What a session was sent is what is defined for it; older
//! distances left out of a queue would be another protocol. The Down empties the queue, and the next session tells all distances anew.
ghost use Rattle.std.specs.Prelude.{◌≡◌, ◌<◌, ◌≤◌, IfSome, MatchOption, Some, false, true};
ghost use Rattle.netchange_core.specs.Calls.{session_of};
ghost use Rattle.route_history.specs.Beginning.{Begins};
ghost use Rattle.slot_lock.specs.Passes.{IsPassOf};
ghost use Rattle.router_daemon.specs.Queues as spec;

use crate::ending::SessionEnding;
use crate::owed_downs::try_owed_down;
use crate::shared::Shared;
use crate::telling::{CloseReason, Event};
use netchange_core::Tables;
use route_history::LongJournal;
use router_operator::Naming;
use slot_lock::{Observer, Pass};
use std::alloc::Global;
use std::io::Write;
use std::rt::Clock;
use std::sync::Wait;

/// How many entries are made at most from one look at the queues to the next.
pub(crate) const LOOK: u64 = 1_024;

/// A link for whose neighbour more messages wait than may.
#[derive(Clone, Copy)]
pub(crate) struct LongQueue {
    /// Its number.
    link: usize,
    /// The neighbour.
    node: u16,
    /// The neighbour's present session.
    session: u32,
    /// How many messages wait.
    waiting: usize,
}

/// How many messages wait for a node of the domain.
fn waiting_for(tables: &Tables, node: u16) -> usize
    requires { node < tables.now.opening.size }
    ensures { result ≡ spec.waiting_for tables.now node }
{
    tables.neighbour(node).queue.len()
}

/// A link to a node, if it is up and more messages wait for it than may.
fn long_queue(tables: &Tables, link: usize, node: u16, most: u32) -> Option<LongQueue>
    ensures { MatchOption result (spec.is_long most tables.now node ≡ false)
        (λ q. (q.link ≡ link) × (q.node ≡ node) × (session_of tables.now node ≡ Some q.session)
        × (q.waiting ≡ spec.waiting_for tables.now node) × (spec.is_long most tables.now node ≡ true)) }
{
    let session = tables.present_session(node)?;
    let waiting = waiting_for(tables, node);
    if waiting <= most as usize {
        return None;
    }
    Some(LongQueue {
        link,
        node,
        session,
        waiting,
    })
}

/// The first of the links to these nodes, from one on, for whose neighbour more messages wait than may.
fn first_long(tables: &Tables, nodes: &[u16], most: u32, from: usize) -> Option<LongQueue>
    ensures { spec.FindsFirst most tables.now nodes.now from result }
{
    for link in from..nodes.len() {
        if let Some(found) = long_queue(tables, link, nodes[link], most) {
            return Some(found);
        }
    }
    None
}

/// The first such link is looked for.
#[derive(Drop)]
pub(crate) struct LongQueueSearch<'a> {
    /// The nodes that have links, or may get some, in the order of the links.
    nodes: &'a [u16],
    /// The most messages that may wait.
    most: u32,
    /// The link to begin with.
    from: usize,
    /// The one that is found.
    found: Option<LongQueue>,
}

impl Observer for LongQueueSearch<'_> {
    ghost use Rattle.router_daemon.specs.Queues.{Finds};

    ghost sees = { λ before _ history after. Finds before history after };

    fn see(&mut self, journal: &LongJournal) {
        self.found = first_long(journal.tables(), self.nodes, self.most, self.from);
    }
}

/// Ends the session of the first link, from one on, for whose neighbour more messages wait than may, if there is one. The states of the links say whether
/// nobody ended it before.
fn end_first<R: Wait + Clock, J: Naming, E: Write>(
    rt: &R,
    shared: &Shared<J, E>,
    pass: &mut Pass,
    most: u32,
    from: usize,
) -> Option<(LongQueue, SessionEnding)>
    requires { IsPassOf J.router pass.old }
    ensures of { IsPassOf J.router pass.new }
    ensures looks { Begins pass.old.fragment.seen pass.new.fragment.seen × (pass.new.fragment.mine ≡ pass.old.fragment.mine) }
    ensures ends { spec.EndsFirst shared.now.router most shared.now.nodes.items from result pass.new }
{
    let mut finding = LongQueueSearch {
        nodes: shared.nodes.as_slice(),
        most,
        from,
        found: None,
    };
    shared.router.observe(rt, pass, &mut finding);
    let long = finding.found?;
    let ending = shared.signals.end(rt, long.link, long.session, false);
    Some((long, ending))
}

/// Ends the session of the first such link, tells people why, and enters its Down: which link it is. Where the Down is refused, it is owed,
/// and entered later. Nobody waits for the link's writer, which may hang in a write until the neighbour reads.
fn close_first<R: Wait + Clock, J: Naming, E: Write>(
    rt: &R,
    alloc: Global,
    shared: &Shared<J, E>,
    pass: &mut Pass,
    most: u32,
    from: usize,
) -> Option<usize>
    requires { IsPassOf J.router pass.old }
    ensures of { IsPassOf J.router pass.new }
    ensures on { IfSome result (λ link. from ≤ link) }
{
    let (long, ending) = end_first(rt, shared, pass, most, from)?;
    if ending.is_first() {
        shared.signals.owe(rt, long.link, long.session);
        shared.signals.end_change(rt, long.link);
    }
    try_owed_down(rt, shared, pass, long.link);
    if ending.is_first() {
        let (node, why) = (long.node, CloseReason::Long(long.waiting));
        shared.tell(rt, alloc, Event::Closed { node, why });
    }
    Some(long.link)
}

/// Closes each link for whose neighbour more messages wait than may.
pub(crate) fn close_long_queues<R: Wait + Clock, J: Naming, E: Write>(
    rt: &R,
    alloc: Global,
    shared: &Shared<J, E>,
    pass: &mut Pass,
    most: u32,
)
    requires { IsPassOf J.router pass.old }
    ensures { IsPassOf J.router pass.new }
{
    let mut from = 0;
    for _ in 0..shared.nodes.len() {
        match close_first(rt, alloc, shared, pass, most, from) {
            Some(link) => from = link.saturating_add(1),
            None => return,
        }
    }
}
