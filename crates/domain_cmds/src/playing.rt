//! The routers of a domain, which are there once they are to be played.
//!
//! **A change that routers cannot enter closes them (D4)**, in place of an invariant over all that was noted. It cannot happen in a script: the
//! plan refuses what they would.
//!
//! **How many rounds and messages `settle` takes is bounded, and not defined.** A definition would be the player again. `Routers::settle` says what
//! is left of it: routers at rest, after at most as many rounds as nodes, and as one more than the longest route, and as many messages as the
//! domain weighs.
ghost use Rattle.std.specs.Prelude.{◌≡◌, ◌≢◌, ◌<◌, ◌≤◌, IfOk, IfSome, IsTrue, length};

use domain_player::{LinkingFault, Routers, SettleFault, Settled};
use domain_routes::Plan;
use filter_verifier::Verified;
use operator_cmds::Direction;
use std::alloc::{AllocError, Global};
use std::mem;
use std::sync::Arc;

/// A change of the domain that its routers are to enter.
#[derive(Drop)]
pub(crate) enum Change {
    /// Two nodes are neighbours, or no more.
    Link(u16, u16, bool),
    /// What the first node receives from the second, or tells it, passes a filter.
    Filter(Direction, u16, u16, Arc<Verified>),
}

/// The routers, if they were played, and what happened since. Nothing is received but in `settle`, so changes may be entered then.
#[derive(Drop)]
pub(crate) struct Playing {
    /// The routers, opened when they are first played: their tables take much memory.
    routers: Option<Routers>,
    /// The changes since they were last played, the oldest first.
    changes: Vec<Change>,
}

/// Why routers were not played.
enum PlayFault {
    /// Memory was refused.
    Memory,
    /// They are closed: a router has had all its sessions, or more messages were received than can be counted, now or before.
    Closed,
}

impl From<AllocError> for PlayFault {
    fn from(_: AllocError) -> PlayFault {
        PlayFault::Memory
    }
}

impl From<LinkingFault> for PlayFault {
    fn from(fault: LinkingFault) -> PlayFault {
        match fault {
            LinkingFault::Memory => PlayFault::Memory,
            LinkingFault::NoSession => PlayFault::Closed,
        }
    }
}

impl From<SettleFault> for PlayFault {
    fn from(fault: SettleFault) -> PlayFault {
        match fault {
            SettleFault::Memory => PlayFault::Memory,
            SettleFault::TooManyMessages => PlayFault::Closed,
        }
    }
}

/// Whether two nodes of these routers could be neighbours. Closed routers have no nodes.
fn are_a_pair(routers: &Routers, u: u16, w: u16) -> bool
    ensures { IsTrue result → (u < length routers.now) × (w < length routers.now) × (u ≢ w) }
{
    u < routers.size() && w < routers.size() && u != w
}

/// Whether a filter can stand between two nodes of these routers.
fn fits(routers: &Routers, u: u16, w: u16, filter: &Arc<Verified>) -> bool
    ensures pair { IsTrue result → (u < length routers.now) × (w < length routers.now) × (u ≢ w) }
    ensures size { IsTrue result → filter.now.value.size ≡ length routers.now }
{
    are_a_pair(routers, u, w) && filter.size() == u32::from(routers.size())
}

/// Two nodes are neighbours from now on, or no more.
fn set_linked(routers: &mut Routers, u: u16, w: u16, linked: bool) -> Result<(), PlayFault> {
    if !are_a_pair(routers, u, w) {
        return Err(PlayFault::Closed);
    }
    match (routers.is_linked(u, w), linked) {
        (false, true) => Ok(routers.link(u, w)?),
        (true, false) => Ok(routers.cut(u, w)?),
        _ => Err(PlayFault::Closed),
    }
}

/// What the first node receives from the second, or tells it, passes a filter from now on.
fn set_filter(
    routers: &mut Routers,
    direction: Direction,
    u: u16,
    w: u16,
    filter: Arc<Verified>,
) -> Result<(), PlayFault> {
    if !fits(routers, u, w, &filter) {
        return Err(PlayFault::Closed);
    }
    match direction {
        Direction::Import => Ok(routers.set_import(u, w, filter)?),
        Direction::Export => Ok(routers.set_export(u, w, filter)?),
    }
}

/// The routers enter a change. Closed ones enter none.
fn enter(routers: &mut Routers, change: Change) -> Result<(), PlayFault> {
    match change {
        Change::Link(u, w, linked) => set_linked(routers, u, w, linked),
        Change::Filter(direction, u, w, filter) => set_filter(routers, direction, u, w, filter),
    }
}

/// The routers of a plan's nodes, without links.
fn open_routers(alloc: Global, plan: &Plan) -> Result<Routers, AllocError> {
    // For the proof alone, which needs what its contract says.
    let _nodes = plan.size();
    Routers::open(alloc, plan.prefixes())
}

/// The routers enter what happened, and are played until quiet.
fn play(routers: &mut Routers, changes: Vec<Change>) -> Result<Settled, PlayFault>
    ensures { IfOk result (λ s. s.rounds ≤ s.messages) }
{
    for change in changes {
        enter(routers, change)?;
    }
    if routers.size() == 0 {
        return Err(PlayFault::Closed);
    }
    Ok(routers.settle()?)
}

impl Playing {
    /// Routers that were never played.
    pub(crate) fn new(alloc: Global) -> Playing {
        Playing {
            routers: None,
            changes: Vec::new(alloc),
        }
    }

    /// Notes a change.
    pub(crate) fn note(&mut self, change: Change) -> Result<(), AllocError> {
        self.changes.push(change)?;
        Ok(())
    }

    /// Notes that each link of a node comes up, or goes down.
    fn note_links_of(&mut self, plan: &Plan, u: u16, linked: bool) -> Result<(), AllocError>
        requires { u < plan.now.size }
    {
        for w in 0..plan.size() {
            if plan.is_linked(u, w) {
                self.note(Change::Link(u, w, linked))?;
            }
        }
        Ok(())
    }

    /// Notes that a node begins anew: its links go down, and come up again.
    pub(crate) fn note_anew(&mut self, plan: &Plan, u: u16) -> Result<(), AllocError>
        requires { u < plan.now.size }
    {
        self.note_links_of(plan, u, false)?;
        self.note_links_of(plan, u, true)
    }

    /// The routers enter what happened since they were last played, and are played until quiet. None if they cannot be played.
    pub(crate) fn settle(
        &mut self,
        alloc: Global,
        plan: &Plan,
    ) -> Result<Option<Settled>, AllocError>
        ensures { IfOk result (λ settled. IfSome settled (λ s. s.rounds ≤ s.messages)) }
    {
        let changes = mem::replace(&mut self.changes, Vec::new(alloc));
        let mut routers = match self.routers.take() {
            Some(routers) => routers,
            None => open_routers(alloc, plan)?,
        };
        let settled = match play(&mut routers, changes) {
            Ok(settled) => Some(settled),
            Err(PlayFault::Closed) => None,
            Err(PlayFault::Memory) => return Err(AllocError),
        };
        self.routers = Some(routers);
        Ok(settled)
    }
}
