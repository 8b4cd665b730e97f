//! The tables of a router.
//!
//! **The events are methods of `State`, which has no invariant; `Tables` holds one and adds it.** Within an event the state is not right for a
//! while: a neighbour has changed, and the distances kept are not yet those that it gives. A method of an event requires that the state is right
//! (`AreTables`) and ensures one record, `Handles`: the answer of the definition, and that the new state is right.
//!
//! **The tables of an opening and restored ones are made alike**: each node's distances from all neighbours, and the best of them, are computed
//! from what the neighbours told. No message is queued on the way, so the queues are those that were given. A restored list of sessions is made by
//! inserting each where its number says, which also finds a number that two neighbours have.

ghost use Rattle.std.specs.Prelude.{◌≡◌, ◌<◌, ◌≤◌, IfOk, IfSome, None, OnErr, OnSome, length, map, slice_index};
ghost use Rattle.std.specs.Option.{SomeIff};
ghost use Rattle.netchange_core.specs.Best.{best, neighbour_distance};
ghost use Rattle.netchange_core.specs.Calls.{MayNeedMemory, carried, opened, queued_of, room_of, session_of};
ghost use Rattle.netchange_core.specs.Consistent.{IsConsistent};
ghost use Rattle.netchange_core.specs.Kept.{view_of};
ghost use Rattle.netchange_core.specs.Next.{answered, next};
ghost use Rattle.netchange_core.specs.World.{World, neighbour_at};

use crate::best_route::BestRoute;
use crate::consistent::are_consistent;
use crate::event::Event;
use crate::neighbour::{Neighbour, make_newcomers};
use crate::opening::Opening;
use crate::reply::Reply;
use crate::sessions::{Sessions, list_present};
use crate::state::State;
use std::alloc::{AllocError, Global};
use std::marker::Model;

/// The tables of a router. A contract sees them as the `World`.
#[derive(Drop)]
pub struct Tables {
    state: State,
}

impl Model for Tables {
    ghost use Rattle.netchange_core.specs.Kept.{AreTables, world_of};
    ghost use Rattle.netchange_core.specs.World.{World};

    ghost Value = { World };

    ghost view = { λ t. world_of t.state };

    ghost invariant = { λ t. AreTables t.state };
}

impl Tables {
    /// The tables of a router whose neighbours were never up.
    pub fn open(alloc: Global, opening: Opening) -> Result<Tables, AllocError>
        ensures { IfOk result (λ t. t ≡ opened opening) }
    {
        let neighbours = make_newcomers(alloc, &opening)?;
        let sessions = Sessions {
            count: 0,
            present: Vec::new(alloc),
        };
        let state = State::new(alloc, opening, sessions, neighbours)?;
        Ok(Tables { state })
    }

    /// The tables of a world: of what the router was opened with, how many sessions there were, and each node as a neighbour.
    /// None exactly where that world is not consistent, and the parts are then dropped. Each world that a router comes to is
    /// consistent.
    pub fn restore(
        alloc: Global,
        opening: Opening,
        sessions: u32,
        neighbours: Vec<Neighbour>,
    ) -> Result<Option<Tables>, AllocError>
        ensures { let world : World = record { opening = opening; sessions = sessions; neighbours = map view_of neighbours.items } in
            IfOk result (λ t. SomeIff t (IsConsistent world) world) }
    {
        if !are_consistent(&opening, &neighbours) {
            return Ok(None);
        }
        let Some(present) = list_present(alloc, sessions, &neighbours)? else {
            return Ok(None);
        };
        let sessions = Sessions {
            count: sessions,
            present,
        };
        let state = State::new(alloc, opening, sessions, neighbours)?;
        Ok(Some(Tables { state }))
    }

    /// Applies an event. After an error nothing is changed, since all growth is made before the first change.
    #[inline(always)]
    pub fn apply(&mut self, event: &Event) -> Result<Reply, AllocError>
        ensures done { IfOk result (λ r. next self.old event.now ≡ answered self.new r) }
        ensures same { OnErr result (self.new ≡ self.old) }
        ensures memory { OnErr result (MayNeedMemory (next self.old event.now).reply) }
        ensures opening { self.new.opening ≡ self.old.opening }
        ensures fits { IfOk result (λ r. length (carried r) ≤ room_of self.old event.now) }
    {
        self.state.handle(event)
    }

    /// How many messages wait for the up neighbour whose present session this is; 0 where there is none.
    pub fn queued(&self, session: u32) -> usize
        ensures { result ≡ queued_of self.now session }
    {
        match self.state.holder(session) {
            Some(node) => self.state.neighbours[node].queue.len(),
            None => 0,
        }
    }

    /// The present session of a node, if it is an up neighbour.
    pub fn present_session(&self, node: u16) -> Option<u32>
        ensures value { result ≡ session_of self.now node }
        // Only a node of the domain is up.
        ensures within { OnSome result (node < self.now.opening.size) }
        ensures numbered { IfSome result (λ session. 0 < session) }
    {
        self.state.neighbours.get(usize::from(node))?.session
    }

    /// The number of the present session of a node, 1 or more; 0 where the node is no up neighbour.
    pub fn session(&self, node: u16) -> u32
        ensures up { IfSome (session_of self.now node) (λ session. result ≡ session) }
        ensures down { session_of self.now node ≡ None → result ≡ 0 }
    {
        match self.present_session(node) {
            Some(session) => session,
            None => 0,
        }
    }

    /// The best route to a node.
    pub fn route(&self, dest: u16) -> BestRoute
        requires { dest < self.now.opening.size }
        ensures { result ≡ best self.now dest }
    {
        self.state.destinations[usize::from(dest)].route
    }

    /// The distance to a node that another advertised last in its present session; the size of the domain where it advertised none.
    pub fn advertised(&self, node: u16, dest: u16) -> u16
        requires node { node < self.now.opening.size }
        requires dest { dest < self.now.opening.size }
        ensures { result ≡ slice_index (neighbour_at self.now.neighbours node).advertised dest }
    {
        self.state.neighbours[usize::from(node)].advertised[usize::from(dest)]
    }

    /// How far a node is from another, as that advertised and after its import filter; the size of the domain where it is not up.
    pub fn neighbour_distance(&self, node: u16, dest: u16) -> u16
        requires node { node < self.now.opening.size }
        requires dest { dest < self.now.opening.size }
        ensures { result ≡ neighbour_distance self.now.opening dest (neighbour_at self.now.neighbours node) }
    {
        self.state.destinations[usize::from(dest)].distances[usize::from(node)]
    }

    /// A node as a neighbour: its session, what it advertised, its filters, and what waits to be sent to it.
    pub fn neighbour(&self, node: u16) -> &Neighbour
        requires { node < self.now.opening.size }
        ensures { view_of result.now ≡ neighbour_at self.now.neighbours node }
    {
        &self.state.neighbours[usize::from(node)]
    }

    /// How many sessions there were so far.
    pub fn sessions(&self) -> u32
        ensures { result ≡ self.now.sessions }
    {
        self.state.sessions.count
    }

    /// What the router was opened with.
    pub fn opening(&self) -> &Opening
        ensures { result.now ≡ self.now.opening }
    {
        &self.state.opening
    }
}
