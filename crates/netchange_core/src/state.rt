//! The state of a router, which the events change.
//!
//! **The world has rows by neighbour, the tables have columns by destination.** Every event but a look is about one neighbour, so the definition
//! changes one row by one named function. A message changes how far one node is from one neighbour, so the code writes one entry of one column.

ghost use Rattle.std.specs.Prelude.{◌≡◌, true, IfOk, IfSome, Some, map};
ghost use Rattle.netchange_core.specs.Kept.{AreNeighbours, AreTables, view_of, views_of, world_of};
ghost use Rattle.netchange_core.specs.Present.{ArePresent, sessions_of};
ghost use Rattle.netchange_core.specs.World.{holder, is_up, neighbour_at};

use crate::destination::{Destination, make_destinations};
use crate::neighbour::Neighbour;
use crate::opening::Opening;
use crate::sessions::{Sessions, holder};
use std::alloc::{AllocError, Global};

/// The state of a router. The tables keep it right; the methods of an event say so of the state before and after it.
#[derive(Drop)]
pub(crate) struct State {
    /// What the router was opened with.
    pub(crate) opening: Opening,
    /// The sessions.
    pub(crate) sessions: Sessions,
    /// Each node as a neighbour, by number.
    pub(crate) neighbours: Vec<Neighbour>,
    /// Each node as a destination, by number.
    pub(crate) destinations: Vec<Destination>,
}

impl State {
    /// The state with these neighbours and their sessions.
    pub(crate) fn new(
        alloc: Global,
        opening: Opening,
        sessions: Sessions,
        neighbours: Vec<Neighbour>,
    ) -> Result<State, AllocError>
        requires neighbours { AreNeighbours opening.size (map view_of neighbours.items) }
        requires present { ArePresent sessions.count (sessions_of (map view_of neighbours.items)) sessions.present.items }
        ensures right { IfOk result AreTables }
        ensures world { IfOk result (λ s. world_of s ≡ record { opening = opening; sessions = sessions.count; neighbours = map view_of neighbours.items }) }
    {
        let destinations = make_destinations(alloc, &opening, &sessions.present, &neighbours)?;
        Ok(State {
            opening,
            sessions,
            neighbours,
            destinations,
        })
    }

    /// The up neighbour whose present session this is.
    #[inline(always)]
    pub(crate) fn holder(&self, session: u32) -> Option<usize>
        requires { AreTables self.now }
        ensures is { result ≡ holder (world_of self.now) session }
        ensures holds { IfSome result (λ k. (neighbour_at (views_of self.now) k).session ≡ Some session) }
        ensures up { IfSome result (λ k. is_up (neighbour_at (views_of self.now) k) ≡ true) }
    {
        holder(&self.sessions, session)
    }
}
