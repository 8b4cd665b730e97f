//! The journal of a router.
//!
//! **A contract sees a journal as its opening, limit and entries, and not its tables.** The world is a function of the opening and the entries, so
//! the tables are tied to it by the invariant of the type. What shares a journal needs four clauses of `apply` and no lemma about tables.

ghost use Rattle.std.specs.Prelude.{◌≡◌, ℕ, ◌≤◌, [], IfErr, IfOk, IfSome, None, length};
ghost use Rattle.netchange_core.specs.Calls.{carried, room_of, session_of};
ghost use Rattle.route_history.specs.Calls.{IsEntered, IsRefused};
ghost use Rattle.route_history.specs.History.{IsLegal, world_of};

use crate::entries::Entries;
use crate::fault::CallFault;
use netchange_core::{Event, Opening, Reply, Tables};
use std::alloc::{AllocError, Global};
use std::marker::Model;

/// The most entries that a journal can have.
pub const LARGEST_LIMIT: u32 = 1_000_000;

/// A router's tables, with its whole history of events and replies. A contract sees it as a `JournalView`.
#[derive(Drop)]
pub struct Journal {
    pub(crate) limit: u32,
    pub(crate) entries: Entries,
    pub(crate) tables: Tables,
}

impl Model for Journal {
    ghost use Rattle.route_history.specs.JournalView.{JournalView};

    ghost Value = { JournalView };

    ghost use Rattle.route_history.specs.Recorded.{IsRecorded};

    ghost view = { λ j. record { opening = j.tables.opening; limit = j.limit; entries = j.entries } };

    ghost invariant = { λ j. IsRecorded j.tables j.limit j.entries };
}

impl Journal {
    /// An empty journal, of a router whose neighbours were never up. It takes as many entries as the limit, 1 to 1,000,000.
    pub fn open(alloc: Global, opening: Opening, limit: u32) -> Result<Journal, AllocError>
        requires { (1 ≤ limit) × (limit ≤ LARGEST_LIMIT) }
        ensures { IfOk result (λ j. j ≡ record { opening = opening; limit = limit; entries = [] }) }
    {
        let tables = Tables::open(alloc, opening)?;
        Ok(Journal {
            limit,
            entries: Entries::new(alloc),
            tables,
        })
    }

    /// Applies an event and enters it with its reply: hands out its position, counted from 0, and the reply. A refused event is
    /// entered too. Whether the journal is full is judged before memory is asked for.
    #[inline(always)]
    pub fn apply(&mut self, event: Event) -> Result<(u32, Reply), CallFault>
        ensures same { (self.new.opening ≡ self.old.opening) × (self.new.limit ≡ self.old.limit) }
        ensures entered { IfOk result (λ r. IsEntered self.old self.new event r.0 r.1) }
        ensures fits { IfOk result (λ r. length (carried r.1) ≤ room_of (world_of self.old.opening self.old.entries) event) }
        ensures legal { IsLegal self.new.opening self.new.entries × (length self.new.entries ≤ self.new.limit) }
        ensures refused { IfErr result (λ f. IsRefused f self.old self.new) }
    {
        let position = self.entries.len();
        if position >= self.limit as usize {
            return Err(CallFault::Full);
        }
        let Ok(reply) = self.entries.enter(&mut self.tables, event) else {
            return Err(CallFault::Memory);
        };
        Ok((position as u32, reply))
    }

    /// The entries, in order.
    pub fn entries(&self) -> &Entries
        ensures value { result.now ≡ self.now.entries }
        ensures legal { IsLegal self.now.opening result.now }
        ensures room { length result.now ≤ self.now.limit }
    {
        &self.entries
    }

    /// What the router was opened with.
    pub fn opening(&self) -> &Opening
        ensures { result.now ≡ self.now.opening }
    {
        self.tables.opening()
    }

    /// The most entries that the journal takes.
    pub fn limit(&self) -> u32
        ensures { result ≡ self.now.limit }
    {
        self.limit
    }

    /// The tables as they stand after all entries.
    pub fn tables(&self) -> &Tables
        ensures { result.now ≡ world_of self.now.opening self.now.entries }
    {
        &self.tables
    }

    /// The present session of a node, if it is an up neighbour.
    pub fn present_session(&self, node: u16) -> Option<u32>
        ensures { result ≡ session_of (world_of self.now.opening self.now.entries) node }
    {
        self.tables.present_session(node)
    }

    /// The number of the present session of a node, 1 or more; 0 where the node is no up neighbour.
    pub fn session(&self, node: u16) -> u32
        ensures up { IfSome (session_of (world_of self.now.opening self.now.entries) node) (λ session. result ≡ session) }
        ensures down { session_of (world_of self.now.opening self.now.entries) node ≡ None → result ≡ 0 }
    {
        self.tables.session(node)
    }
}
