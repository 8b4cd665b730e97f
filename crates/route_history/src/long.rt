//! A journal that may forget the beginning of its history.
//!
//! **A journal that may forget, `LongJournal`, is a type beside `Journal`.** It has the end of a history, and the tables after all of it; that this
//! is so is a relation between a history and a journal (`IsWindow`), since no journal keeps what it forgot. Scripts, `replay` and the files of
//! histories have the whole, and stay with `Journal`. Positions are 64 bits wide here, and 32 there.

ghost use Rattle.std.specs.Prelude.{◌≡◌, ◌<◌, ◌≤◌, false, true, [], IfErr, IfNone, IfOk, IfSome, length, slice_index_or};
ghost use Rattle.netchange_core.specs.Calls.{carried, room_of};
ghost use Rattle.route_history.specs.Long.{IsForgotten, IsLongEntered, IsLongRefused, window};
ghost use Rattle.route_history.specs.Recorded.{IsRecorded};
ghost use Rattle.route_history.specs.Whole.{whole_entry};

use crate::bounds::Bounds;
use crate::chunks::Chunks;
use crate::entries::Entries;
use crate::entry::EntryRef;
use crate::fault::CallFault;
use crate::journal::Journal;
use netchange_core::{Event, Opening, Reply, Tables};
use std::alloc::Global;
use std::collections::VecDeque;
use std::marker::Model;

/// How many entries can be forgotten in all.
pub const MOST_FORGOTTEN: u64 = 1 << 63;

/// A router's tables, with the end of its history. A contract sees it as a `LongView`.
#[derive(Drop)]
pub struct LongJournal {
    limit: u32,
    /// How many entries are forgotten.
    first: u64,
    /// How many are left.
    kept: u32,
    chunks: Chunks,
    tables: Tables,
}

impl Model for LongJournal {
    ghost use Rattle.route_history.specs.Long.{LongView};

    ghost Value = { LongView };

    ghost use Rattle.route_history.specs.Long.{AreKept};

    ghost view = { λ j. record {
      bounds = record { limit = j.limit; endless = j.chunks.is_chunked };
      first = j.first;
      entries = j.chunks.list;
      tables = j.tables;
    } };

    ghost invariant = { λ j. AreKept j.chunks.list j.kept j.limit j.first };
}

impl LongJournal {
    /// A journal of which nothing is forgotten yet; only an endless one may forget.
    pub fn of(alloc: Global, journal: Journal, endless: bool) -> LongJournal
        requires { journal.entries ≡ [] }
        ensures { result ≡ window journal.opening (record { limit = journal.limit; endless = endless }) 0 [] }
    {
        let Journal {
            limit,
            entries,
            tables,
        } = journal;
        LongJournal {
            limit,
            first: 0,
            kept: 0,
            chunks: Chunks {
                alloc,
                is_chunked: endless,
                full: VecDeque::new(alloc),
                last: entries,
            },
            tables,
        }
    }

    /// The journal of a history of which nothing can have been forgotten.
    pub fn into_journal(self) -> Journal
        requires whole { self.bounds.endless ≡ false }
        requires recorded { IsRecorded self.tables self.bounds.limit self.entries }
        ensures { result ≡ record { opening = self.tables.opening; limit = self.bounds.limit; entries = self.entries } }
    {
        let LongJournal {
            limit,
            chunks,
            tables,
            ..
        } = self;
        Journal {
            limit,
            entries: chunks.into_entries(),
            tables,
        }
    }

    /// Applies an event and enters it with its reply: hands out its position in the whole history, and the reply. A refused event is
    /// entered too. Whether the journal is full is judged before memory is asked for.
    #[inline(always)]
    pub fn apply(&mut self, event: Event) -> Result<(u64, Reply), CallFault>
        ensures entered { IfOk result (λ r. IsLongEntered self.old self.new event r.0 r.1) }
        ensures fits { IfOk result (λ r. length (carried r.1) ≤ room_of self.old.tables event) }
        ensures refused { IfErr result (λ f. IsLongRefused f self.old self.new) }
    {
        if self.kept >= self.limit {
            return Err(CallFault::Full);
        }
        let Ok(reply) = self.chunks.enter(&mut self.tables, event) else {
            return Err(CallFault::Memory);
        };
        let at = self.first + u64::from(self.kept);
        self.kept += 1;
        Ok((at, reply))
    }

    /// Forgets entries below a position, if the journal is endless: how many are forgotten in all. Of those that may go, fewer than a
    /// chunk stay.
    pub fn forget(&mut self, upto: u64) -> u64
        ensures forgotten { IsForgotten self.old self.new upto }
        ensures first { result ≡ self.new.first }
    {
        let kept = u64::from(self.kept);
        if !self.chunks.is_chunked || self.first > MOST_FORGOTTEN - kept || upto <= self.first {
            return self.first;
        }
        let gone = self.chunks.forget((upto - self.first).min(kept) as usize);
        self.kept -= gone as u32;
        self.first += gone as u64;
        self.first
    }

    /// How many entries are left.
    pub fn kept(&self) -> u32
        ensures { result ≡ length self.now.entries }
    {
        self.kept
    }

    /// The entry at a position among those that are left.
    #[inline(always)]
    pub fn entry(&self, at: usize) -> EntryRef<'_>
        requires { at < length self.now.entries }
        ensures { whole_entry result ≡ slice_index_or self.now.entries at (whole_entry result) }
    {
        self.chunks.entry(at)
    }

    /// All entries of the history, if the journal may forget none.
    pub fn all_entries(&self) -> Option<&Entries>
        ensures some { IfSome result (λ entries. (entries.now ≡ self.now.entries) × (self.now.bounds.endless ≡ false)) }
        ensures none { IfNone result (self.now.bounds.endless ≡ true) }
    {
        self.chunks.all_entries()
    }

    /// How many entries are forgotten.
    pub fn first(&self) -> u64
        ensures { result ≡ self.now.first }
    {
        self.first
    }

    /// How much the journal keeps.
    pub fn bounds(&self) -> Bounds
        ensures { result ≡ self.now.bounds }
    {
        Bounds {
            limit: self.limit,
            endless: self.chunks.is_chunked,
        }
    }

    /// What the router was opened with.
    pub fn opening(&self) -> &Opening
        ensures { result.now ≡ self.now.tables.opening }
    {
        self.tables.opening()
    }

    /// The tables as they stand after the whole history.
    pub fn tables(&self) -> &Tables
        ensures { result.now ≡ self.now.tables }
    {
        &self.tables
    }
}
