//! Entries in chunks: those of the first chunks can be forgotten, and their memory is freed.
//!
//! **What may be forgotten is kept in chunks of 1,024 entries**, which are dropped whole: so their memory is freed, and no entry is moved. A
//! journal that may not forget has all entries in one chunk, as a `Journal` has.

ghost use Rattle.std.specs.Prelude.{◌≡◌, ◌+◌, ◌<◌, ◌≤◌, ◌++◌, ◌∷◌, [], false, true, IfNone, IfOk, IfSome, OnErr, OnOk, drop, length, slice_index_or};
ghost use Rattle.std.specs.VecDeque.{deque_len};
ghost use Rattle.netchange_core.specs.Calls.{carried, room_of};
ghost use Rattle.netchange_core.specs.Next.{answered, next};
ghost use Rattle.route_history.specs.Calls.{entry};
ghost use Rattle.route_history.specs.Chunks.{AreChunks, AreFilled, joined};
ghost use Rattle.route_history.specs.Whole.{whole_entry};

use crate::entries::Entries;
use crate::entry::EntryRef;
use netchange_core::{Event, Reply, Tables};
use std::alloc::{AllocError, Global};
use std::collections::VecDeque;
use std::marker::Model;
use std::mem::replace;

/// How many entries a chunk has.
pub const CHUNK: usize = 1024;

/// Entries in order, in chunks if they may be forgotten.
#[derive(Drop)]
pub(crate) struct Chunks {
    pub(crate) alloc: Global,
    pub(crate) is_chunked: bool,
    /// The chunks that are full.
    pub(crate) full: VecDeque<Entries>,
    pub(crate) last: Entries,
}

impl Model for Chunks {
    ghost use Rattle.std.specs.Prelude.{◌++◌};
    ghost use Rattle.route_history.specs.Chunks.{ChunksView};

    ghost Value = { ChunksView };

    ghost use Rattle.route_history.specs.Chunks.{AreChunks, joined};

    ghost view = { λ c. record { is_chunked = c.is_chunked; list = joined c.full.items ++ c.last } };

    ghost invariant = { λ c. AreChunks c.is_chunked c.full.items c.last };
}

/// Begins a new chunk: the last one is full.
fn roll(alloc: Global, full: &mut VecDeque<Entries>, last: &mut Entries) -> Result<(), AllocError>
    requires filled { AreFilled full.old.items }
    requires at_end { length last.old ≡ 1024 }
    ensures list { joined full.new.items ++ last.new ≡ joined full.old.items ++ last.old }
    ensures filled { AreFilled full.new.items }
    ensures small { length last.new ≤ 1024 }
    ensures space { OnOk result (length last.new < 1024) }
{
    full.reserve(1)?;
    let filled = replace(last, Entries::new(alloc));
    full.push_back_reserved(filled);
    Ok(())
}

/// Makes sure that the last chunk takes one more entry.
fn make_space(
    alloc: Global,
    is_chunked: bool,
    full: &mut VecDeque<Entries>,
    last: &mut Entries,
) -> Result<(), AllocError>
    requires chunks { AreChunks is_chunked full.old.items last.old }
    ensures list { joined full.new.items ++ last.new ≡ joined full.old.items ++ last.old }
    ensures chunks { AreChunks is_chunked full.new.items last.new }
    ensures space { OnOk result (is_chunked ≡ true → length last.new < 1024) }
{
    if is_chunked && last.len() >= CHUNK {
        return roll(alloc, full, last);
    }
    Ok(())
}

/// Drops the first chunks, as long as no more than so many entries go: how many go.
fn shed(full: &mut VecDeque<Entries>, most: usize) -> usize
    requires filled { AreFilled full.old.items }
    ensures filled { AreFilled full.new.items }
    ensures list { joined full.new.items ≡ drop result (joined full.old.items) }
    ensures within { (result ≤ most) × (result ≤ length (joined full.old.items)) }
    ensures ends { (deque_len full.new ≡ 0 → ⊥) → most < result + 1024 }
{
    let mut gone = 0;
    while most - gone >= CHUNK && !full.is_empty() {
        full.pop_front();
        gone += CHUNK;
    }
    gone
}

impl Chunks {
    /// Applies an event to tables, and adds it with their reply. After an error nothing is changed.
    #[inline(always)]
    pub(crate) fn enter(&mut self, tables: &mut Tables, event: Event) -> Result<Reply, AllocError>
        ensures chunked { self.new.is_chunked ≡ self.old.is_chunked }
        ensures done { IfOk result (λ r. next tables.old event ≡ answered tables.new r) }
        ensures entered { IfOk result (λ r. self.new.list ≡ self.old.list ++ entry event r ∷ []) }
        ensures fits { IfOk result (λ r. length (carried r) ≤ room_of tables.old event) }
        ensures opening { tables.new.opening ≡ tables.old.opening }
        ensures tables { OnErr result (tables.new ≡ tables.old) }
        ensures same { OnErr result (self.new ≡ self.old) }
    {
        make_space(self.alloc, self.is_chunked, &mut self.full, &mut self.last)?;
        self.last.enter(tables, event)
    }

    /// Forgets the first entries, at most so many: how many are forgotten.
    pub(crate) fn forget(&mut self, most: usize) -> usize
        ensures chunked { self.new.is_chunked ≡ self.old.is_chunked }
        ensures list { self.new.list ≡ drop result self.old.list }
        ensures within { (result ≤ most) × (result ≤ length self.old.list) }
        ensures frees { self.old.is_chunked ≡ true → most ≤ length self.old.list → most < result + 1024 }
    {
        let gone = shed(&mut self.full, most);
        let left = self.last.len();
        if self.full.is_empty() && left <= most - gone {
            self.last = Entries::new(self.alloc);
            return gone + left;
        }
        gone
    }

    /// The entries, which were not in chunks.
    pub(crate) fn into_entries(self) -> Entries
        requires { self.is_chunked ≡ false }
        ensures { result ≡ self.list }
    {
        let Chunks { last, .. } = self;
        last
    }

    /// The entries, if they are not in chunks.
    pub(crate) fn all_entries(&self) -> Option<&Entries>
        ensures some { IfSome result (λ entries. (entries.now ≡ self.now.list) × (self.now.is_chunked ≡ false)) }
        ensures none { IfNone result (self.now.is_chunked ≡ true) }
    {
        if self.is_chunked {
            return None;
        }
        Some(&self.last)
    }

    /// The entry at a position.
    #[inline(always)]
    pub(crate) fn entry(&self, at: usize) -> EntryRef<'_>
        requires { at < length self.now.list }
        ensures { whole_entry result ≡ slice_index_or self.now.list at (whole_entry result) }
    {
        match self.full.get(at / CHUNK) {
            Some(chunk) => chunk.entry(at % CHUNK),
            None => self.last.entry(at - CHUNK * self.full.len()),
        }
    }
}
