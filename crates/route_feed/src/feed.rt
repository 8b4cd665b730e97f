//! A feed of a router's routes.
ghost use Rattle.std.specs.Prelude.{◌≡◌, ◌≤◌, None, Some, false, true, IfErr, IfOk, length};
ghost use Rattle.route_feed.specs.Feeding.{HasFed, IsSpoken, seen_by};
ghost use Rattle.route_feed.specs.Lines.{block_text};
ghost use Rattle.route_feed.specs.Looks.{IsLook};
ghost use Rattle.route_feed.specs.Steps as spec;
ghost use Rattle.route_feed.specs.declared.fault.FeedFault.TheVariants as fault;
ghost use Rattle.route_history.specs.Beginning.{Begins};
ghost use Rattle.route_history.specs.JournalView.{JournalView};
ghost use Rattle.slot_lock.specs.Passes.{IsOwn, IsPassOf};

use crate::fault::FeedFault;
use crate::hop::Hop;
use crate::lines::{are_same, block_of};
use crate::look::{FeedReader, FeedSnapshot};
use crate::table::hops_of;
use line_protocol::write_text;
use netchange_core::Opening;
use slot_lock::{Pass, Router};
use std::alloc::{AllocError, Global};
use std::io::Write;
use std::marker::Model;
use std::snapshot::Snapshot;
use std::sync::Wait;

/// A stream that is told where packets go, and what it was told. A contract sees it as a `FeedView`.
///
/// The first block is the whole table: a line for each prefix that can be reached. Each later one has what is another way than it was told, and
/// nothing of what came in between; it may be that nothing is. So a stream that is opened anew gets a feed of its own.
#[derive(Drop)]
pub struct Feed<V: Write> {
    stream: V,
    // The stream as it was given.
    first: Snapshot<V>,
    opening: Opening,
    hops: Vec<Option<Hop>>,
    at: Option<u64>,
    is_broken: bool,
}

impl<V: Write> Model for Feed<V> {
    ghost use Rattle.std.specs.Prelude.{◌≡◌, length};
    ghost use Rattle.route_feed.specs.Feeding.{FeedView};

    ghost Value = { FeedView };

    ghost view = { λ f. record {
      opening = f.opening;
      first = V.contents f.first.value;
      held = V.contents f.stream;
      at = f.at;
      hops = f.hops.items;
      is_broken = f.is_broken;
    } };

    ghost invariant = { λ f. length f.hops.items ≡ f.opening.size };
}

/// No packets go anywhere.
fn nowhere(alloc: Global, size: u16) -> Result<Vec<Option<Hop>>, AllocError>
    ensures { IfOk result (λ hops. spec.AreNowhere size hops.items) }
{
    let mut hops = Vec::with_capacity(alloc, usize::from(size))?;
    for _node in 0..size {
        hops.push(None)?;
    }
    Ok(hops)
}

impl<V: Write + Drop> Feed<V> {
    /// The feed of a stream that was told nothing yet, for the router of this opening.
    pub fn new(alloc: Global, stream: V, opening: &Opening) -> Result<Feed<V>, AllocError>
        ensures value { IfOk result (λ f. f ≡ record {
          opening = opening.now;
          first = V.contents stream;
          held = V.contents stream;
          at = None;
          hops = f.hops;
          is_broken = false;
        }) }
        ensures nothing { IfOk result (λ f. (j : JournalView) → HasFed f j) }
    {
        let hops = nowhere(alloc, opening.size())?;
        let opening = opening.copy(alloc)?;
        Ok(Feed {
            first: Snapshot::of(&stream),
            stream,
            opening,
            hops,
            at: None,
            is_broken: false,
        })
    }

    /// After how many entries of the history the stream was told the table last, if it was.
    pub fn told(&self) -> Option<u64>
        ensures { result ≡ self.now.at }
    {
        self.at
    }

    /// Whether a write failed, so that the stream is told nothing any more.
    pub fn is_broken(&self) -> bool
        ensures { result ≡ self.now.is_broken }
    {
        self.is_broken
    }

    /// Writes a block: where packets go now, after so many entries.
    fn write_block(
        &mut self,
        text: &[u8],
        hops: Vec<Option<Hop>>,
        end: u64,
    ) -> Result<u64, FeedFault>
        requires count { length hops.items ≡ self.old.opening.size }
        ensures ok { IfOk result (λ n. (n ≡ end) × spec.IsWritten text.now hops.items end self.old self.new) }
        ensures err { IfErr result (λ f. (f ≡ fault.Write) × spec.IsUnwritten text.now self.old self.new) }
    {
        match write_text(&mut self.stream, text) {
            Ok(()) => {
                self.hops = hops;
                self.at = Some(end);
                Ok(end)
            }
            Err(_) => {
                self.is_broken = true;
                Err(FeedFault::Write)
            }
        }
    }

    /// Whether there is nothing to tell: the table was told, packets for the prefix of each node still go where they were told to, and the stream is not
    /// to be told so.
    fn is_still(&self, hops: &[Option<Hop>], speaks: bool) -> bool
        requires count { length hops.now ≡ self.now.opening.size }
        ensures still { result ≡ true → spec.IsStill self.now hops.now }
        ensures silent { result ≡ true → speaks ≡ false }
    {
        match self.at {
            Some(_) if !speaks => are_same(self.hops.as_slice(), hops),
            _ => false,
        }
    }

    /// Tells where packets go now, after so many entries: what of it is another way than it was told.
    fn tell_hops(
        &mut self,
        alloc: Global,
        hops: Vec<Option<Hop>>,
        end: u64,
    ) -> Result<u64, FeedFault>
        requires count { length hops.items ≡ self.old.opening.size }
        ensures ok { IfOk result (λ n. (n ≡ end)
            × spec.IsWritten (block_text (spec.news_block self.old hops.items end)) hops.items end self.old self.new) }
        ensures err { IfErr result (λ f. spec.IsUntold f (block_text (spec.news_block self.old hops.items end)) self.old self.new) }
    {
        let is_first = self.at.is_none();
        match block_of(
            alloc,
            self.opening.prefixes(),
            self.hops.as_slice(),
            hops.as_slice(),
            end,
            is_first,
        ) {
            Ok(text) => self.write_block(text.as_slice(), hops, end),
            Err(_) => Err(FeedFault::Memory),
        }
    }

    /// Tells what is new by a look, and that nothing is where it is to speak.
    fn tell_look(
        &mut self,
        alloc: Global,
        look: &FeedSnapshot,
        speaks: bool,
    ) -> Result<u64, FeedFault>
        requires goes_on { self.old.is_broken ≡ false }
        requires count { length look.now.routes.items ≡ self.old.opening.size }
        ensures opening { self.new.opening ≡ self.old.opening }
        ensures first { self.new.first ≡ self.old.first }
        ensures fed { (j : JournalView) → j.opening ≡ self.old.opening → IsLook j look.now → HasFed self.old j → HasFed self.new j }
        ensures ok { IfOk result (λ n. (n ≡ look.now.end) × (self.new.at ≡ Some n) × (self.new.is_broken ≡ false)) }
        ensures spoken { IfOk result (λ n. speaks ≡ true → IsSpoken n self.old self.new) }
        ensures err { IfErr result (λ f. spec.Fails f self.old self.new) }
    {
        let size = self.opening.size();
        match hops_of(alloc, size, self.opening.prefixes(), look.routes.as_slice()) {
            Ok(hops) => {
                if self.is_still(hops.as_slice(), speaks) {
                    self.at = Some(look.end);
                    return Ok(look.end);
                }
                self.tell_hops(alloc, hops, look.end)
            }
            Err(_) => Err(FeedFault::Memory),
        }
    }

    /// Tells the stream where packets go at a moment of the router's history that is no earlier than what the pass has seen: the whole table at the
    /// first time, then what is another way than it was told. Where nothing is, it is told no word, or, if it is to speak, a block without routes, by
    /// which a stream that nobody reads any more is found. After how many entries of the history that is.
    ///
    /// E2 where the stream did not take all: then it is told nothing any more, and the fault comes again. E3 where memory was refused: then nothing is
    /// written, and the next call tells it.
    ///
    /// The pass is the one that the feed looks by, or one that has seen as much. Other callers of the router wait while the routes are copied, and never
    /// for the stream.
    pub fn tell<R: Wait>(
        &mut self,
        rt: &R,
        alloc: Global,
        router: &Router,
        pass: &mut Pass,
        speaks: bool,
    ) -> Result<u64, FeedFault>
        requires of { IsPassOf router.now pass.old }
        requires opening { self.old.opening ≡ router.now.opening }
        requires fed { HasFed self.old (seen_by router.now pass.old) }
        ensures pass { IsPassOf router.now pass.new × (pass.new.fragment.shares ≡ pass.old.fragment.shares) }
        ensures begins { Begins pass.old.fragment.seen pass.new.fragment.seen }
        ensures mine { pass.new.fragment.mine ≡ pass.old.fragment.mine }
        ensures opening { self.new.opening ≡ self.old.opening }
        ensures first { self.new.first ≡ self.old.first }
        ensures fed { HasFed self.new (seen_by router.now pass.new) }
        ensures ok { IfOk result (λ n. (n ≡ length pass.new.fragment.seen) × (self.new.at ≡ Some n) × (self.new.is_broken ≡ false)) }
        ensures spoken { IfOk result (λ n. speaks ≡ true → IsSpoken n self.old self.new) }
        ensures err { IfErr result (λ f. spec.Fails f self.old self.new) }
    {
        if self.is_broken {
            return Err(FeedFault::Write);
        }
        let mut looking = FeedReader { alloc, look: None };
        router.observe(rt, pass, &mut looking);
        match looking.look() {
            Some(look) => self.tell_look(alloc, &look, speaks),
            None => Err(FeedFault::Memory),
        }
    }
}
