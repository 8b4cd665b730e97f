//! Segments are replayed, in order, and are one history.
ghost use Rattle.std.specs.Prelude.{◌≡◌, ◌++◌, ◌+◌, ◌-◌, ◌<◌, ◌≤◌, ◌^◌, List, IfErr, IfOk, IfSome, OnOk, length};
ghost use Rattle.route_history.specs.declared.entry.Entry.{Entry as Pair};
ghost use Rattle.history_file.specs.Chains as spec;
ghost use Rattle.history_file.specs.Segments.{IsStateText};

use crate::fault::HistoryLineFault;
use crate::history::read_entry;
use crate::state::write_state;
use crate::state_lines::{StateParts, read_mark, read_parts};
use netchange_core::{Opening, Reply, Tables};
use prefix_patterns::cut_at;
use std::alloc::{AllocError, Global};

/// Why a file is not the next segment of a history.
#[derive(Drop)]
pub enum ChainFault {
    /// The recorded reply of an entry differs from the replayed one. It is the first such entry.
    Differs {
        /// The entry's position, counted from 0.
        at: u64,
        /// The reply that was saved.
        saved: Reply,
        /// The reply of the tables.
        right: Reply,
    },
    /// The line of this number, counted from 1, was not written to its end. All entries before it are right.
    Cut(u64),
    /// H1: the line of this number, counted from 1, is the first that is not as a segment has it.
    Line(u64),
    /// H2: no router comes to the state that the segment begins in.
    Unreached,
    /// H3: the segment does not begin in the state in which the one before ends, or at 0 and not in the state of an opening.
    Apart,
    /// Memory was refused.
    Memory,
}

/// What is wrong with the line of this number.
pub(crate) fn fault_at(number: u64, fault: HistoryLineFault) -> ChainFault
    ensures { spec.IsStateFault result }
{
    match fault {
        HistoryLineFault::Form => ChainFault::Line(number),
        HistoryLineFault::Memory => ChainFault::Memory,
    }
}

/// The bytes after others that they begin with.
fn after_front<'a>(bytes: &'a [u8], front: &[u8]) -> Option<&'a [u8]>
    ensures value { IfSome result (λ rest. bytes.now ≡ front.now ++ rest.now) }
    ensures within { length bytes.now < 2 ^ 64 }
{
    if bytes.len() < front.len() {
        return None;
    }
    let (head, rest) = bytes.split_at(front.len());
    if head == front { Some(rest) } else { None }
}

/// Whether a text is a segment's, by the mark that it begins with.
pub fn is_segment(text: &[u8]) -> bool
    ensures { result ≡ spec.is_segment text.now }
{
    let mark = &text[..text.len().min(5)];
    mark == "NCH2 ".as_bytes()
}

/// How many line feeds there are.
fn count_feeds(bytes: &[u8]) -> u64
    ensures value { result ≡ spec.feeds bytes.now }
    ensures within { result ≤ length bytes.now }
{
    let mut count = 0;
    for byte in bytes {
        if *byte == b'\n' {
            count += 1;
        }
    }
    count
}

/// The number of the line in which two texts first differ.
fn differing_line(one: &[u8], two: &[u8]) -> u64 {
    let most = one.len().min(two.len());
    for at in 0..most {
        if one[at] != two[at] {
            return count_feeds(&one[..at]).saturating_add(1);
        }
    }
    count_feeds(&one[..most]).saturating_add(1)
}

/// The tables in the state that a segment begins in, at its position, and what follows the state's text.
fn restore_state<'a>(alloc: Global, bytes: &'a [u8]) -> Result<(Chain, &'a [u8], u64), ChainFault>
    ensures ok { IfOk result (λ r. spec.IsRestored bytes.now r.0 r.1.now r.2) }
    ensures err { IfErr result spec.IsStateFault }
{
    let (parts, room) = match read_parts(alloc, bytes) {
        Ok(read) => read,
        Err(fault) => return Err(fault),
    };
    let StateParts {
        opening,
        at,
        sessions,
        neighbours,
        ..
    } = parts;
    let tables = match Tables::restore(alloc, opening, sessions, neighbours) {
        Ok(Some(tables)) => tables,
        Ok(None) => return Err(ChainFault::Unreached),
        Err(_) => return Err(ChainFault::Memory),
    };
    let chain = Chain {
        tables,
        first: at,
        next: at,
    };
    let mut text = Vec::new(alloc);
    let Ok(()) = write_state(alloc, &mut text, room, at, &chain.tables) else {
        return Err(ChainFault::Memory);
    };
    match after_front(bytes, &text) {
        Some(rest) => Ok((chain, rest, count_feeds(&text))),
        None => Err(ChainFault::Line(differing_line(bytes, &text))),
    }
}

/// Why bytes do not begin with a state's text, where they should.
fn misfit(alloc: Global, bytes: &[u8]) -> ChainFault
    ensures { spec.IsStateFault result }
{
    match restore_state(alloc, bytes) {
        Ok(_) => ChainFault::Apart,
        Err(fault) => fault,
    }
}

/// A chain of segments that was replayed: each begins in the state in which the one before ends, and all replies in them are right.
#[derive(Drop)]
pub struct Chain {
    /// The tables after the last of the segments.
    pub tables: Tables,
    /// The position at which the first segment begins.
    pub first: u64,
    /// The position after the last entry.
    pub next: u64,
}

impl Chain {
    /// Replays the entry of a line, of this number in its file.
    fn enter(&mut self, alloc: Global, number: u64, line: &[u8]) -> Result<(), ChainFault>
        requires { self.old.next + 1 < 2 ^ 64 }
        ensures ok { OnOk result (spec.Enters line.now self.old self.new) }
        ensures err { IfErr result (spec.IsEnterFault number line.now self.old) }
    {
        let entry = match read_entry(alloc, self.next, line) {
            Ok(entry) => entry,
            Err(HistoryLineFault::Form) => return Err(ChainFault::Line(number)),
            Err(HistoryLineFault::Memory) => return Err(ChainFault::Memory),
        };
        let Ok(right) = self.tables.apply(&entry.event) else {
            return Err(ChainFault::Memory);
        };
        if !right.is_same(&entry.reply) {
            return Err(ChainFault::Differs {
                at: self.next,
                saved: entry.reply,
                right,
            });
        }
        self.next += 1;
        Ok(())
    }

    /// Replays the lines of entries. So many lines stand before them in their file.
    fn replay(&mut self, alloc: Global, lines: u64, bytes: &[u8]) -> Result<(), ChainFault>
        requires positions { self.old.next + length bytes.now < 2 ^ 64 }
        requires numbers { lines + length bytes.now < 2 ^ 64 }
        ensures ok { OnOk result ((es : List Pair) × spec.Replays bytes.now self.old self.new es) }
        ensures err { IfErr result (spec.IsReplayFault lines bytes.now self.old.next self.old.tables) }
    {
        let mut rest = bytes;
        let mut count = 0;
        while let Some((line, later)) = cut_at(rest, b'\n') {
            match self.enter(alloc, lines + count + 1, line) {
                Ok(()) => {
                    count += 1;
                    rest = later;
                }
                Err(fault) => return Err(fault),
            }
        }
        if rest.is_empty() {
            Ok(())
        } else {
            Err(ChainFault::Cut(lines + count + 1))
        }
    }

    /// Replays the lines of entries behind the text of a state.
    fn replay_behind(&mut self, alloc: Global, lines: u64, bytes: &[u8]) -> Result<(), ChainFault>
        requires { lines + length bytes.now < 2 ^ 64 }
        ensures ok { OnOk result ((es : List Pair) × spec.Replays bytes.now self.old self.new es) }
        ensures err { IfErr result (spec.IsBehindFault lines bytes.now self.old) }
    {
        match self.next.checked_add(bytes.len() as u64) {
            Some(_) => self.replay(alloc, lines, bytes),
            None => Err(ChainFault::Line(2)),
        }
    }

    /// Replays the next segment, which has to begin in the state that the chain has come to, at its position.
    ///
    /// After a fault the chain is not to be used.
    pub fn follow(&mut self, alloc: Global, bytes: &[u8]) -> Result<(), ChainFault>
        ensures ok { OnOk result (spec.Follows bytes.now self.old self.new) }
        ensures err { IfErr result (spec.IsFollowFault bytes.now self.old) }
    {
        let Some((first, _)) = cut_at(bytes, b'\n') else {
            return Err(ChainFault::Cut(1));
        };
        let room = match read_mark(alloc, first) {
            Ok((_, room)) => room,
            Err(fault) => return Err(fault_at(1, fault)),
        };
        let mut text = Vec::new(alloc);
        let Ok(()) = write_state(alloc, &mut text, room, self.next, &self.tables) else {
            return Err(ChainFault::Memory);
        };
        match after_front(bytes, &text) {
            Some(rest) => self.replay_behind(alloc, count_feeds(&text), rest),
            None => Err(misfit(alloc, bytes)),
        }
    }

    /// Replays a first segment that begins at a later position, from its own state.
    fn begin_later(alloc: Global, bytes: &[u8]) -> Result<Chain, ChainFault>
        ensures ok { IfOk result (spec.Begins bytes.now) }
    {
        let (mut chain, rest, lines) = match restore_state(alloc, bytes) {
            Ok(restored) => restored,
            Err(fault) => return Err(fault),
        };
        if chain.first == 0 {
            return Err(ChainFault::Apart);
        }
        match chain.replay_behind(alloc, lines, rest) {
            Ok(()) => Ok(chain),
            Err(fault) => Err(fault),
        }
    }

    /// Replays a first segment. If it begins at 0 it has to begin in the state of an opening.
    pub fn begin(alloc: Global, bytes: &[u8]) -> Result<Chain, ChainFault>
        ensures ok { IfOk result (spec.Begins bytes.now) }
    {
        let Some((first, _)) = cut_at(bytes, b'\n') else {
            return Err(ChainFault::Cut(1));
        };
        let (opening, room) = match read_mark(alloc, first) {
            Ok(read) => read,
            Err(fault) => return Err(fault_at(1, fault)),
        };
        let Ok(mut chain) = Chain::open(alloc, opening) else {
            return Err(ChainFault::Memory);
        };
        let mut text = Vec::new(alloc);
        let Ok(()) = write_state(alloc, &mut text, room, 0, &chain.tables) else {
            return Err(ChainFault::Memory);
        };
        let Some(rest) = after_front(bytes, &text) else {
            return Chain::begin_later(alloc, bytes);
        };
        match chain.replay_behind(alloc, count_feeds(&text), rest) {
            Ok(()) => Ok(chain),
            Err(fault) => Err(fault),
        }
    }

    /// Replays the next segment of a chain; the first one where there is no chain yet.
    pub fn join(alloc: Global, chain: Option<Chain>, bytes: &[u8]) -> Result<Chain, ChainFault>
        ensures ok { IfOk result (spec.Joins bytes.now chain) }
        ensures err { IfErr result (spec.IsJoinFault bytes.now chain) }
    {
        match chain {
            Some(mut chain) => match chain.follow(alloc, bytes) {
                Ok(()) => Ok(chain),
                Err(fault) => Err(fault),
            },
            None => Chain::begin(alloc, bytes),
        }
    }

    /// The chain of no segment, in the state of an opening.
    fn open(alloc: Global, opening: Opening) -> Result<Chain, AllocError>
        ensures { IfOk result (spec.IsOpened opening) }
    {
        let tables = Tables::open(alloc, opening)?;
        Ok(Chain {
            tables,
            first: 0,
            next: 0,
        })
    }

    /// How many entries the segments have.
    pub fn entries(&self) -> u64
        ensures { result ≡ self.now.next - self.now.first }
    {
        self.next.saturating_sub(self.first)
    }
}
