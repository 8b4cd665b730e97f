//! The lines of a state are read. What is read is written again afterwards and compared with the lines, so zeros in front and further
//! blanks are not looked at here.
ghost use Rattle.std.specs.Prelude.{◌≤◌, IfErr, IfOk};
ghost use Rattle.history_file.specs.Chains.{IsStateFault};
ghost use Rattle.route_history.specs.Limits.{largest_limit};

use crate::chain::{ChainFault, fault_at, is_segment};
use crate::fault::HistoryLineFault;
use crate::reading::{
    all_messages, first_filter, first_session, first_small, first_word, no_more, opening_parts,
};
use filter_verifier::Verified;
use netchange_core::{Neighbour, Opening};
use prefix_patterns::cut_at;
use std::alloc::Global;
use std::collections::VecDeque;
use std::sync::Arc;

/// A state has fewer lines: at most three, one for each of two filters a node, and two a node.
const MOST_LINES: u64 = 2000;

/// What the lines of a state say. Whether they are those of a state is not known yet.
#[derive(Drop)]
pub(crate) struct StateParts {
    /// What the router was opened with.
    pub(crate) opening: Opening,
    /// How many entries came before.
    pub(crate) at: u64,
    /// How many sessions there were.
    pub(crate) sessions: u32,
    filters: Vec<Arc<Verified>>,
    /// The nodes as neighbours.
    pub(crate) neighbours: Vec<Neighbour>,
    is_ended: bool,
}

/// The opening and the room that a first line tells.
pub(crate) fn read_mark(alloc: Global, line: &[u8]) -> Result<(Opening, u32), HistoryLineFault>
    ensures { IfOk result (λ r. (1 ≤ r.1) × (r.1 ≤ largest_limit)) }
{
    if !is_segment(line) {
        return Err(HistoryLineFault::Form);
    }
    let parts = match opening_parts(alloc, line) {
        Ok(parts) => parts,
        Err(fault) => return Err(fault),
    };
    let room = parts.limit;
    if room == 0 {
        return Err(HistoryLineFault::Form);
    }
    match Opening::new(parts.size, parts.me, parts.prefixes) {
        Some(opening) => Ok((opening, room)),
        None => Err(HistoryLineFault::Form),
    }
}

/// The number in decimal digits.
fn read_position(word: &[u8]) -> Option<u64> {
    let mut value: u64 = 0;
    for byte in word {
        if !byte.is_ascii_digit() {
            return None;
        }
        value = value.checked_mul(10)?.checked_add(u64::from(*byte - b'0'))?;
    }
    Some(value)
}

/// The position and the number of sessions that a second line tells.
fn read_place(line: &[u8]) -> Result<(u64, u32), HistoryLineFault> {
    let (_at, rest) = first_word(line)?;
    let (position, rest) = first_word(rest)?;
    let (_word, rest) = first_word(rest)?;
    let (sessions, rest) = first_session(rest)?;
    no_more(rest)?;
    match read_position(position) {
        Some(at) => Ok((at, sessions)),
        None => Err(HistoryLineFault::Form),
    }
}

/// The bytes after this number.
fn after_number(number: usize, line: &[u8]) -> Result<&[u8], HistoryLineFault> {
    let (found, rest) = first_small(line)?;
    if usize::from(found) == number {
        Ok(rest)
    } else {
        Err(HistoryLineFault::Form)
    }
}

/// The number of a filter after this word, if the word is there, and the bytes after it.
fn read_use<'a>(line: &'a [u8], name: &[u8]) -> Result<(Option<u16>, &'a [u8]), HistoryLineFault> {
    let (word, rest) = first_word(line)?;
    if word != name {
        return Ok((None, line));
    }
    let (number, rest) = first_small(rest)?;
    Ok((Some(number), rest))
}

/// The filter of a number, if there is a number.
fn filter_at(
    filters: &[Arc<Verified>],
    number: Option<u16>,
) -> Result<Option<Arc<Verified>>, HistoryLineFault> {
    let Some(number) = number else {
        return Ok(None);
    };
    match filters.get(usize::from(number)) {
        Some(filter) => Ok(Some(Arc::try_clone(filter)?)),
        None => Err(HistoryLineFault::Form),
    }
}

/// The session of a node, if it is up, and the distance to each node that it advertised.
fn read_link(
    alloc: Global,
    size: u16,
    line: &[u8],
) -> Result<(Option<u32>, Vec<u16>), HistoryLineFault> {
    let (word, rest) = first_word(line)?;
    if word == "down".as_bytes() {
        no_more(rest)?;
        return Ok((None, vec![in alloc; size; usize::from(size)]?));
    }
    if word != "up".as_bytes() {
        return Err(HistoryLineFault::Form);
    }
    let (session, mut rest) = first_session(rest)?;
    let mut advertised = Vec::with_capacity(alloc, usize::from(size))?;
    for _ in 0..size {
        let (dist, later) = first_small(rest)?;
        advertised.push(dist)?;
        rest = later;
    }
    no_more(rest)?;
    Ok((Some(session), advertised))
}

impl StateParts {
    /// Reads what follows `filter`.
    fn read_filter(&mut self, alloc: Global, line: &[u8]) -> Result<(), HistoryLineFault> {
        let rest = after_number(self.filters.len(), line)?;
        let (filter, rest) = first_filter(alloc, rest)?;
        no_more(rest)?;
        Ok(self.filters.push(filter)?)
    }

    /// Reads what follows `node`.
    fn read_node(&mut self, alloc: Global, line: &[u8]) -> Result<(), HistoryLineFault> {
        let rest = after_number(self.neighbours.len(), line)?;
        let (imports, rest) = read_use(rest, "import".as_bytes())?;
        let (exports, rest) = read_use(rest, "export".as_bytes())?;
        let (session, advertised) = read_link(alloc, self.opening.size(), rest)?;
        let imports = filter_at(&self.filters, imports)?;
        let exports = filter_at(&self.filters, exports)?;
        Ok(
            self.neighbours.push(Neighbour {
                session,
                advertised,
                imports,
                exports,
                queue: VecDeque::new(alloc),
            })?,
        )
    }

    /// Reads what follows `queue`.
    fn read_queue(&mut self, alloc: Global, line: &[u8]) -> Result<(), HistoryLineFault> {
        let count = self.neighbours.len();
        if count == 0 {
            return Err(HistoryLineFault::Form);
        }
        let messages = all_messages(alloc, line)?;
        self.neighbours[count - 1].queue = VecDeque::from_vec(messages);
        Ok(())
    }

    /// Reads a line of the state after its first two.
    fn read_line(&mut self, alloc: Global, line: &[u8]) -> Result<(), HistoryLineFault> {
        let (word, rest) = first_word(line)?;
        if word == "filter".as_bytes() {
            self.read_filter(alloc, rest)
        } else if word == "node".as_bytes() {
            self.read_node(alloc, rest)
        } else if word == "queue".as_bytes() {
            self.read_queue(alloc, rest)
        } else if word == ".".as_bytes()
            && self.neighbours.len() == usize::from(self.opening.size())
        {
            self.is_ended = true;
            Ok(())
        } else {
            Err(HistoryLineFault::Form)
        }
    }

    /// Reads the lines of the state after its first two.
    fn read_lines(&mut self, alloc: Global, bytes: &[u8]) -> Result<(), ChainFault>
        ensures err { IfErr result IsStateFault }
    {
        let mut rest = bytes;
        for number in 3..MOST_LINES {
            let Some((line, later)) = cut_at(rest, b'\n') else {
                return Err(ChainFault::Cut(number));
            };
            match self.read_line(alloc, line) {
                Ok(()) => rest = later,
                Err(fault) => return Err(fault_at(number, fault)),
            }
            if self.is_ended {
                return Ok(());
            }
        }
        Err(ChainFault::Line(MOST_LINES))
    }
}

/// What the lines of a state say, and the room that the first one tells.
pub(crate) fn read_parts(alloc: Global, bytes: &[u8]) -> Result<(StateParts, u32), ChainFault>
    ensures room { IfOk result (λ r. (1 ≤ r.1) × (r.1 ≤ largest_limit)) }
    ensures err { IfErr result IsStateFault }
{
    let Some((first, rest)) = cut_at(bytes, b'\n') else {
        return Err(ChainFault::Cut(1));
    };
    let (opening, room) = match read_mark(alloc, first) {
        Ok(read) => read,
        Err(fault) => return Err(fault_at(1, fault)),
    };
    let Some((second, rest)) = cut_at(rest, b'\n') else {
        return Err(ChainFault::Cut(2));
    };
    let (at, sessions) = match read_place(second) {
        Ok(read) => read,
        Err(fault) => return Err(fault_at(2, fault)),
    };
    let mut parts = StateParts {
        opening,
        at,
        sessions,
        filters: Vec::new(alloc),
        neighbours: Vec::new(alloc),
        is_ended: false,
    };
    match parts.read_lines(alloc, rest) {
        Ok(()) => Ok((parts, room)),
        Err(fault) => Err(fault),
    }
}
