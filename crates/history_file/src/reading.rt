//! The lines of a history are read.
//!
//! **What is read of a line is spelled again and compared with the line.** So each line has one spelling without a reader that judges zeros, blanks
//! and letters, and that the line is the entry's follows from the writer's contract alone. It costs a second walk over each line.
//!
//! **Reading does not judge replies.** A file's reader says which history the bytes tell, and `replay` whether it is right: the two have nothing in
//! common.
ghost use Rattle.std.specs.Prelude.{◌≡◌, ◌≤◌, MatchResult, ⊤};
ghost use Rattle.line_protocol.specs.Words.{words};
ghost use Rattle.prefix_patterns.specs.Reading.{number_in};
ghost use Rattle.history_lines.specs.Fits.{largest_number, largest_session};
ghost use Rattle.route_history.specs.Limits.{largest_limit};
ghost use Rattle.history_file.specs.Reading as spec;
ghost use Rattle.history_lines.specs.Views.{entry_view, event_view};

use crate::fault::HistoryLineFault;
use code_file::{FileFault, read_code};
use filter_code::Code;
use filter_verifier::{Verified, VerifyFault, verify};
use hex::FromHexError;
use history_lines::{HistoryKeyword, find_keyword, find_refusal};
use line_protocol::next_word;
use netchange_core::{Event, Message, Messages, Reply, Via};
use prefix_patterns::{Prefix, cut_at, read_number, read_prefix};
use route_history::{Entry, LARGEST_LIMIT};
use std::alloc::Global;
use std::sync::Arc;

/// The first word of a line, and the bytes after it.
pub(crate) fn first_word(line: &[u8]) -> Result<(&[u8], &[u8]), HistoryLineFault>
    ensures { spec.IsRead (λ p. (p.0.now, words p.1.now)) (spec.first_word (words line.now)) result }
{
    match next_word(line) {
        Some(cut) => Ok(cut),
        None => Err(HistoryLineFault::Form),
    }
}

/// There are no more words.
pub(crate) fn no_more(line: &[u8]) -> Result<(), HistoryLineFault>
    ensures { spec.IsRead (λ _. tt) (spec.no_more (words line.now)) result }
{
    match next_word(line) {
        Some(_) => Err(HistoryLineFault::Form),
        None => Ok(()),
    }
}

/// A number of at most `most`, and the bytes after it.
#[tactic(auto, unfolding(crate::specs::Reading::first_number))]
fn first_number(line: &[u8], most: u32) -> Result<(u32, &[u8]), HistoryLineFault>
    ensures value { spec.IsRead (λ p. (p.0, words p.1.now)) (spec.first_number most (words line.now)) result }
    ensures limit { MatchResult result (λ p. p.0 ≤ most) (λ _. ⊤) }
{
    let (word, rest) = first_word(line)?;
    match read_number(word, most) {
        Some(number) => Ok((number, rest)),
        None => Err(HistoryLineFault::Form),
    }
}

/// The number of a session, and the bytes after it.
pub(crate) fn first_session(line: &[u8]) -> Result<(u32, &[u8]), HistoryLineFault>
    ensures { spec.IsRead (λ p. (p.0, words p.1.now)) (spec.first_number largest_session (words line.now)) result }
{
    first_number(line, u32::MAX)
}

/// The number of a node, a distance or a count, and the bytes after it.
pub(crate) fn first_small(line: &[u8]) -> Result<(u16, &[u8]), HistoryLineFault>
    ensures { spec.IsRead (λ p. (p.0, words p.1.now)) (spec.first_number largest_number (words line.now)) result }
{
    let (number, rest) = first_number(line, u32::from(u16::MAX))?;
    Ok((number as u16, rest))
}

/// A keyword, and the bytes after it.
#[tactic(auto, unfolding(crate::specs::Reading::first_keyword))]
fn first_keyword(line: &[u8]) -> Result<(HistoryKeyword, &[u8]), HistoryLineFault>
    ensures { spec.IsRead (λ p. (p.0, words p.1.now)) (spec.first_keyword (words line.now)) result }
{
    let (word, rest) = first_word(line)?;
    match find_keyword(word) {
        Some(keyword) => Ok((keyword, rest)),
        None => Err(HistoryLineFault::Form),
    }
}

/// The code of a code file in hexadecimal.
fn read_code_file(alloc: Global, digits: &[u8]) -> Result<Code, HistoryLineFault>
    ensures { spec.IsRead (λ code. code) (spec.code_in_hexadecimal digits.now) result }
{
    let bytes = match hex::decode(alloc, digits) {
        Ok(bytes) => bytes,
        Err(FromHexError::OutOfMemory) => return Err(HistoryLineFault::Memory),
        Err(_) => return Err(HistoryLineFault::Form),
    };
    match read_code(alloc, bytes.as_slice()) {
        Ok(code) => Ok(code),
        Err(FileFault::Memory) => Err(HistoryLineFault::Memory),
        Err(_) => Err(HistoryLineFault::Form),
    }
}

/// The code of a file in hexadecimal, verified for domains of a size.
fn read_filter(alloc: Global, size: u16, digits: &[u8]) -> Result<Arc<Verified>, HistoryLineFault>
    ensures { spec.IsRead (λ f. f.value) (spec.verified_code size (spec.code_in_hexadecimal digits.now)) result }
{
    let code = read_code_file(alloc, digits)?;
    match verify(alloc, code, u32::from(size)) {
        Ok(filter) => Ok(Arc::new(alloc, filter)?),
        Err((_, VerifyFault::Memory)) => Err(HistoryLineFault::Memory),
        Err(_) => Err(HistoryLineFault::Form),
    }
}

/// A filter, and the bytes after it.
#[tactic(auto, unfolding(crate::specs::Reading::first_filter))]
pub(crate) fn first_filter(
    alloc: Global,
    line: &[u8],
) -> Result<(Arc<Verified>, &[u8]), HistoryLineFault>
    ensures { spec.IsRead (λ p. (p.0.value, words p.1.now)) (spec.first_filter (words line.now)) result }
{
    let (size, rest) = first_small(line)?;
    let (digits, rest) = first_word(rest)?;
    Ok((read_filter(alloc, size, digits)?, rest))
}

/// An event by its keyword, and the bytes after it.
#[tactic(auto, unfolding(crate::specs::Reading::event_of))]
fn event_of(
    alloc: Global,
    keyword: HistoryKeyword,
    line: &[u8],
) -> Result<(Event, &[u8]), HistoryLineFault>
    ensures { spec.IsRead (λ p. (event_view p.0, words p.1.now)) (spec.event_of keyword (words line.now)) result }
{
    match keyword {
        HistoryKeyword::Up => {
            let (node, rest) = first_small(line)?;
            Ok((Event::Up(node), rest))
        }
        HistoryKeyword::Down => {
            let (session, rest) = first_session(line)?;
            Ok((Event::Down(session), rest))
        }
        HistoryKeyword::Receive => {
            let (session, rest) = first_session(line)?;
            let (dest, rest) = first_small(rest)?;
            let (dist, rest) = first_small(rest)?;
            Ok((Event::Receive(session, dest, dist), rest))
        }
        HistoryKeyword::Take => {
            let (session, rest) = first_session(line)?;
            let (max, rest) = first_small(rest)?;
            Ok((Event::Take(session, max), rest))
        }
        HistoryKeyword::Import => {
            let (node, rest) = first_small(line)?;
            let (filter, rest) = first_filter(alloc, rest)?;
            Ok((Event::SetImport(node, filter), rest))
        }
        HistoryKeyword::Export => {
            let (node, rest) = first_small(line)?;
            let (filter, rest) = first_filter(alloc, rest)?;
            Ok((Event::SetExport(node, filter), rest))
        }
        HistoryKeyword::Show => {
            let (node, rest) = first_small(line)?;
            Ok((Event::Show(node), rest))
        }
        _ => Err(HistoryLineFault::Form),
    }
}

/// An event, and the bytes after it.
#[tactic(auto, unfolding(crate::specs::Reading::first_event))]
fn first_event(alloc: Global, line: &[u8]) -> Result<(Event, &[u8]), HistoryLineFault>
    ensures { spec.IsRead (λ p. (event_view p.0, words p.1.now)) (spec.first_event (words line.now)) result }
{
    let (keyword, rest) = first_keyword(line)?;
    event_of(alloc, keyword, rest)
}

/// Through whom a route goes, by its keyword, where nothing follows.
#[tactic(auto, unfolding(crate::specs::Reading::via_of))]
fn via_of(keyword: HistoryKeyword, line: &[u8]) -> Result<Via, HistoryLineFault>
    ensures { spec.IsRead (λ v. v) (spec.via_of keyword (words line.now)) result }
{
    match keyword {
        HistoryKeyword::Local => {
            no_more(line)?;
            Ok(Via::Local)
        }
        HistoryKeyword::Via => {
            let (node, rest) = first_small(line)?;
            no_more(rest)?;
            Ok(Via::Node(node))
        }
        HistoryKeyword::Nowhere => {
            no_more(line)?;
            Ok(Via::Nowhere)
        }
        _ => Err(HistoryLineFault::Form),
    }
}

/// Through whom a route goes, where nothing follows.
#[tactic(auto, unfolding(crate::specs::Reading::all_via))]
fn all_via(line: &[u8]) -> Result<Via, HistoryLineFault>
    ensures { spec.IsRead (λ v. v) (spec.all_via (words line.now)) result }
{
    let (keyword, rest) = first_keyword(line)?;
    via_of(keyword, rest)
}

/// A number of at most 65,535.
fn read_small(text: &[u8]) -> Option<u16>
    ensures { result ≡ number_in largest_number text.now }
{
    let number = read_number(text, u32::from(u16::MAX))?;
    Some(number as u16)
}

/// A message.
#[tactic(auto, unfolding(crate::specs::Reading::message_in))]
fn read_message(word: &[u8]) -> Option<Message>
    ensures { result ≡ spec.message_in word.now }
{
    let (dest, dist) = cut_at(word, b':')?;
    let dest = read_small(dest)?;
    let dist = read_small(dist)?;
    Some(Message { dest, dist })
}

/// All words, each a message.
pub(crate) fn all_messages(alloc: Global, line: &[u8]) -> Result<Vec<Message>, HistoryLineFault>
    ensures { spec.IsRead (λ v. v.items) (spec.all_messages (words line.now)) result }
{
    let mut messages = Vec::new(alloc);
    let mut rest = line;
    while let Some((word, later)) = next_word(rest) {
        let Some(message) = read_message(word) else {
            return Err(HistoryLineFault::Form);
        };
        messages.push(message)?;
        rest = later;
    }
    Ok(messages)
}

/// A reply by its keyword, where nothing follows.
#[tactic(auto, unfolding(crate::specs::Reading::reply_of))]
fn reply_of(alloc: Global, keyword: HistoryKeyword, line: &[u8]) -> Result<Reply, HistoryLineFault>
    ensures { spec.IsRead (λ r. r) (spec.reply_of keyword (words line.now)) result }
{
    match keyword {
        HistoryKeyword::Opened => {
            let (session, rest) = first_session(line)?;
            no_more(rest)?;
            Ok(Reply::Opened(session))
        }
        HistoryKeyword::Done => {
            let (changed, rest) = first_small(line)?;
            no_more(rest)?;
            Ok(Reply::Done { changed })
        }
        HistoryKeyword::Messages => {
            let messages = all_messages(alloc, line)?;
            Ok(Reply::Messages(Messages::from_vec(messages)))
        }
        HistoryKeyword::Route => {
            let (dist, rest) = first_small(line)?;
            let via = all_via(rest)?;
            Ok(Reply::Route { dist, via })
        }
        HistoryKeyword::Refused => {
            let (code, rest) = first_word(line)?;
            let Some(why) = find_refusal(code) else {
                return Err(HistoryLineFault::Form);
            };
            no_more(rest)?;
            Ok(Reply::Refused(why))
        }
        _ => Err(HistoryLineFault::Form),
    }
}

/// A reply, where nothing follows.
#[tactic(auto, unfolding(crate::specs::Reading::all_reply))]
fn all_reply(alloc: Global, line: &[u8]) -> Result<Reply, HistoryLineFault>
    ensures { spec.IsRead (λ r. r) (spec.all_reply (words line.now)) result }
{
    let (keyword, rest) = first_keyword(line)?;
    reply_of(alloc, keyword, rest)
}

/// An entry, after a word for its position.
#[tactic(auto, unfolding(crate::specs::Reading::entry_in))]
pub(crate) fn entry_in(alloc: Global, line: &[u8]) -> Result<Entry, HistoryLineFault>
    ensures { spec.IsRead entry_view (spec.entry_in (words line.now)) result }
{
    let (_position, rest) = first_word(line)?;
    let (event, rest) = first_event(alloc, rest)?;
    let reply = all_reply(alloc, rest)?;
    Ok(Entry { event, reply })
}

/// All words, each a prefix.
fn all_prefixes(alloc: Global, line: &[u8]) -> Result<Vec<Prefix>, HistoryLineFault>
    ensures { spec.IsRead (λ v. v.items) (spec.all_prefixes (words line.now)) result }
{
    let mut prefixes = Vec::new(alloc);
    let mut rest = line;
    while let Some((word, later)) = next_word(rest) {
        let Some(prefix) = read_prefix(word) else {
            return Err(HistoryLineFault::Form);
        };
        prefixes.push(prefix)?;
        rest = later;
    }
    Ok(prefixes)
}

/// What the line of an opening says. Whether there is such an opening is not known yet.
#[derive(Drop)]
pub(crate) struct OpeningParts {
    /// The number of nodes.
    pub size: u16,
    /// The node that the router is.
    pub me: u16,
    /// The most entries of the history.
    pub limit: u32,
    /// The prefix of each node.
    pub prefixes: Vec<Prefix>,
}

/// The parts of an opening's line, after a word for its mark.
#[tactic(auto, unfolding(crate::specs::Reading::opening_parts))]
pub(crate) fn opening_parts(alloc: Global, line: &[u8]) -> Result<OpeningParts, HistoryLineFault>
    ensures limit { MatchResult result (λ p. p.limit ≤ largest_limit) (λ _. ⊤) }
    ensures value { spec.IsRead (λ p. record { size = p.size; me = p.me; limit = p.limit; prefixes = p.prefixes.items })
        (spec.opening_parts (words line.now)) result }
{
    let (_mark, rest) = first_word(line)?;
    let (size, rest) = first_small(rest)?;
    let (me, rest) = first_small(rest)?;
    let (limit, rest) = first_number(rest, LARGEST_LIMIT)?;
    let prefixes = all_prefixes(alloc, rest)?;
    Ok(OpeningParts {
        size,
        me,
        limit,
        prefixes,
    })
}
