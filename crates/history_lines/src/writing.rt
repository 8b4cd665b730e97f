//! The lines of a history are written.
ghost use Rattle.std.specs.Prelude.{◌≡◌, ◌++◌, ◌∷◌, [], ◌≤◌, OnErr, OnOk, decimal, length, map};
ghost use Rattle.std.specs.Io.{StartsWith};
ghost use Rattle.std.specs.List.{All};
ghost use Rattle.code_file.specs.Spelling.{spelling};
ghost use Rattle.hex.specs.Hex.{encode_lower};
ghost use Rattle.prefix_patterns.specs.Bits.{address_length};
ghost use Rattle.prefix_patterns.specs.Spelling.{prefix_text};
ghost use Rattle.netchange_core.specs.Whole.{whole_reply};
ghost use Rattle.route_history.specs.Limits.{largest_limit};
ghost use Rattle.route_history.specs.Whole.{whole_entry};
ghost use Rattle.history_lines.specs.Fits as fits;
ghost use Rattle.history_lines.specs.Keywords.{keyword_text};
ghost use Rattle.history_lines.specs.Text as spec;
ghost use Rattle.history_lines.specs.Views.{entry_view, event_view};

use crate::keyword::HistoryKeyword;
use code_file::write_code;
use filter_verifier::Verified;
use line_protocol::{Spelled, push_decimal};
use netchange_core::{Event, Message, Opening, ReplyRef, Via};
use prefix_patterns::Prefix;
use route_history::EntryRef;
use std::alloc::{AllocError, Global};

/// The first word of a history's text.
const MARK: &str = "NCH1";

/// Adds a word after a space.
pub fn push_word(out: &mut Vec<u8>, word: &[u8]) -> Result<(), AllocError>
    ensures ok { OnOk result (out.new.items ≡ out.old.items ++ 32 ∷ word.now) }
    ensures err { OnErr result (StartsWith out.new.items out.old.items) }
{
    out.push(b' ')?;
    out.extend_from_slice(word)
}

/// Adds a number after a space.
pub fn push_number(out: &mut Vec<u8>, number: u64) -> Result<(), AllocError>
    ensures ok { OnOk result (out.new.items ≡ out.old.items ++ 32 ∷ decimal number) }
    ensures err { OnErr result (StartsWith out.new.items out.old.items) }
{
    out.push(b' ')?;
    push_decimal(out, number)
}

/// Adds a keyword after a space.
pub fn push_keyword(out: &mut Vec<u8>, keyword: HistoryKeyword) -> Result<(), AllocError>
    ensures ok { OnOk result (out.new.items ≡ out.old.items ++ 32 ∷ keyword_text keyword) }
    ensures err { OnErr result (StartsWith out.new.items out.old.items) }
{
    push_word(out, keyword.text().as_bytes())
}

/// The file of a filter's code in hexadecimal, and the filter can be written so.
fn push_code(alloc: Global, out: &mut Vec<u8>, filter: &Verified) -> Result<(), AllocError>
    ensures ok { OnOk result (out.new.items ≡ out.old.items ++ 32 ∷ encode_lower (spelling filter.now.program)) }
    ensures fits { OnOk result (fits.FitsFilter filter.now) }
    ensures err { OnErr result (StartsWith out.new.items out.old.items) }
{
    // For the proof alone, which needs what its contract says.
    let _size = filter.size();
    let Ok(bytes) = write_code(alloc, filter.code()) else {
        return Err(AllocError);
    };
    let digits = hex::encode(alloc, bytes)?;
    push_word(out, digits.as_bytes())
}

/// Adds the words of a filter.
pub fn push_filter(alloc: Global, out: &mut Vec<u8>, filter: &Verified) -> Result<(), AllocError>
    ensures ok { OnOk result (out.new.items ≡ out.old.items ++ spec.spaced (spec.filter_words filter.now)) }
    ensures fits { OnOk result (fits.FitsFilter filter.now) }
    ensures err { OnErr result (StartsWith out.new.items out.old.items) }
{
    push_number(out, u64::from(filter.size()))?;
    push_code(alloc, out, filter)
}

/// Adds the words of an event.
fn push_event(alloc: Global, out: &mut Vec<u8>, event: &Event) -> Result<(), AllocError>
    ensures ok { OnOk result (out.new.items ≡ out.old.items ++ spec.spaced (spec.event_words (event_view event.now))) }
    ensures fits { OnOk result (fits.FitsEvent (event_view event.now)) }
    ensures err { OnErr result (StartsWith out.new.items out.old.items) }
{
    match event {
        Event::Up(node) => {
            push_keyword(out, HistoryKeyword::Up)?;
            push_number(out, u64::from(*node))
        }
        Event::Down(session) => {
            push_keyword(out, HistoryKeyword::Down)?;
            push_number(out, u64::from(*session))
        }
        Event::Receive(session, dest, dist) => {
            push_keyword(out, HistoryKeyword::Receive)?;
            push_number(out, u64::from(*session))?;
            push_number(out, u64::from(*dest))?;
            push_number(out, u64::from(*dist))
        }
        Event::Take(session, max) => {
            push_keyword(out, HistoryKeyword::Take)?;
            push_number(out, u64::from(*session))?;
            push_number(out, u64::from(*max))
        }
        Event::SetImport(node, filter) => {
            push_keyword(out, HistoryKeyword::Import)?;
            push_number(out, u64::from(*node))?;
            push_filter(alloc, out, filter)
        }
        Event::SetExport(node, filter) => {
            push_keyword(out, HistoryKeyword::Export)?;
            push_number(out, u64::from(*node))?;
            push_filter(alloc, out, filter)
        }
        Event::Show(node) => {
            push_keyword(out, HistoryKeyword::Show)?;
            push_number(out, u64::from(*node))
        }
    }
}

/// Adds the words through whom a route goes.
fn push_via(out: &mut Vec<u8>, via: Via) -> Result<(), AllocError>
    ensures ok { OnOk result (out.new.items ≡ out.old.items ++ spec.spaced (spec.via_words via)) }
    ensures fits { OnOk result (fits.FitsVia via) }
    ensures err { OnErr result (StartsWith out.new.items out.old.items) }
{
    match via {
        Via::Local => push_keyword(out, HistoryKeyword::Local),
        Via::Node(node) => {
            push_keyword(out, HistoryKeyword::Via)?;
            push_number(out, u64::from(node))
        }
        Via::Nowhere => push_keyword(out, HistoryKeyword::Nowhere),
    }
}

/// Adds the word of a message.
fn push_message(out: &mut Vec<u8>, message: Message) -> Result<(), AllocError>
    ensures ok { OnOk result (out.new.items ≡ out.old.items ++ 32 ∷ spec.message_word message) }
    ensures fits { OnOk result (fits.FitsMessage message) }
    ensures err { OnErr result (StartsWith out.new.items out.old.items) }
{
    push_number(out, u64::from(message.dest))?;
    out.push(b':')?;
    push_decimal(out, u64::from(message.dist))
}

/// Adds the words of messages, in order.
pub fn push_messages(out: &mut Vec<u8>, messages: &[Message]) -> Result<(), AllocError>
    ensures ok { OnOk result (out.new.items ≡ out.old.items ++ spec.spaced (map spec.message_word messages.now)) }
    ensures fits { OnOk result (All fits.FitsMessage messages.now) }
    ensures err { OnErr result (StartsWith out.new.items out.old.items) }
{
    for message in messages {
        push_message(out, *message)?;
    }
    Ok(())
}

/// Adds the words of a reply.
pub fn push_reply(out: &mut Vec<u8>, reply: ReplyRef<'_>) -> Result<(), AllocError>
    ensures ok { OnOk result (out.new.items ≡ out.old.items ++ spec.spaced (spec.reply_words (whole_reply reply.entry))) }
    ensures fits { OnOk result (fits.FitsReply (whole_reply reply.entry)) }
    ensures err { OnErr result (StartsWith out.new.items out.old.items) }
{
    match reply {
        ReplyRef::Opened(session) => {
            push_keyword(out, HistoryKeyword::Opened)?;
            push_number(out, u64::from(session))
        }
        ReplyRef::Done { changed } => {
            push_keyword(out, HistoryKeyword::Done)?;
            push_number(out, u64::from(changed))
        }
        ReplyRef::Messages(messages) => {
            push_keyword(out, HistoryKeyword::Messages)?;
            push_messages(out, messages)
        }
        ReplyRef::Route { dist, via } => {
            push_keyword(out, HistoryKeyword::Route)?;
            push_number(out, u64::from(dist))?;
            push_via(out, via)
        }
        ReplyRef::Refused(why) => {
            push_keyword(out, HistoryKeyword::Refused)?;
            push_word(out, why.code().as_bytes())
        }
    }
}

/// Adds the line of an entry at its position, without a line feed.
pub fn push_entry(
    alloc: Global,
    out: &mut Vec<u8>,
    at: u64,
    entry: EntryRef<'_>,
) -> Result<(), AllocError>
    ensures ok { OnOk result (out.new.items ≡ out.old.items ++ spec.entry_line at (entry_view (whole_entry entry.entry))) }
    ensures fits { OnOk result (fits.FitsEntry (entry_view (whole_entry entry.entry))) }
    ensures err { OnErr result (StartsWith out.new.items out.old.items) }
{
    push_decimal(out, at)?;
    push_event(alloc, out, entry.event)?;
    push_reply(out, entry.reply)
}

/// Adds the words of prefixes, in order.
fn push_prefixes(alloc: Global, out: &mut Vec<u8>, prefixes: &[Prefix]) -> Result<(), AllocError>
    ensures ok { OnOk result (out.new.items ≡ out.old.items ++ spec.spaced (map prefix_text prefixes.now)) }
    ensures fits { OnOk result (All (λ bits. length bits ≤ address_length) prefixes.now) }
    ensures err { OnErr result (StartsWith out.new.items out.old.items) }
{
    for prefix in prefixes {
        push_prefix(alloc, out, *prefix)?;
    }
    Ok(())
}

/// Adds the word of a prefix.
fn push_prefix(alloc: Global, out: &mut Vec<u8>, prefix: Prefix) -> Result<(), AllocError>
    ensures ok { OnOk result (out.new.items ≡ out.old.items ++ 32 ∷ prefix_text prefix) }
    ensures fits { OnOk result (length prefix ≤ address_length) }
    ensures err { OnErr result (StartsWith out.new.items out.old.items) }
{
    // For the proof alone, which needs what its contract says.
    let _len = prefix.len();
    let text = format!(in alloc; "{prefix}")?;
    push_word(out, text.as_bytes())
}

/// Adds the words of an opening and of a number of entries, each after a space.
pub fn push_opening_words(
    alloc: Global,
    out: &mut Vec<u8>,
    opening: &Opening,
    limit: u32,
) -> Result<(), AllocError>
    requires { (1 ≤ limit) × (limit ≤ largest_limit) }
    ensures ok { OnOk result (out.new.items ≡ out.old.items ++ spec.spaced (spec.opening_words opening.now limit)) }
    ensures fits { OnOk result (fits.FitsOpening opening.now limit) }
    ensures err { OnErr result (StartsWith out.new.items out.old.items) }
{
    push_number(out, u64::from(opening.size()))?;
    push_number(out, u64::from(opening.me()))?;
    push_number(out, u64::from(limit))?;
    push_prefixes(alloc, out, opening.prefixes())
}

/// Adds the line of an opening and of the most entries that the history takes, without a line feed.
pub fn push_opening(
    alloc: Global,
    out: &mut Vec<u8>,
    opening: &Opening,
    limit: u32,
) -> Result<(), AllocError>
    requires { (1 ≤ limit) × (limit ≤ largest_limit) }
    ensures ok { OnOk result (out.new.items ≡ out.old.items ++ spec.opening_line opening.now limit) }
    ensures fits { OnOk result (fits.FitsOpening opening.now limit) }
    ensures err { OnErr result (StartsWith out.new.items out.old.items) }
{
    out.extend_from_slice(MARK.as_bytes())?;
    push_opening_words(alloc, out, opening, limit)
}

/// Adds the first line of a history's text: what the router was opened with, and the most entries that the history takes.
pub fn write_opening(
    alloc: Global,
    out: &mut Vec<u8>,
    opening: &Opening,
    limit: u32,
) -> Result<(), AllocError>
    requires { (1 ≤ limit) × (limit ≤ largest_limit) }
    ensures ok { OnOk result (out.new.items ≡ out.old.items ++ spec.opening_line opening.now limit ++ 10 ∷ []) }
    ensures fits { OnOk result (fits.FitsOpening opening.now limit) }
    ensures err { OnErr result (StartsWith out.new.items out.old.items) }
{
    push_opening(alloc, out, opening, limit)?;
    Ok(out.push(b'\n')?)
}

/// Adds the line of an entry at its position.
pub fn write_entry(
    alloc: Global,
    out: &mut Vec<u8>,
    at: u64,
    entry: EntryRef<'_>,
) -> Result<(), AllocError>
    ensures ok { OnOk result (out.new.items ≡ out.old.items ++ spec.entry_line at (entry_view (whole_entry entry.entry)) ++ 10 ∷ []) }
    ensures fits { OnOk result (fits.FitsEntry (entry_view (whole_entry entry.entry))) }
    ensures err { OnErr result (StartsWith out.new.items out.old.items) }
{
    push_entry(alloc, out, at, entry)?;
    Ok(out.push(b'\n')?)
}
