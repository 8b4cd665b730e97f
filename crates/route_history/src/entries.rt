//! The entries of a history, in little memory.
//!
//! **The entries of a journal are a type of their own, `Entries`, and not a slice.** All messages of all replies stand in one list, and an entry
//! keeps where its own begin and how many they are: 24 bytes an entry, and 4 a message, with no block of memory for a reply. As a slice of `Entry`
//! a history took 48 bytes an entry and a block for each Take that found messages. A contract sees the list of entries all the same, so what it
//! says of a journal does not speak of this. `entry(at)` shows an entry as an `EntryRef`: the event by reference, and the reply with its messages
//! as a part of that list. An entry that no journal has, as one that was read from a file, is an `Entry`, with messages of its own; `replay` takes
//! the entries of a journal, and `replay_list` a slice of such entries. A list of 2^32 messages or more is refused as memory is (J2).

ghost use Rattle.std.specs.Prelude.{◌≡◌, ◌==◌, ◌+◌, ◌<◌, ◌≤◌, ◌^◌, ◌++◌, ◌∷◌, [], IfOk, OnErr, OnOk, length};
ghost use Rattle.std.specs.Prelude.{option_map, slice_get, slice_index_or, vec_capacity, vec_len};
ghost use Rattle.netchange_core.specs.Calls.{carried, room_of};
ghost use Rattle.netchange_core.specs.Next.{answered, next};
ghost use Rattle.netchange_core.specs.Whole.{whole_reply};
ghost use Rattle.netchange_core.specs.declared.reply.Reply.TheVariants as reply;
ghost use Rattle.route_history.specs.Calls.{entry};
ghost use Rattle.route_history.specs.Noted.{StandsIn, kept_reply};
ghost use Rattle.route_history.specs.Whole.{whole_entry};

use crate::entry::EntryRef;
use netchange_core::{Event, EventRefusal, Message, Reply, ReplyRef, Tables, Via};
use std::alloc::{AllocError, Global};
use std::marker::Model;

/// What is kept of a reply. Of its messages, which stand among those of all entries, that is how many they are and where they
/// begin.
#[derive(Clone, Copy)]
pub(crate) enum Kept {
    Opened(u32),
    Done { changed: u16 },
    Messages { count: u16, first: u32 },
    Route { dist: u16, via: Via },
    Refused(EventRefusal),
}

/// What is kept of an entry.
#[derive(Drop)]
pub(crate) struct Note {
    pub(crate) event: Event,
    pub(crate) reply: Kept,
}

/// The entries of a history, in order. A contract sees them as their list.
///
/// An entry takes 24 bytes, and each message of its reply 4.
#[derive(Drop)]
pub struct Entries {
    notes: Vec<Note>,
    /// The messages of all replies, in order.
    messages: Vec<Message>,
}

impl Model for Entries {
    ghost use Rattle.std.specs.Prelude.{List};
    ghost use Rattle.route_history.specs.declared.entry.Entry.{Entry};
    ghost use Rattle.route_history.specs.Noted.{HaveMessagesIn, kept_entries};

    ghost Value = { List Entry };

    ghost view = { λ e. kept_entries e.messages.items e.notes.items };

    ghost invariant = { λ e. HaveMessagesIn e.messages.items e.notes.items };
}

/// Makes room for one more entry with so many messages, if a number is left for the first of them.
fn make_room(
    notes: &mut Vec<Note>,
    messages: &mut Vec<Message>,
    more: usize,
) -> Result<(), AllocError>
    ensures notes { notes.new.items ≡ notes.old.items }
    ensures messages { messages.new.items ≡ messages.old.items }
    ensures entry { OnOk result (vec_len notes.new < vec_capacity notes.new) }
    ensures more { OnOk result (vec_len messages.new + more ≤ vec_capacity messages.new) }
    ensures numbered { OnOk result (vec_len messages.new < 2 ^ 32) }
{
    if messages.len() > u32::MAX as usize {
        return Err(AllocError);
    }
    notes.reserve(1)?;
    messages.reserve(more)
}

/// Keeps messages behind those that are kept already, where there is room for them.
fn keep_messages(messages: &mut Vec<Message>, taken: &[Message]) -> Kept
    requires room { vec_len messages.old + length taken.now ≤ vec_capacity messages.old }
    requires few { length taken.now < 2 ^ 16 }
    requires numbered { vec_len messages.old < 2 ^ 32 }
    ensures messages { messages.new.items ≡ messages.old.items ++ taken.now }
    ensures kept { kept_reply messages.new.items result ≡ reply.Messages taken.now }
    ensures stands { StandsIn messages.new.items result }
{
    let kept = Kept::Messages {
        count: taken.len() as u16,
        first: messages.len() as u32,
    };
    let Ok(()) = messages.extend_from_slice(taken) else {
        unreachable!()
    };
    kept
}

/// Keeps a reply. Its messages, if it has any, stand behind those that are kept already, where there is room for them.
#[inline(always)]
fn keep(messages: &mut Vec<Message>, reply: &Reply) -> Kept
    requires room { vec_len messages.old + length (carried reply.now) ≤ vec_capacity messages.old }
    requires few { length (carried reply.now) < 2 ^ 16 }
    requires numbered { vec_len messages.old < 2 ^ 32 }
    ensures messages { messages.new.items ≡ messages.old.items ++ carried reply.now }
    ensures kept { kept_reply messages.new.items result ≡ reply.now }
    ensures stands { StandsIn messages.new.items result }
{
    match reply {
        Reply::Opened(session) => Kept::Opened(*session),
        Reply::Done { changed } => Kept::Done { changed: *changed },
        Reply::Messages(taken) => keep_messages(messages, taken.as_slice()),
        Reply::Route { dist, via } => Kept::Route {
            dist: *dist,
            via: *via,
        },
        Reply::Refused(why) => Kept::Refused(*why),
    }
}

/// A reply that is kept, with its messages where they stand among all.
#[inline(always)]
fn show(messages: &[Message], kept: Kept) -> ReplyRef<'_>
    requires { StandsIn messages.now kept }
    ensures { whole_reply result ≡ kept_reply messages.now kept }
{
    match kept {
        Kept::Opened(session) => ReplyRef::Opened(session),
        Kept::Done { changed } => ReplyRef::Done { changed },
        Kept::Messages { count, first } => {
            let first = first as usize;
            ReplyRef::Messages(&messages[first..first + usize::from(count)])
        }
        Kept::Route { dist, via } => ReplyRef::Route { dist, via },
        Kept::Refused(why) => ReplyRef::Refused(why),
    }
}

impl Entries {
    /// No entries.
    pub(crate) fn new(alloc: Global) -> Entries
        ensures { result ≡ [] }
    {
        Entries {
            notes: Vec::new(alloc),
            messages: Vec::new(alloc),
        }
    }

    /// Applies an event to tables, and adds it with their reply. After an error nothing is changed.
    #[inline(always)]
    pub(crate) fn enter(&mut self, tables: &mut Tables, event: Event) -> Result<Reply, AllocError>
        ensures done { IfOk result (λ r. next tables.old event ≡ answered tables.new r) }
        ensures entered { IfOk result (λ r. self.new ≡ self.old ++ entry event r ∷ []) }
        ensures fits { IfOk result (λ r. length (carried r) ≤ room_of tables.old event) }
        ensures opening { tables.new.opening ≡ tables.old.opening }
        ensures tables { OnErr result (tables.new ≡ tables.old) }
        ensures same { OnErr result (self.new ≡ self.old) }
    {
        let more = event.room(tables);
        make_room(&mut self.notes, &mut self.messages, more)?;
        let reply = tables.apply(&event)?;
        let kept = keep(&mut self.messages, &reply);
        self.notes.push_reserved(Note { event, reply: kept });
        Ok(reply)
    }

    /// How many entries there are.
    pub fn len(&self) -> usize
        ensures { result ≡ length self.now }
    {
        self.notes.len()
    }

    /// Whether there are none.
    pub fn is_empty(&self) -> bool
        ensures { result ≡ (length self.now == 0) }
    {
        self.notes.is_empty()
    }

    /// The entry at a position.
    #[inline(always)]
    pub fn entry(&self, at: usize) -> EntryRef<'_>
        requires { at < length self.now }
        ensures { whole_entry result ≡ slice_index_or self.now at (whole_entry result) }
    {
        let note = &self.notes[at];
        EntryRef {
            event: &note.event,
            reply: show(self.messages.as_slice(), note.reply),
        }
    }

    /// The entry at a position, if there is one.
    pub fn get(&self, at: usize) -> Option<EntryRef<'_>>
        ensures { option_map whole_entry result ≡ slice_get self.now at }
    {
        if at < self.len() {
            Some(self.entry(at))
        } else {
            None
        }
    }
}
