//! Entries as text, for people: the words of a script's commands and of its answers.
//!
//! **An entry shows itself with its session** (`recv 1 7 3: done 1`), where a script names the neighbour, since the same neighbour has other
//! sessions before and after.

use crate::entry::EntryRef;
use netchange_core::{Event, Message, ReplyRef, Via};
use std::fmt;

impl<'a> fmt::Display for EntryRef<'a> {
    /// The event and its reply, as `recv 1 7 3: done 1`. `recv`, `take` and `down` show their session, where a script names the
    /// neighbour that has it; a filter is shown by its budget and its depth.
    fn fmt<W: fmt::Write>(&self, f: &mut fmt::Formatter<W>) -> fmt::Result {
        write_event(f, self.event)?;
        f.write_str(": ")?;
        write_reply(f, self.reply)
    }
}

/// The words of an event.
fn write_event<W: fmt::Write>(f: &mut fmt::Formatter<W>, event: &Event) -> fmt::Result {
    match event {
        Event::Up(node) => write!(f, "up {node}"),
        Event::Down(session) => write!(f, "down {session}"),
        Event::Receive(session, dest, dist) => write!(f, "recv {session} {dest} {dist}"),
        Event::Take(session, max) => write!(f, "take {session} {max}"),
        Event::SetImport(node, filter) => {
            let budget = filter.budget();
            let depth = filter.depth();
            write!(f, "import {node} verified {budget} {depth}")
        }
        Event::SetExport(node, filter) => {
            let budget = filter.budget();
            let depth = filter.depth();
            write!(f, "export {node} verified {budget} {depth}")
        }
        Event::Show(node) => write!(f, "show {node}"),
    }
}

/// The words of a reply.
fn write_reply<W: fmt::Write>(f: &mut fmt::Formatter<W>, reply: ReplyRef<'_>) -> fmt::Result {
    match reply {
        ReplyRef::Opened(session) => write!(f, "opened {session}"),
        ReplyRef::Done { changed } => write!(f, "done {changed}"),
        ReplyRef::Messages(messages) => write_messages(f, messages),
        ReplyRef::Route { dist, via } => write_route(f, dist, via),
        ReplyRef::Refused(why) => {
            let code = why.code();
            write!(f, "refused {code}")
        }
    }
}

/// The messages that left a queue.
fn write_messages<W: fmt::Write>(f: &mut fmt::Formatter<W>, messages: &[Message]) -> fmt::Result {
    f.write_str("messages")?;
    for message in messages {
        let dest = message.dest;
        let dist = message.dist;
        write!(f, " {dest}:{dist}")?;
    }
    Ok(())
}

/// A route.
fn write_route<W: fmt::Write>(f: &mut fmt::Formatter<W>, dist: u16, via: Via) -> fmt::Result {
    match via {
        Via::Local => write!(f, "route {dist} local"),
        Via::Node(node) => write!(f, "route {dist} via {node}"),
        Via::Nowhere => write!(f, "route {dist} none"),
    }
}
