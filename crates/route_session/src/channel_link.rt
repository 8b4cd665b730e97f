//! A link over a channel between two threads.

ghost use Rattle.std.specs.Prelude.{◌≡◌, false, IfOk};

use crate::link::{Got, Link, LinkFault};
use crossbeam_channel::{Receiver, Sender, bounded};
use netchange_core::Message;
use std::alloc::{AllocError, Global};
use std::sync::Wait;

/// How many messages a channel holds.
const CAPACITY: usize = 64;

/// One end of a channel, or no end any more.
#[derive(Drop)]
enum ChannelEnd {
    /// Messages go in here.
    Writer(Sender<Message>),
    /// Messages come out here.
    Reader(Receiver<Message>),
    /// The end was dropped.
    Closed,
}

/// A link in one direction, over a channel of 64 messages. It tells only whether it is closed.
///
/// The reader's end waits for a message, and has ended once the channel is empty and the writer's end is gone. The writer's end
/// waits for room, and fails once the reader's end is gone. Until an end is closed, it fails in the direction that it does not
/// have. To close an end drops it.
#[derive(Drop)]
pub struct ChannelLink {
    end: ChannelEnd,
}

impl ChannelLink {
    ghost use Rattle.route_session.specs.Telling.{channel_trace, empty_trace};

    /// The writer's end and the reader's end of a new channel.
    pub fn pair(alloc: Global) -> Result<(ChannelLink, ChannelLink), AllocError>
        ensures { IfOk result (λ r. (channel_trace r.0 ≡ empty_trace false) × (channel_trace r.1 ≡ empty_trace false)) }
    {
        let (sender, receiver) = bounded(alloc, CAPACITY)?;
        Ok((
            ChannelLink {
                end: ChannelEnd::Writer(sender),
            },
            ChannelLink {
                end: ChannelEnd::Reader(receiver),
            },
        ))
    }
}

impl Link for ChannelLink {
    ghost use Rattle.route_session.specs.Telling.{channel_trace};

    ghost trace = { channel_trace };

    fn recv<R: Wait>(&mut self, rt: &R) -> Result<Got, LinkFault> {
        match &self.end {
            ChannelEnd::Writer(_) => Err(LinkFault),
            ChannelEnd::Reader(receiver) => match receiver.recv(rt) {
                Ok(message) => Ok(Got::Message(message)),
                Err(_) => Ok(Got::Ended),
            },
            ChannelEnd::Closed => Ok(Got::Ended),
        }
    }

    fn send<R: Wait>(&mut self, rt: &R, message: Message) -> Result<(), LinkFault> {
        match &self.end {
            ChannelEnd::Writer(sender) => match sender.send(rt, message) {
                Ok(()) => Ok(()),
                Err(_) => Err(LinkFault),
            },
            ChannelEnd::Reader(_) | ChannelEnd::Closed => Err(LinkFault),
        }
    }

    fn close(&mut self) {
        self.end = ChannelEnd::Closed;
    }
}
