//! How a session ends.
//!
//! **`unsent` is a `Messages`**, the list of messages that replies have. `into_vec` gives its vector without taking memory.

use netchange_core::{Message, Messages};

/// Why a session ended.
#[derive(Clone, Copy, PartialEq, Eq)]
pub enum Cause {
    /// All its turns were used up.
    Turns,
    /// The link answered that it has ended.
    LinkEnded,
    /// The link failed.
    LinkFault,
    /// The router refused a call as stale (N3): the neighbour's session is over.
    Stale,
    /// The router's history is full (J1).
    Full,
    /// The memory for a call was refused (J2).
    Memory,
}

/// How a reader of a link ended.
#[derive(Clone, Copy, PartialEq, Eq)]
pub struct ReadEnd {
    /// Why it ended.
    pub cause: Cause,
    /// How many messages it entered. One that the router refused was entered too.
    pub entered: u32,
    /// The message that the link handed out and that was not entered, if there is one.
    pub lost: Option<Message>,
}

/// How a writer to a link ended.
#[derive(Drop)]
pub struct WriteEnd {
    /// Why it ended.
    pub cause: Cause,
    /// How many messages the link accepted.
    pub sent: u64,
    /// What was taken from the router and not sent, in order.
    pub unsent: Messages,
}
