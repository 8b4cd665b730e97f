//! A message on its way.

use netchange_core::Message;

/// A message on its way between two nodes.
#[derive(Clone, Copy)]
pub(crate) struct Sent {
    /// The node that sent it.
    pub(crate) from: u16,
    /// The node that will receive it.
    pub(crate) to: u16,
    /// What it says.
    pub(crate) message: Message,
}
