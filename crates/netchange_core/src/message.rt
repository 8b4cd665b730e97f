//! What routers tell one another.
//!
//! **A message names its own type, `Messages`, in a reply**, whose view is the list. Two vectors with the same items are never known to be equal,
//! and a history compares replies.

ghost use Rattle.std.specs.Prelude.{◌≡◌, ◌↔◌, IsTrue};

use std::marker::Model;

/// A router tells a neighbour its distance to a node.
#[derive(Clone, Copy, PartialEq, Eq)]
pub struct Message {
    /// The node, by number.
    pub dest: u16,
    /// The distance, 0 to the size of the domain, which says that the node cannot be reached.
    pub dist: u16,
}

/// Messages in order. A contract sees them as their list.
#[derive(Drop)]
pub struct Messages {
    items: Vec<Message>,
}

impl Model for Messages {
    ghost use Rattle.std.specs.Prelude.{List};
    ghost use Rattle.netchange_core.specs.declared.message.Message.{Message};

    ghost Value = { List Message };

    ghost view = { λ m. m.items.items };
}

impl Messages {
    /// The messages of a vector, in its order.
    pub fn from_vec(items: Vec<Message>) -> Messages
        ensures { result ≡ items.items }
    {
        Messages { items }
    }

    /// The messages, in order.
    pub fn as_slice(&self) -> &[Message]
        ensures { result.now ≡ self.now }
    {
        &self.items
    }

    /// The vector of the messages.
    pub fn into_vec(self) -> Vec<Message>
        ensures { result.items ≡ self }
    {
        self.items
    }
}

/// Whether two lists of messages are the same.
pub(crate) fn are_same(one: &[Message], two: &[Message]) -> bool
    ensures { IsTrue result ↔ (one.now ≡ two.now) }
{
    if one.len() != two.len() {
        return false;
    }
    for i in 0..one.len() {
        if one[i] != two[i] {
            return false;
        }
    }
    true
}
