//! Whether something waits for a neighbour, as the answers of a router tell.
ghost use Rattle.std.specs.Prelude.{◌≡◌};
ghost use Rattle.router_daemon.specs.Steps as spec;

/// Whether something waits in a router's queue for one neighbour, as far as the router's answers are known.
///
/// Answers come in any order: what counts is the last position whose answer queued something, and the last one whose Take left the
/// queue empty. So an answer that is known late, or twice, does no harm.
#[derive(Clone, Copy, PartialEq, Eq)]
pub struct Waiting {
    /// How many entries the history had with the last one that queued something; 0 where none did. It is one more than a position.
    pub queued: u128,
    /// How many it had with the last Take that left nothing in the queue; 0 where none did.
    pub emptied: u128,
}

impl Waiting {
    /// Nothing waits.
    pub fn new() -> Waiting
        ensures { result ≡ record { queued = 0; emptied = 0 } }
    {
        Waiting {
            queued: 0,
            emptied: 0,
        }
    }

    /// The entry at this position queued something.
    pub fn note_queued(&mut self, at: u64)
        ensures { self.new ≡ spec.queued_at at self.old }
    {
        self.queued = self.queued.max(u128::from(at) + 1);
    }

    /// The entry at this position is a Take of at most `most` messages, and brought `taken` of them. One that brought fewer left
    /// nothing.
    pub fn note_taken(&mut self, at: u64, taken: usize, most: usize)
        ensures { self.new ≡ spec.taken_at at taken most self.old }
    {
        if taken < most {
            self.emptied = self.emptied.max(u128::from(at) + 1);
        }
    }

    /// Whether something may wait, where the last entry that changed a distance left so many in the history. Where all answers are
    /// known and nothing may wait, the queue is empty.
    pub fn is_some(self, changed: u128) -> bool
        ensures { result ≡ spec.waits changed self }
    {
        self.emptied < self.queued || self.emptied < changed
    }
}
