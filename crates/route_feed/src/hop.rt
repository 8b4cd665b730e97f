//! Where packets go.

/// Where packets for a prefix go: to this neighbour, by a way of this length to the node that has the prefix, 1 to less than the size of the domain.
#[derive(Clone, Copy)]
pub struct Hop {
    /// The neighbour.
    pub node: u16,
    /// The distance.
    pub dist: u16,
}
