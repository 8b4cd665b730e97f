//! A single failure, and what it changes.

/// What fails, and nothing else with it.
#[derive(Clone, Copy)]
pub(crate) enum Failing {
    /// The link between two nodes, of which the first has the lesser number.
    Link(u16, u16),
    /// A node, with all its links.
    Node(u16),
}

/// What a failure changes.
#[derive(Clone, Copy)]
pub(crate) struct FailureEffect {
    /// What fails.
    pub(crate) what: Failing,
    /// How many routes have another distance or next hop.
    pub(crate) changed: u32,
    /// How many of these are no more.
    pub(crate) lost: u32,
    /// To how many nodes some distance is another.
    pub(crate) moved: u32,
    /// After how many rounds of `settle` all is told, at most.
    pub(crate) rounds: u16,
    /// Below which distance none is another: the number of nodes, where none is at all.
    pub(crate) still: u16,
}
