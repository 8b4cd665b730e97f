//! A command of the script.
ghost use Rattle.std.specs.Prelude.{◌≡◌, true};
ghost use Rattle.std.proofs.Props.{props};
ghost use Rattle.operator_cmds.specs.Networks.{IsLimit};
ghost use Rattle.netchange_core.specs.Openings.{is_network};

use prefix_patterns::Prefix;

/// The domain of a router, and the room of its history.
#[derive(Clone, Copy)]
pub struct Network {
    /// The number of nodes, 2 to 250.
    pub size: u16,
    /// The node that the router is, below that.
    pub me: u16,
    /// The most entries of its history, 1 to 1,000,000; `None` if it is left out.
    pub limit: Option<u32>,
    ghost nodes: { is_network size me ≡ true },
    ghost room: { IsLimit limit } by { Prim.hlevel props },
}

/// A look at the tables of a router.
#[derive(Clone, Copy)]
pub enum Look {
    /// `routes`: the route to each node.
    Routes,
    /// `neighbours`: the present session of each up neighbour.
    Neighbours,
    /// `told W`: the distance to each node that a neighbour told, and what its import filter made of it.
    Told(u16),
}

/// One command with the words after it. Contracts see it as a `CommandView`.
#[derive(Drop)]
pub enum Command<'a> {
    /// `network N ME [LIMIT]`: a domain of N nodes, of which the router is ME, and the most entries of its history.
    Network(Network),
    /// `prefix V P`: the prefix of a node.
    Prefix {
        /// V; whether there is such a node is judged by the script.
        node: u16,
        /// P.
        prefix: Prefix,
    },
    /// `load NAME TEXT`: a filter by its text.
    Load {
        /// NAME.
        name: &'a [u8],
        /// TEXT, from its first byte that is no blank to the end of the line.
        text: &'a [u8],
    },
    /// `code NAME HEX`: a filter by its code file.
    Code {
        /// NAME.
        name: &'a [u8],
        /// The bytes that HEX writes.
        bytes: Vec<u8>,
    },
    /// `import W NAME`: a filter of what a neighbour tells.
    Import {
        /// W.
        node: u16,
        /// NAME.
        name: &'a [u8],
    },
    /// `export W NAME`: a filter of what a neighbour is told.
    Export {
        /// W.
        node: u16,
        /// NAME.
        name: &'a [u8],
    },
    /// `up W`: the channel to a neighbour works.
    Up(u16),
    /// `down W`: the channel to a neighbour failed.
    Down(u16),
    /// `recv W V D`: a neighbour told a distance.
    Receive {
        /// W.
        node: u16,
        /// V, the destination.
        dest: u16,
        /// D, the distance.
        dist: u16,
    },
    /// `take W`: all messages that wait for a neighbour.
    Take(u16),
    /// `show V`: the route to a node.
    Show(u16),
    /// A look that is no event.
    Look(Look),
    /// `history FROM`: the entries from a position on.
    History(u64),
}
