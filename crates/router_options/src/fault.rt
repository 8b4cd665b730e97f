//! What is wrong with the options of a router.
use std::alloc::{AllocError, AllocFailed};
use thiserror::Error;

/// Why the numbers of a router are refused: the first that is wrong.
#[derive(Clone, Copy, Debug, Error)]
pub enum NumberFault {
    /// A domain has too few or too many nodes: it has this many.
    #[error("a domain has 2 to 250 nodes, and not {0}")]
    Size(u32),
    /// The router's node is not in the domain.
    #[error("node {node} is not in the domain, whose nodes are 0 to {last}")]
    Node {
        /// The router's node.
        node: u32,
        /// The last node of the domain.
        last: u32,
    },
    /// A router has no such room for entries of its history in memory.
    #[error("a router has room for 2048 to 1000000 entries in memory, and not {0}")]
    Limit(u32),
    /// Fewer messages may wait for a neighbour than wait for each one that comes up.
    #[error("{least} messages wait for a neighbour that comes up, and not more than {queue} may")]
    Queue {
        /// The most messages that may wait.
        queue: u32,
        /// The least number of them that may be allowed.
        least: u32,
    },
    /// No segment of the history would be kept.
    #[error("1 segment is kept or more")]
    Segments,
    /// This many segments are to be kept of a history that is not saved.
    #[error("the history is not saved, so {0} segments of it cannot be kept")]
    Unsaved(u32),
    /// A link that was closed would be opened again at once, and over and over where its files open without waiting.
    #[error("a link is opened again after 1 second or more")]
    Retry,
    /// The router may be silent for longer than an hour.
    #[error("a HOLD is 3600 seconds or fewer")]
    Hold(u32),
    /// Memory was refused.
    #[error("out of memory")]
    Memory,
}

/// Why a node is refused.
#[derive(Clone, Copy, Debug, Error)]
pub enum NodeFault {
    /// It is not in the domain.
    #[error("is not in the domain, whose nodes are 0 to {last}")]
    Outside {
        /// The last node of the domain.
        last: u16,
    },
    /// It is the router itself, where a neighbour is wanted.
    #[error("is the router itself")]
    Itself,
}

/// Why an option with a node is refused: a prefix, the use of a filter, or a link.
#[derive(Clone, Copy, Debug, Error)]
pub enum OptionFault {
    /// It is not of its form.
    #[error("the form is W=IN,OUT of a link, W=NAME of a filter's use, V=PREFIX of a prefix, and IN,OUT or IN,OUT,look of a control")]
    Form,
    /// Its node is refused.
    #[error("node {node} {why}")]
    Node {
        /// The node.
        node: u16,
        /// Why.
        why: NodeFault,
    },
    /// Its name is that of no filter.
    #[error("no filter has this name")]
    UnknownFilter,
    /// An earlier option of its kind is of the same node.
    #[error("an earlier option of this kind names node {0} too")]
    Twice(u16),
    /// Memory was refused.
    #[error("out of memory")]
    Memory,
}

impl From<AllocError> for NumberFault {
    ghost use Rattle.std.specs.Prelude.{◌≡◌};
    ghost use Rattle.router_options.specs.declared.fault.NumberFault.TheVariants.{Memory};

    ghost from_gives = { λ _ fault. fault ≡ Memory };

    fn from(_: AllocError) -> NumberFault {
        NumberFault::Memory
    }
}

impl From<AllocError> for OptionFault {
    ghost use Rattle.std.specs.Prelude.{◌≡◌};
    ghost use Rattle.router_options.specs.declared.fault.OptionFault.TheVariants.{Memory};

    ghost from_gives = { λ _ fault. fault ≡ Memory };

    fn from(_: AllocError) -> OptionFault {
        OptionFault::Memory
    }
}

impl<T: Drop> From<AllocFailed<T>> for OptionFault {
    ghost use Rattle.std.specs.Prelude.{◌≡◌};
    ghost use Rattle.router_options.specs.declared.fault.OptionFault.TheVariants.{Memory};

    ghost from_gives = { λ _ fault. fault ≡ Memory };

    fn from(_: AllocFailed<T>) -> OptionFault {
        OptionFault::Memory
    }
}
