//! A command of the domain's script.
ghost use Rattle.std.specs.Prelude.{◌≡◌, true};
ghost use Rattle.domain_cmds.specs.Sizes.{is_size};

use operator_cmds::Direction;
use prefix_patterns::Prefix;

/// The number of nodes of a domain.
#[derive(Clone, Copy)]
pub struct DomainSize {
    /// 2 to 250.
    pub nodes: u16,
    ghost fits: { is_size nodes ≡ true },
}

/// One command with the words after it. Contracts see it as a `CommandView`. Whether there are such nodes is judged by the script.
#[derive(Drop)]
pub enum DomainCommand<'a> {
    /// `domain N`: a domain of N nodes.
    Domain(DomainSize),
    /// `prefix V P`: the prefix of a node.
    Prefix {
        /// V.
        node: u16,
        /// P.
        prefix: Prefix,
    },
    /// `load NAME TEXT`: a filter by its text.
    Load {
        /// NAME.
        name: &'a [u8],
        /// TEXT, from its first byte that is no blank to the end of the line.
        text: &'a [u8],
    },
    /// `code NAME HEX`: a filter by its code file.
    Code {
        /// NAME.
        name: &'a [u8],
        /// The bytes that HEX writes.
        bytes: Vec<u8>,
    },
    /// `link U W` and `cut U W`: two nodes are neighbours from now on, or no more.
    Link {
        /// Whether they are.
        linked: bool,
        /// U.
        u: u16,
        /// W.
        w: u16,
    },
    /// `import U W NAME` and `export U W NAME`: a filter of what the first node receives from the second, or tells it.
    Use {
        /// Which of both.
        direction: Direction,
        /// U.
        u: u16,
        /// W.
        w: u16,
        /// NAME.
        name: &'a [u8],
    },
    /// `anew U`: all links of a node are cut and made again.
    Anew(u16),
    /// `mark`: remembers all routes.
    Mark,
    /// `json`: the whole domain, for programs.
    Json,
    /// A question.
    Ask(Question),
}

/// A question, after which the domain is what it was.
#[derive(Clone, Copy)]
pub enum Question {
    /// `route U V`: the first node's route to the second.
    Route(u16, u16),
    /// `path U V`: the nodes on the way from the first node to the second.
    Path(u16, u16),
    /// `table U`: all routes of a node.
    Table(u16),
    /// `draw V`: a picture of all routes to a node.
    Draw(u16),
    /// `draw V changes`: the same, which shows who may feel what was done since the last `mark`.
    DrawChanges(u16),
    /// `reach`: how far routes go, and how soon all are right.
    Reach,
    /// `changes`: the routes that are not what they were at the last `mark`.
    Changes,
    /// `failures`: what the failure of each link changes, by itself.
    Failures,
    /// `failures nodes`: what the failure of each node changes, by itself.
    NodeFailures,
    /// `settle`: the routers exchange messages until none is left.
    Settle,
}
