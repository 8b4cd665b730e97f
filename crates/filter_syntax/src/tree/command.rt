ghost use Rattle.std.specs.Prelude.{◌≡◌};
ghost use Rattle.filter_syntax.specs.Places.{command_place};

use crate::tree::expr::Expr;
use crate::tree::name::Name;
use crate::tree::set::SetRange;

/// What an assignment sets.
#[derive(Drop)]
pub enum Target {
    /// A variable.
    Name(Name),
    /// `rip_metric`
    RipMetric,
    /// `net`, which the grammar has and the rules of kinds refuse.
    Net,
}

/// What chooses a part of a `case`.
#[derive(Drop)]
pub enum Label {
    /// Ranges, at least one: the part is for the ints that one of them holds.
    Ranges(Vec<SetRange>),
    /// `else`, whose place this is: the part is for all other ints.
    Else(usize),
}

/// A command. The number in front is the place of its first byte; that of an assignment is the place of its name.
#[derive(Drop)]
pub enum Command {
    /// `;` alone.
    Empty(usize),
    /// Commands in braces.
    Block(usize, Vec<Command>),
    /// `if e then c`, perhaps with `else d`.
    If(usize, Expr, Box<Command>, Option<Box<Command>>),
    /// `case e { .. }`: its parts, each a label and the commands after it, in order.
    Case(usize, Expr, Vec<(Label, Vec<Command>)>),
    /// `name = e;`
    Assign(usize, Target, Expr),
    /// `accept;`, and whether a text comes before the `;`. The text itself is dropped.
    Accept(usize, bool),
    /// `reject;`, and whether a text comes before the `;`. The text itself is dropped.
    Reject(usize, bool),
}

impl Command {
    /// The place of the command's first byte.
    pub fn at(&self) -> usize
        ensures { result ≡ command_place self.now }
    {
        match self {
            Command::Empty(at) => *at,
            Command::Block(at, _) => *at,
            Command::If(at, _, _, _) => *at,
            Command::Case(at, _, _) => *at,
            Command::Assign(at, _, _) => *at,
            Command::Accept(at, _) => *at,
            Command::Reject(at, _) => *at,
        }
    }
}
