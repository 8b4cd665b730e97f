use crate::ending::RunEnding;
use prefix_patterns::Prefix;

/// What was found of the routes of a part.
#[derive(Clone, Copy, PartialEq, Eq)]
pub enum PartFinding {
    /// The runs of the old code end in the first way, those of the new one in the second, and these differ.
    Differ(RunEnding, RunEnding),
    /// The search ended before it could tell.
    Undecided,
}

/// A part of the routes: those whose prefix lies within one prefix, and whose length and metric are in two ranges.
#[derive(Clone, Copy)]
pub struct RoutePart {
    /// The prefix within which the prefixes lie.
    pub prefix: Prefix,
    /// The least length of a prefix.
    pub shortest: u8,
    /// The greatest length of a prefix.
    pub longest: u8,
    /// The least metric received.
    pub least: u32,
    /// The greatest metric received.
    pub greatest: u32,
    /// What was found of them.
    pub finding: PartFinding,
}
