//! Who watches a script: they are shown each line that it refuses.

use crate::filter::NamedFilters;
use filter_source::Diagnosis;
use std::alloc::Global;

/// A line of a script that is refused, and what the script knows.
#[derive(Clone, Copy)]
pub struct RefusedLine<'a> {
    /// Its number, from 1.
    pub number: u32,
    /// The line.
    pub line: &'a [u8],
    /// The line that answers it, with the line feed. It is written later.
    pub answer: &'a [u8],
    /// The number of nodes of the domain, if one is set up.
    pub size: Option<u16>,
    /// The filters that have names, if there can be any yet.
    pub filters: Option<&'a NamedFilters>,
    /// What is told of the last filter that was refused: of the one that this line gives, if the answer refuses that.
    pub diagnosis: Option<Diagnosis>,
}

/// Somebody who watches a script.
pub trait Watch {
    /// Is shown a line that is refused.
    fn see_refused(&mut self, alloc: Global, refused: &RefusedLine<'_>);
}

/// Nobody watches.
#[derive(Drop)]
pub struct NoWatcher;

impl Watch for NoWatcher {
    fn see_refused(&mut self, _alloc: Global, _refused: &RefusedLine<'_>) {}
}
