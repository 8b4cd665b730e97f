//! What parts of the routes come to.
ghost use Rattle.std.specs.Prelude.{◌≡◌, ◌≤◌, count_by, length};
ghost use Rattle.std.specs.List.{list_any};
ghost use Rattle.filter_diff.specs.Answers as spec;

use crate::route_part::{PartFinding, RoutePart};

/// What a comparison comes to.
#[derive(Clone, Copy, PartialEq, Eq)]
pub enum Comparison {
    /// There are no parts: the two codes have the same outcome on every route.
    Same,
    /// They differ on some routes.
    Differ,
    /// No difference was found, and some routes are undecided.
    Undecided,
}

impl RoutePart {
    /// Whether the two codes differ on its routes.
    pub fn differs(&self) -> bool
        ensures { result ≡ spec.differs self.now }
    {
        matches!(self.finding, PartFinding::Differ(_, _))
    }

    /// Whether its routes are undecided.
    pub fn is_undecided(&self) -> bool
        ensures { result ≡ spec.undecided self.now }
    {
        matches!(self.finding, PartFinding::Undecided)
    }
}

/// Whether one of the parts differs.
pub fn has_difference(parts: &[RoutePart]) -> bool
    ensures { result ≡ list_any spec.differs parts.now }
{
    parts.iter().any(|part| part.differs())
}

/// How many of the parts are undecided.
pub fn count_undecided(parts: &[RoutePart]) -> usize
    ensures { result ≡ count_by spec.undecided parts.now }
{
    parts.iter().filter(|part| part.is_undecided()).count()
}

/// What parts come to: the same if and only if there are none.
pub fn answer_of(parts: &[RoutePart]) -> Comparison
    ensures { result ≡ spec.answer_of parts.now }
{
    if parts.is_empty() {
        Comparison::Same
    } else if has_difference(parts) {
        Comparison::Differ
    } else {
        Comparison::Undecided
    }
}
