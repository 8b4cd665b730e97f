ghost use Rattle.std.specs.Prelude.{◌≡◌};
ghost use Rattle.filter_diff.specs.Marking.{extent_of};

use crate::turn::Turn;

/// How far the runs on the routes of a class were marked.
#[derive(Clone, Copy)]
pub(crate) enum Extent {
    /// All that they come to is marked.
    Whole,
    /// It takes more bits of the prefix to go on.
    AsksBits,
    /// It takes the metric to go on.
    AsksMetric,
}

/// How far runs are marked that do not go on.
pub(crate) fn extent_of(turn: Turn) -> Extent
    ensures { result ≡ extent_of turn }
{
    match turn {
        Turn::Ended(_) => Extent::Whole,
        Turn::AsksMetric => Extent::AsksMetric,
        _ => Extent::AsksBits,
    }
}
