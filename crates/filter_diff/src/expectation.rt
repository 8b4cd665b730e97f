//! What is expected of the runs of a code on some routes.
ghost use Rattle.std.specs.Prelude.{◌≡◌, ◌&&◌, nat_le};
ghost use Rattle.filter_code.specs.RouteView.{RouteView};
ghost use Rattle.prefix_patterns.specs.Matching.{matches};
ghost use Rattle.filter_diff.specs.Endings.{outcome_at};

use crate::ending::RunEnding;
use filter_code::Outcome;
use prefix_patterns::{Pattern, Prefix};

/// Routes by their prefix and the metric received, and how runs on them are to end.
#[derive(Clone, Copy)]
pub struct Expectation {
    /// Their prefixes match this pattern.
    pub pattern: Pattern,
    /// The least metric received.
    pub least: u32,
    /// The greatest metric received.
    pub greatest: u32,
    /// How the runs are to end.
    pub ending: RunEnding,
}

impl Expectation {
    /// Whether it says something of the routes with this metric.
    pub(crate) fn has_metric(&self, metric: u32) -> bool
        ensures { result ≡ (nat_le self.now.least metric && nat_le metric self.now.greatest) }
    {
        self.least <= metric && metric <= self.greatest
    }

    /// Whether it says something of this route.
    pub(crate) fn covers(&self, prefix: &Prefix, metric: u32) -> bool
        ensures { result ≡ (matches prefix.now self.now.pattern && (nat_le self.now.least metric && nat_le metric self.now.greatest)) }
    {
        self.pattern.matches(prefix) && self.has_metric(metric)
    }
}

/// How a run ends on a route with this metric.
pub(crate) fn outcome_of(ending: RunEnding, metric: u32) -> Outcome
    ensures { (route : RouteView) → route.metric ≡ metric → result ≡ outcome_at route ending }
{
    match ending {
        RunEnding::Unchanged => Outcome::Accept(metric),
        RunEnding::Fixed(outcome) => outcome,
    }
}
