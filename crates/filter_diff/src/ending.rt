use filter_code::Outcome;

/// How the runs on some routes end.
#[derive(Clone, Copy, PartialEq, Eq)]
pub enum RunEnding {
    /// Each route is accepted with the metric that it was received with.
    Unchanged,
    /// Each run has this outcome.
    Fixed(Outcome),
}
