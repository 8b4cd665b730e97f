use crate::ending::RunEnding;

/// What was found of a class.
#[derive(Clone, Copy)]
pub(crate) enum Found {
    /// The two codes have the same outcome on each route.
    Same,
    /// They end so on each route, and differently.
    Differ(RunEnding, RunEnding),
    /// One more bit has to be known.
    AsksBits,
    /// The metric has to be known.
    AsksMetric,
}
