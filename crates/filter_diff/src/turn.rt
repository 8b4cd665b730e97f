use crate::ending::RunEnding;

/// What an instruction does on all routes of a class.
#[derive(Clone, Copy)]
pub(crate) enum Turn {
    /// The run goes on.
    On,
    /// The run ends.
    Ended(RunEnding),
    /// It takes more bits of the prefix to tell.
    AsksBits,
    /// It takes the metric to tell.
    AsksMetric,
}
