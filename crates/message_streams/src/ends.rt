//! Why a reader hands out no more.
ghost use Rattle.std.specs.Prelude.{◌≡◌};
ghost use Rattle.message_streams.specs.Ends as spec;

use thiserror::Error;

/// Why a reader of a link handed out no line.
#[derive(Clone, Copy, Debug, PartialEq, Eq, Error)]
pub enum StreamEnd {
    /// The stream ended, after a whole line.
    #[error("the stream ended")]
    Ended,
    /// The stream ended within a line, which is not looked at.
    #[error("the stream ended within a line")]
    Unfinished,
    /// A line has more than 64 bytes, its line feed counted. The first 64 of them are not looked at; what follows is read as a line.
    #[error("the line has more than 64 bytes")]
    TooLong,
    /// The stream could not be read.
    #[error("the stream could not be read")]
    Read,
}

impl StreamEnd {
    /// Whether the reader hands out nothing from then on: it does, after a line that was too long.
    pub fn is_lasting(self) -> bool
        ensures { result ≡ spec.is_lasting self }
    {
        match self {
            StreamEnd::TooLong => false,
            _ => true,
        }
    }
}
