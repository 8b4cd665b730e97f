//! Why a feed does not have what is new.
ghost use Rattle.std.specs.Prelude.{◌≡◌};

use thiserror::Error;

/// Why a feed does not have what is new.
#[derive(Clone, Copy, Debug, PartialEq, Eq, Error)]
pub enum FeedFault {
    /// E2: a write failed. A part of a block may be written, and nothing follows it.
    #[error("the routes could not be written")]
    Write,
    /// E3: memory was refused. Nothing of what is new is written, and a later try may tell it.
    #[error("out of memory")]
    Memory,
}

impl FeedFault {
    ghost use Rattle.route_feed.specs.Codes.{feed_code};

    /// The fault's code, `E2` or `E3`.
    pub fn code(self) -> &'static str
        ensures { result.now ≡ feed_code self }
    {
        match self {
            FeedFault::Write => "E2",
            FeedFault::Memory => "E3",
        }
    }

    /// The fault's place: always 0.
    pub fn at(self) -> usize
        ensures { result ≡ 0 }
    {
        0
    }
}
