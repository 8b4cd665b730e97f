//! What is wrong with a route line.
ghost use Rattle.std.specs.Prelude.{◌≡◌};

/// Why a line gives no route.
#[derive(Clone, Copy, PartialEq, Eq)]
pub enum LineFault {
    /// O1: the line has not exactly the words of a route: three, or two where the size is given.
    Words,
    /// O2: a number is not in decimal digits, or is out of its range.
    Numbers,
    /// O7: the line is longer than its limit.
    TooLong,
    /// O8: the first word is no prefix.
    Prefix,
}

impl LineFault {
    ghost use Rattle.route_answers.specs.RouteLine.{line_code};

    /// The code that names the fault in an answer.
    pub fn code(self) -> &'static str
        ensures { result.now ≡ line_code self }
    {
        match self {
            LineFault::Words => "O1",
            LineFault::Numbers => "O2",
            LineFault::TooLong => "O7",
            LineFault::Prefix => "O8",
        }
    }
}
