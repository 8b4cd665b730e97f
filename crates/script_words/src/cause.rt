//! Why a line of a script is refused, where no filter in it is.
ghost use Rattle.std.specs.Prelude.{◌≡◌, find};
ghost use Rattle.script_words.specs.Causes as spec;

/// Why a line of a script is refused, where no filter in it is.
#[derive(Clone, Copy)]
pub enum RefusalCause {
    /// O1: it is no command, or has other words than that command.
    Words,
    /// O2: a number in it is none, or out of its range.
    Number,
    /// O3: the digits of a code file are not hexadecimal.
    Hexadecimal,
    /// O4: nothing is set up yet.
    Early,
    /// O5: it comes too late.
    Late,
    /// O6: no filter has the name.
    UnknownFilter,
    /// O7: it is longer than the limit of lines.
    Long,
    /// O8: a prefix in it is none.
    Prefix,
    /// N1: the node is the router itself, or not in the domain.
    NoNode,
    /// N2: the node is up already.
    AlreadyUp,
    /// N3: the node is not up.
    NotUp,
    /// N4: the destination is not in the domain.
    NoDestination,
    /// N5: the distance is above the size of the domain.
    FarDistance,
    /// N6: the filter was verified for domains of another size.
    OtherSize,
    /// N7: no session number is left.
    NoSession,
    /// J1: the history is full.
    Full,
    /// D1: a node is not in the domain, or is to be its own neighbour.
    BadNode,
    /// D2: the nodes are neighbours already.
    Linked,
    /// D3: the nodes are not neighbours.
    Apart,
    /// D4: the routers cannot be played any further.
    Unplayable,
}

/// All of them.
pub static CAUSES: [RefusalCause; 20] = [
    RefusalCause::Words,
    RefusalCause::Number,
    RefusalCause::Hexadecimal,
    RefusalCause::Early,
    RefusalCause::Late,
    RefusalCause::UnknownFilter,
    RefusalCause::Long,
    RefusalCause::Prefix,
    RefusalCause::NoNode,
    RefusalCause::AlreadyUp,
    RefusalCause::NotUp,
    RefusalCause::NoDestination,
    RefusalCause::FarDistance,
    RefusalCause::OtherSize,
    RefusalCause::NoSession,
    RefusalCause::Full,
    RefusalCause::BadNode,
    RefusalCause::Linked,
    RefusalCause::Apart,
    RefusalCause::Unplayable,
];

impl RefusalCause {
    ghost use Rattle.script_words.specs.Causes.{cause_code};

    /// The code that names it in an answer.
    pub fn code(self) -> &'static str
        ensures { result.now ≡ cause_code self }
    {
        match self {
            RefusalCause::Words => "O1",
            RefusalCause::Number => "O2",
            RefusalCause::Hexadecimal => "O3",
            RefusalCause::Early => "O4",
            RefusalCause::Late => "O5",
            RefusalCause::UnknownFilter => "O6",
            RefusalCause::Long => "O7",
            RefusalCause::Prefix => "O8",
            RefusalCause::NoNode => "N1",
            RefusalCause::AlreadyUp => "N2",
            RefusalCause::NotUp => "N3",
            RefusalCause::NoDestination => "N4",
            RefusalCause::FarDistance => "N5",
            RefusalCause::OtherSize => "N6",
            RefusalCause::NoSession => "N7",
            RefusalCause::Full => "J1",
            RefusalCause::BadNode => "D1",
            RefusalCause::Linked => "D2",
            RefusalCause::Apart => "D3",
            RefusalCause::Unplayable => "D4",
        }
    }
}

/// The cause that a code names, if it names one.
#[tactic(auto, unfolding(crate::specs::Causes::cause_in))]
pub fn read_cause(code: &[u8]) -> Option<RefusalCause>
    ensures { spec.cause_in code.now ≡ result }
{
    first_coded(&CAUSES, code)
}

/// The first of some causes that a code names.
fn first_coded(causes: &[RefusalCause], code: &[u8]) -> Option<RefusalCause>
    ensures { find (spec.is_coded code.now) causes.now ≡ result }
{
    for cause in causes {
        if cause.code().as_bytes() == code {
            return Some(*cause);
        }
    }
    None
}
