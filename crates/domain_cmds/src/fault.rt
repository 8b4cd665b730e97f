//! Why the state of a domain's script refuses a command.
ghost use Rattle.std.specs.Prelude.{◌≡◌};

/// Why the state of a domain's script refuses a command.
#[derive(Clone, Copy)]
pub(crate) enum DomainStateFault {
    /// O2: the node of a `prefix` is not in the domain.
    NoSuchNode,
    /// O4: no domain is set up.
    NoDomain,
    /// O5: the domain is there already, or its nodes' prefixes are settled.
    TooLate,
    /// O6: no filter has the name.
    UnknownFilter,
    /// D1: a node is not in the domain, or is to be its own neighbour.
    BadNode,
    /// D2: the nodes are neighbours already.
    Linked,
    /// D3: the nodes are not neighbours.
    Apart,
    /// D4: the routers cannot be played any further.
    Unplayable,
}

impl DomainStateFault {
    ghost use Rattle.domain_cmds.specs.Faults.{state_code};

    /// The code that names the fault.
    pub(crate) fn code(self) -> &'static str
        ensures { result.now ≡ state_code self }
    {
        match self {
            DomainStateFault::NoSuchNode => "O2",
            DomainStateFault::NoDomain => "O4",
            DomainStateFault::TooLate => "O5",
            DomainStateFault::UnknownFilter => "O6",
            DomainStateFault::BadNode => "D1",
            DomainStateFault::Linked => "D2",
            DomainStateFault::Apart => "D3",
            DomainStateFault::Unplayable => "D4",
        }
    }
}
