//! What is wrong with a command.
ghost use Rattle.std.specs.Prelude.{◌≡◌};

use thiserror::Error;

/// Why a line gives no command.
#[derive(Clone, Copy, Debug, Error)]
pub enum CommandFault {
    /// O1: the command is unknown, has too few or too many words, or names a filter by what is no name.
    #[error("an unknown command, a wrong number of words or a bad name")]
    Words,
    /// O2: a number is not in decimal digits, or is out of its range.
    #[error("not a number in its range")]
    Numbers,
    /// O3: the digits of a code file are not hexadecimal.
    #[error("expected pairs of hexadecimal digits")]
    Hexadecimal,
    /// O7: the line is longer than its limit.
    #[error("a line has at most 1048576 bytes")]
    TooLong,
    /// O8: the text of a prefix is no prefix.
    #[error("not a prefix")]
    Prefix,
    /// Memory was refused for the bytes of a code file.
    #[error("out of memory")]
    Memory,
}

impl CommandFault {
    ghost use Rattle.operator_cmds.specs.Faults.{fault_code};

    /// The code that names the fault: an O code, or E3 for refused memory.
    pub fn code(self) -> &'static str
        ensures { result.now ≡ fault_code self }
    {
        match self {
            CommandFault::Words => "O1",
            CommandFault::Numbers => "O2",
            CommandFault::Hexadecimal => "O3",
            CommandFault::TooLong => "O7",
            CommandFault::Prefix => "O8",
            CommandFault::Memory => "E3",
        }
    }

    /// The place of the fault in its line: 0, since none is named.
    pub fn at(self) -> usize
        ensures { result ≡ 0 }
    {
        0
    }
}

/// Why the state of the script refuses a command.
#[derive(Clone, Copy, PartialEq, Eq)]
pub enum StateFault {
    /// O4: no domain is set up.
    NoNetwork,
    /// O5: the domain or the journal is there already.
    TooLate,
    /// O6: no filter has the name.
    UnknownFilter,
}

impl StateFault {
    ghost use Rattle.operator_cmds.specs.Faults.{state_code};

    /// The code that names the fault.
    pub fn code(self) -> &'static str
        ensures { result.now ≡ state_code self }
    {
        match self {
            StateFault::NoNetwork => "O4",
            StateFault::TooLate => "O5",
            StateFault::UnknownFilter => "O6",
        }
    }
}
