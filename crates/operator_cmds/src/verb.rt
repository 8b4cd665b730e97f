//! The first word of a command.
ghost use Rattle.std.specs.Prelude.{◌≡◌};
ghost use Rattle.operator_cmds.specs.Verbs as spec;

use line_protocol::{Spelled, first_spelled};

/// What a command does, as its first word says.
#[derive(Clone, Copy, PartialEq, Eq)]
pub enum Verb {
    /// `network`
    Network,
    /// `prefix`
    Prefix,
    /// `load`
    Load,
    /// `code`
    Code,
    /// `import`
    Import,
    /// `export`
    Export,
    /// `up`
    Up,
    /// `down`
    Down,
    /// `recv`
    Receive,
    /// `take`
    Take,
    /// `show`
    Show,
    /// `routes`
    Routes,
    /// `neighbours`
    Neighbours,
    /// `told`
    Told,
    /// `history`
    History,
}

/// All of them.
pub static VERBS: [Verb; 15] = [
    Verb::Network,
    Verb::Prefix,
    Verb::Load,
    Verb::Code,
    Verb::Import,
    Verb::Export,
    Verb::Up,
    Verb::Down,
    Verb::Receive,
    Verb::Take,
    Verb::Show,
    Verb::Routes,
    Verb::Neighbours,
    Verb::Told,
    Verb::History,
];

impl Spelled for Verb {
    ghost use Rattle.operator_cmds.specs.Verbs.{verb_text};

    ghost spelling = { verb_text };

    fn text(&self) -> &'static str {
        match self {
            Verb::Network => "network",
            Verb::Prefix => "prefix",
            Verb::Load => "load",
            Verb::Code => "code",
            Verb::Import => "import",
            Verb::Export => "export",
            Verb::Up => "up",
            Verb::Down => "down",
            Verb::Receive => "recv",
            Verb::Take => "take",
            Verb::Show => "show",
            Verb::Routes => "routes",
            Verb::Neighbours => "neighbours",
            Verb::Told => "told",
            Verb::History => "history",
        }
    }
}

/// The verb that is written so. Those of the events that a script has most often, but for those of `read_plain`, are found at once.
#[tactic(auto, unfolding(crate::specs::Verbs::verb_in))]
pub(crate) fn read_verb(word: &[u8]) -> Option<Verb>
    ensures { spec.verb_in word.now ≡ result }
{
    match word {
        [b'u', b'p'] => Some(Verb::Up),
        [b'd', b'o', b'w', b'n'] => Some(Verb::Down),
        [b'i', b'm', b'p', b'o', b'r', b't'] => Some(Verb::Import),
        [b'e', b'x', b'p', b'o', b'r', b't'] => Some(Verb::Export),
        _ => first_spelled(&VERBS, word),
    }
}
