//! The first word of a command.
ghost use Rattle.std.specs.Prelude.{◌≡◌};
ghost use Rattle.domain_cmds.specs.Verbs as spec;

use line_protocol::{Spelled, first_spelled};

/// What a command does, as its first word says.
#[derive(Clone, Copy)]
pub enum DomainVerb {
    /// `domain`
    Domain,
    /// `prefix`
    Prefix,
    /// `load`
    Load,
    /// `code`
    Code,
    /// `link`
    Link,
    /// `cut`
    Cut,
    /// `import`
    Import,
    /// `export`
    Export,
    /// `anew`
    Anew,
    /// `route`
    Route,
    /// `path`
    Path,
    /// `table`
    Table,
    /// `draw`
    Draw,
    /// `reach`
    Reach,
    /// `mark`
    Mark,
    /// `changes`
    Changes,
    /// `failures`
    Failures,
    /// `settle`
    Settle,
    /// `json`
    Json,
}

/// All of them.
pub static VERBS: [DomainVerb; 19] = [
    DomainVerb::Domain,
    DomainVerb::Prefix,
    DomainVerb::Load,
    DomainVerb::Code,
    DomainVerb::Link,
    DomainVerb::Cut,
    DomainVerb::Import,
    DomainVerb::Export,
    DomainVerb::Anew,
    DomainVerb::Route,
    DomainVerb::Path,
    DomainVerb::Table,
    DomainVerb::Draw,
    DomainVerb::Reach,
    DomainVerb::Mark,
    DomainVerb::Changes,
    DomainVerb::Failures,
    DomainVerb::Settle,
    DomainVerb::Json,
];

impl Spelled for DomainVerb {
    ghost use Rattle.domain_cmds.specs.Verbs.{verb_text};

    ghost spelling = { verb_text };

    fn text(&self) -> &'static str {
        match self {
            DomainVerb::Domain => "domain",
            DomainVerb::Prefix => "prefix",
            DomainVerb::Load => "load",
            DomainVerb::Code => "code",
            DomainVerb::Link => "link",
            DomainVerb::Cut => "cut",
            DomainVerb::Import => "import",
            DomainVerb::Export => "export",
            DomainVerb::Anew => "anew",
            DomainVerb::Route => "route",
            DomainVerb::Path => "path",
            DomainVerb::Table => "table",
            DomainVerb::Draw => "draw",
            DomainVerb::Reach => "reach",
            DomainVerb::Mark => "mark",
            DomainVerb::Changes => "changes",
            DomainVerb::Failures => "failures",
            DomainVerb::Settle => "settle",
            DomainVerb::Json => "json",
        }
    }
}

/// The verb that is written so.
#[tactic(auto, unfolding(crate::specs::Verbs::verb_in))]
pub(crate) fn read_verb(word: &[u8]) -> Option<DomainVerb>
    ensures { spec.verb_in word.now ≡ result }
{
    first_spelled(&VERBS, word)
}
