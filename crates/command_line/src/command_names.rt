//! The names of the commands.
ghost use Rattle.std.specs.Prelude.{◌≡◌};
ghost use Rattle.command_line.specs.CommandNames.{command_of};

/// What stands first among the words.
#[derive(Clone, Copy)]
pub enum CommandName {
    /// `check`
    Check,
    /// `diff`
    Diff,
    /// `domain`
    Domain,
    /// `eval`
    Eval,
    /// `explain`
    Explain,
    /// `filter`
    Filter,
    /// `lint`
    Lint,
    /// `list`
    List,
    /// `net`
    Net,
    /// `replay`
    Replay,
    /// `rewrite`
    Rewrite,
    /// `router`
    Router,
    /// `run`
    Run,
    /// `test`
    Test,
}

/// The command that a word names, if it names one.
#[tactic(auto, unfolding(crate::specs::CommandNames::command_of))]
pub(crate) fn command_named(word: &str) -> Option<CommandName>
    ensures { result ≡ command_of word.now }
{
    match word {
        "check" => Some(CommandName::Check),
        "diff" => Some(CommandName::Diff),
        "domain" => Some(CommandName::Domain),
        "eval" => Some(CommandName::Eval),
        "explain" => Some(CommandName::Explain),
        "filter" => Some(CommandName::Filter),
        "lint" => Some(CommandName::Lint),
        "list" => Some(CommandName::List),
        "net" => Some(CommandName::Net),
        "replay" => Some(CommandName::Replay),
        "rewrite" => Some(CommandName::Rewrite),
        "router" => Some(CommandName::Router),
        "run" => Some(CommandName::Run),
        "test" => Some(CommandName::Test),
        _ => None,
    }
}
