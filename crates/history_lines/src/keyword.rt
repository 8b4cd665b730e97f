//! The fixed words of a history's text.
ghost use Rattle.std.specs.Prelude.{◌≡◌, find};
ghost use Rattle.history_lines.specs.Keywords as spec;

use line_protocol::{Spelled, first_spelled};
use netchange_core::EventRefusal;

/// A word that says what follows it.
#[derive(Clone, Copy, PartialEq, Eq)]
pub enum HistoryKeyword {
    /// `up`
    Up,
    /// `down`
    Down,
    /// `recv`
    Receive,
    /// `take`
    Take,
    /// `import`
    Import,
    /// `export`
    Export,
    /// `show`
    Show,
    /// `opened`
    Opened,
    /// `done`
    Done,
    /// `messages`
    Messages,
    /// `route`
    Route,
    /// `refused`
    Refused,
    /// `local`
    Local,
    /// `via`
    Via,
    /// `none`
    Nowhere,
}

/// All of them.
static KEYWORDS: [HistoryKeyword; 15] = [
    HistoryKeyword::Up,
    HistoryKeyword::Down,
    HistoryKeyword::Receive,
    HistoryKeyword::Take,
    HistoryKeyword::Import,
    HistoryKeyword::Export,
    HistoryKeyword::Show,
    HistoryKeyword::Opened,
    HistoryKeyword::Done,
    HistoryKeyword::Messages,
    HistoryKeyword::Route,
    HistoryKeyword::Refused,
    HistoryKeyword::Local,
    HistoryKeyword::Via,
    HistoryKeyword::Nowhere,
];

/// All reasons of a refusal.
static REFUSALS: [EventRefusal; 7] = [
    EventRefusal::NoNode,
    EventRefusal::AlreadyUp,
    EventRefusal::Stale,
    EventRefusal::BadDest,
    EventRefusal::BadDist,
    EventRefusal::OtherSize,
    EventRefusal::NoSession,
];

impl Spelled for HistoryKeyword {
    ghost use Rattle.history_lines.specs.Keywords.{keyword_text};

    ghost spelling = { keyword_text };

    fn text(&self) -> &'static str {
        match self {
            HistoryKeyword::Up => "up",
            HistoryKeyword::Down => "down",
            HistoryKeyword::Receive => "recv",
            HistoryKeyword::Take => "take",
            HistoryKeyword::Import => "import",
            HistoryKeyword::Export => "export",
            HistoryKeyword::Show => "show",
            HistoryKeyword::Opened => "opened",
            HistoryKeyword::Done => "done",
            HistoryKeyword::Messages => "messages",
            HistoryKeyword::Route => "route",
            HistoryKeyword::Refused => "refused",
            HistoryKeyword::Local => "local",
            HistoryKeyword::Via => "via",
            HistoryKeyword::Nowhere => "none",
        }
    }
}

/// The keyword that is written so.
#[tactic(auto, unfolding(crate::specs::Keywords::keyword_in))]
pub fn find_keyword(word: &[u8]) -> Option<HistoryKeyword>
    ensures { spec.keyword_in word.now ≡ result }
{
    first_spelled(&KEYWORDS, word)
}

/// The refusal that has this code.
#[tactic(auto, unfolding(crate::specs::Keywords::refusal_in))]
pub fn find_refusal(word: &[u8]) -> Option<EventRefusal>
    ensures { spec.refusal_in word.now ≡ result }
{
    first_coded(&REFUSALS, word)
}

/// The first of the refusals that has this code.
fn first_coded(refusals: &[EventRefusal], word: &[u8]) -> Option<EventRefusal>
    ensures { find (spec.has_code word.now) refusals.now ≡ result }
{
    for why in refusals {
        if why.code().as_bytes() == word {
            return Some(*why);
        }
    }
    None
}
