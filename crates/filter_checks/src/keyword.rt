//! The fixed words of a test file.
ghost use Rattle.std.specs.Prelude.{◌≡◌};
ghost use Rattle.std.specs.Str.{bytes_eq};
ghost use Rattle.filter_checks.specs.Keywords as spec;

use line_protocol::{Spelled, first_spelled};

/// A word that says what follows it.
#[derive(Clone, Copy)]
pub(crate) enum TestKeyword {
    /// `filter`
    Filter,
    /// `size`
    Size,
    /// `every`
    Every,
    /// `metric`
    Metric,
    /// `->`
    Arrow,
    /// `accept`
    Accept,
    /// `reject`
    Reject,
}

/// All of them.
static KEYWORDS: [TestKeyword; 7] = [
    TestKeyword::Filter,
    TestKeyword::Size,
    TestKeyword::Every,
    TestKeyword::Metric,
    TestKeyword::Arrow,
    TestKeyword::Accept,
    TestKeyword::Reject,
];

impl Spelled for TestKeyword {
    ghost use Rattle.filter_checks.specs.Keywords.{keyword_text};

    ghost spelling = { keyword_text };

    fn text(&self) -> &'static str {
        match self {
            TestKeyword::Filter => "filter",
            TestKeyword::Size => "size",
            TestKeyword::Every => "every",
            TestKeyword::Metric => "metric",
            TestKeyword::Arrow => "->",
            TestKeyword::Accept => "accept",
            TestKeyword::Reject => "reject",
        }
    }
}

/// The keyword that is written so.
#[tactic(auto, unfolding(crate::specs::Keywords::keyword_in))]
pub(crate) fn find_keyword(word: &[u8]) -> Option<TestKeyword>
    ensures { spec.keyword_in word.now ≡ result }
{
    first_spelled(&KEYWORDS, word)
}

/// Whether a word is `every`.
pub(crate) fn is_every(word: &[u8]) -> bool
    ensures { result ≡ bytes_eq (spec.keyword_text TestKeyword.Every) word.now }
{
    TestKeyword::Every.text().as_bytes() == word
}
