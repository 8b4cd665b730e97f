ghost use Rattle.std.specs.Prelude.{◌≡◌, ◌<◌, ◌≤◌, ◌↔◌, IsTrue, IfOk, IsErrOf, codes, length};
ghost use Rattle.prefix_patterns.specs.Fault.{set_fault_code};
ghost use Rattle.prefix_patterns.specs.Index.{IsSearchOf};
ghost use Rattle.prefix_patterns.specs.Matching.{MatchesAny, matches_any, pattern_limit};

use crate::index::PatternIndex;
use crate::leaf::{Leaf, any_leaf_matches, leaves_of};
use crate::pattern::Pattern;
use crate::prefix::Prefix;
use std::alloc::{AllocError, Global};
use std::marker::Model;
use thiserror::Error;

/// The greatest number of patterns in a set.
pub const PATTERN_LIMIT: usize = 1024;

/// The greatest number of patterns in a set that is scanned. An index takes longer to build than it would save there.
const SCAN_LIMIT: usize = 12;

/// How a set is searched: all leaves of a few patterns, or the index of many.
#[derive(Drop)]
pub(crate) enum Search {
    Scan(Vec<Leaf>),
    Index(PatternIndex),
}

/// A set of patterns. A contract sees it as the list of its patterns, in the order given.
#[derive(Drop)]
pub struct PatternSet {
    patterns: Vec<Pattern>,
    search: Search,
}

impl Model for PatternSet {
    ghost use Rattle.std.specs.Prelude.{List};
    ghost use Rattle.prefix_patterns.specs.Matching.{PrefixPattern};
    ghost use Rattle.prefix_patterns.specs.Index.{IsSearchable};

    ghost Value = { List PrefixPattern };

    ghost view = { λ s. s.patterns.items };

    ghost invariant = { λ s. IsSearchable s.patterns.items s.search };
}

/// Why a set was not built.
#[derive(Clone, Copy, Debug, PartialEq, Eq, Error)]
pub enum SetFault {
    #[error("more than 1024 patterns in a set")]
    TooManyPatterns,
    #[error("out of memory")]
    Memory,
}

impl SetFault {
    /// The fault's code: S1 for too many patterns, S2 if memory was refused.
    pub fn code(&self) -> &'static str
        ensures { result.now ≡ set_fault_code self.now }
    {
        match self {
            SetFault::TooManyPatterns => "S1",
            SetFault::Memory => "S2",
        }
    }

    /// The place of the fault: 0, since a set has no places.
    pub fn at(&self) -> usize
        ensures { result ≡ 0 }
    {
        0
    }
}

impl PatternSet {
    /// Makes the set of these patterns. Refused with S1 if and only if there are more than 1,024, and with S2 if memory is
    /// refused.
    pub fn build(alloc: Global, patterns: &[Pattern]) -> Result<PatternSet, SetFault>
        ensures built { IfOk result (λ set. set ≡ patterns.now) }
        ensures too_many { IsErrOf result SetFault.TooManyPatterns ↔ (pattern_limit < length patterns.now) }
    {
        if patterns.len() > PATTERN_LIMIT {
            return Err(SetFault::TooManyPatterns);
        }
        match PatternSet::indexed(alloc, patterns) {
            Ok(set) => Ok(set),
            Err(_) => Err(SetFault::Memory),
        }
    }

    /// Makes the index of these patterns if there are many, and their leaves otherwise.
    fn search_of(alloc: Global, patterns: &[Pattern]) -> Result<Search, AllocError>
        requires { length patterns.now ≤ pattern_limit }
        ensures { IfOk result (λ search. IsSearchOf search patterns.now) }
    {
        if patterns.len() > SCAN_LIMIT {
            Ok(Search::Index(PatternIndex::build(alloc, patterns)?))
        } else {
            Ok(Search::Scan(leaves_of(alloc, patterns)?))
        }
    }

    /// Makes the set of these patterns.
    fn indexed(alloc: Global, patterns: &[Pattern]) -> Result<PatternSet, AllocError>
        requires { length patterns.now ≤ pattern_limit }
        ensures { IfOk result (λ set. set ≡ patterns.now) }
    {
        let search = PatternSet::search_of(alloc, patterns)?;
        Ok(PatternSet {
            patterns: Vec::from_slice(alloc, patterns)?,
            search,
        })
    }

    /// The patterns, in the order given.
    pub fn patterns(&self) -> &[Pattern]
        ensures value { result.now ≡ self.now }
        ensures limit { length result.now ≤ pattern_limit }
    {
        self.patterns.as_slice()
    }

    /// Whether a prefix matches one of the patterns.
    #[inline(always)]
    pub fn matches(&self, prefix: &Prefix) -> bool
        ensures any { IsTrue result ↔ MatchesAny prefix.now self.now }
        ensures exact { result ≡ matches_any prefix.now self.now }
    {
        match &self.search {
            Search::Index(index) => index.matches(prefix),
            Search::Scan(leaves) => any_leaf_matches(leaves, prefix),
        }
    }
}
