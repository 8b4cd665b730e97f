//! The filters of a domain's script, by their names.
//!
//! **A contract sees the filters that have a name as a list of names with filters, in no order**: the value of a type with a model holds no
//! function.
ghost use Rattle.std.specs.Prelude.{◌≡◌, ◌≢◌, ℕ, List, [], IfOk, IfSome, None, OnErr};
ghost use Rattle.std.specs.Io.{StartsWith};
ghost use Rattle.std.specs.Option.{option_map};
ghost use Rattle.operator_cmds.specs.Replies.{Answers};
ghost use Rattle.operator_cmds.specs.Script.{AnswersSource, gives, lacks};
ghost use Rattle.domain_cmds.specs.State.{filter_named};

use filter_source::Diagnosis;
use filter_verifier::Verified;
use line_protocol::LineReply;
use operator_cmds::{FilterSource, NamedFilters, name_source};
use std::alloc::{AllocError, Global};
use std::collections::BTreeMap;
use std::marker::Model;
use std::sync::Arc;

/// Filters that are verified for domains of one size, by their names. A contract sees them as a `FiltersView`.
#[derive(Drop)]
pub(crate) struct Filters {
    /// The number of nodes of the domains.
    size: u16,
    /// The filter of each name.
    named: NamedFilters,
    /// What is told of the last filter that was refused.
    diagnosis: Option<Diagnosis>,
}

impl Model for Filters {
    ghost use Rattle.std.specs.Prelude.{◌≡◌, ℕ, IfSome, List};
    ghost use Rattle.domain_cmds.specs.State.{FiltersView, filter_named};

    ghost Value = { FiltersView };

    ghost view = { λ f. record { size = f.size; named = f.named.entries } };

    ghost invariant = { λ f. (name : List ℕ) → IfSome (filter_named f.named.entries name) (λ filter. filter.size ≡ f.size) };
}

impl Filters {
    /// No filters.
    pub(crate) fn new(alloc: Global, size: u16) -> Filters
        ensures { result ≡ record { size = size; named = [] } }
    {
        Filters {
            size,
            named: BTreeMap::new(alloc),
            diagnosis: None,
        }
    }

    /// Answers `load` and `code`: a source is verified, and gets a name.
    pub(crate) fn load(
        &mut self,
        alloc: Global,
        number: u32,
        name: &[u8],
        source: FilterSource<'_>,
        out: &mut Vec<u8>,
    ) -> Result<LineReply, AllocError>
        ensures size { self.new.size ≡ self.old.size }
        ensures ok { IfOk result (Answers (λ answer. AnswersSource (gives source.entry) (lacks source.entry) self.old.size number name.now
            (filter_named self.old.named) answer (filter_named self.new.named)) out.old.items out.new.items) }
        ensures err { OnErr result (StartsWith out.new.items out.old.items) }
        ensures left { OnErr result (self.new ≡ self.old) }
    {
        name_source(
            alloc,
            &mut self.named,
            number,
            name,
            source,
            self.size,
            &mut self.diagnosis,
            out,
        )
    }

    /// All of them.
    pub(crate) fn all(&self) -> &NamedFilters
        ensures { result.now.entries ≡ self.now.named }
    {
        &self.named
    }

    /// All of them, with which nothing else is done.
    pub(crate) fn into_all(self) -> NamedFilters
        ensures { result.entries ≡ self.named }
    {
        self.named
    }

    /// What is told of the last filter that was refused.
    pub(crate) fn diagnosis(&self) -> Option<Diagnosis> {
        self.diagnosis
    }

    /// A name has no filter any more.
    pub(crate) fn forget(&mut self, name: &[u8])
        ensures size { self.new.size ≡ self.old.size }
        ensures forgotten { filter_named self.new.named name.now ≡ None }
        ensures kept { (other : List ℕ) → other ≢ name.now → filter_named self.new.named other ≡ filter_named self.old.named other }
    {
        let _ = self.named.remove(name);
    }

    /// The filter of a name.
    pub(crate) fn get(&self, name: &[u8]) -> Result<Option<Arc<Verified>>, AllocError>
        ensures found { IfOk result (λ found. filter_named self.now.named name.now ≡ option_map (λ f. f.value) found) }
        ensures fits { IfOk result (λ found. IfSome found (λ f. f.value.size ≡ self.now.size)) }
    {
        match self.named.get(name) {
            Some(filter) => Ok(Some(Arc::try_clone(filter)?)),
            None => Ok(None),
        }
    }
}
