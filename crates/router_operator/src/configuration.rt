//! The files of a running router, which are read again.
//!
//! **Files, and the words of what is refused in them, are known above alone.** So whoever runs a router says how its files are read, and the operator
//! is told what is in them: of a file that is refused, the words that tell people why.
ghost use Rattle.std.specs.Prelude.{IfOk};

use filter_verifier::Verified;
use operator_cmds::{Direction, NamedFilters};
use router_options::LinkFiles;
use std::alloc::{AllocError, Global};
use std::sync::Arc;

/// Why what a file says is not taken.
#[derive(Drop)]
pub enum ConfigurationFault {
    /// For what these words say, which have no line feed.
    Refused(Vec<u8>),
    /// Memory was refused.
    Memory,
}

impl From<AllocError> for ConfigurationFault {
    fn from(_refused: AllocError) -> ConfigurationFault {
        ConfigurationFault::Memory
    }
}

/// That what passes between the router and a node, in a direction, goes through a filter.
#[derive(Drop)]
pub struct NamedUse {
    /// What the node tells, or what it is told.
    pub direction: Direction,
    /// The node.
    pub node: u16,
    /// The name of the filter.
    pub name: Vec<u8>,
    /// The filter.
    pub filter: Arc<Verified>,
    /// The filter lets each distance pass as it is: it is in force, too, where there is none.
    pub is_plain: bool,
}

/// What becomes of a link by a reload.
#[derive(Drop)]
pub struct LinkChange {
    /// The number of the link.
    pub link: usize,
    /// Its node.
    pub node: u16,
    /// The node had no link.
    pub is_new: bool,
    /// The files of the link from now on, if there is one.
    pub files: Option<LinkFiles>,
    /// The same.
    pub copy: Option<LinkFiles>,
}

/// The filters that a configuration says, their uses, and the links.
#[derive(Drop)]
pub struct Configured {
    /// The filters, by their names.
    pub filters: NamedFilters,
    /// Their uses.
    pub uses: Vec<NamedUse>,
    /// The links.
    pub links: Vec<LinkFiles>,
    /// The digest of the domain.
    pub digest: [u8; 8],
}

/// Where the files of a running router are read.
pub trait Configuration {
    ghost use Rattle.std.specs.Prelude.{ℕ, List};
    ghost use Rattle.router_operator.specs.OperatorView.{Names};
    ghost use Rattle.router_operator.specs.declared.configuration.NamedUse.{NamedUse};

    // The file of this name may have this text, which spells a filter for a domain of this size.
    ghost reads: { Self → ℕ → List ℕ → List ℕ → Type 0 };

    // The configuration may say these filters and these uses.
    ghost says: { Self → Names → List NamedUse → Type 0 };

    /// The text of the filter in a file, which is verified for domains of a size.
    fn read_filter(
        &self,
        alloc: Global,
        size: u16,
        file: &[u8],
    ) -> Result<Vec<u8>, ConfigurationFault>
        ensures { IfOk result (λ text. reads self.now size file.now text.items) };

    /// Reads the configuration again, and verifies all of it.
    fn read_again(&self, alloc: Global) -> Result<Configured, ConfigurationFault>
        ensures { IfOk result (λ configured. says self.now configured.filters.entries configured.uses.items) };
}
