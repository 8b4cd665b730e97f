//! How far a script has come: whether a domain is set up, and whether its router runs.
ghost use Rattle.std.specs.Prelude.{◌≡◌, ◌<◌, ◌≤◌, IfOk, OnOk, length, slice_set};
ghost use Rattle.netchange_core.specs.Openings.{default_opening};
ghost use Rattle.route_history.specs.Limits.{limit_or};
ghost use Rattle.route_history.specs.Limits.{largest_limit};

use netchange_core::{Opening, default_prefixes};
use operator_cmds::Network;
use prefix_patterns::Prefix;
use route_history::{Journal, LARGEST_LIMIT};
use std::alloc::{AllocError, Global};

/// A domain that is set up, while no event has opened the journal.
#[derive(Drop)]
pub struct Setup {
    /// The router's domain, node and prefixes.
    pub opening: Opening,
    /// The most entries of the journal.
    pub limit: u32,
    ghost limits: { (1 ≤ limit) × (limit ≤ largest_limit) },
}

/// How far a script has come.
#[derive(Drop)]
pub enum Stage {
    /// There is no domain yet.
    Empty,
    /// A domain is set up.
    Setting(Setup),
    /// The router runs.
    Open(Journal),
}

impl Setup {
    ghost use Rattle.operator_cmds.specs.Stages.{new_journal};

    /// A domain with the default prefixes.
    pub fn new(alloc: Global, network: Network) -> Result<Setup, AllocError>
        ensures { IfOk result (λ setup. (setup.opening ≡ default_opening network.size network.me)
            × (setup.limit ≡ limit_or network.limit)) }
    {
        let prefixes = default_prefixes(alloc, network.size)?;
        let opening = Opening::new(network.size, network.me, prefixes).unwrap();
        Ok(Setup {
            opening,
            limit: network.limit.unwrap_or(LARGEST_LIMIT),
        })
    }

    /// Sets the prefix of a node.
    pub fn set_prefix(&mut self, node: u16, prefix: Prefix)
        requires { node < self.old.opening.size }
        ensures opening { self.new.opening ≡ record self.old.opening { prefixes = slice_set self.old.opening.prefixes node prefix } }
        ensures limit { self.new.limit ≡ self.old.limit }
    {
        self.opening.set_prefix(node, prefix);
    }

    /// The journal that the first event finds.
    pub fn open(&self, alloc: Global) -> Result<Journal, AllocError>
        ensures { IfOk result (λ journal. journal ≡ new_journal self.now.opening self.now.limit) }
    {
        let opening = self.opening.copy(alloc)?;
        Journal::open(alloc, opening, self.limit)
    }
}

impl Stage {
    ghost use Rattle.operator_cmds.specs.Stages.{opened_stage, session_in, size_in};
    ghost use Rattle.router_script.specs.State.{stage_of};

    /// The number of nodes of the domain, if one is set up.
    pub fn size(&self) -> Option<u16>
        ensures { result ≡ size_in (stage_of self.now) }
    {
        match self {
            Stage::Empty => None,
            Stage::Setting(setup) => Some(setup.opening.size()),
            Stage::Open(journal) => Some(journal.opening().size()),
        }
    }

    /// The present session of a node, if it is an up neighbour.
    pub fn session(&self, node: u16) -> Option<u32>
        ensures { result ≡ session_in (stage_of self.now) node }
    {
        match self {
            Stage::Open(journal) => journal.present_session(node),
            _ => None,
        }
    }

    /// Opens the journal if a domain is set up and none is open.
    pub fn open(&mut self, alloc: Global) -> Result<(), AllocError>
        ensures { OnOk result (stage_of self.new ≡ opened_stage (stage_of self.old)) }
    {
        if let Stage::Setting(setup) = self {
            *self = Stage::Open(setup.open(alloc)?);
        }
        Ok(())
    }
}
