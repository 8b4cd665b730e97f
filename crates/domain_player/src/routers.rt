//! The routers of a domain.

ghost use Rattle.std.specs.Prelude.{◌≡◌, ◌≢◌, ℕ, ◌+◌, ◌<◌, ◌≤◌, ◌^◌, ◌⊎◌, false, true, IfOk, OnErr, OnOk, [], length};
ghost use Rattle.filter_code.specs.Limits.{smallest_size, largest_size};
ghost use Rattle.netchange_core.specs.Best.{best, distance, route_of};
ghost use Rattle.netchange_core.specs.Next.{last_session};
ghost use Rattle.netchange_core.specs.declared.event.Event.TheVariants as event;
ghost use Rattle.routing_domain.specs.Domain.{IsQuiet, IsSame, KeepsLinksAndFilters, are_linked, opened_domain, topology};
ghost use Rattle.routing_domain.specs.Events.{cuts, enters, links};
ghost use Rattle.routing_domain.specs.Phases.{AreWithin};
ghost use Rattle.routing_domain.specs.Rest.{IsRest};
ghost use Rattle.routing_domain.specs.Weight.{weight};
ghost use Rattle.domain_player.specs.Play.{domain, opening_of, router_at};

use crate::fault::{LinkingFault, SettleFault};
use crate::filters::enter;
use crate::links::{cut_both, link_both};
use crate::opening::open_tables;
use crate::settling::{Settled, play};
use filter_verifier::Verified;
use netchange_core::{Event, Reply, Tables, Via};
use prefix_patterns::Prefix;
use std::alloc::{AllocError, Global};
use std::marker::Model;
use std::sync::Arc;

/// The routers of a domain, each with what it was told and what it has to tell. A contract sees them as the list of their worlds,
/// of which `domain` is the domain, in order and with nothing on its way.
///
/// A link is of two routers, and memory may be refused to the second after the first has changed. So where `link`, `cut` or
/// `settle` fails, the routers are closed: what is left is a domain of no nodes.
#[derive(Drop)]
pub struct Routers {
    tables: Vec<Tables>,
}

impl Model for Routers {
    ghost use Rattle.std.specs.Prelude.{List};
    ghost use Rattle.netchange_core.specs.World.{World};
    ghost use Rattle.domain_player.specs.Play.{AreRouters};

    ghost Value = { List World };

    ghost view = { λ r. r.tables.items };

    ghost invariant = { λ r. AreRouters r.tables.items };
}

impl Routers {
    /// The routers of a domain without links, one for each prefix, by number. There are 2 to 250.
    pub fn open(alloc: Global, prefixes: &[Prefix]) -> Result<Routers, AllocError>
        requires least { smallest_size ≤ length prefixes.now }
        requires most { length prefixes.now ≤ largest_size }
        ensures { IfOk result (λ r. IsSame (opened_domain (length prefixes.now) (opening_of prefixes.now)) (domain r)) }
    {
        let tables = open_tables(alloc, prefixes)?;
        Ok(Routers { tables })
    }

    /// The number of nodes, 2 to 250; 0 once the routers are closed.
    pub fn size(&self) -> u16
        ensures { result ≡ length self.now }
    {
        self.tables.len() as u16
    }

    /// Whether two nodes are neighbours.
    pub fn is_linked(&self, u: u16, w: u16) -> bool
        requires { u < length self.now }
        ensures { result ≡ are_linked (domain self.now) u w }
    {
        self.tables[usize::from(u)].present_session(w).is_some()
    }

    /// Two nodes are neighbours from now on: the first enters that the channel to the second is there, then the second that the
    /// one to the first is. After a fault the routers are closed.
    pub fn link(&mut self, u: u16, w: u16) -> Result<(), LinkingFault>
        requires from { u < length self.old }
        requires to { w < length self.old }
        requires apart { u ≢ w }
        requires unlinked { are_linked (domain self.old) u w ≡ false }
        ensures linked { OnOk result (domain self.new ≡ links (domain self.old) u w) }
        ensures spent { result ≡ Err LinkingFault.NoSession →
            ((router_at self.old u).sessions ≡ last_session) ⊎ ((router_at self.old w).sessions ≡ last_session) }
        ensures closed { OnErr result (self.new ≡ []) }
    {
        match link_both(&mut self.tables, u, w) {
            Ok(()) => Ok(()),
            Err(fault) => {
                self.tables.clear();
                Err(fault)
            }
        }
    }

    /// Two neighbours are so no more: the first enters that the channel to the second failed, then the second that the one to the
    /// first did. What they had to tell each other is dropped. After a fault the routers are closed.
    pub fn cut(&mut self, u: u16, w: u16) -> Result<(), AllocError>
        requires from { u < length self.old }
        requires to { w < length self.old }
        requires linked { are_linked (domain self.old) u w ≡ true }
        ensures cut { OnOk result (domain self.new ≡ cuts (domain self.old) u w) }
        ensures closed { OnErr result (self.new ≡ []) }
    {
        match cut_both(&mut self.tables, u, w) {
            Ok(()) => Ok(()),
            Err(fault) => {
                self.tables.clear();
                Err(fault)
            }
        }
    }

    /// What the first node is told by the second passes this filter from now on, also what it was told before. It does not
    /// matter whether they are linked. After an error nothing is changed.
    pub fn set_import(&mut self, u: u16, w: u16, filter: Arc<Verified>) -> Result<(), AllocError>
        requires from { u < length self.old }
        requires to { w < length self.old }
        requires apart { u ≢ w }
        requires fits { filter.value.size ≡ length self.old }
        ensures set { OnOk result (domain self.new ≡ enters (domain self.old) u (event.SetImport w filter)) }
        ensures same { OnErr result (self.new ≡ self.old) }
    {
        enter(&mut self.tables, u, &Event::SetImport(w, filter))
    }

    /// What the first node tells the second passes this filter from now on. It does not matter whether they are linked. After an
    /// error nothing is changed.
    pub fn set_export(&mut self, u: u16, w: u16, filter: Arc<Verified>) -> Result<(), AllocError>
        requires from { u < length self.old }
        requires to { w < length self.old }
        requires apart { u ≢ w }
        requires fits { filter.value.size ≡ length self.old }
        ensures set { OnOk result (domain self.new ≡ enters (domain self.old) u (event.SetExport w filter)) }
        ensures same { OnErr result (self.new ≡ self.old) }
    {
        enter(&mut self.tables, u, &Event::SetExport(w, filter))
    }

    /// Plays the routers until no message waits, round by round: in a round each node sends all that waits for its neighbours, and
    /// then what was sent is received, both in the order of the senders and, of one sender, of the receivers. So each link and each
    /// filter is what it was, and each router's distances are those of rest. There are at most as many rounds as nodes, and at most one
    /// more than the longest distance at rest. After a fault the routers are closed.
    pub fn settle(&mut self) -> Result<Settled, SettleFault>
        ensures quiet { OnOk result (IsQuiet (domain self.new)) }
        ensures kept { OnOk result (KeepsLinksAndFilters (domain self.old) (domain self.new)) }
        ensures rest { OnOk result ((v : ℕ) → v < length self.old → IsRest (topology (domain self.old) v) v (λ u. distance (router_at self.new u) v)) }
        ensures rounds { IfOk result (λ s. s.rounds ≤ length self.old) }
        ensures soon { IfOk result (λ s. (j : ℕ) → AreWithin j (domain self.old) → s.rounds ≤ j + 1) }
        ensures messages { IfOk result (λ s. (s.rounds ≤ s.messages) × (s.messages ≤ weight (domain self.old))) }
        ensures many { result ≡ Err SettleFault.TooManyMessages → 2 ^ 64 ≤ weight (domain self.old) }
        ensures closed { OnErr result (self.new ≡ []) }
    {
        let alloc = *self.tables.allocator();
        match play(alloc, &mut self.tables) {
            Ok(settled) => Ok(settled),
            Err(fault) => {
                self.tables.clear();
                Err(fault)
            }
        }
    }

    /// A node's route to another, as its router answers: the distance, 0 to the size of the domain, which says that there is no
    /// route, and through whom it goes.
    pub fn route(&mut self, u: u16, v: u16) -> (u16, Via)
        requires from { u < length self.old }
        requires to { v < length self.old }
        ensures route { best (router_at self.old u) v ≡ route_of result.0 result.1 }
        ensures same { self.new ≡ self.old }
    {
        match self.tables[usize::from(u)].apply(&Event::Show(v)) {
            Ok(Reply::Route { dist, via }) => (dist, via),
            _ => unreachable!(),
        }
    }
}
