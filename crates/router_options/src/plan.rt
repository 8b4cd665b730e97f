//! All that a running router is told.
//!
//! **`--limit` below 2,048 is refused.** Entries are forgotten 1,024 at a time, so a smaller room would be full over and over. A limit that is
//! raised in silence would not be the one that was asked for.
//!
//! **`--queue` is N or more, and 65,536 where it is left out.** An Up queues N messages: with fewer allowed, each session would end as it begins;
//! with N the Up alone ends none, since a link is closed only where more wait. A bound that grows with N, as 64 N, is small where N is: with 8
//! nodes, a neighbour that said 70,000 changes at once had the sessions of those ended who read all the time, ten times of ten.
//!
//! **`--segments` asks for `--save`.** Without a folder nothing could be kept, and whoever asks for it has forgotten a word.
//!
//! **1,000,000 stays the room where no `--limit` is given.** That is 24 MB at most, and half a second of a flood can be entered while the thread
//! that forgets does not run.
ghost use Rattle.std.specs.Prelude.{◌≡◌, IfErr, IfOk, OnErr, OnOk, MatchOption, is_some, true};
ghost use Rattle.router_options.specs.PlanView as view;
ghost use Rattle.router_options.specs.Plans as spec;
ghost use Rattle.router_options.specs.declared.fault.OptionFault.TheVariants as fault;

use crate::fault::{NodeFault, NumberFault, OptionFault};
use crate::parts::{ControlFiles, FilterUse, LinkFiles, NodePrefix};
use filter_code::{LARGEST_SIZE, SMALLEST_SIZE};
use netchange_core::{Opening, default_prefixes};
use route_history::LARGEST_LIMIT;
use std::alloc::Global;
use std::marker::Model;

/// The least number of entries that a router has room for in memory.
pub const SMALLEST_ROOM: u32 = 2_048;

/// The most messages that may wait for a neighbour, where no other bound is given. It is far above what one failure queues at a time in most
/// domains, so that a burst of changes ends no session whose neighbour reads; and 249 such queues take 65 MB.
pub const USUAL_QUEUE: u32 = 65_536;

/// Seconds: a router may be silent so long at most, unless it may be for any time.
pub const LARGEST_HOLD: u32 = 3_600;

/// Seconds: a router may be silent so long where nothing else is said.
const USUAL_HOLD: u32 = 9;

/// The numbers of a router, as they are given.
#[derive(Clone, Copy, PartialEq, Eq)]
pub struct Numbers {
    /// The number of nodes of the domain.
    pub size: u32,
    /// The node that the router is.
    pub me: u32,
    /// How many entries of its history there is room for in memory, 2,048 to 1,000,000.
    pub limit: Option<u32>,
    /// The most messages that may wait for a neighbour, as many at least as the domain has nodes.
    pub queue: Option<u32>,
    /// How many segments of its history are kept, 1 at least, where it is saved; all where none is said.
    pub segments: Option<u32>,
    /// How long a link that is closed waits before it is opened again, in seconds, 1 at least; for ever where none is said.
    pub retry: Option<u32>,
    /// How many seconds the router may be silent before its neighbours hold it for dead, at most 3,600, or 0 for any time.
    pub hold: Option<u32>,
}

/// The file by which the domain of a router was set up.
#[derive(Clone, Copy, PartialEq, Eq)]
pub struct DomainMark {
    /// The digest of the domain.
    pub digest: [u8; 8],
    /// A neighbour may have another one.
    pub allows_other: bool,
}

/// What a router is told before it begins. A node has at most one prefix that was given, one import filter, one export filter and one link,
/// and each filter that is used has a name. A contract sees it as a `PlanView`.
#[derive(Drop)]
pub struct RouterPlan {
    /// The domain, the router's node and the prefixes.
    pub opening: Opening,
    /// The nodes whose prefix was given.
    pub placed: Vec<u16>,
    /// How many entries of the history there is room for in memory.
    pub limit: u32,
    /// The most messages that may wait for a neighbour.
    pub queue: u32,
    /// The names of the filters.
    pub filters: Vec<String>,
    /// The import filters.
    pub imports: Vec<FilterUse>,
    /// The export filters.
    pub exports: Vec<FilterUse>,
    /// The links.
    pub links: Vec<LinkFiles>,
    /// Where operators are served, besides standard input.
    pub controls: Vec<ControlFiles>,
    /// The folder in which the history is saved.
    pub save: Option<String>,
    /// How many segments of it are kept there; all where none is said.
    pub segments: Option<u32>,
    /// How long a closed link waits before it is opened again, in seconds.
    pub retry: Option<u32>,
    /// How many seconds the router may be silent before its neighbours hold it for dead; 0 for any time.
    pub hold: u16,
    /// The router goes on where its standard input ends.
    pub stays: bool,
    /// The file by which its domain was set up, if one was.
    pub domain: Option<DomainMark>,
}

impl Model for RouterPlan {
    ghost use Rattle.router_options.specs.PlanView.{PlanView, IsPlan};

    ghost Value = { PlanView };

    ghost view = { λ p. record { opening = p.opening; placed = p.placed.items; limit = p.limit; queue = p.queue; filters = p.filters.items; imports = p.imports.items; exports = p.exports.items; links = p.links.items; controls = p.controls.items; save = p.save; segments = p.segments; retry = p.retry; hold = p.hold; stays = p.stays; domain = p.domain } };

    ghost invariant = { λ p. IsPlan (record { opening = p.opening; placed = p.placed.items; limit = p.limit; queue = p.queue; filters = p.filters.items; imports = p.imports.items; exports = p.exports.items; links = p.links.items; controls = p.controls.items; save = p.save; segments = p.segments; retry = p.retry; hold = p.hold; stays = p.stays; domain = p.domain }) };
}

/// Whether a domain has so many nodes.
fn is_size(size: u32) -> bool
    ensures { result ≡ spec.is_size size }
{
    SMALLEST_SIZE <= size && size <= LARGEST_SIZE
}

/// Whether a router has room for so many entries.
fn is_limit(limit: u32) -> bool
    ensures { result ≡ spec.is_limit limit }
{
    SMALLEST_ROOM <= limit && limit <= LARGEST_LIMIT
}

/// The HOLD of a router, by what is given.
fn hold_or(hold: Option<u32>) -> u32
    ensures { result ≡ spec.hold_or hold }
{
    hold.unwrap_or(USUAL_HOLD)
}

/// Looks at the numbers of a router whose history is saved or not, in order, up to the first that does not fit.
fn check_numbers(numbers: Numbers, saves: bool) -> Result<(), NumberFault>
    ensures fit { OnOk result (spec.are_numbers numbers saves ≡ true) }
    ensures refused { IfErr result (spec.RefusesNumbers numbers saves) }
{
    let Numbers { size, me, .. } = numbers;
    if !is_size(size) {
        return Err(NumberFault::Size(size));
    }
    if me >= size {
        let last = size - 1;
        return Err(NumberFault::Node { node: me, last });
    }
    if let Some(limit) = numbers.limit {
        if !is_limit(limit) {
            return Err(NumberFault::Limit(limit));
        }
    }
    if let Some(queue) = numbers.queue {
        if queue < size {
            return Err(NumberFault::Queue { queue, least: size });
        }
    }
    if numbers.segments == Some(0) {
        return Err(NumberFault::Segments);
    }
    if let Some(count) = numbers.segments {
        if !saves {
            return Err(NumberFault::Unsaved(count));
        }
    }
    if numbers.retry == Some(0) {
        return Err(NumberFault::Retry);
    }
    if let Some(hold) = numbers.hold {
        if hold > LARGEST_HOLD {
            return Err(NumberFault::Hold(hold));
        }
    }
    Ok(())
}

/// Why a node is no node of a domain, if it is none.
fn no_member(opening: &Opening, node: u16) -> Option<NodeFault>
    ensures { MatchOption result (view.is_member opening.now node ≡ true) (spec.IsNoMember opening.now node) }
{
    let size = opening.size();
    if node >= size {
        let last = size - 1;
        return Some(NodeFault::Outside { last });
    }
    None
}

/// Why a node is no neighbour, if it is none.
fn no_neighbour(opening: &Opening, node: u16) -> Option<NodeFault>
    ensures { MatchOption result (view.is_neighbour opening.now node ≡ true) (spec.IsNoNeighbour opening.now node) }
{
    if let Some(why) = no_member(opening, node) {
        return Some(why);
    }
    if node == opening.me() {
        return Some(NodeFault::Itself);
    }
    None
}

/// Whether the prefix of a node is among those that were given.
fn has_prefix(placed: &[u16], node: u16) -> bool
    ensures { result ≡ view.has_prefix placed.now node }
{
    for other in placed {
        if *other == node {
            return true;
        }
    }
    false
}

/// Whether a filter is used at a node.
fn has_use(uses: &[FilterUse], node: u16) -> bool
    ensures { result ≡ view.has_use uses.now node }
{
    for used in uses {
        if used.node == node {
            return true;
        }
    }
    false
}

/// Whether a node has one of these links.
fn has_link(links: &[LinkFiles], node: u16) -> bool
    ensures { result ≡ view.has_link links.now node }
{
    for link in links {
        if link.node == node {
            return true;
        }
    }
    false
}

/// Whether one of these filters has this name.
fn has_filter(filters: &[String], name: &str) -> bool
    ensures { result ≡ view.has_filter filters.now name.now }
{
    for filter in filters {
        if filter.as_str() == name {
            return true;
        }
    }
    false
}

impl RouterPlan {
    /// The plan of these numbers, with the default prefixes, without links and filters.
    pub fn new(
        alloc: Global,
        numbers: Numbers,
        save: Option<String>,
        stays: bool,
    ) -> Result<RouterPlan, NumberFault>
        ensures made { IfOk result (λ plan. plan ≡ spec.new_plan numbers save stays) }
        ensures fit { OnOk result (spec.are_numbers numbers (is_some save) ≡ true) }
        ensures refused { IfErr result (spec.RefusesNumbers numbers (is_some save)) }
    {
        check_numbers(numbers, save.is_some())?;
        let (size, me) = (numbers.size as u16, numbers.me as u16);
        let prefixes = default_prefixes(alloc, size)?;
        Ok(RouterPlan {
            opening: Opening::new(size, me, prefixes).unwrap(),
            placed: Vec::new(alloc),
            limit: numbers.limit.unwrap_or(LARGEST_LIMIT),
            queue: numbers.queue.unwrap_or(USUAL_QUEUE),
            filters: Vec::new(alloc),
            imports: Vec::new(alloc),
            exports: Vec::new(alloc),
            links: Vec::new(alloc),
            controls: Vec::new(alloc),
            save,
            segments: numbers.segments,
            retry: numbers.retry,
            hold: hold_or(numbers.hold) as u16,
            stays,
            domain: None,
        })
    }

    /// Notes by which file the domain was set up.
    pub fn set_domain(&mut self, mark: DomainMark)
        ensures { self.new ≡ record self.old { domain = Some mark } }
    {
        self.domain = Some(mark);
    }

    /// Reads a prefix, `V=PREFIX`, of a node that was given none.
    fn read_prefix(&self, text: &str) -> Result<NodePrefix, OptionFault>
        ensures may { IfOk result (spec.MayPlace self.now text.now) }
        ensures refused { IfErr result (spec.RefusesPrefix self.now text.now) }
    {
        let given = NodePrefix::read(text)?;
        if let Some(why) = no_member(&self.opening, given.node) {
            let node = given.node;
            return Err(OptionFault::Node { node, why });
        }
        if has_prefix(self.placed.as_slice(), given.node) {
            return Err(OptionFault::Twice(given.node));
        }
        Ok(given)
    }

    /// Adds a prefix, `V=PREFIX`.
    pub fn add_prefix(&mut self, text: &str) -> Result<(), OptionFault>
        ensures added { OnOk result (spec.AddsPrefix self.old text.now self.new) }
        ensures refused { IfErr result (spec.RefusesPrefix self.old text.now) }
        ensures unchanged { OnErr result (self.new ≡ self.old) }
    {
        let NodePrefix { node, prefix } = self.read_prefix(text)?;
        self.placed.push(node)?;
        self.opening.set_prefix(node, prefix);
        Ok(())
    }

    /// Adds the name of a filter.
    pub fn add_filter(&mut self, alloc: Global, name: &str) -> Result<(), OptionFault>
        ensures added { OnOk result (spec.AddsFilter self.old name.now self.new) }
        ensures refused { IfErr result (λ why. why ≡ fault.Memory) }
        ensures unchanged { OnErr result (self.new ≡ self.old) }
    {
        let filter = String::from_str(alloc, name)?;
        self.filters.push(filter)?;
        Ok(())
    }

    /// Reads the use of a filter, `W=NAME`, at a neighbour at which none of these is.
    fn read_use(
        &self,
        alloc: Global,
        uses: &[FilterUse],
        text: &str,
    ) -> Result<FilterUse, OptionFault>
        ensures may { IfOk result (spec.MayUse self.now uses.now text.now) }
        ensures refused { IfErr result (spec.RefusesUse self.now uses.now text.now) }
    {
        let used = FilterUse::read(alloc, text)?;
        if let Some(why) = no_neighbour(&self.opening, used.node) {
            let node = used.node;
            return Err(OptionFault::Node { node, why });
        }
        if !has_filter(self.filters.as_slice(), used.name.as_str()) {
            return Err(OptionFault::UnknownFilter);
        }
        if has_use(uses, used.node) {
            return Err(OptionFault::Twice(used.node));
        }
        Ok(used)
    }

    /// Adds the use of an import filter, `W=NAME`. The filters are added first.
    pub fn add_import(&mut self, alloc: Global, text: &str) -> Result<(), OptionFault>
        ensures added { OnOk result (spec.AddsImport self.old text.now self.new) }
        ensures refused { IfErr result (spec.RefusesImport self.old text.now) }
        ensures unchanged { OnErr result (self.new ≡ self.old) }
    {
        let used = self.read_use(alloc, self.imports.as_slice(), text)?;
        self.imports.push(used)?;
        Ok(())
    }

    /// Adds the use of an export filter, `W=NAME`. The filters are added first.
    pub fn add_export(&mut self, alloc: Global, text: &str) -> Result<(), OptionFault>
        ensures added { OnOk result (spec.AddsExport self.old text.now self.new) }
        ensures refused { IfErr result (spec.RefusesExport self.old text.now) }
        ensures unchanged { OnErr result (self.new ≡ self.old) }
    {
        let used = self.read_use(alloc, self.exports.as_slice(), text)?;
        self.exports.push(used)?;
        Ok(())
    }

    /// Reads a link, `W=IN,OUT`, to a neighbour that has none.
    fn read_link(&self, alloc: Global, text: &str) -> Result<LinkFiles, OptionFault>
        ensures may { IfOk result (spec.MayLink self.now text.now) }
        ensures refused { IfErr result (spec.RefusesLink self.now text.now) }
    {
        let link = LinkFiles::read(alloc, text)?;
        if let Some(why) = no_neighbour(&self.opening, link.node) {
            let node = link.node;
            return Err(OptionFault::Node { node, why });
        }
        if has_link(self.links.as_slice(), link.node) {
            return Err(OptionFault::Twice(link.node));
        }
        Ok(link)
    }

    /// Adds a link, `W=IN,OUT`.
    pub fn add_link(&mut self, alloc: Global, text: &str) -> Result<(), OptionFault>
        ensures added { OnOk result (spec.AddsLink self.old text.now self.new) }
        ensures refused { IfErr result (spec.RefusesLink self.old text.now) }
        ensures unchanged { OnErr result (self.new ≡ self.old) }
    {
        let link = self.read_link(alloc, text)?;
        self.links.push(link)?;
        Ok(())
    }

    /// Adds a control, `IN,OUT` or `IN,OUT,look`.
    pub fn add_control(&mut self, alloc: Global, text: &str) -> Result<(), OptionFault>
        ensures added { OnOk result (spec.AddsControl self.old text.now self.new) }
        ensures refused { IfErr result (spec.RefusesControl self.old text.now) }
        ensures unchanged { OnErr result (self.new ≡ self.old) }
    {
        let files = ControlFiles::read(alloc, text)?;
        self.controls.push(files)?;
        Ok(())
    }
}
