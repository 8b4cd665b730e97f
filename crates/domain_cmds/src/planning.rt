//! A domain that is set up: its plan, and what its script did with it.
ghost use Rattle.std.specs.Prelude.{◌≡◌, ◌≢◌, ◌<◌, ℕ, List, IfOk, IfSome, IsTrue, MatchOption, None, OnErr, OnOk};
ghost use Rattle.std.specs.Io.{StartsWith};
ghost use Rattle.std.specs.Option.{option_map};
ghost use Rattle.domain_routes.specs.PlanView.{IsPlan};
ghost use Rattle.domain_routes.specs.Still as rest;
ghost use Rattle.domain_cmds.specs.Origins.{Notes};
ghost use Rattle.domain_cmds.specs.Paging as paging;
ghost use Rattle.domain_cmds.specs.Short.{IsShort, IsShortSource};
ghost use Rattle.domain_cmds.specs.State.{filter_named};
ghost use Rattle.domain_cmds.specs.Script as spec;

use crate::asking::answer_question;
use crate::command::{DomainCommand, DomainSize, Question};
use crate::fault::DomainStateFault;
use crate::filters::Filters;
use crate::origins::Origins;
use crate::playing::{Change, Playing};
use crate::resting::RestingPlan;
use crate::routes::Column;
use crate::said::said_of;
use domain_reports::{Shell, push_domain, push_page};
use domain_routes::{Between, Plan};
use filter_source::Diagnosis;
use line_protocol::LineReply;
use netchange_core::default_prefixes;
use operator_cmds::{Direction, FilterSource, NamedFilters, confirm, refuse};
use prefix_patterns::Prefix;
use std::alloc::{AllocError, Global};
use std::marker::Model;
use std::sync::Arc;

/// A domain that is set up. A contract sees it as a `PlanningView`.
#[derive(Drop)]
pub struct Planning {
    /// Its prefixes, links and filters.
    domain: RestingPlan,
    /// The filter of each name.
    filters: Filters,
    /// Where they come from, and where they are used.
    origins: Origins,
    /// A command came after which prefixes stay.
    begun: bool,
    /// All routes at rest at the last `mark`.
    marked: Option<Arc<Vec<Column>>>,
    /// Between which plans the plan stayed since.
    since: Option<Between>,
    /// Its routers.
    playing: Playing,
}

impl Model for Planning {
    ghost use Rattle.std.specs.Prelude.{◌≡◌, IfSome};
    ghost use Rattle.std.specs.Option.{option_map};
    ghost use Rattle.domain_cmds.specs.Origins.{AreLastOf, AreOriginsOf};
    ghost use Rattle.domain_cmds.specs.State.{PlanningView};

    ghost Value = { PlanningView };

    ghost view = { λ p. record {
      plan = p.domain;
      filters = p.filters.named;
      begun = p.begun;
      marked = option_map (λ all. all.value.items) p.marked;
      since = p.since;
    } };

    // The filters fit the domain, and so do the plans between which it stayed. Where its filters come from is known.
    ghost invariant = { λ p. (p.filters.size ≡ p.domain.size) × IfSome p.since (λ between. between.most.size ≡ p.domain.size)
        × AreOriginsOf p.domain p.origins × AreLastOf p.origins p.filters.named };
}

/// Why two nodes that have a link, or none, are not to have one, or none.
fn link_fault(is_linked: bool, linked: bool) -> Option<DomainStateFault>
    ensures { result ≡ spec.link_fault is_linked linked }
{
    match (is_linked, linked) {
        (true, true) => Some(DomainStateFault::Linked),
        (false, false) => Some(DomainStateFault::Apart),
        _ => None,
    }
}

/// Whether two nodes could be neighbours in a domain of so many nodes.
fn are_a_pair(size: u16, u: u16, w: u16) -> bool
    ensures value { result ≡ spec.are_a_pair size u w }
    ensures apart { IsTrue result → (u < size) × (w < size) × (u ≢ w) }
{
    u < size && w < size && u != w
}

/// Notes that a link was made or cut.
fn loosen_link(since: &mut Option<Between>, size: u16, u: u16, w: u16)
    requires u { u < size }
    requires w { w < size }
    requires apart { u ≢ w }
    requires fits { IfSome since.old (λ between. between.most.size ≡ size) }
    ensures value { since.new ≡ option_map (rest.after_link u w) since.old }
    ensures fits { IfSome since.new (λ between. between.most.size ≡ size) }
{
    if let Some(between) = since {
        between.loosen_link(u, w);
    }
}

/// Notes that a filter was set.
fn loosen_filter(since: &mut Option<Between>, size: u16, direction: Direction, u: u16, w: u16)
    requires u { u < size }
    requires w { w < size }
    requires apart { u ≢ w }
    requires fits { IfSome since.old (λ between. between.most.size ≡ size) }
    ensures value { since.new ≡ option_map (spec.filtered_between direction u w) since.old }
    ensures fits { IfSome since.new (λ between. between.most.size ≡ size) }
{
    if let Some(between) = since {
        match direction {
            Direction::Import => between.loosen_filter(u, w),
            Direction::Export => between.loosen_filter(w, u),
        }
    }
}

/// Notes that a node began anew.
fn loosen_node(since: &mut Option<Between>, plan: &Plan, u: u16)
    requires node { u < plan.now.size }
    requires fits { IfSome since.old (λ between. between.most.size ≡ plan.now.size) }
    ensures value { since.new ≡ option_map (rest.after_anew plan.now u) since.old }
    ensures fits { IfSome since.new (λ between. between.most.size ≡ plan.now.size) }
{
    if let Some(between) = since {
        between.loosen_node(plan, u);
    }
}

/// Notes where the filter comes from that has a name now.
fn note_named(
    alloc: Global,
    filters: &Filters,
    origins: &mut Origins,
    number: u32,
    name: &[u8],
    source: FilterSource<'_>,
) -> Result<(), AllocError>
    ensures ok { OnOk result (MatchOption (filter_named filters.now.named name.now) (origins.new ≡ origins.old)
        (λ filter. Notes number name.now source.entry filter origins.old origins.new)) }
    ensures err { OnErr result (origins.new ≡ origins.old) }
{
    match filters.get(name)? {
        Some(filter) => origins.note(alloc, number, name, source, filter),
        None => Ok(()),
    }
}

/// Notes where the filter comes from that has a name now. Where memory is refused, the name is free again.
fn note_origin(
    alloc: Global,
    filters: &mut Filters,
    origins: &mut Origins,
    number: u32,
    name: &[u8],
    source: FilterSource<'_>,
) -> Result<(), AllocError>
    ensures ok { OnOk result ((filters.new ≡ filters.old) × MatchOption (filter_named filters.old.named name.now) (origins.new ≡ origins.old)
        (λ filter. Notes number name.now source.entry filter origins.old origins.new)) }
    ensures err { OnErr result ((origins.new ≡ origins.old) × (filter_named filters.new.named name.now ≡ None)) }
    ensures others { OnErr result ((other : List ℕ) → other ≢ name.now → filter_named filters.new.named other ≡ filter_named filters.old.named other) }
    ensures size { filters.new.size ≡ filters.old.size }
{
    match note_named(alloc, filters, origins, number, name, source) {
        Ok(()) => Ok(()),
        Err(error) => {
            filters.forget(name);
            Err(error)
        }
    }
}

impl Planning {
    ghost use Rattle.operator_cmds.specs.Replies.{Answers};
    ghost use Rattle.operator_cmds.specs.Script.{gives, lacks};
    ghost use Rattle.domain_cmds.specs.CommandView.{view_of};

    /// A domain of so many nodes without links, with the default prefixes.
    pub fn new(alloc: Global, size: DomainSize) -> Result<Planning, AllocError>
        ensures { IfOk result (λ planning. planning ≡ spec.new_planning size.nodes) }
    {
        let prefixes = default_prefixes(alloc, size.nodes)?;
        let plan = Plan::new(alloc, prefixes)?.unwrap();
        let domain = RestingPlan::new(plan);
        let filters = Filters::new(alloc, size.nodes);
        let origins = Origins::new(alloc);
        Ok(Planning {
            domain,
            filters,
            origins,
            begun: false,
            marked: None,
            since: None,
            playing: Playing::new(alloc),
        })
    }

    /// The number of nodes.
    pub fn size(&self) -> u16
        ensures value { result ≡ self.now.plan.size }
        ensures limits { IsPlan self.now.plan }
    {
        self.domain.size()
    }

    /// Its prefixes, links and filters.
    pub fn plan(&self) -> &Plan
        ensures { result.now ≡ self.now.plan }
    {
        self.domain.plan()
    }

    /// Prefixes stay from now on, as after a question.
    pub fn begin(&mut self)
        ensures { self.new ≡ spec.begin self.old }
    {
        self.begun = true;
    }

    /// The filters that have names.
    pub fn filters(&self) -> &NamedFilters
        ensures { result.now.entries ≡ self.now.filters }
    {
        self.filters.all()
    }

    /// The filters that have names, where no more is asked of the domain.
    pub fn into_filters(self) -> NamedFilters
        ensures { result.entries ≡ self.filters }
    {
        self.filters.into_all()
    }

    /// What is told of the last filter that was refused.
    pub fn diagnosis(&self) -> Option<Diagnosis> {
        self.filters.diagnosis()
    }

    /// Carries out a command, and answers it.
    pub fn carry_out(
        &mut self,
        alloc: Global,
        number: u32,
        command: DomainCommand<'_>,
        out: &mut Vec<u8>,
    ) -> Result<LineReply, AllocError>
        requires { IsShort (view_of command) }
        ensures ok { IfOk result (Answers (λ answer. spec.AnswersPlanned self.old number (view_of command.entry) answer self.new) out.old.items out.new.items) }
        ensures err { OnErr result (StartsWith out.new.items out.old.items) }
    {
        match command {
            DomainCommand::Domain(_) => refuse(
                out,
                DomainStateFault::TooLate.code(),
                u64::from(number),
            ),
            DomainCommand::Prefix { node, prefix } => self.set_prefix(number, node, prefix, out),
            DomainCommand::Load { name, text } => {
                self.load(alloc, number, name, FilterSource::Text(text), out)
            }
            DomainCommand::Code { name, bytes } => {
                self.load(
                    alloc,
                    number,
                    name,
                    FilterSource::File(bytes.as_slice()),
                    out,
                )
            }
            DomainCommand::Link { linked, u, w } => self.set_linked(number, u, w, linked, out),
            DomainCommand::Use {
                direction,
                u,
                w,
                name,
            } => self.use_filter(number, direction, u, w, name, out),
            DomainCommand::Anew(u) => self.begin_anew(number, u, out),
            DomainCommand::Mark => self.mark(alloc, out),
            DomainCommand::Json => self.answer_json(alloc, out),
            DomainCommand::Ask(question) => self.ask(alloc, number, question, out),
        }
    }

    /// Answers `prefix`: sets the prefix of a node, as long as nothing has begun.
    pub(crate) fn set_prefix(
        &mut self,
        number: u32,
        node: u16,
        prefix: Prefix,
        out: &mut Vec<u8>,
    ) -> Result<LineReply, AllocError>
        ensures ok { IfOk result (Answers (λ answer. spec.AnswersPrefix self.old number node prefix answer self.new) out.old.items out.new.items) }
        ensures err { OnErr result (StartsWith out.new.items out.old.items) }
    {
        if self.begun {
            return refuse(out, DomainStateFault::TooLate.code(), u64::from(number));
        }
        if node >= self.domain.size() {
            return refuse(out, DomainStateFault::NoSuchNode.code(), u64::from(number));
        }
        self.domain.set_prefix(node, prefix);
        confirm(out)
    }

    /// Answers `load` and `code`: a source is verified, and gets a name.
    fn load(
        &mut self,
        alloc: Global,
        number: u32,
        name: &[u8],
        source: FilterSource<'_>,
        out: &mut Vec<u8>,
    ) -> Result<LineReply, AllocError>
        requires { IsShortSource source }
        ensures ok { IfOk result (Answers (λ answer. spec.AnswersLoad (gives source.entry) (lacks source.entry) self.old number name.now answer self.new) out.old.items out.new.items) }
        ensures err { OnErr result (StartsWith out.new.items out.old.items) }
    {
        let reply = self.filters.load(alloc, number, name, source, out)?;
        if reply != LineReply::Answered {
            return Ok(reply);
        }
        note_origin(
            alloc,
            &mut self.filters,
            &mut self.origins,
            number,
            name,
            source,
        )?;
        Ok(reply)
    }

    /// Answers `link` and `cut`: two nodes are neighbours from now on, or no more.
    fn set_linked(
        &mut self,
        number: u32,
        u: u16,
        w: u16,
        linked: bool,
        out: &mut Vec<u8>,
    ) -> Result<LineReply, AllocError>
        ensures ok { IfOk result (Answers (λ answer. spec.AnswersLink linked self.old number u w answer self.new) out.old.items out.new.items) }
        ensures err { OnErr result (StartsWith out.new.items out.old.items) }
    {
        self.begun = true;
        let size = self.domain.size();
        if !are_a_pair(size, u, w) {
            return refuse(out, DomainStateFault::BadNode.code(), u64::from(number));
        }
        if let Some(why) = link_fault(self.domain.plan().is_linked(u, w), linked) {
            return refuse(out, why.code(), u64::from(number));
        }
        self.playing.note(Change::Link(u, w, linked))?;
        self.domain.set_linked(u, w, linked);
        loosen_link(&mut self.since, size, u, w);
        confirm(out)
    }

    /// Answers `import` and `export`: what the first node receives from the second, or tells it, passes a filter from now on.
    fn use_filter(
        &mut self,
        number: u32,
        direction: Direction,
        u: u16,
        w: u16,
        name: &[u8],
        out: &mut Vec<u8>,
    ) -> Result<LineReply, AllocError>
        ensures ok { IfOk result (Answers (λ answer. spec.AnswersUse (filter_named self.old.filters name.now) direction self.old number u w answer self.new) out.old.items out.new.items) }
        ensures err { OnErr result (StartsWith out.new.items out.old.items) }
    {
        let Some(filter) = self.filters.get(name)? else {
            return refuse(
                out,
                DomainStateFault::UnknownFilter.code(),
                u64::from(number),
            );
        };
        self.begun = true;
        let size = self.domain.size();
        if !are_a_pair(size, u, w) {
            return refuse(out, DomainStateFault::BadNode.code(), u64::from(number));
        }
        let played = Arc::try_clone(&filter)?;
        self.playing.note(Change::Filter(direction, u, w, played))?;
        self.origins.note_use(direction, u, w, name)?;
        self.domain.set_filter(direction, u, w, filter);
        loosen_filter(&mut self.since, size, direction, u, w);
        confirm(out)
    }

    /// Answers `anew`: all links of a node are cut and made again.
    fn begin_anew(
        &mut self,
        number: u32,
        u: u16,
        out: &mut Vec<u8>,
    ) -> Result<LineReply, AllocError>
        ensures ok { IfOk result (Answers (λ answer. spec.AnswersAnew self.old number u answer self.new) out.old.items out.new.items) }
        ensures err { OnErr result (StartsWith out.new.items out.old.items) }
    {
        self.begun = true;
        if u >= self.domain.size() {
            return refuse(out, DomainStateFault::BadNode.code(), u64::from(number));
        }
        self.playing.note_anew(self.domain.plan(), u)?;
        loosen_node(&mut self.since, self.domain.plan(), u);
        confirm(out)
    }

    /// Answers a question.
    fn ask(
        &mut self,
        alloc: Global,
        number: u32,
        question: Question,
        out: &mut Vec<u8>,
    ) -> Result<LineReply, AllocError>
        ensures ok { IfOk result (Answers (λ answer. spec.Asks (spec.AnswersQuestion question self.old.plan self.old.marked self.old.since number) self.old answer self.new) out.old.items out.new.items) }
        ensures err { OnErr result (StartsWith out.new.items out.old.items) }
    {
        self.begun = true;
        answer_question(
            alloc,
            question,
            &mut self.domain,
            &self.marked,
            &self.since,
            &mut self.playing,
            number,
            out,
        )
    }

    /// Answers `json`: the whole domain, for programs.
    fn answer_json(&mut self, alloc: Global, out: &mut Vec<u8>) -> Result<LineReply, AllocError>
        ensures ok { IfOk result (Answers (λ answer. spec.Asks (spec.IsToldDomain self.old.plan) self.old answer self.new) out.old.items out.new.items) }
        ensures err { OnErr result (StartsWith out.new.items out.old.items) }
    {
        self.begun = true;
        let said = said_of(alloc, &mut self.domain, &self.origins)?;
        let mut line = Vec::new(alloc);
        push_domain(alloc, &mut line, &said.report())?;
        out.extend_from_slice(line.as_slice())?;
        Ok(LineReply::Answered)
    }

    /// Adds the page of the domain, whose script has this name.
    pub(crate) fn push_page(
        &mut self,
        alloc: Global,
        out: &mut Vec<u8>,
        shell: Shell<'_>,
        name: &[u8],
    ) -> Result<(), AllocError>
        ensures ok { OnOk result (paging.AddsPage shell.entry name.now self.old.plan out.old.items out.new.items) }
        ensures same { self.new ≡ self.old }
    {
        let said = said_of(alloc, &mut self.domain, &self.origins)?;
        push_page(alloc, out, shell, name, &said.report())
    }

    /// Its prefixes, links and filters.
    pub(crate) fn into_domain(self) -> RestingPlan
        ensures { result ≡ self.plan }
    {
        self.domain
    }

    /// Answers `mark`: remembers all routes at rest.
    fn mark(&mut self, alloc: Global, out: &mut Vec<u8>) -> Result<LineReply, AllocError>
        ensures ok { IfOk result (Answers (λ answer. spec.AnswersMark self.old answer self.new) out.old.items out.new.items) }
        ensures err { OnErr result (StartsWith out.new.items out.old.items) }
    {
        self.begun = true;
        let all = self.domain.all_routes(alloc)?;
        let between = Between::new(alloc, self.domain.plan())?;
        self.marked = Some(all);
        self.since = Some(between);
        confirm(out)
    }
}
