//! The uses of a configuration are put in force.
//!
//! **What is in force is looked up in the history**, use by use, and not in what was read before. So one whose filter did not change is left alone,
//! whoever set it, and a reload that was broken off is finished by the next one.
//!
//! **Filters are compared by their code.** Another text, or another name, of the same code is no other filter of a neighbour.
//!
//! **Links change last**, once all filters are set: so a link that is new comes up behind its filters. What they need is made first.
ghost use Rattle.std.specs.Prelude.{◌≡◌, ◌++◌, IfOk, OnErr, OnOk, flat_map};
ghost use Rattle.std.specs.Io.{StartsWith};
ghost use Rattle.netchange_core.specs.Kept.{filter_of, view_of};
ghost use Rattle.operator_cmds.specs.Replies.{Adds, Answers, answered};
ghost use Rattle.operator_cmds.specs.Script.{tables_of};
ghost use Rattle.router_operator.specs.OperatorView.{journal_seen};
ghost use Rattle.router_operator.specs.Operators.{Looks, BreaksOff as EventBreaksOff};
ghost use Rattle.router_operator.specs.Reloading as spec;

use crate::configuration::{Configured, LinkChange, NamedUse};
use crate::listener::Listener;
use crate::naming::Naming;
use crate::operator::Operator;
use filter_differences::difference_text;
use filter_verifier::Verified;
use line_protocol::{LineReply, push_decimal};
use netchange_core::{Neighbour, Tables};
use operator_cmds::{Direction, NamedFilters};
use route_history::LongJournal;
use router_status::is_same_code;
use slot_lock::Observer;
use std::alloc::{AllocError, Global};
use std::rt::Clock;
use std::sync::{Arc, Wait};

/// So many classes of routes are tried at most where filters are compared, as by `ncroute diff`.
const COMPARED: u64 = 1_000_000;

/// The filter of a neighbour in a direction, if it has one.
fn filter_toward(neighbour: &Neighbour, direction: Direction) -> &Option<Arc<Verified>>
    ensures { filter_of result.now ≡ spec.filter_toward direction (view_of neighbour.now) }
{
    match direction {
        Direction::Import => &neighbour.imports,
        Direction::Export => &neighbour.exports,
    }
}

/// The same filter, if there is one.
fn copy_of(filter: &Option<Arc<Verified>>) -> Result<Option<Arc<Verified>>, AllocError>
    ensures { IfOk result (λ copy. filter_of copy ≡ filter_of filter.now) }
{
    match filter {
        Some(filter) => Ok(Some(Arc::try_clone(filter)?)),
        None => Ok(None),
    }
}

/// The filter that a node has in a direction, if it has one.
fn find_filter(
    tables: &Tables,
    direction: Direction,
    node: u16,
) -> Result<Option<Arc<Verified>>, AllocError>
    ensures { IfOk result (λ found. filter_of found ≡ spec.in_force tables.now direction node) }
{
    if node >= tables.opening().size() {
        return Ok(None);
    }
    copy_of(filter_toward(tables.neighbour(node), direction))
}

/// The filter of a node in a direction is looked for.
#[derive(Drop)]
pub(crate) struct FindingFilter {
    pub(crate) direction: Direction,
    pub(crate) node: u16,
    pub(crate) found: Result<Option<Arc<Verified>>, AllocError>,
}

impl Observer for FindingFilter {
    ghost use Rattle.router_operator.specs.Reloading.{FindsFilter};

    ghost sees = { λ before _ history after. FindsFilter before history after };

    fn see(&mut self, journal: &LongJournal) {
        self.found = find_filter(journal.tables(), self.direction, self.node);
    }
}

/// Whether a use is met by the filter that is there, or by there being none.
fn is_met_by(
    alloc: Global,
    used: &NamedUse,
    found: &Option<Arc<Verified>>,
) -> Result<bool, AllocError>
    ensures { IfOk result (λ met. met ≡ spec.is_met_by used.now (filter_of found.now)) }
{
    match found {
        None => Ok(used.is_plain),
        Some(filter) => is_same_code(alloc, filter, &used.filter),
    }
}

/// What is told of a direction.
fn direction_word(direction: Direction) -> &'static [u8]
    ensures { result.now ≡ spec.direction_word direction }
{
    match direction {
        Direction::Import => b" | import ",
        Direction::Export => b" | export ",
    }
}

/// Adds a byte of lines that are told in one, but for their line feeds.
fn push_shown(out: &mut Vec<u8>, byte: u8) -> Result<(), AllocError>
    ensures { OnOk result (out.new.items ≡ out.old.items ++ spec.shown_byte byte) }
{
    if byte == b'\n' {
        return out.extend_from_slice(b" | ");
    }
    out.push(byte)?;
    Ok(())
}

/// Adds all bytes of lines so.
fn push_all_shown(out: &mut Vec<u8>, text: &[u8]) -> Result<(), AllocError>
    ensures { OnOk result (out.new.items ≡ out.old.items ++ flat_map spec.shown_byte text.now) }
{
    for byte in text {
        push_shown(out, *byte)?;
    }
    Ok(())
}

/// All bytes of some lines but the last line feed.
fn without_last(text: &[u8]) -> &[u8]
    ensures { result.now ≡ spec.without_last text.now }
{
    &text[..text.len().saturating_sub(1)]
}

/// Lines, told in one.
fn in_one_line(alloc: Global, text: &[u8]) -> Result<Vec<u8>, AllocError>
    ensures { IfOk result (λ line. line.items ≡ spec.in_one_line text.now) }
{
    let mut line = Vec::new(alloc);
    line.extend_from_slice(b" | ")?;
    push_all_shown(&mut line, without_last(text))?;
    Ok(line)
}

/// In what the filter of a use differs from the one that is there, if there is one.
fn difference_of(
    alloc: Global,
    used: &NamedUse,
    found: &Option<Arc<Verified>>,
) -> Result<Vec<u8>, AllocError>
    ensures { IfOk result (λ told. spec.DiffersBy used.now (filter_of found.now) told.items) }
{
    match found {
        Some(filter) => {
            let text = difference_text(alloc, filter, &used.filter, COMPARED)?;
            in_one_line(alloc, text.as_slice())
        }
        None => Ok(Vec::new(alloc)),
    }
}

/// The same, told where the use is only looked at.
fn tell_difference(
    alloc: Global,
    used: &NamedUse,
    found: &Option<Arc<Verified>>,
    checks: bool,
) -> Result<Vec<u8>, AllocError>
    ensures { IfOk result (λ told. spec.TellsDifference checks used.now (filter_of found.now) told.items) }
{
    if checks {
        return difference_of(alloc, used, found);
    }
    Ok(Vec::new(alloc))
}

/// Adds what is told of a use that is set.
fn push_use(out: &mut Vec<u8>, used: &NamedUse) -> Result<(), AllocError>
    ensures ok { OnOk result (out.new.items ≡ out.old.items ++ spec.use_words used.now) }
    ensures err { OnErr result (StartsWith out.new.items out.old.items) }
{
    out.extend_from_slice(direction_word(used.direction))?;
    push_decimal(out, u64::from(used.node))?;
    out.push(b' ')?;
    out.extend_from_slice(used.name.as_slice())
}

/// Adds what is told of a use by what was replied to its event, if it had one, and what differs.
fn push_put(
    out: &mut Vec<u8>,
    used: &NamedUse,
    put: Option<LineReply>,
    differs: &[u8],
) -> Result<(), AllocError>
    ensures ok { OnOk result (out.new.items ≡ out.old.items ++ spec.put_words used.now put differs.now) }
    ensures err { OnErr result (StartsWith out.new.items out.old.items) }
{
    match put {
        Some(_) => {
            push_use(out, used)?;
            out.extend_from_slice(differs)
        }
        None => Ok(()),
    }
}

/// What is told of a link that changes.
fn change_word(change: &LinkChange) -> &'static [u8]
    ensures { result.now ≡ spec.change_word change.now }
{
    match &change.files {
        None => b" is gone",
        Some(_) if change.is_new => b" is new",
        Some(_) => b" has other files",
    }
}

/// Adds what is told of a link that changes.
fn push_change(out: &mut Vec<u8>, change: &LinkChange) -> Result<(), AllocError>
    ensures { OnOk result (out.new.items ≡ out.old.items ++ spec.change_words change.now) }
{
    out.extend_from_slice(b" | link ")?;
    push_decimal(out, u64::from(change.node))?;
    out.extend_from_slice(change_word(change))
}

/// Adds what is told of links that change.
fn push_changes(out: &mut Vec<u8>, changes: &[LinkChange]) -> Result<(), AllocError>
    ensures { OnOk result (out.new.items ≡ out.old.items ++ flat_map spec.change_words changes.now) }
{
    for change in changes {
        push_change(out, change)?;
    }
    Ok(())
}

/// What is told of links that change.
fn tell_changes(alloc: Global, changes: &[LinkChange]) -> Result<Vec<u8>, AllocError>
    ensures { IfOk result (λ told. told.items ≡ flat_map spec.change_words changes.now) }
{
    let mut told = Vec::new(alloc);
    push_changes(&mut told, changes)?;
    Ok(told)
}

/// Whether the event of a use was refused.
fn is_refused(put: Option<LineReply>) -> bool
    ensures { result ≡ spec.is_refused put }
{
    match put {
        None => false,
        Some(LineReply::Answered) => false,
        Some(LineReply::Refused) => true,
        Some(LineReply::Ended) => true,
    }
}

impl<'a, R: Wait + Clock, L: Listener, J: Naming> Operator<'a, R, L, J> {
    /// Whether a use is in force, by a look at the router, and the filter that is there.
    fn look_for(
        &mut self,
        alloc: Global,
        used: &NamedUse,
    ) -> Result<(bool, Option<Arc<Verified>>), AllocError>
        ensures looks { Looks self.old self.new }
        ensures met { IfOk result (λ r. r.0 ≡ spec.is_in_force (tables_of (journal_seen self.new)) used.now) }
        ensures found { IfOk result (λ r. filter_of r.1
            ≡ spec.in_force (tables_of (journal_seen self.new)) used.now.direction used.now.node) }
    {
        let mut finding = FindingFilter {
            direction: used.direction,
            node: used.node,
            found: Ok(None),
        };
        self.router.observe(self.rt, &mut self.pass, &mut finding);
        match finding.found {
            Ok(found) => {
                let met = is_met_by(alloc, used, &found)?;
                Ok((met, found))
            }
            Err(_) => Err(AllocError),
        }
    }

    /// Sets the filter of a use, and returns how the event was replied to.
    fn set_use(&mut self, alloc: Global, used: &NamedUse) -> Result<LineReply, AllocError>
        ensures ok { IfOk result (λ reply. spec.Sets self.old used.now reply self.new) }
        ensures left { OnErr result (EventBreaksOff self.old self.new) }
    {
        let filter = Arc::try_clone(&used.filter)?;
        let event = used.direction.event(used.node, filter);
        let mut told = Vec::new(alloc);
        let reply = self.enter(event, &mut told)?;
        if reply == LineReply::Answered {
            self.listener.replaced(
                self.rt,
                used.direction,
                used.node,
                used.name.as_slice(),
                &used.filter,
            );
        }
        Ok(reply)
    }

    /// Sets the filter of a use, unless it is only looked at, and returns how its event is replied to.
    fn set_unless(
        &mut self,
        alloc: Global,
        used: &NamedUse,
        checks: bool,
    ) -> Result<LineReply, AllocError>
        ensures ok { IfOk result (λ reply. spec.SetsUnless checks self.old used.now reply self.new) }
        ensures left { OnErr result (EventBreaksOff self.old self.new) }
    {
        if checks {
            return Ok(LineReply::Answered);
        }
        self.set_use(alloc, used)
    }

    /// Puts a use in force. How its event was replied to, if it has to have one, and what differs.
    fn put(
        &mut self,
        alloc: Global,
        used: &NamedUse,
        checks: bool,
    ) -> Result<(Option<LineReply>, Vec<u8>), AllocError>
        ensures ok { IfOk result (λ put. spec.Puts checks self.old used.now put.0 put.1.items self.new) }
        ensures left { OnErr result (spec.BreaksOff self.old self.new) }
    {
        let (met, found) = self.look_for(alloc, used)?;
        if met {
            return Ok((None, Vec::new(alloc)));
        }
        let differs = tell_difference(alloc, used, &found, checks)?;
        let reply = self.set_unless(alloc, used, checks)?;
        Ok((Some(reply), differs))
    }

    /// Puts a use in force, and adds what is told of it, unless its event is refused. Whether it is.
    fn put_next(
        &mut self,
        alloc: Global,
        used: &NamedUse,
        checks: bool,
        out: &mut Vec<u8>,
    ) -> Result<bool, AllocError>
        ensures ok { IfOk result (λ refused. spec.PutsNext checks self.old used.now out.old.items refused out.new.items self.new) }
        ensures left { OnErr result (spec.BreaksOff self.old self.new) }
    {
        let (replied, differs) = self.put(alloc, used, checks)?;
        let refused = is_refused(replied);
        if refused {
            return Ok(true);
        }
        push_put(out, used, replied, differs.as_slice())?;
        Ok(false)
    }

    /// Puts uses in force, one after another, up to one whose event is refused, and adds what is told of those that were not. Whether none is refused.
    #[tactic(auto, using(crate::proofs::Putting::puts_begin, crate::proofs::Putting::puts_all))]
    fn put_each(
        &mut self,
        alloc: Global,
        uses: &[NamedUse],
        checks: bool,
        out: &mut Vec<u8>,
    ) -> Result<bool, AllocError>
        ensures ok { IfOk result (λ whole. spec.PutsEach checks self.old uses.now out.old.items whole out.new.items self.new) }
        ensures left { OnErr result (spec.BreaksOff self.old self.new) }
    {
        for used in uses {
            let refused = self.put_next(alloc, used, checks, out)?;
            if refused {
                return Ok(false);
            }
        }
        Ok(true)
    }

    /// Has the names of a configuration, and changes links, in a domain of this digest, unless that is only looked at.
    fn take(
        &mut self,
        filters: NamedFilters,
        changes: Vec<LinkChange>,
        digest: [u8; 8],
        checks: bool,
    )
        ensures { self.new ≡ spec.renamed checks filters.entries self.old }
    {
        if !checks {
            self.filters = filters;
            self.listener.change_links(self.rt, changes, digest);
        }
    }

    /// Puts what a configuration says in force, or, where it is only looked at, tells what that would set. The names are those of the configuration
    /// afterwards, and the links change, where no event was refused.
    #[tactic(auto, using(crate::proofs::Putting::reloads))]
    pub(crate) fn reload(
        &mut self,
        alloc: Global,
        number: u32,
        configured: Configured,
        checks: bool,
        out: &mut Vec<u8>,
    ) -> Result<LineReply, AllocError>
        ensures ok { IfOk result (Answers (λ answer. spec.ReloadsLinks checks self.old number configured.filters.entries configured.uses.items
            answer self.new) out.old.items out.new.items) }
        ensures err { OnErr result (StartsWith out.new.items out.old.items) }
        ensures left { OnErr result (spec.BreaksOff self.old self.new) }
    {
        let Configured {
            filters,
            uses,
            links,
            digest,
        } = configured;
        let changes = self
            .listener
            .compare_links(self.rt, alloc, links.as_slice())?;
        let told = tell_changes(alloc, changes.as_slice())?;
        let mut text = Vec::new(alloc);
        let whole = self.put_each(alloc, uses.as_slice(), checks, &mut text)?;
        if !whole {
            return refuse_rest(out, number, text.as_slice());
        }
        let reply = tell_reload(out, checks, text.as_slice(), told.as_slice())?;
        self.take(filters, changes, digest, checks);
        Ok(reply)
    }
}

/// How the answer begins to a reload that was broken off.
#[tactic(auto, unfolding(crate::specs::Reloading::broken_off))]
fn broken_off() -> &'static str
    ensures { result.now ≡ spec.broken_off }
{
    "refused O13 "
}

/// Answers that a reload was broken off behind what this text tells.
fn refuse_rest(out: &mut Vec<u8>, number: u32, text: &[u8]) -> Result<LineReply, AllocError>
    ensures ok { IfOk result (Adds (spec.refused_behind number text.now) out.old.items out.new.items) }
    ensures err { OnErr result (StartsWith out.new.items out.old.items) }
{
    out.extend_from_slice(broken_off().as_bytes())?;
    push_decimal(out, u64::from(number))?;
    out.extend_from_slice(text)?;
    out.push(b'\n')?;
    Ok(LineReply::Refused)
}

/// The word that tells of a reload, or of what one would set.
fn reload_word(checks: bool) -> &'static str
    ensures { result.now ≡ spec.reload_word checks }
{
    if checks { "reload" } else { "reloaded" }
}

/// Answers a reload by what this text tells, and what is told of links behind it.
fn tell_reload(
    out: &mut Vec<u8>,
    checks: bool,
    text: &[u8],
    told: &[u8],
) -> Result<LineReply, AllocError>
    ensures ok { IfOk result (Adds (answered (spec.reload_word checks ++ text.now ++ told.now)) out.old.items out.new.items) }
    ensures err { OnErr result (StartsWith out.new.items out.old.items) }
{
    out.extend_from_slice(reload_word(checks).as_bytes())?;
    out.extend_from_slice(text)?;
    out.extend_from_slice(told)?;
    out.push(b'\n')?;
    Ok(LineReply::Answered)
}
