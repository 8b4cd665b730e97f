//! What the words of `router` come to: the plan of a router.
//!
//! **`router` refuses a second `--prefix`, `--import`, `--export` or `--link` of one node.** Of two import filters of a neighbour one alone is in
//! force in the end, and of two prefixes of a node one alone is shown to filters. Which one it is depends on an order that nobody has in mind, who
//! has typed one line of 40 options twice; so the one that is mistyped is told.
//!
//! **`--retry 0` is refused.** A link that is closed is opened again after so many seconds. Where its file is not there, or ends at once, 0 would
//! keep a processor busy and fill standard error.
ghost use Rattle.std.specs.Prelude.{◌≡◌, Some, IfErr, IfOk, OnOk, is_some};
ghost use Rattle.router_options.specs.Plans.{RefusesNumbers};
ghost use Rattle.ncroute.specs.Planning as spec;

use command_line::{NamedFile, RouterWords};
use router_files::RouterOption;
use router_options::{NumberFault, Numbers, OptionFault, RouterPlan};
use std::alloc::{AllocError, Global};

/// What an option adds to a plan.
#[derive(Clone, Copy)]
pub enum OptionKind {
    /// The prefix of a node.
    Prefix,
    /// The name of a filter.
    Filter,
    /// The use of an import filter.
    Import,
    /// The use of an export filter.
    Export,
    /// A link.
    Link,
    /// Where an operator is served.
    Control,
}

/// What is wrong with the words of `router`.
#[derive(Clone, Copy)]
pub enum PlanFault<'a> {
    /// A number that there has to be is not said.
    Missing(RouterOption),
    /// A number is refused.
    WrongNumber(NumberFault),
    /// An option is refused.
    WrongOption {
        /// What it adds.
        kind: OptionKind,
        /// How many of this kind stand before it.
        at: usize,
        /// What it says.
        text: &'a str,
        /// Why it is refused.
        why: OptionFault,
    },
}

/// Whether memory was refused.
pub(crate) fn is_memory(fault: PlanFault<'_>) -> bool
    ensures { result ≡ spec.is_memory fault.entry }
{
    match fault {
        PlanFault::Missing(_) => false,
        PlanFault::WrongNumber(why) => matches!(why, NumberFault::Memory),
        PlanFault::WrongOption { why, .. } => matches!(why, OptionFault::Memory),
    }
}

/// A copy of a text, if there is one.
fn copy(alloc: Global, text: &Option<String>) -> Result<Option<String>, AllocError>
    ensures says { IfOk result (λ copy. spec.text_in copy ≡ spec.text_in text.now) }
    ensures there { IfOk result (λ copy. is_some copy ≡ is_some text.now) }
{
    match text {
        Some(text) => Ok(Some(String::from_str(alloc, text.as_str())?)),
        None => Ok(None),
    }
}

/// Adds an option.
fn add(
    alloc: Global,
    plan: &mut RouterPlan,
    kind: OptionKind,
    text: &str,
) -> Result<(), OptionFault>
    ensures added { OnOk result (spec.Adds kind plan.old text.now plan.new) }
    ensures refused { IfErr result (spec.Refuses kind plan.old text.now) }
{
    match kind {
        OptionKind::Prefix => plan.add_prefix(text),
        OptionKind::Filter => plan.add_filter(alloc, text),
        OptionKind::Import => plan.add_import(alloc, text),
        OptionKind::Export => plan.add_export(alloc, text),
        OptionKind::Link => plan.add_link(alloc, text),
        OptionKind::Control => plan.add_control(alloc, text),
    }
}

/// Adds options of one kind, in order, up to the first that is refused.
fn add_options<'a>(
    alloc: Global,
    plan: &mut RouterPlan,
    kind: OptionKind,
    texts: &'a [String],
) -> Result<(), PlanFault<'a>>
    ensures added { OnOk result (spec.AddsAll kind spec.text_of texts.now plan.old plan.new) }
    ensures refused { IfErr result (spec.StopsAdding kind spec.text_of texts.now plan.old) }
{
    let mut at = 0;
    for text in texts {
        let text = text.as_str();
        match add(alloc, plan, kind, text) {
            Ok(()) => at += 1,
            Err(why) => {
                return Err(PlanFault::WrongOption {
                    kind,
                    at,
                    text,
                    why,
                });
            }
        }
    }
    Ok(())
}

/// Adds the names of filters, likewise.
fn add_filters<'a>(
    alloc: Global,
    plan: &mut RouterPlan,
    filters: &'a [NamedFile],
) -> Result<(), PlanFault<'a>>
    ensures added { OnOk result (spec.AddsAll OptionKind.Filter spec.name_of filters.now plan.old plan.new) }
    ensures refused { IfErr result (spec.StopsAdding OptionKind.Filter spec.name_of filters.now plan.old) }
{
    let mut at = 0;
    for filter in filters {
        let name = filter.name.as_str();
        match add(alloc, plan, OptionKind::Filter, name) {
            Ok(()) => at += 1,
            Err(why) => {
                return Err(PlanFault::WrongOption {
                    kind: OptionKind::Filter,
                    at,
                    text: name,
                    why,
                });
            }
        }
    }
    Ok(())
}

/// The size of the domain and the router's node, without which there is no router; or the option that is missing.
fn domain_in(words: &RouterWords) -> Result<(u32, u32), RouterOption>
    ensures said { IfOk result (λ said. (words.now.size ≡ Some said.0) × (words.now.node ≡ Some said.1)) }
    ensures missing { IfErr result (spec.IsMissing words.now) }
{
    let Some(size) = words.size else {
        return Err(RouterOption::Size);
    };
    match words.node {
        Some(node) => Ok((size, node)),
        None => Err(RouterOption::Node),
    }
}

/// The plan of the numbers of these words, for a node of a domain of this size, without prefixes, filters and links.
fn numbers_plan(
    alloc: Global,
    words: &RouterWords,
    size: u32,
    me: u32,
) -> Result<RouterPlan, NumberFault>
    ensures made { IfOk result (spec.IsOfNumbers words.now size me) }
    ensures refused { IfErr result (RefusesNumbers (spec.numbers_of words.now size me) (is_some words.now.save)) }
{
    let numbers = Numbers {
        size,
        me,
        limit: words.limit,
        queue: words.queue,
        segments: words.segments,
        retry: words.retry,
        hold: words.hold,
    };
    let save = copy(alloc, &words.save)?;
    RouterPlan::new(alloc, numbers, save, words.stays)
}

/// The plan of the numbers that these words say, likewise.
fn begun_plan<'a>(alloc: Global, words: &'a RouterWords) -> Result<RouterPlan, PlanFault<'a>>
    ensures made { IfOk result (spec.IsBegun words.now) }
    ensures refused { IfErr result (spec.LacksBegun words.now) }
{
    match domain_in(words) {
        Ok((size, me)) => match numbers_plan(alloc, words, size, me) {
            Ok(plan) => Ok(plan),
            Err(why) => Err(PlanFault::WrongNumber(why)),
        },
        Err(option) => Err(PlanFault::Missing(option)),
    }
}

/// The same with the prefixes.
fn placed_plan<'a>(alloc: Global, words: &'a RouterWords) -> Result<RouterPlan, PlanFault<'a>>
    ensures made { IfOk result (spec.IsPlaced words.now) }
    ensures refused { IfErr result (spec.LacksPlaced words.now) }
{
    let mut plan = begun_plan(alloc, words)?;
    let texts = words.prefixes.as_slice();
    add_options(alloc, &mut plan, OptionKind::Prefix, texts)?;
    Ok(plan)
}

/// The same with the names of filters.
fn naming_plan<'a>(alloc: Global, words: &'a RouterWords) -> Result<RouterPlan, PlanFault<'a>>
    ensures made { IfOk result (spec.IsNaming words.now) }
    ensures refused { IfErr result (spec.LacksNaming words.now) }
{
    let mut plan = placed_plan(alloc, words)?;
    let filters = words.filters.as_slice();
    add_filters(alloc, &mut plan, filters)?;
    Ok(plan)
}

/// The same with the uses of import filters.
fn importing_plan<'a>(alloc: Global, words: &'a RouterWords) -> Result<RouterPlan, PlanFault<'a>>
    ensures made { IfOk result (spec.IsImporting words.now) }
    ensures refused { IfErr result (spec.LacksImporting words.now) }
{
    let mut plan = naming_plan(alloc, words)?;
    let texts = words.imports.as_slice();
    add_options(alloc, &mut plan, OptionKind::Import, texts)?;
    Ok(plan)
}

/// The same with the uses of export filters.
fn exporting_plan<'a>(alloc: Global, words: &'a RouterWords) -> Result<RouterPlan, PlanFault<'a>>
    ensures made { IfOk result (spec.IsExporting words.now) }
    ensures refused { IfErr result (spec.LacksExporting words.now) }
{
    let mut plan = importing_plan(alloc, words)?;
    let texts = words.exports.as_slice();
    add_options(alloc, &mut plan, OptionKind::Export, texts)?;
    Ok(plan)
}

/// The same with the links.
fn linking_plan<'a>(alloc: Global, words: &'a RouterWords) -> Result<RouterPlan, PlanFault<'a>>
    ensures made { IfOk result (spec.IsLinking words.now) }
    ensures refused { IfErr result (spec.LacksLinking words.now) }
{
    let mut plan = exporting_plan(alloc, words)?;
    let texts = words.links.as_slice();
    add_options(alloc, &mut plan, OptionKind::Link, texts)?;
    Ok(plan)
}

/// The plan that words tell; or the first that is wrong with them.
pub(crate) fn plan_of<'a>(
    alloc: Global,
    words: &'a RouterWords,
) -> Result<RouterPlan, PlanFault<'a>>
    ensures made { IfOk result (spec.IsPlanOf words.now) }
    ensures refused { IfErr result (spec.LacksPlan words.now) }
{
    let mut plan = linking_plan(alloc, words)?;
    let texts = words.controls.as_slice();
    add_options(alloc, &mut plan, OptionKind::Control, texts)?;
    Ok(plan)
}
