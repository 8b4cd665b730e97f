//! What a change of a domain does.
//!
//! **A failure is blamed for what it does anew alone.** It takes a route anew that there is without it now, and that there was with it before. So
//! what the change itself takes is no failure's, and a node that gets its only link makes no failure worse.
ghost use Rattle.std.specs.Prelude.{◌≡◌, ◌<◌, ◌≤◌, ◌&&◌, ◌||◌, ◌++◌, ◌∷◌, [], if◌then◌else◌, nat_lt, IfOk, IsTrue, OnOk};
ghost use Rattle.domain_routes.specs.PlanView.{is_linked};
ghost use Rattle.domain_cmds.specs.Comparing as spec;
ghost use Rattle.domain_cmds.specs.Failures.{all_nodes};

use crate::counts::{is_lost, one_if};
use crate::failure::Failing;
use crate::resting::RestingPlan;
use crate::routes::{Column, route_of};
use crate::text::is_same;
use domain_routes::Plan;
use std::alloc::{AllocError, Global};
use std::sync::Arc;

/// What becomes of a route.
#[derive(Clone, Copy)]
pub(crate) enum Turn {
    /// It is no more.
    Lost,
    /// There was none.
    Gained,
    /// It has another distance or next hop.
    Changed,
}

/// What a failure does that it did not do before.
#[derive(Clone, Copy)]
pub(crate) struct Harm {
    /// What fails.
    pub(crate) what: Failing,
    /// How many routes it takes that it did not take before.
    pub(crate) loses: u32,
    /// How many it takes no longer.
    pub(crate) keeps: u32,
}

/// What a change does. Of each pair the first node is that of which the routes are.
#[derive(Drop)]
pub(crate) struct Comparison {
    /// The number of nodes.
    pub(crate) size: u16,
    /// Whose routes to whom are no more.
    pub(crate) lost: Vec<(u16, u16)>,
    /// Who has a route to whom that had none.
    pub(crate) gained: Vec<(u16, u16)>,
    /// Whose routes to whom have another distance or next hop.
    pub(crate) changed: Vec<(u16, u16)>,
    /// What failures do that they did not do before.
    pub(crate) harms: Vec<Harm>,
}

/// Whether one node has a route to another.
fn reaches(size: u16, all: &[Column], u: u16, v: u16) -> bool
    ensures { result ≡ spec.reaches size all.now u v }
{
    route_of(size, all, u, v).dist < size
}

/// Whether a route has turned so.
fn has_turned(turn: Turn, size: u16, before: &[Column], after: &[Column], u: u16, v: u16) -> bool
    ensures { result ≡ spec.has_turned turn size before.now after.now u v }
{
    let (was, is) = (reaches(size, before, u, v), reaches(size, after, u, v));
    match turn {
        Turn::Lost => was && !is,
        Turn::Gained => !was && is,
        Turn::Changed => {
            was && is && !is_same(route_of(size, after, u, v), route_of(size, before, u, v))
        }
    }
}

/// Adds two nodes, if the route of the first to the second has turned so.
fn push_turned_at(
    turn: Turn,
    size: u16,
    before: &[Column],
    after: &[Column],
    u: u16,
    v: u16,
    found: &mut Vec<(u16, u16)>,
) -> Result<(), AllocError>
    ensures { OnOk result (found.new.items ≡ found.old.items ++ spec.turned_at turn size before.now after.now u v) }
{
    if !has_turned(turn, size, before, after, u, v) {
        return Ok(());
    }
    found.push((u, v))?;
    Ok(())
}

/// Adds a node and each to which its route has turned so.
fn push_turned_of(
    turn: Turn,
    size: u16,
    before: &[Column],
    after: &[Column],
    u: u16,
    found: &mut Vec<(u16, u16)>,
) -> Result<(), AllocError>
    ensures { OnOk result (found.new.items ≡ found.old.items ++ spec.turned_of turn size before.now after.now u) }
{
    for v in 0..size {
        push_turned_at(turn, size, before, after, u, v, found)?;
    }
    Ok(())
}

/// Whose routes to whom have turned so.
fn turned(
    alloc: Global,
    turn: Turn,
    size: u16,
    before: &[Column],
    after: &[Column],
) -> Result<Vec<(u16, u16)>, AllocError>
    ensures { IfOk result (λ found. found.items ≡ spec.turned turn size before.now after.now) }
{
    let mut found = Vec::new(alloc);
    for u in 0..size {
        push_turned_of(turn, size, before, after, u, &mut found)?;
    }
    Ok(found)
}

/// Whether a failure takes the route of one node to another now, which it did not then.
fn is_taken_anew(
    size: u16,
    what: Failing,
    then_failed: &[Column],
    now: &[Column],
    now_failed: &[Column],
    u: u16,
    v: u16,
) -> bool
    ensures { result ≡ spec.is_taken_anew size what then_failed.now now.now now_failed.now u v }
{
    is_lost(size, what, now, now_failed, u, v) && reaches(size, then_failed, u, v)
}

/// How many routes of a node a failure takes now, which it did not then.
fn taken_anew_of(
    size: u16,
    what: Failing,
    then_failed: &[Column],
    now: &[Column],
    now_failed: &[Column],
    u: u16,
) -> u32
    ensures value { result ≡ spec.taken_anew_of size what then_failed.now now.now now_failed.now u }
    ensures few { result ≤ size }
{
    let mut count = 0;
    for v in 0..size {
        count += one_if(is_taken_anew(size, what, then_failed, now, now_failed, u, v));
    }
    count
}

/// How many routes a failure takes now, which it did not then.
fn taken_anew(
    size: u16,
    what: Failing,
    then_failed: &[Column],
    now: &[Column],
    now_failed: &[Column],
) -> u32
    ensures { result ≡ spec.taken_anew size what then_failed.now now.now now_failed.now }
{
    let mut sum = 0;
    for u in 0..size {
        sum += taken_anew_of(size, what, then_failed, now, now_failed, u);
    }
    sum
}

/// What a failure does after a change that it did not do before it.
fn harm_of(
    size: u16,
    what: Failing,
    before: &[Column],
    before_failed: &[Column],
    after: &[Column],
    after_failed: &[Column],
) -> Harm
    ensures { result ≡ spec.harm_of size what before.now before_failed.now after.now after_failed.now }
{
    Harm {
        what,
        loses: taken_anew(size, what, before_failed, after, after_failed),
        keeps: taken_anew(size, what, after_failed, before, before_failed),
    }
}

/// All routes at rest where a link has failed. A link that is not there changes nothing.
fn routes_without_any_link(
    alloc: Global,
    domain: &mut RestingPlan,
    u: u16,
    w: u16,
) -> Result<Arc<Vec<Column>>, AllocError>
    requires u { u < domain.old.size }
    requires w { w < domain.old.size }
    requires apart { u < w }
    ensures all { IfOk result (λ all. spec.AreRoutesWithout (Failing.Link u w) domain.old all.value.items) }
    ensures same { domain.new ≡ domain.old }
{
    if !domain.plan().is_linked(u, w) {
        return domain.all_routes(alloc);
    }
    let all = domain.routes_without_link(alloc, u, w)?;
    Ok(Arc::new(alloc, all)?)
}

/// All routes at rest where a node has failed.
fn routes_without_any_node(
    alloc: Global,
    domain: &mut RestingPlan,
    x: u16,
) -> Result<Arc<Vec<Column>>, AllocError>
    requires { x < domain.old.size }
    ensures all { IfOk result (λ all. spec.AreRoutesWithout (Failing.Node x) domain.old all.value.items) }
    ensures same { domain.new ≡ domain.old }
{
    let all = domain.routes_without_node(alloc, x)?;
    Ok(Arc::new(alloc, all)?)
}

/// Whether a failure does what it did not do, or no longer does what it did.
fn has_turned_harm(harm: Harm) -> bool
    ensures { result ≡ spec.has_turned_harm harm }
{
    harm.loses > 0 || harm.keeps > 0
}

/// Adds what a failure does, if that is so.
fn push_harm(found: &mut Vec<Harm>, harm: Harm) -> Result<(), AllocError>
    ensures { OnOk result (found.new.items ≡ found.old.items ++ (if spec.has_turned_harm harm then harm ∷ [] else [])) }
{
    if !has_turned_harm(harm) {
        return Ok(());
    }
    found.push(harm)?;
    Ok(())
}

/// Whether two nodes, of which the first is the lesser, have a link before a change or after it.
fn is_link_of_either(old: &Plan, new: &Plan, u: u16, w: u16) -> bool
    requires u { u < old.now.size }
    requires w { w < old.now.size }
    requires sizes { new.now.size ≡ old.now.size }
    ensures value { result ≡ (nat_lt u w && (is_linked old.now u w || is_linked new.now u w)) }
    ensures apart { IsTrue result → u < w }
{
    u < w && (old.is_linked(u, w) || new.is_linked(u, w))
}

/// Adds what the failure of the link between two nodes does anew, if there is one before or after.
fn push_link_harm(
    alloc: Global,
    old: &mut RestingPlan,
    new: &mut RestingPlan,
    before: &[Column],
    after: &[Column],
    u: u16,
    w: u16,
    found: &mut Vec<Harm>,
) -> Result<(), AllocError>
    requires u { u < old.old.size }
    requires w { w < old.old.size }
    requires sizes { new.old.size ≡ old.old.size }
    ensures ok { OnOk result (spec.AddsHarms old.old new.old before.now after.now (spec.link_of_either old.old new.old u w) found.old.items found.new.items) }
    ensures same { (old.new ≡ old.old) × (new.new ≡ new.old) }
{
    if !is_link_of_either(old.plan(), new.plan(), u, w) {
        return Ok(());
    }
    let before_failed = routes_without_any_link(alloc, old, u, w)?;
    let after_failed = routes_without_any_link(alloc, new, u, w)?;
    let harm = harm_of(
        old.size(),
        Failing::Link(u, w),
        before,
        before_failed.as_slice(),
        after,
        after_failed.as_slice(),
    );
    push_harm(found, harm)
}

/// Adds what the failure of each link of a node to a greater one does anew.
fn push_link_harms_of(
    alloc: Global,
    old: &mut RestingPlan,
    new: &mut RestingPlan,
    before: &[Column],
    after: &[Column],
    u: u16,
    found: &mut Vec<Harm>,
) -> Result<(), AllocError>
    requires u { u < old.old.size }
    requires sizes { new.old.size ≡ old.old.size }
    ensures ok { OnOk result (spec.AddsHarms old.old new.old before.now after.now (spec.links_of_either old.old new.old u) found.old.items found.new.items) }
    ensures same { (old.new ≡ old.old) × (new.new ≡ new.old) }
{
    for w in 0..old.size() {
        push_link_harm(alloc, old, new, before, after, u, w, found)?;
    }
    Ok(())
}

/// Adds what the failure of each link does anew.
fn push_link_harms(
    alloc: Global,
    old: &mut RestingPlan,
    new: &mut RestingPlan,
    before: &[Column],
    after: &[Column],
    found: &mut Vec<Harm>,
) -> Result<(), AllocError>
    requires sizes { new.old.size ≡ old.old.size }
    ensures ok { OnOk result (spec.AddsHarms old.old new.old before.now after.now (spec.all_links_of_either old.old new.old) found.old.items found.new.items) }
    ensures same { (old.new ≡ old.old) × (new.new ≡ new.old) }
{
    for u in 0..old.size() {
        push_link_harms_of(alloc, old, new, before, after, u, found)?;
    }
    Ok(())
}

/// Adds what the failure of a node does anew.
fn push_node_harm(
    alloc: Global,
    old: &mut RestingPlan,
    new: &mut RestingPlan,
    before: &[Column],
    after: &[Column],
    x: u16,
    found: &mut Vec<Harm>,
) -> Result<(), AllocError>
    requires node { x < old.old.size }
    requires sizes { new.old.size ≡ old.old.size }
    ensures ok { OnOk result (spec.AddsHarms old.old new.old before.now after.now (Failing.Node x ∷ []) found.old.items found.new.items) }
    ensures same { (old.new ≡ old.old) × (new.new ≡ new.old) }
{
    let before_failed = routes_without_any_node(alloc, old, x)?;
    let after_failed = routes_without_any_node(alloc, new, x)?;
    let harm = harm_of(
        old.size(),
        Failing::Node(x),
        before,
        before_failed.as_slice(),
        after,
        after_failed.as_slice(),
    );
    push_harm(found, harm)
}

/// Adds what the failure of each node does anew.
fn push_node_harms(
    alloc: Global,
    old: &mut RestingPlan,
    new: &mut RestingPlan,
    before: &[Column],
    after: &[Column],
    found: &mut Vec<Harm>,
) -> Result<(), AllocError>
    requires sizes { new.old.size ≡ old.old.size }
    ensures ok { OnOk result (spec.AddsHarms old.old new.old before.now after.now (all_nodes old.old) found.old.items found.new.items) }
    ensures same { (old.new ≡ old.old) × (new.new ≡ new.old) }
{
    for x in 0..old.size() {
        push_node_harm(alloc, old, new, before, after, x, found)?;
    }
    Ok(())
}

/// What failures do after a change that they did not do before it.
fn harms(
    alloc: Global,
    old: &mut RestingPlan,
    new: &mut RestingPlan,
    before: &[Column],
    after: &[Column],
) -> Result<Vec<Harm>, AllocError>
    requires sizes { new.old.size ≡ old.old.size }
    ensures ok { IfOk result (λ found. spec.AreHarms old.old new.old before.now after.now (spec.all_failing old.old new.old) found.items) }
    ensures same { (old.new ≡ old.old) × (new.new ≡ new.old) }
{
    let mut found = Vec::new(alloc);
    push_link_harms(alloc, old, new, before, after, &mut found)?;
    push_node_harms(alloc, old, new, before, after, &mut found)?;
    Ok(found)
}

/// What the change of one domain to another of as many nodes does.
pub(crate) fn comparison_of(
    alloc: Global,
    old: &mut RestingPlan,
    new: &mut RestingPlan,
) -> Result<Comparison, AllocError>
    requires sizes { new.old.size ≡ old.old.size }
    ensures ok { IfOk result (λ found. spec.IsComparison old.old new.old (spec.comparison_view found)) }
    ensures same { (old.new ≡ old.old) × (new.new ≡ new.old) }
{
    let size = old.size();
    let before = old.all_routes(alloc)?;
    let after = new.all_routes(alloc)?;
    let (was, is) = (before.as_slice(), after.as_slice());
    let harms = harms(alloc, old, new, was, is)?;
    Ok(Comparison {
        size,
        lost: turned(alloc, Turn::Lost, size, was, is)?,
        gained: turned(alloc, Turn::Gained, size, was, is)?,
        changed: turned(alloc, Turn::Changed, size, was, is)?,
        harms,
    })
}

/// Whether some failure takes routes that it did not take before.
fn has_loss(harms: &[Harm]) -> bool
    ensures { result ≡ spec.has_loss harms.now }
{
    for harm in harms {
        if harm.loses > 0 {
            return true;
        }
    }
    false
}

impl Comparison {
    /// Whether something is lost: a route, or what remained when something failed.
    pub(crate) fn loses_something(&self) -> bool
        ensures { result ≡ spec.loses_something (spec.comparison_view self.now) }
    {
        !self.lost.is_empty() || has_loss(self.harms.as_slice())
    }
}
