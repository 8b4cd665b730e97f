//! What each single failure in a domain changes.
ghost use Rattle.std.specs.Prelude.{◌≡◌, ◌≢◌, ◌<◌, ◌&&◌, nat_lt, IfOk, IsTrue, OnOk, true};
ghost use Rattle.domain_routes.specs.PlanView.{is_linked};
ghost use Rattle.domain_cmds.specs.Failures as spec;
ghost use Rattle.domain_cmds.specs.declared.failure.Failing.TheVariants as failing;

use crate::counts::{column_effect, one_if};
use crate::failure::{Failing, FailureEffect};
use crate::reach::phases_to_rest;
use crate::resting::RestingPlan;
use crate::routes::Column;
use crate::still::lesser;
use domain_routes::Plan;
use std::alloc::{AllocError, Global};

/// What a failure changes, by the routes before it and after it.
fn failure_of(size: u16, what: Failing, before: &[Column], after: &[Column]) -> FailureEffect
    ensures { result ≡ spec.failure_of size what before.now after.now }
{
    let (mut changed, mut lost, mut moved, mut still) = (0, 0, 0, size);
    for v in 0..size {
        let effect = column_effect(size, what, before, after, v);
        changed += effect.changed;
        lost += effect.lost;
        moved += one_if(effect.still < size);
        still = lesser(still, effect.still);
    }
    FailureEffect {
        what,
        changed,
        lost,
        moved,
        rounds: phases_to_rest(size, after),
        still,
    }
}

/// What the failure of a link changes.
fn link_failure(
    alloc: Global,
    domain: &mut RestingPlan,
    before: &[Column],
    u: u16,
    w: u16,
) -> Result<FailureEffect, AllocError>
    requires u { u < domain.old.size }
    requires w { w < domain.old.size }
    requires apart { u ≢ w }
    requires linked { is_linked domain.old u w ≡ true }
    ensures ok { IfOk result (λ failure. spec.IsFailure domain.old before.now (failing.Link u w) failure) }
    ensures same { domain.new ≡ domain.old }
{
    let after = domain.routes_without_link(alloc, u, w)?;
    Ok(failure_of(domain.size(), Failing::Link(u, w), before, after.as_slice()))
}

/// Whether there is a link between two nodes, of which the first is the lesser.
pub(crate) fn is_link(plan: &Plan, u: u16, w: u16) -> bool
    requires u { u < plan.now.size }
    requires w { w < plan.now.size }
    ensures value { result ≡ (nat_lt u w && is_linked plan.now u w) }
    ensures apart { IsTrue result → u ≢ w }
    ensures linked { IsTrue result → is_linked plan.now u w ≡ true }
{
    u < w && plan.is_linked(u, w)
}

/// Adds what the failure of the link between two nodes changes, if there is one, and the first is the lesser.
fn push_link(
    alloc: Global,
    domain: &mut RestingPlan,
    before: &[Column],
    u: u16,
    w: u16,
    found: &mut Vec<FailureEffect>,
) -> Result<(), AllocError>
    requires u { u < domain.old.size }
    requires w { w < domain.old.size }
    ensures ok { OnOk result (spec.AddsFailures domain.old before.now (spec.link_at domain.old u w) found.old.items found.new.items) }
    ensures same { domain.new ≡ domain.old }
{
    if is_link(domain.plan(), u, w) {
        let failure = link_failure(alloc, domain, before, u, w)?;
        found.push(failure)?;
        Ok(())
    } else {
        Ok(())
    }
}

/// Adds what the failure of each link of a node to a greater one changes.
fn push_links_of(
    alloc: Global,
    domain: &mut RestingPlan,
    before: &[Column],
    u: u16,
    found: &mut Vec<FailureEffect>,
) -> Result<(), AllocError>
    requires { u < domain.old.size }
    ensures ok { OnOk result (spec.AddsFailures domain.old before.now (spec.links_of domain.old u) found.old.items found.new.items) }
    ensures same { domain.new ≡ domain.old }
{
    for w in 0..domain.size() {
        push_link(alloc, domain, before, u, w, found)?;
    }
    Ok(())
}

/// What the failure of each link changes, by itself.
pub(crate) fn link_failures(
    alloc: Global,
    domain: &mut RestingPlan,
    before: &[Column],
) -> Result<Vec<FailureEffect>, AllocError>
    ensures ok { IfOk result (λ all. spec.AreFailures domain.old before.now (spec.all_links domain.old) all.items) }
    ensures same { domain.new ≡ domain.old }
{
    let mut found = Vec::new(alloc);
    for u in 0..domain.size() {
        push_links_of(alloc, domain, before, u, &mut found)?;
    }
    Ok(found)
}

/// What the failure of a node changes.
fn node_failure(
    alloc: Global,
    domain: &mut RestingPlan,
    before: &[Column],
    x: u16,
) -> Result<FailureEffect, AllocError>
    requires { x < domain.old.size }
    ensures ok { IfOk result (λ failure. spec.IsFailure domain.old before.now (failing.Node x) failure) }
    ensures same { domain.new ≡ domain.old }
{
    let later = domain.routes_without_node(alloc, x)?;
    Ok(failure_of(domain.size(), Failing::Node(x), before, later.as_slice()))
}

/// What the failure of each node changes, by itself.
pub(crate) fn node_failures(
    alloc: Global,
    domain: &mut RestingPlan,
    before: &[Column],
) -> Result<Vec<FailureEffect>, AllocError>
    ensures ok { IfOk result (λ all. spec.AreFailures domain.old before.now (spec.all_nodes domain.old) all.items) }
    ensures same { domain.new ≡ domain.old }
{
    let mut found = Vec::new(alloc);
    for x in 0..domain.size() {
        let failure = node_failure(alloc, domain, before, x)?;
        found.push(failure)?;
    }
    Ok(found)
}
