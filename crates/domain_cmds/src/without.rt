//! The routes of a plan where something has failed.
//!
//! **The plan itself is cut, and mended afterwards**, also where memory is refused in between. A second plan would have to be a copy of each place
//! between two nodes.
//!
//! **The routes before are used again**: most of them are left, and only the others are found anew.
ghost use Rattle.std.specs.Prelude.{◌≡◌, ◌≢◌, ◌<◌, ◌≤◌, ℕ, IfOk, true, false};
ghost use Rattle.domain_routes.specs.Edits.{linking};
ghost use Rattle.domain_routes.specs.PlanView.{PlanView, is_linked};
ghost use Rattle.domain_cmds.specs.Failures.{IsAlone};
ghost use Rattle.domain_cmds.specs.Rests.{AreAllRoutes, WereAllRoutes};

use crate::routes::{Column, columns_after_cuts};
use domain_routes::Plan;
use std::alloc::{AllocError, Global};

/// All routes at rest where a link has failed, by those before. The plan is as it was, afterwards.
pub(crate) fn routes_without_link(
    alloc: Global,
    plan: &mut Plan,
    before: &[Column],
    u: u16,
    w: u16,
) -> Result<Vec<Column>, AllocError>
    requires u { u < plan.old.size }
    requires w { w < plan.old.size }
    requires apart { u ≢ w }
    requires linked { is_linked plan.old u w ≡ true }
    requires before { AreAllRoutes plan.old before.now }
    ensures all { IfOk result (λ all. AreAllRoutes (linking false u w plan.old) all.items) }
    ensures same { plan.new ≡ plan.old }
{
    plan.cut(u, w);
    let all = columns_after_cuts(alloc, plan, before);
    plan.link(u, w);
    all
}

/// All routes at rest where a node has no links, if those to lesser nodes than this one were cut before, by the routes when there were more links.
/// The plan is as it was, afterwards.
fn routes_without_links(
    alloc: Global,
    plan: &mut Plan,
    before: &[Column],
    x: u16,
    w: u16,
) -> Result<Vec<Column>, AllocError>
    requires node { x < plan.old.size }
    requires within { w ≤ plan.old.size }
    requires cut { (k : ℕ) → k < w → is_linked plan.old x k ≡ false }
    requires before { WereAllRoutes plan.old before.now }
    ensures all { IfOk result (λ all. (later : PlanView) × IsAlone x plan.old later × AreAllRoutes later all.items) }
    ensures same { plan.new ≡ plan.old }
{
    if w >= plan.size() {
        return columns_after_cuts(alloc, plan, before);
    }
    if !plan.is_linked(x, w) {
        return routes_without_links(alloc, plan, before, x, w + 1);
    }
    plan.cut(x, w);
    let all = routes_without_links(alloc, plan, before, x, w + 1);
    plan.link(x, w);
    all
}

/// All routes at rest where a node has failed, by those before. The plan is as it was, afterwards.
pub(crate) fn routes_without_node(
    alloc: Global,
    plan: &mut Plan,
    before: &[Column],
    x: u16,
) -> Result<Vec<Column>, AllocError>
    requires node { x < plan.old.size }
    requires before { AreAllRoutes plan.old before.now }
    ensures all { IfOk result (λ all. (later : PlanView) × IsAlone x plan.old later × AreAllRoutes later all.items) }
    ensures same { plan.new ≡ plan.old }
{
    routes_without_links(alloc, plan, before, x, 0)
}
