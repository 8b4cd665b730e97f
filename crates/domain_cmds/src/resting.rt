//! A plan, and its routes at rest once they are asked for.
//!
//! **A route that a column does not have is none**, so the functions that write routes ask nothing of the columns that they are given; the routes
//! of a plan have all of them.
ghost use Rattle.std.specs.Prelude.{◌≡◌, ◌≢◌, ◌<◌, IfOk, true, false};
ghost use Rattle.domain_routes.specs.Edits.{linking, with_prefix};
ghost use Rattle.domain_routes.specs.PlanView.{IsPlan, PlanView, is_linked};
ghost use Rattle.domain_cmds.specs.Failures.{IsAlone};
ghost use Rattle.domain_cmds.specs.Rests.{AreAllRoutes};
ghost use Rattle.domain_cmds.specs.Script.{filtering};

use crate::routes::{Column, all_columns};
use crate::without::{routes_without_link, routes_without_node};
use domain_routes::Plan;
use filter_verifier::Verified;
use operator_cmds::Direction;
use prefix_patterns::Prefix;
use std::alloc::{AllocError, Global};
use std::marker::Model;
use std::sync::Arc;

/// A plan that keeps its routes at rest. A contract sees it as the plan.
#[derive(Drop)]
pub(crate) struct RestingPlan {
    /// The plan.
    plan: Plan,
    /// All its routes at rest, where they were computed since it last changed.
    rest: Option<Arc<Vec<Column>>>,
}

impl Model for RestingPlan {
    ghost use Rattle.std.specs.Prelude.{IfSome};
    ghost use Rattle.domain_routes.specs.PlanView.{PlanView};
    ghost use Rattle.domain_cmds.specs.Rests.{AreAllRoutes};

    ghost Value = { PlanView };

    ghost view = { λ r. r.plan };

    ghost invariant = { λ r. IfSome r.rest (λ all. AreAllRoutes r.plan all.value.items) };
}

impl RestingPlan {
    /// A plan of which no routes are known.
    pub(crate) fn new(plan: Plan) -> RestingPlan
        ensures { result ≡ plan }
    {
        RestingPlan { plan, rest: None }
    }

    /// The plan.
    pub(crate) fn plan(&self) -> &Plan
        ensures { result.now ≡ self.now }
    {
        &self.plan
    }

    /// The number of nodes.
    pub(crate) fn size(&self) -> u16
        ensures value { result ≡ self.now.size }
        ensures limits { IsPlan self.now }
    {
        self.plan.size()
    }

    /// Gives a node another prefix.
    pub(crate) fn set_prefix(&mut self, node: u16, prefix: Prefix)
        requires { node < self.old.size }
        ensures { self.new ≡ with_prefix node prefix self.old }
    {
        self.rest = None;
        self.plan.set_prefix(node, prefix);
    }

    /// Two nodes are neighbours from now on, or no more.
    pub(crate) fn set_linked(&mut self, u: u16, w: u16, linked: bool)
        requires u { u < self.old.size }
        requires w { w < self.old.size }
        requires apart { u ≢ w }
        ensures { self.new ≡ linking linked u w self.old }
    {
        self.rest = None;
        if linked {
            self.plan.link(u, w);
        } else {
            self.plan.cut(u, w);
        }
    }

    /// What the first node receives from the second, or tells it, passes this filter from now on.
    pub(crate) fn set_filter(&mut self, direction: Direction, u: u16, w: u16, filter: Arc<Verified>)
        requires u { u < self.old.size }
        requires w { w < self.old.size }
        requires fits { filter.value.size ≡ self.old.size }
        ensures { self.new ≡ filtering direction filter.value u w self.old }
    {
        self.rest = None;
        match direction {
            Direction::Import => self.plan.set_import(u, w, filter),
            Direction::Export => self.plan.set_export(u, w, filter),
        }
    }

    /// All routes at rest. They are computed once after each change.
    pub(crate) fn all_routes(&mut self, alloc: Global) -> Result<Arc<Vec<Column>>, AllocError>
        ensures all { IfOk result (λ all. AreAllRoutes self.old all.value.items) }
        ensures same { self.new ≡ self.old }
    {
        if let Some(all) = &self.rest {
            return Ok(Arc::try_clone(all)?);
        }
        let all = Arc::new(alloc, all_columns(alloc, &self.plan)?)?;
        self.rest = Some(Arc::try_clone(&all)?);
        Ok(all)
    }

    /// All routes at rest where the link between two nodes has failed.
    pub(crate) fn routes_without_link(
        &mut self,
        alloc: Global,
        u: u16,
        w: u16,
    ) -> Result<Vec<Column>, AllocError>
        requires u { u < self.old.size }
        requires w { w < self.old.size }
        requires apart { u ≢ w }
        requires linked { is_linked self.old u w ≡ true }
        ensures all { IfOk result (λ all. AreAllRoutes (linking false u w self.old) all.items) }
        ensures same { self.new ≡ self.old }
    {
        let before = self.all_routes(alloc)?;
        routes_without_link(alloc, &mut self.plan, before.as_slice(), u, w)
    }

    /// All routes at rest where a node has failed.
    pub(crate) fn routes_without_node(
        &mut self,
        alloc: Global,
        x: u16,
    ) -> Result<Vec<Column>, AllocError>
        requires { x < self.old.size }
        ensures all { IfOk result (λ all. (later : PlanView) × IsAlone x self.old later × AreAllRoutes later all.items) }
        ensures same { self.new ≡ self.old }
    {
        let before = self.all_routes(alloc)?;
        routes_without_node(alloc, &mut self.plan, before.as_slice(), x)
    }
}
