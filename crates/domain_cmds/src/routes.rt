//! Routes at rest, kept.
//!
//! **All routes are kept until the plan changes**, since `table`, `mark` and `changes` come in groups. `mark` and the routes in use share one
//! table. Once links were cut, most of these routes are left.
ghost use Rattle.std.specs.Prelude.{◌≡◌, ◌<◌, IfOk};
ghost use Rattle.domain_routes.specs.Cuts.{WereRoutes};
ghost use Rattle.domain_routes.specs.Routes as rest;
ghost use Rattle.domain_routes.specs.Topology.{topology};
ghost use Rattle.domain_cmds.specs.Rests.{AreAllRoutes, WereAllRoutes};
ghost use Rattle.domain_cmds.specs.Texts as spec;

use domain_routes::{Best, Plan};
use netchange_core::Via;
use std::alloc::{AllocError, Global};
use std::marker::Model;

/// The routes of all nodes to one destination, by the node's number. A contract sees them as a list.
#[derive(Drop)]
pub(crate) struct Column {
    routes: Vec<Best>,
}

impl Model for Column {
    ghost use Rattle.std.specs.Prelude.{List};
    ghost use Rattle.domain_routes.specs.declared.best.Best.{Best};

    ghost Value = { List Best };

    ghost view = { λ c. c.routes.items };
}

/// No route, in a domain of so many nodes.
fn nowhere(size: u16) -> Best
    ensures { result ≡ rest.nowhere size }
{
    Best {
        dist: size,
        via: Via::Nowhere,
    }
}

impl Column {
    /// The route of a node, in a domain of so many nodes. One that is not in the column has none.
    pub(crate) fn at(&self, size: u16, u: u16) -> Best
        ensures { result ≡ spec.route_in size self.now u }
    {
        let node = usize::from(u);
        if node < self.routes.len() {
            self.routes[node]
        } else {
            nowhere(size)
        }
    }
}

/// The route of the first node to the second, in a domain of so many nodes. To one that has no column there is none.
pub(crate) fn route_of(size: u16, all: &[Column], u: u16, v: u16) -> Best
    ensures { result ≡ spec.route_of size all.now u v }
{
    let dest = usize::from(v);
    if dest < all.len() {
        all[dest].at(size, u)
    } else {
        nowhere(size)
    }
}

/// The routes to a destination, when the domain is at rest.
pub(crate) fn make_column(alloc: Global, plan: &Plan, v: u16) -> Result<Column, AllocError>
    requires { v < plan.now.size }
    ensures { IfOk result (λ routes. rest.AreRoutes (topology plan.now v) v routes) }
{
    Ok(Column {
        routes: plan.routes_to(alloc, v)?,
    })
}

/// The routes to each destination, by its number, when the domain is at rest.
pub(crate) fn all_columns(alloc: Global, plan: &Plan) -> Result<Vec<Column>, AllocError>
    ensures { IfOk result (λ all. AreAllRoutes plan.now all.items) }
{
    let mut all = Vec::with_capacity(alloc, usize::from(plan.size()))?;
    for v in 0..plan.size() {
        all.push(make_column(alloc, plan, v)?)?;
    }
    Ok(all)
}

/// The routes to a destination once links were cut, by those before.
fn column_after_cuts(
    alloc: Global,
    plan: &Plan,
    before: &Column,
    v: u16,
) -> Result<Column, AllocError>
    requires node { v < plan.now.size }
    requires before { WereRoutes plan.now v before.now }
    ensures { IfOk result (λ routes. rest.AreRoutes (topology plan.now v) v routes) }
{
    Ok(Column {
        routes: plan.routes_after_cuts(alloc, v, before.routes.as_slice())?,
    })
}

/// The routes to each destination, by its number, once links were cut, by those before.
pub(crate) fn columns_after_cuts(
    alloc: Global,
    plan: &Plan,
    before: &[Column],
) -> Result<Vec<Column>, AllocError>
    requires { WereAllRoutes plan.now before.now }
    ensures { IfOk result (λ all. AreAllRoutes plan.now all.items) }
{
    let mut all = Vec::with_capacity(alloc, usize::from(plan.size()))?;
    for v in 0..plan.size() {
        let column = &before[usize::from(v)];
        all.push(column_after_cuts(alloc, plan, column, v)?)?;
    }
    Ok(all)
}
