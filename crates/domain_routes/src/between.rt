//! Between which two plans a plan stayed since a moment.
//!
//! **The greatest has each link that there was at any time since, and no filter where one was set; the least has only the links to which nothing was
//! done.** So a link that was cut and made again, or whose node began anew, is in the one and not in the other, and so is a link on which a filter was
//! set: that filter may have let pass what no other did, or have rejected all. What both say alike is true of each plan between them, and
//! of all that their routers do on the way from one to the other (`what_is_near_stands_still`): no distance below K changes, K being the least
//! distance on which the two differ, nor a next hop that both have.
//!
//! **What was done is remembered, and not found** by comparing the plan with what it was: what links did in between counts, too.
//!
//! **Two plans are kept, and no list of what was done.** An edit of both takes no memory, and they are plans like others, of which routes are asked.
//! A filter that is set between nodes without a link counts as if they had been linked meanwhile.
ghost use Rattle.std.specs.Prelude.{◌≡◌, ◌≢◌, ◌<◌, IfOk};
ghost use Rattle.domain_routes.specs.Still as spec;

use crate::plan::Plan;
use std::alloc::{AllocError, Global};
use std::marker::Model;

/// The two plans between which a plan stayed since a moment. A contract sees them as a `BetweenView`.
#[derive(Drop)]
pub struct Between {
    most: Plan,
    least: Plan,
}

impl Model for Between {
    ghost use Rattle.std.specs.Prelude.{◌≡◌};
    ghost use Rattle.domain_routes.specs.Still.{BetweenView};

    ghost Value = { BetweenView };

    ghost view = { λ b. record { most = b.most; least = b.least } };

    // Both have the same nodes.
    ghost invariant = { λ b. b.least.size ≡ b.most.size };
}

impl Between {
    /// Nothing was done to a plan yet.
    pub fn new(alloc: Global, plan: &Plan) -> Result<Between, AllocError>
        ensures { IfOk result (λ b. b ≡ spec.unchanged plan.now) }
    {
        let most = plan.copy(alloc)?;
        let least = plan.copy(alloc)?;
        Ok(Between { most, least })
    }

    /// The plan with each link that there was, and without filters where one was set.
    pub fn most(&self) -> &Plan
        ensures { result.now ≡ self.now.most }
    {
        &self.most
    }

    /// The plan with the links alone to which nothing was done.
    pub fn least(&self) -> &Plan
        ensures { result.now ≡ self.now.least }
    {
        &self.least
    }

    /// The link between two nodes was made or cut, or came and went.
    pub fn loosen_link(&mut self, u: u16, w: u16)
        requires u { u < self.old.most.size }
        requires w { w < self.old.most.size }
        requires apart { u ≢ w }
        ensures { self.new ≡ spec.after_link u w self.old }
    {
        self.most.link(u, w);
        self.least.cut(u, w);
    }

    /// A filter was set that what the first node receives from the second passes, at either of them.
    pub fn loosen_filter(&mut self, u: u16, w: u16)
        requires u { u < self.old.most.size }
        requires w { w < self.old.most.size }
        requires apart { u ≢ w }
        ensures { self.new ≡ spec.after_filter u w self.old }
    {
        self.loosen_link(u, w);
        self.most.take_filters_off(u, w);
    }

    /// A node of a plan began anew: each of its links came and went.
    pub fn loosen_node(&mut self, plan: &Plan, u: u16)
        requires node { u < plan.now.size }
        requires size { self.old.most.size ≡ plan.now.size }
        ensures { self.new ≡ spec.after_anew plan.now u self.old }
    {
        for w in 0..plan.size() {
            if plan.is_linked(u, w) {
                self.loosen_link(u, w);
            }
        }
    }
}
