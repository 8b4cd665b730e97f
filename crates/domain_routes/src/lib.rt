//! Routes through a whole domain: which routes there will be at rest, computed from the links between the nodes and the
//! filters on them, without running a router.
#![tactic(auto)]

mod best;
mod between;
mod cutting;
mod laws;
mod peer;
mod plan;
mod row;
mod solving;

pub use best::Best;
pub use between::Between;
pub use laws::{
    domains_follow_plans, edits_change_one_place, plans_stay_between,
    quiet_routers_have_the_routes, reach_bounds_phases, rest_is_of_the_domain, routes_are_one,
    what_is_near_stands_still,
};
pub use plan::Plan;
