//! The routers of a whole domain, which are played against one another until nothing is left to tell.
#![tactic(auto)]

mod fault;
mod filters;
mod links;
mod opening;
mod receiving;
mod routers;
mod sending;
mod sent;
mod settling;

pub use fault::{LinkingFault, SettleFault};
pub use routers::Routers;
pub use settling::Settled;
