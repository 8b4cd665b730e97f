//! The tables of a Netchange router: what its neighbours told it, its routes, and what it has to tell them.
#![tactic(auto)]

mod best_route;
mod changing;
mod consistent;
mod destination;
mod down;
mod event;
mod filter;
mod filters;
mod handle;
mod laws;
mod message;
mod neighbour;
mod opening;
mod prefixes;
mod receive;
mod recomputing;
mod reply;
mod room;
mod sessions;
mod state;
mod tables;
mod take;
mod telling;
mod up;

pub use best_route::BestRoute;
pub use event::Event;
pub use filter::filtered_distance;
pub use laws::best_route_leads;
pub use message::{Message, Messages};
pub use neighbour::Neighbour;
pub use opening::Opening;
pub use prefixes::default_prefixes;
pub use reply::{EventRefusal, Reply, ReplyRef, Via};
pub use tables::Tables;
