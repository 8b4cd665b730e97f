//! What a running router tells of itself: one record, as a line for people and as an object for programs.
//!
//! **The line and the object are made from one record**, so that neither tells what the other does not.
//!
//! **The reason for which a link was closed last stands at the end of what is told of it**, since it alone has blanks; and the version at the end of
//! what is told of the router.
#![tactic(auto)]

mod form;
mod object;
mod routes;
mod status;
mod text;

pub use form::Form;
pub use object::push_status_object;
pub use routes::push_routes_object;
pub use status::{FilterStatus, LinkState, LinkStatus, NamedFilter, Status, is_same_code};
pub use text::push_status;
