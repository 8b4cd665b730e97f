//! What it is good for that filters keep the order of metrics: the domain that they are used in. What `check_order` of `filter_diff` finds of each
//! filter is what the laws of `routing_domain` on new links ask of the whole domain. Definitions and laws, without code.
#![tactic(auto)]

mod laws;

pub use laws::{checked_filters_keep_order, checked_filters_make_no_loop};
