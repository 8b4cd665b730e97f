//! What a running router is told on its command line, beyond numbers: its links, its prefixes, and which filters are used where.
#![tactic(auto)]

mod fault;
mod parts;
mod plan;

pub use fault::{NodeFault, NumberFault, OptionFault};
pub use parts::{ControlFiles, FilterUse, LinkFiles, NodePrefix};
pub use plan::{DomainMark, Numbers, RouterPlan, SMALLEST_ROOM, USUAL_QUEUE};
