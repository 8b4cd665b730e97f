//! What a router is told: by its command line, and by its file.
#![tactic(auto)]

mod gathering;
mod stated;

pub use gathering::{Clash, StatementFault, find_clash, gather};
pub use stated::{Origin, no_file, nth_stated};
