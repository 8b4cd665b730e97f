//! The text of a router's history, read and replayed; and of its segments, each of which begins with the state that the router was in.
//!
//! What is written is read back as the same opening and entries. Each history has one text, of the lines that `history_lines` writes.
#![tactic(auto)]

mod chain;
mod chain_lines;
mod fault;
mod history;
mod laws;
mod numbering;
mod reading;
mod state;
mod state_lines;
mod verdict;

pub use chain::{Chain, ChainFault, is_segment};
pub use chain_lines::{push_chain, push_chain_fault};
pub use fault::HistoryFault;
pub use history::{SavedHistory, read_history};
pub use laws::{chains_are_legal, one_history, one_state, segments_are_one_history};
pub use state::write_state;
pub use verdict::{ReplayVerdict, judge, push_verdict};
