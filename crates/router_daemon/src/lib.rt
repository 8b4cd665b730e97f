//! A router that talks: threads for its links, its operator and its history, round one `Router`.
//!
//! What the threads do is written in the crates below, which start none. A thread that waits for a file cannot be woken, so those of
//! links are not joined, nor is the one that tells people: they end with the process.
#![tactic(auto)]

mod bounding;
mod closing;
mod controls;
mod ending;
mod fault;
mod feeding;
mod filter_names;
mod filtering;
mod folder;
mod forgetting;
mod guards;
mod laws;
mod link_records;
mod link_state;
mod logging;
mod mailbox;
mod news;
mod opening;
mod operating;
mod outbox;
mod owed_downs;
mod queues;
mod relinking;
mod request_gate;
mod resting;
mod retrying;
mod router_passes;
mod run;
mod setting;
mod shared;
mod signals;
mod spares;
mod standard_input;
mod starting;
mod states;
mod station;
mod stations;
mod status;
mod supervisor;
mod telling;
mod waiting;
mod wanted;
mod watching;
mod writer;

pub use fault::DaemonFault;
pub use feeding::FeedFile;
pub use folder::LinkFolder;
pub use laws::{no_queue_is_overlooked, notes_add_up};
pub use run::{Surroundings, run_router};
pub use setting::{RouterEnd, Setting, VerifiedFilters};
pub use standard_input::{InputPipe, StandardInput};
