//! Sessions: readers of links enter what neighbours send into a router, and writers send what the router queued. Each session
//! runs in a thread of its own.
#![tactic(auto)]

mod channel_link;
mod ends;
mod fault;
mod gate;
mod gather;
mod job;
mod link;
mod memory_link;
mod promise;
mod reader;
mod run;
mod writer;

pub use channel_link::ChannelLink;
pub use ends::{Cause, ReadEnd, WriteEnd};
pub use fault::RunFault;
pub use gate::Gate;
pub use gather::merge_passes;
pub use job::{Ending, Finished, Job, Role};
pub use link::{Got, Link, LinkFault};
pub use memory_link::MemoryLink;
pub use reader::{is_stale, read_session};
pub use run::run_sessions;
pub use writer::{MOST_TAKEN, write_newest, write_session};
