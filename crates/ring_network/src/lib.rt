//! Three routers in a ring, each in threads of its own: the engine of the command `net`.
//!
//! **The engine of `net` is a crate of its own**, as the engines of `eval` and `check` are: other programs can call `net_lines`, and an edit of it
//! does not have the program's use of `clap` proved again.
#![tactic(auto)]

mod fault;
mod net;
mod node;
mod replays;
mod ring;

pub use fault::NetworkFault;
pub use net::{net_lines, run_and_replay};
pub use replays::{Replayed, replay_ring};
pub use ring::{Ring, run_ring};
