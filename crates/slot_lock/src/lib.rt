//! The lock: many threads call one router, and all their answers stand in one history.
//!
//! **The journal is worked on in its slot** (`slot_mut`), and is not moved out and back in. So there is no empty slot to rule out.
#![tactic(auto)]

mod acquire;
mod answer;
mod fault;
mod laws;
mod pass;
mod right;
mod router;

pub use answer::Answer;
pub use fault::{LockFault, TryFault};
pub use laws::{counts_add_up, each_position_is_there, none_is_twice};
pub use lock_rule::Observer;
pub use pass::Pass;
pub use right::Right;
pub use router::{ALL_SHARES, Router};
