//! One session with a neighbour over two streams, from the greeting to the Down: who reads, who writes, and what ends it.
#![tactic(auto)]

mod calls;
mod ends;
mod finish;
mod greeting;
mod guard;
mod links;
mod read;
mod waiting;
mod write;

pub use calls::{enter_down, enter_up};
pub use ends::{GreetingFault, SessionEnd};
pub use finish::end_session;
pub use greeting::{Domain, Ears, meet};
pub use guard::{EndedGuard, READER, SessionGuard};
pub use read::serve_reader;
pub use waiting::pause;
pub use write::serve_writer;
