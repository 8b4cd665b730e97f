//! What people are told of a line of a script that is refused: where it stands, what is wrong with it, and what to write in its place.
#![tactic(auto)]

mod cause;
mod command_words;
mod event_words;
mod finding;
mod forms;
mod line_words;
mod number_words;
mod spelling;
mod state_words;
mod telling;

pub use cause::{CAUSES, RefusalCause, read_cause};
pub use forms::ScriptKind;
pub use telling::explain_refused;
