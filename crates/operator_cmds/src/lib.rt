//! The operator's commands: how they are read, and what is answered to them.
//!
//! **Names are kept in a `BTreeMap` of std**, and looked up as a slice of the line. A `HashMap` of std hashes with a seed that everyone knows, so
//! whoever chose the names could make each of them take as long as all before it together. In an order, the worst names take the logarithm.
#![tactic(auto)]

mod command;
mod event;
mod fault;
mod filter;
mod kept;
mod laws;
mod long;
mod look;
mod plain;
mod read;
mod reply;
mod verb;
mod watch;
mod words;

pub use command::{Command, Look, Network};
pub use event::{Direction, enter, session_number};
pub use fault::{CommandFault, StateFault};
pub use filter::{FilterSource, NamedFilters, give_name, name_source, verify_text};
pub use kept::answer_kept;
pub use laws::{one_line_one_entry, two_runs_are_answered_alike};
pub use long::read_long;
pub use look::{answer_history, answer_look};
pub use plain::{PlainCommand, read_plain};
pub use read::{read_code, read_command, read_load, read_node, read_node_prefix, read_small};
pub use reply::{answer_reply, confirm, push_via, refuse};
pub use watch::{NoWatcher, RefusedLine, Watch};
pub use words::{cut_word, one_word, text_in, three_words, two_words};

/// The most entries that are told at once.
pub const HISTORY_COUNT: usize = 100;
