//! The words of the command line of `ncroute`: what they ask for, and the help that is shown in its place.
#![tactic(auto)]

mod classes;
mod command_names;
mod commands;
mod diff_words;
mod domain_words;
mod environment;
mod filter_words;
mod format_words;
mod headings;
mod help;
mod lint_words;
mod options;
mod requests;
mod router_words;
mod run_words;
mod telling;
mod terminals;
mod test_words;
mod trying_words;
mod words;

pub use filter_words::{NamedFile, WrongFilter, filters_in};
pub use requests::{Request, RouteReport, RunOptions, Trying};
pub use router_words::RouterWords;
pub use telling::{Telling, is_explained};
pub use terminals::{Terminals, waits_for_people};
pub use words::{Invocation, read, request_of};
