//! How a program reads, writes, and tells people of faults and refusals.
#![tactic(auto)]

mod beside;
mod commands;
mod console;
mod ending;
mod folder;
mod limited;
mod notices;
mod sources;

pub use beside::{included_path, path_beside};
pub use commands::{TextCommand, report_source, run_on, run_on_all, unread_report};
pub use console::{Console, Loaded};
pub use ending::{Program, end_by_fault, fault_line, is_any, report_fault, worst_status};
pub use folder::Folder;
pub use limited::read_config;
pub use notices::{broken_line, tell_of, tell_uncreated, tell_unread, tell_unwritten, write_line};
pub use sources::{SourceText, Unread, load, name_of, read_source};
