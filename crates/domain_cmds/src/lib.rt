//! The script of a whole domain: its commands, and the answers to them.
//!
//! **The script of a domain is the twin of the script of a router**, and takes from `operator_cmds` what is one meaning: its words, numbers, names
//! and their faults, filters that get names by text or file (`name_source`), the two directions of a filter, the default prefixes, and the lines
//! `ok`, `refused CODE AT` and `route D ..`. So `cut_word`, `one_word`, `two_words`, `three_words`, `read_small`, `is_name`, `default_prefixes`,
//! `confirm`, `refuse`, `push_via`, `Nobody`, `FilterSource`, `name_source` and `Direction` are public there. The operator of a running router
//! takes these too.
//!
//! **Questions are answered by the plan, and the routers are there for `settle` alone.** The plan takes N² places and no time; routers take N³
//! places. What happens is noted, and entered when `settle` is asked for: nothing is received in between, so that is the same.
//!
//! **The script of a file is read before its first line is answered**, while standard input is answered as it comes. What a file gives, no contract
//! says; of bytes in memory a contract can say that they were answered. It takes 16 MiB at most.
#![tactic(auto)]

mod asking;
mod command;
mod comparing;
mod comparison_report;
mod comparison_text;
mod counts;
mod engine;
mod failure;
mod failure_text;
mod failures;
mod fault;
mod felt;
mod filters;
mod laws;
mod left;
mod origins;
mod paged;
mod planning;
mod playing;
mod reach;
mod read;
mod resting;
mod routes;
mod said;
mod still;
mod text;
mod verb;
mod without;

pub use command::{DomainCommand, DomainSize, Question};
pub use engine::{run_domain, run_watched_domain};
pub use laws::{failures_stand_still_as_cuts, marks_are_of_a_plan};
pub use left::{Left, LeftDomain, compare_domains, leave_domain};
pub use paged::{Paged, run_paged_domain};
pub use planning::Planning;
pub use read::read_command;
