//! What programs read of a domain: its filters, links, routes and failures as JSON, and what came of comparing two domains.
//!
//! **Values are made from plain numbers and bytes**, and know no domain: so what the members are called stands in one place, and the crate of the
//! script above it says what stands in them.
//!
//! **The page of a domain has the same value in it**, and is one constant text but for that and the name of the file.
//!
//! **Names and texts are read as UTF-8**: what is not is written as U+FFFD.
#![tactic(auto)]

mod comparison;
mod domain;
mod failure;
mod filter;
mod laws;
mod link;
mod lists;
mod page;
mod shell;

pub use comparison::{ComparisonReport, HarmReport, push_comparison};
pub use domain::{DomainReport, RouteReport, push_domain};
pub use failure::{Fails, FailureReport};
pub use filter::{Effect, FilterReport};
pub use laws::data_has_no_bracket;
pub use link::LinkReport;
pub use page::{Shell, push_page};
pub use shell::page_shell;
