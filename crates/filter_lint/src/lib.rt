//! Warnings of filters that are verified and yet do what nobody means.
//!
//! **`check` tells W5 by itself, where it tells words, and the other warnings only where it is asked to.** Such a prefix is most often a typing
//! error, BIRD refuses the filter for it, and here it matches other routes than were meant. It is found by going through the tokens once, while the
//! search for the others through all routes may take long. It goes to standard error alone, and the status stays 0: the filter is one of the
//! language. Where a program reads the report, without words, nothing is told that was not asked for.
#![tactic(auto)]

mod allowing;
mod arithmetic;
mod checking;
mod commands;
mod conditions;
mod disorders;
mod finding;
mod hints;
mod host_bits;
mod known;
mod linting;
mod lowering;
mod members;
mod metrics;
mod overlaps;
mod rules;
mod sets;
mod site;
mod surveyed_filter;
mod variables;
mod warning;
mod warning_lines;
mod warning_reports;
mod watching;

pub use checking::check_report;
pub use linting::lint_report;
pub use members::{overlap_warnings, push_warning_words};
pub use site::Site;
pub use warning::{Operation, ValueBounds, Warning, WarningCause};
