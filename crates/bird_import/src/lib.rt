//! From a configuration of BIRD to filters: its text is taken apart, and each filter of it becomes a text that the parser takes, or is
//! left out with the reason.
#![tactic(auto)]

mod blocks;
mod calls;
mod case_rules;
mod cases;
mod config;
mod conversions;
mod cut;
mod declarations;
mod defines;
mod fits;
mod functions;
mod includes;
mod items;
mod names;
mod operators;
mod outline;
mod printing;
mod reason;
mod rules;
mod scopes;
mod set_variables;
mod sets;
mod step;
mod text;
mod unknown;
mod unset;
mod word;

pub use config::Config;
pub use conversions::{Conversion, ConversionOutcome, make_conversions};
pub use cut::{Cut, cut_words, one_cut};
pub use includes::{Include, find_includes};
pub use items::{Definition, Item, ItemKind, find_definitions, find_items};
pub use reason::{Reason, Why, reason_words};
pub use text::{FilterText, Origin, TextOutcome, origin_of, write_filter};
pub use word::{Word, WordKind};
