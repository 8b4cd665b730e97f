//! The names and kinds of filters: which of the filters that the grammar has are fit to be compiled.
//!
//! A *kind* is one of int, bool, ip and prefix. This crate's name, `Typed` and `TypeFault` are the field's words for
//! checking such kinds; everywhere else the word is kind.
#![tactic(auto)]

mod commands;
mod fault;
mod kinds;
mod labels;
mod parts;
mod table;
mod typed;
mod variables;

pub use fault::{ExpectedKind, TypeFault};
pub use typed::{Typed, Untyped, check, check_explained};
