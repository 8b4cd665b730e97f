//! The routes on which two filters differ, as lines for people and programs: `diff` prints them, and a router that reads its files again.
//!
//! **It is a crate of its own**, over the search of `filter_diff` alone, so that a router waits for no report on a filter's text.
#![tactic(auto)]

mod differences;
mod part_lines;

pub use differences::{difference_text, find_parts};
pub use part_lines::{
    hidden_count, parts_text, push_ending, push_hidden_words, push_last_words, push_outcome,
    push_part_words, shown_parts,
};
