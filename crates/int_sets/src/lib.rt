//! Sets of ints: ranges of numbers, and whether one of them holds a number.
//!
//! **Sets of ints are a crate of their own**, below `filter_code`, since they need no prefix: so both kinds of set are proved side by side. A set
//! of up to 8 ranges is scanned. A larger one keeps a second list, its ranges sorted by their first numbers and merged where they share a number,
//! so that from range to range neither the first numbers fall nor the last. A search by halves counts the ranges that begin at a number or before
//! it, and the number is in the set if and only if the last of these reaches it.
#![tactic(auto)]

mod fault;
mod merge;
mod range;
mod search;
mod set;

pub use fault::SetFault;
pub use range::IntRange;
pub use set::{IntSet, RANGE_LIMIT};
