//! IPv4 addresses, prefixes, patterns for prefixes and sets of patterns, and the readers of addresses and prefixes.
#![tactic(auto)]

mod address;
mod display;
mod index;
mod leading;
mod leaf;
mod lengths;
mod number;
mod pattern;
mod prefix;
mod set;
mod token;
mod tree;
mod written;

pub use address::{ADDRESS_LENGTH, Ip};
pub use display::displayed_text_is_read;
pub use leading::{after_byte, leading_number, leading_prefix, leading_written};
pub use number::read_number;
pub use pattern::Pattern;
pub use prefix::Prefix;
pub use set::{PATTERN_LIMIT, PatternSet, SetFault};
pub use token::{cut_at, read_ip, read_prefix, read_written};
pub use written::WrittenPrefix;
