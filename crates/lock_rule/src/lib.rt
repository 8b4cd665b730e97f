//! The rule of the lock round a router's journal, and the steps that keep it. No other crate can make a step at such a table.
//!
//! **The rule and its steps are a crate of their own.** `slot_lock` has tables and seats as types with private fields, so no further step can be
//! made there: what is proved of a call rests on the few functions of one file.
#![tactic(auto)]

mod journal_lock;
mod observer;
mod rule;
mod steps;

pub use journal_lock::{JournalLock, LockSeat};
pub use observer::Observer;
pub use rule::{Fragment, View};
