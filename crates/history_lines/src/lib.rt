//! The lines of a router's history: one for its opening, and one for each entry with its reply. Each history has one text.
//!
//! **A history is text, a line an entry**, and not bytes: it can be looked at and compared with the tools that people have, and a line that was not
//! written to its end is seen as such. A filter stands there as its code, so a history needs no other file, and with the size that it was verified
//! for, so that an event that was refused for another size has a text too.
//!
//! **The lines are a crate of their own**, below `history_file`, which reads them: an operator who looks at a history has them written, and nobody
//! reads there.
#![tactic(auto)]

mod keyword;
mod writing;

pub use keyword::{HistoryKeyword, find_keyword, find_refusal};
pub use writing::{
    push_entry, push_filter, push_keyword, push_messages, push_number, push_opening,
    push_opening_words, push_reply, push_word, write_entry, write_opening,
};
