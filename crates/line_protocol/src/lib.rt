//! Lines in, answers out: the protocol that each of this project's line engines speaks.
//!
//! A line ends with a line feed, and one carriage return directly before that is no part of it. A
//! last line that no line feed ends counts too, and a carriage return at its end is a part of it.
//! Lines are numbered from 1. Empty lines and lines that begin with `#` are counted and skipped.
//! `answer_lines` reads in blocks, has a `Service` answer each other line, and writes the answers.
//! These rules are this project's own choice.
//!
//! **`line_protocol` is a crate of its own.** The rules of lines, words, numbering, limits and block-wise answering are the same for `eval`,
//! `filter` and the scripts. They are proved once, below all of them. The engine is generic over a *service*, a trait whose ghost member says which
//! answers a line may get, so it knows nothing of filters.
#![tactic(auto)]

mod answers;
mod engine;
mod faults;
mod input;
mod name;
mod spelled;
mod streams;
mod words;

pub use answers::{LineReply, Service, push_decimal, push_refusal};
pub use engine::{answer_lines, answer_lines_within, is_skipped, strip_carriage_return};
pub use faults::StreamFault;
pub use input::read_input;
pub use name::is_name;
pub use spelled::{Spelled, first_spelled};
pub use streams::{read_some, write_text};
pub use words::{next_word, trim_blanks, trim_front_blanks};

/// A line of more bytes than this is refused by the services, its line feed and the carriage
/// return before that not counted.
pub const LINE_LIMIT: usize = 1_048_576;

/// A number of a line is at most this, where nothing else is said of it.
pub const NUMBER_LIMIT: u32 = 65_535;

/// An input of more bytes than this ends with `StreamFault::TooLong`, unless the engine is given another limit.
pub const INPUT_LIMIT: usize = 16_777_216;

/// A name of more bytes than this names nothing.
pub const NAME_LIMIT: usize = 64;
