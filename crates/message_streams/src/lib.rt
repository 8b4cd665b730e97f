//! The lines of a link between two routers that say messages, and readers and writers of lines over streams of bytes.
//!
//! A message is `V D`: the node V is at the distance D. Numbers are decimal, of at most 65,535 and with no zero before them; one space
//! parts them, and a line feed ends a line. So each message has one line. This form is this project's own choice. What else two ends of a
//! link say is in `link_handshake`.
//!
//! A reader hands out the lines of a stream, in order. It takes no byte past the line that it hands out, and never more than 64 bytes of
//! a line that does not end. So give it a buffered stream.
#![tactic(auto)]

mod ends;
mod laws;
mod line;
mod message_text;
mod pair;
mod reader;
mod writer;

pub use ends::StreamEnd;
pub use laws::{lines_are_short, one_message, written_is_read};
pub use message_text::{push_message, read_message};
pub use reader::MessageReader;
pub use writer::MessageWriter;

/// How many bytes a line of a link has at most, its line feed counted.
pub const LINE_LIMIT: usize = 64;
