//! The file of a filter's code: a mark, numbers, patterns and instructions, each a field of its own.
//!
//! The reader goes through it field by field, and answers the code or the first fault.
#![tactic(auto)]

mod fault;
mod laws;
mod reader;
mod reading;
mod version;
mod writing;

pub use fault::FileFault;
pub use laws::{old_files, one_fault, one_file, reading_is_exact, written_is_read};
pub use reading::read_code;
pub use version::Version;
pub use writing::{rewrite, write_code, write_old};
