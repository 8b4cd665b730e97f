//! The file of a running router: its options, one a line.
//!
//! **A line says what an option of the command line says**, without the dashes, and with blanks between its parts: `link 1 in out` is
//! `--link 1=in,out`. So there is one plan of a router, one list of what may be wrong with it, and no option that a file cannot say.
//!
//! **Names of files count from the folder of the file**, as an `include` does: a router that is started at boot has another working folder than the
//! one who tried it by hand. `-` is a file of that name.
#![tactic(auto)]

mod again;
mod lines;
mod options;
mod places;
mod reading;
mod said;
mod words;

pub use again::{Again, find_again};
pub use lines::cut_line;
pub use options::RouterOption;
pub use places::{first_byte, second_byte, third_byte};
pub use reading::{Statement, WrongLine, read_statements};
pub use said::{LineFault, Said};
