//! What a command found, as programs read it: a line of JSON for each finding, and an element of JUnit's XML for each test.
//!
//! **JSON is written line by line**, an object on each, so that what is found of one file is written before the next one is read, and what a fault
//! cuts is the last line alone. All objects of a command have the same members; one that says nothing is `null`.
//!
//! **Names and words are read as UTF-8**: what is not is written as U+FFFD. So each line is JSON and each attribute XML, whatever the bytes of a
//! file and of its name are.
#![tactic(auto)]

mod case;
mod escaping;
mod finding;
mod format;
mod laws;
mod object;
mod options;
mod part;
mod text;

pub use case::{document_end, document_head, push_broken, push_failed, push_passed};
pub use finding::{Finding, Severity, push_finding};
pub use format::{Format, TestFormat};
pub use laws::{attributes_are_closed, readable_text_is_kept};
pub use object::ObjectBuilder;
pub use options::{CheckOptions, DiffOptions, LintOptions, TestOptions};
pub use part::{PartReport, push_part};
pub use text::{number_or_null, push_value, text_or_null, text_value};
