//! What is said of a filter's source, and the `Report` in which each command on whole texts says it.
//!
//! **What is told of a filter's source and what answers routes are two crates**, the second above the first. Whoever compares, tests or lints
//! filters, or tells of a script's line, stands on the first alone: how routes are answered may change, and none of them is proved again.
//!
//! **The commands are libraries.** The program above them reads the words of the command line and calls them. So other programs can
//! call `list_report`, other crates can test it, and an edit of one does not have the program's use of `clap` proved again.
//!
//! **`eval_lines` and `check_text` take the allocator and no runtime.** They neither wait nor read a clock, so they would not use its handle.
//!
//! **`check`, `eval`, `rewrite` and `run` are asked for as all else is**, by one enum of the command line, also where a program reads and no words
//! are wanted: one way through the program to each engine.
//!
//! **What a code means stands once**, in `refusal_texts`: `explain` prints it, and `scripts/check_documents.py` compares the documents' tables with
//! it and runs its examples. No contract says what the texts say.
#![tactic(auto)]

mod check;
mod fault;
mod laws;
mod lines;
mod listing;
mod marking;
mod named_text;
mod placed;
mod refusal;
mod refusal_findings;
mod refusing;
mod report;
mod rewrite;
mod status;
mod wording;

pub use check::{Checked, SurveyedSource, check_source, check_text, code_of};
pub use fault::ProgramFault;
pub use laws::{
    printed_code_is_checked_alike, translations_fit_a_line, verified_code_says_the_same,
};
pub use lines::Lines;
pub use listing::{list_report, list_text};
pub use marking::written_lines;
pub use named_text::NamedText;
pub use placed::{PlacedCode, open_filter, placed_code, verified_filter};
pub use refusal::refusal_line;
pub use refusal_findings::{check_finding, refusal_finding};
pub use refusing::refusal_report;
pub use report::Report;
pub use rewrite::rewrite_report;
pub use status::{FAILED, FAULT, status_of, status_of_found};
pub use wording::{Wording, notice_if, refusal_notice};
