//! From a source to code: a filter's text is parsed, checked and compiled, or a code file is read, and the code is verified.
//! A source that is refused has one `Refusal`, whichever step refused it, and one `Diagnosis`, made by the step that refused it.
//!
//! **The pipeline is a crate of its own.** `check`, `filter`, `list` and the scripts take a text or a code file to verified code. The steps, and
//! the one type `Refusal` that any of them can end with, are there once, below all of them.
#![tactic(auto)]

mod diagnosis;
mod failure;
mod laws;
mod refusal;
mod source;
mod verified_line;

pub use diagnosis::{Diagnosis, place_at};
pub use failure::Failure;
pub use laws::one_translation;
pub use refusal::Refusal;
pub use source::{
    CompiledSource, SOURCE_LIMIT, check_length, compile_text, compile_text_mapped, read_file,
    read_hexadecimal, verify_code, verify_mapped, write_file,
};
pub use verified_line::{push_bounds, push_verified};
