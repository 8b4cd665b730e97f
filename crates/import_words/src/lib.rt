//! The words of the command line of `ncimport`: what they ask for, and the help that is shown in its place.
#![tactic(auto)]

mod program;
mod words;

pub use words::{Importing, Invocation, read, request_of};
