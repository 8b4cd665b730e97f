//! The compiler of filters: a filter becomes code that means what the filter means.
#![tactic(auto)]

mod commands;
mod compiler;
mod expressions;
mod fault;
mod numbers;
mod output;
mod sets;

pub use compiler::{MappedCode, compile, compile_mapped};
pub use fault::CompileFault;
