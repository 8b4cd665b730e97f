//! The script of a router: it carries out an operator's commands, line after line.
//!
//! **What a script is answered is defined in `operator_cmds`, beside the commands**, and so are the laws of all scripts: the operator of a running
//! router is answered by the same definitions. This crate alone has the code that carries a script out: so `run_script` is not in `operator_cmds`,
//! whose commands `ncroute router` reads too, without scripts.
//!
//! **A run that saves no history pays nothing for one**: no text of an entry is made.
//!
//! **`--stop` ends at N and J codes too.** A script that is meant to be carried out whole has failed there as well, and one that expects a refusal
//! is run without it.
#![tactic(auto)]

mod fault;
mod filter_naming;
mod saving;
mod script;
mod stage;

pub use fault::SavingFault;
pub use filter_naming::{NamedFilter, Unfit, name_filters};
pub use saving::run_saved_script;
pub use script::{Script, ScriptFault, run_script};
