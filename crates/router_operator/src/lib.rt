//! The operator of a running router: what they type is answered as a script answers it, but that others make entries meanwhile, and that
//! the links bring their own neighbours up and down.
#![tactic(auto)]

mod calls;
mod configuration;
mod configured;
mod listener;
mod looker;
mod looking;
mod naming;
mod operator;
mod questions;
mod reloading;

pub use configuration::{Configuration, ConfigurationFault, Configured, LinkChange, NamedUse};
pub use configured::ConfiguredOperator;
pub use listener::Listener;
pub use looker::Looker;
pub use naming::Naming;
pub use operator::{INPUT_LIMIT, Operator};
