//! What the runs of a filter on routes tell of it: why a route got its verdict, and how many routes come to each command.
#![tactic(auto)]

mod commands;
mod coverage;
mod hits;
mod run;
mod seen;
mod site;
mod traced;
mod why;

pub use coverage::cover_routes;
pub use why::explain_routes;
