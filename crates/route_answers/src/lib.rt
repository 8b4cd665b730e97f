//! What answers routes: the engines of `eval` and `filter`. Each is generic over its reader and writer, and its contract says what it
//! reads and writes.
//!
//! **`eval_lines` is a call of this library**, and not of the program `ncroute`, so that other programs can make it.
#![tactic(auto)]

mod all_sizes;
mod eval;
mod filter;
mod judge;
mod laws;
mod line_fault;
mod route_line;
mod route_words;
mod verdict_line;
mod watch;
mod watched_routes;

pub use eval::{eval_lines, eval_watched_lines};
pub use filter::ROUTES_LIMIT;
pub use laws::{
    printed_code_is_evaluated, route_lines, smaller_domains_clip_the_metric,
    translations_are_evaluated,
};
pub use line_fault::LineFault;
pub use route_line::read_route;
pub use watch::{NoRouteWatcher, RefusedRoute, WatchRoutes, WhyRefused};
pub use watched_routes::{Routes, eval_routes, filter_routes};
