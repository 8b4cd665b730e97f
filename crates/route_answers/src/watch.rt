//! Routes that somebody watches: they are shown each line that is refused.
//!
//! **Who watches the lines of `eval_routes` is one type, whether people are told or not.** With a second type the program had a second copy of the
//! engine of `eval`, and the compiler put other functions in line in the first: 1.1 % more instructions for a set of 1,024 patterns, 1.6 for a
//! filter that adds to the metric, 4.4 for arithmetic. With one copy for both it takes from 0.01 % more to 1.7 % fewer than `eval_lines` alone.
//! (`filter_routes` has two types: one alone took it 1.2 % more.)

use crate::line_fault::LineFault;
use filter_source::Diagnosis;
use std::alloc::Global;

/// Why a line is refused.
#[derive(Clone, Copy)]
pub enum WhyRefused {
    /// It gives no route.
    Route(LineFault),
    /// It is to give code, and this is told of it.
    Code(Diagnosis),
    /// There is no line that gives code.
    NoCode,
}

/// A line that is refused.
#[derive(Clone, Copy)]
pub struct RefusedRoute<'a> {
    /// Its number, from 1; 0 where there is no line.
    pub number: u32,
    /// The line.
    pub line: &'a [u8],
    /// The number of nodes of the domain, where no line says it.
    pub size: Option<u32>,
    /// Why it is refused.
    pub why: WhyRefused,
}

/// Somebody who watches routes.
pub trait WatchRoutes {
    /// Is shown a line that is refused. Its answer is written later.
    fn see_refused(&mut self, alloc: Global, refused: &RefusedRoute<'_>);
}

/// Nobody watches.
#[derive(Drop)]
pub struct NoRouteWatcher;

impl WatchRoutes for NoRouteWatcher {
    fn see_refused(&mut self, _alloc: Global, _refused: &RefusedRoute<'_>) {}
}
