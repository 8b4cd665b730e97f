//! A run that is told step by step.
//!
//! **What is told of a run is told by the checked machine, one step at a time** (`filter_code::Running`): its values have their kinds, so they can
//! be spelt. The verified machine has none of this to do, and stays as fast as it is. Both say the same of a route.
//!
//! **A set is `[..]`** in what is told: it may be long, and the column leads to it.
ghost use Rattle.std.specs.Prelude.{◌≡◌, ◌++◌, IfOk, OnOk, MatchOption, slice_get};
ghost use Rattle.filter_code.specs.Machine.{Ended, Going, outcome_of, step};
ghost use Rattle.filter_traces.specs.Steps.{all_lines, deciding_place, line_between, line_by};
ghost use Rattle.filter_traces.specs.Shown.{seen};

use crate::seen::Seen;
use crate::traced::Traced;
use filter_code::{FaultKind, Outcome, Route, Running};
use std::alloc::{AllocError, Global};

/// A run that has come to its end.
#[derive(Drop)]
pub(crate) struct ShownRun {
    /// How it ended.
    pub(crate) outcome: Outcome,
    /// The place of the instruction that ended it.
    pub(crate) place: usize,
    /// What is told of its steps, in their order.
    pub(crate) lines: Vec<u8>,
}

impl<'a> Traced<'a> {
    /// Puts what is told of a step at the end of `out`, which led from one configuration to the next.
    fn push_between(
        &self,
        alloc: Global,
        out: &mut Vec<u8>,
        place: usize,
        seen: Seen,
    ) -> Result<(), AllocError>
        ensures { OnOk result (out.new.items ≡ out.old.items ++ line_by self.now place seen (slice_get self.now.program.instrs place)) }
    {
        match self.instr(place) {
            Some(instr) => self.push_step(alloc, out, place, instr, seen),
            None => Ok(()),
        }
    }

    /// Takes a step, and puts what is told of it at the end of `out`. Answers how it ends the run, if it does.
    fn tell_step(
        &self,
        alloc: Global,
        route: &Route,
        running: &mut Running,
        out: &mut Vec<u8>,
    ) -> Result<Option<Outcome>, AllocError>
        ensures stepped { IfOk result (λ ended. MatchOption ended
            (step self.now.program route.now running.old ≡ Going running.new)
            (λ end. step self.now.program route.now running.old ≡ Ended end)) }
        ensures shown_step { IfOk result (λ ended. out.new.items
            ≡ out.old.items ++ line_between self.now (Going running.old) (step self.now.program route.now running.old)) }
    {
        let place = running.place();
        let below = running.below_top();
        let top = running.top();
        if let Some(outcome) = running.step(self.code(), route) {
            return Ok(Some(outcome));
        }
        let seen = Seen {
            below,
            top,
            given: running.top(),
            metric: running.metric(),
        };
        self.push_between(alloc, out, place, seen)?;
        Ok(None)
    }

    /// The run on a route.
    pub(crate) fn tell_run(&self, alloc: Global, route: &Route) -> Result<ShownRun, AllocError>
        ensures outcome { IfOk result (λ run. run.outcome ≡ outcome_of self.now.program route.now) }
        ensures place { IfOk result (λ run. run.place ≡ deciding_place self.now.program route.now) }
        ensures lines { IfOk result (λ run. run.lines.items ≡ all_lines self.now route.now) }
    {
        let mut running = Running::new(self.code(), route);
        let mut lines = Vec::new(alloc);
        let mut place = 0;
        for taken in 0..self.code().instrs().len() + 1 {
            place = running.place();
            match self.tell_step(alloc, route, &mut running, &mut lines)? {
                Some(outcome) => {
                    return Ok(ShownRun {
                        outcome,
                        place,
                        lines,
                    });
                }
                None => {}
            }
        }
        Ok(ShownRun {
            outcome: Outcome::Fault(FaultKind::OutsideCode, running.place()),
            place,
            lines,
        })
    }
}
