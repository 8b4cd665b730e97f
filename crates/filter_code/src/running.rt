//! A run, one step at a time, for those who want to see it.

ghost use Rattle.std.specs.Prelude.{◌≡◌, slice_get, MatchOption};
ghost use Rattle.filter_code.specs.Machine.{Ended, Going, start, step};

use crate::code::Code;
use crate::limits::STACK_LIMIT;
use crate::locals::Locals;
use crate::machine::{SingleStep, carry_out};
use crate::operands::{take_one, take_two};
use crate::outcome::{FaultKind, Outcome};
use crate::route::Route;
use crate::tagged::Tagged;
use crate::value::Value;
use std::marker::Model;

/// A run under way. It takes no memory but its own, and is slower than `run_counted`.
///
/// A contract sees a run as the machine's configuration.
#[derive(Drop)]
pub struct Running {
    stack: [Tagged; STACK_LIMIT],
    depth: usize,
    locals: Locals,
    metric: u32,
    pc: usize,
}

impl Model for Running {
    ghost use Rattle.std.specs.Prelude.{◌≡◌, ◌≤◌, length};
    ghost use Rattle.filter_code.specs.Limits.{stack_limit};
    ghost use Rattle.filter_code.specs.Machine.{Config};
    ghost use Rattle.filter_code.specs.Steps.{config_of, operands_in};

    ghost Value = { Config };

    ghost view = { λ r. config_of r.pc (operands_in r.stack r.depth) r.locals r.metric };

    ghost invariant = { λ r. (r.depth ≤ stack_limit) × (length r.stack ≡ stack_limit) };
}

impl Running {
    /// The start of the run of a code on a route.
    pub fn new(code: &Code, route: &Route) -> Running
        ensures { result ≡ start code.now route.now }
    {
        Running {
            stack: [Tagged::int(0); STACK_LIMIT],
            depth: 0,
            locals: Locals::new(code.locals()),
            metric: route.metric(),
            pc: 0,
        }
    }

    /// Takes one step, and answers how it ends the run, if it does. What the run holds after its end is unspecified.
    #[inline(never)]
    pub fn step(&mut self, code: &Code, route: &Route) -> Option<Outcome>
        ensures { MatchOption result (step code.now route.now self.old ≡ Going self.new)
            (λ end. step code.now route.now self.old ≡ Ended end) }
    {
        let Some(instr) = code.instrs().get(self.pc) else {
            return Some(Outcome::Fault(FaultKind::OutsideCode, self.pc));
        };
        match carry_out::<SingleStep>(
            instr,
            code,
            route,
            &mut self.stack,
            &mut self.depth,
            &mut self.locals,
            &mut self.metric,
            &mut self.pc,
        ) {
            Ok(()) => {
                self.pc += 1;
                None
            }
            Err(stop) => {
                self.depth = 0;
                Some(stop.at(self.pc))
            }
        }
    }

    /// The place of the next instruction.
    pub fn place(&self) -> usize
        ensures { result ≡ self.now.pc }
    {
        self.pc
    }

    /// The current metric.
    pub fn metric(&self) -> u32
        ensures { result ≡ self.now.metric }
    {
        self.metric
    }

    /// The value on top of the stack. None if the stack is empty.
    pub fn top(&self) -> Option<Value>
        ensures { result ≡ slice_get self.now.frame.stack 0 }
    {
        let mut depth = self.depth;
        match take_one(&self.stack, &mut depth) {
            Ok(top) => Some(top.value()),
            Err(_) => None,
        }
    }

    /// The value below the top. None if there are fewer than two.
    pub fn below_top(&self) -> Option<Value>
        ensures { result ≡ slice_get self.now.frame.stack 1 }
    {
        let mut depth = self.depth;
        match take_two(&self.stack, &mut depth) {
            Ok((below, _)) => Some(below.value()),
            Err(_) => None,
        }
    }
}
