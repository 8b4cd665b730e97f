//! Where the lines of operators at control files pass until the router ends.
//!
//! **A router ends between two lines of its operators.** Each line that was answered was so before the history is saved for the last time, so that
//! what its operator knows of stands in the history that is saved.

use line_protocol::{LineReply, Service};
use std::alloc::{AllocError, Global};
use std::sync::{Condvar, Mutex, Wait};

/// What a gate knows of the lines that pass it.
#[derive(Drop)]
struct GateState {
    /// So many lines are being answered.
    active: usize,
    /// An operator ended the router.
    has_quit: bool,
    /// No line is answered any more.
    is_closed: bool,
}

/// The gate that each line passes, but for those of standard input, whose lines are over where the router ends.
#[derive(Drop)]
pub(crate) struct RequestGate {
    state: Mutex<GateState>,
    condvar: Condvar,
}

impl RequestGate {
    /// An open gate.
    pub(crate) fn new() -> RequestGate {
        RequestGate {
            state: Mutex::new(GateState {
                active: 0,
                has_quit: false,
                is_closed: false,
            }),
            condvar: Condvar::new(),
        }
    }

    /// A line is about to be answered. False, and it is not to be, where the gate is closed.
    fn begin<R: Wait>(&self, rt: &R) -> bool {
        let mut state = self.state.lock(rt);
        if state.is_closed {
            return false;
        }
        state.active = state.active.saturating_add(1);
        true
    }

    /// It is answered.
    fn end<R: Wait>(&self, rt: &R) {
        let mut state = self.state.lock(rt);
        state.active = state.active.saturating_sub(1);
        drop(state);
        self.condvar.notify_all();
    }

    /// An operator ends the router.
    pub(crate) fn quit<R: Wait>(&self, rt: &R) {
        self.state.lock(rt).has_quit = true;
        self.condvar.notify_all();
    }

    /// Waits until an operator ends the router.
    pub(crate) fn await_quit<R: Wait>(&self, rt: &R) {
        let mut state = self.state.lock(rt);
        for _ in rt.forever() {
            if state.has_quit {
                return;
            }
            state = self.condvar.wait(rt, state);
        }
    }

    /// Closes the gate, and waits for the lines that are being answered.
    pub(crate) fn close<R: Wait>(&self, rt: &R) {
        let mut state = self.state.lock(rt);
        state.is_closed = true;
        for _ in rt.forever() {
            if state.active == 0 {
                return;
            }
            state = self.condvar.wait(rt, state);
        }
    }
}

/// A service behind a gate: its lines are answered until that is closed.
#[derive(Drop)]
pub(crate) struct GatedService<'a, R: Wait, S: Service> {
    rt: &'a R,
    gate: &'a RequestGate,
    service: &'a mut S,
}

impl<'a, R: Wait, S: Service> GatedService<'a, R, S> {
    /// A service behind this gate.
    pub(crate) fn new(
        rt: &'a R,
        gate: &'a RequestGate,
        service: &'a mut S,
    ) -> GatedService<'a, R, S> {
        GatedService { rt, gate, service }
    }
}

impl<'a, R: Wait, S: Service> Service for GatedService<'a, R, S> {
    ghost use Rattle.router_daemon.specs.RequestGate.{AnswersLine};

    ghost answers = { λ before number line answer after. AnswersLine S.answers before.service.now number line answer after.service.now };

    ghost refuses = { λ before after. S.refuses before.service.now after.service.now };

    fn answer(
        &mut self,
        alloc: Global,
        number: u32,
        line: &[u8],
        out: &mut Vec<u8>,
    ) -> Result<LineReply, AllocError> {
        if !self.gate.begin(self.rt) {
            return Ok(LineReply::Ended);
        }
        let answered = self.service.answer(alloc, number, line, out);
        self.gate.end(self.rt);
        answered
    }
}
