//! A link in memory.

ghost use Rattle.std.specs.Prelude.{◌≡◌, ◌↔◌, ◌≤◌, IsTrue, false, None, Some, [], vec_len};
ghost use Rattle.std.specs.Option.{option_or};
ghost use Rattle.route_session.specs.LinkTrace.{Rose};

use crate::link::{Got, Link, LinkFault};
use netchange_core::Message;
use std::alloc::Global;
use std::sync::Wait;

/// A link in memory, for tests. It hands out the messages that it was made with, and then it has ended; it keeps the messages that
/// it is given. It can be told to fail at one of its calls. It tells everything.
#[derive(Drop)]
pub struct MemoryLink {
    waiting: Vec<Message>,
    next: usize,
    given: Vec<Message>,
    first_refused: Option<Message>,
    calls: u64,
    fails_at: Option<u64>,
    has_ended: bool,
    failures: u64,
    is_closed: bool,
    ghost within: { next ≤ vec_len waiting },
}

impl MemoryLink {
    ghost use Rattle.route_session.specs.Plans.{IsToFail, memory_plan, next_call};
    ghost use Rattle.route_session.specs.Telling.{known, memory_trace};

    /// A link that hands out these messages, and fails at the call of this number, counted from 1 over both directions.
    pub fn new(alloc: Global, waiting: Vec<Message>, fails_at: Option<u64>) -> MemoryLink
        ensures told { memory_trace result ≡ record { handed = Some []; given = Some []; first_refused = Some None; nothings = Some 0; ended = Some false; failures = Some 0; closed = false } }
        ensures plan { memory_plan result ≡ record { waiting = waiting.items; calls = 0; fails_at = fails_at } }
    {
        MemoryLink {
            waiting,
            next: 0,
            given: Vec::new(alloc),
            first_refused: None,
            calls: 0,
            fails_at,
            has_ended: false,
            failures: 0,
            is_closed: false,
        }
    }

    /// The messages that the link was given, in order.
    pub fn given(&self) -> &[Message]
        ensures { Some result.now ≡ (memory_trace self.now).given }
    {
        &self.given
    }

    /// Whether the link is closed.
    pub fn is_closed(&self) -> bool
        ensures { result ≡ (memory_trace self.now).closed }
    {
        self.is_closed
    }

    /// Counts a call, and says whether it is to fail.
    fn is_to_fail(&mut self) -> bool
        ensures counted { self.new ≡ record self.old { calls = next_call (memory_plan self.old) } }
        ensures fails { IsTrue result ↔ IsToFail (memory_plan self.old) }
    {
        self.calls = self.calls.saturating_add(1);
        self.fails_at == Some(self.calls)
    }

    /// Counts a failure.
    fn fault(&mut self) -> LinkFault
        ensures only { self.new ≡ record self.old { failures = self.new.failures } }
        ensures rose { Rose (known self.old.failures) (known self.new.failures) }
    {
        self.failures = self.failures.saturating_add(1);
        LinkFault
    }

    /// Counts a failure at a message.
    fn refuse(&mut self, message: Message) -> LinkFault
        ensures only { self.new ≡ record self.old { failures = self.new.failures; first_refused = option_or self.old.first_refused (Some message) } }
        ensures rose { Rose (known self.old.failures) (known self.new.failures) }
    {
        self.first_refused = self.first_refused.or(Some(message));
        self.fault()
    }
}

impl Link for MemoryLink {
    ghost use Rattle.route_session.specs.Links.{Received, Sent};
    ghost use Rattle.route_session.specs.Plans.{HandsOut, TakesOne, memory_plan};
    ghost use Rattle.route_session.specs.Telling.{memory_trace};

    ghost trace = { memory_trace };

    #[tactic(auto, using(crate::proofs::Planning::next_waits, crate::proofs::Planning::none_waits))]
    fn recv<R: Wait>(&mut self, _rt: &R) -> Result<Got, LinkFault>
        ensures told { Received (memory_trace self.old) result (memory_trace self.new) }
        ensures plan { (memory_trace self.old).closed ≡ false → HandsOut (memory_plan self.old) result (memory_plan self.new) }
    {
        if self.is_closed {
            self.has_ended = true;
            return Ok(Got::Ended);
        }
        if self.is_to_fail() {
            return Err(self.fault());
        }
        match self.waiting.get(self.next) {
            Some(message) => {
                let message = *message;
                self.next += 1;
                Ok(Got::Message(message))
            }
            None => {
                self.has_ended = true;
                Ok(Got::Ended)
            }
        }
    }

    fn send<R: Wait>(&mut self, _rt: &R, message: Message) -> Result<(), LinkFault>
        ensures told { Sent (memory_trace self.old) message result (memory_trace self.new) }
        ensures plan { (memory_trace self.old).closed ≡ false → TakesOne (memory_plan self.old) result (memory_plan self.new) }
    {
        if self.is_closed || self.is_to_fail() {
            return Err(self.refuse(message));
        }
        // A link that finds no memory for a message fails.
        let Ok(()) = self.given.push(message) else {
            return Err(self.refuse(message));
        };
        Ok(())
    }

    fn close(&mut self) {
        self.is_closed = true;
    }
}
