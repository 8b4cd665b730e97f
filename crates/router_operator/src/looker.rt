//! An operator who may look, and not change.
//!
//! **`quit` is refused, too**: it ends the router for all. Whoever only looks leaves by the end of their lines.
ghost use Rattle.std.specs.Prelude.{◌≡◌, IfErr, IfOk, IfSome, OnErr};
ghost use Rattle.std.specs.Io.{StartsWith};
ghost use Rattle.operator_cmds.specs.Commands.{command_in};
ghost use Rattle.operator_cmds.specs.Replies.{Answers};
ghost use Rattle.router_operator.specs.Lookers as spec;
ghost use Rattle.slot_lock.specs.Passes.{IsPassOf};

use crate::listener::Listener;
use crate::naming::Naming;
use crate::operator::{INPUT_LIMIT, LOOKS_ALONE, Operator};
use crate::questions::{Question, question_in};
use filter_verifier::Verified;
use line_protocol::{LineReply, Service, StreamFault, answer_lines_within};
use operator_cmds::{CommandFault, read_command, refuse};
use slot_lock::Pass;
use std::alloc::{AllocError, Global};
use std::collections::BTreeMap;
use std::io::{Read, Write};
use std::marker::Model;
use std::rt::Clock;
use std::sync::{Arc, Wait};

/// An operator who may look, and not change: no line of theirs enters an event. A contract sees them as the operator that they would be.
#[derive(Drop)]
pub struct Looker<'a, R, L, J: Naming> {
    operator: Operator<'a, R, L, J>,
}

impl<'a, R, L, J: Naming> Model for Looker<'a, R, L, J> {
    ghost use Rattle.router_operator.specs.OperatorView.{OperatorView};

    ghost Value = { OperatorView };

    ghost view = { λ l. l.operator };
}

impl<'a, R: Wait + Clock, L: Listener, J: Naming> Service for Looker<'a, R, L, J> {
    ghost answers = { spec.AnswersLine };

    ghost refuses = { spec.BreaksOff };

    fn answer(
        &mut self,
        alloc: Global,
        number: u32,
        line: &[u8],
        out: &mut Vec<u8>,
    ) -> Result<LineReply, AllocError> {
        match question_in(line) {
            Some(Question::Quit) => refuse(out, LOOKS_ALONE, u64::from(number)),
            Some(Question::Status(form)) => self.operator.status(alloc, number, form, out),
            Some(Question::Routes) => self.operator.routes(alloc, number, out),
            None => self.command(alloc, number, line, out),
        }
    }
}

impl<'a, R: Wait + Clock, L: Listener, J: Naming> Looker<'a, R, L, J> {
    /// An operator who may look alone from now on.
    pub fn new(operator: Operator<'a, R, L, J>) -> Looker<'a, R, L, J>
        ensures { result ≡ operator.entry }
    {
        Looker { operator }
    }

    /// Answers a line that is no question: a command.
    fn command(
        &mut self,
        alloc: Global,
        number: u32,
        line: &[u8],
        out: &mut Vec<u8>,
    ) -> Result<LineReply, AllocError>
        ensures ok { IfOk result (Answers (λ answer. spec.AnswersRead self.old number (command_in line.now) answer self.new)
            out.old.items out.new.items) }
        ensures err { OnErr result (StartsWith out.new.items out.old.items) }
        ensures left { OnErr result (spec.BreaksOff self.old self.new) }
    {
        match read_command(alloc, line) {
            Ok(command) => self.operator.look_alone(alloc, number, command, out),
            Err(CommandFault::Memory) => Err(AllocError),
            Err(why) => refuse(out, why.code(), u64::from(number)),
        }
    }

    /// The pass by which they looked, and the filters that have names.
    pub fn parts(self) -> (Pass, BTreeMap<Vec<u8>, Arc<Verified>>)
        ensures same { result.0 ≡ self.entry.pass }
        ensures of { IsPassOf J.router result.0 }
        ensures names { result.1.entries ≡ self.entry.names }
    {
        self.operator.parts()
    }

    /// Answers their lines on `writer`, to their end, as those of an operator who may change are answered, and makes no call. Returns the number of
    /// lines that were refused.
    pub fn run<I: Read, W: Write>(
        &mut self,
        alloc: Global,
        reader: &mut I,
        writer: &mut W,
    ) -> Result<u32, StreamFault>
        ensures served { IfOk result (λ refused. IfSome (I.remaining reader.old) (λ input.
            spec.IsServed self.old self.new input (I.remaining reader.new) (W.contents writer.old) (W.contents writer.new) refused)) }
        ensures broken_off { IfErr result (λ fault. IfSome (I.remaining reader.old) (λ input.
            spec.IsBrokenOff fault self.old self.new input (I.remaining reader.new) (W.contents writer.old) (W.contents writer.new))) }
    {
        answer_lines_within(alloc, INPUT_LIMIT, reader, writer, self)
    }
}
