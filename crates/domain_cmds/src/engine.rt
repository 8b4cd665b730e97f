//! The script of a domain: its lines, one after another, change a domain and ask about it.
ghost use Rattle.std.specs.Prelude.{◌≡◌, IfErr, IfOk, IfSome};
ghost use Rattle.domain_cmds.specs.Running.{IsBrokenOff, IsCarriedOut};

use crate::command::DomainCommand;
use crate::fault::DomainStateFault;
use crate::planning::Planning;
use crate::read::read_command;
use crate::resting::RestingPlan;
use line_protocol::{LineReply, Service, StreamFault, answer_lines};
use operator_cmds::{CommandFault, NoWatcher, RefusedLine, Watch, confirm, refuse};
use std::alloc::{AllocError, Global};
use std::io::{Read, Write};

/// A domain's script between two lines.
#[derive(Drop)]
pub(crate) struct DomainScript {
    /// The domain, once it is set up.
    pub(crate) planning: Option<Planning>,
}

impl Service for DomainScript {
    ghost use Rattle.std.specs.Prelude.{⊤};
    ghost use Rattle.domain_cmds.specs.Script.{AnswersLine};

    ghost answers = { λ before number line answer after. AnswersLine before.planning number line answer after.planning };

    ghost refuses = { λ _ _. ⊤ };

    fn answer(
        &mut self,
        alloc: Global,
        number: u32,
        line: &[u8],
        out: &mut Vec<u8>,
    ) -> Result<LineReply, AllocError> {
        match read_command(alloc, line) {
            Ok(command) => self.carry_out(alloc, number, command, out),
            Err(CommandFault::Memory) => Err(AllocError),
            Err(why) => refuse(out, why.code(), u64::from(number)),
        }
    }
}

impl DomainScript {
    ghost use Rattle.std.specs.Prelude.{None, OnErr};
    ghost use Rattle.std.specs.Io.{StartsWith};
    ghost use Rattle.std.specs.Option.{option_map};
    ghost use Rattle.operator_cmds.specs.Replies.{Answers};
    ghost use Rattle.domain_cmds.specs.CommandView.{view_of};
    ghost use Rattle.domain_cmds.specs.Script.{AnswersCommand};
    ghost use Rattle.domain_cmds.specs.Short.{IsShort};

    /// A script at its first line.
    pub(crate) fn new() -> DomainScript
        ensures { result.planning ≡ None }
    {
        DomainScript { planning: None }
    }

    /// The plan of the domain, once it is set up.
    pub(crate) fn into_domain(self) -> Option<RestingPlan>
        ensures { result ≡ option_map (λ planning. planning.plan) self.planning }
    {
        match self.planning {
            Some(planning) => Some(planning.into_domain()),
            None => None,
        }
    }

    /// A line that this script refused, and what the script knows.
    fn refused_line<'a>(
        &'a self,
        number: u32,
        line: &'a [u8],
        answer: &'a [u8],
    ) -> RefusedLine<'a> {
        RefusedLine {
            number,
            line,
            answer,
            size: self.planning.as_ref().map(|planning| planning.size()),
            filters: self.planning.as_ref().map(|planning| planning.filters()),
            diagnosis: self
                .planning
                .as_ref()
                .and_then(|planning| planning.diagnosis()),
        }
    }

    /// Carries out the command of a line, and answers it.
    fn carry_out(
        &mut self,
        alloc: Global,
        number: u32,
        command: DomainCommand<'_>,
        out: &mut Vec<u8>,
    ) -> Result<LineReply, AllocError>
        requires { IsShort (view_of command) }
        ensures ok { IfOk result (Answers (λ answer. AnswersCommand self.old.planning number (view_of command.entry) answer
            self.new.planning) out.old.items out.new.items) }
        ensures err { OnErr result (StartsWith out.new.items out.old.items) }
    {
        match &mut self.planning {
            Some(planning) => planning.carry_out(alloc, number, command, out),
            None => match command {
                DomainCommand::Domain(size) => {
                    self.planning = Some(Planning::new(alloc, size)?);
                    confirm(out)
                }
                _ => refuse(out, DomainStateFault::NoDomain.code(), u64::from(number)),
            },
        }
    }
}

/// A domain's script and who watches it.
#[derive(Drop)]
pub(crate) struct WatchedDomain<S: Watch + Drop> {
    /// The script.
    pub(crate) engine: DomainScript,
    /// Who watches it.
    pub(crate) watcher: S,
}

impl<S: Watch + Drop> Service for WatchedDomain<S> {
    ghost use Rattle.std.specs.Prelude.{⊤};
    ghost use Rattle.domain_cmds.specs.Script.{AnswersLine};

    ghost answers = { λ before number line answer after.
        AnswersLine before.engine.planning number line answer after.engine.planning };

    ghost refuses = { λ _ _. ⊤ };

    fn answer(
        &mut self,
        alloc: Global,
        number: u32,
        line: &[u8],
        out: &mut Vec<u8>,
    ) -> Result<LineReply, AllocError> {
        let begun = out.len();
        let reply = self.engine.answer(alloc, number, line, out)?;
        if reply == LineReply::Refused {
            let answer = out.as_slice().get(begun..).unwrap_or(&[]);
            self.watcher
                .see_refused(alloc, &self.engine.refused_line(number, line, answer));
        }
        Ok(reply)
    }
}

/// Does what `run_domain` does, and shows each line that is refused to who watches.
pub fn run_watched_domain<R: Read, W: Write, S: Watch + Drop>(
    alloc: Global,
    reader: &mut R,
    writer: &mut W,
    watcher: S,
) -> Result<u32, StreamFault>
    ensures finished { IfOk result (λ refused. IfSome (R.remaining reader.old) (λ input.
        IsCarriedOut input (R.remaining reader.new) (W.contents writer.old) (W.contents writer.new) refused)) }
    ensures broken_off { IfErr result (λ fault. IfSome (R.remaining reader.old) (λ input.
        IsBrokenOff fault input (R.remaining reader.new) (W.contents writer.old) (W.contents writer.new))) }
{
    let mut service = WatchedDomain {
        engine: DomainScript::new(),
        watcher,
    };
    answer_lines(alloc, reader, writer, &mut service)
}

/// Answers the lines of `reader` on `writer`: each is a command to the domain of the script. Returns the number of lines that
/// were refused. What was answered is written before more is read.
pub fn run_domain<R: Read, W: Write>(
    alloc: Global,
    reader: &mut R,
    writer: &mut W,
) -> Result<u32, StreamFault>
    ensures finished { IfOk result (λ refused. IfSome (R.remaining reader.old) (λ input.
        IsCarriedOut input (R.remaining reader.new) (W.contents writer.old) (W.contents writer.new) refused)) }
    ensures broken_off { IfErr result (λ fault. IfSome (R.remaining reader.old) (λ input.
        IsBrokenOff fault input (R.remaining reader.new) (W.contents writer.old) (W.contents writer.new))) }
{
    run_watched_domain(alloc, reader, writer, NoWatcher)
}
