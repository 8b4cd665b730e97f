//! The operator.
ghost use Rattle.std.specs.Prelude.{◌≡◌, false, IfErr, IfOk, IfSome, OnErr};
ghost use Rattle.std.specs.Io.{StartsWith};
ghost use Rattle.netchange_core.specs.declared.event.Event.TheVariants as event;
ghost use Rattle.operator_cmds.specs.CommandView.{view_of};
ghost use Rattle.operator_cmds.specs.Commands.{command_in};
ghost use Rattle.operator_cmds.specs.Replies.{Answers};
ghost use Rattle.operator_cmds.specs.Script as script;
ghost use Rattle.router_operator.specs.Looking.{query_answer};
ghost use Rattle.router_operator.specs.Lookers as looker;
ghost use Rattle.router_operator.specs.OperatorView.{IsAt, filter_of};
ghost use Rattle.router_operator.specs.Operators as spec;
ghost use Rattle.router_operator.specs.Running.{IsBrokenOff, IsServed};
ghost use Rattle.router_operator.specs.Telling.{IsNotified};
ghost use Rattle.slot_lock.specs.Passes.{IsPassOf};

use crate::calls::{answer_call, exported_by};
use crate::listener::Listener;
use crate::looking::{FindingSession, Looking, Query, StatusQuery};
use crate::naming::Naming;
use crate::questions::{Question, has_link, question_in};
use filter_verifier::Verified;
use line_protocol::{LineReply, Service, StreamFault, answer_lines_within};
use netchange_core::Event;
use operator_cmds::{
    Command, CommandFault, Direction, FilterSource, confirm, name_source, read_command, refuse,
    session_number,
};
use router_status::Form;
use slot_lock::{Pass, Router};
use std::alloc::{AllocError, Global};
use std::collections::BTreeMap;
use std::io::{Read, Write};
use std::marker::{Model, PhantomData};
use std::mem::replace;
use std::rt::Clock;
use std::sync::{Arc, Wait};

/// The most bytes that an operator may type: lines are numbered below 2^32.
pub const INPUT_LIMIT: usize = 4_294_967_200;

/// The code of a command that comes too late: the router has its domain, and runs.
const TOO_LATE: &str = "O5";

/// The code of a name that no filter has.
const UNKNOWN_FILTER: &str = "O6";

/// The code of an `up`, and of a `down` of a node that has a link: a link alone brings its node up and down.
const LINK_DOES_IT: &str = "O9";

/// The code of what changes the router, or ends it, where an operator may look alone.
pub(crate) const LOOKS_ALONE: &str = "O11";

/// The operator of a router that others call too. A contract sees it as an `OperatorView`.
#[derive(Drop)]
pub struct Operator<'a, R, L, J: Naming> {
    pub(crate) rt: &'a R,
    pub(crate) router: &'a Router,
    /// What the operator has seen of the router's history.
    pub(crate) pass: Pass,
    pub(crate) listener: &'a L,
    /// The number of nodes of the domain.
    size: u16,
    /// The most entries of the history, or as many as an endless router has room for.
    limit: u32,
    /// The nodes that have links.
    links: &'a [u16],
    /// The filter of each name.
    pub(crate) filters: BTreeMap<Vec<u8>, Arc<Verified>>,
    /// The operator said `quit`.
    has_quit: bool,
    of: PhantomData<J>,
}

impl<'a, R, L, J: Naming> Model for Operator<'a, R, L, J> {
    ghost use Rattle.std.specs.Prelude.{◌≡◌};
    ghost use Rattle.router_operator.specs.OperatorView.{OperatorView, IsAt};

    ghost Value = { OperatorView };

    ghost view = { λ o. record { router = o.router.now; pass = o.pass; names = o.filters.entries; links = o.links.now; has_quit = o.has_quit } };

    ghost invariant = { λ o. IsAt o.router.now o.pass o.size o.limit × (o.router.now ≡ J.router) };
}

impl<'a, R: Wait + Clock, L: Listener, J: Naming> Service for Operator<'a, R, L, J> {
    ghost answers = { spec.AnswersLine };

    ghost refuses = { spec.BreaksOff };

    fn answer(
        &mut self,
        alloc: Global,
        number: u32,
        line: &[u8],
        out: &mut Vec<u8>,
    ) -> Result<LineReply, AllocError> {
        match question_in(line) {
            Some(Question::Quit) => self.quit(out),
            Some(Question::Status(form)) => self.status(alloc, number, form, out),
            Some(Question::Routes) => self.routes(alloc, number, out),
            None => self.command(alloc, number, line, out),
        }
    }
}

impl<'a, R: Wait + Clock, L: Listener, J: Naming> Operator<'a, R, L, J> {
    /// The operator of the router of this name, with a pass of it: `links` are the nodes that have links, and `filters` the filters that have
    /// names. The router's domain has `size` nodes, and its journal room for `limit` entries.
    pub fn new(
        rt: &'a R,
        router: &'a Router,
        pass: Pass,
        listener: &'a L,
        size: u16,
        limit: u32,
        links: &'a [u16],
        filters: BTreeMap<Vec<u8>, Arc<Verified>>,
    ) -> Operator<'a, R, L, J>
        requires named { router.now ≡ J.router }
        requires at { IsAt J.router pass size limit }
        ensures { result ≡ record { router = router.now; pass = pass; names = filters.entries; links = links.now; has_quit = false } }
    {
        Operator {
            rt,
            router,
            pass,
            listener,
            size,
            limit,
            links,
            filters,
            has_quit: false,
            of: PhantomData,
        }
    }

    /// The pass by which the operator called the router.
    pub fn pass(self) -> Pass
        ensures same { result ≡ self.entry.pass }
        ensures of { IsPassOf J.router result }
    {
        let Operator { pass, .. } = self;
        pass
    }

    /// Whether the operator said `quit`.
    pub fn has_quit(&self) -> bool
        ensures { result ≡ self.now.has_quit }
    {
        self.has_quit
    }

    /// Answers the operator's lines on `writer`, to their end or to `quit`. Returns the number of lines that were refused. What was answered
    /// is written before more is read.
    pub fn run<I: Read, W: Write>(
        &mut self,
        alloc: Global,
        reader: &mut I,
        writer: &mut W,
    ) -> Result<u32, StreamFault>
        ensures served { IfOk result (λ refused. IfSome (I.remaining reader.old) (λ input.
            IsServed self.old self.new input (I.remaining reader.new) (W.contents writer.old) (W.contents writer.new) refused)) }
        ensures broken_off { IfErr result (λ fault. IfSome (I.remaining reader.old) (λ input.
            IsBrokenOff fault self.old self.new input (I.remaining reader.new) (W.contents writer.old) (W.contents writer.new))) }
    {
        answer_lines_within(alloc, INPUT_LIMIT, reader, writer, self)
    }

    /// The pass by which the operator called the router, and the filters that have names.
    pub fn parts(self) -> (Pass, BTreeMap<Vec<u8>, Arc<Verified>>)
        ensures same { result.0 ≡ self.entry.pass }
        ensures of { IsPassOf J.router result.0 }
        ensures names { result.1.entries ≡ self.entry.names }
    {
        let Operator { pass, filters, .. } = self;
        (pass, filters)
    }

    /// Answers a line that is no question: a command.
    fn command(
        &mut self,
        alloc: Global,
        number: u32,
        line: &[u8],
        out: &mut Vec<u8>,
    ) -> Result<LineReply, AllocError>
        ensures ok { IfOk result (Answers (λ answer. spec.AnswersRead self.old number (command_in line.now) answer self.new)
            out.old.items out.new.items) }
        ensures err { OnErr result (StartsWith out.new.items out.old.items) }
        ensures left { OnErr result (spec.BreaksOff self.old self.new) }
    {
        match read_command(alloc, line) {
            Ok(command) => self.carry_out(alloc, number, command, out),
            Err(CommandFault::Memory) => Err(AllocError),
            Err(why) => refuse(out, why.code(), u64::from(number)),
        }
    }

    /// Answers `quit`.
    fn quit(&mut self, out: &mut Vec<u8>) -> Result<LineReply, AllocError>
        ensures ok { IfOk result (Answers (λ answer. spec.Quits self.old answer self.new) out.old.items out.new.items) }
        ensures err { OnErr result (StartsWith out.new.items out.old.items) }
        ensures left { OnErr result (self.new ≡ self.old) }
    {
        confirm(out)?;
        self.has_quit = true;
        Ok(LineReply::Ended)
    }

    /// Carries out the command of a line, and answers it.
    fn carry_out(
        &mut self,
        alloc: Global,
        number: u32,
        command: Command<'_>,
        out: &mut Vec<u8>,
    ) -> Result<LineReply, AllocError>
        ensures ok { IfOk result (Answers (λ answer. spec.AnswersCommand self.old number (view_of command.entry) answer self.new)
            out.old.items out.new.items) }
        ensures err { OnErr result (StartsWith out.new.items out.old.items) }
        ensures left { OnErr result (spec.BreaksOff self.old self.new) }
    {
        match command {
            Command::Network(_) | Command::Prefix { .. } => {
                refuse(out, TOO_LATE, u64::from(number))
            }
            Command::Receive { .. } | Command::Take(_) => {
                refuse(out, CommandFault::Words.code(), u64::from(number))
            }
            Command::Load { name, text } => {
                self.load(alloc, number, name, FilterSource::Text(text), out)
            }
            Command::Code { name, bytes } => {
                self.load(
                    alloc,
                    number,
                    name,
                    FilterSource::File(bytes.as_slice()),
                    out,
                )
            }
            Command::Import { node, name } => {
                self.use_filter(number, Direction::Import, node, name, out)
            }
            Command::Export { node, name } => {
                self.use_filter(number, Direction::Export, node, name, out)
            }
            Command::Up(_) => refuse(out, LINK_DOES_IT, u64::from(number)),
            Command::Down(node) => self.take_down(number, node, out),
            Command::Show(node) => self.enter(Event::Show(node), out),
            Command::Look(look) => self.look(alloc, number, Query::Tables(look), out),
            Command::History(from) => self.look(alloc, number, Query::Entries(from), out),
        }
    }

    /// The number of nodes of the domain.
    pub(crate) fn size(&self) -> u16
        ensures { result ≡ self.now.router.opening.size }
    {
        self.size
    }

    /// Answers `load` and `code`: a source is verified, and gets a name.
    pub(crate) fn load(
        &mut self,
        alloc: Global,
        number: u32,
        name: &[u8],
        source: FilterSource<'_>,
        out: &mut Vec<u8>,
    ) -> Result<LineReply, AllocError>
        ensures ok { IfOk result (Answers (λ answer. spec.AsScript self.old number (spec.loading name.now source.entry) answer self.new)
            out.old.items out.new.items) }
        ensures err { OnErr result (StartsWith out.new.items out.old.items) }
        ensures left { OnErr result (self.new ≡ self.old) }
    {
        let mut diagnosis = None;
        name_source(
            alloc,
            &mut self.filters,
            number,
            name,
            source,
            self.size,
            &mut diagnosis,
            out,
        )
    }

    /// Answers `import` and `export`: a node's distances in a direction pass a filter from now on.
    fn use_filter(
        &mut self,
        number: u32,
        direction: Direction,
        node: u16,
        name: &[u8],
        out: &mut Vec<u8>,
    ) -> Result<LineReply, AllocError>
        ensures ok { IfOk result (Answers (λ answer. spec.AnswersUse (filter_of self.old.names name.now) (script.setting direction node)
            number self.old answer self.new) out.old.items out.new.items) }
        ensures err { OnErr result (StartsWith out.new.items out.old.items) }
        ensures left { OnErr result (spec.BreaksOff self.old self.new) }
    {
        let Some(filter) = self.filters.get(name) else {
            return refuse(out, UNKNOWN_FILTER, u64::from(number));
        };
        let event = direction.event(node, Arc::try_clone(filter)?);
        let reply = self.enter(event, out)?;
        if reply == LineReply::Answered {
            self.tell_replaced(direction, node, name);
        }
        Ok(reply)
    }

    /// Tells the listener that the filter of a name is in force.
    fn tell_replaced(&self, direction: Direction, node: u16, name: &[u8]) {
        if let Some(filter) = self.filters.get(name) {
            self.listener
                .replaced(self.rt, direction, node, name, filter);
        }
    }

    /// Answers `down`. The link of a node takes it down itself.
    fn take_down(
        &mut self,
        number: u32,
        node: u16,
        out: &mut Vec<u8>,
    ) -> Result<LineReply, AllocError>
        ensures ok { IfOk result (Answers (λ answer. spec.UnlessLinked node number (spec.AnswersDown node self.old) self.old
            answer self.new) out.old.items out.new.items) }
        ensures err { OnErr result (StartsWith out.new.items out.old.items) }
        ensures left { OnErr result (spec.BreaksOff self.old self.new) }
    {
        if has_link(self.links, node) {
            return refuse(out, LINK_DOES_IT, u64::from(number));
        }
        let mut finding = FindingSession {
            node,
            session: None,
        };
        self.router.observe(self.rt, &mut self.pass, &mut finding);
        self.enter(Event::Down(session_number(finding.session)), out)
    }

    /// Enters an event, and answers it by the router's reply, of which the listener is told.
    pub(crate) fn enter(&mut self, event: Event, out: &mut Vec<u8>) -> Result<LineReply, AllocError>
        ensures ok { IfOk result (Answers (λ answer. spec.AnswersEvent self.old event answer self.new) out.old.items out.new.items) }
        ensures err { OnErr result (StartsWith out.new.items out.old.items) }
        ensures left { OnErr result (spec.BreaksOff self.old self.new) }
        ensures notified { IsNotified L.is_notified self.old.router self.old.pass event self.new.pass }
    {
        let exported = exported_by(&event);
        let called = self.router.call(self.rt, &mut self.pass, event);
        answer_call(self.rt, self.listener, self.limit, exported, called, out)
    }

    /// Answers `status` and `status json`.
    pub(crate) fn status(
        &mut self,
        alloc: Global,
        number: u32,
        form: Form,
        out: &mut Vec<u8>,
    ) -> Result<LineReply, AllocError>
        ensures ok { IfOk result (Answers (λ answer. spec.AnswersStatus self.old form answer self.new) out.old.items out.new.items) }
        ensures err { OnErr result (StartsWith out.new.items out.old.items) }
        ensures left { OnErr result (spec.SeesMore self.old self.new) }
    {
        let status = self.listener.status(self.rt, alloc)?;
        let asked = Query::Status(StatusQuery { status, form });
        self.look(alloc, number, asked, out)
    }

    /// Answers `routes json`.
    pub(crate) fn routes(
        &mut self,
        alloc: Global,
        number: u32,
        out: &mut Vec<u8>,
    ) -> Result<LineReply, AllocError>
        ensures ok { IfOk result (Answers (λ answer. spec.AnswersRoutes self.old answer self.new) out.old.items out.new.items) }
        ensures err { OnErr result (StartsWith out.new.items out.old.items) }
        ensures left { OnErr result (spec.SeesMore self.old self.new) }
    {
        self.look(alloc, number, Query::Routes, out)
    }

    /// Answers a command that looks, and refuses any other.
    pub(crate) fn look_alone(
        &mut self,
        alloc: Global,
        number: u32,
        command: Command<'_>,
        out: &mut Vec<u8>,
    ) -> Result<LineReply, AllocError>
        ensures ok { IfOk result (Answers (λ answer. looker.AnswersCommand self.old number (view_of command.entry) answer self.new)
            out.old.items out.new.items) }
        ensures err { OnErr result (StartsWith out.new.items out.old.items) }
        ensures left { OnErr result (spec.SeesMore self.old self.new) }
    {
        match command {
            Command::Look(look) => {
                let asked = Query::Tables(look);
                self.look(alloc, number, asked, out)
            }
            Command::History(from) => {
                let asked = Query::Entries(from);
                self.look(alloc, number, asked, out)
            }
            _ => refuse(out, LOOKS_ALONE, u64::from(number)),
        }
    }

    /// Answers the line of a number that looks at the router.
    fn look(
        &mut self,
        alloc: Global,
        number: u32,
        asked: Query,
        out: &mut Vec<u8>,
    ) -> Result<LineReply, AllocError>
        ensures ok { IfOk result (Answers (λ answer. spec.AnswersLook (query_answer asked number) self.old answer self.new)
            out.old.items out.new.items) }
        ensures err { OnErr result (StartsWith out.new.items out.old.items) }
        ensures left { OnErr result (spec.Looks self.old self.new) }
    {
        let mut looking = Looking {
            alloc,
            number,
            asked,
            text: replace(out, Vec::new(alloc)),
            reply: Err(AllocError),
        };
        self.router.observe(self.rt, &mut self.pass, &mut looking);
        let Looking { text, reply, .. } = looking;
        *out = text;
        reply
    }
}
