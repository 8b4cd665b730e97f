//! The script: its lines, one after another, drive a router.
//!
//! **The script keeps its journal itself and takes no lock.** There is one caller, so there is nothing to divide.
//!
//! **Faults of a script are those of the lines** (`ScriptFault` is `StreamFault`): a script has no others.
ghost use Rattle.std.specs.Prelude.{◌≡◌, IfErr, IfOk, IfSome};
ghost use Rattle.operator_cmds.specs.Running.{IsBrokenOff, IsCarriedOut};

use crate::stage::{Setup, Stage};
use filter_source::Diagnosis;
use filter_verifier::Verified;
use line_protocol::{LineReply, Service, StreamFault, answer_lines};
use netchange_core::{Event, Opening};
use operator_cmds::{
    Command, CommandFault, Direction, FilterSource, Look, NamedFilters, Network, PlainCommand,
    RefusedLine, StateFault, answer_history, answer_look, confirm, enter, give_name, name_source,
    read_command, read_plain, refuse, session_number,
};
use prefix_patterns::Prefix;
use route_history::Journal;
use std::alloc::{AllocError, Global};
use std::collections::BTreeMap;
use std::io::{Read, Write};
use std::sync::Arc;

/// What ends a script before its input does: E1 to E4.
pub type ScriptFault = StreamFault;

/// A script between two lines. Contracts see it as a `ScriptView`.
#[derive(Drop)]
pub struct Script {
    /// How far it has come.
    stage: Stage,
    /// The filter of each name.
    filters: NamedFilters,
    /// What is told of the last filter that was refused.
    diagnosis: Option<Diagnosis>,
}

impl Service for Script {
    ghost use Rattle.std.specs.Prelude.{⊤};
    ghost use Rattle.operator_cmds.specs.Script.{AnswersLine};
    ghost use Rattle.router_script.specs.State.{script_of};

    ghost answers = { λ before number line answer after. AnswersLine (script_of before) number line answer (script_of after) };

    ghost refuses = { λ _ _. ⊤ };

    fn answer(
        &mut self,
        alloc: Global,
        number: u32,
        line: &[u8],
        out: &mut Vec<u8>,
    ) -> Result<LineReply, AllocError> {
        match read_plain(line) {
            Some(plain) => self.carry_out_plain(alloc, number, plain, out),
            None => self.answer_words(alloc, number, line, out),
        }
    }
}

impl Script {
    ghost use Rattle.std.specs.Option.{option_map};
    ghost use Rattle.std.specs.Prelude.{OnErr, OnOk, Some};
    ghost use Rattle.std.specs.Io.{StartsWith};
    ghost use Rattle.operator_cmds.specs.CommandView.{view_of};
    ghost use Rattle.operator_cmds.specs.Entries.{open_journal};
    ghost use Rattle.operator_cmds.specs.Looks.{history_text, looked};
    ghost use Rattle.operator_cmds.specs.PlainLines.{plain_view};
    ghost use Rattle.operator_cmds.specs.Replies.{Answers, answered};
    ghost use Rattle.operator_cmds.specs.Script as spec;
    ghost use Rattle.operator_cmds.specs.Stages.{session_in, size_in};
    ghost use Rattle.operator_cmds.specs.State.{filter_at};
    ghost use Rattle.router_script.specs.State.{script_of, setting_in, stage_of, diagnosis_of};

    /// A script at its first line.
    pub fn new(alloc: Global) -> Script
        ensures { script_of result ≡ spec.fresh }
    {
        Script {
            stage: Stage::Empty,
            filters: BTreeMap::new(alloc),
            diagnosis: None,
        }
    }

    /// The number of nodes of the domain, if one is set up.
    pub fn size(&self) -> Option<u16>
        ensures { result ≡ size_in (script_of self.now).stage }
    {
        self.stage.size()
    }

    /// The router's journal, once the first event opened it. `one_line_one_entry` says what a line does to it.
    pub fn journal(&self) -> Option<&Journal>
        ensures { option_map (λ j. j.now) result ≡ open_journal (script_of self.now).stage }
    {
        match &self.stage {
            Stage::Open(journal) => Some(journal),
            Stage::Empty | Stage::Setting(_) => None,
        }
    }

    /// What the first event will open the journal with, once a domain is set up and as long as there was no event: the opening, and the
    /// most entries.
    pub fn setting(&self) -> Option<(&Opening, u32)>
        ensures { option_map (λ setting. (setting.0.now, setting.1)) result ≡ setting_in (script_of self.now).stage }
    {
        match &self.stage {
            Stage::Setting(setup) => Some((&setup.opening, setup.limit)),
            Stage::Empty | Stage::Open(_) => None,
        }
    }

    /// A line that this script refused, and what the script knows.
    pub fn refused_line<'a>(
        &'a self,
        number: u32,
        line: &'a [u8],
        answer: &'a [u8],
    ) -> RefusedLine<'a>
        ensures line { result.line.now ≡ line.now }
        ensures answer { result.answer.now ≡ answer.now }
        ensures number { result.number ≡ number }
        ensures size { result.size ≡ size_in (script_of self.now).stage }
        ensures filters { option_map (λ filters. filter_at filters.now) result.filters ≡ Some (script_of self.now).filters }
        ensures diagnosis { result.diagnosis ≡ diagnosis_of self.now }
    {
        RefusedLine {
            number,
            line,
            answer,
            size: self.size(),
            filters: Some(&self.filters),
            diagnosis: self.diagnosis,
        }
    }

    /// The filters that have names.
    pub fn into_filters(self) -> NamedFilters
        ensures { filter_at result ≡ (script_of self).filters }
    {
        let Script {
            stage: _stage,
            filters,
            diagnosis: _diagnosis,
        } = self;
        filters
    }

    /// Gives a filter a name, as `load` and `code` do.
    pub fn set_filter(
        &mut self,
        alloc: Global,
        name: &[u8],
        filter: Arc<Verified>,
    ) -> Result<(), AllocError>
        ensures { OnOk result (spec.Names name.now filter.value (script_of self.old) (script_of self.new)) }
    {
        give_name(alloc, &mut self.filters, name, filter)
    }

    /// Carries out the command of a line in the usual spelling, and answers it.
    #[inline(always)]
    fn carry_out_plain(
        &mut self,
        alloc: Global,
        number: u32,
        plain: PlainCommand,
        out: &mut Vec<u8>,
    ) -> Result<LineReply, AllocError>
        ensures ok { IfOk result (Answers (λ answer. spec.AnswersCommand (script_of self.old) number (plain_view plain) answer
            (script_of self.new)) out.old.items out.new.items) }
        ensures err { OnErr result (StartsWith out.new.items out.old.items) }
    {
        match plain {
            PlainCommand::Receive(node, dest, dist) => {
                let event = Event::Receive(session_number(self.stage.session(node)), dest, dist);
                self.enter(alloc, number, event, out)
            }
            PlainCommand::Take(node) => {
                let event = Event::Take(session_number(self.stage.session(node)), u16::MAX);
                self.enter(alloc, number, event, out)
            }
            PlainCommand::Show(node) => self.enter(alloc, number, Event::Show(node), out),
        }
    }

    /// Answers a line that is read word by word.
    #[inline(never)]
    fn answer_words(
        &mut self,
        alloc: Global,
        number: u32,
        line: &[u8],
        out: &mut Vec<u8>,
    ) -> Result<LineReply, AllocError>
        ensures ok { IfOk result (Answers (λ answer. spec.AnswersLine (script_of self.old) number line.now answer
            (script_of self.new)) out.old.items out.new.items) }
        ensures err { OnErr result (StartsWith out.new.items out.old.items) }
    {
        match read_command(alloc, line) {
            Ok(command) => self.carry_out(alloc, number, command, out),
            Err(CommandFault::Memory) => Err(AllocError),
            Err(why) => refuse(out, why.code(), u64::from(number)),
        }
    }

    /// Carries out the command of a line, and answers it.
    fn carry_out(
        &mut self,
        alloc: Global,
        number: u32,
        command: Command<'_>,
        out: &mut Vec<u8>,
    ) -> Result<LineReply, AllocError>
        ensures ok { IfOk result (Answers (λ answer. spec.AnswersCommand (script_of self.old) number (view_of command.entry) answer
            (script_of self.new)) out.old.items out.new.items) }
        ensures err { OnErr result (StartsWith out.new.items out.old.items) }
    {
        match command {
            Command::Network(network) => self.set_up(alloc, number, network, out),
            Command::Prefix { node, prefix } => self.set_prefix(number, node, prefix, out),
            Command::Load { name, text } => {
                self.load(alloc, number, name, FilterSource::Text(text), out)
            }
            Command::Code { name, bytes } => {
                self.load(
                    alloc,
                    number,
                    name,
                    FilterSource::File(bytes.as_slice()),
                    out,
                )
            }
            Command::Import { node, name } => {
                self.use_filter(alloc, number, Direction::Import, node, name, out)
            }
            Command::Export { node, name } => {
                self.use_filter(alloc, number, Direction::Export, node, name, out)
            }
            Command::Up(node) => self.enter_any(alloc, number, Event::Up(node), out),
            Command::Down(node) => {
                let event = Event::Down(session_number(self.stage.session(node)));
                self.enter_any(alloc, number, event, out)
            }
            Command::Receive { node, dest, dist } => {
                let event = Event::Receive(session_number(self.stage.session(node)), dest, dist);
                self.enter_any(alloc, number, event, out)
            }
            Command::Take(node) => {
                let event = Event::Take(session_number(self.stage.session(node)), u16::MAX);
                self.enter_any(alloc, number, event, out)
            }
            Command::Show(node) => self.enter_any(alloc, number, Event::Show(node), out),
            Command::Look(look) => self.look(alloc, number, look, out),
            Command::History(from) => self.tell_history(alloc, number, from, out),
        }
    }

    /// Answers `network`: sets a domain up, if there is none.
    fn set_up(
        &mut self,
        alloc: Global,
        number: u32,
        network: Network,
        out: &mut Vec<u8>,
    ) -> Result<LineReply, AllocError>
        ensures ok { IfOk result (Answers (λ answer. spec.AnswersNetwork (stage_of self.old.stage) number network.size network.me
            network.limit (script_of self.old) answer (script_of self.new)) out.old.items out.new.items) }
        ensures err { OnErr result (StartsWith out.new.items out.old.items) }
    {
        match self.stage {
            Stage::Empty => {
                self.stage = Stage::Setting(Setup::new(alloc, network)?);
                confirm(out)
            }
            Stage::Setting(_) | Stage::Open(_) => {
                refuse(out, StateFault::TooLate.code(), u64::from(number))
            }
        }
    }

    /// Answers `prefix`: sets the prefix of a node, as long as no journal is open.
    fn set_prefix(
        &mut self,
        number: u32,
        node: u16,
        prefix: Prefix,
        out: &mut Vec<u8>,
    ) -> Result<LineReply, AllocError>
        ensures ok { IfOk result (Answers (λ answer. spec.AnswersPrefix (stage_of self.old.stage) number node prefix
            (script_of self.old) answer (script_of self.new)) out.old.items out.new.items) }
        ensures err { OnErr result (StartsWith out.new.items out.old.items) }
    {
        match &mut self.stage {
            Stage::Empty => refuse(out, StateFault::NoNetwork.code(), u64::from(number)),
            Stage::Setting(setup) => {
                if node >= setup.opening.size() {
                    return refuse(out, CommandFault::Numbers.code(), u64::from(number));
                }
                setup.set_prefix(node, prefix);
                confirm(out)
            }
            Stage::Open(_) => refuse(out, StateFault::TooLate.code(), u64::from(number)),
        }
    }

    /// Answers `load` and `code`: a source is verified, and gets a name.
    fn load(
        &mut self,
        alloc: Global,
        number: u32,
        name: &[u8],
        source: FilterSource<'_>,
        out: &mut Vec<u8>,
    ) -> Result<LineReply, AllocError>
        ensures ok { IfOk result (Answers (λ answer. spec.AnswersFilter (stage_of self.old.stage) (spec.gives source.entry)
            (spec.lacks source.entry) number name.now (script_of self.old) answer (script_of self.new)) out.old.items out.new.items) }
        ensures diagnosis { IfSome (size_in (stage_of self.old.stage)) (λ size. IfOk result (Answers (λ answer.
            spec.TellsSource (spec.diagnoses source.entry size) number (diagnosis_of self.old) answer (diagnosis_of self.new))
            out.old.items out.new.items)) }
        ensures err { OnErr result (StartsWith out.new.items out.old.items) }
    {
        match self.stage.size() {
            Some(size) => name_source(
                alloc,
                &mut self.filters,
                number,
                name,
                source,
                size,
                &mut self.diagnosis,
                out,
            ),
            None => refuse(out, StateFault::NoNetwork.code(), u64::from(number)),
        }
    }

    /// Answers `import` and `export`: a node's distances in a direction pass a filter from now on.
    fn use_filter(
        &mut self,
        alloc: Global,
        number: u32,
        direction: Direction,
        node: u16,
        name: &[u8],
        out: &mut Vec<u8>,
    ) -> Result<LineReply, AllocError>
        ensures ok { IfOk result (Answers (λ answer. spec.AnswersUse (filter_at self.old.filters name.now)
            (spec.setting direction node) number (script_of self.old) answer (script_of self.new)) out.old.items out.new.items) }
        ensures err { OnErr result (StartsWith out.new.items out.old.items) }
    {
        match self.filters.get(name) {
            Some(filter) => {
                let event = direction.event(node, Arc::try_clone(filter)?);
                self.enter_any(alloc, number, event, out)
            }
            None => self.refuse_name(number, out),
        }
    }

    /// Refuses a command with a name that no filter has.
    fn refuse_name(&self, number: u32, out: &mut Vec<u8>) -> Result<LineReply, AllocError>
        ensures ok { IfOk result (Answers (λ answer. spec.RefusesName (stage_of self.now.stage) number (script_of self.now) answer
            (script_of self.now)) out.old.items out.new.items) }
        ensures err { OnErr result (StartsWith out.new.items out.old.items) }
    {
        match self.stage {
            Stage::Empty => refuse(out, StateFault::NoNetwork.code(), u64::from(number)),
            Stage::Setting(_) | Stage::Open(_) => {
                refuse(out, StateFault::UnknownFilter.code(), u64::from(number))
            }
        }
    }

    /// Answers a look at the tables. Before the first event they are as that event will find them.
    fn look(
        &self,
        alloc: Global,
        number: u32,
        look: Look,
        out: &mut Vec<u8>,
    ) -> Result<LineReply, AllocError>
        ensures ok { IfOk result (Answers (λ answer. spec.AnswersLook number (λ j. looked (spec.tables_of j) number look)
            (script_of self.now) answer (script_of self.now)) out.old.items out.new.items) }
        ensures err { OnErr result (StartsWith out.new.items out.old.items) }
    {
        match &self.stage {
            Stage::Empty => refuse(out, StateFault::NoNetwork.code(), u64::from(number)),
            Stage::Setting(setup) => {
                let journal = setup.open(alloc)?;
                answer_look(out, journal.tables(), number, look)
            }
            Stage::Open(journal) => answer_look(out, journal.tables(), number, look),
        }
    }

    /// Answers a look at the history, which is empty before the first event.
    fn tell_history(
        &self,
        alloc: Global,
        number: u32,
        from: u64,
        out: &mut Vec<u8>,
    ) -> Result<LineReply, AllocError>
        ensures ok { IfOk result (Answers (λ answer. spec.AnswersLook number (λ j. answered (history_text j.entries from))
            (script_of self.now) answer (script_of self.now)) out.old.items out.new.items) }
        ensures err { OnErr result (StartsWith out.new.items out.old.items) }
    {
        match &self.stage {
            Stage::Empty => refuse(out, StateFault::NoNetwork.code(), u64::from(number)),
            Stage::Setting(setup) => {
                let journal = setup.open(alloc)?;
                answer_history(alloc, out, &journal, from)
            }
            Stage::Open(journal) => answer_history(alloc, out, journal, from),
        }
    }

    /// Answers a command that is an event of the router.
    #[inline(always)]
    fn enter(
        &mut self,
        alloc: Global,
        number: u32,
        event: Event,
        out: &mut Vec<u8>,
    ) -> Result<LineReply, AllocError>
        ensures ok { IfOk result (Answers (λ answer. spec.AnswersEvent (stage_of self.old.stage) number event
            (script_of self.old) answer (script_of self.new)) out.old.items out.new.items) }
        ensures err { OnErr result (StartsWith out.new.items out.old.items) }
    {
        match &mut self.stage {
            Stage::Open(journal) => enter(journal, event, out),
            Stage::Empty | Stage::Setting(_) => self.enter_any(alloc, number, event, out),
        }
    }

    /// Answers a command that is an event of the router. The first one opens the journal.
    #[inline(never)]
    fn enter_any(
        &mut self,
        alloc: Global,
        number: u32,
        event: Event,
        out: &mut Vec<u8>,
    ) -> Result<LineReply, AllocError>
        ensures ok { IfOk result (Answers (λ answer. spec.AnswersEvent (stage_of self.old.stage) number event
            (script_of self.old) answer (script_of self.new)) out.old.items out.new.items) }
        ensures err { OnErr result (StartsWith out.new.items out.old.items) }
    {
        self.stage.open(alloc)?;
        match &mut self.stage {
            Stage::Open(journal) => enter(journal, event, out),
            Stage::Empty | Stage::Setting(_) => {
                refuse(out, StateFault::NoNetwork.code(), u64::from(number))
            }
        }
    }
}

/// Answers the lines of `reader` on `writer`: each is a command to the router of the script. Returns the number of lines that
/// were refused. What was answered is written before more is read.
pub fn run_script<R: Read, W: Write>(
    alloc: Global,
    reader: &mut R,
    writer: &mut W,
) -> Result<u32, ScriptFault>
    ensures finished { IfOk result (λ refused. IfSome (R.remaining reader.old) (λ input.
        IsCarriedOut input (R.remaining reader.new) (W.contents writer.old) (W.contents writer.new) refused)) }
    ensures broken_off { IfErr result (λ fault. IfSome (R.remaining reader.old) (λ input.
        IsBrokenOff fault input (R.remaining reader.new) (W.contents writer.old) (W.contents writer.new))) }
{
    let mut script = Script::new(alloc);
    answer_lines(alloc, reader, writer, &mut script)
}
