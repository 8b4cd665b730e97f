//! The file of a domain is read.
ghost use Rattle.std.specs.Prelude.{◌≡◌, ◌↔◌, ◌+◌, [], IfErr, IfOk, IsTrue, OnOk};
ghost use Rattle.std.specs.Option.{option_map};
ghost use Rattle.domain_cmds.specs.Short.{IsShort};
ghost use Rattle.domain_files.specs.FileView.{use_of};
ghost use Rattle.domain_files.specs.Files as spec;
ghost use Rattle.domain_files.specs.declared.file.WrongFile.TheVariants as wrong;

use crate::file::{DomainFile, NamedUse, WrongFile, WrongLine};
use domain_cmds::{DomainCommand, Planning, read_command};
use line_protocol::{LineReply, is_skipped};
use operator_cmds::{CommandFault, refuse};
use router_files::cut_line;
use std::alloc::{AllocError, Global};

impl DomainFile {
    /// Whether a filter has this name.
    fn has_name(&self, name: &[u8]) -> bool
        ensures { result ≡ spec.has_name self.now.planning name.now }
    {
        self.planning.filters().get(name).is_some()
    }
}

/// What a command uses, if it says that a filter is used.
fn used_by(alloc: Global, command: &DomainCommand<'_>) -> Result<Option<NamedUse>, AllocError>
    ensures { IfOk result (λ used. option_map use_of used ≡ spec.used_by (spec.view_of command.now)) }
{
    match command {
        DomainCommand::Use {
            direction,
            u,
            w,
            name,
        } => Ok(Some(NamedUse {
            direction: *direction,
            u: *u,
            w: *w,
            name: Vec::from_slice(alloc, *name)?,
        })),
        _ => Ok(None),
    }
}

/// The name that a command gives to a filter.
fn name_given<'a>(command: &DomainCommand<'a>) -> Option<&'a [u8]>
    ensures { option_map (λ name. name.now) result ≡ spec.name_given (spec.view_of command.now) }
{
    match command {
        DomainCommand::Load { name, .. } => Some(*name),
        DomainCommand::Code { name, .. } => Some(*name),
        _ => None,
    }
}

/// Whether a command asks, or remembers routes, and so changes nothing of the domain but that prefixes stay.
fn is_asking(command: &DomainCommand<'_>) -> bool
    ensures { result ≡ spec.is_asking (spec.view_of command.now) }
{
    matches!(
        command,
        DomainCommand::Ask(_) | DomainCommand::Json | DomainCommand::Mark
    )
}

/// What a line came to.
#[derive(Clone, Copy, PartialEq, Eq)]
enum Carried {
    /// It is carried out.
    Done,
    /// It is refused, by the answer that was written.
    Refused,
    /// It gives a name to a filter that another one has.
    NameAgain,
}

impl DomainFile {
    /// Whether a command gives a name that a filter has.
    fn gives_name_again(&self, command: &DomainCommand<'_>) -> bool
        ensures { IsTrue result ↔ spec.GivesNameAgain self.now (spec.view_of command.now) }
    {
        match name_given(command) {
            Some(name) => self.has_name(name),
            None => false,
        }
    }

    /// Notes that a filter is used, if one is.
    fn note_use(&mut self, used: Option<NamedUse>) -> Result<(), AllocError>
        ensures { OnOk result (self.new ≡ record self.old { uses = spec.with_use self.old.uses (option_map use_of used) }) }
    {
        if let Some(used) = used {
            self.uses.push(used)?;
        }
        Ok(())
    }

    /// Carries out a command that asks nothing and gives no name again. It may be refused by an answer.
    fn set_up(
        &mut self,
        alloc: Global,
        number: u32,
        command: DomainCommand<'_>,
        answer: &mut Vec<u8>,
    ) -> Result<Carried, AllocError>
        requires empty { answer.old.items ≡ [] }
        requires short { IsShort (spec.view_of command) }
        ensures { IfOk result (spec.SetsUp self.old number (spec.view_of command.entry) answer.new.items self.new) }
    {
        let used = used_by(alloc, &command)?;
        let reply = self.planning.carry_out(alloc, number, command, answer)?;
        if reply != LineReply::Answered {
            return Ok(Carried::Refused);
        }
        self.note_use(used)?;
        Ok(Carried::Done)
    }

    /// Carries out a command, which may be refused by an answer.
    fn carry_out(
        &mut self,
        alloc: Global,
        number: u32,
        command: DomainCommand<'_>,
        answer: &mut Vec<u8>,
    ) -> Result<Carried, AllocError>
        requires empty { answer.old.items ≡ [] }
        requires short { IsShort (spec.view_of command) }
        ensures { IfOk result (spec.ComesTo (spec.Carries self.old number (spec.view_of command.entry) self.new)
            (spec.Refuses self.old number (spec.view_of command.entry) answer.new.items)
            (spec.GivesNameAgain self.old (spec.view_of command.entry))) }
    {
        if is_asking(&command) {
            self.planning.begin();
            return Ok(Carried::Done);
        }
        if self.gives_name_again(&command) {
            return Ok(Carried::NameAgain);
        }
        self.set_up(alloc, number, command, answer)
    }
}

/// What is read of a domain's file up to a line.
#[derive(Drop)]
struct Reading {
    /// What the lines set up, once one said `domain`.
    file: Option<DomainFile>,
    /// The answer to the line that was read last.
    answer: Vec<u8>,
}

impl Reading {
    /// Carries out a command.
    fn carry_out(
        &mut self,
        alloc: Global,
        number: u32,
        command: DomainCommand<'_>,
    ) -> Result<Carried, AllocError>
        requires empty { self.old.answer.items ≡ [] }
        requires short { IsShort (spec.view_of command) }
        ensures { IfOk result (spec.ComesTo (spec.CarriesFirst self.old.file number (spec.view_of command.entry) self.new.file)
            (spec.RefusesFirst self.old.file number (spec.view_of command.entry) self.new.answer.items)
            (spec.NamesAgainFirst self.old.file (spec.view_of command.entry))) }
    {
        match &mut self.file {
            Some(file) => file.carry_out(alloc, number, command, &mut self.answer),
            None => match command {
                DomainCommand::Domain(size) => {
                    self.file = Some(DomainFile {
                        planning: Planning::new(alloc, size)?,
                        uses: Vec::new(alloc),
                    });
                    Ok(Carried::Done)
                }
                _ => {
                    // As the script of a domain says it, whose first command is `domain`.
                    refuse(&mut self.answer, "O4", u64::from(number))?;
                    Ok(Carried::Refused)
                }
            },
        }
    }

    /// Reads a line.
    fn take(&mut self, alloc: Global, number: u32, line: &[u8]) -> Result<Carried, AllocError>
        ensures { IfOk result (spec.ComesTo (spec.TakesLine self.old.file number line.now self.new.file)
            (spec.RefusesLine self.old.file number line.now self.new.answer.items) (spec.NamesAgain self.old.file line.now)) }
    {
        self.answer.clear();
        if is_skipped(line) {
            return Ok(Carried::Done);
        }
        match read_command(alloc, line) {
            Ok(command) => self.carry_out(alloc, number, command),
            Err(CommandFault::Memory) => Err(AllocError),
            Err(why) => {
                refuse(&mut self.answer, why.code(), u64::from(number))?;
                Ok(Carried::Refused)
            }
        }
    }
}

/// The number of the line behind the one of this number. A text of more lines than numbers is in no memory.
fn next_number(number: u32) -> Result<u32, WrongFile>
    ensures next { IfOk result (λ next. next ≡ number + 1) }
    ensures none { IfErr result (λ why. why ≡ wrong.Memory) }
{
    number.checked_add(1).ok_or(WrongFile::Memory)
}

/// The line that is refused.
fn wrong_line(alloc: Global, number: u32, line: &[u8], reading: Reading) -> WrongFile
    ensures { spec.IsWrongLine number line.now reading.answer.items result }
{
    let Reading { file, answer } = reading;
    match Vec::from_slice(alloc, line) {
        Ok(line) => WrongFile::Refused(WrongLine {
            number,
            line,
            answer,
            before: file,
        }),
        Err(_) => WrongFile::Memory,
    }
}

/// Reads the file of a domain, in which the files of filters are included already.
pub fn read_domain(alloc: Global, text: &[u8]) -> Result<DomainFile, WrongFile>
    ensures read { IfOk result (spec.IsFile text.now) }
    ensures wrong { IfErr result (spec.IsNoFile text.now) }
{
    let mut reading = Reading {
        file: None,
        answer: Vec::new(alloc),
    };
    let mut left = text;
    let mut number: u32 = 0;
    while let Some((line, rest)) = cut_line(left) {
        number = next_number(number)?;
        match reading.take(alloc, number, line)? {
            Carried::Done => left = rest,
            Carried::Refused => return Err(wrong_line(alloc, number, line, reading)),
            Carried::NameAgain => return Err(WrongFile::NameAgain(number)),
        }
    }
    let Reading { file, .. } = reading;
    file.ok_or(WrongFile::NoDomain)
}
