//! An operator of a router whose files can be read again.
//!
//! **`read NAME FILE` is `load NAME` with the text that FILE has**, once that is verified: what is wrong with it is told in words, at its line and
//! column, and then the name keeps its filter. As with `load`, a use keeps the filter that it has until it is set again.
ghost use Rattle.std.specs.Prelude.{◌≡◌, ◌++◌, IfOk, OnErr, OnOk};
ghost use Rattle.std.specs.Io.{StartsWith};
ghost use Rattle.std.specs.Option.{option_map};
ghost use Rattle.operator_cmds.specs.Replies.{Adds, Answers};
ghost use Rattle.router_operator.specs.Reloading as spec;

use crate::configuration::{Configuration, ConfigurationFault};
use crate::listener::Listener;
use crate::naming::Naming;
use crate::operator::Operator;
use line_protocol::{LineReply, Service, is_name, push_decimal};
use operator_cmds::{FilterSource, cut_word, one_word, two_words};
use std::alloc::{AllocError, Global};
use std::rt::Clock;
use std::sync::Wait;

/// The name and the file of a line `read NAME FILE`.
fn read_in(line: &[u8]) -> Option<(&[u8], &[u8])>
    ensures { option_map (λ both. (both.0.now, both.1.now)) result ≡ spec.read_in line.now }
{
    let (word, rest) = cut_word(line)?;
    if word != b"read".as_slice() {
        return None;
    }
    match two_words(rest) {
        Some((name, file)) if is_name(name) => Some((name, file)),
        _ => None,
    }
}

/// Whether a line of one word is a reload, which is more than a look.
fn reload_of(word: &[u8]) -> Option<bool>
    ensures { result ≡ spec.reload_of word.now }
{
    if word == b"reload".as_slice() {
        Some(false)
    } else {
        None
    }
}

/// Whether a line of two words looks what a reload would do.
fn reload_for(word: &[u8], how: &[u8]) -> Option<bool>
    ensures { result ≡ spec.reload_for word.now how.now }
{
    if how != b"check".as_slice() {
        None
    } else if word == b"reload".as_slice() {
        Some(true)
    } else {
        None
    }
}

/// Whether a line is a reload, and then whether it only looks what that would do.
fn reload_in(line: &[u8]) -> Option<bool>
    ensures { result ≡ spec.reload_in line.now }
{
    if let Some(word) = one_word(line) {
        return reload_of(word);
    }
    match two_words(line) {
        Some((word, how)) => reload_for(word, how),
        None => None,
    }
}

/// How the answer begins to a line by which a file is not taken.
#[tactic(auto, unfolding(crate::specs::Reloading::not_taken))]
fn not_taken() -> &'static str
    ensures { result.now ≡ spec.not_taken }
{
    "refused O12 "
}

/// Adds why, to the end of the line.
fn push_why(out: &mut Vec<u8>, why: &[u8]) -> Result<(), AllocError>
    ensures ok { OnOk result (out.new.items ≡ out.old.items ++ spec.because why.now) }
    ensures err { OnErr result (StartsWith out.new.items out.old.items) }
{
    out.push(b' ')?;
    out.extend_from_slice(why)?;
    out.push(b'\n')?;
    Ok(())
}

/// Refuses a line in words.
fn refuse_in_words(out: &mut Vec<u8>, number: u32, why: &[u8]) -> Result<LineReply, AllocError>
    ensures ok { IfOk result (Adds (spec.refused_in_words number why.now) out.old.items out.new.items) }
    ensures err { OnErr result (StartsWith out.new.items out.old.items) }
{
    out.extend_from_slice(not_taken().as_bytes())?;
    push_decimal(out, u64::from(number))?;
    push_why(out, why)?;
    Ok(LineReply::Refused)
}

/// An operator of a router whose files can be read again.
#[derive(Drop)]
pub struct ConfiguredOperator<'a, R, L, J: Naming, C> {
    operator: Operator<'a, R, L, J>,
    /// Where the files are read.
    configuration: &'a C,
}

impl<'a, R: Wait + Clock, L: Listener, J: Naming, C: Configuration> Service
    for ConfiguredOperator<'a, R, L, J, C> {
    ghost answers = { λ before number line answer after. spec.AnswersLine (C.reads before.configuration.now) (C.says before.configuration.now)
        before.operator number line answer after.operator };

    ghost refuses = { λ before after. spec.BreaksOff before.operator after.operator };

    fn answer(
        &mut self,
        alloc: Global,
        number: u32,
        line: &[u8],
        out: &mut Vec<u8>,
    ) -> Result<LineReply, AllocError> {
        if let Some((name, file)) = read_in(line) {
            return self.read(alloc, number, name, file, out);
        }
        match reload_in(line) {
            Some(checks) => self.reload(alloc, number, checks, out),
            None => self.operator.answer(alloc, number, line, out),
        }
    }
}

impl<'a, R: Wait + Clock, L: Listener, J: Naming, C: Configuration> ConfiguredOperator<
    'a,
    R,
    L,
    J,
    C,
> {
    /// An operator of a router whose files are read there.
    pub fn new(
        operator: Operator<'a, R, L, J>,
        configuration: &'a C,
    ) -> ConfiguredOperator<'a, R, L, J, C>
        ensures { result.operator ≡ operator.entry }
    {
        ConfiguredOperator {
            operator,
            configuration,
        }
    }

    /// The operator.
    pub fn operator(self) -> Operator<'a, R, L, J>
        ensures { result ≡ self.entry.operator }
    {
        self.operator
    }

    /// Answers `read`.
    fn read(
        &mut self,
        alloc: Global,
        number: u32,
        name: &[u8],
        file: &[u8],
        out: &mut Vec<u8>,
    ) -> Result<LineReply, AllocError>
        ensures ok { IfOk result (Answers (λ answer. spec.AnswersReading (C.reads self.old.configuration.now) self.old.operator number name.now file.now
            answer self.new.operator) out.old.items out.new.items) }
        ensures err { OnErr result (StartsWith out.new.items out.old.items) }
        ensures left { OnErr result (self.new.operator ≡ self.old.operator) }
    {
        let size = self.operator.size();
        match self.configuration.read_filter(alloc, size, file) {
            Ok(text) => {
                let source = FilterSource::Text(text.as_slice());
                self.operator.load(alloc, number, name, source, out)
            }
            Err(ConfigurationFault::Refused(why)) => refuse_in_words(out, number, why.as_slice()),
            Err(ConfigurationFault::Memory) => Err(AllocError),
        }
    }

    /// Answers `reload` and `reload check`.
    fn reload(
        &mut self,
        alloc: Global,
        number: u32,
        checks: bool,
        out: &mut Vec<u8>,
    ) -> Result<LineReply, AllocError>
        ensures ok { IfOk result (Answers (λ answer. spec.AnswersReload (C.says self.old.configuration.now) checks self.old.operator number
            answer self.new.operator) out.old.items out.new.items) }
        ensures err { OnErr result (StartsWith out.new.items out.old.items) }
        ensures left { OnErr result (spec.BreaksOff self.old.operator self.new.operator) }
    {
        match self.configuration.read_again(alloc) {
            Ok(configured) => self.operator.reload(alloc, number, configured, checks, out),
            Err(ConfigurationFault::Refused(why)) => refuse_in_words(out, number, why.as_slice()),
            Err(ConfigurationFault::Memory) => Err(AllocError),
        }
    }
}
