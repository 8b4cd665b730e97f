//! The commands of a filter, each with a count.
ghost use Rattle.std.specs.Prelude.{◌≡◌, ◌++◌, length, slice_index, IfOk, OnOk};
ghost use Rattle.filter_traces.specs.Commands.{chosen_line, chosen_lines, command_line, lines_among, is_command, is_command_at};

use crate::site::{push_site, word_of};
use crate::traced::Traced;
use filter_code::Instr;
use line_protocol::push_decimal;
use std::alloc::{AllocError, Global};

/// Whether an instruction is that of a command, whose word is this one.
fn is_command(word: &[u8], instr: Option<Instr>) -> bool
    ensures { result ≡ is_command word.now instr }
{
    match instr {
        Some(Instr::Accept) => true,
        Some(Instr::Reject) => true,
        Some(Instr::Store(_)) => true,
        Some(Instr::SetMetric) => true,
        Some(Instr::JumpIfNot(_)) => word == b"if".as_slice(),
        _ => false,
    }
}

impl<'a> Traced<'a> {
    /// Whether the instruction at a place is that of a command.
    fn is_command_at(&self, at: usize) -> bool
        ensures { result ≡ is_command_at self.now at }
    {
        is_command(word_of(self.text(), self.site(at)), self.instr(at)) && !self.is_declaration(at)
    }

    /// Puts the line on a command at the end of `out`.
    fn push_command(&self, out: &mut Vec<u8>, at: usize, count: u64) -> Result<(), AllocError>
        ensures { OnOk result (out.new.items ≡ out.old.items ++ command_line self.now at count) }
    {
        let site = self.site(at);
        push_decimal(out, count)?;
        out.push(b' ')?;
        push_site(out, site)?;
        out.push(b' ')?;
        out.extend_from_slice(word_of(self.text(), site))?;
        out.push(b'\n')?;
        Ok(())
    }

    /// Puts the line on a command at the end of `out`, if it is to be among the reached ones, or among the others.
    fn push_chosen(
        &self,
        out: &mut Vec<u8>,
        is_reached: bool,
        at: usize,
        count: u64,
    ) -> Result<(), AllocError>
        ensures { OnOk result (out.new.items ≡ out.old.items ++ chosen_line self.now is_reached at count) }
    {
        if self.is_command_at(at) && (0 < count) == is_reached {
            self.push_command(out, at, count)
        } else {
            Ok(())
        }
    }

    /// Puts the lines on the commands that have been reached, or on the others, at the end of `out`.
    fn push_commands(
        &self,
        out: &mut Vec<u8>,
        is_reached: bool,
        counts: &[u64],
    ) -> Result<(), AllocError>
        ensures { OnOk result (out.new.items
            ≡ out.old.items ++ chosen_lines self.now is_reached (slice_index counts.now) (length counts.now)) }
    {
        for (at, count) in counts.iter().enumerate() {
            self.push_chosen(out, is_reached, at, *count)?;
        }
        Ok(())
    }

    /// The lines on all commands whose instructions have counts, each with that count.
    pub(crate) fn coverage(&self, alloc: Global, counts: &[u64]) -> Result<Vec<u8>, AllocError>
        ensures { IfOk result (λ text. text.items ≡ lines_among self.now (slice_index counts.now) (length counts.now)) }
    {
        let mut text = Vec::new(alloc);
        self.push_commands(&mut text, true, counts)?;
        self.push_commands(&mut text, false, counts)?;
        Ok(text)
    }
}
