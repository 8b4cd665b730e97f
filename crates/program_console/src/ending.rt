//! How a run ends: its exit status, and the line that tells of a fault.
//!
//! **A fault ends with status 3 for `diff`, `domain`, `filter`, `lint`, `list`, `replay` and `test`**, so that a script can tell it from bad
//! policy. For all others it is 1, as for a refusal: of `eval`, `check` and `run` scripts rest on that.
ghost use Rattle.std.specs.Prelude.{◌≡◌, ◌||◌, IfErr, OnOk};
ghost use Rattle.std.specs.Io.KnownBytes.{Appends};
ghost use Rattle.line_protocol.specs.Runs.{AppendsFront};
ghost use Rattle.program_console.specs.Ending.{fault_line, worst_status};

use filter_reports::{FAILED, ProgramFault};
use line_protocol::{StreamFault, write_text};
use std::io::Write;

/// A program that is run on a console.
#[derive(Clone, Copy)]
pub enum Program {
    /// `ncroute`
    Ncroute,
    /// `ncimport`
    Ncimport,
}

/// The exit status of several things that were done one after another: 1 where one of them has it, and otherwise 3 where one has.
pub fn worst_status(earlier: u8, one: u8) -> u8
    ensures { result ≡ worst_status earlier one }
{
    if earlier == FAILED || one == 0 {
        earlier
    } else {
        one
    }
}

/// Whether something was found of one of those before, or of this one.
pub fn is_any(earlier: bool, one: bool) -> bool
    ensures { result ≡ (earlier || one) }
{
    earlier || one
}

/// The line that tells of a fault of a program. It is one text, so that one write takes it whole.
pub fn fault_line(program: Program, fault: ProgramFault) -> &'static str
    ensures { result.now ≡ fault_line program fault }
{
    match (program, fault) {
        (Program::Ncroute, ProgramFault::Stream(StreamFault::Read)) => "ncroute: E1\n",
        (Program::Ncroute, ProgramFault::Stream(StreamFault::Write)) => "ncroute: E2\n",
        (Program::Ncroute, ProgramFault::Stream(StreamFault::Memory)) => "ncroute: E3\n",
        (Program::Ncroute, ProgramFault::Stream(StreamFault::TooLong)) => "ncroute: E4\n",
        (Program::Ncimport, ProgramFault::Stream(StreamFault::Read)) => "ncimport: E1\n",
        (Program::Ncimport, ProgramFault::Stream(StreamFault::Write)) => "ncimport: E2\n",
        (Program::Ncimport, ProgramFault::Stream(StreamFault::Memory)) => "ncimport: E3\n",
        (Program::Ncimport, ProgramFault::Stream(StreamFault::TooLong)) => "ncimport: E4\n",
    }
}

/// Writes the line that tells of a fault of a program.
pub fn report_fault<E: Write>(
    errors: &mut E,
    program: Program,
    fault: ProgramFault,
) -> Result<(), StreamFault>
    ensures ok { OnOk result (Appends (E.contents errors.old) (E.contents errors.new) (fault_line program fault)) }
    ensures err { IfErr result (λ cut. (cut ≡ StreamFault.Write)
        × AppendsFront (E.contents errors.old) (E.contents errors.new) (fault_line program fault)) }
{
    write_text(errors, fault_line(program, fault).as_bytes())
}

/// Ends a run by a fault of a program, of which people are told as far as standard error takes the line: the exit status.
pub fn end_by_fault<E: Write>(errors: &mut E, program: Program, fault: ProgramFault) -> u8
    ensures status { result ≡ FAILED }
    ensures told { AppendsFront (E.contents errors.old) (E.contents errors.new) (fault_line program fault) }
{
    let _ = report_fault(errors, program, fault);
    FAILED
}
