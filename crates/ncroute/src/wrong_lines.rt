//! What people are told of a line of a router's file that is refused: where it is, and why.
ghost use Rattle.std.specs.Prelude.{◌≡◌, ◌++◌, IfOk, OnOk};
ghost use Rattle.router_files.specs.Files.{statement_of};
ghost use Rattle.ncroute.specs.WrongLines as spec;

use crate::wrong_words::push_place;
use line_protocol::push_decimal;
use router_files::{
    LineFault, RouterOption, Statement, WrongLine, first_byte, second_byte, third_byte,
};
use router_words::{Clash, StatementFault};
use std::alloc::{AllocError, Global};

/// The byte at which that begins which is refused.
fn byte_of(line: &[u8], why: LineFault) -> usize
    ensures { result ≡ spec.byte_of line.now why }
{
    match why {
        LineFault::NotText | LineFault::Memory => 0,
        LineFault::Unknown | LineFault::Form(_) => first_byte(line),
        LineFault::Number | LineFault::Node | LineFault::CommaOfControl => second_byte(line),
        LineFault::Comma => third_byte(line),
    }
}

/// Adds the form of an option.
fn push_form(out: &mut Vec<u8>, option: RouterOption) -> Result<(), AllocError>
    ensures { OnOk result (out.new.items ≡ out.old.items ++ spec.form_words option) }
{
    out.extend_from_slice(b"the form is '")?;
    out.extend_from_slice(option.form().as_bytes())?;
    out.extend_from_slice(b"'")
}

/// Adds why a line is refused.
fn push_why(out: &mut Vec<u8>, why: LineFault) -> Result<(), AllocError>
    ensures { OnOk result (out.new.items ≡ out.old.items ++ spec.why_words why) }
{
    match why {
        LineFault::NotText => out.extend_from_slice(b"this line is not UTF-8"),
        LineFault::Unknown => out.extend_from_slice(b"no option has this name"),
        LineFault::Form(option) => push_form(out, option),
        LineFault::Number => out.extend_from_slice(b"a number is 0 to 4294967295"),
        LineFault::Node => out.extend_from_slice(b"this is no number of a node"),
        LineFault::Comma => {
            out.extend_from_slice(b"IN has a comma in its name, or in that of the folder")
        }
        LineFault::CommaOfControl => {
            out.extend_from_slice(b"IN or OUT has a comma in its name, or in that of the folder")
        }
        LineFault::Memory => out.extend_from_slice(b"out of memory"),
    }
}

/// The line that tells of a line that is refused by itself.
pub(crate) fn refused_line(
    alloc: Global,
    name: &str,
    wrong: &WrongLine,
) -> Result<Vec<u8>, AllocError>
    ensures { IfOk result (λ line. line.items ≡ spec.refused_line name.now (spec.wrong_of wrong.now)) }
{
    let said = wrong.line.as_slice();
    let byte = byte_of(said, wrong.why);
    let mut line = Vec::new(alloc);
    push_place(alloc, &mut line, name, wrong.number, said, byte)?;
    push_why(&mut line, wrong.why)?;
    line.push(b'\n')?;
    Ok(line)
}

/// The line that tells that a line says again what an earlier one says.
fn again_line(
    alloc: Global,
    name: &str,
    later: &Statement,
    earlier: &Statement,
) -> Result<Vec<u8>, AllocError>
    ensures { IfOk result (λ line. line.items ≡ spec.again_line name.now (statement_of later.now) (statement_of earlier.now)) }
{
    let said = later.line.as_slice();
    let byte = first_byte(said);
    let mut line = Vec::new(alloc);
    push_place(alloc, &mut line, name, later.number, said, byte)?;
    line.extend_from_slice(b"line ")?;
    push_decimal(&mut line, earlier.number as u64)?;
    line.extend_from_slice(b" says this too\n")?;
    Ok(line)
}

/// Why a line is not to be there, in words.
fn fault_words(why: StatementFault) -> &'static [u8]
    ensures { result.now ≡ spec.fault_words why }
{
    match why {
        StatementFault::Name => {
            b"the name of a filter is letters, digits and _, does not begin with a digit, and has at most 64 bytes\n"
        }
        StatementFault::Beside => b"the command line says this too\n",
    }
}

/// The byte at which that begins which is not to be there.
fn byte_by(line: &[u8], why: StatementFault) -> usize
    ensures { result ≡ spec.byte_by line.now why }
{
    match why {
        StatementFault::Name => second_byte(line),
        StatementFault::Beside => first_byte(line),
    }
}

/// The line that tells that a line is not to be there.
fn statement_line(
    alloc: Global,
    name: &str,
    statement: &Statement,
    why: StatementFault,
) -> Result<Vec<u8>, AllocError>
    ensures { IfOk result (λ line. line.items ≡ spec.statement_line name.now (statement_of statement.now) why) }
{
    let said = statement.line.as_slice();
    let byte = byte_by(said, why);
    let mut line = Vec::new(alloc);
    push_place(alloc, &mut line, name, statement.number, said, byte)?;
    line.extend_from_slice(fault_words(why))?;
    Ok(line)
}

/// The line that tells of a line that does not go together with others.
pub(crate) fn clash_line(alloc: Global, name: &str, clash: Clash<'_>) -> Result<Vec<u8>, AllocError>
    ensures { IfOk result (λ line. line.items ≡ spec.clash_line name.now clash.entry) }
{
    match clash {
        Clash::Again { later, earlier } => again_line(alloc, name, later, earlier),
        Clash::Wrong { statement, why } => statement_line(alloc, name, statement, why),
    }
}
