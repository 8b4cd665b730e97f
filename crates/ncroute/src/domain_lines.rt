//! What people are told of words that do not go together with the file of a domain.
ghost use Rattle.std.specs.Prelude.{◌≡◌, ◌++◌, IfOk, OnOk, map};
ghost use Rattle.std.specs.Option.{option_map};
ghost use Rattle.router_files.specs.Files.{statement_of};
ghost use Rattle.ncroute.specs.DomainLines as spec;
ghost use Rattle.router_words.specs.Stated.{origin_of};

use crate::domain_words::DomainFault;
use crate::wrong_words::push_place;
use line_protocol::push_decimal;
use router_files::{RouterOption, Statement, first_byte, second_byte};
use router_words::{Origin, nth_stated};
use std::alloc::{AllocError, Global};

/// The line of a router's file that does not go together with that of the domain, if one does not.
fn line_of(fault: DomainFault, statements: &[Statement]) -> Option<&Statement>
    ensures { option_map (λ s. statement_of s.now) result ≡ spec.line_of fault (map statement_of statements.now) }
{
    match fault {
        DomainFault::Beside(option) => nth_stated(statements, option, 0),
        DomainFault::NoNeighbour { at, .. } => nth_stated(statements, RouterOption::Link, at),
        DomainFault::NoStreams(_) => None,
    }
}

/// The byte of such a line at which that begins which is refused.
fn byte_of(fault: DomainFault, line: &[u8]) -> usize
    ensures { result ≡ spec.byte_of fault line.now }
{
    match fault {
        DomainFault::NoNeighbour { .. } => second_byte(line),
        DomainFault::Beside(_) | DomainFault::NoStreams(_) => first_byte(line),
    }
}

/// Adds why they do not go together.
fn push_why(out: &mut Vec<u8>, fault: DomainFault) -> Result<(), AllocError>
    ensures { OnOk result (out.new.items ≡ out.old.items ++ spec.why_words fault) }
{
    match fault {
        DomainFault::Beside(_) => out.extend_from_slice(b"the file of the domain says this"),
        DomainFault::NoNeighbour { node, .. } => {
            out.extend_from_slice(b"the file of the domain has no link to node ")?;
            push_decimal(out, u64::from(node))
        }
        DomainFault::NoStreams(node) => {
            out.extend_from_slice(b"the file of the domain has a link to node ")?;
            push_decimal(out, u64::from(node))?;
            out.extend_from_slice(b", and no --link says where its streams are")
        }
    }
}

/// Adds the name of the option of the command line that is refused, if one is.
fn push_option(out: &mut Vec<u8>, fault: DomainFault) -> Result<(), AllocError>
    ensures { OnOk result (out.new.items ≡ out.old.items ++ spec.option_words fault) }
{
    let option = match fault {
        DomainFault::Beside(option) => option,
        DomainFault::NoNeighbour { .. } => RouterOption::Link,
        DomainFault::NoStreams(_) => return Ok(()),
    };
    out.extend_from_slice(b"--")?;
    out.extend_from_slice(option.name().as_bytes())?;
    out.extend_from_slice(b": ")
}

/// The line that tells what does not go together with the file of a domain.
pub(crate) fn domain_line(
    alloc: Global,
    origin: Origin<'_>,
    fault: DomainFault,
) -> Result<Vec<u8>, AllocError>
    ensures { IfOk result (λ line. line.items ≡ spec.domain_line (origin_of origin.entry) fault) }
{
    let mut line = Vec::new(alloc);
    match line_of(fault, origin.statements) {
        Some(statement) => {
            let said = statement.line.as_slice();
            let byte = byte_of(fault, said);
            push_place(alloc, &mut line, origin.name, statement.number, said, byte)?;
        }
        None => {
            line.extend_from_slice(b"error: ")?;
            push_option(&mut line, fault)?;
        }
    }
    push_why(&mut line, fault)?;
    line.push(b'\n')?;
    Ok(line)
}
