//! What people are told of wrong words of `router`: which option has which value, and why it is refused.
//!
//! **Of an option that a file says the place is told, in place of its name and value**: the line has both, and an editor goes there.
ghost use Rattle.std.specs.Prelude.{◌≡◌, ◌++◌, IfOk, OnOk, map};
ghost use Rattle.std.specs.Option.{option_map};
ghost use Rattle.router_files.specs.Files.{statement_of};
ghost use Rattle.router_words.specs.Stated.{origin_of};
ghost use Rattle.ncroute.specs.WrongWords as spec;

use crate::planning::{OptionKind, PlanFault};
use line_protocol::push_decimal;
use refusal_words::{place_in, push_position, push_shown};
use router_files::{RouterOption, Statement, second_byte, third_byte};
use router_options::{NodeFault, NumberFault, OptionFault};
use router_words::{Origin, nth_stated};
use std::alloc::{AllocError, Global};

/// The name of an option of this kind.
fn option_name(kind: OptionKind) -> &'static [u8]
    ensures { result.now ≡ spec.option_name kind }
{
    match kind {
        OptionKind::Prefix => b"--prefix",
        OptionKind::Filter => b"--filter",
        OptionKind::Import => b"--import",
        OptionKind::Export => b"--export",
        OptionKind::Link => b"--link",
        OptionKind::Control => b"--control",
    }
}

/// The form of an option of this kind.
fn option_form(kind: OptionKind) -> &'static [u8]
    ensures { result.now ≡ spec.option_form kind }
{
    match kind {
        OptionKind::Prefix => {
            b"the form is V=PREFIX, with the number of a node and a prefix as 10.0.0.0/8"
        }
        OptionKind::Filter => b"the form is NAME=FILE",
        OptionKind::Import | OptionKind::Export => {
            b"the form is W=NAME, with the number of a neighbour and the name of a filter"
        }
        OptionKind::Link => b"the form is W=IN,OUT, with the number of a neighbour and two files",
        OptionKind::Control => b"the form is IN,OUT or IN,OUT,look, with two files",
    }
}

/// Adds a node.
fn push_node(line: &mut Vec<u8>, node: u32) -> Result<(), AllocError>
    ensures { OnOk result (line.new.items ≡ line.old.items ++ spec.node_words node) }
{
    line.extend_from_slice(b"node ")?;
    push_decimal(line, u64::from(node))
}

/// Adds that a node is not in the domain.
fn push_outside(line: &mut Vec<u8>, node: u32, last: u32) -> Result<(), AllocError>
    ensures { OnOk result (line.new.items ≡ line.old.items ++ spec.outside_words node last) }
{
    push_node(line, node)?;
    line.extend_from_slice(b" is not in the domain, whose nodes are 0 to ")?;
    push_decimal(line, u64::from(last))
}

/// Adds that a node is the router itself.
fn push_itself(line: &mut Vec<u8>, node: u32) -> Result<(), AllocError>
    ensures { OnOk result (line.new.items ≡ line.old.items ++ spec.itself_words node) }
{
    push_node(line, node)?;
    line.extend_from_slice(b" is this router itself")
}

/// Adds why a node is refused.
fn push_node_fault(line: &mut Vec<u8>, node: u16, why: NodeFault) -> Result<(), AllocError>
    ensures { OnOk result (line.new.items ≡ line.old.items ++ spec.node_fault_words node why) }
{
    match why {
        NodeFault::Outside { last } => push_outside(line, u32::from(node), u32::from(last)),
        NodeFault::Itself => push_itself(line, u32::from(node)),
    }
}

/// Adds that an earlier option of this kind is of the same node.
fn push_twice(line: &mut Vec<u8>, kind: OptionKind, node: u16) -> Result<(), AllocError>
    ensures { OnOk result (line.new.items ≡ line.old.items ++ spec.twice_words kind node) }
{
    line.extend_from_slice(b"an earlier ")?;
    line.extend_from_slice(option_name(kind))?;
    line.extend_from_slice(b" names node ")?;
    push_decimal(line, u64::from(node))?;
    line.extend_from_slice(b" too")
}

/// Adds why an option of this kind is refused.
fn push_option_fault(
    line: &mut Vec<u8>,
    kind: OptionKind,
    why: OptionFault,
) -> Result<(), AllocError>
    ensures { OnOk result (line.new.items ≡ line.old.items ++ spec.option_fault_words kind why) }
{
    match why {
        OptionFault::Form => line.extend_from_slice(option_form(kind)),
        OptionFault::Node { node, why } => push_node_fault(line, node, why),
        OptionFault::UnknownFilter => line.extend_from_slice(b"no --filter gives this name"),
        OptionFault::Twice(node) => push_twice(line, kind, node),
        OptionFault::Memory => line.extend_from_slice(b"out of memory"),
    }
}

/// Adds that a neighbour that comes up has so many messages to be told.
fn push_queue_fault(line: &mut Vec<u8>, least: u32) -> Result<(), AllocError>
    ensures { OnOk result (line.new.items ≡ line.old.items ++ spec.queue_words least) }
{
    push_decimal(line, u64::from(least))?;
    line.extend_from_slice(b" messages wait for each neighbour that comes up")
}

/// Adds why a number is refused.
fn push_number_fault(line: &mut Vec<u8>, why: NumberFault) -> Result<(), AllocError>
    ensures { OnOk result (line.new.items ≡ line.old.items ++ spec.number_fault_words why) }
{
    match why {
        NumberFault::Size(_) => line.extend_from_slice(b"a domain has 2 to 250 nodes"),
        NumberFault::Node { node, last } => push_outside(line, node, last),
        NumberFault::Limit(_) => {
            line.extend_from_slice(b"a router has room for 2048 to 1000000 entries in memory")
        }
        NumberFault::Queue { least, .. } => push_queue_fault(line, least),
        NumberFault::Segments => line.extend_from_slice(b"1 segment is kept or more"),
        NumberFault::Unsaved(_) => {
            line.extend_from_slice(b"no --save gives a folder to keep segments in")
        }
        NumberFault::Retry => {
            line.extend_from_slice(b"a link is opened again after 1 second or more")
        }
        NumberFault::Hold(_) => line.extend_from_slice(b"a HOLD is 3600 seconds or fewer"),
        NumberFault::Memory => line.extend_from_slice(b"out of memory"),
    }
}

/// The name of the option whose number is refused.
fn number_name(why: NumberFault) -> &'static [u8]
    ensures { result.now ≡ spec.number_name why }
{
    match why {
        NumberFault::Size(_) => b"--size",
        NumberFault::Node { .. } => b"--node",
        NumberFault::Limit(_) => b"--limit",
        NumberFault::Queue { .. } => b"--queue",
        NumberFault::Segments | NumberFault::Unsaved(_) => b"--segments",
        NumberFault::Retry => b"--retry",
        NumberFault::Hold(_) => b"--hold",
        NumberFault::Memory => b"",
    }
}

/// The number that is refused.
fn number_value(why: NumberFault) -> u32
    ensures { result ≡ spec.number_value why }
{
    match why {
        NumberFault::Size(size) => size,
        NumberFault::Node { node, .. } => node,
        NumberFault::Limit(limit) => limit,
        NumberFault::Queue { queue, .. } => queue,
        NumberFault::Unsaved(count) => count,
        NumberFault::Hold(hold) => hold,
        NumberFault::Segments | NumberFault::Retry | NumberFault::Memory => 0,
    }
}

/// Adds the number that is refused, and the name of its option.
fn push_number(line: &mut Vec<u8>, why: NumberFault) -> Result<(), AllocError>
    ensures { OnOk result (line.new.items ≡ line.old.items ++ spec.number_words why) }
{
    line.extend_from_slice(b"invalid value '")?;
    push_decimal(line, u64::from(number_value(why)))?;
    line.extend_from_slice(b"' for '")?;
    line.extend_from_slice(number_name(why))?;
    line.extend_from_slice(b"': ")
}

/// Adds what an option says that is refused, and its name.
fn push_option(
    alloc: Global,
    line: &mut Vec<u8>,
    kind: OptionKind,
    text: &str,
) -> Result<(), AllocError>
    ensures { OnOk result (line.new.items ≡ line.old.items ++ spec.option_words kind text.now) }
{
    line.extend_from_slice(b"invalid value '")?;
    push_shown(alloc, line, text.as_bytes())?;
    line.extend_from_slice(b"' for '")?;
    line.extend_from_slice(option_name(kind))?;
    line.extend_from_slice(b"': ")
}

/// Adds what is refused, if anything is.
fn push_refused(alloc: Global, line: &mut Vec<u8>, fault: PlanFault<'_>) -> Result<(), AllocError>
    ensures { OnOk result (line.new.items ≡ line.old.items ++ spec.refused_words fault.entry) }
{
    match fault {
        PlanFault::Missing(_) => Ok(()),
        PlanFault::WrongNumber(why) => push_number(line, why),
        PlanFault::WrongOption { kind, text, .. } => push_option(alloc, line, kind, text),
    }
}

/// Adds that an option is missing.
fn push_missing(line: &mut Vec<u8>, option: RouterOption) -> Result<(), AllocError>
    ensures { OnOk result (line.new.items ≡ line.old.items ++ spec.missing_words option) }
{
    line.extend_from_slice(b"--")?;
    line.extend_from_slice(option.form().as_bytes())?;
    line.extend_from_slice(b" is missing")
}

/// Adds why the option is refused.
fn push_reason(line: &mut Vec<u8>, fault: PlanFault<'_>) -> Result<(), AllocError>
    ensures { OnOk result (line.new.items ≡ line.old.items ++ spec.reason_words fault.entry) }
{
    match fault {
        PlanFault::Missing(option) => push_missing(line, option),
        PlanFault::WrongNumber(why) => push_number_fault(line, why),
        PlanFault::WrongOption { kind, why, .. } => push_option_fault(line, kind, why),
    }
}

/// The line that tells what is wrong with an option of the command line.
fn unplaced_line(alloc: Global, fault: PlanFault<'_>) -> Result<Vec<u8>, AllocError>
    ensures { IfOk result (λ line. line.items ≡ spec.unplaced_line fault.entry) }
{
    let mut line = Vec::new(alloc);
    line.extend_from_slice(b"error: ")?;
    push_refused(alloc, &mut line, fault)?;
    push_reason(&mut line, fault)?;
    line.push(b'\n')?;
    Ok(line)
}

/// Adds the place of a byte of a line of a file.
pub(crate) fn push_place(
    alloc: Global,
    out: &mut Vec<u8>,
    name: &str,
    number: usize,
    line: &[u8],
    byte: usize,
) -> Result<(), AllocError>
    ensures { OnOk result (out.new.items ≡ out.old.items ++ spec.place_words name.now number line.now byte) }
{
    let place = place_in(line, byte);
    push_shown(alloc, out, name.as_bytes())?;
    push_position(out, number, place.column)?;
    out.extend_from_slice(b": ")
}

/// The option whose number is refused; none where memory was refused.
fn numbered_option(why: NumberFault) -> Option<RouterOption>
    ensures { result ≡ spec.numbered_option why }
{
    match why {
        NumberFault::Size(_) => Some(RouterOption::Size),
        NumberFault::Node { .. } => Some(RouterOption::Node),
        NumberFault::Limit(_) => Some(RouterOption::Limit),
        NumberFault::Queue { .. } => Some(RouterOption::Queue),
        NumberFault::Segments | NumberFault::Unsaved(_) => Some(RouterOption::Segments),
        NumberFault::Retry => Some(RouterOption::Retry),
        NumberFault::Hold(_) => Some(RouterOption::Hold),
        NumberFault::Memory => None,
    }
}

/// The option of a kind.
fn option_of(kind: OptionKind) -> RouterOption
    ensures { result ≡ spec.option_of kind }
{
    match kind {
        OptionKind::Prefix => RouterOption::Prefix,
        OptionKind::Filter => RouterOption::Filter,
        OptionKind::Import => RouterOption::Import,
        OptionKind::Export => RouterOption::Export,
        OptionKind::Link => RouterOption::Link,
        OptionKind::Control => RouterOption::Control,
    }
}

/// The line of the file that says what is refused, if one does. What the file says comes before what the command line says.
fn line_of<'a>(fault: PlanFault<'_>, statements: &'a [Statement]) -> Option<&'a Statement>
    ensures { option_map (λ s. statement_of s.now) result ≡ spec.line_of fault.entry (map statement_of statements.now) }
{
    match fault {
        PlanFault::Missing(_) => None,
        PlanFault::WrongNumber(why) => match numbered_option(why) {
            Some(option) => nth_stated(statements, option, 0),
            None => None,
        },
        PlanFault::WrongOption { kind, at, .. } => nth_stated(statements, option_of(kind), at),
    }
}

/// The byte of a line at which what is refused begins: the name of the filter that is not known, or what follows the name of the option.
fn byte_of(fault: PlanFault<'_>, line: &[u8]) -> usize
    ensures { result ≡ spec.byte_of fault.entry line.now }
{
    match fault {
        PlanFault::WrongOption {
            why: OptionFault::UnknownFilter,
            ..
        } => third_byte(line),
        _ => second_byte(line),
    }
}

/// The line that tells what is wrong with an option of a file.
fn placed_line(
    alloc: Global,
    name: &str,
    statement: &Statement,
    fault: PlanFault<'_>,
) -> Result<Vec<u8>, AllocError>
    ensures { IfOk result (λ line. line.items ≡ spec.placed_line name.now (statement_of statement.now) fault.entry) }
{
    let said = statement.line.as_slice();
    let mut line = Vec::new(alloc);
    push_place(
        alloc,
        &mut line,
        name,
        statement.number,
        said,
        byte_of(fault, said),
    )?;
    push_reason(&mut line, fault)?;
    line.push(b'\n')?;
    Ok(line)
}

/// The line that tells what is wrong with the words, some of which a file may say.
pub(crate) fn wrong_line(
    alloc: Global,
    origin: Origin<'_>,
    fault: PlanFault<'_>,
) -> Result<Vec<u8>, AllocError>
    ensures { IfOk result (λ line. line.items ≡ spec.wrong_line (origin_of origin.entry) fault.entry) }
{
    match line_of(fault, origin.statements) {
        Some(statement) => placed_line(alloc, origin.name, statement, fault),
        None => unplaced_line(alloc, fault),
    }
}
