//! A line of the domain's script is read as a command.
ghost use Rattle.std.specs.Prelude.{◌≡◌, Some};
ghost use Rattle.line_protocol.specs.Words.{words, without_front_blanks};
ghost use Rattle.prefix_patterns.specs.Reading.{number_in};
ghost use Rattle.line_protocol.specs.Limits.{number_limit};
ghost use Rattle.operator_cmds.specs.WordLists.{after_word, one_of, two_of, three_of};
ghost use Rattle.operator_cmds.specs.Commands.{made};
ghost use Rattle.domain_cmds.specs.CommandView.{view_of};
ghost use Rattle.domain_cmds.specs.CommandView as command;
ghost use Rattle.domain_cmds.specs.Commands as spec;
ghost use Rattle.domain_cmds.specs.Readings.{IsRead, IsReadIn};

use crate::command::{DomainCommand, DomainSize, Question};
use crate::verb::{DomainVerb, read_verb};
use filter_code::{LARGEST_SIZE, SMALLEST_SIZE};
use line_protocol::{LINE_LIMIT, is_name, next_word};
use operator_cmds::{
    CommandFault, Direction, cut_word, one_word, read_code, read_load, read_node, read_node_prefix,
    read_small, three_words, two_words,
};
use std::alloc::Global;

/// The numbers of two nodes.
fn read_both(first: &[u8], second: &[u8]) -> Result<(u16, u16), CommandFault>
    ensures { result ≡ spec.both_numbers (number_in number_limit first.now) (number_in number_limit second.now) }
{
    let Some(first) = read_small(first) else {
        return Err(CommandFault::Numbers);
    };
    match read_small(second) {
        Some(second) => Ok((first, second)),
        None => Err(CommandFault::Numbers),
    }
}

/// The numbers of two nodes, where nothing follows them.
fn read_nodes(rest: &[u8]) -> Result<(u16, u16), CommandFault>
    ensures { result ≡ spec.nodes_in (two_of (words rest.now)) }
{
    match two_words(rest) {
        Some((first, second)) => read_both(first, second),
        None => Err(CommandFault::Words),
    }
}

/// A `domain` command by the bytes after its first word.
fn read_domain<'a>(rest: &[u8]) -> Result<DomainCommand<'a>, CommandFault>
    ensures { IsRead result (spec.domain_of (one_of (words rest.now))) }
{
    let nodes = read_node(rest)?;
    if SMALLEST_SIZE <= u32::from(nodes) && u32::from(nodes) <= LARGEST_SIZE {
        Ok(DomainCommand::Domain(DomainSize { nodes }))
    } else {
        Err(CommandFault::Numbers)
    }
}

/// A `link` or a `cut` command by the bytes after its first word.
fn read_link<'a>(linked: bool, rest: &[u8]) -> Result<DomainCommand<'a>, CommandFault>
    ensures { IsRead result (made (λ p. command.Link linked p.0 p.1) (spec.nodes_in (two_of (words rest.now)))) }
{
    let (u, w) = read_nodes(rest)?;
    Ok(DomainCommand::Link { linked, u, w })
}

/// An `import` or an `export` command by the bytes after its first word.
fn read_use(direction: Direction, rest: &[u8]) -> Result<DomainCommand<'_>, CommandFault>
    ensures { IsRead result (made (λ p. command.Use direction p.0 p.1 p.2) (spec.filter_in (three_of (words rest.now)))) }
{
    let Some((u, w, name)) = three_words(rest) else {
        return Err(CommandFault::Words);
    };
    if !is_name(name) {
        return Err(CommandFault::Words);
    }
    let (u, w) = read_both(u, w)?;
    Ok(DomainCommand::Use {
        direction,
        u,
        w,
        name,
    })
}

/// A `draw` command by the bytes after its first word.
fn read_drawing<'a>(rest: &[u8]) -> Result<DomainCommand<'a>, CommandFault>
    ensures { IsRead result (spec.drawing_in (words rest.now) (two_of (words rest.now))) }
{
    let Some((node, option)) = two_words(rest) else {
        return Ok(DomainCommand::Ask(Question::Draw(read_node(rest)?)));
    };
    if option != b"changes".as_slice() {
        return Err(CommandFault::Words);
    }
    match read_small(node) {
        Some(v) => Ok(DomainCommand::Ask(Question::DrawChanges(v))),
        None => Err(CommandFault::Numbers),
    }
}

/// A `failures` command by the bytes after its first word.
fn read_failures<'a>(rest: &[u8]) -> Result<DomainCommand<'a>, CommandFault>
    ensures { IsRead result (spec.failures_in (words rest.now) (one_of (words rest.now))) }
{
    let Some(what) = one_word(rest) else {
        return read_alone(DomainCommand::Ask(Question::Failures), rest);
    };
    if what != b"nodes".as_slice() {
        return Err(CommandFault::Words);
    }
    Ok(DomainCommand::Ask(Question::NodeFailures))
}

/// A command after which nothing follows.
fn read_alone<'a>(
    command: DomainCommand<'a>,
    rest: &[u8],
) -> Result<DomainCommand<'a>, CommandFault>
    ensures { IsRead result (spec.alone (view_of command.entry) (words rest.now)) }
{
    match next_word(rest) {
        None => Ok(command),
        Some(_) => Err(CommandFault::Words),
    }
}

/// A command by its verb and the bytes after it.
fn read_rest(
    alloc: Global,
    verb: DomainVerb,
    rest: &[u8],
) -> Result<DomainCommand<'_>, CommandFault>
    ensures { IsReadIn result (spec.command_of (Some verb) (words rest.now) (without_front_blanks (after_word rest.now))) }
{
    match verb {
        DomainVerb::Domain => read_domain(rest),
        DomainVerb::Prefix => {
            let (node, prefix) = read_node_prefix(rest)?;
            Ok(DomainCommand::Prefix { node, prefix })
        }
        DomainVerb::Load => {
            let (name, text) = read_load(rest)?;
            Ok(DomainCommand::Load { name, text })
        }
        DomainVerb::Code => {
            let (name, bytes) = read_code(alloc, rest)?;
            Ok(DomainCommand::Code { name, bytes })
        }
        DomainVerb::Link => read_link(true, rest),
        DomainVerb::Cut => read_link(false, rest),
        DomainVerb::Import => read_use(Direction::Import, rest),
        DomainVerb::Export => read_use(Direction::Export, rest),
        DomainVerb::Anew => Ok(DomainCommand::Anew(read_node(rest)?)),
        DomainVerb::Route => {
            let (u, v) = read_nodes(rest)?;
            Ok(DomainCommand::Ask(Question::Route(u, v)))
        }
        DomainVerb::Path => {
            let (u, v) = read_nodes(rest)?;
            Ok(DomainCommand::Ask(Question::Path(u, v)))
        }
        DomainVerb::Table => Ok(DomainCommand::Ask(Question::Table(read_node(rest)?))),
        DomainVerb::Draw => read_drawing(rest),
        DomainVerb::Reach => read_alone(DomainCommand::Ask(Question::Reach), rest),
        DomainVerb::Mark => read_alone(DomainCommand::Mark, rest),
        DomainVerb::Changes => read_alone(DomainCommand::Ask(Question::Changes), rest),
        DomainVerb::Failures => read_failures(rest),
        DomainVerb::Settle => read_alone(DomainCommand::Ask(Question::Settle), rest),
        DomainVerb::Json => read_alone(DomainCommand::Json, rest),
    }
}

/// Reads a line of a domain's script as a command, or finds the first thing that is wrong with it. The tests that need the
/// script's state are not made here.
pub fn read_command(alloc: Global, line: &[u8]) -> Result<DomainCommand<'_>, CommandFault>
    ensures { IsReadIn result (spec.command_in line.now) }
{
    if line.len() > LINE_LIMIT {
        return Err(CommandFault::TooLong);
    }
    let Some((word, rest)) = cut_word(line) else {
        return Err(CommandFault::Words);
    };
    match read_verb(word) {
        Some(verb) => read_rest(alloc, verb, rest),
        None => Err(CommandFault::Words),
    }
}
