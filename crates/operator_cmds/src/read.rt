//! A line of a script is read as a command.
ghost use Rattle.std.specs.Prelude.{◌≡◌, Some, Ok, Err, MatchResult};
ghost use Rattle.line_protocol.specs.Words.{words, without_front_blanks};
ghost use Rattle.prefix_patterns.specs.Reading.{number_in};
ghost use Rattle.operator_cmds.specs.Commands as spec;
ghost use Rattle.line_protocol.specs.Limits.{number_limit};
ghost use Rattle.route_history.specs.Limits.{largest_limit};
ghost use Rattle.netchange_core.specs.Openings as networks;
ghost use Rattle.operator_cmds.specs.Readings.{IsCodeFault, IsRead, IsReadIn};
ghost use Rattle.operator_cmds.specs.WordLists.{after_word, one_of, two_of, three_of};

use crate::command::{Command, Look, Network};
use crate::fault::CommandFault;
use crate::long::read_long;
use crate::verb::{Verb, read_verb};
use crate::words::{cut_word, one_word, three_words, two_words};
use filter_code::{LARGEST_SIZE, SMALLEST_SIZE};
use hex::FromHexError;
use line_protocol::{LINE_LIMIT, NUMBER_LIMIT, is_name, next_word, trim_front_blanks};
use prefix_patterns::{Prefix, read_number, read_prefix};
use route_history::LARGEST_LIMIT;
use std::alloc::Global;

/// A number of at most `NUMBER_LIMIT`.
pub fn read_small(text: &[u8]) -> Option<u16>
    ensures { result ≡ number_in number_limit text.now }
{
    let n = read_number(text, NUMBER_LIMIT)?;
    Some(n as u16)
}

/// Whether a domain can have so many nodes and this one.
fn is_network(size: u16, me: u16) -> bool
    ensures { result ≡ networks.is_network size me }
{
    let nodes = u32::from(size);
    SMALLEST_SIZE <= nodes && nodes <= LARGEST_SIZE && me < size
}

/// `network N ME`.
fn read_network<'a>(size: &[u8], me: &[u8]) -> Result<Command<'a>, CommandFault>
    ensures { IsRead result (spec.network_parts (number_in number_limit size.now) (number_in number_limit me.now)) }
{
    let Some(size) = read_small(size) else {
        return Err(CommandFault::Numbers);
    };
    let Some(me) = read_small(me) else {
        return Err(CommandFault::Numbers);
    };
    if !is_network(size, me) {
        return Err(CommandFault::Numbers);
    }
    Ok(Command::Network(Network {
        size,
        me,
        limit: None,
    }))
}

/// `network N ME LIMIT`.
fn read_limited<'a>(size: &[u8], me: &[u8], limit: &[u8]) -> Result<Command<'a>, CommandFault>
    ensures { IsRead result (spec.limited_parts (number_in number_limit size.now) (number_in number_limit me.now)
        (number_in largest_limit limit.now)) }
{
    let Some(size) = read_small(size) else {
        return Err(CommandFault::Numbers);
    };
    let Some(me) = read_small(me) else {
        return Err(CommandFault::Numbers);
    };
    let Some(limit) = read_number(limit, LARGEST_LIMIT) else {
        return Err(CommandFault::Numbers);
    };
    if !is_network(size, me) || limit == 0 {
        return Err(CommandFault::Numbers);
    }
    Ok(Command::Network(Network {
        size,
        me,
        limit: Some(limit),
    }))
}

/// A `network` command by the bytes after its first word.
fn read_domain<'a>(rest: &[u8]) -> Result<Command<'a>, CommandFault>
    ensures { IsRead result (spec.network_of (words rest.now)) }
{
    if let Some((size, me)) = two_words(rest) {
        return read_network(size, me);
    }
    match three_words(rest) {
        Some((size, me, limit)) => read_limited(size, me, limit),
        None => Err(CommandFault::Words),
    }
}

/// The number and the prefix of a node, where nothing follows them.
pub fn read_node_prefix(rest: &[u8]) -> Result<(u16, Prefix), CommandFault>
    ensures { result ≡ spec.node_prefix_in (two_of (words rest.now)) }
{
    let Some((node, prefix)) = two_words(rest) else {
        return Err(CommandFault::Words);
    };
    let Some(node) = read_small(node) else {
        return Err(CommandFault::Numbers);
    };
    match read_prefix(prefix) {
        Some(prefix) => Ok((node, prefix)),
        None => Err(CommandFault::Prefix),
    }
}

/// The name and the text of a filter.
pub fn read_load(rest: &[u8]) -> Result<(&[u8], &[u8]), CommandFault>
    ensures { MatchResult result (λ p. spec.load_in (words rest.now) (without_front_blanks (after_word rest.now)) ≡ Ok (p.0.now, p.1.now))
        (λ why. spec.load_in (words rest.now) (without_front_blanks (after_word rest.now)) ≡ Err why) }
{
    let Some((name, rest)) = cut_word(rest) else {
        return Err(CommandFault::Words);
    };
    if next_word(rest).is_none() || !is_name(name) {
        return Err(CommandFault::Words);
    }
    Ok((name, trim_front_blanks(rest)))
}

/// The name of a filter and the bytes of its code file, where nothing follows them.
pub fn read_code(alloc: Global, rest: &[u8]) -> Result<(&[u8], Vec<u8>), CommandFault>
    ensures { MatchResult result (λ p. spec.code_in (two_of (words rest.now)) ≡ Ok (p.0.now, p.1.items))
        (λ why. IsCodeFault why (spec.code_in (two_of (words rest.now)))) }
{
    let Some((name, digits)) = two_words(rest) else {
        return Err(CommandFault::Words);
    };
    if !is_name(name) {
        return Err(CommandFault::Words);
    }
    match hex::decode(alloc, digits) {
        Ok(bytes) => Ok((name, bytes)),
        Err(FromHexError::OutOfMemory) => Err(CommandFault::Memory),
        Err(_) => Err(CommandFault::Hexadecimal),
    }
}

/// The number of a node and the name of a filter.
fn read_filter(rest: &[u8]) -> Result<(u16, &[u8]), CommandFault>
    ensures { MatchResult result (λ p. spec.filter_in (two_of (words rest.now)) ≡ Ok (p.0, p.1.now))
        (λ why. spec.filter_in (two_of (words rest.now)) ≡ Err why) }
{
    let Some((node, name)) = two_words(rest) else {
        return Err(CommandFault::Words);
    };
    if !is_name(name) {
        return Err(CommandFault::Words);
    }
    match read_small(node) {
        Some(node) => Ok((node, name)),
        None => Err(CommandFault::Numbers),
    }
}

/// The number of a node, where nothing follows it.
pub fn read_node(rest: &[u8]) -> Result<u16, CommandFault>
    ensures { result ≡ spec.node_in (one_of (words rest.now)) }
{
    let Some(node) = one_word(rest) else {
        return Err(CommandFault::Words);
    };
    match read_small(node) {
        Some(node) => Ok(node),
        None => Err(CommandFault::Numbers),
    }
}

/// A position in the history, where nothing follows it.
fn read_position(rest: &[u8]) -> Result<u64, CommandFault>
    ensures { result ≡ spec.position_in (one_of (words rest.now)) }
{
    let Some(from) = one_word(rest) else {
        return Err(CommandFault::Words);
    };
    match read_long(from, u64::MAX) {
        Some(from) => Ok(from),
        None => Err(CommandFault::Numbers),
    }
}

/// A look, where nothing follows its word.
fn read_alone<'a>(look: Look, rest: &[u8]) -> Result<Command<'a>, CommandFault>
    ensures { IsRead result (spec.alone_of look (words rest.now)) }
{
    match next_word(rest) {
        None => Ok(Command::Look(look)),
        Some(_) => Err(CommandFault::Words),
    }
}

/// A `recv` command by the bytes after its first word.
fn read_receive<'a>(rest: &[u8]) -> Result<Command<'a>, CommandFault>
    ensures { IsRead result (spec.receive_of (three_of (words rest.now))) }
{
    let Some((node, dest, dist)) = three_words(rest) else {
        return Err(CommandFault::Words);
    };
    let Some(node) = read_small(node) else {
        return Err(CommandFault::Numbers);
    };
    let Some(dest) = read_small(dest) else {
        return Err(CommandFault::Numbers);
    };
    let Some(dist) = read_small(dist) else {
        return Err(CommandFault::Numbers);
    };
    Ok(Command::Receive { node, dest, dist })
}

/// A command by its verb and the bytes after it.
fn read_rest(alloc: Global, verb: Verb, rest: &[u8]) -> Result<Command<'_>, CommandFault>
    ensures { IsReadIn result (spec.command_of (Some verb) (words rest.now) (without_front_blanks (after_word rest.now))) }
{
    match verb {
        Verb::Network => read_domain(rest),
        Verb::Prefix => {
            let (node, prefix) = read_node_prefix(rest)?;
            Ok(Command::Prefix { node, prefix })
        }
        Verb::Load => {
            let (name, text) = read_load(rest)?;
            Ok(Command::Load { name, text })
        }
        Verb::Code => {
            let (name, bytes) = read_code(alloc, rest)?;
            Ok(Command::Code { name, bytes })
        }
        Verb::Import => {
            let (node, name) = read_filter(rest)?;
            Ok(Command::Import { node, name })
        }
        Verb::Export => {
            let (node, name) = read_filter(rest)?;
            Ok(Command::Export { node, name })
        }
        Verb::Up => Ok(Command::Up(read_node(rest)?)),
        Verb::Down => Ok(Command::Down(read_node(rest)?)),
        Verb::Receive => read_receive(rest),
        Verb::Take => Ok(Command::Take(read_node(rest)?)),
        Verb::Show => Ok(Command::Show(read_node(rest)?)),
        Verb::Routes => read_alone(Look::Routes, rest),
        Verb::Neighbours => read_alone(Look::Neighbours, rest),
        Verb::Told => Ok(Command::Look(Look::Told(read_node(rest)?))),
        Verb::History => Ok(Command::History(read_position(rest)?)),
    }
}

/// Reads a line of a script as a command, or finds the first thing that is wrong with it. The tests that need the script's state
/// are not made here.
pub fn read_command(alloc: Global, line: &[u8]) -> Result<Command<'_>, CommandFault>
    ensures { IsReadIn result (spec.command_in line.now) }
{
    if line.len() > LINE_LIMIT {
        return Err(CommandFault::TooLong);
    }
    let Some((word, rest)) = cut_word(line) else {
        return Err(CommandFault::Words);
    };
    match read_verb(word) {
        Some(verb) => read_rest(alloc, verb, rest),
        None => Err(CommandFault::Words),
    }
}
