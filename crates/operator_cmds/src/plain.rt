//! Lines in the usual spelling, which most lines of a script have: one space between words, and numbers of at most three digits.
//! They are read in one pass.
ghost use Rattle.std.specs.Prelude.{◌≡◌, List, ℕ, [], ◌∷◌, ◌++◌, IfSome, IsSome, IsSomeAnd, Ok};
ghost use Rattle.line_protocol.specs.Words.{words};
ghost use Rattle.prefix_patterns.specs.Leading.{BeginsWith, IsUsualNumber};
ghost use Rattle.operator_cmds.specs.Commands.{command_in, node_in, receive_of};
ghost use Rattle.operator_cmds.specs.PlainLines as spec;
ghost use Rattle.operator_cmds.specs.WordLists.{one_of, three_of};

use line_protocol::LINE_LIMIT;
use prefix_patterns::{after_byte, leading_number};

/// A command of a line in the usual spelling. Contracts see it as a `CommandView`.
#[derive(Clone, Copy)]
pub enum PlainCommand {
    /// `recv W V D`
    Receive(u16, u16, u16),
    /// `take W`
    Take(u16),
    /// `show V`
    Show(u16),
}

/// The number that is all of a text.
#[inline(always)]
fn last_number(text: &[u8]) -> Option<u16>
    ensures number { IfSome result (λ n. spec.BeginsWithNumber text.now n []) }
    ensures usual { IsUsualNumber text.now → IsSome result }
{
    let Some((n, rest)) = leading_number(text) else {
        return None;
    };
    if !rest.is_empty() {
        return None;
    }
    Some(n as u16)
}

/// The number that a text begins with, and what follows the space after it.
#[inline(always)]
fn next_number(text: &[u8]) -> Option<(u16, &[u8])>
    ensures number { IfSome result (λ cut. spec.BeginsWithNumber text.now cut.0 (words cut.1.now)) }
    ensures usual { (rest : List ℕ) → BeginsWith IsUsualNumber text.now (32 ∷ rest) → IsSomeAnd result (λ cut. cut.1.now ≡ rest) }
{
    let Some((n, rest)) = leading_number(text) else {
        return None;
    };
    let Some(rest) = after_byte(rest, b' ') else {
        return None;
    };
    Some((n as u16, rest))
}

/// The command `recv` by the text after its first word.
#[inline(always)]
fn read_receive(text: &[u8]) -> Option<PlainCommand>
    ensures command { IfSome result (λ plain. receive_of (three_of (words text.now)) ≡ Ok (spec.plain_view plain)) }
    ensures usual { spec.AreThreeNumbers text.now → IsSome result }
{
    let Some((node, text)) = next_number(text) else {
        return None;
    };
    let Some((dest, text)) = next_number(text) else {
        return None;
    };
    let Some(dist) = last_number(text) else {
        return None;
    };
    Some(PlainCommand::Receive(node, dest, dist))
}

/// The number of a node that is all of a text.
#[inline(always)]
fn read_node(text: &[u8]) -> Option<u16>
    ensures node { IfSome result (λ node. node_in (one_of (words text.now)) ≡ Ok node) }
    ensures usual { IsUsualNumber text.now → IsSome result }
{
    last_number(text)
}

/// What follows a word of four bytes and the space after it.
#[inline(always)]
fn after_verb<'a>(line: &'a [u8], verb: &[u8; 4]) -> Option<&'a [u8]>
    ensures found { IfSome result (λ rest. line.now ≡ verb.now ++ 32 ∷ rest.now) }
    ensures any { (rest : List ℕ) → line.now ≡ verb.now ++ 32 ∷ rest → IsSomeAnd result (λ cut. cut.now ≡ rest) }
{
    if line.len() < 5 {
        return None;
    }
    let word = [line[0], line[1], line[2], line[3]];
    if u32::from_le_bytes(word) != u32::from_le_bytes(*verb) || line[4] != b' ' {
        return None;
    }
    Some(&line[5..])
}

/// The command of a line in the usual spelling, if it is `recv`, `take` or `show`.
#[inline(always)]
pub fn read_plain(line: &[u8]) -> Option<PlainCommand>
    ensures command { IfSome result (λ plain. command_in line.now ≡ Ok (spec.plain_view plain)) }
    // A line in the usual spelling is read in this one pass.
    ensures usual { spec.IsUsualLine line.now → IsSome result }
{
    if line.len() > LINE_LIMIT {
        return None;
    }
    if let Some(text) = after_verb(line, b"recv") {
        return read_receive(text);
    }
    if let Some(text) = after_verb(line, b"take") {
        return Some(PlainCommand::Take(read_node(text)?));
    }
    let text = after_verb(line, b"show")?;
    Some(PlainCommand::Show(read_node(text)?))
}
