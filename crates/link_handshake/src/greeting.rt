//! The line of a greeting of version 2.
ghost use Rattle.std.specs.Prelude.{◌≡◌, ◌≤◌, ◌++◌, [], IfSome, OnErr, OnOk, decimal};
ghost use Rattle.std.specs.Option.{option_map};
ghost use Rattle.std.specs.Io.{StartsWith};
ghost use Rattle.hex.specs.Hex.{encode_lower};
ghost use Rattle.link_handshake.specs.Lines.{digest_part, greeting_line, mark, spaced};
ghost use Rattle.link_handshake.specs.Reading as spec;

use hex::{decode_to_slice, encode_to_slice};
use itoa::Buffer;
use line_protocol::push_decimal;
use prefix_patterns::{cut_at, read_number};
use std::alloc::AllocError;

/// What a greeting begins with: the name of the form, and its version.
const MARK: &[u8] = b"netchange 2 ";

/// The size and the node of a greeting are at most so much, as many nodes as a domain has. With larger ones the line of a greeting would be too long.
const MOST_NODES: u32 = 250;

/// What an end of a link says of itself when it begins an attempt, and whenever it has to be heard anew.
#[derive(Clone, Copy, Debug, PartialEq, Eq)]
pub struct Greeting {
    /// The number of nodes of its domain.
    pub size: u16,
    /// The node that it is.
    pub node: u16,
    /// How many seconds it may be silent before it is dead, at most 3,600; 0 for any time.
    pub hold: u16,
    /// The number of its attempt, which is not 0.
    pub number: u32,
    /// The number of the last greeting that it heard from the other end; 0 before.
    pub heard: u32,
    /// The digest of its domain, where it says one.
    pub digest: Option<[u8; 8]>,
}

/// Adds a number and a space.
fn push_spaced(out: &mut Vec<u8>, number: u64) -> Result<(), AllocError>
    ensures ok { OnOk result (out.new.items ≡ out.old.items ++ spaced number []) }
    ensures err { OnErr result (StartsWith out.new.items out.old.items) }
{
    push_decimal(out, number)?;
    out.push(b' ')?;
    Ok(())
}

/// Adds what a greeting begins with: the mark, the size of the domain, and the node that speaks.
fn push_place(out: &mut Vec<u8>, size: u16, node: u16) -> Result<(), AllocError>
    ensures ok { OnOk result (out.new.items ≡ out.old.items ++ (mark ++ spaced size (spaced node []))) }
    ensures err { OnErr result (StartsWith out.new.items out.old.items) }
{
    out.extend_from_slice(MARK)?;
    push_spaced(out, size as u64)?;
    push_spaced(out, node as u64)?;
    Ok(())
}

/// Adds the rest of it: the HOLD, the number of the attempt, and the last number that was heard.
fn push_attempt(out: &mut Vec<u8>, hold: u16, number: u32, heard: u32) -> Result<(), AllocError>
    ensures ok { OnOk result (out.new.items ≡ out.old.items ++ spaced hold (spaced number (decimal heard))) }
    ensures err { OnErr result (StartsWith out.new.items out.old.items) }
{
    push_spaced(out, hold as u64)?;
    push_spaced(out, number as u64)?;
    push_decimal(out, heard as u64)?;
    Ok(())
}

/// Adds the digest of a domain, as a word behind the others, if there is one.
fn push_digest(out: &mut Vec<u8>, digest: Option<[u8; 8]>) -> Result<(), AllocError>
    ensures ok { OnOk result (out.new.items ≡ out.old.items ++ digest_part digest) }
    ensures err { OnErr result (StartsWith out.new.items out.old.items) }
{
    match digest {
        Some(digest) => {
            let digits = digest_digits(digest);
            out.push(b' ')?;
            out.extend_from_slice(&digits)
        }
        None => Ok(()),
    }
}

/// Adds the line of a greeting, `netchange 2 SIZE NODE HOLD NUMBER HEARD`, with the digest of the domain where it says one, and a line feed.
pub fn push_greeting(out: &mut Vec<u8>, greeting: Greeting) -> Result<(), AllocError>
    ensures ok { OnOk result (out.new.items ≡ out.old.items ++ greeting_line greeting) }
    ensures err { OnErr result (StartsWith out.new.items out.old.items) }
{
    push_place(out, greeting.size, greeting.node)?;
    push_attempt(out, greeting.hold, greeting.number, greeting.heard)?;
    push_digest(out, greeting.digest)?;
    out.push(b'\n')?;
    Ok(())
}

/// The bytes after the mark of a greeting.
fn after_mark(line: &[u8]) -> Option<&[u8]>
    ensures { spec.after_mark line.now ≡ option_map (λ rest. rest.now) result }
{
    line.strip_prefix(MARK)
}

/// A number of at most so much as it is written, with no zero before it.
#[tactic(auto, unfolding(crate::specs::Reading::exact_number))]
fn read_exact_number(word: &[u8], most: u32) -> Option<u32>
    ensures exact { result ≡ spec.exact_number most word.now }
    ensures within { IfSome result (λ number. number ≤ most) }
{
    let number = read_number(word, most)?;
    let mut digits = Buffer::new();
    if digits.format(number).as_bytes() != word {
        return None;
    }
    Some(number)
}

/// Such a number that a text begins with, and what follows the space behind it.
#[tactic(auto, unfolding(crate::specs::Reading::first_number))]
fn read_first_number(text: &[u8], most: u32) -> Option<(u32, &[u8])>
    ensures exact { spec.first_number most text.now ≡ option_map (λ found. (found.0, found.1.now)) result }
    ensures within { IfSome result (λ found. found.0 ≤ most) }
{
    let (word, rest) = cut_at(text, b' ')?;
    let number = read_exact_number(word, most)?;
    Some((number, rest))
}

/// The 16 digits of a domain's digest, with small letters.
pub fn digest_digits(digest: [u8; 8]) -> [u8; 16]
    ensures { result ≡ encode_lower digest }
{
    let mut digits = [0; 16];
    // There are as many places as digits.
    let _ = encode_to_slice(digest, &mut digits);
    digits
}

/// The digest that a word writes, with small letters.
#[tactic(auto, unfolding(crate::specs::Reading::digest_in))]
fn read_digest(word: &[u8]) -> Option<[u8; 8]>
    ensures { result ≡ spec.digest_in word.now }
{
    let mut digest = [0; 8];
    decode_to_slice(word, &mut digest).ok()?;
    if digest_digits(digest).as_slice() != word {
        return None;
    }
    Some(digest)
}

/// The last words of a greeting: what it heard last, and the digest of its domain if it says one.
#[tactic(auto, unfolding(crate::specs::Reading::last_words))]
fn read_last_words(text: &[u8]) -> Option<(u32, Option<[u8; 8]>)>
    ensures exact { result ≡ spec.last_words text.now }
    ensures within { IfSome result (λ last. last.0 ≤ 4294967295) }
{
    match cut_at(text, b' ') {
        Some((heard, digest)) => Some((
            read_exact_number(heard, u32::MAX)?,
            Some(read_digest(digest)?),
        )),
        None => Some((read_exact_number(text, u32::MAX)?, None)),
    }
}

/// The greeting that a line says, which is given without its line feed. None if it is not the line of a greeting of version 2.
#[tactic(auto, unfolding(crate::specs::Reading::greeting_in))]
pub fn read_greeting(line: &[u8]) -> Option<Greeting>
    ensures { result ≡ spec.greeting_in line.now }
{
    let (size, rest) = read_first_number(after_mark(line)?, MOST_NODES)?;
    let (node, rest) = read_first_number(rest, MOST_NODES)?;
    let (hold, rest) = read_first_number(rest, 3_600)?;
    let (number, rest) = read_first_number(rest, u32::MAX)?;
    let (heard, digest) = read_last_words(rest)?;
    if number == 0 {
        return None;
    }
    Some(Greeting {
        size: size as u16,
        node: node as u16,
        hold: hold as u16,
        number,
        heard,
        digest,
    })
}
