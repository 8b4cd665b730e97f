//! What a script answers to a line.
//!
//! **The definition of an answer is a relation**, since two things are left open: which P or Y code a filter that is refused gets, and where memory
//! is refused. All else is a function of the lines before.
ghost use Rattle.std.specs.Prelude.{◌≡◌, ◌≤◌, ◌<◌, ◌+◌, ◌/◌, ◌%◌, [], ◌∷◌, ◌++◌, flat_map, IfOk, OnOk, OnErr, codes, decimal};
ghost use Rattle.std.specs.Io.{StartsWith};
ghost use Rattle.netchange_core.specs.Whole.{whole_reply};
ghost use Rattle.operator_cmds.specs.Replies as spec;

use line_protocol::{LineReply, push_decimal, push_refusal};
use netchange_core::{Message, ReplyRef, Via};
use std::alloc::AllocError;

/// Refuses a line with a code and a place.
pub fn refuse(out: &mut Vec<u8>, code: &str, at: u64) -> Result<LineReply, AllocError>
    ensures ok { IfOk result (spec.Adds (spec.refused code.now at) out.old.items out.new.items) }
    ensures err { OnErr result (StartsWith out.new.items out.old.items) }
{
    push_refusal(out, code, at)?;
    Ok(LineReply::Refused)
}

/// Answers a line of which nothing is told but that it was carried out.
pub fn confirm(out: &mut Vec<u8>) -> Result<LineReply, AllocError>
    ensures ok { IfOk result (spec.Adds (spec.answered (codes "ok")) out.old.items out.new.items) }
    ensures err { OnErr result (StartsWith out.new.items out.old.items) }
{
    out.extend_from_slice(b"ok\n")?;
    Ok(LineReply::Answered)
}

/// Adds through whom a route goes.
pub fn push_via(out: &mut Vec<u8>, via: Via) -> Result<(), AllocError>
    ensures ok { OnOk result (out.new.items ≡ out.old.items ++ spec.via_text via) }
    ensures err { OnErr result (StartsWith out.new.items out.old.items) }
{
    match via {
        Via::Local => out.extend_from_slice(b" local"),
        Via::Node(node) => {
            out.extend_from_slice(b" via ")?;
            push_decimal(out, u64::from(node))
        }
        Via::Nowhere => out.extend_from_slice(b" none"),
    }
}

/// Adds a byte and a number in decimal digits. Most numbers of answers have at most two, and are written at once.
#[inline(always)]
fn push_after(out: &mut Vec<u8>, sign: u8, n: u32) -> Result<(), AllocError>
    ensures ok { OnOk result (out.new.items ≡ out.old.items ++ sign ∷ decimal n) }
    ensures err { OnErr result (StartsWith out.new.items out.old.items) }
{
    if n < 10 {
        return out.extend_from_slice(&[sign, b'0' + n as u8]);
    }
    if n < 100 {
        let ten = b'0' + (n / 10) as u8;
        let one = b'0' + (n % 10) as u8;
        return out.extend_from_slice(&[sign, ten, one]);
    }
    push_long_after(out, sign, n)
}

/// Adds a byte and a number of three digits or more.
#[inline(never)]
fn push_long_after(out: &mut Vec<u8>, sign: u8, n: u32) -> Result<(), AllocError>
    requires { 100 ≤ n }
    ensures ok { OnOk result (out.new.items ≡ out.old.items ++ sign ∷ decimal n) }
    ensures err { OnErr result (StartsWith out.new.items out.old.items) }
{
    if n < 1_000 {
        let tens = n / 10;
        let (hundred, ten) = (b'0' + (tens / 10) as u8, b'0' + (tens % 10) as u8);
        let one = b'0' + (n % 10) as u8;
        return out.extend_from_slice(&[sign, hundred, ten, one]);
    }
    out.push(sign)?;
    push_decimal(out, u64::from(n))
}

/// Adds a node and a number that is told of it.
#[inline(never)]
pub(crate) fn push_pair(out: &mut Vec<u8>, node: u16, number: u32) -> Result<(), AllocError>
    ensures ok { OnOk result (out.new.items ≡ out.old.items ++ spec.pair_text node number) }
    ensures err { OnErr result (StartsWith out.new.items out.old.items) }
{
    push_after(out, b' ', u32::from(node))?;
    push_after(out, b':', number)
}

/// The two digits of each number below 100, one number after another.
static PAIRS: [u8; 200] =
    *b"00010203040506070809101112131415161718192021222324252627282930313233343536373839404142434445464748495051525354555657585960616263646566676869707172737475767778798081828384858687888990919293949596979899";

/// The two digits of a number.
#[inline(always)]
fn two_digits(n: u16) -> (u8, u8)
    requires { n < 100 }
    ensures ten { result.0 ≡ 48 + n / 10 }
    ensures one { result.1 ≡ 48 + n % 10 }
{
    let at = n as usize * 2;
    (PAIRS[at], PAIRS[at + 1])
}

/// Adds a message about a node of one digit. Mostly its distance has at most three, and all of it is put there at once.
#[inline(always)]
fn push_of_one_digit(out: &mut Vec<u8>, dest: u16, dist: u16) -> Result<(), AllocError>
    requires { dest < 10 }
    ensures ok { OnOk result (out.new.items ≡ out.old.items ++ spec.pair_text dest dist) }
    ensures err { OnErr result (StartsWith out.new.items out.old.items) }
{
    let to = b'0' + dest as u8;
    if dist < 10 {
        let one = b'0' + dist as u8;
        return out.extend_from_slice(&[b' ', to, b':', one]);
    }
    if dist < 100 {
        let (ten, one) = two_digits(dist);
        return out.extend_from_slice(&[b' ', to, b':', ten, one]);
    }
    if dist < 1_000 {
        let hundred = b'0' + (dist / 100) as u8;
        let (ten, one) = two_digits(dist % 100);
        return out.extend_from_slice(&[b' ', to, b':', hundred, ten, one]);
    }
    push_pair(out, dest, u32::from(dist))
}

/// Adds a message about a node of two digits, as one about a node of one.
#[inline(always)]
fn push_of_two_digits(out: &mut Vec<u8>, dest: u16, dist: u16) -> Result<(), AllocError>
    requires least { 10 ≤ dest }
    requires most { dest < 100 }
    ensures ok { OnOk result (out.new.items ≡ out.old.items ++ spec.pair_text dest dist) }
    ensures err { OnErr result (StartsWith out.new.items out.old.items) }
{
    let (to_ten, to) = two_digits(dest);
    if dist < 10 {
        let one = b'0' + dist as u8;
        return out.extend_from_slice(&[b' ', to_ten, to, b':', one]);
    }
    if dist < 100 {
        let (ten, one) = two_digits(dist);
        return out.extend_from_slice(&[b' ', to_ten, to, b':', ten, one]);
    }
    if dist < 1_000 {
        let hundred = b'0' + (dist / 100) as u8;
        let (ten, one) = two_digits(dist % 100);
        return out.extend_from_slice(&[b' ', to_ten, to, b':', hundred, ten, one]);
    }
    push_pair(out, dest, u32::from(dist))
}

/// Adds a message about a node of three digits, as one about a node of one.
#[inline(always)]
fn push_of_three_digits(out: &mut Vec<u8>, dest: u16, dist: u16) -> Result<(), AllocError>
    requires least { 100 ≤ dest }
    requires most { dest < 1000 }
    ensures ok { OnOk result (out.new.items ≡ out.old.items ++ spec.pair_text dest dist) }
    ensures err { OnErr result (StartsWith out.new.items out.old.items) }
{
    let to_hundred = b'0' + (dest / 100) as u8;
    let (to_ten, to) = two_digits(dest % 100);
    if dist < 10 {
        let one = b'0' + dist as u8;
        return out.extend_from_slice(&[b' ', to_hundred, to_ten, to, b':', one]);
    }
    if dist < 100 {
        let (ten, one) = two_digits(dist);
        return out.extend_from_slice(&[b' ', to_hundred, to_ten, to, b':', ten, one]);
    }
    if dist < 1_000 {
        let hundred = b'0' + (dist / 100) as u8;
        let (ten, one) = two_digits(dist % 100);
        return out.extend_from_slice(&[b' ', to_hundred, to_ten, to, b':', hundred, ten, one]);
    }
    push_pair(out, dest, u32::from(dist))
}

/// Adds a message.
#[inline(always)]
fn push_message(out: &mut Vec<u8>, message: Message) -> Result<(), AllocError>
    ensures ok { OnOk result (out.new.items ≡ out.old.items ++ spec.message_text message) }
    ensures err { OnErr result (StartsWith out.new.items out.old.items) }
{
    let Message { dest, dist } = message;
    if dest < 10 {
        return push_of_one_digit(out, dest, dist);
    }
    if dest < 100 {
        return push_of_two_digits(out, dest, dist);
    }
    if dest < 1_000 {
        return push_of_three_digits(out, dest, dist);
    }
    push_pair(out, dest, u32::from(dist))
}

/// Adds messages, in order.
fn push_each(out: &mut Vec<u8>, messages: &[Message]) -> Result<(), AllocError>
    ensures ok { OnOk result (out.new.items ≡ out.old.items ++ flat_map spec.message_text messages.now) }
    ensures err { OnErr result (StartsWith out.new.items out.old.items) }
{
    for message in messages {
        push_message(out, *message)?;
    }
    Ok(())
}

/// Adds the line of an event by which messages left a queue.
#[inline(never)]
fn push_messages(out: &mut Vec<u8>, messages: &[Message]) -> Result<(), AllocError>
    ensures ok { OnOk result (out.new.items ≡ out.old.items ++ (codes "messages" ++ (flat_map spec.message_text messages.now ++ 10 ∷ []))) }
    ensures err { OnErr result (StartsWith out.new.items out.old.items) }
{
    out.extend_from_slice(b"messages")?;
    push_each(out, messages)?;
    out.push(b'\n')?;
    Ok(())
}

/// Adds the line of an event by which a session began.
#[inline(never)]
fn push_opened(out: &mut Vec<u8>, session: u32) -> Result<(), AllocError>
    ensures ok { OnOk result (out.new.items ≡ out.old.items ++ (codes "opened " ++ (decimal session ++ 10 ∷ []))) }
    ensures err { OnErr result (StartsWith out.new.items out.old.items) }
{
    out.extend_from_slice(b"opened ")?;
    push_decimal(out, u64::from(session))?;
    out.push(b'\n')?;
    Ok(())
}

/// Adds the line of a look at a route.
#[inline(never)]
fn push_route(out: &mut Vec<u8>, dist: u16, via: Via) -> Result<(), AllocError>
    ensures ok { OnOk result (out.new.items ≡ out.old.items ++ (codes "route " ++ (decimal dist ++ (spec.via_text via ++ 10 ∷ [])))) }
    ensures err { OnErr result (StartsWith out.new.items out.old.items) }
{
    out.extend_from_slice(b"route ")?;
    push_decimal(out, u64::from(dist))?;
    push_via(out, via)?;
    out.push(b'\n')?;
    Ok(())
}

/// Adds the line of an event by which so many distances changed. Mostly they are few, and the line is put there at once.
#[inline(never)]
fn push_done(out: &mut Vec<u8>, changed: u16) -> Result<(), AllocError>
    ensures ok { OnOk result (out.new.items ≡ out.old.items ++ (codes "done " ++ (decimal changed ++ 10 ∷ []))) }
    ensures err { OnErr result (StartsWith out.new.items out.old.items) }
{
    if changed < 10 {
        let digit = b'0' + changed as u8;
        return out.extend_from_slice(&[b'd', b'o', b'n', b'e', b' ', digit, b'\n']);
    }
    out.extend_from_slice(b"done ")?;
    push_decimal(out, u64::from(changed))?;
    out.push(b'\n')?;
    Ok(())
}

/// Answers an event by the router's reply to it, which has this position in the journal.
#[inline(always)]
pub fn answer_reply(
    out: &mut Vec<u8>,
    at: u64,
    reply: ReplyRef<'_>,
) -> Result<LineReply, AllocError>
    ensures ok { IfOk result (spec.Adds (spec.reply_answer at (whole_reply reply.entry)) out.old.items out.new.items) }
    ensures err { OnErr result (StartsWith out.new.items out.old.items) }
{
    match reply {
        ReplyRef::Opened(session) => push_opened(out, session)?,
        ReplyRef::Done { changed } => push_done(out, changed)?,
        ReplyRef::Messages(messages) => push_messages(out, messages)?,
        ReplyRef::Route { dist, via } => push_route(out, dist, via)?,
        ReplyRef::Refused(why) => return refuse(out, why.code(), at),
    }
    Ok(LineReply::Answered)
}
