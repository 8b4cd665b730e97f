//! Two neighbours greet one another.
ghost use Rattle.std.specs.Prelude.{◌≡◌, false, true, IfErr, IfOk, None, OnOk};
ghost use Rattle.link_handshake.specs.declared.said.Said.TheVariants as said;
ghost use Rattle.message_streams.specs.Ends.{is_lasting};
ghost use Rattle.neighbour_session.specs.Greeting as spec;

use crate::ends::{GreetingFault, SessionEnd};
use link_handshake::{CameUp, Greeting, Said, read_line, skip};
use message_streams::{MessageReader, StreamEnd};
use std::io::Read;
use std::random::RandomSource;
use std::sync::Wait;

/// A router's place in its domain.
#[derive(Clone, Copy, PartialEq, Eq)]
pub struct Domain {
    /// The number of nodes.
    pub size: u16,
    /// The node that the router is.
    pub me: u16,
    /// The digest that a neighbour's domain has to have, where the neighbour says one; any where this says none.
    pub digest: Option<[u8; 8]>,
}

/// Who hears what a neighbour says while there is no session.
pub trait Ears {
    ghost use Rattle.std.specs.Prelude.{◌≡◌, IfSome};
    ghost use Rattle.link_handshake.specs.declared.said.Said.TheVariants.{Greeting as greets};

    /// Hears a line. What the end of the link came up on, if it did.
    fn hear<R: Wait + RandomSource>(&self, rt: &R, line: Said) -> Option<CameUp>
        ensures { IfSome result (λ m. (line ≡ greets m.greeting) × (m.greeting.heard ≡ m.number)) };

    /// Whether the link is open still, so that what is heard can be answered.
    fn is_open<R: Wait>(&self, rt: &R) -> bool;
}

/// What is wrong with the digest that a greeting says, if something is, where this one is wanted. A greeting without one fits any.
fn digest_fault(said: Option<[u8; 8]>, own: Option<[u8; 8]>) -> Option<GreetingFault>
    ensures { result ≡ spec.digest_fault said own }
{
    match (said, own) {
        (Some(said), Some(own)) if said != own => Some(GreetingFault::OtherDomain { said, own }),
        _ => None,
    }
}

/// Whether a greeting is that of a node of this domain.
fn check_greeting(greeting: Greeting, domain: Domain, neighbour: u16) -> Result<(), GreetingFault>
    ensures ok { OnOk result (spec.IsOf domain neighbour greeting) }
    ensures err { IfErr result (spec.IsOfOther domain neighbour greeting) }
{
    if greeting.size != domain.size {
        return Err(GreetingFault::OtherSize(greeting.size));
    }
    if greeting.node != neighbour {
        return Err(GreetingFault::OtherNode(greeting.node));
    }
    if let Some(fault) = digest_fault(greeting.digest, domain.digest) {
        return Err(fault);
    }
    Ok(())
}

/// What a line says that was not read whole, for this reason, at a line of this number. One that is too long says nothing; with any other no
/// line is heard any more.
fn said_without_line(why: StreamEnd, line: u64) -> Result<(Said, u32), SessionEnd>
    ensures said { IfOk result (λ r. (r.0 ≡ said.Nothing) × (is_lasting why ≡ false)) }
    ensures end { IfErr result (λ end. (end ≡ spec.read_end why line) × (is_lasting why ≡ true)) }
{
    if !why.is_lasting() {
        return Ok((Said::Nothing, 64));
    }
    Err(SessionEnd::Read { why, line })
}

/// What the next line of a stream says that has not ended, and of how many bytes it is. A line that is too long says nothing, and neither does
/// what is left of it.
fn hear_next<I: Read>(input: &mut MessageReader<I>) -> Result<(Said, u32), SessionEnd>
    requires { input.old.end ≡ None }
    ensures said { IfOk result (λ r. spec.HearsLine r.0 input.old input.new) }
    ensures end { IfErr result (λ why. spec.IsUnheard why input.old input.new) }
{
    match input.next_line() {
        Ok(text) => Ok((read_line(text.as_slice()), text.len() as u32 + 1)),
        Err(why) => said_without_line(why, input.line()),
    }
}

/// The same of any stream: where it has ended, no line is heard any more.
fn next_said<I: Read>(input: &mut MessageReader<I>) -> Result<(Said, u32), SessionEnd>
    ensures said { IfOk result (λ r. spec.HearsLine r.0 input.old input.new) }
    ensures end { IfErr result (λ why. spec.IsUnheard why input.old input.new) }
{
    match input.end() {
        Some(why) => Err(SessionEnd::Read {
            why,
            line: input.line(),
        }),
        None => hear_next(input),
    }
}

/// What the line says that was heard before, if there is one, which is taken, or else the next line of a stream; and how many bytes were read.
fn take_said<I: Read>(
    before: &mut Option<Said>,
    input: &mut MessageReader<I>,
) -> Result<(Said, u32), SessionEnd>
    ensures said { IfOk result (λ r. spec.TakesSaid before.old r.0 input.old input.new) }
    ensures taken { before.new ≡ None }
    ensures end { IfErr result (λ why. spec.IsUnheard why input.old input.new) }
{
    match before.take() {
        Some(said) => Ok((said, 0)),
        None => next_said(input),
    }
}

/// How many bytes were skipped since the last greeting, after a line of so many. A greeting has to be the neighbour's. A message and an empty line
/// count nothing: they are left over from a session before, and there are no more of them than were on their way.
fn count_skipped<I: Read>(
    said: Said,
    skipped: u32,
    bytes: u32,
    input: &MessageReader<I>,
    domain: Domain,
    neighbour: u16,
) -> Result<u32, SessionEnd>
    ensures ok { OnOk result (spec.IsWelcome domain neighbour said) }
    ensures err { IfErr result (λ why. spec.IsUnmet why domain neighbour input.now) }
{
    match said {
        Said::Greeting(greeting) => match check_greeting(greeting, domain, neighbour) {
            Ok(()) => Ok(0),
            Err(fault) => Err(SessionEnd::Mistaken {
                fault,
                line: input.line(),
            }),
        },
        Said::Message(_) | Said::Alive => Ok(skipped),
        Said::Nothing => skip(skipped, bytes).ok_or(SessionEnd::Ungreeted),
    }
}

/// Waits until a neighbour answers the present attempt of this end of the link: what the end came up on. Whatever else the neighbour says
/// is skipped: messages and empty lines, however many, and up to 65,536 bytes of other lines between two of its greetings. A line that was heard
/// before, and ended a session, may be the first.
pub fn meet<R: Wait + RandomSource, I: Read, E: Ears>(
    rt: &R,
    input: &mut MessageReader<I>,
    ears: &E,
    domain: Domain,
    neighbour: u16,
    first: Option<Said>,
) -> Result<CameUp, SessionEnd>
    ensures met { IfOk result (λ m. spec.Meets domain neighbour first input.old m input.new) }
    ensures unmet { IfErr result (λ why. spec.IsUnmet why domain neighbour input.new) }
{
    let mut before = first;
    let mut skipped = 0;
    for _ in rt.forever() {
        let (said, bytes) = take_said(&mut before, input)?;
        skipped = count_skipped(said, skipped, bytes, input, domain, neighbour)?;
        if let Some(meeting) = ears.hear(rt, said) {
            return Ok(meeting);
        }
        if !ears.is_open(rt) {
            return Err(SessionEnd::Closed);
        }
    }
    unreachable!()
}
