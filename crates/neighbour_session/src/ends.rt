//! Why a session is over.
ghost use Rattle.std.specs.Prelude.{◌≡◌, ◌++◌, OnErr, OnOk, decimal, string_bytes};
ghost use Rattle.std.specs.Io.{StartsWith};
ghost use Rattle.hex.specs.Hex.{encode_lower};
ghost use Rattle.neighbour_session.specs.Words as spec;

use itoa::Buffer;
use link_handshake::{Greeting, Said, digest_digits};
use message_streams::StreamEnd;
use std::alloc::AllocError;

/// Why a greeting is not that of the neighbour that is expected.
#[derive(Clone, Copy, Debug, PartialEq, Eq)]
pub enum GreetingFault {
    /// It is from a domain of this other size.
    OtherSize(u16),
    /// It is from this other node.
    OtherNode(u16),
    /// It is from a domain that was set up by another file.
    OtherDomain {
        /// The digest that it says.
        said: [u8; 8],
        /// That of the router's own domain.
        own: [u8; 8],
    },
}

/// Why a session with a neighbour is over, or why none began.
#[derive(Clone, Copy, PartialEq, Eq)]
pub enum SessionEnd {
    /// The neighbour's stream ended, or has a line that is too long, or could not be read.
    Read {
        /// What it was.
        why: StreamEnd,
        /// The number of the line at which it was.
        line: u64,
    },
    /// The neighbour began anew, by this greeting.
    Greeted(Greeting),
    /// The line of this number is no message.
    NoMessage(u64),
    /// A greeting is not that of the neighbour.
    Mistaken {
        /// What is wrong with it.
        fault: GreetingFault,
        /// The number of its line.
        line: u64,
    },
    /// The neighbour said a lot, and did not greet.
    Ungreeted,
    /// Nothing was heard of the neighbour for so many seconds, which is its HOLD.
    Silent(u16),
    /// A line could not be written.
    Unwritten,
    /// Nobody could be started to write to the neighbour.
    NotStarted,
    /// Somebody else ended it, as the operator who closes the router.
    Closed,
    /// The router refused the neighbour.
    Refused,
    /// The history is full.
    Full,
    /// Memory was refused.
    Memory,
}

/// Adds a text and a number.
fn push_with_number(text: &mut String, before: &str, number: u64) -> Result<(), AllocError>
    ensures ok { OnOk result (string_bytes text.new ≡ string_bytes text.old ++ (before.now ++ decimal number)) }
    ensures err { OnErr result (StartsWith (string_bytes text.new) (string_bytes text.old)) }
{
    text.push_str(before)?;
    let mut digits = Buffer::new();
    text.push_str(digits.format(number))
}

/// Adds a number between two texts.
fn push_numbered(
    text: &mut String,
    before: &str,
    number: u64,
    after: &str,
) -> Result<(), AllocError>
    ensures ok { OnOk result (string_bytes text.new ≡ string_bytes text.old ++ (before.now ++ decimal number ++ after.now)) }
    ensures err { OnErr result (StartsWith (string_bytes text.new) (string_bytes text.old)) }
{
    push_with_number(text, before, number)?;
    text.push_str(after)
}

/// Adds a text, and a digest behind it.
fn push_with_digest(text: &mut String, before: &str, digest: [u8; 8]) -> Result<(), AllocError>
    ensures ok { OnOk result (string_bytes text.new ≡ string_bytes text.old ++ (before.now ++ encode_lower digest)) }
    ensures err { OnErr result (StartsWith (string_bytes text.new) (string_bytes text.old)) }
{
    text.push_str(before)?;
    let digits = digest_digits(digest);
    match str::from_utf8(&digits) {
        Ok(digits) => text.push_str(digits),
        // Digits are text, so this never comes.
        Err(_) => Err(AllocError),
    }
}

/// Adds that the neighbour's domain has another digest.
fn push_other_domain(text: &mut String, said: [u8; 8], own: [u8; 8]) -> Result<(), AllocError>
    ensures ok { OnOk result (string_bytes text.new ≡ string_bytes text.old ++ spec.domain_words said own) }
    ensures err { OnErr result (StartsWith (string_bytes text.new) (string_bytes text.old)) }
{
    push_with_digest(text, "the neighbour's domain has the digest ", said)?;
    push_with_digest(text, ", and this one ", own)
}

/// Adds why a line is not the greeting that is expected.
fn push_greeting_fault(text: &mut String, fault: GreetingFault) -> Result<(), AllocError>
    ensures ok { OnOk result (string_bytes text.new ≡ string_bytes text.old ++ spec.greeting_words fault) }
    ensures err { OnErr result (StartsWith (string_bytes text.new) (string_bytes text.old)) }
{
    match fault {
        GreetingFault::OtherSize(size) => {
            push_numbered(
                text,
                "the neighbour's domain has ",
                u64::from(size),
                " nodes",
            )
        }
        GreetingFault::OtherNode(node) => {
            push_with_number(text, "the neighbour is node ", u64::from(node))
        }
        GreetingFault::OtherDomain { said, own } => push_other_domain(text, said, own),
    }
}

/// Adds why a stream ended, at a line.
fn push_stream_end(text: &mut String, why: StreamEnd, line: u64) -> Result<(), AllocError>
    ensures ok { OnOk result (string_bytes text.new ≡ string_bytes text.old ++ spec.stream_words why line) }
    ensures err { OnErr result (StartsWith (string_bytes text.new) (string_bytes text.old)) }
{
    match why {
        StreamEnd::Ended => text.push_str("the neighbour ended its stream"),
        StreamEnd::Unfinished => push_with_number(text, "the stream ended within line ", line),
        StreamEnd::TooLong => push_numbered(text, "line ", line, " has more than 64 bytes"),
        StreamEnd::Read => push_numbered(text, "line ", line, " could not be read"),
    }
}

/// Adds that a line is not the greeting that is expected, and why.
fn push_mistake(text: &mut String, fault: GreetingFault, line: u64) -> Result<(), AllocError>
    ensures ok { OnOk result (string_bytes text.new ≡ string_bytes text.old ++ spec.mistake_words fault line) }
    ensures err { OnErr result (StartsWith (string_bytes text.new) (string_bytes text.old)) }
{
    push_numbered(text, "line ", line, " is not its greeting: ")?;
    push_greeting_fault(text, fault)
}

impl SessionEnd {
    /// What the line says by which the neighbour ended a session, if it did: it is the first line that is heard for the next one.
    pub fn last_line(self) -> Option<Said>
        ensures { result ≡ spec.last_line self }
    {
        match self {
            SessionEnd::Greeted(greeting) => Some(Said::Greeting(greeting)),
            SessionEnd::NoMessage(_) => Some(Said::Nothing),
            SessionEnd::Read {
                why: StreamEnd::TooLong,
                ..
            } => Some(Said::Nothing),
            _ => None,
        }
    }

    /// Whether the next session is had over the same streams: where they go on.
    pub fn goes_on(self) -> bool
        ensures { result ≡ spec.goes_on self }
    {
        match self {
            SessionEnd::Greeted(_) | SessionEnd::NoMessage(_) | SessionEnd::Closed => true,
            SessionEnd::Silent(_) => true,
            SessionEnd::Read { why, .. } => !why.is_lasting(),
            _ => false,
        }
    }

    /// Adds why the session is over, in words.
    pub fn push_words(self, text: &mut String) -> Result<(), AllocError>
        ensures ok { OnOk result (string_bytes text.new ≡ string_bytes text.old ++ spec.end_words self) }
        ensures err { OnErr result (StartsWith (string_bytes text.new) (string_bytes text.old)) }
    {
        match self {
            SessionEnd::Read { why, line } => push_stream_end(text, why, line),
            SessionEnd::Greeted(_) => text.push_str("the neighbour began anew"),
            SessionEnd::NoMessage(line) => push_numbered(text, "line ", line, " is no message"),
            SessionEnd::Mistaken { fault, line } => push_mistake(text, fault, line),
            SessionEnd::Ungreeted => text.push_str("the neighbour did not greet"),
            SessionEnd::Silent(hold) => {
                push_numbered(text, "nothing heard for ", u64::from(hold), " s")
            }
            SessionEnd::Unwritten => text.push_str("a line could not be written"),
            SessionEnd::NotStarted => text.push_str("a thread was not started (X2)"),
            SessionEnd::Closed => text.push_str("the session was ended"),
            SessionEnd::Refused => text.push_str("the router refused the neighbour"),
            SessionEnd::Full => text.push_str("the history is full (J1)"),
            SessionEnd::Memory => text.push_str("out of memory (J2)"),
        }
    }

    /// Whether the link can be opened again: a full history takes no session any more, unless that passes.
    pub fn can_be_opened_again(self, passes: bool) -> bool
        ensures { result ≡ spec.can_be_opened_again passes self }
    {
        match self {
            SessionEnd::Full => passes,
            _ => true,
        }
    }
}
