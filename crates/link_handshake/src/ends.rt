//! One end of a link.
ghost use Rattle.std.specs.Prelude.{◌≡◌, ◌<◌, ◌≤◌, ◌+◌, IfNone, IfSome};
ghost use Rattle.link_handshake.specs.Ends as spec;

use crate::greeting::Greeting;
use crate::said::Said;
use netchange_core::Message;

/// Who speaks at an end of a link.
#[derive(Clone, Copy, PartialEq, Eq)]
pub struct Speaker {
    /// The number of nodes of its domain.
    pub size: u16,
    /// The node that it is.
    pub node: u16,
    /// How many seconds it may be silent before it is dead, at most 3,600; 0 for any time.
    pub hold: u16,
    /// The digest of its domain, where it says one.
    pub digest: Option<[u8; 8]>,
}

/// One end of a link, in an attempt.
#[derive(Clone, Copy, PartialEq, Eq)]
pub struct End {
    /// The number of the attempt, which was chosen at random, and is not 0.
    pub number: u32,
    /// The number of the last greeting that it heard from the other end; 0 before.
    pub heard: u32,
    /// Whether it is in session, with the other end's attempt of the number that it heard last.
    pub is_up: bool,
}

/// What becomes of an end that hears a line.
#[derive(Clone, Copy, PartialEq, Eq)]
pub struct Heard {
    /// The end, after it heard the line.
    pub end: End,
    /// Whether it has to write its greeting now.
    pub answers: bool,
    /// The message that it takes, if it takes one.
    pub taken: Option<Message>,
}

impl End {
    /// An end that begins an attempt with this number, which has to be a new one. It heard that number last from the other end, or
    /// none (0). Its greeting has to be written.
    pub fn begin(number: u32, heard: u32) -> End
        requires { 0 < number }
        ensures { result ≡ spec.begun number heard }
    {
        End {
            number,
            heard,
            is_up: false,
        }
    }

    /// The greeting that it writes.
    pub fn greeting(&self, speaker: Speaker) -> Greeting
        ensures { result ≡ spec.greeting_of speaker self.now }
    {
        Greeting {
            size: speaker.size,
            node: speaker.node,
            hold: speaker.hold,
            number: self.number,
            heard: self.heard,
            digest: speaker.digest,
        }
    }

    /// The end as it is ready for the first line of an attempt: where it is in session, that is over, and it begins anew.
    fn ready(self, next: u32) -> End
        requires { 0 < next }
        ensures { result ≡ spec.ready self next }
    {
        if self.is_up {
            End::begin(next, self.heard)
        } else {
            self
        }
    }

    /// What becomes of it, without a session, at a greeting.
    fn greeted_by(self, number: u32, repeats: u32) -> Heard
        ensures { result ≡ record { end = spec.greeted_by self number repeats; answers = spec.is_answered self number repeats; taken = None } }
    {
        let is_up = repeats == self.number;
        Heard {
            end: End {
                number: self.number,
                heard: number,
                is_up,
            },
            answers: !(is_up && self.heard == number),
            taken: None,
        }
    }

    /// What becomes of it at a line. In session it takes a message; a greeting, and a line that says nothing, ends the session, and the
    /// end begins anew with the next number, for which a new one has to be at hand. Without a session it waits for a greeting: each one is
    /// answered by its own, unless that was said already, and one that repeats its own number begins a session. All else is skipped. An
    /// empty line changes nothing.
    pub fn hear(self, line: Said, next: u32) -> Heard
        requires { 0 < next }
        ensures { result ≡ spec.heard_line self line next }
    {
        match line {
            Said::Alive => Heard {
                end: self,
                answers: false,
                taken: None,
            },
            Said::Greeting(greeting) => self
                .ready(next)
                .greeted_by(greeting.number, greeting.heard),
            Said::Message(message) => Heard {
                end: self,
                answers: false,
                taken: if self.is_up { Some(message) } else { None },
            },
            Said::Nothing => Heard {
                end: self.ready(next),
                answers: self.is_up,
                taken: None,
            },
        }
    }
}

/// How many bytes of lines that say nothing an end skips at most, without a session, until a greeting comes. Messages and empty lines are left over
/// from a session before, and do not count.
pub const SKIP_LIMIT: u32 = 65_536;

/// How many bytes were skipped, after so many more. None where these are more than the limit: then nothing is read any more, and the
/// link is closed.
pub fn skip(skipped: u32, more: u32) -> Option<u32>
    ensures some { IfSome result (λ count. (count ≡ skipped + more) × (count ≤ 65536)) }
    ensures none { IfNone result (65536 < skipped + more) }
{
    let count = skipped.checked_add(more)?;
    if count > SKIP_LIMIT {
        return None;
    }
    Some(count)
}
