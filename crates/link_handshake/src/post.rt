//! An end of a link that several threads serve: who reads it, who writes to it, and who looks at the clock.
ghost use Rattle.std.specs.Prelude.{◌≡◌, ◌<◌, ◌||◌, ◌↔◌, IfNone, IfSome, IsTrue, false, true};
ghost use Rattle.link_handshake.specs.Clocks.{IsSilent, after_line, after_writing, looked};
ghost use Rattle.link_handshake.specs.Ends.{begun, greeting_of, heard_line};
ghost use Rattle.link_handshake.specs.Posts as spec;
ghost use Rattle.link_handshake.specs.declared.said.Said.TheVariants as said;

use crate::clocks::Clocks;
use crate::ends::{End, Speaker};
use crate::greeting::Greeting;
use crate::said::Said;

/// What an end came up on: the greeting that answered its attempt. Only `Post::hear` makes one.
#[derive(Clone, Copy, PartialEq, Eq)]
pub struct CameUp {
    pub(crate) greeting: Greeting,
    pub(crate) number: u32,
}

impl CameUp {
    /// The greeting.
    pub fn greeting(&self) -> Greeting
        ensures { result ≡ self.now.greeting }
    {
        self.greeting
    }
}

/// That nothing was heard of the other end for its HOLD, while a session was there. Only `Post::look` makes one.
#[derive(Clone, Copy, PartialEq, Eq)]
pub struct Unheard {
    pub(crate) hold: u16,
}

impl Unheard {
    /// The HOLD of the other end, in seconds.
    pub fn hold(&self) -> u16
        ensures { result ≡ self.now.hold }
    {
        self.hold
    }
}

/// An end of a link that several threads serve, and how long it was silent.
#[derive(Clone, Copy, PartialEq, Eq)]
pub struct Post {
    /// Who speaks there.
    pub speaker: Speaker,
    /// Its attempt.
    pub end: End,
    /// How long it heard nothing and wrote nothing.
    pub clocks: Clocks,
    /// Its greeting is to be written, since it began anew or has to answer.
    pub owes_greeting: bool,
    /// The last greeting that it heard says no digest. Then its own say none either, as a neighbour may know no digests.
    pub is_plain: bool,
}

/// Whether the last greeting that was heard says no digest, once this line was heard.
fn plain_after(line: Said, is_plain: bool) -> bool
    ensures { result ≡ spec.plain_after line is_plain }
{
    match line {
        Said::Greeting(greeting) => greeting.digest.is_none(),
        Said::Message(_) | Said::Alive | Said::Nothing => is_plain,
    }
}

impl Post {
    /// The end of a link that is opened now, with the number of its first attempt. Its greeting is to be written.
    pub fn open(speaker: Speaker, number: u32, now: u64) -> Post
        requires { 0 < number }
        ensures end { result.end ≡ begun number 0 }
        ensures owes { result.owes_greeting ≡ true }
        ensures speaker { result.speaker ≡ speaker }
        ensures plain { result.is_plain ≡ false }
    {
        Post {
            speaker,
            end: End::begin(number, 0),
            clocks: Clocks::start(speaker.hold, now),
            owes_greeting: true,
            is_plain: false,
        }
    }

    /// It hears a line, with a number for an attempt that may begin there. What it comes up on, if it does.
    pub fn hear(&mut self, line: Said, next: u32) -> Option<CameUp>
        requires { 0 < next }
        ensures end { self.new.end ≡ (heard_line self.old.end line next).end }
        ensures clocks { self.new.clocks ≡ after_line self.old.clocks line }
        ensures owes { self.new.owes_greeting ≡ (self.old.owes_greeting || (heard_line self.old.end line next).answers) }
        ensures speaker { self.new.speaker ≡ self.old.speaker }
        ensures plain { self.new.is_plain ≡ spec.plain_after line self.old.is_plain }
        ensures meets { IfSome result (λ m. (line ≡ said.Greeting m.greeting) × (m.number ≡ self.new.end.number)
            × (m.greeting.heard ≡ m.number) × (self.new.end.is_up ≡ true)) }
    {
        let heard = self.end.hear(line, next);
        self.end = heard.end;
        self.clocks = self.clocks.hear(line);
        self.owes_greeting = self.owes_greeting || heard.answers;
        self.is_plain = plain_after(line, self.is_plain);
        match line {
            Said::Greeting(greeting) if greeting.heard == heard.end.number => Some(CameUp {
                greeting,
                number: heard.end.number,
            }),
            _ => None,
        }
    }

    /// It begins anew, with a new number.
    pub fn begin(&mut self, number: u32)
        requires { 0 < number }
        ensures { self.new ≡ record self.old { end = begun number self.old.end.heard; owes_greeting = true } }
    {
        self.end = End::begin(number, self.end.heard);
        self.owes_greeting = true;
    }

    /// It looks at the clock. Where the session is there, and nothing was heard for the other end's HOLD: that it is so.
    pub fn look(&mut self, now: u64) -> Option<Unheard>
        ensures looked { self.new ≡ record self.old { clocks = looked self.old.clocks now } }
        ensures silent { IfSome result (λ s. (self.new.end.is_up ≡ true) × IsSilent self.new.clocks × (s.hold ≡ self.new.clocks.other_hold)) }
        ensures heard { IfNone result (self.new.end.is_up ≡ true → IsSilent self.new.clocks → ⊥) }
    {
        self.clocks = self.clocks.look(now);
        if !self.end.is_up || !self.clocks.is_silent() {
            return None;
        }
        Some(Unheard {
            hold: self.clocks.other_hold,
        })
    }

    /// A line was heard in session that says that its writer is there.
    pub fn note_alive(&mut self)
        ensures { self.new ≡ record self.old { clocks = after_line self.old.clocks said.Alive } }
    {
        self.clocks = self.clocks.hear(Said::Alive);
    }

    /// Whether its greeting is to be written now.
    fn has_to_greet(&self) -> bool
        ensures { IsTrue result ↔ spec.HasToGreet self.now }
    {
        self.owes_greeting || (!self.end.is_up && self.clocks.is_due())
    }

    /// Who speaks in its next greeting: with the digest of its domain, unless the last greeting that it heard says none.
    fn speaking(&self) -> Speaker
        ensures { result ≡ spec.speaking self.now }
    {
        let digest = if self.is_plain {
            None
        } else {
            self.speaker.digest
        };
        Speaker {
            size: self.speaker.size,
            node: self.speaker.node,
            hold: self.speaker.hold,
            digest,
        }
    }

    /// The greeting that it has to write now, if it has to: it owes one; or it has no session, and wrote nothing for a third of its HOLD. It
    /// counts as written.
    pub fn take_greeting(&mut self) -> Option<Greeting>
        ensures some { IfSome result (λ g. spec.HasToGreet self.old × (g ≡ greeting_of (spec.speaking self.old) self.old.end)
            × (self.new ≡ record self.old { owes_greeting = false; clocks = after_writing self.old.clocks })) }
        ensures none { IfNone result ((self.new ≡ self.old) × (spec.HasToGreet self.old → ⊥)) }
    {
        if !self.has_to_greet() {
            return None;
        }
        self.owes_greeting = false;
        self.clocks = self.clocks.write();
        Some(self.end.greeting(self.speaking()))
    }

    /// Whether it has to write something: a greeting, or an empty line where it wrote nothing for a third of its HOLD.
    pub fn is_due(&self) -> bool
        ensures { IsTrue result ↔ spec.HasToWrite self.now }
    {
        self.owes_greeting || self.clocks.is_due()
    }

    /// A line was written.
    pub fn wrote(&mut self)
        ensures { self.new ≡ record self.old { clocks = after_writing self.old.clocks } }
    {
        self.clocks = self.clocks.write();
    }
}
