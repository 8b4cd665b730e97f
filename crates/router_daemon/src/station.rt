//! The end of a link, and when it greets.
//!
//! **Before it says its greeting again an end waits twice as long each time**, from a third of its HOLD up to all of it, until a session lasted as
//! long as the HOLD. A greeting that is said again while the answer to the one before is on its way ends the session that the answer begins. So over
//! a line that takes its time greetings are said more and more rarely, until each answer is back before the next one.
//!
//! **An end hears the line that ended its session before it greets.** Otherwise it would greet twice, because it begins anew and because it was
//! greeted, and one of these greetings would end the session that the other one begins.
ghost use Rattle.std.specs.Prelude.{◌≡◌, ◌<◌, ◌+◌, ◌↔◌, IfNone, IfSome, IsTrue, cond, false, true, max, min};
ghost use Rattle.link_handshake.specs.Clocks.{IsSilent, after_writing, looked};
ghost use Rattle.link_handshake.specs.Ends.{begun, greeting_of, heard_line};
ghost use Rattle.link_handshake.specs.Posts.{plain_after, speaking};
ghost use Rattle.link_handshake.specs.declared.said.Said.TheVariants.{Greeting as greets};
ghost use Rattle.router_daemon.specs.Stations as spec;

use crate::watching::LOOK;
use link_handshake::{CameUp, Greeting, Post, Said, Speaker, Unheard};

/// The end of a link, between its opening and its closing.
#[derive(Clone, Copy)]
pub(crate) struct Station {
    /// The end, as those who serve it share it.
    pub(crate) post: Post,
    /// The number of the attempt that begins when the session is over.
    pub(crate) next: u32,
    /// How many milliseconds it writes nothing before it says its greeting again.
    wait: u32,
    /// How often the clock was looked at since its session began.
    looks: u32,
    /// A line ended its session, which is heard before it greets.
    is_to_hear: bool,
}

/// How many milliseconds an end with this HOLD writes nothing before it says its greeting again for the first time.
fn first_wait(hold: u16) -> u32
    ensures { result ≡ spec.first_wait hold }
{
    u32::from(hold) * 1_000 / 3
}

/// How many before the next time.
fn longer(hold: u16, wait: u32) -> u32
    ensures { result ≡ spec.longer hold wait }
{
    (u64::from(wait) * 2).min(u64::from(hold) * 1_000) as u32
}

impl Station {
    /// The end of a link that is opened now, with the numbers of its first attempt and of the next one. It owes its greeting.
    pub(crate) fn open(speaker: Speaker, number: u32, next: u32, now: u64) -> Station
        requires { 0 < number }
        ensures post { (result.post.end ≡ begun number 0) × (result.post.owes_greeting ≡ true) × (result.post.speaker ≡ speaker) }
        ensures wait { result.wait ≡ spec.first_wait speaker.hold }
        ensures greets { result.is_to_hear ≡ false }
    {
        Station {
            post: Post::open(speaker, number, now),
            next,
            wait: first_wait(speaker.hold),
            looks: 0,
            is_to_hear: false,
        }
    }

    /// It hears a line, without a session, with a number for an attempt that may begin there: what it comes up on, if it does.
    pub(crate) fn hear(&mut self, line: Said, next: u32) -> Option<CameUp>
        requires { 0 < next }
        ensures end { self.new.post.end ≡ (heard_line self.old.post.end line next).end }
        ensures greets { self.new.is_to_hear ≡ false }
        ensures wait { self.new.wait ≡ self.old.wait }
        ensures looks { self.new.looks ≡ 0 }
        ensures plain { self.new.post.is_plain ≡ plain_after line self.old.post.is_plain }
        ensures meets { IfSome result (λ m. (line ≡ greets m.greeting) × (m.greeting.heard ≡ m.number)) }
    {
        self.is_to_hear = false;
        self.looks = 0;
        self.post.hear(line, next)
    }

    /// Its session is over: it begins anew, in a domain of this digest. If a line ended it, that is heard next.
    pub(crate) fn begin_anew(&mut self, by_line: bool, digest: Option<[u8; 8]>)
        ensures end { self.new.post.end ≡ begun (max self.old.next 1) self.old.post.end.heard }
        ensures speaker { self.new.post.speaker ≡ record self.old.post.speaker { digest = digest } }
        ensures owes { self.new.post.owes_greeting ≡ true }
        ensures greets { self.new.is_to_hear ≡ by_line }
        ensures wait { self.new.wait ≡ self.old.wait }
    {
        let next = self.next.max(1);
        self.post.begin(next);
        self.post.speaker.digest = digest;
        self.looks = 0;
        self.is_to_hear = by_line;
    }

    /// No line is to be heard before it greets.
    pub(crate) fn listen(&mut self)
        ensures { self.new ≡ record self.old { is_to_hear = false } }
    {
        self.is_to_hear = false;
    }

    /// Whether it writes no greeting yet, though it wrote nothing for a while or owes one.
    fn waits(&self) -> bool
        ensures { IsTrue result ↔ spec.Waits self.now }
    {
        !self.post.end.is_up
            && (self.is_to_hear
                || (!self.post.owes_greeting && self.post.clocks.unwritten < self.wait))
    }

    /// The greeting that it has to write now, if it has to. It counts as written; and if it is said again, the next time is later.
    pub(crate) fn take_greeting(&mut self) -> Option<Greeting>
        ensures greeting { IfSome result (λ g. g ≡ greeting_of (speaking self.old.post) self.old.post.end) }
        ensures some { IfSome result (λ _. spec.Greets self.old) }
        ensures none { IfNone result ((self.new ≡ self.old) × (spec.Greets self.old → ⊥)) }
        ensures written { IfSome result (λ _. (self.new.post.owes_greeting ≡ false)
            × (self.new.post.clocks ≡ after_writing self.old.post.clocks)) }
        ensures wait { IfSome result (λ _. self.new.wait ≡ spec.wait_after self.old) }
    {
        if self.waits() {
            return None;
        }
        let is_owed = self.post.owes_greeting;
        let greeting = self.post.take_greeting()?;
        if !is_owed {
            self.wait = longer(self.post.speaker.hold, self.wait);
        }
        Some(greeting)
    }

    /// Whether it has to write a line.
    pub(crate) fn is_due(&self) -> bool
        ensures { IsTrue result ↔ spec.Writes self.now }
    {
        !self.waits() && self.post.is_due()
    }

    /// It looks at the clock, as is done every 200 milliseconds: that nothing was heard for too long in its session, if it is so. Where the session
    /// lasted as long as its HOLD, it waits no longer than at first before it says a greeting again.
    pub(crate) fn look(&mut self, now: u64) -> Option<Unheard>
        ensures clocks { self.new.post ≡ record self.old.post { clocks = looked self.old.post.clocks now } }
        ensures looks { self.new.looks ≡ cond self.old.post.end.is_up (min (self.old.looks + 1) 4294967295) self.old.looks }
        ensures wait { self.new.wait ≡ spec.wait_after_look self.old self.new.looks }
        ensures silent { IfSome result (λ s. (self.old.post.end.is_up ≡ true) × IsSilent self.new.post.clocks
            × (s.hold ≡ self.new.post.clocks.other_hold)) }
        ensures heard { IfNone result (self.old.post.end.is_up ≡ true → IsSilent self.new.post.clocks → ⊥) }
    {
        self.note_look();
        self.post.look(now)
    }

    /// A look at the clock is counted, while there is a session.
    fn note_look(&mut self)
        ensures post { self.new.post ≡ self.old.post }
        ensures looks { self.new.looks ≡ cond self.old.post.end.is_up (min (self.old.looks + 1) 4294967295) self.old.looks }
        ensures wait { self.new.wait ≡ spec.wait_after_look self.old self.new.looks }
    {
        if !self.post.end.is_up {
            return;
        }
        let hold = self.post.speaker.hold;
        self.looks = self.looks.saturating_add(1);
        if u64::from(self.looks) * LOOK >= u64::from(hold) * 1_000 {
            self.wait = first_wait(hold);
        }
    }
}
