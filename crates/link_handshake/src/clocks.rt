//! How long an end of a link heard nothing, and wrote nothing.
ghost use Rattle.std.specs.Prelude.{◌≡◌, ◌↔◌, ◌+◌, IsTrue, min};
ghost use Rattle.link_handshake.specs.Clocks as spec;

use crate::said::Said;

/// How many milliseconds count at most from one look at the clock to the next.
pub const LOOK_LIMIT: u32 = 250;

/// How many milliseconds are counted at most: the longest HOLD.
const COUNT_LIMIT: u32 = 3_600_000;

/// How long an end of a link heard nothing and wrote nothing, by a clock that tells milliseconds and is looked at often: from one look
/// to the next at most 250 milliseconds count, and none where the clock went back. So a clock that jumps, and a process that was stopped
/// for a while, closes nothing.
#[derive(Clone, Copy, Debug, PartialEq, Eq)]
pub struct Clocks {
    /// This end's HOLD, in seconds; 0 for never.
    pub own_hold: u16,
    /// The other end's HOLD, as its last greeting said; 0 for never, and before.
    pub other_hold: u16,
    /// What the clock told at the last look.
    pub looked_at: u64,
    /// For how many milliseconds no line was heard.
    pub unheard: u32,
    /// For how many no line was written.
    pub unwritten: u32,
}

/// A count after so many milliseconds more.
fn count_on(count: u32, more: u32) -> u32
    ensures { result ≡ min (count + more) spec.count_limit }
{
    count.saturating_add(more).min(COUNT_LIMIT)
}

/// How many milliseconds count from one look to the next.
fn counted(last: u64, now: u64) -> u32
    ensures { result ≡ spec.counted last now }
{
    now.saturating_sub(last).min(u64::from(LOOK_LIMIT)) as u32
}

impl Clocks {
    /// The clocks of an end that opened a link now.
    pub fn start(own_hold: u16, now: u64) -> Clocks
        ensures { result ≡ record { own_hold = own_hold; other_hold = 0; looked_at = now; unheard = 0; unwritten = 0 } }
    {
        Clocks {
            own_hold,
            other_hold: 0,
            looked_at: now,
            unheard: 0,
            unwritten: 0,
        }
    }

    /// After a look at the clock.
    pub fn look(self, now: u64) -> Clocks
        ensures { result ≡ spec.looked self now }
    {
        let more = counted(self.looked_at, now);
        Clocks {
            own_hold: self.own_hold,
            other_hold: self.other_hold,
            looked_at: now,
            unheard: count_on(self.unheard, more),
            unwritten: count_on(self.unwritten, more),
        }
    }

    /// After a line was heard, whatever it says.
    pub fn hear(self, line: Said) -> Clocks
        ensures { result ≡ spec.after_line self line }
    {
        let other_hold = match line {
            Said::Greeting(greeting) => greeting.hold,
            Said::Message(_) | Said::Alive | Said::Nothing => self.other_hold,
        };
        // Whatever it says, its writer is there.
        let unheard = 0;
        Clocks {
            own_hold: self.own_hold,
            other_hold,
            looked_at: self.looked_at,
            unheard,
            unwritten: self.unwritten,
        }
    }

    /// After a line was written.
    pub fn write(self) -> Clocks
        ensures { result ≡ spec.after_writing self }
    {
        Clocks {
            own_hold: self.own_hold,
            other_hold: self.other_hold,
            looked_at: self.looked_at,
            unheard: self.unheard,
            unwritten: 0,
        }
    }

    /// Whether nothing was heard for the other end's HOLD: then it is dead. Never where that is 0.
    pub fn is_silent(&self) -> bool
        ensures { IsTrue result ↔ spec.IsSilent self.now }
    {
        self.other_hold != 0 && 1000 * u32::from(self.other_hold) <= self.unheard
    }

    /// Whether nothing was written for a third of this end's HOLD: then it writes an empty line, and without a session its greeting
    /// again. Never where that is 0.
    pub fn is_due(&self) -> bool
        ensures { IsTrue result ↔ spec.IsDue self.now }
    {
        self.own_hold != 0 && 1000 * u64::from(self.own_hold) <= 3 * u64::from(self.unwritten)
    }
}
