//! What holds of all lines of version 2, and of the clocks of an end.
ghost use Rattle.std.specs.Prelude.{◌≡◌, ◌≤◌, ◌∷◌, ◌++◌, [], ◌+◌, ◌-◌, ◌*◌, ◌↔◌, ℕ, List, None, Some, false, length};
ghost use Rattle.message_streams.specs.Lines.{FitsMessage, line_limit, message_text};
ghost use Rattle.netchange_core.specs.declared.message.Message.{Message};
ghost use Rattle.link_handshake.specs.Clocks.{AreRising, IsSilent, after_line, after_looks, last_of};
ghost use Rattle.link_handshake.specs.Ends.{heard_line};
ghost use Rattle.link_handshake.specs.Lines.{FitsGreeting, greeting_line, greeting_text};
ghost use Rattle.link_handshake.specs.Reading.{greeting_in, said_by};
ghost use Rattle.link_handshake.specs.declared.clocks.Clocks.{Clocks};
ghost use Rattle.link_handshake.specs.declared.ends.End.{End};
ghost use Rattle.link_handshake.specs.declared.greeting.Greeting.{Greeting};
ghost use Rattle.link_handshake.specs.declared.said.Said.TheVariants as said;

/// A line says a greeting if and only if it is that greeting's text, and a message if and only if it is that message's. No greeting's line
/// begins another.
pub fn one_line()
    ensures greeting { (line : List ℕ) (g : Greeting) → (said_by line ≡ said.Greeting g) ↔ (FitsGreeting g × (line ≡ greeting_text g)) }
    ensures message { (line : List ℕ) (m : Message) → (said_by line ≡ said.Message m) ↔ (FitsMessage m × (line ≡ message_text m)) }
    ensures alive { (line : List ℕ) → (said_by line ≡ said.Alive) ↔ (line ≡ []) }
    ensures apart { (a b : Greeting) (x y : List ℕ) → FitsGreeting a → FitsGreeting b → greeting_line a ++ x ≡ greeting_line b ++ y →
        (a ≡ b) × (x ≡ y) }
{}

/// The line of a greeting is within the limit of a line.
pub fn greetings_are_short()
    ensures { (g : Greeting) → FitsGreeting g → length (greeting_line g) ≤ line_limit }
{}

/// An empty line changes nothing at an end but that it was heard.
pub fn empty_lines_change_nothing()
    ensures end { (e : End) (next : ℕ) → heard_line e said.Alive next ≡ record { end = e; answers = false; taken = None } }
    ensures clocks { (c : Clocks) → after_line c said.Alive ≡ record c { unheard = 0 } }
{}

/// An end is held for dead no sooner than its HOLD says: where looks at a clock that never goes back find it silent, and a line was heard
/// at the first of them, at least so many milliseconds went by since then.
pub fn silence_lasts()
    ensures { (times : List ℕ) (c : Clocks) → c.unheard ≡ 0 → AreRising c.looked_at times → IsSilent (after_looks times c) →
        c.looked_at + 1000 * c.other_hold ≤ last_of c.looked_at times }
{}
