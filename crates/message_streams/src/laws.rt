//! What holds of all lines of links.
ghost use Rattle.std.specs.Prelude.{◌≡◌, ◌≤◌, ◌∷◌, ◌++◌, ◌↔◌, All, ℕ, List, Option, Some, length};
ghost use Rattle.netchange_core.specs.declared.message.Message.{Message};
ghost use Rattle.message_streams.specs.Lines.{FitsMessage, line_limit, lines_text, message_line, message_text, messages_among};
ghost use Rattle.message_streams.specs.Reading.{message_in, messages_in};

/// A line says a message if and only if it is that message's text. So one line says one message, and the other way round. No line begins
/// another.
pub fn one_message()
    ensures exact { (line : List ℕ) (m : Message) → (message_in line ≡ Some m) ↔ (FitsMessage m × (line ≡ message_text m)) }
    ensures apart { (a b : Message) (x y : List ℕ) → FitsMessage a → FitsMessage b → message_line a ++ x ≡ message_line b ++ y →
        (a ≡ b) × (x ≡ y) }
{}

/// Messages that are written, a line each, are read as the same, in order. Empty lines between them change nothing.
pub fn written_is_read()
    ensures { (lines : List (Option Message)) → All FitsMessage (messages_among lines) → messages_in (lines_text lines) ≡ messages_among lines }
{}

/// The line of a message is within the limit.
pub fn lines_are_short()
    ensures { (m : Message) → FitsMessage m → length (message_line m) ≤ line_limit }
{}
