//! Two ends of a link that stay in step over any line: the lines of version 2, what an end does at each line that it hears, and how long
//! it was silent.
//!
//! # The lines
//!
//! A greeting is `netchange 2 SIZE NODE HOLD NUMBER HEARD`: the number of nodes of the domain and the node that speaks, both at most 250;
//! how many seconds this end may be silent before it is dead, at most 3,600, or 0 for any time; a number of this attempt, chosen at random,
//! 1 to 4,294,967,295; and the number of the greeting that was heard last from the other end, or 0. Numbers are decimal, with no zero
//! before them. Where the speaker's domain has a digest, it is one more word, of 16 hexadecimal digits with small letters. A message is `V D`: the node V is at the distance D. An empty line says that its writer is there. No line has more than 64 bytes.
//!
//! # The protocol
//!
//! An end begins an attempt with a new number, and greets. While it has no session it waits for a greeting, and skips all else.
//!
//! | What it hears | Without a session | In session |
//! |---|---|---|
//! | a greeting that repeats its number | it is up: in session with the attempt of that greeting. It answers by its own greeting, unless it said before that it heard that number | the session is over. It begins anew with a new number; this greeting is the first line of the new attempt, and is answered |
//! | another greeting | it answers by its own | the same |
//! | a message | it is skipped | it is taken |
//! | an empty line | nothing | nothing |
//! | any other line | it is skipped | the session is over. It begins anew, and greets |
//!
//! An end writes messages in session alone, and greetings without one, or as it comes up. Where it wrote nothing for a third of its HOLD it
//! writes a line: in session an empty one, without one its greeting again, since the one before may be lost. Where it heard nothing for the
//! other's HOLD its session is over, and it begins anew.
//!
//! # Questions, and their answers
//!
//! *Can an end come up on a stale greeting?* It comes up only on one that repeats the number of its present attempt. That number is new, so
//! such a greeting was written after the other end heard of this attempt, however many older ones the line still holds, and also where
//! both ends were started again meanwhile.
//!
//! *What if the line holds lines of three attempts ago?* They come before that greeting, so they are skipped; or they are greetings, which
//! are answered, and the answers repeat what is of no use to the other end. Once an end is up, nothing of its own older attempts is on its way
//! any more (`sessions_answer_present_attempts`).
//!
//! *What if both ends greet at once?* Each answers the other's greeting, and comes up on the answer. The greeting that each wrote as an
//! answer says all that the other has to know, so none is written when they come up: an end that always answered would end the other's
//! session by it, and so on for ever.
//!
//! *What if one end is up and the other is not?* The one that is up writes messages, and the other skips them. It cannot come up with that
//! attempt any more: an end writes no greeting in session, so all greetings of an attempt come before its messages
//! (`no_message_is_skipped`). It greets again, which ends the session at the other end, and both come up with new attempts. For the router
//! that session is one whose link failed: its Down drops what it had queued, and the next Up tells all distances anew. So each message of a
//! session that both ends have is handed over, from the first one on, in order and once, as long as nothing is lost between the Up and the
//! end of the session.
//!
//! *And what is lost in the middle of a session?* This is not noticed: messages have no numbers. A line may lose what it likes before an end
//! comes up; where it may lose something later, it has to end the session of who hears. What is left of a message whose front was lost can
//! read as another one, which is skipped before the Up as all messages are.
//!
//! *What of a line that its writer could not end?* The next greeting is glued to it, so both say nothing, and that greeting is not heard; the
//! next one is, a third of the HOLD later. In session it ends the session, as the greeting would have.
//!
//! *May a line hold many greetings?* Each greeting that is heard is answered by at most one, so there never are more of them than there
//! were (`greetings_do_not_multiply`). Where none is lost or written again, they become fewer until none is left; that is tested by a model, and not proved. Where
//! nothing is on its way and an end without a session greets again, once or twice, both come up (`ends_meet`).
#![tactic(auto)]

mod clocks;
mod ends;
mod greeting;
mod laws;
mod post;
mod runs;
mod said;

pub use clocks::{Clocks, LOOK_LIMIT};
pub use ends::{End, Heard, SKIP_LIMIT, Speaker, skip};
pub use greeting::{Greeting, digest_digits, push_greeting, read_greeting};
pub use laws::{empty_lines_change_nothing, greetings_are_short, one_line, silence_lasts};
pub use post::{CameUp, Post, Unheard};
pub use runs::{
    ends_meet, greetings_do_not_multiply, messages_are_of_the_session, no_message_is_skipped,
    sessions_answer_present_attempts,
};
pub use said::{Said, read_line};
