//! Words for people: why a source is refused, in words, at its line and column, and what else is told of texts.
//!
//! **What people read is made here alone.** Each command that tells people of a text stands on this crate: how a word is spelled, how bytes are shown
//! on a terminal that they must not control, where a byte stands, which known word is nearest to a wrong one, and what to write in its place.
//!
//! **What a code means stands once**, in `refusal_texts`: `explain` prints it. The words here say what is wrong with one text.
#![tactic(auto)]

mod around;
mod diagnosis_words;
mod explanation;
mod laws;
mod nearest;
mod place;
mod position;
mod remedies;
mod shown;
mod spelling;
mod words;

pub use explanation::{explain, explain_line, push_position, refusal_words, tell_at};
pub use laws::{excerpt_is_narrow, shown_is_harmless};
pub use nearest::nearest_word;
pub use place::{TextPlace, place_in};
pub use position::{Position, Positions};
pub use remedies::IPV6;
pub use shown::{push_prefix, push_shown};
pub use spelling::{byte_of_word, count_words, from_word, short_text, spelled, word_at};
