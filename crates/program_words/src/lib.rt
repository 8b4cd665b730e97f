//! What the command lines of the programs have in common: the words that a program is started with, what they gave, the sources that they name,
//! and what is shown where they are wrong.
#![tactic(auto)]

mod arguments;
mod environment;
mod given;
mod negative;
mod showing;
mod source;

pub use arguments::arguments_of;
pub use environment::with_size_at;
pub use given::{count_given, is_given, number_given, text_given, word_given, words_given};
pub use showing::{WRONG_WORDS, show, show_wrong, tell_that_input_is_read};
pub use source::{Source, one_source, source_of};

/// The version of the project, and the logic that it is proved in, as `rt version` names it: several kits have it.
pub const VERSION: &str = "0.1.0 (Rattle logic dac8208d650f15bf)";
