//! Negative numbers behind options.
//!
//! **No option takes a negative number.** By clap's contract the matches of a command line are known exactly where no argument has a setting by
//! which words are read in another way, as `allow_negative_numbers`. So for clap the word behind `--size -16` is an option that it does not know,
//! and the program itself tells people what is wrong with the number. A negative number behind `=` is refused by clap.

use std::convert::AsStr;

/// The first of these options that has a negative number behind it among some words, and that number.
pub(crate) fn negative_number<'a, S: AsStr>(
    words: &'a [S],
    options: &[&str],
) -> Option<(&'a str, &'a str)> {
    for n in 1..words.len() {
        let (option, number) = (words[n - 1].as_str(), words[n].as_str());
        if is_one_of(options, option) && is_negative(number) {
            return Some((option, number));
        }
    }
    None
}

/// Whether a word is one of these options.
fn is_one_of(options: &[&str], word: &str) -> bool {
    for option in options {
        if *option == word {
            return true;
        }
    }
    false
}

/// Whether a word is a negative number.
fn is_negative(word: &str) -> bool {
    matches!(word.parse::<i64>(), Ok(number) if number < 0)
}
