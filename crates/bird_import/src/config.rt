//! A configuration that is taken apart.
//!
//! **`ncimport` finds lines and columns from marks.** Each file of a configuration has the position of every 16th byte, as a listing has, so that the
//! time grows with the text (`bench/run.sh imports`). Were each place that is told counted from the first byte, it would grow with its square.

use crate::items::{Definition, Item};
use crate::word::Word;

/// The words of a configuration, with its definitions, its filters and its functions.
#[derive(Clone, Copy)]
pub struct Config<'a> {
    /// Its words.
    pub words: &'a [Word<'a>],
    /// Its definitions, in order.
    pub definitions: &'a [Definition],
    /// Its filters and functions, in order.
    pub items: &'a [Item],
}
