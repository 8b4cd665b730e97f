//! Whether a step is one of its rule.
//!
//! **What is written is judged, not how it was found.** How a step is found takes a hundred functions, of which only that they are safe and return
//! is proved. Whether a step fits its rule is asked once more, by `fits`, before it is made, and by `is_call_of` whether words stand for a call;
//! and whether a text is the one that was meant, by parsing it. A step or a text that fails there is left out with its filter.
ghost use Rattle.std.specs.Prelude.{IsTrue};
ghost use Rattle.bird_import.specs.Steps.{Fits};

use crate::case_rules::{is_case_braced, is_case_taken};
use crate::functions::is_decided;
use crate::rules::{
    is_chain_grouped, is_defined, is_hoisted, is_separated, is_shortened, is_type_test,
    is_unprinted, is_unwrapped,
};
use crate::sets::is_set_placed;
use crate::step::Rule;
use crate::word::Word;

/// Whether a step is one of its rule. `at` is the index of the definition that it places.
pub(crate) fn fits<'w, 'a>(
    config: &[Word<'_>],
    rule: Rule,
    at: usize,
    front: &'w [Word<'a>],
    old: &'w [Word<'a>],
    new: &'w [Word<'a>],
    back: &'w [Word<'a>],
) -> bool
    ensures { IsTrue result → Fits config.now rule front.now old.now new.now back.now }
{
    match rule {
        Rule::Defined => is_defined(config, at, old, new),
        Rule::Unprinted => is_unprinted(old, new),
        Rule::Shortened => is_shortened(front, old, new),
        Rule::Separated => is_separated(old, new, back),
        Rule::Ipv4Only => is_type_test(old, new),
        Rule::Grouped => is_chain_grouped(front, old, new, back),
        Rule::Declared => is_hoisted(old, new),
        Rule::Returned => is_decided(front, old, new),
        Rule::SetPlaced => is_set_placed(front, old, new, back),
        Rule::CaseTaken => is_case_taken(old, new, back),
        Rule::CaseBraced => is_case_braced(old, new),
        Rule::Unwrapped => is_unwrapped(front, old, new, back),
    }
}
