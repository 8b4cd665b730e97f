//! Words that are fixed.
ghost use Rattle.std.specs.Prelude.{◌≡◌, List, ℕ, find};
ghost use Rattle.line_protocol.specs.Words.{is_spelled};

/// What is written as one fixed word: a verb, a keyword. This project's own choice.
pub trait Spelled: Copy {
    // How each is written.
    ghost spelling: { Self → List ℕ };

    /// How it is written.
    fn text(&self) -> &'static str
        ensures { result.now ≡ spelling self.now };
}

/// The first of `all` that is written so, if there is one.
pub fn first_spelled<T: Spelled>(all: &[T], word: &[u8]) -> Option<T>
    ensures { find (is_spelled T.spelling word.now) all.now ≡ result }
{
    for one in all {
        if one.text().as_bytes() == word {
            return Some(*one);
        }
    }
    None
}
