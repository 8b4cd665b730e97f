//! Laws on what is shown, each the contract of a function with an empty body.
ghost use Rattle.std.specs.Prelude.{◌≡◌, ℕ, ◌+◌, ◌≤◌, List, ◌++◌, All, false, length};
ghost use Rattle.refusal_words.specs.Explanations.{dots_for, first_of, front_within, last_of};
ghost use Rattle.refusal_words.specs.Shown.{columns, is_hidden, shown_characters};

/// Nothing that is shown of any bytes is a control character other than a tab, turns the direction of the text or ends a line.
pub fn shown_is_harmless()
    ensures { (bytes : List ℕ) → All (λ c. is_hidden c ≡ false) (shown_characters bytes) }
{}

/// What is shown of a line round a place takes at most 200 columns, the dots among them; and each front of some characters that takes at
/// most so many columns is a front of the one that is kept.
pub fn excerpt_is_narrow()
    ensures narrow { (before behind : List ℕ) → length (dots_for before) + columns (last_of before ++ first_of behind) + length (dots_for behind) ≤ 200 }
    ensures longest { (most : ℕ) (front rest : List ℕ) → columns front ≤ most → (more : List ℕ) × (front_within most (front ++ rest) ≡ front ++ more) }
{}
