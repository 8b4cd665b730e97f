//! Laws on what is written, each the contract of a function with an empty body.
ghost use Rattle.std.specs.Prelude.{ℕ, List, All};
ghost use Rattle.domain_reports.specs.Pages.{IsNoBracket, unbracketed};

/// No byte of what stands in a page as data begins an element or ends one, whatever the bytes are.
pub fn data_has_no_bracket()
    ensures { (bytes : List ℕ) → All IsNoBracket (unbracketed bytes) }
{}
