//! Laws on what is written, each the contract of a function with an empty body.
ghost use Rattle.std.specs.Prelude.{◌≡◌, ℕ, List, All, IsUtf8};
ghost use Rattle.report_formats.specs.Escaping.{IsClosed, attribute};
ghost use Rattle.report_formats.specs.Lines.{readable};

/// Bytes that are UTF-8 are written as they are.
pub fn readable_text_is_kept()
    ensures { (bytes : List ℕ) → IsUtf8 bytes → readable bytes ≡ bytes }
{}

/// No byte of what stands within quotes of XML is a quote, an opening bracket or a control character, whatever the bytes are.
pub fn attributes_are_closed()
    ensures { (bytes : List ℕ) → All IsClosed (attribute bytes) }
{}
