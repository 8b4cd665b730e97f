//! What stands in the text where an instruction comes from that jumps by a condition.
//!
//! **What stands at a place is told by its first byte**: an instruction that jumps by a condition comes from an `if`, an `&&`, an `||`, a label or
//! a `case`, and no two of these begin alike.
ghost use Rattle.std.specs.Prelude.{◌≡◌, slice_get};
ghost use Rattle.filter_lint.specs.Sites as spec;

/// What stands in the text where a condition is asked.
#[derive(Clone, Copy)]
pub enum Site {
    /// The word `if`: the condition is the one behind it.
    If,
    /// The operator `&&`: the condition is what stands left of it.
    And,
    /// The operator `||`, the same.
    Or,
    /// A label of a `case`: the condition is that the label has the value.
    Label,
    /// The word `case`, where the `case` has no label at all.
    Case,
}

/// The part of the text that begins with this byte. A label begins with a digit.
fn site_of(byte: u8) -> Site
    ensures { result ≡ spec.site_of byte }
{
    if byte == b'i' {
        Site::If
    } else if byte == b'&' {
        Site::And
    } else if byte == b'|' {
        Site::Or
    } else if byte == b'c' {
        Site::Case
    } else {
        Site::Label
    }
}

/// What stands at a byte of a text, where a condition is asked there.
pub(crate) fn site_at(text: &[u8], at: usize) -> Option<Site>
    ensures { result ≡ spec.site_at text.now at }
{
    match text.get(at) {
        Some(byte) => Some(site_of(*byte)),
        None => None,
    }
}

/// Whether it is the word `if`.
pub(crate) fn is_if(text: &[u8], at: usize) -> bool
    ensures { result ≡ spec.is_if_at text.now at }
{
    match site_at(text, at) {
        Some(Site::If) => true,
        _ => false,
    }
}
