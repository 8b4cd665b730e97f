//! A text and the name of its source.

/// The text of a filter, and the name of the source that it was read from.
#[derive(Clone, Copy)]
pub struct NamedText<'a> {
    /// The name, as the operator gave it.
    pub name: &'a [u8],
    /// The text.
    pub text: &'a [u8],
}
