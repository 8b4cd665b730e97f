use crate::symbol::Symbol;

/// What a token's bytes look like, whether or not they mean anything.
#[derive(Clone, Copy)]
pub enum Shape {
    /// A letter or `_`, and letters, digits and `_` after it.
    Word,
    /// Decimal digits.
    Decimal,
    /// `0x` and hexadecimal digits, if any.
    Hexadecimal,
    /// Four groups of decimal digits, joined by dots.
    Address,
    /// An address, `/` and decimal digits.
    Prefix,
    /// What is between double quotes on one line, and these.
    Text,
    /// A punctuator.
    Punctuator(Symbol),
}
