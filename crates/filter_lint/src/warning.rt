//! What is said of a filter.

use crate::site::Site;
use filter_diff::Disorder;

/// An operation on ints whose result may be one that no int has.
#[derive(Clone, Copy)]
pub enum Operation {
    /// A sum.
    Sum,
    /// A difference.
    Difference,
    /// A product.
    Product,
}

/// The least and the greatest value that an int may have.
#[derive(Clone, Copy)]
pub struct ValueBounds {
    /// The least value.
    pub low: u32,
    /// The greatest value.
    pub high: u32,
}

/// Why a warning is said.
#[derive(Clone, Copy)]
pub enum WarningCause {
    /// What is asked there is true, or false, on every route that comes there.
    Constant(Site, bool),
    /// No route comes there.
    Unreached,
    /// The operation may wrap, by what is known of its two operands.
    Wraps(Operation, ValueBounds, ValueBounds),
    /// In the set of this number the pattern of the first index is covered by that of the second.
    Covered(u8, usize, usize),
    /// In the set of ints that is asked for there the range of the first bounds shares a number with one before it, of the second bounds.
    Overlapping(ValueBounds, ValueBounds),
    /// The variable that is declared there is never read.
    Unread,
    /// The metric that is set there is unreachable, by what is known of it.
    Unreachable(ValueBounds),
    /// On some route that comes there the metric is set to less than was received, which leaves it as it was received.
    NotLowered,
    /// Of two metrics of a route the lesser one comes to more than the other.
    Disordered(Disorder),
}

/// A warning: the index of the instruction that it is said of, the byte of the text that the instruction comes from, and why.
#[derive(Clone, Copy)]
pub struct Warning {
    /// The index of the instruction.
    pub instruction: usize,
    /// The byte of the text.
    pub byte: usize,
    /// Why it is said.
    pub cause: WarningCause,
}
