//! The tree of a filter, and what the grammar says of it: which texts spell which filter, and where in the text its parts stand.
//!
//! **The tree is a crate of its own**, below the parsers, since what checks names and kinds, and what compiles, takes a tree and asks for no more: so
//! these crates are proved beside the parsers, and a change of how text is read proves none of them anew. `filter_parser` re-exports the types, so
//! that code above names one crate; definitions and proofs name this one.
#![tactic(auto)]

mod around;
mod names;
mod tree;

pub use around::Around;
pub use names::{Names, VARIABLE_LIMIT};
pub use tree::{
    Attribute, Command, Decl, Expr, Filter, Kind, Label, MaskLength, Members, Membership, Name, Op,
    Set, SetPattern, SetRange, Suffix, Target,
};
