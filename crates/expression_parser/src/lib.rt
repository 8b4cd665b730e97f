//! Expressions of the filter language: what is left of a text's tokens, and how an expression is read from it. The parser of
//! filters, a crate above, reads commands with the same.
//!
//! **Expressions are a crate of their own**, below `filter_parser`, since what reads commands needs only what the contract of `parse_expr` says: so
//! commands are checked, and a wrong body among them is tried, without the proofs of expressions. The rest of the tokens (`Input`) and the faults
//! stand here, those of whole texts too, since both crates read on from the one and answer the other. `filter_parser` re-exports the types of the
//! tree and the faults, so that code above names one crate; definitions and proofs name the crate in which a definition stands.
#![tactic(auto)]

mod expected;
mod expr;
mod expr_atom;
mod expr_level;
mod expr_make;
mod fault;
mod input;
mod range_reader;
mod set_reader;

pub use expected::Expected;
pub use expr::parse_expr;
pub use fault::{ParseFault, TEXT_LIMIT};
pub use input::{Input, LexedText};
pub use range_reader::parse_ranges_from;
