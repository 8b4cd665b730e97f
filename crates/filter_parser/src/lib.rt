//! The parser of filters: a filter's text becomes a tree if and only if the grammar has one.
#![tactic(auto)]

mod case_label;
mod command;
mod decl;
mod filter;
mod head;
mod parts;
mod text;
mod unparsed;

pub use expression_parser::{Expected, ParseFault, TEXT_LIMIT};
pub use filter_syntax::{
    Around, Attribute, Command, Decl, Expr, Filter, Kind, Label, MaskLength, Members, Membership,
    Name, Names, Op, Set, SetPattern, SetRange, Suffix, Target, VARIABLE_LIMIT,
};
pub use text::{parse, parse_explained};
pub use unparsed::Unparsed;
