//! The tree of a filter. Each part keeps its place: the number of bytes of the text before it.
//!
//! **Places in the tree are not part of what the grammar says**, since the meaning of a filter does not depend on them. A clause of its own,
//! `placed` of `parse`, says that each part keeps the place of its own token. That a text is refused is proved; with which code and place is
//! tested, in tables.
//!
//! **The tree keeps chains of operators and of suffixes as lists.** `a - b - c` is one node with two operators. So the depth of a tree, and with it
//! the stack that a walk needs, is bounded by the limit of nesting and not by the length of the text. Definitions speak of the binary tree that it
//! stands for. Two operands with one operator between them, as most are, are a node of their own: it takes one block of memory, where a list and
//! its first operand take two. So are the same in parentheses, which take one block and not two, and an attribute with one suffix, as `net.len`,
//! which takes none.
mod command;
mod decl;
mod expr;
mod filter;
mod mask_length;
mod name;
mod op;
mod set;

pub use command::{Command, Label, Target};
pub use decl::{Decl, Kind};
pub use expr::{Attribute, Expr};
pub use filter::Filter;
pub use mask_length::MaskLength;
pub use name::Name;
pub use op::{Membership, Op, Suffix};
pub use set::{Members, Set, SetPattern, SetRange};
