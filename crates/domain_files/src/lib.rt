//! The file of a whole domain, as what each of its routers is started with.
//!
//! **The file is a script of `ncroute domain`.** Each line is answered as there, by the same code, and none may be refused: so what was computed from
//! the file is what its routers run. What the script asks is passed over, since it changes nothing but that prefixes stay.
//!
//! **A name is given to one filter.** A router knows its filters by their names, and so would not know which of two a use meant. So a script that
//! gives a name twice is no such file.
//!
//! **A line `include NAME FILE` is a line `code NAME HEX`** of the filter in that file, by which it is replaced before the file is read. So nothing
//! but the reading of files knows of it, and the script without it is one that `ncroute domain` takes from anywhere.
//!
//! **The digest is taken of a text that tells the whole plan**, and not of the file: other names, comments, questions and another order of links are
//! the same domain.
#![tactic(auto)]

mod digest;
mod file;
mod include;
mod laws;
mod node;
mod reading;
mod text;

pub use digest::domain_digest;
pub use file::{DomainFile, WrongFile, WrongLine};
pub use include::{Include, include_in};
pub use laws::{filters_are_those_of_names, questions_change_no_plan};
pub use node::{FilterAt, NodeFile};
pub use reading::read_domain;
