//! The search through all routes of a domain: on which of them two codes differ, or a code does not end as expected, and which instructions
//! and conditions some route reaches. What is not found is proved not to be there.
#![tactic(auto)]

mod answer;
mod checking;
mod class;
mod comparison;
mod computing;
mod ending;
mod expectation;
mod exploring;
mod extent;
mod found;
mod joining;
mod judge;
mod laws;
mod mark;
mod ordering;
mod reaching;
mod route_part;
mod search;
mod slots;
mod symbol;
mod trials;
mod turn;

pub use answer::{Comparison, answer_of, count_undecided, has_difference};
pub use checking::{Counterexample, ExpectationResult, check_expectation};
pub use comparison::compare;
pub use ending::RunEnding;
pub use expectation::Expectation;
pub use joining::join_all;
pub use laws::parts_are_patterns;
pub use mark::{Mark, Reach};
pub use ordering::{Disorder, Order, check_order};
pub use reaching::reach;
pub use route_part::{PartFinding, RoutePart};
