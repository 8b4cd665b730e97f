//! The verifier: an abstract interpretation of filter code, in one forward sweep.
//!
//! Code that it accepts never faults, on any route in a domain of the size that it was verified for.
#![tactic(auto)]

mod abstract_frame;
mod bounds;
mod fact;
mod fault;
mod in_state;
mod laws;
mod literals;
mod out_state;
mod range;
mod successors;
mod survey;
mod sweep;
mod transfer;
mod verified;

pub use abstract_frame::AbstractFrame;
pub use fact::Fact;
pub use fault::{Unverified, VerifyFault};
pub use in_state::InState;
pub use laws::bounds_follow_the_successors;
pub use range::Range;
pub use survey::{RunBounds, Survey, survey_code};
pub use verified::{Verified, verify, verify_or_tell};
