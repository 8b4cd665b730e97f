//! The routes of a running router, for a program that installs them: a feed of lines, from which whoever reads it gathers where packets go.
//!
//! A feed is told in blocks, from a line `begin POSITION` to a line `end POSITION`, where POSITION is how many entries the router's history has. Between
//! them stand lines `route PREFIX via NODE metric D` and `unreachable PREFIX`. Who applies the lines of a block at its end has at any time the whole table of
//! the router, as it was after so many entries.
#![tactic(auto)]

mod fault;
mod feed;
mod hop;
mod laws;
mod lines;
mod look;
mod table;

pub use fault::FeedFault;
pub use feed::Feed;
pub use hop::Hop;
pub use laws::packets_go_to_the_nearest;
