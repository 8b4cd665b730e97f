//! A router's history is saved while it is made: what is new of it is read while nobody can change it, and written as text.
//!
//! It is saved in segments: each is the state after so many entries, and then a line for each entry, once and in order, up to where the next one
//! begins.
#![tactic(auto)]

mod fault;
mod files;
mod folder;
mod laws;
mod portion;
mod reading;
mod segments;

pub use fault::SaveFault;
pub use files::SegmentFiles;
pub use folder::{FolderSize, SegmentFolder};
pub use laws::segments_tell_the_history;
pub use reading::MOST_AT_ONCE;
pub use segments::{Rotation, SegmentSaver};
