//! What a router is run with, and what it comes to.

use filter_verifier::Verified;
use history_saver::{SegmentFolder, SegmentSaver};
use router_options::RouterPlan;
use std::collections::BTreeMap;
use std::sync::Arc;

/// The verified filters of a router, by name.
pub type VerifiedFilters = BTreeMap<Vec<u8>, Arc<Verified>>;

/// What a router is run with.
#[derive(Drop)]
pub struct Setting<F: SegmentFolder> {
    /// What it was told.
    pub plan: RouterPlan,
    /// Its filters.
    pub filters: VerifiedFilters,
    /// Where its history is saved, in segments.
    pub save: Option<F>,
}

/// What a router came to that was run to its end.
#[derive(Drop)]
pub struct RouterEnd<F: SegmentFolder> {
    /// How many of the operator's lines were refused.
    pub refused: u32,
    /// Where its history is saved, whole.
    pub saved: Option<SegmentSaver<F>>,
}
