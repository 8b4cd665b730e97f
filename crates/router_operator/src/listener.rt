//! Who is told of an operator's calls.

use crate::configuration::LinkChange;
use filter_verifier::Verified;
use operator_cmds::Direction;
use router_options::LinkFiles;
use router_status::Status;
use slot_lock::Answer;
use std::alloc::{AllocError, Global};
use std::rt::Clock;
use std::sync::{Arc, Wait};

/// Who is told of the answers to an operator's calls, so that they can wake those who have something to do now; and who knows what the router is
/// about beside its history.
///
/// A contract sees what a listener says of what it was told: it can be had only by telling it.
pub trait Listener {
    ghost use Rattle.std.specs.Prelude.{ℕ, Option, None, Some, ⊤};
    ghost use Rattle.slot_lock.specs.declared.answer.Answer.{Answer as Told};

    // That it was told of an answer, to a call that set the export filter of this node, if of any.
    ghost is_notified: { Option ℕ → Told → Type 0 } = { λ _ _. ⊤ };

    /// A call was answered.
    fn answered<R: Wait + Clock>(&self, rt: &R, answer: &Answer)
        ensures { is_notified None answer.now };

    /// A call that set the export filter of a node was answered. If the node is up, its queue has all distances again.
    fn exported<R: Wait + Clock>(&self, rt: &R, node: u16, answer: &Answer)
        ensures { is_notified (Some node) answer.now };

    /// The filter, which has this name for the operator, is the one of a node in a direction from now on.
    fn replaced<R: Wait + Clock>(
        &self,
        rt: &R,
        direction: Direction,
        node: u16,
        name: &[u8],
        filter: &Arc<Verified>,
    );

    /// What becomes of the links of the router where these are to be its links.
    fn compare_links<R: Wait + Clock>(
        &self,
        rt: &R,
        alloc: Global,
        links: &[LinkFiles],
    ) -> Result<Vec<LinkChange>, AllocError>;

    /// Changes links: opens those that are new, and closes those that are gone, in a domain that has this digest from now on.
    fn change_links<R: Wait + Clock>(&self, rt: &R, changes: Vec<LinkChange>, digest: [u8; 8]);

    /// What the router is about, but for what its history says.
    fn status<R: Wait + Clock>(&self, rt: &R, alloc: Global) -> Result<Status, AllocError>;
}
