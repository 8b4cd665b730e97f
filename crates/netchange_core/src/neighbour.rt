//! A node as a neighbour.
//!
//! **A neighbour is a struct with public fields**, seen by `view_of`: a checkpoint reads them through `Tables::neighbour`, and a reader fills them
//! in. `Tables::restore` judges them, so the struct promises nothing by itself.

ghost use Rattle.std.specs.Prelude.{◌≡◌, IfOk, map, replicate};
ghost use Rattle.netchange_core.specs.Calls.{newcomer};
ghost use Rattle.netchange_core.specs.Kept.{view_of};
ghost use Rattle.netchange_core.specs.Next.{is_no_neighbour};

use crate::message::Message;
use crate::opening::Opening;
use filter_verifier::Verified;
use std::alloc::{AllocError, Global};
use std::collections::VecDeque;
use std::sync::Arc;

/// A node as a neighbour.
///
/// A contract sees it by `view_of`, as a `NeighbourView`.
#[derive(Drop)]
pub struct Neighbour {
    /// Its present session, if it is up.
    pub session: Option<u32>,
    /// The distance to each node that it advertised last in this session.
    pub advertised: Vec<u16>,
    /// The filter of what it tells.
    pub imports: Option<Arc<Verified>>,
    /// The filter of what it is told.
    pub exports: Option<Arc<Verified>>,
    /// The messages that wait to be sent to it, the oldest first.
    pub queue: VecDeque<Message>,
}

/// A neighbour that never was up.
fn make_newcomer(alloc: Global, opening: &Opening) -> Result<Neighbour, AllocError>
    ensures { IfOk result (λ n. view_of n ≡ newcomer opening.now) }
{
    let size = opening.size();
    Ok(Neighbour {
        session: None,
        advertised: vec![in alloc; size; usize::from(size)]?,
        imports: None,
        exports: None,
        queue: VecDeque::new(alloc),
    })
}

/// As many neighbours that never were up as there are nodes.
pub(crate) fn make_newcomers(alloc: Global, opening: &Opening) -> Result<Vec<Neighbour>, AllocError>
    ensures { IfOk result (λ ns. map view_of ns.items ≡ replicate opening.now.size (newcomer opening.now)) }
{
    let mut neighbours = Vec::with_capacity(alloc, usize::from(opening.size()))?;
    for _ in 0..opening.size() {
        neighbours.push(make_newcomer(alloc, opening)?)?;
    }
    Ok(neighbours)
}

/// Whether no neighbour has this number: it is the router's own, or no node's.
pub(crate) fn is_no_neighbour(opening: &Opening, node: u16) -> bool
    ensures { result ≡ is_no_neighbour opening.now node }
{
    opening.size() <= node || node == opening.me()
}
