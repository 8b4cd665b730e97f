//! The sessions of a router.
//!
//! **The present sessions are a list in the order of their numbers**, each with its node. Numbers only grow, so Up puts a session at the end, and a
//! binary search finds it: `queued` takes at most eight comparisons too. A hash map would take one look, and an allocation of its own.
//!
//! **The session of a node is an `Option`**, in the code and in the definition, and that a number is 1 or more is a fact of that list.

ghost use Rattle.std.specs.Prelude.{◌≡◌, ◌≢◌, ℕ, ◌<◌, ◌≤◌, ◌^◌, All, IfNone, IfOk, IfSome, List, Option, Some, None, length};
ghost use Rattle.std.specs.Prelude.{map, position, slice_set};
ghost use Rattle.std.specs.List.{HoldsAt};
ghost use Rattle.netchange_core.specs.Consistent.{AreSessions};
ghost use Rattle.netchange_core.specs.Kept.{view_of};
ghost use Rattle.netchange_core.specs.Present.{ArePresent, AreRising, Inserts, present, session_in, sessions_of};
ghost use Rattle.netchange_core.specs.World.{NeighbourView, has_session};

use crate::neighbour::Neighbour;
use std::alloc::{AllocError, Global};

/// A present session.
#[derive(Clone, Copy)]
pub(crate) struct Present {
    /// Its number, 1 or more.
    pub(crate) session: u32,
    /// The node that is up in it.
    pub(crate) node: u16,
}

/// The sessions of a router.
#[derive(Drop)]
pub(crate) struct Sessions {
    /// How many there were so far.
    pub(crate) count: u32,
    /// The present ones, in the order of their numbers. Numbers only grow, so a new one goes to the end.
    pub(crate) present: Vec<Present>,
}

/// The index of a session among the present ones, wherever it is.
#[inline(always)]
fn search(present: &[Present], session: u32) -> Option<usize>
    requires { AreRising present.now }
    ensures found { IfSome result (λ i. (i < length present.now) × HoldsAt (λ p. p.session ≡ session) present.now i) }
    ensures absent { IfNone result (All (λ p. p.session ≢ session) present.now) }
{
    present.binary_search_by_key(&session, |p| p.session).ok()
}

/// The index of a session among the present ones. While no session is over, it stands where its number says.
#[inline(always)]
fn find(present: &[Present], session: u32) -> Option<usize>
    requires { AreRising present.now }
    ensures found { IfSome result (λ i. (i < length present.now) × HoldsAt (λ p. p.session ≡ session) present.now i) }
    ensures absent { IfNone result (All (λ p. p.session ≢ session) present.now) }
{
    let first = (session as usize).saturating_sub(1);
    if first < present.len() && present[first].session == session {
        return Some(first);
    }
    search(present, session)
}

/// The up neighbour whose present session this is.
#[inline(always)]
pub(crate) fn holder(sessions: &Sessions, session: u32) -> Option<usize>
    requires { AreRising sessions.now.present.items }
    ensures { (ns : List NeighbourView) → ArePresent sessions.now.count (sessions_of ns) sessions.now.present.items →
        result ≡ position (has_session session) ns }
{
    let index = find(&sessions.present, session)?;
    Some(usize::from(sessions.present[index].node))
}

/// The session of a node is over.
pub(crate) fn close(present: &mut Vec<Present>, session: u32)
    requires { AreRising present.old.items }
    ensures { (count node : ℕ) (sessions : List (Option ℕ)) → session_in sessions node ≡ Some session →
        ArePresent count sessions present.old.items → ArePresent count (slice_set sessions node None) present.new.items }
{
    if let Some(index) = find(present, session) {
        present.remove(index);
    }
}

/// Inserts a session among others, in the order of their numbers. Answers whether its number is a new one.
fn insert(others: &mut Vec<Present>, session: u32, node: u16) -> Result<bool, AllocError>
    requires { AreRising others.old.items }
    ensures { IfOk result (Inserts (present session node) others.old.items others.new.items) }
{
    match others.binary_search_by_key(&session, |p| p.session) {
        Ok(_) => Ok(false),
        Err(at) => {
            others.insert(at, Present { session, node })?;
            Ok(true)
        }
    }
}

/// The present sessions of the neighbours, of so many that were opened. None exactly where one was not opened, or two neighbours have the same one.
pub(crate) fn list_present(
    alloc: Global,
    count: u32,
    neighbours: &[Neighbour],
) -> Result<Option<Vec<Present>>, AllocError>
    requires { length neighbours.now ≤ 2 ^ 16 }
    ensures some { IfOk result (λ o. IfSome o (λ ps. ArePresent count (sessions_of (map view_of neighbours.now)) ps.items)) }
    ensures none { IfOk result (λ o. IfNone o (AreSessions count (sessions_of (map view_of neighbours.now)) → ⊥)) }
{
    let mut present = Vec::with_capacity(alloc, neighbours.len())?;
    for node in 0..neighbours.len() {
        if let Some(session) = neighbours[node].session {
            if session == 0 || count < session {
                return Ok(None);
            }
            if !insert(&mut present, session, node as u16)? {
                return Ok(None);
            }
        }
    }
    Ok(Some(present))
}
