//! Room in the queues, made before anything is changed.
//!
//! **Down and SetImport make room for N messages in the queue of each up neighbour**, though fewer distances may change. How many change is known
//! only when the routes are computed, and to count them first would compute each of them twice. A queue keeps the room that it has, so this costs
//! memory once, and later events find it.

ghost use Rattle.std.specs.Prelude.{◌≡◌, ◌≢◌, ◌+◌, ◌≤◌, OnOk, map};
ghost use Rattle.std.specs.VecDeque.{deque_len, deque_capacity};
ghost use Rattle.netchange_core.specs.Kept.{view_of};
ghost use Rattle.netchange_core.specs.Present.{AreListed, sessions_of};
ghost use Rattle.netchange_core.specs.Room.{HasRoom, HaveRoom};

use crate::neighbour::Neighbour;
use crate::sessions::Present;
use std::alloc::AllocError;

/// Makes room for so many more messages to a neighbour. Mostly there is room, which is seen without a call.
#[inline(always)]
pub(crate) fn reserve(neighbour: &mut Neighbour, more: usize) -> Result<(), AllocError>
    ensures same { view_of neighbour.new ≡ view_of neighbour.old }
    ensures room { OnOk result (deque_len neighbour.new.queue + more ≤ deque_capacity neighbour.new.queue) }
{
    if more <= neighbour.queue.capacity() - neighbour.queue.len() {
        return Ok(());
    }
    neighbour.queue.reserve(more)
}

/// Makes room for so many more messages to a neighbour, if it is up.
pub(crate) fn make_room_for(neighbour: &mut Neighbour, more: usize) -> Result<(), AllocError>
    ensures same { view_of neighbour.new ≡ view_of neighbour.old }
    ensures room { OnOk result (HasRoom more neighbour.new) }
{
    if neighbour.session.is_none() {
        return Ok(());
    }
    reserve(neighbour, more)
}

/// Makes room for so many more messages to each up neighbour.
#[inline(never)]
pub(crate) fn make_room(
    present: &[Present],
    neighbours: &mut [Neighbour],
    more: usize,
) -> Result<(), AllocError>
    requires listed { AreListed (sessions_of (map view_of neighbours.old)) present.now }
    ensures same { map view_of neighbours.new ≡ map view_of neighbours.old }
    ensures room { OnOk result (HaveRoom more neighbours.new) }
{
    for session in present {
        reserve(&mut neighbours[usize::from(session.node)], more)?;
    }
    Ok(())
}

/// Makes room for one more message to each up neighbour, where two distances differ.
#[inline(always)]
pub(crate) fn make_room_if_differs(
    present: &[Present],
    neighbours: &mut [Neighbour],
    old: u16,
    new: u16,
) -> Result<(), AllocError>
    requires listed { AreListed (sessions_of (map view_of neighbours.old)) present.now }
    ensures same { map view_of neighbours.new ≡ map view_of neighbours.old }
    ensures room { OnOk result (old ≢ new → HaveRoom 1 neighbours.new) }
{
    if old == new {
        return Ok(());
    }
    make_room(present, neighbours, 1)
}
