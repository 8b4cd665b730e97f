//! Changes of one neighbour.

ghost use Rattle.std.specs.Prelude.{◌≡◌, ℕ, ◌+◌, ◌≤◌, ◌<◌, ◌++◌, [], length, replicate, take, vec_capacity, vec_len};
ghost use Rattle.std.specs.VecDeque.{deque_len, deque_capacity};
ghost use Rattle.netchange_core.specs.Kept.{AreDestinations, FitsSize, filter_of, kept_distance, view_of};
ghost use Rattle.netchange_core.specs.Next.{advertising, dequeued, exporting, gone, importing, joined};
ghost use Rattle.netchange_core.specs.Room.{HasRoom};

use crate::destination::Destination;
use crate::message::Message;
use crate::neighbour::Neighbour;
use crate::opening::Opening;
use crate::telling::tell_everything;
use filter_verifier::Verified;
use std::sync::Arc;

/// Forgets all distances.
fn forget(advertised: &mut [u16], size: u16)
    ensures { advertised.new ≡ replicate (length advertised.old) size }
{
    advertised.fill(size);
}

/// A neighbour leaves: its session is over, what it advertised is forgotten, and its queue is dropped.
pub(crate) fn leave(opening: &Opening, neighbour: &mut Neighbour)
    requires { length neighbour.old.advertised.items ≡ opening.now.size }
    ensures { view_of neighbour.new ≡ gone opening.now (view_of neighbour.old) }
{
    neighbour.session = None;
    forget(neighbour.advertised.as_mut_slice(), opening.size());
    neighbour.queue.clear();
}

/// A neighbour advertises a distance to a node.
pub(crate) fn advertise(neighbour: &mut Neighbour, node: u16, dist: u16)
    requires { node < length neighbour.old.advertised.items }
    ensures view { view_of neighbour.new ≡ advertising node dist (view_of neighbour.old) }
    ensures room { (more : ℕ) → HasRoom more neighbour.old → HasRoom more neighbour.new }
{
    neighbour.advertised[usize::from(node)] = dist;
}

/// A neighbour's distances pass another filter.
pub(crate) fn import(neighbour: &mut Neighbour, filter: Arc<Verified>)
    ensures view { view_of neighbour.new ≡ importing filter.value (view_of neighbour.old) }
    ensures room { (more : ℕ) → HasRoom more neighbour.old → HasRoom more neighbour.new }
{
    neighbour.imports = Some(filter);
}

/// A neighbour joins in a session: it told nothing yet, and is told all distances.
pub(crate) fn join(
    opening: &Opening,
    neighbour: &mut Neighbour,
    destinations: &[Destination],
    session: u32,
)
    requires advertised { length neighbour.old.advertised.items ≡ opening.now.size }
    requires exports { FitsSize opening.now.size (filter_of neighbour.old.exports) }
    requires destinations { AreDestinations opening.now destinations.now }
    requires room { deque_len neighbour.old.queue + opening.now.size ≤ deque_capacity neighbour.old.queue }
    ensures { view_of neighbour.new ≡ joined opening.now (kept_distance destinations.now) session (view_of neighbour.old) }
{
    neighbour.session = Some(session);
    forget(neighbour.advertised.as_mut_slice(), opening.size());
    neighbour.queue.clear();
    tell_everything(opening, neighbour, destinations);
}

/// What a neighbour is told passes another filter. If it is up, it is told all distances again.
pub(crate) fn export(
    opening: &Opening,
    neighbour: &mut Neighbour,
    destinations: &[Destination],
    filter: Arc<Verified>,
)
    requires size { filter.value.size ≡ opening.now.size }
    requires destinations { AreDestinations opening.now destinations.now }
    requires room { HasRoom opening.now.size neighbour.old }
    ensures { view_of neighbour.new ≡ exporting opening.now (kept_distance destinations.now) filter.value (view_of neighbour.old) }
{
    neighbour.exports = Some(filter);
    if neighbour.session.is_some() {
        tell_everything(opening, neighbour, destinations);
    }
}

/// Adds messages to a vector with room for them.
fn append(items: &mut Vec<Message>, more: &[Message])
    requires { vec_len items.old + length more.now ≤ vec_capacity items.old }
    ensures items { items.new.items ≡ items.old.items ++ more.now }
    ensures len { vec_len items.new ≡ vec_len items.old + length more.now }
    ensures capacity { vec_capacity items.old ≤ vec_capacity items.new }
{
    let Ok(()) = items.extend_from_slice(more) else {
        unreachable!()
    };
}

/// All messages leave a neighbour's queue, into a vector with room for them.
fn dequeue_all(neighbour: &mut Neighbour, items: &mut Vec<Message>)
    requires empty { items.old.items ≡ [] }
    requires room { deque_len neighbour.old.queue ≤ vec_capacity items.old }
    ensures view { view_of neighbour.new ≡ dequeued (deque_len neighbour.old.queue) (view_of neighbour.old) }
    ensures items { items.new.items ≡ neighbour.old.queue.items }
{
    let (first, second) = neighbour.queue.as_slices();
    append(items, first);
    if !second.is_empty() {
        append(items, second);
    }
    neighbour.queue.clear();
}

/// The first messages leave a neighbour's queue, into a vector with room for them.
pub(crate) fn dequeue(neighbour: &mut Neighbour, items: &mut Vec<Message>, count: usize)
    requires count { count ≤ length neighbour.old.queue.items }
    requires empty { items.old.items ≡ [] }
    requires room { count ≤ vec_capacity items.old }
    ensures view { view_of neighbour.new ≡ dequeued count (view_of neighbour.old) }
    ensures items { items.new.items ≡ take count neighbour.old.queue.items }
{
    if count == neighbour.queue.len() {
        dequeue_all(neighbour, items);
        return;
    }
    for _ in 0..count {
        if let Some(message) = neighbour.queue.pop_front() {
            items.push_reserved(message);
        }
    }
}
