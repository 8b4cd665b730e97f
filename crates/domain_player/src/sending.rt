//! Routers send what waits for their neighbours.

ghost use Rattle.std.specs.Prelude.{◌≡◌, ℕ, ◌<◌, ◌≤◌, All, OnOk, [], length, true};
ghost use Rattle.filter_code.specs.Limits.{largest_size};
ghost use Rattle.netchange_core.specs.World.{neighbour_at};
ghost use Rattle.routing_domain.specs.Domain.{IsInOrder, IsSound, are_linked, neighbour};
ghost use Rattle.routing_domain.specs.Steps.{sends};
ghost use Rattle.domain_player.specs.Play.{AreSent, IsBetween, domain_of, router_at};

use crate::sent::Sent;
use netchange_core::{Event, Reply, Tables};
use std::alloc::AllocError;

/// How many messages wait at a node for another.
fn waiting(tables: &[Tables], from: u16, to: u16) -> usize
    requires from { from < length tables.now }
    requires to { to < length tables.now }
    requires sound { IsSound (length tables.now) (router_at tables.now from) }
    ensures { result ≡ length (neighbour_at (router_at tables.now from).neighbours to).queue }
{
    let router = &tables[usize::from(from)];
    match router.present_session(to) {
        Some(session) => router.queued(session),
        None => 0,
    }
}

/// A node sends what waits for a neighbour, at most 65,535 messages.
fn send_some(
    tables: &mut [Tables],
    sents: &mut Vec<Sent>,
    from: u16,
    to: u16,
) -> Result<(), AllocError>
    requires from { from < length tables.old }
    requires to { to < length tables.old }
    requires order { IsInOrder (domain_of tables.old sents.old.items) }
    requires linked { are_linked (domain_of tables.old sents.old.items) from to ≡ true }
    ensures sent { OnOk result (domain_of tables.new sents.new.items ≡ sends (domain_of tables.old sents.old.items) from to 65535) }
    ensures between { OnOk result (All (IsBetween (length tables.old)) sents.old.items → All (IsBetween (length tables.old)) sents.new.items) }
{
    let router = &mut tables[usize::from(from)];
    let Some(session) = router.present_session(to) else {
        unreachable!()
    };
    let Reply::Messages(messages) = router.apply(&Event::Take(session, u16::MAX))? else {
        unreachable!()
    };
    for message in messages.as_slice() {
        sents.push(Sent {
            from,
            to,
            message: *message,
        })?;
    }
    Ok(())
}

/// A node sends all that waits for another.
fn send_to(
    tables: &mut [Tables],
    sents: &mut Vec<Sent>,
    from: u16,
    to: u16,
) -> Result<(), AllocError>
    requires from { from < length tables.old }
    requires to { to < length tables.old }
    requires order { IsInOrder (domain_of tables.old sents.old.items) }
    requires between { All (IsBetween (length tables.old)) sents.old.items }
    ensures sent { OnOk result (AreSent (domain_of tables.old sents.old.items) (domain_of tables.new sents.new.items)) }
    ensures between { OnOk result (All (IsBetween (length tables.old)) sents.new.items) }
    ensures all { OnOk result ((neighbour (domain_of tables.new sents.new.items) from to).queue ≡ []) }
{
    'sending: while 0 < waiting(tables, from, to) {
        send_some(tables, sents, from, to)?;
    }
    Ok(())
}

/// A node sends all that waits for its neighbours, in the order of their numbers.
fn send_from(tables: &mut [Tables], sents: &mut Vec<Sent>, from: u16) -> Result<(), AllocError>
    requires from { from < length tables.old }
    requires most { length tables.old ≤ largest_size }
    requires order { IsInOrder (domain_of tables.old sents.old.items) }
    requires between { All (IsBetween (length tables.old)) sents.old.items }
    ensures sent { OnOk result (AreSent (domain_of tables.old sents.old.items) (domain_of tables.new sents.new.items)) }
    ensures between { OnOk result (All (IsBetween (length tables.old)) sents.new.items) }
    ensures all { OnOk result ((w : ℕ) → w < length tables.old → (neighbour (domain_of tables.new sents.new.items) from w).queue ≡ []) }
{
    for to in 0..tables.len() as u16 {
        send_to(tables, sents, from, to)?;
    }
    Ok(())
}

/// All nodes send all that waits for their neighbours, in the order of their numbers.
pub(crate) fn send_all(tables: &mut [Tables], sents: &mut Vec<Sent>) -> Result<(), AllocError>
    requires most { length tables.old ≤ largest_size }
    requires order { IsInOrder (domain_of tables.old sents.old.items) }
    requires between { All (IsBetween (length tables.old)) sents.old.items }
    ensures sent { OnOk result (AreSent (domain_of tables.old sents.old.items) (domain_of tables.new sents.new.items)) }
    ensures between { OnOk result (All (IsBetween (length tables.old)) sents.new.items) }
    ensures all { OnOk result ((u w : ℕ) → u < length tables.old → w < length tables.old →
        (neighbour (domain_of tables.new sents.new.items) u w).queue ≡ []) }
{
    for from in 0..tables.len() as u16 {
        send_from(tables, sents, from)?;
    }
    Ok(())
}
