//! Routers receive what is on its way to them.

ghost use Rattle.std.specs.Prelude.{◌≡◌, ◌<◌, All, OnOk, [], length};
ghost use Rattle.netchange_core.specs.Calls.{session_of};
ghost use Rattle.netchange_core.specs.declared.event.Event.TheVariants as event;
ghost use Rattle.routing_domain.specs.Domain.{IsInOrder};
ghost use Rattle.routing_domain.specs.Events.{in_session};
ghost use Rattle.domain_player.specs.Play.{IsBetween, IsPlayed, domain_of};

use crate::sent::Sent;
use netchange_core::{Event, Tables};
use std::alloc::AllocError;

/// A router receives a message, in the present session of the node that sent it.
fn receive(router: &mut Tables, sent: Sent) -> Result<(), AllocError>
    ensures { OnOk result (router.new ≡ in_session router.old (session_of router.old sent.from)
        (λ s. event.Receive s sent.message.dest sent.message.dist)) }
{
    if let Some(session) = router.present_session(sent.from) {
        let message = sent.message;
        router.apply(&Event::Receive(session, message.dest, message.dist))?;
    }
    Ok(())
}

/// The nodes receive the messages that are on their way, in this order.
pub(crate) fn receive_all(tables: &mut [Tables], sents: &[Sent]) -> Result<(), AllocError>
    requires order { IsInOrder (domain_of tables.old sents.now) }
    requires between { All (IsBetween (length tables.old)) sents.now }
    ensures { OnOk result (IsPlayed (domain_of tables.old sents.now) (domain_of tables.new []) (length sents.now)) }
{
    for sent in sents {
        receive(&mut tables[usize::from(sent.to)], *sent)?;
    }
    Ok(())
}
