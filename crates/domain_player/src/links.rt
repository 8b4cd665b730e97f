//! Links between routers.

ghost use Rattle.std.specs.Prelude.{◌≡◌, ◌≢◌, ◌<◌, ◌⊎◌, OnOk, [], false, length, true};
ghost use Rattle.netchange_core.specs.Calls.{session_of};
ghost use Rattle.netchange_core.specs.Next.{is_no_neighbour, last_session, next};
ghost use Rattle.netchange_core.specs.World.{is_up, neighbour_at};
ghost use Rattle.netchange_core.specs.declared.event.Event.TheVariants as event;
ghost use Rattle.routing_domain.specs.Domain.{IsInOrder, are_linked};
ghost use Rattle.routing_domain.specs.Events.{CanLink, cuts, in_session, links};
ghost use Rattle.domain_player.specs.Play.{domain_of, router_at};

use crate::fault::LinkingFault;
use netchange_core::{Event, Reply, Tables};
use std::alloc::AllocError;

/// The channel to a node that is down is there.
fn enter_up(router: &mut Tables, node: u16) -> Result<(), LinkingFault>
    requires neighbour { is_no_neighbour router.old.opening node ≡ false }
    requires down { is_up (neighbour_at router.old.neighbours node) ≡ false }
    ensures up { OnOk result (router.new ≡ (next router.old (event.Up node)).world) }
    ensures left { OnOk result (router.old.sessions ≢ last_session) }
    ensures spent { result ≡ Err LinkingFault.NoSession → router.old.sessions ≡ last_session }
{
    match router.apply(&Event::Up(node)) {
        Ok(Reply::Opened(_)) => Ok(()),
        Ok(_) => Err(LinkingFault::NoSession),
        Err(_) => Err(LinkingFault::Memory),
    }
}

/// The channel to an up neighbour failed.
fn enter_down(router: &mut Tables, node: u16) -> Result<(), AllocError>
    ensures { OnOk result (router.new ≡ in_session router.old (session_of router.old node) (λ s. event.Down s)) }
{
    if let Some(session) = router.present_session(node) {
        router.apply(&Event::Down(session))?;
    }
    Ok(())
}

/// The first node enters that the channel to the second is there, then the second that the one to the first is.
pub(crate) fn link_both(tables: &mut [Tables], u: u16, w: u16) -> Result<(), LinkingFault>
    requires from { u < length tables.old }
    requires to { w < length tables.old }
    requires apart { u ≢ w }
    requires order { IsInOrder (domain_of tables.old []) }
    requires unlinked { are_linked (domain_of tables.old []) u w ≡ false }
    ensures linked { OnOk result (domain_of tables.new [] ≡ links (domain_of tables.old []) u w) }
    ensures left { OnOk result (CanLink (domain_of tables.old []) u w) }
    ensures spent { result ≡ Err LinkingFault.NoSession →
        ((router_at tables.old u).sessions ≡ last_session) ⊎ ((router_at tables.old w).sessions ≡ last_session) }
{
    enter_up(&mut tables[usize::from(u)], w)?;
    enter_up(&mut tables[usize::from(w)], u)
}

/// The first node enters that the channel to the second failed, then the second that the one to the first did.
pub(crate) fn cut_both(tables: &mut [Tables], u: u16, w: u16) -> Result<(), AllocError>
    requires from { u < length tables.old }
    requires to { w < length tables.old }
    requires order { IsInOrder (domain_of tables.old []) }
    requires linked { are_linked (domain_of tables.old []) u w ≡ true }
    ensures { OnOk result (domain_of tables.new [] ≡ cuts (domain_of tables.old []) u w) }
{
    enter_down(&mut tables[usize::from(u)], w)?;
    enter_down(&mut tables[usize::from(w)], u)
}
