//! Filters of routers.

ghost use Rattle.std.specs.Prelude.{◌≡◌, ◌<◌, [], OnErr, OnOk, length};
ghost use Rattle.routing_domain.specs.Events.{enters};
ghost use Rattle.domain_player.specs.Play.{domain_of};

use netchange_core::{Event, Tables};
use std::alloc::AllocError;

/// A router enters an event. After an error nothing is changed.
pub(crate) fn enter(tables: &mut [Tables], node: u16, event: &Event) -> Result<(), AllocError>
    requires { node < length tables.old }
    ensures entered { OnOk result (domain_of tables.new [] ≡ enters (domain_of tables.old []) node event.now) }
    ensures same { OnErr result (tables.new ≡ tables.old) }
{
    tables[usize::from(node)].apply(event)?;
    Ok(())
}
