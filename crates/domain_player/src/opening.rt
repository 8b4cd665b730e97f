//! Routers that are just opened.

ghost use Rattle.std.specs.Prelude.{◌≤◌, IfOk, length};
ghost use Rattle.filter_code.specs.Limits.{smallest_size, largest_size};
ghost use Rattle.domain_player.specs.Play.{AreOpened};

use netchange_core::{Opening, Tables};
use prefix_patterns::Prefix;
use std::alloc::{AllocError, Global};

/// The tables of each node's router, by number, without links.
pub(crate) fn open_tables(alloc: Global, prefixes: &[Prefix]) -> Result<Vec<Tables>, AllocError>
    requires least { smallest_size ≤ length prefixes.now }
    requires most { length prefixes.now ≤ largest_size }
    ensures { IfOk result (λ ts. AreOpened prefixes.now (length prefixes.now) ts.items) }
{
    let size = prefixes.len() as u16;
    let mut tables = Vec::with_capacity(alloc, prefixes.len())?;
    for me in 0..size {
        let Some(opening) = Opening::new(size, me, Vec::from_slice(alloc, prefixes)?) else {
            unreachable!()
        };
        tables.push(Tables::open(alloc, opening)?)?;
    }
    Ok(tables)
}
