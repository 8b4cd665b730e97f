//! The prefixes of a domain that nobody set.
ghost use Rattle.std.specs.Prelude.{◌≡◌, ◌<◌, ◌≤◌, ◌+◌, ◌*◌, ◌^◌, IfOk};
ghost use Rattle.prefix_patterns.specs.Bits.{prefix_bits};
ghost use Rattle.netchange_core.specs.Openings as spec;

use prefix_patterns::{Ip, Prefix};
use std::alloc::{AllocError, Global};

/// The address from which the default prefixes are counted, 10.0.0.0.
const FIRST_ADDRESS: u32 = 0x0a00_0000;

/// The bits of a default prefix.
const PREFIX_LENGTH: u8 = 16;

/// The prefix of a node that nobody set: 10.V.0.0/16 for node V.
fn default_prefix(node: u16) -> Prefix
    requires { node < 256 }
    ensures { result ≡ spec.default_prefix node }
{
    Prefix::new(
        Ip(FIRST_ADDRESS + (u32::from(node) << PREFIX_LENGTH)),
        PREFIX_LENGTH,
    )
    .unwrap()
}

/// The prefixes of the nodes of a domain that nobody set.
#[tactic(auto, unfolding(crate::specs::Openings::default_prefixes))]
pub fn default_prefixes(alloc: Global, size: u16) -> Result<Vec<Prefix>, AllocError>
    requires { size ≤ 256 }
    ensures { IfOk result (λ all. all.items ≡ spec.default_prefixes size) }
{
    let mut all = Vec::with_capacity(alloc, usize::from(size))?;
    for node in 0..size {
        all.push(default_prefix(node))?;
    }
    Ok(all)
}
