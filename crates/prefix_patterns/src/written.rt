//! Prefixes as texts write them.
ghost use Rattle.std.specs.Prelude.{◌≡◌, ◌≤◌};
ghost use Rattle.prefix_patterns.specs.Bits.{address_length};
ghost use Rattle.prefix_patterns.specs.Written as spec;

use crate::address::Ip;
use crate::prefix::Prefix;

/// A prefix as a text writes it.
#[derive(Clone, Copy)]
pub struct WrittenPrefix {
    /// What it is read as. Bits past the length are cleared.
    pub prefix: Prefix,
    /// Whether the address before the slash has a bit past the length: a host bit.
    pub has_host_bits: bool,
}

impl WrittenPrefix {
    /// That of an address before a slash, and a length behind it.
    #[inline(always)]
    pub(crate) fn new(address: Ip, len: u8) -> WrittenPrefix
        requires { len ≤ address_length }
        ensures { result ≡ spec.written_as address.0 len }
    {
        let prefix = Prefix::masked(address, len);
        WrittenPrefix {
            prefix,
            has_host_bits: address.0 != prefix.address().0,
        }
    }
}
