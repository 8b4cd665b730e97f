/// The number of bits of an address, and so the greatest length of a prefix.
pub const ADDRESS_LENGTH: u8 = 32;

/// An IPv4 address: its 32 bits as a number, the first group in the highest byte.
#[derive(Clone, Copy, PartialEq, Eq)]
pub struct Ip(pub u32);
