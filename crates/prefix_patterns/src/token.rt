ghost use Rattle.std.specs.Prelude.{◌≡◌, ◌==◌, ◌<◌, ℕ, Bool, List, IfSome, length, position};
ghost use Rattle.std.specs.Option.{IsSomeAnd, option_map};
ghost use Rattle.prefix_patterns.specs.Reading.{number_in, parts_at, groups_in, address_in, prefix_in, written_in};
ghost use Rattle.prefix_patterns.specs.Token.{IsAddress, IsPrefix};
ghost use Rattle.prefix_patterns.specs.Written.{IsWrittenPrefix};
ghost use Rattle.prefix_patterns.specs.declared.written.WrittenPrefix.{WrittenPrefix as TheWritten};

use crate::address::{ADDRESS_LENGTH, Ip};
use crate::number::read_number;
use crate::prefix::Prefix;
use crate::written::WrittenPrefix;

/// Reads a text that is exactly one prefix, such as `10.0.0.0/8`. Bits past the length are cleared.
#[tactic(auto, unfolding(crate::specs::Reading::prefix_in))]
pub fn read_prefix(text: &[u8]) -> Option<Prefix>
    // What is read is what the text writes.
    ensures found { IfSome result (λ prefix. IsPrefix text.now prefix) }
    // A text that writes a prefix is read as that prefix.
    ensures only { (bits : List Bool) → IsPrefix text.now bits → result ≡ Some bits }
    ensures exact { result ≡ prefix_in text.now }
{
    match read_written(text) {
        Some(written) => Some(written.prefix),
        None => None,
    }
}

/// The same, and whether the address is written with bits past the length.
#[tactic(auto, unfolding(crate::specs::Reading::written_in))]
pub fn read_written(text: &[u8]) -> Option<WrittenPrefix>
    ensures found { IfSome result (IsWrittenPrefix text.now) }
    ensures only { (written : TheWritten) → IsWrittenPrefix text.now written → result ≡ Some written }
    ensures exact { result ≡ written_in text.now }
{
    let (address, len) = cut_at(text, b'/')?;
    let address = read_ip(address)?;
    let len = read_number(len, u32::from(ADDRESS_LENGTH))?;
    Some(WrittenPrefix::new(address, len as u8))
}

/// Reads a text that is exactly one address, such as `10.0.0.1`.
#[tactic(auto, unfolding(crate::specs::Reading::address_in))]
pub fn read_ip(text: &[u8]) -> Option<Ip>
    // What is read is what the text writes.
    ensures found { IfSome result (λ ip. IsAddress text.now ip.0) }
    // A text that writes an address is read as that address.
    ensures only { (address : ℕ) → IsAddress text.now address → IsSomeAnd result (λ ip. ip.0 ≡ address) }
    ensures exact { address_in text.now ≡ option_map (λ ip. ip.0) result }
{
    let groups = read_groups(text)?;
    Some(Ip(u32::from_be_bytes(groups)))
}

/// Reads the four groups of an address, the first one first.
#[tactic(auto, unfolding(crate::specs::Reading::groups_in))]
fn read_groups(text: &[u8]) -> Option<[u8; 4]>
    ensures { groups_in text.now ≡ result }
{
    let (first, rest) = cut_at(text, b'.')?;
    let (second, rest) = cut_at(rest, b'.')?;
    let (third, fourth) = cut_at(rest, b'.')?;
    let first = read_group(first)?;
    let second = read_group(second)?;
    let third = read_group(third)?;
    let fourth = read_group(fourth)?;
    Some([first, second, third, fourth])
}

/// Reads one group of an address.
fn read_group(text: &[u8]) -> Option<u8>
    ensures { number_in 255 text.now ≡ result }
{
    let value = read_number(text, 255)?;
    Some(value as u8)
}

/// The bytes before the first separator, and the bytes after it.
#[tactic(auto, using(std::proofs::lemmas::List::take_rest), unfolding(crate::specs::Reading::parts_at))]
pub fn cut_at(text: &[u8], separator: u8) -> Option<(&[u8], &[u8])>
    ensures { parts_at separator text.now ≡ option_map (λ parts. (parts.0.now, parts.1.now)) result }
{
    let at = find(text, separator)?;
    Some((&text[..at], &text[at + 1..]))
}

/// The index of the first separator.
fn find(text: &[u8], separator: u8) -> Option<usize>
    ensures at { result ≡ position (λ byte. byte == separator) text.now }
    ensures within { IfSome result (λ at. at < length text.now) }
{
    text.iter().position(|byte| *byte == separator)
}
