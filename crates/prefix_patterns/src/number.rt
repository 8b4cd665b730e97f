//! Numbers in decimal digits.
//!
//! **`read_number` says what all numbers are.** Octets, prefix lengths, and the numbers of lines are decimal digits under the same rules (any
//! number of digits, leading zeros, no sign); only their limits differ. `leading_number` reads the usual spelling, of up to three digits, in one
//! pass, and gives the same.
//!
//! **An octet or a length may have leading zeros** (`010.0.0.0/08`), and is read as decimal. Numbers are read by value everywhere.

ghost use Rattle.std.specs.Char.{IsAsciiDigit};
ghost use Rattle.std.specs.Option.{SomeIff};
ghost use Rattle.std.specs.Prelude.{◌≡◌, ◌+◌, ◌-◌, ◌*◌, ◌≤◌};
ghost use Rattle.prefix_patterns.specs.Number.{IsNumber, decimal_value};
ghost use Rattle.prefix_patterns.specs.Reading.{number_in};

/// Reads a decimal number of at most `most` from a text that is ASCII digits and nothing else.
///
/// Leading zeros are allowed. None if the text is empty, has another byte, or writes a larger number.
pub fn read_number(text: &[u8], most: u32) -> Option<u32>
    ensures cases { SomeIff result (IsNumber most text.now) (decimal_value text.now) }
    ensures exact { result ≡ number_in most text.now }
{
    if text.is_empty() {
        return None;
    }
    let mut value = 0;
    for byte in text {
        value = with_digit(value, *byte, most)?;
    }
    Some(value)
}

/// The number followed by one more digit, if the byte is a digit and the result is at most `most`.
fn with_digit(value: u32, byte: u8, most: u32) -> Option<u32>
    ensures { SomeIff result (IsAsciiDigit byte × (value * 10 + (byte - 48) ≤ most)) (value * 10 + (byte - 48)) }
{
    if !byte.is_ascii_digit() {
        return None;
    }
    let longer = u64::from(value) * 10 + u64::from(byte - b'0');
    if longer > u64::from(most) {
        return None;
    }
    Some(longer as u32)
}
