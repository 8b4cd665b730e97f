//! Numbers that may be larger than those of most commands.
ghost use Rattle.std.specs.Char.{IsAsciiDigit};
ghost use Rattle.std.specs.Option.{SomeIff};
ghost use Rattle.std.specs.Prelude.{◌≡◌, ◌+◌, ◌-◌, ◌*◌, ◌≤◌};
ghost use Rattle.prefix_patterns.specs.Reading.{number_in};

/// Reads a decimal number of at most `most`, as `prefix_patterns::read_number` reads one of 32 bits.
pub fn read_long(text: &[u8], most: u64) -> Option<u64>
    ensures { result ≡ number_in most text.now }
{
    if text.is_empty() {
        return None;
    }
    let mut value = 0;
    for byte in text {
        value = with_digit(value, *byte, most)?;
    }
    Some(value)
}

/// The number followed by one more digit, if the byte is a digit and the result is at most `most`.
fn with_digit(value: u64, byte: u8, most: u64) -> Option<u64>
    ensures { SomeIff result (IsAsciiDigit byte × (value * 10 + (byte - 48) ≤ most)) (value * 10 + (byte - 48)) }
{
    if !byte.is_ascii_digit() {
        return None;
    }
    let longer = u128::from(value) * 10 + u128::from(byte - b'0');
    if longer > u128::from(most) {
        return None;
    }
    Some(longer as u64)
}
