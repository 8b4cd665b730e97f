//! Classes of bytes, and how many bytes of a class a text begins with.
//!
//! **One look at a byte tells what may begin with it.** A table of 256 flags says whether a byte begins or continues a word, is a digit, or is a
//! punctuator whatever follows it, and is proved to agree with the definitions at each byte. Most tokens are one of these. Numbers of up to three
//! digits and prefixes in the usual spelling are read in one pass, by the reader that `eval` uses for its lines; where 20 bytes are left, no end of
//! the text can come in between, and the compiler leaves its tests out. A longer number is added up while its end is looked for.

ghost use Rattle.std.specs.List.{prefix_len};
ghost use Rattle.std.specs.Prelude.{◌≡◌, ◌≤◌, length};
ghost use Rattle.filter_tokens.specs.ByteClasses.{is_in, stands_alone};
ghost use Rattle.filter_tokens.specs.Shapes.{begins_word, continues_word};

/// The flag of the bytes with which a word begins.
const BEGINS_WORD: u8 = 1;

/// The flag of the decimal digits.
const DIGIT: u8 = 2;

/// The flag of the bytes that are a punctuator, whatever follows.
const STANDS_ALONE: u8 = 4;

/// For each byte a digit, whose low three bits are the byte's flags. Every byte of a word is looked up here, which takes less than to compare it
/// with the ends of the ranges of letters and digits.
static FLAGS: [u8; 256] = *b"\
    00000000000000000000000000000000\
    00000000444444002222222222440400\
    01111111111111111111111111140401\
    01111111111111111111111111140440\
    00000000000000000000000000000000\
    00000000000000000000000000000000\
    00000000000000000000000000000000\
    00000000000000000000000000000000";

/// Kinds of bytes that go on as long as they can.
#[derive(Clone, Copy)]
pub enum ByteClass {
    /// Bytes with which a word goes on: letters, digits and `_`.
    Word,
    /// Decimal digits.
    Digits,
    /// Hexadecimal digits.
    Hexadecimal,
    /// Bytes of a text in double quotes: all but the quote and LF.
    Quoted,
    /// Bytes of a line: all but LF.
    Line,
}

/// The number of bytes of this kind at the front of a text.
pub(crate) fn leading_len(class: ByteClass, text: &[u8]) -> usize
    ensures len { result ≡ prefix_len (is_in class) text.now }
    ensures within { result ≤ length text.now }
{
    for (i, byte) in text.iter().enumerate() {
        if !is_in(class, *byte) {
            return i;
        }
    }
    text.len()
}

/// Whether the byte is of this kind.
fn is_in(class: ByteClass, byte: u8) -> bool
    ensures { result ≡ is_in class byte }
{
    match class {
        ByteClass::Word => continues_word(byte),
        ByteClass::Digits => byte.is_ascii_digit(),
        ByteClass::Hexadecimal => byte.is_ascii_hexdigit(),
        ByteClass::Quoted => !(byte == b'"' || byte == b'\n'),
        ByteClass::Line => byte != b'\n',
    }
}

/// Whether a word can begin with this byte.
pub(crate) fn begins_word(byte: u8) -> bool
    ensures { result ≡ begins_word byte }
{
    FLAGS[byte as usize] & BEGINS_WORD != 0
}

/// Whether a word can go on with this byte.
pub fn continues_word(byte: u8) -> bool
    ensures { result ≡ continues_word byte }
{
    FLAGS[byte as usize] & (BEGINS_WORD | DIGIT) != 0
}

/// Whether the byte is a punctuator whatever follows it: neither a longer one nor a comment begins with it.
pub(crate) fn stands_alone(byte: u8) -> bool
    ensures { result ≡ stands_alone byte }
{
    FLAGS[byte as usize] & STANDS_ALONE != 0
}
