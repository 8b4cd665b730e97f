//! What C is told of a refusal.
ghost use Rattle.std.specs.Prelude.{◌≡◌, ◌≢◌, OnErr, OnOk};
ghost use Rattle.filter_c.specs.Openings.{IsShown, Shows, code_bytes, column_of, line_of, put};

use filter_source::{Diagnosis, Failure};
use refusal_words::{place_in, refusal_words};
use std::alloc::{AllocError, Global};

/// The source is refused.
const REFUSED: u32 = 1;

/// Memory is refused.
const NO_MEMORY: u32 = 2;

/// Why a source is refused.
#[repr(C)]
#[derive(Clone, Copy)]
pub struct Refused {
    /// The place: a byte of the text or of the code file, or an instruction.
    pub place: u64,
    /// The line of the text, counted from 1; 0 where the refusal is shown at no byte of a text.
    pub line: u64,
    /// The column, counted in characters from 1; 0 where there is no line.
    pub column: u64,
    /// The number of bytes that the words and the zero behind them take.
    pub words_size: u64,
    /// A letter and one or two digits, and zeros behind them.
    pub code: [u8; 4],
}

/// A code of a letter and one or two digits, and zeros behind it.
fn code_of(code: &[u8]) -> [u8; 4]
    ensures { result ≡ code_bytes code.now }
{
    match code {
        [letter, digit] => [*letter, *digit, 0, 0],
        [letter, ten, digit] => [*letter, *ten, *digit, 0],
        _ => [0; 4],
    }
}

/// The line and the column of a byte of a text, or twice 0.
fn place_of(text: &[u8], byte: Option<usize>) -> (u64, u64)
    ensures line { result.0 ≡ line_of text.now byte }
    ensures column { result.1 ≡ column_of text.now byte }
{
    match byte {
        None => (0, 0),
        Some(at) => {
            let place = place_in(text, at);
            (place.line as u64, place.column as u64)
        }
    }
}

/// Puts words and a zero at the start of a buffer: as many bytes of them as there is room for.
#[tactic(auto, using(crate::proofs::Buffers::end_words))]
fn put(words: &[u8], buffer: &mut [u8])
    ensures { buffer.new ≡ put words.now buffer.old }
{
    if buffer.is_empty() {
        return;
    }
    let count = words.len().min(buffer.len() - 1);
    buffer[..count].copy_from_slice(&words[..count]);
    buffer[count] = 0;
}

/// Tells of a refusal.
#[tactic(auto, using(crate::proofs::Tellings::shows))]
fn show(
    alloc: Global,
    text: &[u8],
    diagnosis: &Diagnosis,
    refused: &mut Refused,
    buffer: &mut [u8],
) -> Result<(), AllocError>
    ensures diagnosis { OnOk result (Shows diagnosis.now text.now refused.new buffer.old buffer.new) }
    ensures kept { OnErr result ((refused.new ≡ refused.old) × (buffer.new ≡ buffer.old)) }
{
    let words = refusal_words(alloc, text, diagnosis)?;
    let (line, column) = place_of(text, diagnosis.byte);
    *refused = Refused {
        place: diagnosis.refusal.at() as u64,
        line,
        column,
        words_size: words.len() as u64 + 1,
        code: code_of(diagnosis.refusal.code().as_bytes()),
    };
    put(words.as_slice(), buffer);
    Ok(())
}

/// What C is told of a failure.
pub(crate) fn tell(
    alloc: Global,
    text: &[u8],
    failure: Failure,
    refused: &mut Refused,
    buffer: &mut [u8],
) -> u32
    ensures diagnosis { result ≡ 1 → IsShown failure text.now refused.new buffer.old buffer.new }
    ensures kept { result ≢ 1 → (refused.new ≡ refused.old) × (buffer.new ≡ buffer.old) }
    ensures failed { result ≢ 0 }
{
    match failure {
        Failure::Refused(diagnosis) => match show(alloc, text, &diagnosis, refused, buffer) {
            Ok(()) => REFUSED,
            Err(_) => NO_MEMORY,
        },
        Failure::Memory => NO_MEMORY,
    }
}
