//! The engine: blocks of bytes in, the answers to their lines out.
ghost use Rattle.std.specs.Prelude.{◌≡◌, ℕ, ◌+◌, ◌-◌, ◌^◌, ◌<◌, ◌≤◌, ◌↔◌, List, [], ◌∷◌, ◌++◌, true, false, length, take, drop};
ghost use Rattle.std.specs.Prelude.{slice_index, vec_len, IfOk, IfErr, IfSome, OnOk, OnErr};
ghost use Rattle.std.specs.Io.KnownBytes.{Appends, Consumes, IsAtEnd, Keeps};
ghost use Rattle.std.specs.Str.Lines.{lines, strip_carriage_return};
ghost use Rattle.line_protocol.specs.Answers.{Answer, text_of};
ghost use Rattle.line_protocol.specs.Lines.{is_line_feed, is_skipped};
ghost use Rattle.line_protocol.specs.Runs.{Finishes, IsLeft, IsReadFault, Stops};
ghost use Rattle.line_protocol.specs.Limits.{input_limit};
ghost use Rattle.line_protocol.specs.Steps.{Advances, AnswersFront, BreaksOff, EndsOff, NoneEnds};

use crate::INPUT_LIMIT;
use crate::answers::{LineReply, Service};
use crate::faults::StreamFault;
use crate::streams::{read_some, write_text};
use memchr::memchr;
use std::alloc::{AllocError, Global};
use std::io::{Read, Write};
use std::simd::prelude::*;

/// The least room that a read is given.
pub(crate) const BLOCK: usize = 65_536;

/// How far the answers have come.
#[derive(Drop)]
struct Progress {
    /// The number of the next line.
    number: u32,
    /// How many lines were refused.
    refused: u32,
    /// An answer ended the stream.
    over: bool,
    /// Answers that are not written yet.
    text: Vec<u8>,
    ghost counted: { refused < number },
}

impl Progress {
    /// Nothing is answered yet.
    fn new(alloc: Global) -> Progress
        ensures number { result.number ≡ 1 }
        ensures refused { result.refused ≡ 0 }
        ensures over { result.over ≡ false }
        ensures text { result.text.items ≡ [] }
    {
        Progress {
            number: 1,
            refused: 0,
            over: false,
            text: Vec::new(alloc),
        }
    }
}

/// A line that gets no answer: an empty one, or one that begins with `#`.
pub fn is_skipped(line: &[u8]) -> bool
    ensures { result ≡ is_skipped line.now }
{
    match line {
        [] => true,
        [first, ..] => *first == b'#',
    }
}

/// The number of bytes that are looked at together for the end of a short line.
const NEAR: usize = 32;

/// How many of the next `NEAR` bytes stand before the first line feed among them: all where none is.
#[inline(always)]
fn count_before_feed(bytes: &[u8], from: usize) -> usize
    requires { from + NEAR ≤ length bytes.now }
    ensures within { result ≤ NEAR }
    ensures none { NoneEnds bytes.now from (from + result) }
    ensures found { result < NEAR → slice_index bytes.now (from + result) ≡ 10 }
{
    let feeds = u8x32::from_slice(&bytes[from..])
        .simd_eq(u8x32::splat(b'\n'))
        .to_bitmask();
    if feeds == 0 {
        NEAR
    } else {
        feeds.trailing_zeros() as usize
    }
}

/// What `find_line_feed` returns, by a search that is meant for long lines.
#[inline(never)]
fn find_far_line_feed(bytes: &[u8], from: usize) -> usize
    requires { from ≤ length bytes.now }
    ensures low { from ≤ result }
    ensures within { result ≤ length bytes.now }
    ensures none { NoneEnds bytes.now from result }
    ensures found { result < length bytes.now → slice_index bytes.now result ≡ 10 }
{
    match memchr(b'\n', &bytes[from..]) {
        Some(place) => from + place,
        None => bytes.len(),
    }
}

/// The place of the first line feed from `from` on, or the length where none is left.
#[inline(always)]
fn find_line_feed(bytes: &[u8], from: usize) -> usize
    requires { from ≤ length bytes.now }
    ensures low { from ≤ result }
    ensures within { result ≤ length bytes.now }
    ensures none { NoneEnds bytes.now from result }
    ensures found { result < length bytes.now → slice_index bytes.now result ≡ 10 }
{
    if bytes.len() - from < NEAR {
        return find_far_line_feed(bytes, from);
    }
    let before = count_before_feed(bytes, from);
    if before < NEAR {
        from + before
    } else {
        find_far_line_feed(bytes, from + NEAR)
    }
}

/// A line without the one carriage return at its end.
pub fn strip_carriage_return(line: &[u8]) -> &[u8]
    ensures { result.now ≡ strip_carriage_return line.now }
{
    let len = line.len();
    if len > 0 && line[len - 1] == b'\r' {
        &line[..len - 1]
    } else {
        line
    }
}

/// Has the service answer the next line, unless it is skipped. After an error no answer was added.
fn answer_line<S: Service>(
    alloc: Global,
    service: &mut S,
    line: &[u8],
    progress: &mut Progress,
) -> Result<(), AllocError>
    requires fits { progress.old.number + 1 < 2 ^ 32 }
    requires goes_on { progress.old.over ≡ false }
    ensures ok { IfOk result (λ _. (given : List Answer)
        × Advances S.answers service.old service.new (line.now ∷ []) given
        progress.old.number progress.new.number progress.old.refused progress.new.refused progress.new.over
        × (progress.new.text.items ≡ progress.old.text.items ++ text_of given)) }
    ensures err { OnErr result ((progress.new.number ≡ progress.old.number)
        × (progress.new.refused ≡ progress.old.refused) × (progress.new.over ≡ false)
        × (progress.new.text.items ≡ progress.old.text.items)) }
    ensures left { OnErr result (S.refuses service.old service.new) }
{
    if is_skipped(line) {
        progress.number += 1;
        return Ok(());
    }
    let len = progress.text.len();
    match service.answer(alloc, progress.number, line, &mut progress.text) {
        Ok(reply) => {
            progress.number += 1;
            match reply {
                LineReply::Answered => {}
                LineReply::Refused => progress.refused += 1,
                LineReply::Ended => {
                    progress.refused += 1;
                    progress.over = true;
                }
            }
            Ok(())
        }
        Err(error) => {
            progress.text.truncate(len);
            Err(error)
        }
    }
}

/// Has the service answer each line that ends in `bytes`, where no line ends before `searched`, and
/// returns the number of bytes of those lines. After an error the lines before the refused one are
/// answered.
fn answer_whole_lines<S: Service>(
    alloc: Global,
    service: &mut S,
    bytes: &[u8],
    searched: usize,
    progress: &mut Progress,
) -> Result<usize, AllocError>
    requires within { searched ≤ length bytes.now }
    requires none { NoneEnds bytes.now 0 searched }
    requires fits { progress.old.number + length bytes.now < 2 ^ 32 }
    requires goes_on { progress.old.over ≡ false }
    ensures ok { IfOk result (λ at. (given : List Answer)
        × AnswersFront S.answers service.old service.new bytes.now at given
        progress.old.number progress.new.number progress.old.refused progress.new.refused progress.new.over
        × (progress.new.text.items ≡ progress.old.text.items ++ text_of given)) }
    ensures begun { IfOk result (λ at. progress.new.over ≡ false → NoneEnds bytes.now at (length bytes.now)) }
    ensures err { OnErr result ((after : S) × (at : ℕ) × (given : List Answer)
        × AnswersFront S.answers service.old after bytes.now at given
        progress.old.number progress.new.number progress.old.refused progress.new.refused progress.new.over
        × (progress.new.text.items ≡ progress.old.text.items ++ text_of given)
        × IsLeft S.refuses after service.new) }
{
    let mut at = 0;
    let mut from = searched;
    'lines: loop {
        let feed = find_line_feed(bytes, from);
        if feed == bytes.len() {
            return Ok(at);
        }
        let line = strip_carriage_return(&bytes[at..feed]);
        answer_line(alloc, service, line, progress)?;
        at = feed + 1;
        from = at;
        if progress.over {
            return Ok(at);
        }
    }
}

/// Answers each line that ends in `bytes`, and writes the answers. Otherwise as `answer_whole_lines`.
fn answer_block<W: Write, S: Service>(
    alloc: Global,
    writer: &mut W,
    service: &mut S,
    bytes: &[u8],
    searched: usize,
    progress: &mut Progress,
) -> Result<usize, StreamFault>
    requires within { searched ≤ length bytes.now }
    requires none { NoneEnds bytes.now 0 searched }
    requires fits { progress.old.number + length bytes.now < 2 ^ 32 }
    requires goes_on { progress.old.over ≡ false }
    requires written { progress.old.text.items ≡ [] }
    ensures ok { IfOk result (λ at. (given : List Answer)
        × AnswersFront S.answers service.old service.new bytes.now at given
        progress.old.number progress.new.number progress.old.refused progress.new.refused progress.new.over
        × Appends (W.contents writer.old) (W.contents writer.new) (text_of given)) }
    ensures begun { IfOk result (λ at. progress.new.over ≡ false → NoneEnds bytes.now at (length bytes.now)) }
    ensures cleared { OnOk result (progress.new.text.items ≡ []) }
    ensures err { IfErr result (λ fault. BreaksOff S.answers S.refuses fault service.old service.new bytes.now progress.old.number
        (W.contents writer.old) (W.contents writer.new)) }
{
    let answered = answer_whole_lines(alloc, service, bytes, searched, progress);
    write_text(writer, progress.text.as_slice())?;
    progress.text.clear();
    match answered {
        Ok(at) => Ok(at),
        Err(_) => Err(StreamFault::Memory),
    }
}

/// Answers a last line that no line feed ends, if there is one, and writes the answer.
fn answer_rest<W: Write, S: Service>(
    alloc: Global,
    writer: &mut W,
    service: &mut S,
    bytes: &[u8],
    progress: &mut Progress,
) -> Result<(), StreamFault>
    requires none { NoneEnds bytes.now 0 (length bytes.now) }
    requires fits { progress.old.number + 1 < 2 ^ 32 }
    requires goes_on { progress.old.over ≡ false }
    requires written { progress.old.text.items ≡ [] }
    ensures ok { IfOk result (λ _. (given : List Answer)
        × Advances S.answers service.old service.new (lines bytes.now) given
        progress.old.number progress.new.number progress.old.refused progress.new.refused progress.new.over
        × Appends (W.contents writer.old) (W.contents writer.new) (text_of given)) }
    ensures err { IfErr result (λ fault. EndsOff S.answers S.refuses fault service.old service.new bytes.now progress.old.number
        (W.contents writer.old) (W.contents writer.new)) }
{
    if bytes.is_empty() {
        return Ok(());
    }
    match answer_line(alloc, service, bytes, progress) {
        Ok(()) => write_text(writer, progress.text.as_slice()),
        Err(_) => Err(StreamFault::Memory),
    }
}

/// One read into a part of a buffer.
fn read_into<R: Read>(
    reader: &mut R,
    buffer: &mut [u8],
    from: usize,
    to: usize,
) -> Result<usize, StreamFault>
    requires order { from < to }
    requires within { to ≤ length buffer.old }
    ensures front { take from buffer.new ≡ take from buffer.old }
    ensures room { IfOk result (λ n. from + n ≤ to) }
    ensures bytes { IfOk result (λ n.
        Consumes (R.remaining reader.old) (R.remaining reader.new) (take n (drop from buffer.new))) }
    ensures end { IfOk result (λ n. n ≡ 0 → IsAtEnd (R.remaining reader.new)) }
    ensures err { IfErr result (λ fault. (fault ≡ StreamFault.Read)
        × Keeps (R.remaining reader.old) (R.remaining reader.new)) }
{
    read_some(reader, &mut buffer[from..to])
}

/// Reads up to `most` bytes into the buffer, after its first `begun` bytes. The buffer grows for them.
pub(crate) fn read_block<R: Read>(
    reader: &mut R,
    buffer: &mut Vec<u8>,
    begun: usize,
    most: usize,
) -> Result<usize, StreamFault>
    requires within { begun ≤ vec_len buffer.old }
    requires some { 0 < most }
    requires fits { begun + most < 2 ^ 64 }
    ensures front { take begun buffer.new.items ≡ take begun buffer.old.items }
    ensures long { vec_len buffer.old ≤ vec_len buffer.new }
    ensures room { IfOk result (λ n. (n ≤ most) × (begun + n ≤ vec_len buffer.new)) }
    ensures bytes { IfOk result (λ n.
        Consumes (R.remaining reader.old) (R.remaining reader.new) (take n (drop begun buffer.new.items))) }
    ensures end { IfOk result (λ n. n ≡ 0 → IsAtEnd (R.remaining reader.new)) }
    // The fault is Memory if and only if the buffer did not grow.
    ensures cause { IfErr result (λ fault. (fault ≡ StreamFault.Memory) ↔ (vec_len buffer.new < begun + most)) }
    ensures err { IfErr result (λ fault. IsReadFault fault
        × Keeps (R.remaining reader.old) (R.remaining reader.new)) }
{
    let end = begun + most;
    if buffer.len() < end && buffer.resize(end, 0).is_err() {
        return Err(StreamFault::Memory);
    }
    read_into(reader, buffer.as_mut_slice(), begun, end)
}

/// Moves the begun line, the bytes from `at` up to `end`, to the front of the buffer, and returns
/// its length.
fn keep_begun(buffer: &mut Vec<u8>, at: usize, end: usize) -> usize
    requires order { at ≤ end }
    requires within { end ≤ vec_len buffer.old }
    ensures len { result ≡ end - at }
    ensures kept { take result buffer.new.items ≡ drop at (take end buffer.old.items) }
    ensures same_len { vec_len buffer.new ≡ vec_len buffer.old }
{
    if at > 0 {
        buffer.copy_within(at..end, 0);
    }
    end - at
}

/// Answers all lines that the reader has, over a buffer for the bytes of a block.
fn answer_blocks<R: Read, W: Write, S: Service>(
    alloc: Global,
    reader: &mut R,
    writer: &mut W,
    service: &mut S,
    buffer: &mut Vec<u8>,
    progress: &mut Progress,
    limit: usize,
) -> Result<u32, StreamFault>
    requires limit { limit + 2 < 2 ^ 32 }
    requires first { progress.old.number ≡ 1 }
    requires counted { progress.old.refused ≡ 0 }
    requires goes_on { progress.old.over ≡ false }
    requires written { progress.old.text.items ≡ [] }
    ensures ok { IfOk result (λ refused. IfSome (R.remaining reader.old) (λ input.
        Finishes S.answers limit service.old service.new input (R.remaining reader.new)
        (W.contents writer.old) (W.contents writer.new) refused)) }
    ensures err { IfErr result (λ fault. IfSome (R.remaining reader.old) (λ input.
        Stops S.answers S.refuses limit fault service.old service.new input (R.remaining reader.new)
        (W.contents writer.old) (W.contents writer.new))) }
{
    let mut begun = 0;
    let mut total = 0;
    'turns: loop {
        let most = BLOCK.max(begun).min(limit + 1 - total);
        let n = read_block(reader, buffer, begun, most)?;
        if n == 0 {
            answer_rest(
                alloc,
                writer,
                service,
                &buffer.as_slice()[..begun],
                progress,
            )?;
            return Ok(progress.refused);
        }
        total += n;
        let end = begun + n - total.saturating_sub(limit);
        let block = &buffer.as_slice()[..end];
        let at = answer_block(alloc, writer, service, block, begun, progress)?;
        if total > limit {
            return Err(StreamFault::TooLong);
        }
        if progress.over {
            return Ok(progress.refused);
        }
        begun = keep_begun(buffer, at, end);
    }
}

/// Has a service answer the lines of a reader, up to its end or to a reply `Ended`, and writes the
/// answers and nothing else. Returns how many lines were refused.
///
/// It reads in blocks. The answers to the lines of a block are written and flushed before more is
/// read. Where a fault ends it, each answer that was written is whole, unless the writer failed, and each line that the service
/// answered has its answer. At most `INPUT_LIMIT` bytes are answered.
pub fn answer_lines<R: Read, W: Write, S: Service>(
    alloc: Global,
    reader: &mut R,
    writer: &mut W,
    service: &mut S,
) -> Result<u32, StreamFault>
    ensures ok { IfOk result (λ refused. IfSome (R.remaining reader.old) (λ input.
        Finishes S.answers input_limit service.old service.new input (R.remaining reader.new)
        (W.contents writer.old) (W.contents writer.new) refused)) }
    ensures err { IfErr result (λ fault. IfSome (R.remaining reader.old) (λ input.
        Stops S.answers S.refuses input_limit fault service.old service.new input (R.remaining reader.new)
        (W.contents writer.old) (W.contents writer.new))) }
{
    answer_lines_within(alloc, INPUT_LIMIT, reader, writer, service)
}

/// Does what `answer_lines` does with an input that may have so many bytes. Lines are numbered below 2^32, so no limit is above that.
pub fn answer_lines_within<R: Read, W: Write, S: Service>(
    alloc: Global,
    limit: usize,
    reader: &mut R,
    writer: &mut W,
    service: &mut S,
) -> Result<u32, StreamFault>
    requires { limit + 2 < 2 ^ 32 }
    ensures ok { IfOk result (λ refused. IfSome (R.remaining reader.old) (λ input.
        Finishes S.answers limit service.old service.new input (R.remaining reader.new)
        (W.contents writer.old) (W.contents writer.new) refused)) }
    ensures err { IfErr result (λ fault. IfSome (R.remaining reader.old) (λ input.
        Stops S.answers S.refuses limit fault service.old service.new input (R.remaining reader.new)
        (W.contents writer.old) (W.contents writer.new))) }
{
    let mut buffer = Vec::new(alloc);
    let mut progress = Progress::new(alloc);
    answer_blocks(
        alloc,
        reader,
        writer,
        service,
        &mut buffer,
        &mut progress,
        limit,
    )
}
