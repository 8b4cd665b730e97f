//! Bytes from a reader and to a writer, with each failure as a `StreamFault`.
//!
//! **`write_text` is public.** std's `write_all` says nothing about what a writer holds after an error. The engine, and `eval` for its one answer
//! outside of the engine, need to know that a writer which failed has an initial part of the text.
ghost use Rattle.std.specs.IoError.{error_kind};
ghost use Rattle.std.specs.Prelude.{◌≡◌, ◌<◌, ◌≤◌, ◌↔◌, IsTrue, length, take, IfOk, OnOk, IfErr};
ghost use Rattle.std.specs.Io.KnownBytes.{Appends, Consumes, IsAtEnd, Keeps};
ghost use Rattle.line_protocol.specs.Runs.{AppendsFront};

use crate::faults::StreamFault;
use std::io::{Error, ErrorKind, Read, Write};

/// Whether a signal interrupted the call before it did anything, so that it is made again.
fn is_interrupted(error: &Error) -> bool
    ensures { IsTrue result ↔ (error_kind error.now ≡ ErrorKind.Interrupted) }
{
    matches!(error.kind(), ErrorKind::Interrupted)
}

/// One read, made again where a signal interrupts it.
pub fn read_some<R: Read>(reader: &mut R, room: &mut [u8]) -> Result<usize, StreamFault>
    ensures within { IfOk result (λ n. n ≤ length room.new) }
    ensures same_len { length room.new ≡ length room.old }
    ensures bytes { IfOk result (λ n.
        Consumes (R.remaining reader.old) (R.remaining reader.new) (take n room.new)) }
    ensures end { IfOk result (λ n. n ≡ 0 → 0 < length room.old → IsAtEnd (R.remaining reader.new)) }
    ensures err { IfErr result (λ fault. (fault ≡ StreamFault.Read)
        × Keeps (R.remaining reader.old) (R.remaining reader.new)) }
{
    for _ in 0..u64::MAX {
        match reader.read(room) {
            Ok(n) => return Ok(n),
            Err(error) => {
                if !is_interrupted(&error) {
                    return Err(StreamFault::Read);
                }
            }
        }
    }
    Err(StreamFault::Read)
}

/// One write, of no byte where a signal interrupts it.
fn write_some<W: Write>(writer: &mut W, text: &[u8]) -> Result<usize, StreamFault>
    ensures within { IfOk result (λ n. n ≤ length text.now) }
    ensures bytes { IfOk result (λ n.
        Appends (W.contents writer.old) (W.contents writer.new) (take n text.now)) }
    ensures err { IfErr result (λ fault. (fault ≡ StreamFault.Write)
        × Keeps (W.contents writer.old) (W.contents writer.new)) }
{
    match writer.write(text) {
        Ok(0) => Err(StreamFault::Write),
        Ok(n) => Ok(n),
        Err(error) => {
            if is_interrupted(&error) {
                Ok(0)
            } else {
                Err(StreamFault::Write)
            }
        }
    }
}

/// Has the writer pass on what it holds back.
fn flush<W: Write>(writer: &mut W) -> Result<(), StreamFault>
    ensures kept { Keeps (W.contents writer.old) (W.contents writer.new) }
    ensures err { IfErr result (λ fault. fault ≡ StreamFault.Write) }
{
    match writer.flush() {
        Ok(()) => Ok(()),
        Err(_) => Err(StreamFault::Write),
    }
}

/// Writes a text and flushes it. Nothing is done for an empty one. After an error the writer has a front of it.
pub fn write_text<W: Write>(writer: &mut W, text: &[u8]) -> Result<(), StreamFault>
    ensures ok { OnOk result (Appends (W.contents writer.old) (W.contents writer.new) text.now) }
    ensures err { IfErr result (λ fault. (fault ≡ StreamFault.Write)
        × AppendsFront (W.contents writer.old) (W.contents writer.new) text.now) }
{
    if text.is_empty() {
        return Ok(());
    }
    let mut rest = text;
    for _ in 0..u64::MAX {
        if rest.is_empty() {
            return flush(writer);
        }
        let n = write_some(writer, rest)?;
        rest = &rest[n..];
    }
    Err(StreamFault::Write)
}
