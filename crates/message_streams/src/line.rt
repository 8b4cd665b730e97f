//! One line of a stream.
ghost use Rattle.std.specs.Prelude.{◌≡◌, [], ◌∷◌, IfOk, IfErr, IfSome, IfNone};
ghost use Rattle.std.specs.Io.KnownBytes.{Consumes, IsAtEnd, Keeps};
ghost use Rattle.message_streams.specs.Ends.{ReadsLine, StopsAtLine};
ghost use Rattle.message_streams.specs.Ends as spec;

use crate::LINE_LIMIT;
use crate::ends::StreamEnd;
use arrayvec::ArrayVec;
use line_protocol::read_some;
use std::io::Read;

/// The next byte, or None at the end of the stream.
fn read_byte<R: Read>(reader: &mut R) -> Result<Option<u8>, StreamEnd>
    ensures byte { IfOk result (λ found. IfSome found (λ byte.
        Consumes (R.remaining reader.old) (R.remaining reader.new) (byte ∷ []))) }
    ensures end { IfOk result (λ found. IfNone found (
        Consumes (R.remaining reader.old) (R.remaining reader.new) [] × IsAtEnd (R.remaining reader.new))) }
    ensures err { IfErr result (λ why. (why ≡ StreamEnd.Read)
        × Keeps (R.remaining reader.old) (R.remaining reader.new)) }
{
    let mut room = [0; 1];
    match read_some(reader, &mut room) {
        Ok(0) => Ok(None),
        Ok(_) => Ok(Some(room[0])),
        Err(_) => Err(StreamEnd::Read),
    }
}

/// Why a stream ended after so many bytes of a line.
fn end_within(count: usize) -> StreamEnd
    ensures { result ≡ spec.end_within count }
{
    if count == 0 {
        StreamEnd::Ended
    } else {
        StreamEnd::Unfinished
    }
}

/// The next line, without its line feed. No byte after its line feed is taken, and of a line over the limit no more than the limit.
pub(crate) fn read_line<R: Read>(reader: &mut R) -> Result<ArrayVec<u8, LINE_LIMIT>, StreamEnd>
    ensures line { IfOk result (λ line. ReadsLine line.items (R.remaining reader.old) (R.remaining reader.new)) }
    ensures err { IfErr result (λ why. StopsAtLine why (R.remaining reader.old) (R.remaining reader.new)) }
{
    let mut line = ArrayVec::new();
    'bytes: while !line.is_full() {
        match read_byte(reader) {
            Ok(Some(b'\n')) => return Ok(line),
            Ok(Some(byte)) => line.push(byte),
            Ok(None) => return Err(end_within(line.len())),
            Err(why) => return Err(why),
        }
    }
    Err(StreamEnd::TooLong)
}
