//! A whole input in memory, up to a limit.
//!
//! **A line is kept whole until it ends, even a comment.** The limit of the input bounds it at 16 MiB. To drop long comments earlier would save
//! memory in a case that does not occur, at the price of a second path through the engine.
//!
//! **Line feeds are looked for in the next 32 bytes at once, and from there on by the kit's `memchr`.** Most lines of routes and of scripts end
//! within those, where one comparison of a vector costs less than the call of a search that is meant for long texts.
ghost use Rattle.std.specs.Prelude.{◌≡◌, ◌<◌, ◌≤◌, ◌+◌, ◌^◌, vec_len, IfOk, IfErr};
ghost use Rattle.std.specs.Io.KnownBytes.{Consumes, IsAtEnd};
ghost use Rattle.line_protocol.specs.Runs.{ConsumesAtMost, IsReadFault};

use crate::engine::{BLOCK, read_block};
use crate::faults::StreamFault;
use std::alloc::Global;
use std::io::Read;

/// Reads an input to its end, or one byte further than the limit and no more.
pub fn read_input<R: Read>(
    alloc: Global,
    reader: &mut R,
    limit: usize,
) -> Result<Vec<u8>, StreamFault>
    requires fits { limit < 2 ^ 32 }
    ensures read { IfOk result (λ input. Consumes (R.remaining reader.old) (R.remaining reader.new) input.items) }
    ensures whole { IfOk result (λ input. vec_len input ≤ limit → IsAtEnd (R.remaining reader.new)) }
    ensures within { IfOk result (λ input. vec_len input ≤ limit + 1) }
    ensures err { IfErr result (λ fault. IsReadFault fault
        × ConsumesAtMost (limit + 1) (R.remaining reader.old) (R.remaining reader.new)) }
{
    let mut input = Vec::new(alloc);
    let mut count = 0;
    while count <= limit {
        // Room that is left is used before the buffer grows.
        let room = input.len() - count;
        let most = if room > 0 { room } else { BLOCK };
        let n = read_block(reader, &mut input, count, most.min(limit + 1 - count))?;
        if n == 0 {
            break;
        }
        count += n;
    }
    input.truncate(count);
    Ok(input)
}
