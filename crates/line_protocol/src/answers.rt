//! What a service answers to a line.
ghost use Rattle.std.specs.Prelude.{◌≡◌, ℕ, List, ◌++◌, IfOk, OnOk, OnErr, decimal};
ghost use Rattle.std.specs.Io.{StartsWith};
ghost use Rattle.line_protocol.specs.Answers.{Answer, refusal};

use itoa::Buffer;
use std::alloc::{AllocError, Global};

/// What the answer to a line means for the stream.
#[derive(Clone, Copy, PartialEq, Eq)]
pub enum LineReply {
    /// The line was answered.
    Answered,
    /// The line was refused.
    Refused,
    /// The line was refused. No later line is answered, and no further block is read.
    Ended,
}

/// What answers the lines of a stream.
pub trait Service {
    // The service may give this answer to the line of this number, and is then the later service.
    ghost answers: { Self → ℕ → List ℕ → Answer → Self → Type 0 };

    // A call that is refused memory may leave the service so.
    ghost refuses: { Self → Self → Type 0 };

    /// Answers the line of this number: appends the answer to `out`. After an error the caller drops
    /// what was appended.
    fn answer(
        &mut self,
        alloc: Global,
        number: u32,
        line: &[u8],
        out: &mut Vec<u8>,
    ) -> Result<LineReply, AllocError>
        ensures ok { IfOk result (λ reply. (text : List ℕ) × (out.new.items ≡ out.old.items ++ text)
            × answers self.old number line.now (record { text = text; reply = reply }) self.new) }
        ensures err { OnErr result (StartsWith out.new.items out.old.items) }
        ensures left { OnErr result (refuses self.old self.new) };
}

/// Appends a number in decimal digits. Most numbers of answers have one or two, and are written without a buffer.
pub fn push_decimal(out: &mut Vec<u8>, n: u64) -> Result<(), AllocError>
    ensures ok { OnOk result (out.new.items ≡ out.old.items ++ decimal n) }
    ensures err { OnErr result (out.new.items ≡ out.old.items) }
{
    if n < 10 {
        return out.extend_from_slice(&[b'0' + n as u8]);
    }
    if n < 100 {
        let ten = b'0' + (n / 10) as u8;
        let one = b'0' + (n % 10) as u8;
        return out.extend_from_slice(&[ten, one]);
    }
    push_long_decimal(out, n)
}

/// Appends a number in decimal digits, however many.
#[inline(never)]
fn push_long_decimal(out: &mut Vec<u8>, n: u64) -> Result<(), AllocError>
    ensures ok { OnOk result (out.new.items ≡ out.old.items ++ decimal n) }
    ensures err { OnErr result (out.new.items ≡ out.old.items) }
{
    let mut digits = Buffer::new();
    out.extend_from_slice(digits.format(n).as_bytes())
}

/// Appends the line `refused CODE PLACE`.
pub fn push_refusal(out: &mut Vec<u8>, code: &str, at: u64) -> Result<(), AllocError>
    ensures ok { OnOk result (out.new.items ≡ out.old.items ++ refusal code.now at) }
    ensures err { OnErr result (StartsWith out.new.items out.old.items) }
{
    out.extend_from_slice(b"refused ")?;
    out.extend_from_slice(code.as_bytes())?;
    out.push(b' ')?;
    push_decimal(out, at)?;
    out.push(b'\n')?;
    Ok(())
}
