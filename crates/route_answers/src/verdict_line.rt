//! The lines of verdicts, and of runs that went wrong.
ghost use Rattle.std.specs.Prelude.{◌≡◌, ◌≤◌, ◌++◌, OnErr, OnOk};
ghost use Rattle.std.specs.Io.{StartsWith};
ghost use Rattle.route_answers.specs.Eval.{verdict};

use filter_code::{FaultKind, Outcome};
use line_protocol::push_decimal;
use std::alloc::AllocError;

/// Puts the line of a verdict at the end of `out`.
pub(crate) fn push_verdict(out: &mut Vec<u8>, outcome: Outcome) -> Result<(), AllocError>
    ensures ok { OnOk result (out.new.items ≡ out.old.items ++ verdict outcome) }
    ensures err { OnErr result (StartsWith out.new.items out.old.items) }
{
    match outcome {
        Outcome::Accept(metric) => push_accept(out, metric),
        Outcome::Reject => out.extend_from_slice(b"reject\n"),
        Outcome::Fault(kind, at) => push_fault(out, kind, at),
    }
}

/// Puts the line `accept METRIC` at the end of `out`.
#[inline(always)]
pub(crate) fn push_accept(out: &mut Vec<u8>, metric: u32) -> Result<(), AllocError>
    ensures ok { OnOk result (out.new.items ≡ out.old.items ++ verdict (Outcome.Accept metric)) }
    ensures err { OnErr result (StartsWith out.new.items out.old.items) }
{
    // Metrics of a route have at most three digits: the line is put there at once.
    if metric < 10 {
        let digit = b'0' + metric as u8;
        return out.extend_from_slice(&[b'a', b'c', b'c', b'e', b'p', b't', b' ', digit, b'\n']);
    }
    if metric < 100 {
        let ten = b'0' + (metric / 10) as u8;
        let one = b'0' + (metric % 10) as u8;
        return out.extend_from_slice(&[b'a', b'c', b'c', b'e', b'p', b't', b' ', ten, one, b'\n']);
    }
    push_long_accept(out, metric)
}

/// Puts the line `accept METRIC` at the end of `out`, of a metric of three digits or more.
#[inline(never)]
fn push_long_accept(out: &mut Vec<u8>, metric: u32) -> Result<(), AllocError>
    requires { 100 ≤ metric }
    ensures ok { OnOk result (out.new.items ≡ out.old.items ++ verdict (Outcome.Accept metric)) }
    ensures err { OnErr result (StartsWith out.new.items out.old.items) }
{
    if metric < 1_000 {
        let tens = metric / 10;
        let (hundred, ten) = (b'0' + (tens / 10) as u8, b'0' + (tens % 10) as u8);
        let one = b'0' + (metric % 10) as u8;
        return out.extend_from_slice(&[
            b'a', b'c', b'c', b'e', b'p', b't', b' ', hundred, ten, one, b'\n',
        ]);
    }
    out.extend_from_slice(b"accept ")?;
    push_decimal(out, u64::from(metric))?;
    out.push(b'\n')?;
    Ok(())
}

/// Puts the line `fault CODE PLACE` at the end of `out`.
fn push_fault(out: &mut Vec<u8>, kind: FaultKind, at: usize) -> Result<(), AllocError>
    ensures ok { OnOk result (out.new.items ≡ out.old.items ++ verdict (Outcome.Fault kind at)) }
    ensures err { OnErr result (StartsWith out.new.items out.old.items) }
{
    out.extend_from_slice(b"fault ")?;
    out.extend_from_slice(kind.code().as_bytes())?;
    out.push(b' ')?;
    push_decimal(out, at as u64)?;
    out.push(b'\n')?;
    Ok(())
}
