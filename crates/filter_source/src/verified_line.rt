//! The line that tells of verified code.
ghost use Rattle.std.specs.Prelude.{◌≡◌, ◌++◌, OnOk, OnErr};
ghost use Rattle.std.specs.Io.{StartsWith};
ghost use Rattle.filter_source.specs.BoundsLine.{bounds_line};
ghost use Rattle.filter_source.specs.VerifiedLine.{verified_line};

use filter_verifier::{RunBounds, Verified};
use line_protocol::push_decimal;
use std::alloc::AllocError;

/// Adds the line of code with these bounds, `verified BUDGET DEPTH`, to the end of `text`.
pub fn push_bounds(text: &mut Vec<u8>, bounds: RunBounds) -> Result<(), AllocError>
    ensures ok { OnOk result (text.new.items ≡ text.old.items ++ bounds_line bounds.budget bounds.depth) }
    ensures err { OnErr result (StartsWith text.new.items text.old.items) }
{
    text.extend_from_slice(b"verified ")?;
    push_decimal(text, u64::from(bounds.budget))?;
    text.push(b' ')?;
    push_decimal(text, u64::from(bounds.depth))?;
    text.push(b'\n')?;
    Ok(())
}

/// Adds the line of verified code to the end of `text`.
pub fn push_verified(text: &mut Vec<u8>, verified: &Verified) -> Result<(), AllocError>
    ensures ok { OnOk result (text.new.items ≡ text.old.items ++ verified_line verified.now.program) }
    ensures err { OnErr result (StartsWith text.new.items text.old.items) }
{
    let bounds = RunBounds {
        budget: verified.budget(),
        depth: verified.depth(),
    };
    push_bounds(text, bounds)
}
