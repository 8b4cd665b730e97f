//! The lines that tell what single failures change.
//!
//! **An answer about failures is the only one of more than one line.** Its first line says how many follow, so that a program that asks knows how
//! much to read; each of these can be sorted and searched by the tools of the shell.
ghost use Rattle.std.specs.Prelude.{◌≡◌, ◌++◌, OnOk, OnErr, flat_map};
ghost use Rattle.std.specs.Io.{StartsWith};
ghost use Rattle.domain_cmds.specs.FailureTexts as spec;

use crate::failure::{Failing, FailureEffect};
use crate::text::push_step;
use line_protocol::push_decimal;
use std::alloc::AllocError;

/// Begins a line, and adds what fails.
pub(crate) fn push_what(out: &mut Vec<u8>, what: Failing) -> Result<(), AllocError>
    ensures ok { OnOk result (out.new.items ≡ out.old.items ++ spec.what_text what) }
    ensures err { OnErr result (StartsWith out.new.items out.old.items) }
{
    match what {
        Failing::Link(u, w) => {
            out.extend_from_slice(b"\nlink")?;
            push_step(out, u)?;
            push_step(out, w)
        }
        Failing::Node(x) => {
            out.extend_from_slice(b"\nnode")?;
            push_step(out, x)
        }
    }
}

/// Adds a word and a number.
pub(crate) fn push_number(out: &mut Vec<u8>, word: &[u8], n: u32) -> Result<(), AllocError>
    ensures ok { OnOk result (out.new.items ≡ out.old.items ++ spec.number_text word.now n) }
    ensures err { OnErr result (StartsWith out.new.items out.old.items) }
{
    out.extend_from_slice(word)?;
    push_decimal(out, u64::from(n))
}

/// Adds how many routes a failure changes, and how many of them are no more.
fn push_routes(out: &mut Vec<u8>, failure: FailureEffect) -> Result<(), AllocError>
    ensures ok { OnOk result (out.new.items ≡ out.old.items ++ spec.routes_text failure) }
    ensures err { OnErr result (StartsWith out.new.items out.old.items) }
{
    push_number(out, b" changed ", failure.changed)?;
    push_number(out, b" lost ", failure.lost)
}

/// Adds where a failure is felt, and how long.
fn push_felt(out: &mut Vec<u8>, failure: FailureEffect) -> Result<(), AllocError>
    ensures ok { OnOk result (out.new.items ≡ out.old.items ++ spec.felt_text failure) }
    ensures err { OnErr result (StartsWith out.new.items out.old.items) }
{
    push_number(out, b" moved ", failure.moved)?;
    push_number(out, b" rounds ", u32::from(failure.rounds))?;
    push_number(out, b" still ", u32::from(failure.still))
}

/// Adds the line of a failure.
fn push_failure(out: &mut Vec<u8>, failure: FailureEffect) -> Result<(), AllocError>
    ensures ok { OnOk result (out.new.items ≡ out.old.items ++ spec.failure_text failure) }
    ensures err { OnErr result (StartsWith out.new.items out.old.items) }
{
    push_what(out, failure.what)?;
    push_routes(out, failure)?;
    push_felt(out, failure)
}

/// Adds the lines of failures.
fn push_each(out: &mut Vec<u8>, failures: &[FailureEffect]) -> Result<(), AllocError>
    ensures ok { OnOk result (out.new.items ≡ out.old.items ++ flat_map spec.failure_text failures.now) }
    ensures err { OnErr result (StartsWith out.new.items out.old.items) }
{
    for failure in failures {
        push_failure(out, *failure)?;
    }
    Ok(())
}

/// Adds the answer to `failures`, but for the end of its last line.
pub(crate) fn push_failures(out: &mut Vec<u8>, failures: &[FailureEffect]) -> Result<(), AllocError>
    ensures ok { OnOk result (out.new.items ≡ out.old.items ++ spec.failures_text failures.now) }
    ensures err { OnErr result (StartsWith out.new.items out.old.items) }
{
    out.extend_from_slice(b"failures ")?;
    push_decimal(out, failures.len() as u64)?;
    push_each(out, failures)
}
