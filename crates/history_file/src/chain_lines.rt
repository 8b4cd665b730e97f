//! What came of a replay of segments is told.
ghost use Rattle.std.specs.Prelude.{◌≡◌, ◌++◌, OnErr, OnOk};
ghost use Rattle.std.specs.Io.{StartsWith};
ghost use Rattle.history_file.specs.ChainLines as spec;

use crate::chain::{Chain, ChainFault};
use crate::verdict::{ReplayVerdict, push_verdict};
use line_protocol::{push_decimal, push_refusal};
use std::alloc::AllocError;

/// Adds where the first segment begins, if it does not begin at 0.
fn push_from(out: &mut Vec<u8>, first: u64) -> Result<(), AllocError>
    ensures ok { OnOk result (out.new.items ≡ out.old.items ++ spec.from_words first) }
    ensures err { OnErr result (StartsWith out.new.items out.old.items) }
{
    if first == 0 {
        return Ok(());
    }
    out.extend_from_slice(b" from ")?;
    push_decimal(out, first)
}

/// Adds the line of a chain whose last segment was replayed.
pub fn push_chain(out: &mut Vec<u8>, chain: &Chain) -> Result<(), AllocError>
    ensures ok { OnOk result (out.new.items ≡ out.old.items ++ spec.chain_line chain.now) }
    ensures err { OnErr result (StartsWith out.new.items out.old.items) }
{
    out.extend_from_slice(b"replay ok ")?;
    push_decimal(out, chain.entries())?;
    push_from(out, chain.first)?;
    Ok(out.push(b'\n')?)
}

/// Adds which file it is, where there are several.
fn push_file(out: &mut Vec<u8>, file: Option<u64>) -> Result<(), AllocError>
    ensures ok { OnOk result (out.new.items ≡ out.old.items ++ spec.file_words file) }
    ensures err { OnErr result (StartsWith out.new.items out.old.items) }
{
    match file {
        Some(number) => {
            out.extend_from_slice(b"file ")?;
            push_decimal(out, number)?;
            Ok(out.push(b' ')?)
        }
        None => Ok(()),
    }
}

/// Adds why a file is not the next segment.
fn push_fault(out: &mut Vec<u8>, fault: ChainFault) -> Result<(), AllocError>
    ensures ok { OnOk result (out.new.items ≡ out.old.items ++ spec.fault_line fault) }
    ensures err { OnErr result (StartsWith out.new.items out.old.items) }
{
    match fault {
        ChainFault::Differs { at, saved, right } => {
            push_verdict(out, &ReplayVerdict::Differs { at, saved, right })
        }
        ChainFault::Cut(line) => push_verdict(out, &ReplayVerdict::Cut(line)),
        ChainFault::Line(line) => push_verdict(out, &ReplayVerdict::Wrong(line)),
        ChainFault::Unreached => push_refusal(out, "H2", 2),
        ChainFault::Apart => push_refusal(out, "H3", 2),
        ChainFault::Memory => Err(AllocError),
    }
}

/// Adds the line that tells why a file is not the next segment, and which file it is, where there are several.
pub fn push_chain_fault(
    out: &mut Vec<u8>,
    file: Option<u64>,
    fault: ChainFault,
) -> Result<(), AllocError>
    ensures ok { OnOk result (out.new.items ≡ out.old.items ++ (spec.file_words file ++ spec.fault_line fault)) }
    ensures err { OnErr result (StartsWith out.new.items out.old.items) }
{
    push_file(out, file)?;
    push_fault(out, fault)
}
