//! What is known of all runs of a filter.
ghost use Rattle.std.specs.Prelude.{◌≡◌, IfOk, length};
ghost use Rattle.std.specs.List.{list_any};
ghost use Rattle.code_file.specs.Spelling.{spelling};
ghost use Rattle.filter_c.specs.Answers as spec;
ghost use Rattle.filter_c.specs.Answers.{AreBounds};

use code_file::write_code;
use filter_code::{Code, Instr};
use filter_verifier::Verified;
use std::alloc::{AllocError, Global};

/// The bounds of all runs of a filter, and what it reads.
#[repr(C)]
#[derive(Clone, Copy)]
pub struct Bounds {
    /// The number of bytes of its code file.
    pub code_size: u64,
    /// The size of the domains that the filter was verified for.
    pub size: u32,
    /// The most instructions that a run carries out.
    pub budget: u32,
    /// The most values on the stack during a run.
    pub depth: u32,
    /// Whether an instruction reads the prefix of the route.
    pub reads_prefix: bool,
    /// Whether an instruction reads the metric that was received, or the current one.
    pub reads_metric: bool,
}

/// Whether an instruction reads the prefix.
fn reads_prefix(instr: &Instr) -> bool
    ensures { result ≡ spec.reads_prefix instr.now }
{
    matches!(instr, Instr::Net)
}

/// Whether an instruction reads the metric.
fn reads_metric(instr: &Instr) -> bool
    ensures { result ≡ spec.reads_metric instr.now }
{
    matches!(instr, Instr::Metric | Instr::Received)
}

/// Whether one of some instructions reads the prefix.
fn some_read_prefix(instrs: &[Instr]) -> bool
    ensures { result ≡ list_any spec.reads_prefix instrs.now }
{
    instrs.iter().any(|instr| reads_prefix(instr))
}

/// Whether one of some instructions reads the metric.
fn some_read_metric(instrs: &[Instr]) -> bool
    ensures { result ≡ list_any spec.reads_metric instrs.now }
{
    instrs.iter().any(|instr| reads_metric(instr))
}

/// The number of bytes of the file of a code.
fn code_size(alloc: Global, code: &Code) -> Result<u64, AllocError>
    ensures { IfOk result (λ size. size ≡ length (spelling code.now)) }
{
    match write_code(alloc, code) {
        Ok(bytes) => Ok(bytes.len() as u64),
        Err(_) => Err(AllocError),
    }
}

/// The bounds of all runs.
pub(crate) fn bounds_of(alloc: Global, verified: &Verified) -> Result<Bounds, AllocError>
    ensures { IfOk result (AreBounds verified.now) }
{
    let code = verified.code();
    Ok(Bounds {
        code_size: code_size(alloc, code)?,
        size: verified.size(),
        budget: verified.budget(),
        depth: verified.depth(),
        reads_prefix: some_read_prefix(code.instrs()),
        reads_metric: some_read_metric(code.instrs()),
    })
}
