//! Code that is verified for domains of all sizes at once.
//!
//! **`eval` verifies its code once, for all sizes if that is possible.** The verifier accepts code for one size, and to verify it for each one that
//! comes would take longer than the routes, where they are few of a size. But a run depends on the size in one place: SETMETRIC sets at most the
//! size. Where no METRIC stands behind a SETMETRIC, no run reads what it set, since jumps go forward alone, and what is accepted in a small domain
//! is the metric of the largest one, or the size if that is less: `smaller_domains_clip_the_metric` is the law. So such code is verified for the
//! largest size, and serves in all. Other code, and code that is refused for the largest size, is verified for that of the first route. What is
//! written does not depend on this: other sizes, code that the verifier refuses and a lack of memory in the verifier lead to the machine that tests
//! each step.
ghost use Rattle.std.specs.Prelude.{◌≡◌, IsTrue, MatchResult};
ghost use Rattle.filter_code.specs.Limits.{largest_size};
ghost use Rattle.route_answers.specs.Sizes.{ReadsFirst};

use filter_code::{Code, Instr, LARGEST_SIZE};
use filter_verifier::{Verified, verify};
use std::alloc::Global;
use std::marker::Model;

/// Code that is verified for the largest domain, and serves in all others too, since no instruction reads the metric behind one
/// that sets it.
#[derive(Drop)]
pub(crate) struct ForAllSizes {
    verified: Verified,
}

impl Model for ForAllSizes {
    ghost use Rattle.std.specs.Prelude.{◌≡◌};
    ghost use Rattle.filter_code.specs.CodeView.{CodeView};
    ghost use Rattle.filter_code.specs.Limits.{largest_size};
    ghost use Rattle.route_answers.specs.Sizes.{ReadsFirst};

    ghost Value = { CodeView };

    ghost view = { λ all. all.verified.program };

    ghost invariant = { λ all. (all.verified.size ≡ largest_size) × ReadsFirst all.verified.program.instrs };
}

impl ForAllSizes {
    /// Verifies code for domains of all sizes, or hands it back.
    pub(crate) fn verify(alloc: Global, code: Code) -> Result<ForAllSizes, Code>
        ensures { MatchResult result (λ all. all ≡ code) (λ back. back ≡ code) }
    {
        if !reads_first(code.instrs()) {
            return Err(code);
        }
        match verify(alloc, code, LARGEST_SIZE) {
            Ok(verified) => Ok(ForAllSizes { verified }),
            Err((code, _)) => Err(code),
        }
    }

    /// The verified code.
    #[inline(always)]
    pub(crate) fn verified(&self) -> &Verified
        ensures code { result.now.program ≡ self.now }
        ensures size { result.now.size ≡ largest_size }
        ensures first { ReadsFirst result.now.program.instrs }
    {
        &self.verified
    }
}

/// Whether no instruction reads the metric behind one that sets it.
fn reads_first(instrs: &[Instr]) -> bool
    ensures { IsTrue result → ReadsFirst instrs.now }
{
    let mut is_set = false;
    for instr in instrs {
        if *instr == Instr::SetMetric {
            is_set = true;
        } else if is_set && *instr == Instr::Metric {
            return false;
        }
    }
    true
}
