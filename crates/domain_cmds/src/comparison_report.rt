//! What a change of a domain does, as programs read it.
ghost use Rattle.std.specs.Prelude.{◌≡◌, ◌++◌, IfOk, OnOk, map};
ghost use Rattle.domain_reports.specs.Reports.{comparison_line};
ghost use Rattle.domain_cmds.specs.Comparing.{comparison_view};
ghost use Rattle.domain_cmds.specs.Said as spec;

use crate::comparing::{Comparison, Harm};
use crate::said::fails_of;
use domain_reports::{ComparisonReport, HarmReport, push_comparison};
use std::alloc::{AllocError, Global};

/// What is said of a failure that does what it did not do before.
fn harm_report(harm: Harm) -> HarmReport
    ensures { result ≡ spec.harm_report harm }
{
    HarmReport {
        what: fails_of(harm.what),
        loses: harm.loses,
        keeps: harm.keeps,
    }
}

/// What is said of these.
fn harm_reports(alloc: Global, harms: &[Harm]) -> Result<Vec<HarmReport>, AllocError>
    ensures { IfOk result (λ reports. reports.items ≡ map spec.harm_report harms.now) }
{
    let mut reports = Vec::with_capacity(alloc, harms.len())?;
    for harm in harms {
        reports.push(harm_report(*harm))?;
    }
    Ok(reports)
}

/// Adds the line of a comparison.
pub(crate) fn push_report(
    alloc: Global,
    out: &mut Vec<u8>,
    found: &Comparison,
) -> Result<(), AllocError>
    ensures { OnOk result (out.new.items ≡ out.old.items ++ comparison_line (spec.comparison_report (comparison_view found.now))) }
{
    let failures = harm_reports(alloc, found.harms.as_slice())?;
    let report = ComparisonReport {
        size: found.size,
        lost: found.lost.as_slice(),
        gained: found.gained.as_slice(),
        changed: found.changed.as_slice(),
        failures: failures.as_slice(),
    };
    push_comparison(alloc, out, &report)
}
