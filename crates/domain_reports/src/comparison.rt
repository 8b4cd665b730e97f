//! What came of comparing two domains as a value of JSON, and as its line.
ghost use Rattle.std.specs.Prelude.{◌≡◌, ◌++◌, IfOk, OnOk};
ghost use Rattle.serde_json.specs.View.{view};
ghost use Rattle.domain_reports.specs.Reports as spec;
ghost use Rattle.domain_reports.specs.Views.{comparison_view};

use crate::failure::Fails;
use crate::lists::{pair_value, pairs_value};
use report_formats::{ObjectBuilder, push_value};
use serde_json::Value;
use std::alloc::{AllocError, Global};

/// What a failure does that it did not do before.
#[derive(Clone, Copy)]
pub struct HarmReport {
    /// What fails.
    pub what: Fails,
    /// How many routes it takes that it did not take before.
    pub loses: u32,
    /// How many it takes no longer.
    pub keeps: u32,
}

/// What came of comparing two domains. Of each pair the first node is that of which the routes are.
#[derive(Clone, Copy)]
pub struct ComparisonReport<'a> {
    /// The number of nodes of both.
    pub size: u16,
    /// Who no longer reaches whom.
    pub lost: &'a [(u16, u16)],
    /// Who reaches whom from now on.
    pub gained: &'a [(u16, u16)],
    /// Who reaches whom at another distance, or through another node.
    pub changed: &'a [(u16, u16)],
    /// What failures do that they did not do before.
    pub failures: &'a [HarmReport],
}

/// What a failure does that it did not do before, as an object.
fn harm_value(alloc: Global, harm: HarmReport) -> Result<Value, AllocError>
    ensures { IfOk result (λ value. view value ≡ spec.harm_data harm) }
{
    match harm.what {
        Fails::Link(u, w) => ObjectBuilder::new(alloc)
            .member("keeps", Value::from(harm.keeps))
            .try_member("link", pair_value(alloc, u, w))
            .member("loses", Value::from(harm.loses))
            .finish(),
        Fails::Node(x) => ObjectBuilder::new(alloc)
            .member("keeps", Value::from(harm.keeps))
            .member("loses", Value::from(harm.loses))
            .member("node", Value::from(x))
            .finish(),
    }
}

/// What failures do as a list.
fn harms_value(alloc: Global, harms: &[HarmReport]) -> Result<Value, AllocError>
    ensures { IfOk result (λ value. view value ≡ spec.list_data spec.harm_data harms.now) }
{
    let mut list = Vec::with_capacity(alloc, harms.len())?;
    for harm in harms {
        list.push(harm_value(alloc, *harm)?)?;
    }
    Ok(Value::Array(list))
}

/// A comparison as an object.
fn comparison_value(alloc: Global, comparison: &ComparisonReport<'_>) -> Result<Value, AllocError>
    ensures { IfOk result (λ value. view value ≡ spec.comparison_data (comparison_view comparison.now)) }
{
    ObjectBuilder::new(alloc)
        .try_member("changed", pairs_value(alloc, comparison.changed))
        .try_member("failures", harms_value(alloc, comparison.failures))
        .try_member("gained", pairs_value(alloc, comparison.gained))
        .try_member("lost", pairs_value(alloc, comparison.lost))
        .member("size", Value::from(comparison.size))
        .finish()
}

/// Puts the line of a comparison at the end of `out`.
pub fn push_comparison(
    alloc: Global,
    out: &mut Vec<u8>,
    comparison: &ComparisonReport<'_>,
) -> Result<(), AllocError>
    ensures { OnOk result (out.new.items ≡ out.old.items ++ spec.comparison_line (comparison_view comparison.now)) }
{
    let value = comparison_value(alloc, comparison)?;
    push_value(alloc, out, &value)
}
